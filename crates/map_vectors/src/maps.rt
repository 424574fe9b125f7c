//! The maps that are shown, kind by kind.
use anyhow::Context;
use block_map::map::BlockMap;
use cell_map::map::CellMap;
use lattice::map::Map;
use lattice::start::Start;
use layers::conjugate::Conjugate;
use layers::count::Count;
use layers::reverse::Reverse;
use layers::then::Then;
use layers::times::Times;
use lift::map::Lift;
use named_maps::named::NamedMap;
use rules::count::CountRule;
use samples::line::Line;
use samples::without_symmetry::{crooked, cycle, lopsided};

fn show(
    rt: &(impl Print + Alloc),
    kind: &str,
    name: &str,
    map: &impl Map,
    opening: Start,
) -> anyhow::Result<()> {
    let line = Line::of(kind, name, map, opening, &rt.alloc())?;
    println!(rt; "{line}")?;
    Ok(())
}

// Maps of one type, each with its name.
fn show_each<M: Map>(
    rt: &(impl Print + Alloc),
    kind: &str,
    maps: &[(&str, M)],
    opening: Start,
) -> anyhow::Result<()> {
    for (name, map) in maps {
        show(rt, kind, name, map, opening)?;
    }
    Ok(())
}

fn show_blocks(rt: &(impl Print + Alloc), opening: Start) -> anyhow::Result<()> {
    let maps = [
        ("bbm", BlockMap::new("bbm".parse().unwrap())),
        ("critters", BlockMap::new("critters".parse().unwrap())),
        ("tron", BlockMap::new("tron".parse().unwrap())),
        ("lopsided", BlockMap::new(lopsided())),
    ];
    show_each(rt, "block", &maps, opening)
}

fn show_cells(rt: &(impl Print + Alloc), opening: Start) -> anyhow::Result<()> {
    let maps = [
        ("exchange", CellMap::new("exchange".parse().unwrap())),
        ("complement", CellMap::new("complement".parse().unwrap())),
        ("cycle", CellMap::new(cycle())),
    ];
    show_each(rt, "cell", &maps, opening)
}

fn show_lifts(rt: &(impl Print + Alloc), opening: Start) -> anyhow::Result<()> {
    let counted = CountRule::new(74, 300).context("a sample is refused")?;
    show(rt, "lift", "counted", &Lift::new(counted), opening)?;
    show(rt, "lift", "crooked", &Lift::new(crooked()), opening)
}

fn show_stacks(rt: &(impl Print + Alloc), opening: Start) -> anyhow::Result<()> {
    let blocks = BlockMap::new(lopsided());
    let lift = Lift::new(crooked());
    let then = Then::new(blocks, lift);
    show(rt, "stack", "then", &then, opening)?;
    show(rt, "stack", "reversed", &Reverse::new(then), opening)?;
    let conjugated = Conjugate::new(lift, CellMap::new(cycle()));
    show(rt, "stack", "conjugated", &conjugated, opening)?;
    let five = Count::new(5).context("a sample is refused")?;
    show(rt, "stack", "times", &Times::new(then, five), opening)?;
    let none = Count::new(0).context("a sample is refused")?;
    show(rt, "stack", "never", &Times::new(blocks, none), opening)
}

fn show_named(rt: &(impl Print + Alloc), opening: Start) -> anyhow::Result<()> {
    let maps = [
        NamedMap::Bbm,
        NamedMap::Critters,
        NamedMap::Tron,
        NamedMap::Life2,
        NamedMap::Mixed,
    ];
    for map in maps {
        show(rt, "named", map.name(), &map, opening)?;
    }
    Ok(())
}

pub(crate) fn show_all(rt: &(impl Print + Alloc), opening: Start) -> anyhow::Result<()> {
    show_blocks(rt, opening)?;
    show_cells(rt, opening)?;
    show_lifts(rt, opening)?;
    show_stacks(rt, opening)?;
    show_named(rt, opening)
}
