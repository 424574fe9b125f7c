//! What is printed for the way back and for the mirror.
use crate::alike::{HomeAlike, MirrorAlike};
use anyhow::{Context, bail};
use boards::board_text::board_text;
use lattice::start::Start;
use lives::outcome::{Outcome, WayBack};
use std::io;
use std::io::Write;

fn show_board(rt: &HostRuntime, start: &Start, cells: &[u8]) -> anyhow::Result<()> {
    let text = board_text(start, cells, rt.alloc())?.context("the cells are no whole lattice")?;
    io::writer(rt).write_all(&text)?;
    Ok(())
}

// The third bench, which ran the reverse script.
pub(crate) fn show_home(
    rt: &HostRuntime,
    outcome: &Outcome,
    opening: (&Start, &[u8]),
    home: &[u8],
) -> anyhow::Result<()> {
    let WayBack::Gone(journey) = outcome.way_back else {
        bail!("there is no way back");
    };
    let made = journey.answer.context("the reverse script is refused")?;
    let (standing, undone, clock, _) = journey.counts;
    println!(rt; "home\t{made}\t{clock}\t{standing}\t{undone}")?;
    show_board(rt, &journey.start, home)?;
    let alike = HomeAlike::of(
        &journey.start,
        home,
        opening.0,
        opening.1,
        clock,
        outcome.counts.2,
    );
    println!(rt; "{alike}")?;
    Ok(())
}

// The mirror, a bench over the reverse of the map.
pub(crate) fn show_mirror(
    rt: &HostRuntime,
    outcome: &Outcome,
    cells: &[u8],
    mirror: &[u8],
) -> anyhow::Result<()> {
    let (standing, undone, clock, _) = outcome.mirror_counts;
    println!(rt; "mirror\t{clock}\t{standing}\t{undone}")?;
    let alike = MirrorAlike::of(cells, mirror, outcome.counts, outcome.mirror_counts);
    println!(rt; "{alike}")?;
    Ok(())
}
