//! Moves four lattices forward and back by as many moves, draws them, and prints whether each is restored.
#![tactic(auto)]

ghost use Rattle.std.specs.Prelude.{◌≡◌, if◌then◌else◌, codes};

mod drawing;
mod scene;

use anyhow::Context;
use drawing::draw;
use lattice::map::Map;
use lattice::round_trip::round_trip;
use lattice::start::Start;
use named_maps::blocks::{bbm, critters};
use named_maps::life2::life2;
use named_maps::mixed::mixed;
use scene::Scene;

const WIDTH: u32 = 48;

const HEIGHT: u32 = 24;

const STEPS: u32 = 200;

const LONG: u32 = 5000;

fn yes_or_no(same: bool) -> &'static str
    ensures { result.now ≡ (if same then codes "yes" else codes "no") }
{
    if same { "yes" } else { "no" }
}

fn journey(
    rt: &(impl Print + Alloc),
    name: &str,
    map: &impl Map,
    scene: Scene,
) -> anyhow::Result<()> {
    let opening = Start::new(WIDTH, HEIGHT, 0).context("the start record is refused")?;
    let first = scene.cells(rt.alloc(), &opening)?;
    let mut start = opening;
    let mut cells = first.clone()?;
    let mut far = first.clone()?;
    println!(rt; "{name}: {WIDTH} by {HEIGHT} cells, {STEPS} steps forward and {STEPS} back")?;
    draw(rt, "first", &start, &cells)?;
    let turning = round_trip(map, STEPS, &mut start, &mut cells, &mut far);
    draw(rt, "farthest", &turning, &far)?;
    draw(rt, "last", &start, &cells)?;
    let home = yes_or_no(cells == first && start == opening);
    println!(rt; "the last lattice equals the first: {home}")?;
    round_trip(map, LONG, &mut start, &mut cells, &mut far);
    let home = yes_or_no(cells == first && start == opening);
    println!(rt; "and after {LONG} steps more, forward and back: {home}")?;
    Ok(())
}

fn run(rt: &(impl Print + Alloc)) -> anyhow::Result<()> {
    journey(rt, "critters", &critters(), Scene::Soup)?;
    println!(rt; "")?;
    journey(rt, "bbm", &bbm(), Scene::Gas)?;
    println!(rt; "")?;
    journey(rt, "life2", &life2(), Scene::Soup)?;
    println!(rt; "")?;
    journey(rt, "mixed", &mixed(), Scene::Gas)
}

fn main(rt: HostRuntime) -> anyhow::Result<()> {
    run(&rt)
}
