//! A whole life of a bench, with its mirror and the way back.
ghost use Rattle.std.specs.Bool.{Decides};
ghost use Rattle.lives.specs.Laws.{AllWhole, Lived, LifeIs};

use crate::event::Event;
use crate::memories::Memories;
use crate::outcome::Outcome;
use crate::pair::make_events;
use crate::way_back::go_back;
use faults::run::BenchRefusal;
use lattice::map::Map;
use lattice::start::Start;
use layers::reverse::Reverse;

/// Carries out the life of a bench: makes the calls of the events on a bench over `map`, and on its mirror, a bench over the reversed map that starts
/// with the same cells and gets every step count negated. An event that is not a call of the life is skipped. Unless a session is left open or
/// `script` is too short, a third bench over `map` gets a copy of the resulting cells and runs the reverse script. Refused with `Cells`, before
/// anything is done, if `cells`, `mirror` or `home` has the wrong length.
pub fn live<M: Map>(
    map: &M,
    start: Start,
    events: &[Event],
    memories: &mut Memories<'_>,
) -> Result<Outcome, BenchRefusal>
    ensures { LifeIs (M.Map.forward map.now) (M.Map.backward map.now) start events.now memories.old memories.new result }
{
    if !are_whole(&start, memories) {
        return Err(BenchRefusal::Cells);
    }
    Ok(live_through(map, start, events, memories))
}

// Whether the cells memories of the three benches have the right length.
fn are_whole(start: &Start, memories: &Memories<'_>) -> bool
    ensures { Decides result (AllWhole start.now memories.now) }
{
    start.is_whole(memories.cells)
        && start.is_whole(memories.mirror)
        && start.is_whole(memories.home)
}

fn live_through<M: Map>(
    map: &M,
    start: Start,
    events: &[Event],
    memories: &mut Memories<'_>,
) -> Outcome
    requires { AllWhole start memories.old }
    ensures { Lived (M.Map.forward map.now) (M.Map.backward map.now) start events.now memories.old memories.new result }
{
    let cells = &mut *memories.cells;
    let mirror = &mut *memories.mirror;
    mirror.copy_from_slice(cells);
    let reversed = Reverse::new(map);
    let second = &mut *memories.second;
    let seen = &mut *memories.seen;
    let (bench, image) = make_events(&reversed, start, events, cells, mirror, second, seen);
    let (end, counts) = (bench.start(), bench.counts());
    let (mirror_end, mirror_counts) = (image.start(), image.counts());
    let home = &mut *memories.home;
    let script = &mut *memories.script;
    let way_back = go_back(map, bench, cells, home, script);
    Outcome {
        start: end,
        counts,
        mirror_start: mirror_end,
        mirror_counts,
        way_back,
    }
}
