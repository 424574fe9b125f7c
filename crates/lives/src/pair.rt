//! A bench and its mirror, with the same events.
ghost use Rattle.std.specs.Prelude.{◌≡◌, length};
ghost use Rattle.any_bench.specs.AnyBenches.{any_map, any_start, any_ledger, any_handed};
ghost use Rattle.lattice.specs.Lattice.{Whole};
ghost use Rattle.lattice.specs.Starts.{held};
ghost use Rattle.ledger.proofs.Mirrored.{mirrored as mirrored_ledger};
ghost use Rattle.ledger.specs.Ledgers.{at_opening};
ghost use Rattle.lives.specs.Lives.{life_ledger, life_lattice};
ghost use Rattle.lives.specs.Mirrors.{bench_map};
ghost use Rattle.lives.specs.Seen.{Recorded};

use crate::calls::make_event;
use crate::event::{Event, Seen};
use crate::mirror::mirrored;
use any_bench::call::AnyBench;
use lattice::map::Map;
use lattice::start::Start;
use layers::reverse::Reverse;

// Opens a bench over the map that `map` is the reverse of, and its mirror over `map`.
fn open_both<'m, M: Map>(
    map: &'m Reverse<&'m M>,
    start: Start,
) -> (AnyBench<'m, M>, AnyBench<'m, Reverse<&'m M>>)
    ensures map { any_map result.0 ≡ bench_map map.now }
    ensures start { any_start result.0 ≡ start }
    ensures ledger { any_ledger result.0 ≡ at_opening }
    ensures mirror_map { any_map result.1 ≡ map.now }
    ensures mirror_start { any_start result.1 ≡ start }
    ensures mirror_ledger { any_ledger result.1 ≡ at_opening }
{
    let bench = AnyBench::new(*map.inner(), start);
    let image = AnyBench::new(map, start);
    (bench, image)
}

// Opens both and makes all events on both. `seen` receives their reports, as long as there are places.
pub(crate) fn make_events<'m, M: Map>(
    map: &'m Reverse<&'m M>,
    start: Start,
    events: &[Event],
    cells: &mut [u8],
    mirror: &mut [u8],
    second: &mut [u8],
    seen: &mut [Seen],
) -> (AnyBench<'m, M>, AnyBench<'m, Reverse<&'m M>>)
    requires whole { Whole (held start cells.old) }
    requires copy { mirror.old ≡ cells.old }
    ensures ledger { any_ledger result.0 ≡ life_ledger (held start cells.old) (length second.old) events.now }
    ensures cells { any_handed result.0 cells.new ≡ life_lattice (M.forward (bench_map map.now)) (M.backward (bench_map map.now)) (held start cells.old) (length second.old) events.now }
    ensures mirror_ledger { any_ledger result.1 ≡ mirrored_ledger (life_ledger (held start cells.old) (length second.old) events.now) }
    ensures mirror { any_handed result.1 mirror.new ≡ life_lattice (M.forward (bench_map map.now)) (M.backward (bench_map map.now)) (held start cells.old) (length second.old) events.now }
    ensures seen { Recorded (M.forward (bench_map map.now)) (M.backward (bench_map map.now)) (held start cells.old) (length second.old) events.now seen.old seen.new }
    ensures second { second.new ≡ second.old }
    ensures map { any_map result.0 ≡ bench_map map.now }
{
    let (mut bench, mut image) = open_both(map, start);
    for k in 0..events.len() {
        let event = events[k];
        let (next, reply) = make_event(bench, event, cells, second);
        let (next_image, mirror_reply) = make_event(image, mirrored(event), mirror, second);
        bench = next;
        image = next_image;
        if k < seen.len() {
            seen[k] = Seen {
                bench: reply,
                mirror: mirror_reply,
            };
        }
    }
    (bench, image)
}
