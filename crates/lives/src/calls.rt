//! The calls of a life.
ghost use Rattle.std.specs.Prelude.{◌≡◌, ◌≢◌, ◌*◌, ℕ, List, length, true, if◌then◌else◌};
ghost use Rattle.any_bench.specs.AnyBenches.{any_map, any_start, any_ledger, any_handed};
ghost use Rattle.any_bench.specs.declared.answer.Answer.TheVariants.{Skipped, Refused};
ghost use Rattle.faults.specs.declared.run.BenchRefusal.TheVariants.{Cells};
ghost use Rattle.lattice.specs.Lattice.{Whole};
ghost use Rattle.lattice.specs.Starts.{width_of, height_of, phase_of};
ghost use Rattle.ledger.specs.Ledgers.{counts};
ghost use Rattle.ledger.specs.Refusals.{takes_cells};
ghost use Rattle.lives.specs.Events.{event_answered, event_booked, event_made};
ghost use Rattle.scripts.specs.Records.{kind_of};
ghost use Rattle.scripts.specs.States.{permits};

use crate::event::{Event, Lent, Reply};
use any_bench::answer::Answer;
use any_bench::call::AnyBench;
use lattice::map::Map;
use scripts::record::Record;

fn needs_cells(call: Record) -> bool
    ensures { result ≡ takes_cells call }
{
    !matches!(call, Record::Open | Record::Close)
}

// Makes a call that needs cells with a memory that is too long or too short: it is refused, or skipped where the state does not permit it.
fn call_elsewhere<'m, M: Map>(
    bench: AnyBench<'m, M>,
    call: Record,
    part: &mut [u8],
) -> (AnyBench<'m, M>, Answer)
    requires takes { takes_cells call ≡ true }
    requires other { length part.old ≢ width_of (any_start bench) * height_of (any_start bench) }
    ensures answer { result.1 ≡ (if permits (any_ledger bench.entry).state (kind_of call) then Refused Cells else Skipped) }
    ensures ledger { any_ledger result.0 ≡ any_ledger bench.entry }
    ensures held { (cs : List ℕ) → any_handed result.0 cs ≡ any_handed bench.entry cs }
    ensures part { part.new ≡ part.old }
    ensures map { any_map result.0 ≡ any_map bench.entry }
{
    bench.call(call, part)
}

// Makes the call of an event, or skips it if it is not a call of the life, and then reads the counts.
pub(crate) fn make_event<'m, M: Map>(
    bench: AnyBench<'m, M>,
    event: Event,
    cells: &mut [u8],
    second: &mut [u8],
) -> (AnyBench<'m, M>, Reply)
    requires { Whole (any_handed bench cells.old) }
    ensures answer { result.1.answer ≡ event_answered (width_of (any_start bench.entry)) (height_of (any_start bench.entry)) (length second.old) event (any_ledger bench.entry) }
    ensures ledger { any_ledger result.0 ≡ event_booked (width_of (any_start bench.entry)) (height_of (any_start bench.entry)) (length second.old) event (any_ledger bench.entry) }
    ensures cells { any_handed result.0 cells.new ≡ event_made (M.forward (any_map bench.entry)) (M.backward (any_map bench.entry)) (length second.old) event (any_ledger bench.entry) (any_handed bench.entry cells.old) }
    ensures counts { result.1.counts ≡ counts (any_ledger result.0) (phase_of (any_start result.0)) }
    ensures second { second.new ≡ second.old }
    ensures map { any_map result.0 ≡ any_map bench.entry }
{
    let (bench, answer) = make_call(bench, event, cells, second);
    let counts = bench.counts();
    (bench, Reply { answer, counts })
}

fn make_call<'m, M: Map>(
    bench: AnyBench<'m, M>,
    event: Event,
    cells: &mut [u8],
    second: &mut [u8],
) -> (AnyBench<'m, M>, Answer)
    requires { Whole (any_handed bench cells.old) }
    ensures answer { result.1 ≡ event_answered (width_of (any_start bench.entry)) (height_of (any_start bench.entry)) (length second.old) event (any_ledger bench.entry) }
    ensures ledger { any_ledger result.0 ≡ event_booked (width_of (any_start bench.entry)) (height_of (any_start bench.entry)) (length second.old) event (any_ledger bench.entry) }
    ensures cells { any_handed result.0 cells.new ≡ event_made (M.forward (any_map bench.entry)) (M.backward (any_map bench.entry)) (length second.old) event (any_ledger bench.entry) (any_handed bench.entry cells.old) }
    ensures second { second.new ≡ second.old }
    ensures map { any_map result.0 ≡ any_map bench.entry }
{
    if !needs_cells(event.call) {
        return bench.call(event.call, cells);
    }
    let Lent::Part(len) = event.lent else {
        return bench.call(event.call, cells);
    };
    let end = len.min(second.len());
    let part = &mut second[..end];
    if bench.start().is_whole(part) {
        return (bench, Answer::Skipped);
    }
    call_elsewhere(bench, event.call, part)
}
