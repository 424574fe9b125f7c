//! A bench in either state.
ghost use Rattle.std.specs.Prelude.{◌≡◌, ◌≤◌, unsigned_abs};
ghost use Rattle.any_bench.specs.Answers.{said, answered_if};
ghost use Rattle.any_bench.specs.AnyBenches.{any_map, any_start, any_ledger, any_handed};
ghost use Rattle.any_bench.specs.Calls.{booked_if, made_if};

use crate::answer::Answer;
use bench::bench::{Bench, Counts};
use bench::session::Session;
use faults::run::BenchRefusal;
use lattice::map::Map;
use lattice::start::Start;
use scripts::record::Record;

/// A bench whose state is known only when the program runs, as it is when the calls come from a text.
#[derive(Drop)]
pub enum AnyBench<'m, M> {
    /// At rest: steps, undoes and redoes.
    Rest(Bench<'m, M>),
    /// In session: takes flips.
    Session(Session<'m, M>),
}

impl From<Result<usize, BenchRefusal>> for Answer {
    ghost from_gives = { λ standing r. r ≡ said standing };

    fn from(standing: Result<usize, BenchRefusal>) -> Answer {
        match standing {
            Ok(count) => Answer::Standing(count),
            Err(cause) => Answer::Refused(cause),
        }
    }
}

impl<'m, M: Map> AnyBench<'m, M> {
    ghost use Rattle.lattice.specs.Starts.{phase_of};
    ghost use Rattle.ledger.specs.Ledgers.{at_opening, counts};
    ghost use Rattle.ledger.specs.Refusals.{max_clock};

    /// Opens a bench, at rest.
    pub fn new(map: &'m M, start: Start) -> AnyBench<'m, M>
        ensures map { any_map result ≡ map.now }
        ensures start { any_start result ≡ start }
        ensures ledger { any_ledger result ≡ at_opening }
    {
        AnyBench::Rest(Bench::new(map, start))
    }

    /// The start record of the lattice that is held now: its sides, and its phase.
    pub fn start(&self) -> Start
        ensures { result ≡ any_start self.now }
    {
        match self {
            AnyBench::Rest(bench) => bench.start(),
            AnyBench::Session(session) => session.start(),
        }
    }

    /// The count call; it is permitted in both states.
    pub fn counts(&self) -> Counts
        ensures numbers { result ≡ counts (any_ledger self.now) (phase_of (any_start self.now)) }
        ensures within { unsigned_abs result.2 ≤ max_clock }
    {
        match self {
            AnyBench::Rest(bench) => bench.counts(),
            AnyBench::Session(session) => session.counts(),
        }
    }

    /// Makes the call, or skips it where the state does not permit it. `open` and `close` ignore `cells`; the other calls need one byte for each cell.
    pub fn call(self, call: Record, cells: &mut [u8]) -> (AnyBench<'m, M>, Answer)
        ensures answer { result.1 ≡ answered_if (any_handed self.entry cells.old) call (any_ledger self.entry) }
        ensures ledger { any_ledger result.0 ≡ booked_if (any_handed self.entry cells.old) call (any_ledger self.entry) }
        ensures cells { any_handed result.0 cells.new ≡ made_if (M.forward (any_map self.entry)) (M.backward (any_map self.entry)) call (any_ledger self.entry) (any_handed self.entry cells.old) }
        ensures map { any_map result.0 ≡ any_map self.entry }
    {
        match (self, call) {
            (AnyBench::Rest(mut bench), Record::Step(count)) => {
                let answer = bench.step(count, cells).into();
                (AnyBench::Rest(bench), answer)
            }
            (AnyBench::Rest(mut bench), Record::Undo) => {
                let answer = bench.undo(cells).into();
                (AnyBench::Rest(bench), answer)
            }
            (AnyBench::Rest(mut bench), Record::Redo) => {
                let answer = bench.redo(cells).into();
                (AnyBench::Rest(bench), answer)
            }
            (AnyBench::Rest(bench), Record::Open) => (
                AnyBench::Session(bench.open()),
                Answer::Given,
            ),
            (AnyBench::Session(mut session), Record::Flip { col, row, mask }) => {
                let answer = session.flip(col, row, mask, cells).into();
                (AnyBench::Session(session), answer)
            }
            (AnyBench::Session(mut session), Record::Clear) => {
                let answer = session.clear(cells).into();
                (AnyBench::Session(session), answer)
            }
            (AnyBench::Session(session), Record::Close) => (
                AnyBench::Rest(session.close()),
                Answer::Given,
            ),
            (bench, _) => (bench, Answer::Skipped),
        }
    }
}
