//! A bench at rest.
ghost use Rattle.std.specs.Prelude.{◌≡◌, ◌≤◌, length, unsigned_abs, IsOk};
ghost use Rattle.bench.specs.Benches.{map_of, start_of, ledger_of, handed};
ghost use Rattle.bench.specs.Calls.{answered, booked_by, made_by};
ghost use Rattle.bench.specs.Sessions.{session_map, session_start, session_ledger};
ghost use Rattle.reverse_script.specs.Written.{ScriptWritten, max_script};
ghost use Rattle.scripts.specs.declared.record.Record.TheVariants.{Step, Undo, Redo, Open};

use crate::session::Session;
use actions::action::move_by;
use actions::step_count::StepCount;
use faults::run::BenchRefusal;
use journal::journal::Journal;
use journal::open_journal::OpenJournal;
use lattice::map::Map;
use lattice::start::Start;
use reverse_script::refusal::ScriptRefusal;
use reverse_script::write::write_reverse_script;

/// The result of a count call: actions that stand, actions that were undone, the clock in steps, the phase (0 or 1).
pub type Counts = (usize, usize, i32, u8);

/// A bench at rest. It borrows its map and has no cells of its own: each call that needs cells borrows them from the caller, one byte for each cell.
#[derive(Drop)]
pub struct Bench<'m, M> {
    pub(crate) map: &'m M,
    pub(crate) start: Start,
    pub(crate) journal: Journal,
}

impl<'m, M: Map> Bench<'m, M> {
    ghost use Rattle.lattice.specs.Starts.{phase_of};
    ghost use Rattle.ledger.specs.Ledgers.{at_opening, counts, booked};
    ghost use Rattle.ledger.specs.Refusals.{max_clock};

    /// Opens a bench. No cells are lent to this call; those that the caller has now belong, with `start`, to the opening lattice.
    pub fn new(map: &'m M, start: Start) -> Bench<'m, M>
        ensures map { map_of result ≡ map.now }
        ensures start { start_of result ≡ start }
        ensures ledger { ledger_of result ≡ at_opening }
    {
        Bench {
            map,
            start,
            journal: Journal::new(),
        }
    }

    /// The start record of the lattice that is held now: its sides, and its phase.
    pub fn start(&self) -> Start
        ensures { result ≡ start_of self.now }
    {
        self.start
    }

    /// The count call, which needs no cells.
    pub fn counts(&self) -> Counts
        ensures numbers { result ≡ counts (ledger_of self.now) (phase_of (start_of self.now)) }
        ensures within { unsigned_abs result.2 ≤ max_clock }
    {
        (
            self.journal.standing(),
            self.journal.undone(),
            self.journal.clock(),
            self.start.phase(),
        )
    }

    /// Moves the lattice forward if `count` is positive, else back. Returns how many actions stand then.
    /// Refused with `Cells`, `StepCount` or `JournalFull`, in this order.
    pub fn step(&mut self, count: i32, cells: &mut [u8]) -> Result<usize, BenchRefusal>
        ensures answer { result ≡ answered (handed self.old cells.old) (Step count) (ledger_of self.old) }
        ensures ledger { ledger_of self.new ≡ booked_by (handed self.old cells.old) (Step count) (ledger_of self.old) }
        ensures cells { handed self.new cells.new ≡ made_by (M.forward (map_of self.old)) (M.backward (map_of self.old)) (Step count) (ledger_of self.old) (handed self.old cells.old) }
        ensures map { map_of self.new ≡ map_of self.old }
    {
        if !self.start.is_whole(cells) {
            return Err(BenchRefusal::Cells);
        }
        let count = StepCount::new(count)?;
        self.journal.book_step(count)?;
        move_by(self.map, count, &mut self.start, cells);
        Ok(self.journal.standing())
    }

    /// Takes back the last action that stands. Returns how many still stand. Refused with `Cells`, then with `NothingToUndo`.
    #[tactic(auto, using(ledger::proofs::Latest::none_latest))]
    pub fn undo(&mut self, cells: &mut [u8]) -> Result<usize, BenchRefusal>
        ensures answer { result ≡ answered (handed self.old cells.old) Undo (ledger_of self.old) }
        ensures ledger { ledger_of self.new ≡ booked_by (handed self.old cells.old) Undo (ledger_of self.old) }
        ensures cells { handed self.new cells.new ≡ made_by (M.forward (map_of self.old)) (M.backward (map_of self.old)) Undo (ledger_of self.old) (handed self.old cells.old) }
        ensures map { map_of self.new ≡ map_of self.old }
    {
        if !self.start.is_whole(cells) {
            return Err(BenchRefusal::Cells);
        }
        let Some(action) = self.journal.last() else {
            return Err(BenchRefusal::NothingToUndo);
        };
        action.take_back(self.map, &mut self.start, cells);
        self.journal.step_back();
        Ok(self.journal.standing())
    }

    /// Makes again the action that was undone last. Returns how many stand then. Refused with `Cells`, then with `NothingToRedo`.
    pub fn redo(&mut self, cells: &mut [u8]) -> Result<usize, BenchRefusal>
        ensures answer { result ≡ answered (handed self.old cells.old) Redo (ledger_of self.old) }
        ensures ledger { ledger_of self.new ≡ booked_by (handed self.old cells.old) Redo (ledger_of self.old) }
        ensures cells { handed self.new cells.new ≡ made_by (M.forward (map_of self.old)) (M.backward (map_of self.old)) Redo (ledger_of self.old) (handed self.old cells.old) }
        ensures map { map_of self.new ≡ map_of self.old }
    {
        if !self.start.is_whole(cells) {
            return Err(BenchRefusal::Cells);
        }
        let Some(action) = self.journal.next() else {
            return Err(BenchRefusal::NothingToRedo);
        };
        action.make(self.map, &mut self.start, cells);
        self.journal.step_on();
        Ok(self.journal.standing())
    }

    /// Writes a script that, run on what is held, restores the opening lattice: it undoes the actions that stand, from the last to the first, and
    /// has a session for each edit. Returns its length in bytes. Refused with `MemoryTooShort` if it does not fit.
    pub fn reverse_script(&self, memory: &mut [u8]) -> Result<usize, ScriptRefusal>
        ensures answer { ScriptWritten (ledger_of self.now).standing memory.old memory.new result }
        // a memory of 7,168 bytes is never too short
        ensures enough { max_script ≤ length memory.old → IsOk result }
    {
        write_reverse_script(&self.journal, memory)
    }

    /// Starts a session, and forgets what was undone.
    pub fn open(self) -> Session<'m, M>
        ensures ledger { session_ledger result ≡ booked Open (ledger_of self.entry) }
        ensures start { session_start result ≡ start_of self.entry }
        ensures map { session_map result ≡ map_of self.entry }
    {
        Session {
            map: self.map,
            start: self.start,
            journal: OpenJournal::new(self.journal),
        }
    }
}
