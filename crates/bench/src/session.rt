//! A bench in session.
ghost use Rattle.std.specs.Prelude.{◌≡◌, ◌≤◌, unsigned_abs};
ghost use Rattle.bench.specs.Benches.{map_of, start_of, ledger_of};
ghost use Rattle.bench.specs.Calls.{answered, booked_by, made_by};
ghost use Rattle.bench.specs.Sessions.{session_map, session_start, session_ledger, session_handed};
ghost use Rattle.scripts.specs.declared.record.Record.TheVariants.{Flip as FlipCall, Clear, Close};

use crate::bench::{Bench, Counts};
use actions::flip::{Flip, take_back_flips};
use faults::run::BenchRefusal;
use journal::open_journal::OpenJournal;
use lattice::map::Map;
use lattice::start::Start;

/// A bench in session: it takes flips, and closing the session makes an edit of them. To step, close it first.
#[derive(Drop)]
pub struct Session<'m, M> {
    pub(crate) map: &'m M,
    pub(crate) start: Start,
    pub(crate) journal: OpenJournal,
}

impl<'m, M: Map> Session<'m, M> {
    ghost use Rattle.lattice.specs.Starts.{phase_of};
    ghost use Rattle.ledger.specs.Ledgers.{counts, booked};
    ghost use Rattle.ledger.specs.Refusals.{max_clock};

    /// The start record of the lattice that is held now: its sides, and its phase.
    pub fn start(&self) -> Start
        ensures { result ≡ session_start self.now }
    {
        self.start
    }

    /// The count call, which needs no cells. Flips of the session are no action yet.
    pub fn counts(&self) -> Counts
        ensures numbers { result ≡ counts (session_ledger self.now) (phase_of (session_start self.now)) }
        ensures within { unsigned_abs result.2 ≤ max_clock }
    {
        (
            self.journal.standing(),
            0,
            self.journal.clock(),
            self.start.phase(),
        )
    }

    /// Flips the bits of the mask in one cell; columns and rows count from 0. Returns how many actions stand, which a flip leaves as it is.
    /// Refused with `Cells`, `OffLattice`, `Mask` or `JournalFull`, in this order.
    pub fn flip(
        &mut self,
        col: u32,
        row: u32,
        mask: u32,
        cells: &mut [u8],
    ) -> Result<usize, BenchRefusal>
        ensures answer { result ≡ answered (session_handed self.old cells.old) (FlipCall col row mask) (session_ledger self.old) }
        ensures ledger { session_ledger self.new ≡ booked_by (session_handed self.old cells.old) (FlipCall col row mask) (session_ledger self.old) }
        ensures cells { session_handed self.new cells.new ≡ made_by (M.forward (session_map self.old)) (M.backward (session_map self.old)) (FlipCall col row mask) (session_ledger self.old) (session_handed self.old cells.old) }
        ensures map { session_map self.new ≡ session_map self.old }
    {
        if !self.start.is_whole(cells) {
            return Err(BenchRefusal::Cells);
        }
        let flip = Flip::new(&self.start, col, row, mask)?;
        self.journal.book_flip(flip)?;
        flip.make(&self.start, cells);
        Ok(self.journal.standing())
    }

    /// Takes back the flips of the session, which stays open. Returns how many actions stand. Refused only with `Cells`.
    pub fn clear(&mut self, cells: &mut [u8]) -> Result<usize, BenchRefusal>
        ensures answer { result ≡ answered (session_handed self.old cells.old) Clear (session_ledger self.old) }
        ensures ledger { session_ledger self.new ≡ booked_by (session_handed self.old cells.old) Clear (session_ledger self.old) }
        ensures cells { session_handed self.new cells.new ≡ made_by (M.forward (session_map self.old)) (M.backward (session_map self.old)) Clear (session_ledger self.old) (session_handed self.old cells.old) }
        ensures map { session_map self.new ≡ session_map self.old }
    {
        if !self.start.is_whole(cells) {
            return Err(BenchRefusal::Cells);
        }
        take_back_flips(self.journal.flips(), &self.start, cells);
        self.journal.clear();
        Ok(self.journal.standing())
    }

    /// Ends the session. Its flips become one action; without any flip nothing is added.
    pub fn close(self) -> Bench<'m, M>
        ensures ledger { ledger_of result ≡ booked Close (session_ledger self.entry) }
        ensures start { start_of result ≡ session_start self.entry }
        ensures map { map_of result ≡ session_map self.entry }
    {
        Bench {
            map: self.map,
            start: self.start,
            journal: self.journal.close(),
        }
    }
}
