//! The journal of a bench in session.
ghost use Rattle.std.specs.Prelude.{◌≡◌, ◌+◌, ◌≤◌, []};
ghost use Rattle.journal.specs.Journals.{standing_of, undone_of};
ghost use Rattle.ledger.specs.Ledgers.{entries};

use crate::entry::Entry;
use crate::journal::{Journal, MAX_ENTRIES};
use actions::flip::Flip;
use faults::run::BenchRefusal;

/// The actions that stand, and the flips that the session has so far.
#[derive(Drop)]
pub struct OpenJournal {
    journal: Journal,
    // how many flips the session has; they are in the first free places of the journal
    count: usize,
    ghost room: { entries (standing_of journal) + count ≤ 256 },
    ghost nothing_undone: { undone_of journal ≡ [] },
}

impl OpenJournal {
    ghost use Rattle.std.specs.Prelude.{length, unsigned_abs, ◌++◌, ◌∷◌};
    ghost use Rattle.actions.specs.Answers.{unless};
    ghost use Rattle.journal.specs.OpenJournals.{open_standing, session_of};
    ghost use Rattle.ledger.specs.Ledgers.{edit_of, clock_of};
    ghost use Rattle.ledger.specs.Refusals.{max_clock, if_room, if_accepted};

    /// Starts a session without flips, and forgets what was undone.
    #[tactic(auto, using(crate::proofs::Used::standing_room))]
    pub fn new(journal: Journal) -> OpenJournal
        ensures standing { open_standing result ≡ standing_of journal }
        ensures session { session_of result ≡ [] }
    {
        let mut journal = journal;
        journal.forget_undone();
        OpenJournal { journal, count: 0 }
    }

    /// How many actions stand.
    pub fn standing(&self) -> usize
        ensures { result ≡ length (open_standing self.now) }
    {
        self.journal.standing()
    }

    /// The clock: the counts of the steps that stand, added up.
    pub fn clock(&self) -> i32
        ensures sum { result ≡ clock_of (open_standing self.now) }
        ensures within { unsigned_abs result ≤ max_clock }
    {
        self.journal.clock()
    }

    /// The flips of the session, in the order they were made.
    pub fn flips(&self) -> &[Flip]
        ensures { result.now ≡ session_of self.now }
    {
        self.journal.places(self.count)
    }

    /// Adds a flip to the session. Refused only with `JournalFull`.
    pub fn book_flip(&mut self, flip: Flip) -> Result<(), BenchRefusal>
        ensures answer { result ≡ unless (if_room (entries (open_standing self.old) + length (session_of self.old))) tt }
        ensures standing { open_standing self.new ≡ open_standing self.old }
        ensures session { session_of self.new ≡ if_accepted (if_room (entries (open_standing self.old) + length (session_of self.old))) (session_of self.old ++ (flip ∷ [])) (session_of self.old) }
    {
        if self.journal.used() + self.count >= MAX_ENTRIES {
            return Err(BenchRefusal::JournalFull);
        }
        self.journal.put(self.count, flip);
        self.count += 1;
        Ok(())
    }

    /// Drops the flips of the session. (Taking them back from the lattice is left to the caller.)
    pub fn clear(&mut self)
        ensures standing { open_standing self.new ≡ open_standing self.old }
        ensures session { session_of self.new ≡ [] }
    {
        self.count = 0;
    }

    /// Ends the session: its flips, if there are any, become one edit that stands.
    pub fn close(self) -> Journal
        ensures standing { standing_of result ≡ open_standing self ++ edit_of (session_of self) }
        ensures undone { undone_of result ≡ [] }
    {
        let mut journal = self.journal;
        if self.count > 0 {
            journal.push(Entry::Edit(self.count as u16));
        }
        journal
    }
}
