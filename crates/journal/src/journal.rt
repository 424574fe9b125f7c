//! The journal of a bench at rest.
ghost use Rattle.std.specs.Prelude.{◌≡◌, ◌+◌, ◌<◌, ◌≤◌, length, take};
ghost use Rattle.std.specs.List.{All};
ghost use Rattle.ledger.specs.Ledgers.{clock_of};
ghost use Rattle.journal.specs.Views.{IsEntry, places, all_places, read};

use crate::backwards::Backwards;
use crate::entry::Entry;
use actions::action::ActionRef;
use actions::flip::Flip;
use actions::step_count::StepCount;
use faults::run::BenchRefusal;

pub(crate) const MAX_ENTRIES: usize = 256;

const NO_FLIP: Flip = Flip {
    col: 0,
    row: 0,
    mask: 0,
};

const NO_ENTRY: Entry = Entry::Edit(0);

/// The actions that stand and those that were undone. It has a fixed size and never allocates.
#[derive(Drop)]
pub struct Journal {
    // the actions that stand come first, then those that were undone
    pub(crate) entries: [Entry; MAX_ENTRIES],
    pub(crate) flips: [Flip; MAX_ENTRIES],
    pub(crate) standing: usize,
    undone: usize,
    // how many places the actions that stand take
    pub(crate) used: usize,
    ghost sizes: { (length entries ≡ 256) × (length flips ≡ 256) × (standing + undone ≤ 256) },
    ghost valid: { All IsEntry (take (standing + undone) entries) },
    ghost counted: { (used ≡ all_places (take standing entries)) × (all_places (take (standing + undone) entries) ≤ 256) },
}

impl Journal {
    ghost use Rattle.std.specs.Prelude.{[], unsigned_abs, map, option_to_list, ◌++◌, ◌∷◌, drop, Ok, ◌-◌};
    ghost use Rattle.actions.specs.Actions.{action_of, Step};
    ghost use Rattle.actions.specs.Answers.{unless};
    ghost use Rattle.actions.specs.StepCounts.{count_of};
    ghost use Rattle.journal.specs.Journals.{standing_of, undone_of, places_of};
    ghost use Rattle.ledger.specs.Ledgers.{entries};
    ghost use Rattle.ledger.specs.Refusals.{max_clock, if_room, if_accepted};

    /// A journal without any action.
    pub fn new() -> Journal
        ensures standing { standing_of result ≡ [] }
        ensures undone { undone_of result ≡ [] }
    {
        Journal {
            entries: [NO_ENTRY; MAX_ENTRIES],
            flips: [NO_FLIP; MAX_ENTRIES],
            standing: 0,
            undone: 0,
            used: 0,
        }
    }

    /// How many actions stand.
    pub fn standing(&self) -> usize
        ensures { result ≡ length (standing_of self.now) }
    {
        self.standing
    }

    /// How many actions were undone and can be redone.
    pub fn undone(&self) -> usize
        ensures { result ≡ length (undone_of self.now) }
    {
        self.undone
    }

    /// The clock: the counts of the steps that stand, added up.
    pub fn clock(&self) -> i32
        ensures sum { result ≡ clock_of (standing_of self.now) }
        ensures within { unsigned_abs result ≤ max_clock }
    {
        let mut clock = 0;
        for entry in &self.entries[..self.standing] {
            clock += entry.ticks();
        }
        clock
    }

    /// Returns the last action that stands, or `None` if none stands.
    pub fn last(&self) -> Option<ActionRef<'_>>
        ensures { map action_of (option_to_list result) ≡ drop (length (standing_of self.now) - 1) (standing_of self.now) }
    {
        Backwards::new(self).next()
    }

    /// Returns the action that a redo makes, or `None` if none was undone.
    pub fn next(&self) -> Option<ActionRef<'_>>
        ensures { map action_of (option_to_list result) ≡ take 1 (undone_of self.now) }
    {
        if self.undone == 0 {
            return None;
        }
        let entry = self.entries[self.standing];
        Some(match entry {
            Entry::Step(count) => ActionRef::Step(count),
            Entry::Edit(len) => {
                ActionRef::Edit(&self.flips[self.used..self.used + usize::from(len)])
            }
        })
    }

    /// Moves the last action that stands to the undone ones. Does nothing if none stands.
    pub fn step_back(&mut self)
        ensures standing { standing_of self.new ≡ take (length (standing_of self.old) - 1) (standing_of self.old) }
        ensures undone { undone_of self.new ≡ drop (length (standing_of self.old) - 1) (standing_of self.old) ++ undone_of self.old }
    {
        if self.standing == 0 {
            return;
        }
        self.used -= self.entries[self.standing - 1].places();
        self.standing -= 1;
        self.undone += 1;
    }

    /// Moves the action that a redo makes back to those that stand. Does nothing if none was undone.
    pub fn step_on(&mut self)
        ensures standing { standing_of self.new ≡ standing_of self.old ++ take 1 (undone_of self.old) }
        ensures undone { undone_of self.new ≡ drop 1 (undone_of self.old) }
    {
        if self.undone == 0 {
            return;
        }
        self.used += self.entries[self.standing].places();
        self.standing += 1;
        self.undone -= 1;
    }

    /// Forgets the actions that were undone.
    pub fn forget_undone(&mut self)
        ensures standing { standing_of self.new ≡ standing_of self.old }
        ensures undone { undone_of self.new ≡ [] }
    {
        self.undone = 0;
    }

    /// Adds a step, and forgets what was undone. Refused only with `JournalFull`, and then nothing changes.
    pub fn book_step(&mut self, count: StepCount) -> Result<(), BenchRefusal>
        ensures answer { result ≡ unless (if_room (entries (standing_of self.old))) tt }
        ensures standing { standing_of self.new ≡ if_accepted (if_room (entries (standing_of self.old))) (standing_of self.old ++ (Step (count_of count) ∷ [])) (standing_of self.old) }
        ensures undone { undone_of self.new ≡ if_accepted (if_room (entries (standing_of self.old))) [] (undone_of self.old) }
    {
        if self.used() >= MAX_ENTRIES {
            return Err(BenchRefusal::JournalFull);
        }
        self.forget_undone();
        self.push(Entry::Step(count));
        Ok(())
    }

    // How many entries the actions that stand take.
    pub(crate) fn used(&self) -> usize
        ensures { result ≡ entries (standing_of self.now) }
    {
        self.used
    }

    // Adds an action. If it is an edit, its flips are already in the first free places.
    pub(crate) fn push(&mut self, entry: Entry)
        requires valid { IsEntry entry }
        requires room { entries (standing_of self.old) + places entry ≤ 256 }
        requires nothing_undone { undone_of self.old ≡ [] }
        ensures standing { standing_of self.new ≡ standing_of self.old ++ (read entry (places_of self.old) ∷ []) }
        ensures undone { undone_of self.new ≡ [] }
    {
        self.entries[self.standing] = entry;
        self.used += entry.places();
        self.standing += 1;
    }

    // The first `count` of the free places.
    pub(crate) fn places(&self, count: usize) -> &[Flip]
        requires { entries (standing_of self.now) + count ≤ 256 }
        ensures { result.now ≡ take count (places_of self.now) }
    {
        let used = self.used();
        &self.flips[used..used + count]
    }

    // Writes a flip to the free place `at`, counted from 0.
    pub(crate) fn put(&mut self, at: usize, flip: Flip)
        requires room { entries (standing_of self.old) + at < 256 }
        requires nothing_undone { undone_of self.old ≡ [] }
        ensures standing { standing_of self.new ≡ standing_of self.old }
        ensures undone { undone_of self.new ≡ [] }
        ensures places { take (at + 1) (places_of self.new) ≡ take at (places_of self.old) ++ (flip ∷ []) }
    {
        let place = self.used() + at;
        self.flips[place] = flip;
    }
}
