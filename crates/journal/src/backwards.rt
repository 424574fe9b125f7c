//! The actions that stand, from the last to the first.
ghost use Rattle.std.specs.Prelude.{◌≡◌, ◌≤◌, take};
ghost use Rattle.journal.specs.Views.{all_places};

use crate::entry::Entry;
use crate::journal::Journal;
use actions::action::ActionRef;

/// Goes through the standing actions of a journal, the last one first.
#[derive(Clone, Copy)]
pub struct Backwards<'j> {
    pub(crate) journal: &'j Journal,
    // how many actions are left
    pub(crate) count: usize,
    // how many places their entries take
    pub(crate) end: usize,
    ghost inside: { count ≤ journal.now.standing },
    ghost places: { end ≡ all_places (take count journal.now.entries) },
}

impl<'j> Backwards<'j> {
    ghost use Rattle.std.specs.Prelude.{◌-◌, map, option_to_list, length, drop};
    ghost use Rattle.actions.specs.Actions.{action_of};
    ghost use Rattle.journal.specs.Backwards.{left_of};
    ghost use Rattle.journal.specs.Journals.{standing_of};

    /// Starts with all actions that stand.
    pub fn new(journal: &'j Journal) -> Backwards<'j>
        ensures { left_of result ≡ standing_of journal.now }
    {
        Backwards {
            journal,
            count: journal.standing,
            end: journal.used,
        }
    }

    /// Returns the last of the actions that are left, or `None` if none is left.
    pub fn next(&mut self) -> Option<ActionRef<'j>>
        ensures given { map action_of (option_to_list result) ≡ drop (length (left_of self.old) - 1) (left_of self.old) }
        ensures left { left_of self.new ≡ take (length (left_of self.old) - 1) (left_of self.old) }
    {
        if self.count == 0 {
            return None;
        }
        let end = self.end;
        let flips = &self.journal.flips[..];
        let entry = self.journal.entries[self.count - 1];
        self.count -= 1;
        self.end -= entry.places();
        Some(match entry {
            Entry::Step(count) => ActionRef::Step(count),
            Entry::Edit(_) => ActionRef::Edit(&flips[self.end..end]),
        })
    }
}
