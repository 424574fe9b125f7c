//! An action as it is stored.
ghost use Rattle.std.specs.Prelude.{◌≡◌, ◌≤◌, unsigned_abs};
ghost use Rattle.actions.specs.Limits.{max_step};
ghost use Rattle.journal.specs.Views.{places, entry_ticks};

use actions::step_count::StepCount;

/// A step or an edit. The flips of an edit are stored apart from it.
#[derive(Clone, Copy)]
pub enum Entry {
    /// A step by this count, which is negative for a step back.
    Step(StepCount),
    /// An edit with this many flips.
    Edit(u16),
}

impl Entry {
    /// How many of the journal's entries the action takes.
    pub fn places(self) -> usize
        ensures { result ≡ places self }
    {
        match self {
            Entry::Step(_) => 1,
            Entry::Edit(len) => usize::from(len),
        }
    }

    /// What the action adds to the clock.
    pub fn ticks(self) -> i32
        ensures number { result ≡ entry_ticks self }
        ensures within { unsigned_abs result ≤ max_step }
    {
        match self {
            Entry::Step(count) => count.get(),
            Entry::Edit(_) => 0,
        }
    }
}
