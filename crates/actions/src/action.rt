//! Actions: steps and edits, made and taken back.
ghost use Rattle.std.specs.Prelude.{◌≡◌};
ghost use Rattle.lattice.specs.Starts.{held};
ghost use Rattle.actions.specs.Actions.{moved, made, reversed};
ghost use Rattle.actions.specs.StepCounts.{count_of};

use crate::flip::{Flip, make_flips, take_back_flips};
use crate::step_count::StepCount;
use lattice::map::Map;
use lattice::start::Start;

/// Moves the lattice by `count` steps: forward if it is positive, back if it is negative.
pub fn move_by<M: Map>(map: &M, count: StepCount, start: &mut Start, cells: &mut [u8])
    ensures { held start.new cells.new ≡ moved (M.forward map.now) (M.backward map.now) (count_of count) (held start.old cells.old) }
{
    let number = count.get();
    if number > 0 {
        map.advance_by(number.unsigned_abs(), start, cells);
    } else {
        map.retreat_by(number.unsigned_abs(), start, cells);
    }
}

/// An action that borrows its flips from where they are stored.
#[derive(Clone, Copy)]
pub enum ActionRef<'a> {
    /// A step by this count, which is negative for a step back.
    Step(StepCount),
    /// An edit: the flips of a closed session, the first one first.
    Edit(&'a [Flip]),
}

impl ActionRef<'_> {
    ghost use Rattle.actions.specs.Actions.{action_of};

    /// Makes the action.
    pub fn make<M: Map>(self, map: &M, start: &mut Start, cells: &mut [u8])
        ensures { held start.new cells.new ≡ made (M.forward map.now) (M.backward map.now) (action_of self.entry) (held start.old cells.old) }
    {
        match self {
            ActionRef::Step(count) => move_by(map, count, start, cells),
            ActionRef::Edit(flips) => make_flips(flips, start, cells),
        }
    }

    /// Undoes the action. A step is undone by its opposite; of an edit the newest flip goes first.
    pub fn take_back<M: Map>(self, map: &M, start: &mut Start, cells: &mut [u8])
        ensures { held start.new cells.new ≡ made (M.forward map.now) (M.backward map.now) (reversed (action_of self.entry)) (held start.old cells.old) }
    {
        match self {
            ActionRef::Step(count) => move_by(map, count.opposite(), start, cells),
            ActionRef::Edit(flips) => take_back_flips(flips, start, cells),
        }
    }
}
