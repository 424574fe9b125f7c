//! The two ways along a row.
ghost use Rattle.std.specs.Prelude.{◌≡◌, ◌<◌, length, slice_index, EachIndex};
ghost use Rattle.row_shift.specs.Shifts.{comes_from};

#[derive(Clone, Copy)]
pub(crate) enum Way {
    East,
    West,
}

impl Way {
    // Moves the cells of a row by one. The cell that leaves at one end comes in at the other.
    pub(crate) fn shift(self, row: &mut [u8])
        requires { 0 < length row.old }
        ensures { EachIndex row.new (λ x. slice_index row.new x ≡ slice_index row.old (comes_from self (length row.old) x)) }
    {
        match self {
            Way::East => row.rotate_right(1),
            Way::West => row.rotate_left(1),
        }
    }
}
