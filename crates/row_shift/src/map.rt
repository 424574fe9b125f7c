//! The row shift as a map.
ghost use Rattle.std.specs.Prelude.{◌≡◌};
ghost use Rattle.row_shift.specs.Shifts.{row_forward, row_backward};
ghost use Rattle.row_shift.specs.Laws.{shift_laws};

use crate::rows::shift_rows;
use crate::way::Way;
use lattice::map::Map;
use lattice::start::Start;

/// The map that moves every row by one cell round the torus: to the east in a move forward.
#[derive(Clone, Copy)]
pub struct RowShift;

impl RowShift {
    /// The row shift. There is only one, since it holds nothing.
    pub fn new() -> RowShift
        ensures { result ≡ record {} }
    {
        RowShift
    }
}

impl Map for RowShift {
    ghost forward = { λ _. row_forward };

    ghost backward = { λ _. row_backward };

    ghost laws = { λ _. shift_laws };

    // One cell east, with all bits of each cell; the phase stays.
    fn advance(&self, start: &mut Start, cells: &mut [u8]) {
        if start.is_whole(cells) {
            shift_rows(Way::East, start, cells);
        }
    }

    // One cell west.
    fn retreat(&self, start: &mut Start, cells: &mut [u8]) {
        if start.is_whole(cells) {
            shift_rows(Way::West, start, cells);
        }
    }
}
