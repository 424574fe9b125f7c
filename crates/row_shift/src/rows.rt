//! Moving the cells of every row by one, in place.
ghost use Rattle.std.specs.Prelude.{◌≡◌};
ghost use Rattle.lattice.specs.EveryCell.{each_cell};
ghost use Rattle.lattice.specs.Lattice.{Whole};
ghost use Rattle.lattice.specs.Starts.{held};
ghost use Rattle.row_shift.specs.Shifts.{shifted};

use crate::way::Way;
use lattice::start::Start;

// By ranges: after `chunks_exact_mut` a proof would know how many cells a row has, but not which.
pub(crate) fn shift_rows(way: Way, start: &Start, cells: &mut [u8])
    requires whole { Whole (held start.now cells.old) }
    ensures { cells.new ≡ each_cell (shifted way) (held start.now cells.old) }
{
    let width = start.width();
    for y in 0..start.height() {
        way.shift(&mut cells[y * width..(y + 1) * width]);
    }
}
