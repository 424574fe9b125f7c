//! The two moves of the lift. Each makes two passes over the cells.
ghost use Rattle.std.specs.Prelude.{◌≡◌};
ghost use Rattle.lattice.specs.Cells.{OnlyBelow};
ghost use Rattle.lattice.specs.EveryCell.{each_cell};
ghost use Rattle.lattice.specs.Lattice.{Whole};
ghost use Rattle.lattice.specs.Starts.{held};
ghost use Rattle.lift.specs.Maps.{lifted, unlifted};

use crate::answers::answer_cells;
use crate::exchange::exchange_cells;
use lattice::start::Start;
use rules::rule::LocalRule;

pub(crate) fn forward_cells<R: LocalRule>(rule: &R, start: &Start, cells: &mut [u8])
    requires whole { Whole (held start.now cells.old) }
    ensures cells { cells.new ≡ each_cell (lifted (R.answer rule.now)) (held start.now cells.old) }
    ensures low { OnlyBelow 4 cells.old cells.new }
{
    answer_cells(rule, start, cells);
    exchange_cells(cells);
}

pub(crate) fn backward_cells<R: LocalRule>(rule: &R, start: &Start, cells: &mut [u8])
    requires whole { Whole (held start.now cells.old) }
    ensures cells { cells.new ≡ each_cell (unlifted (R.answer rule.now)) (held start.now cells.old) }
    ensures low { OnlyBelow 4 cells.old cells.new }
{
    exchange_cells(cells);
    answer_cells(rule, start, cells);
}
