//! The pass that XORs a rule's values into all pasts, in place. Presents stay, so the order of the cells does not matter.
ghost use Rattle.std.specs.Prelude.{◌≡◌, ◌+◌, ◌*◌, ◌<◌};
ghost use Rattle.lattice.specs.EveryCell.{each_cell};
ghost use Rattle.lattice.specs.Lattice.{Whole};
ghost use Rattle.lattice.specs.Starts.{width_of, height_of, held};
ghost use Rattle.rules.specs.Neighbourhoods.{number_of};
ghost use Rattle.lift.specs.Moments.{xored};
ghost use Rattle.lift.specs.Progress.{answered, Answered};

use crate::band::Band;
use crate::torus::next;
use lattice::start::Start;
use rules::neighbourhood::Neighbourhood;
use rules::rule::LocalRule;

// The present stays, since neighbours that come later still read it.
fn answer_cell<R: LocalRule>(rule: &R, around: Neighbourhood, cell: u8) -> u8
    ensures { result ≡ xored cell (R.answer rule.now (number_of around)) }
{
    let past = cell / 2 % 2 + rule.answer_to(around);
    cell / 4 * 4 + past % 2 * 2 + cell % 2
}

// The cells of row y. The column to the west and that of the cell itself are known from earlier iterations. The loop uses indices instead of an
// iterator over the row, since the neighbours, some of them in other rows, are read from the slice that is written.
fn answer_row<R: LocalRule>(rule: &R, start: &Start, cells: &mut [u8], y: usize)
    requires whole { Whole (held start.now cells.old) }
    requires row { y < height_of start.now }
    ensures { Answered (R.answer rule.now) (width_of start.now) (height_of start.now) (y * width_of start.now) ((y + 1) * width_of start.now) cells.old cells.new }
{
    let width = start.width();
    let band = Band::around(start, y);
    let mut west = band.column(cells, width - 1);
    let mut here = band.column(cells, 0);
    for x in 0..width {
        let east = band.column(cells, next(width, x));
        let around = Neighbourhood::from_bits(west + 2 * here + 4 * east);
        let place = band.here + x;
        cells[place] = answer_cell(rule, around, cells[place]);
        west = here;
        here = east;
    }
}

// All cells, row by row. No row can be borrowed alone, since the rows beside it are read.
pub(crate) fn answer_cells<R: LocalRule>(rule: &R, start: &Start, cells: &mut [u8])
    requires whole { Whole (held start.now cells.old) }
    ensures { cells.new ≡ each_cell (answered (R.answer rule.now)) (held start.now cells.old) }
{
    for y in 0..start.height() {
        answer_row(rule, start, cells, y);
    }
}
