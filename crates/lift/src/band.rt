//! Three neighbouring rows, and the presents that they have in a column.
ghost use Rattle.std.specs.Prelude.{◌≡◌, ◌*◌, ◌<◌};
ghost use Rattle.lattice.specs.Lattice.{Whole};
ghost use Rattle.lattice.specs.Starts.{width_of, height_of, held};
ghost use Rattle.lattice.specs.Torus.{after, before};
ghost use Rattle.lift.specs.Progress.{column};

use crate::torus::{next, previous};
use lattice::start::Start;

// Row y with the rows above and below it: the places where the three begin.
#[derive(Clone, Copy)]
pub(crate) struct Band {
    start: Start,
    y: usize,
    north: usize,
    pub(crate) here: usize,
    south: usize,
    ghost inside: { y < height_of start },
    ghost above: { north ≡ before (height_of start) y * width_of start },
    ghost row: { here ≡ y * width_of start },
    ghost below: { south ≡ after (height_of start) y * width_of start },
}

impl Band {
    // The rows around row y.
    pub(crate) fn around(start: &Start, y: usize) -> Band
        requires row { y < height_of start.now }
        ensures start { result.start ≡ start.now }
        ensures row { result.y ≡ y }
    {
        let (width, height) = (start.width(), start.height());
        Band {
            start: *start,
            y,
            north: previous(height, y) * width,
            here: y * width,
            south: next(height, y) * width,
        }
    }

    // The presents of column x, with the weights of the western column of a neighbourhood.
    pub(crate) fn column(&self, cells: &[u8], x: usize) -> u16
        requires whole { Whole (held self.now.start cells.now) }
        requires inside { x < width_of self.now.start }
        ensures { result ≡ column (width_of self.now.start) (height_of self.now.start) cells.now x self.now.y }
    {
        let north = u16::from(cells[self.north + x] % 2);
        let here = u16::from(cells[self.here + x] % 2);
        let south = u16::from(cells[self.south + x] % 2);
        north + 8 * here + 64 * south
    }
}
