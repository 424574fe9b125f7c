//! Flips: masks that are XORed into single cells.
ghost use Rattle.std.specs.Prelude.{◌≡◌, reverse};
ghost use Rattle.lattice.specs.Starts.{width_of, height_of, held};
ghost use Rattle.actions.specs.Answers.{unless};
ghost use Rattle.actions.specs.Flips.{flip_refusal, flipped, all_flipped};

use faults::run::BenchRefusal;
use lattice::start::Start;

const MAX_MASK: u32 = 255;

/// A mask to be XORed into one cell, which is given by its column and row, both counted from 0.
#[derive(Clone, Copy, PartialEq, Eq, Debug)]
pub struct Flip {
    pub col: u8,
    pub row: u8,
    pub mask: u8,
}

impl Flip {
    /// A flip on a lattice with these sides. Refused with `OffLattice`, then with `Mask`, which must be a byte other than 0.
    pub fn new(start: &Start, col: u32, row: u32, mask: u32) -> Result<Flip, BenchRefusal>
        ensures { result ≡ unless (flip_refusal (width_of start.now) (height_of start.now) col row mask) (record { col = col; row = row; mask = mask }) }
    {
        if col as usize >= start.width() || row as usize >= start.height() {
            return Err(BenchRefusal::OffLattice);
        }
        if mask == 0 || mask > MAX_MASK {
            return Err(BenchRefusal::Mask);
        }
        Ok(Flip {
            col: col as u8,
            row: row as u8,
            mask: mask as u8,
        })
    }

    /// Flips one cell, or nothing if `cells` is too short to have it.
    pub fn make(self, start: &Start, cells: &mut [u8])
        ensures { held start.now cells.new ≡ flipped self (held start.now cells.old) }
    {
        let place = usize::from(self.row) * start.width() + usize::from(self.col);
        if place < cells.len() {
            cells[place] ^= self.mask;
        }
    }
}

/// Makes the flips in their order.
pub fn make_flips(flips: &[Flip], start: &Start, cells: &mut [u8])
    ensures { held start.now cells.new ≡ all_flipped flips.now (held start.now cells.old) }
{
    for flip in flips {
        flip.make(start, cells);
    }
}

/// Takes back flips that were made in their order: makes each once more, from the last to the first.
pub fn take_back_flips(flips: &[Flip], start: &Start, cells: &mut [u8])
    ensures { held start.now cells.new ≡ all_flipped (reverse flips.now) (held start.now cells.old) }
{
    for flip in flips.iter().rev().copied() {
        flip.make(start, cells);
    }
}
