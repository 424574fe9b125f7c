//! Start records: the sides and the phase of a lattice, always within the limits.
ghost use Rattle.std.specs.Prelude.{◌≡◌, ◌-◌, ◌*◌, ◌≤◌, length, ◌==◌};
ghost use Rattle.lattice.specs.Limits.{Side, max_area, max_phase, side_test};

use crate::refusal::StartRefusal;

const MAX_SIDE: u32 = 256;

const MAX_AREA: u32 = 16_384;

const MAX_PHASE: u32 = 1;

/// The sides and the phase of a lattice whose cells are kept elsewhere. The limits on them are part of the type.
#[derive(Clone, Copy, PartialEq, Eq, Debug)]
pub struct Start {
    width: usize,
    height: usize,
    phase: u8,
    ghost wide: { Side width },
    ghost high: { Side height },
    ghost area: { width * height ≤ max_area },
    ghost phased: { phase ≤ max_phase },
}

/// How many cells the largest lattice has.
pub fn max_cells() -> usize
    ensures { result ≡ max_area }
{
    MAX_AREA as usize
}

fn is_side(n: u32) -> bool
    ensures { result ≡ side_test n }
{
    (2..=MAX_SIDE).contains(&n) && n % 2 == 0
}

impl Start {
    ghost use Rattle.lattice.specs.Refusals.{Started};
    ghost use Rattle.lattice.specs.Starts.{width_of, height_of, phase_of};

    /// A start record with this many columns and rows, at this phase; or the first cause against it, in the order of `StartRefusal`.
    pub fn new(width: u32, height: u32, phase: u32) -> Result<Start, StartRefusal>
        ensures { Started width height phase result }
    {
        if !is_side(width) || !is_side(height) {
            return Err(StartRefusal::Side);
        }
        if width * height > MAX_AREA {
            return Err(StartRefusal::Area);
        }
        if phase > MAX_PHASE {
            return Err(StartRefusal::Phase);
        }
        Ok(Start {
            width: width as usize,
            height: height as usize,
            phase: phase as u8,
        })
    }

    /// The number of columns.
    pub fn width(&self) -> usize
        ensures { result ≡ width_of self.now }
    {
        self.width
    }

    /// The number of rows.
    pub fn height(&self) -> usize
        ensures { result ≡ height_of self.now }
    {
        self.height
    }

    /// The phase, 0 or 1. It is a number since the definitions calculate with it.
    pub fn phase(&self) -> u8
        ensures { result ≡ phase_of self.now }
    {
        self.phase
    }

    /// The number of cells of a whole lattice.
    pub fn cell_count(&self) -> usize
        ensures { result ≡ width_of self.now * height_of self.now }
    {
        self.width * self.height
    }

    /// Whether these cells make a whole lattice.
    pub fn is_whole(&self, cells: &[u8]) -> bool
        ensures { result ≡ (length cells.now == width_of self.now * height_of self.now) }
    {
        cells.len() == self.cell_count()
    }

    /// The same sides at the other phase.
    pub fn turned(self) -> Start
        ensures width { width_of result ≡ width_of self }
        ensures height { height_of result ≡ height_of self }
        ensures phase { phase_of result ≡ 1 - phase_of self }
    {
        Start {
            width: self.width,
            height: self.height,
            phase: 1 - self.phase,
        }
    }
}
