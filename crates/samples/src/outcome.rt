//! What a map makes of the sample cells.
ghost use Rattle.std.specs.Prelude.{◌≡◌, IfOk, Some};
ghost use Rattle.lattice.specs.Starts.{held};

use crate::cells::{digest, sown};
use lattice::map::Map;
use lattice::start::Start;
use std::alloc::{AllocError, Allocator};
use std::fmt;

/// A lattice in short: the digest of its cells, and its phase.
#[derive(Clone, Copy, PartialEq, Eq, Debug)]
pub struct Digest {
    pub sum: u32,
    pub phase: u8,
}

/// What a map makes of the sample, and whether moves back restore it.
#[derive(Clone, Copy, PartialEq, Eq, Debug)]
pub struct Outcome {
    /// After one move forward.
    pub one: Digest,
    /// After ten moves forward.
    pub ten: Digest,
    /// After one move back.
    pub back: Digest,
    /// Whether ten moves back, after the ten forward, restore the sample.
    pub home: bool,
}

impl Digest {
    ghost use Rattle.samples.specs.Outcomes.{IsDigest};

    /// The digest of the lattice that these make up.
    pub fn of(start: &Start, cells: &[u8]) -> Digest
        ensures { IsDigest (held start.now cells.now) result }
    {
        Digest {
            sum: digest(cells),
            phase: start.phase(),
        }
    }
}

impl Outcome {
    ghost use Rattle.samples.specs.Outcomes.{sampled, IsOutcome};

    // Begins with the cells `first`, which `cells` holds as well.
    fn within<M: Map>(map: &M, opening: Start, first: &[u8], cells: &mut [u8]) -> Outcome
        requires first { held opening first.now ≡ sampled opening }
        requires cells { cells.old ≡ first.now }
        ensures { IsOutcome (M.forward map.now) (M.backward map.now) opening result }
    {
        let mut start = opening;
        map.retreat(&mut start, cells);
        let back = Digest::of(&start, cells);
        start = opening;
        cells.copy_from_slice(first);
        map.advance(&mut start, cells);
        let one = Digest::of(&start, cells);
        map.advance_by(9, &mut start, cells);
        let ten = Digest::of(&start, cells);
        map.retreat_by(10, &mut start, cells);
        let home = (start == opening) & (*cells == *first);
        Outcome {
            one,
            ten,
            back,
            home,
        }
    }

    /// What the map makes of the sample with this opening. The only error is running out of memory.
    pub fn of<M: Map, A: Allocator>(
        map: &M,
        opening: Start,
        heap: &A,
    ) -> Result<Outcome, AllocError>
        ensures { IfOk result (IsOutcome (M.forward map.now) (M.backward map.now) opening) }
    {
        let first = sown(opening.cell_count(), heap)?;
        let mut cells = sown(opening.cell_count(), heap)?;
        Ok(Outcome::within(map, opening, &first, &mut cells))
    }
}

impl fmt::Display for Digest {
    ghost use Rattle.samples.specs.Texts.{digest_text};

    ghost output = { λ d. Some (digest_text d) };

    fn fmt<W: fmt::Write>(&self, f: &mut fmt::Formatter<W>) -> fmt::Result {
        write!(f, "{} {}", self.sum, self.phase)
    }
}

impl fmt::Display for Outcome {
    ghost use Rattle.samples.specs.Texts.{outcome_text};

    ghost output = { λ o. Some (outcome_text o) };

    fn fmt<W: fmt::Write>(&self, f: &mut fmt::Formatter<W>) -> fmt::Result {
        let end = if self.home { "home" } else { "lost" };
        write!(f, "{} {} {} {end}", self.one, self.ten, self.back)
    }
}
