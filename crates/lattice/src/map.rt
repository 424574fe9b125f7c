//! The trait of a reversible map.
//!
//! An implementation consists of
//!   - the ghost functions `forward` and `backward`, which say what a single move makes of a lattice;
//!   - the ghost member `laws`, which cites a lemma with the four laws of these two functions;
//!   - the methods `advance` and `retreat`, which compute them.
//! `advance_by` and `retreat_by` have bodies already, which a map that knows a faster way may replace. Each is a loop of one line: a function
//! for both would take a closure over start record and cells, and a ghost function for what the closure does.
//! docs/MAPS.md describes the laws in words, and specs/Maps.antt defines them.
ghost use Rattle.std.specs.Prelude.{◌≡◌};
ghost use Rattle.lattice.specs.Lattice.{Lattice};
ghost use Rattle.lattice.specs.Maps.{Reversible, repeated};
ghost use Rattle.lattice.specs.Starts.{held};

use crate::start::Start;

/// A reversible map. Its moves change the start record and the cells in place and are never refused, whatever the number of cells.
pub trait Map {
    /// What one move forward makes of a lattice.
    ghost forward: { Self → Lattice → Lattice };

    /// What one move back makes of a lattice.
    ghost backward: { Self → Lattice → Lattice };

    /// One move forward.
    fn advance(&self, start: &mut Start, cells: &mut [u8])
        ensures { held start.new cells.new ≡ forward self.now (held start.old cells.old) };

    /// One move back.
    fn retreat(&self, start: &mut Start, cells: &mut [u8])
        ensures { held start.new cells.new ≡ backward self.now (held start.old cells.old) };

    /// `count` moves forward.
    fn advance_by(&self, count: u32, start: &mut Start, cells: &mut [u8])
        ensures { held start.new cells.new ≡ repeated count (forward self.now) (held start.old cells.old) }
    {
        for made in 0..count {
            self.advance(start, cells);
        }
    }

    /// `count` moves back.
    fn retreat_by(&self, count: u32, start: &mut Start, cells: &mut [u8])
        ensures { held start.new cells.new ≡ repeated count (backward self.now) (held start.old cells.old) }
    {
        for undone in 0..count {
            self.retreat(start, cells);
        }
    }

    /// The laws, which the two functions of every map of this type keep.
    ghost laws: { (m : Self) → Reversible (forward m) (backward m) };
}

/// A borrowed map is also a map, so a layer can be built on a map that it does not own.
impl<M: Map> Map for &M {
    ghost forward = { λ m. M.Map.forward m.now };

    ghost backward = { λ m. M.Map.backward m.now };

    ghost laws = { λ m. M.Map.laws m.now };

    fn advance(&self, start: &mut Start, cells: &mut [u8]) {
        (**self).advance(start, cells);
    }

    fn retreat(&self, start: &mut Start, cells: &mut [u8]) {
        (**self).retreat(start, cells);
    }

    fn advance_by(&self, count: u32, start: &mut Start, cells: &mut [u8]) {
        (**self).advance_by(count, start, cells);
    }

    fn retreat_by(&self, count: u32, start: &mut Start, cells: &mut [u8]) {
        (**self).retreat_by(count, start, cells);
    }
}
