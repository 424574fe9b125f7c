//! The layer that reverses a map.
ghost use Rattle.std.specs.Prelude.{◌≡◌};
ghost use Rattle.lattice.proofs.Reversed.{reverse_laws};
ghost use Rattle.layers.specs.Parts.{reversed_of};

use lattice::map::Map;
use lattice::start::Start;

/// The reverse of a map: it moves a lattice forward by a move back of that map, and back by a move forward.
#[derive(Clone, Copy, Drop)]
pub struct Reverse<A> {
    inner: A,
}

impl<A> Reverse<A> {
    /// The reverse of this map.
    pub fn new(inner: A) -> Reverse<A>
        ensures { reversed_of result ≡ inner }
    {
        Reverse { inner }
    }

    /// The map that is reversed.
    pub fn inner(&self) -> &A
        ensures { result.now ≡ reversed_of self.now }
    {
        &self.inner
    }
}

impl<A: Map> Map for Reverse<A> {
    ghost forward = { λ m. A.Map.backward (reversed_of m) };

    ghost backward = { λ m. A.Map.forward (reversed_of m) };

    ghost laws = { λ m. reverse_laws (A.Map.laws (reversed_of m)) };

    fn advance(&self, start: &mut Start, cells: &mut [u8]) {
        self.inner.retreat(start, cells);
    }

    fn retreat(&self, start: &mut Start, cells: &mut [u8]) {
        self.inner.advance(start, cells);
    }
}
