//! The layer that conjugates one map by another.
ghost use Rattle.std.specs.Prelude.{◌≡◌};
ghost use Rattle.layers.specs.Layers.{between};
ghost use Rattle.layers.specs.Laws.{between_laws};
ghost use Rattle.layers.specs.Parts.{conjugated_of, by_of};

use lattice::map::Map;
use lattice::start::Start;

/// A map conjugated by another: a move in either direction is a move forward of the other map, a move of the conjugated map in that direction, and a
/// move back of the other.
#[derive(Clone, Copy, Drop)]
pub struct Conjugate<A, B> {
    inner: A,
    by: B,
}

impl<A, B> Conjugate<A, B> {
    /// The map `inner`, conjugated by `by`.
    pub fn new(inner: A, by: B) -> Conjugate<A, B>
        ensures inner { conjugated_of result ≡ inner }
        ensures by { by_of result ≡ by }
    {
        Conjugate { inner, by }
    }
}

impl<A: Map, B: Map> Map for Conjugate<A, B> {
    ghost forward = { λ m. between (A.Map.forward (conjugated_of m)) (B.Map.forward (by_of m)) (B.Map.backward (by_of m)) };

    ghost backward = { λ m. between (A.Map.backward (conjugated_of m)) (B.Map.forward (by_of m)) (B.Map.backward (by_of m)) };

    ghost laws = { λ m. between_laws (A.Map.laws (conjugated_of m)) (B.Map.laws (by_of m)) };

    fn advance(&self, start: &mut Start, cells: &mut [u8]) {
        self.by.advance(start, cells); // into the image under the other map
        self.inner.advance(start, cells);
        self.by.retreat(start, cells); // and out of it
    }

    fn retreat(&self, start: &mut Start, cells: &mut [u8]) {
        self.by.advance(start, cells); // forward here too: the move back is also made on the image
        self.inner.retreat(start, cells);
        self.by.retreat(start, cells); // out of it, as in `advance`
    }
}
