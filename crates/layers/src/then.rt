//! The layer that joins two maps, one after the other.
ghost use Rattle.std.specs.Prelude.{◌≡◌};
ghost use Rattle.layers.specs.Layers.{one_then};
ghost use Rattle.layers.specs.Laws.{then_laws};
ghost use Rattle.layers.specs.Parts.{first_of, second_of};

use lattice::map::Map;
use lattice::start::Start;

/// Two maps as one. A move forward is a move of the first and then of the second; a move back is a move back of the second and then of the first.
#[derive(Clone, Copy, Drop)]
pub struct Then<A, B> {
    first: A,
    second: B,
}

impl<A, B> Then<A, B> {
    /// The map `first`, and then `second`.
    pub fn new(first: A, second: B) -> Then<A, B>
        ensures first { first_of result ≡ first }
        ensures second { second_of result ≡ second }
    {
        Then { first, second }
    }
}

impl<A: Map, B: Map> Map for Then<A, B> {
    ghost forward = { λ m. one_then (A.Map.forward (first_of m)) (B.Map.forward (second_of m)) };

    ghost backward = { λ m. one_then (B.Map.backward (second_of m)) (A.Map.backward (first_of m)) };

    ghost laws = { λ m. then_laws (A.Map.laws (first_of m)) (B.Map.laws (second_of m)) };

    fn advance(&self, start: &mut Start, cells: &mut [u8]) {
        self.first.advance(start, cells);
        self.second.advance(start, cells);
    }

    fn retreat(&self, start: &mut Start, cells: &mut [u8]) {
        self.second.retreat(start, cells);
        self.first.retreat(start, cells);
    }
}
