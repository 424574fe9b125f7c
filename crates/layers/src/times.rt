//! The layer that repeats a map.
ghost use Rattle.std.specs.Prelude.{◌≡◌};
ghost use Rattle.lattice.specs.Maps.{repeated};
ghost use Rattle.layers.specs.Counts.{number_of};
ghost use Rattle.layers.specs.Laws.{repeated_laws};
ghost use Rattle.layers.specs.Parts.{repeated_of, count_of};

use crate::count::Count;
use lattice::map::Map;
use lattice::start::Start;

/// A map that makes several moves of another for each of its own. With the count 0 it leaves every lattice as it is.
#[derive(Clone, Copy, Drop)]
pub struct Times<A> {
    inner: A,
    count: Count,
}

impl<A> Times<A> {
    /// The map that makes `count` moves of `inner` for one.
    pub fn new(inner: A, count: Count) -> Times<A>
        ensures inner { repeated_of result ≡ inner }
        ensures count { count_of result ≡ count }
    {
        Times { inner, count }
    }
}

impl<A: Map> Map for Times<A> {
    ghost forward = { λ m. repeated (number_of (count_of m)) (A.Map.forward (repeated_of m)) };

    ghost backward = { λ m. repeated (number_of (count_of m)) (A.Map.backward (repeated_of m)) };

    ghost laws = { λ m. repeated_laws (number_of (count_of m)) (A.Map.laws (repeated_of m)) };

    fn advance(&self, start: &mut Start, cells: &mut [u8]) {
        self.inner.advance_by(self.count.number(), start, cells);
    }

    fn retreat(&self, start: &mut Start, cells: &mut [u8]) {
        self.inner.retreat_by(self.count.number(), start, cells);
    }
}
