//! One step along a side of the torus. It is not public, since a public call has no `requires`, and for any `x` the sum could overflow.
ghost use Rattle.std.specs.Prelude.{◌≡◌, ◌<◌};
ghost use Rattle.lattice.specs.Torus.{after, before};

pub(crate) fn next(side: usize, x: usize) -> usize
    requires inside { x < side }
    ensures after { result ≡ after side x }
    ensures inside { result < side }
{
    if x + 1 == side { 0 } else { x + 1 }
}

pub(crate) fn previous(side: usize, x: usize) -> usize
    requires inside { x < side }
    ensures before { result ≡ before side x }
    ensures inside { result < side }
{
    if x == 0 { side - 1 } else { x - 1 }
}
