//! Moving a lattice forward, and back by as many moves.
ghost use Rattle.std.specs.Prelude.{◌≡◌};
ghost use Rattle.lattice.specs.Maps.{repeated};
ghost use Rattle.lattice.specs.Overlays.{laid_over};
ghost use Rattle.lattice.specs.Starts.{held, StartOf};

use crate::map::Map;
use crate::start::Start;

// Copies as many bytes as the shorter of the two holds.
fn lay_over(from: &[u8], onto: &mut [u8])
    ensures { onto.new ≡ laid_over from.now onto.old }
{
    let count = from.len().min(onto.len());
    onto[0..count].copy_from_slice(&from[0..count]);
}

/// Makes `count` moves forward and then as many back, after which the lattice is what it was. Returns the start record after the moves forward.
/// The cells held at that time are copied to the beginning of `far`, as many as fit.
pub fn round_trip<M: Map>(
    map: &M,
    count: u32,
    start: &mut Start,
    cells: &mut [u8],
    far: &mut [u8],
) -> Start
    ensures home { held start.new cells.new ≡ held start.old cells.old }
    ensures turning { StartOf (repeated count (M.forward map.now) (held start.old cells.old)) result }
    ensures far { far.new ≡ laid_over (repeated count (M.forward map.now) (held start.old cells.old)).cells far.old }
{
    map.advance_by(count, start, cells);
    let turning = *start;
    lay_over(cells, far);
    map.retreat_by(count, start, cells);
    turning
}
