//! A local rule from outside the library, and its lift in a stack with the row shift.
ghost use Rattle.std.specs.Prelude.{◌≡◌};
ghost use Rattle.lattice.specs.Maps.{repeated};
ghost use Rattle.lattice.specs.Starts.{held};
ghost use Rattle.rules.specs.Neighbourhoods.{bit};
ghost use Rattle.row_shift.specs.Stacks.{windy_forward};
ghost use Rattle.std.proofs.Common.{rules};

use crate::map::RowShift;
use lattice::map::Map;
use lattice::start::Start;
use layers::then::Then;
use lift::map::Lift;
use rules::neighbourhood::Neighbourhood;
use rules::rule::LocalRule;

/// The local rule whose value is the present of the neighbour to the west.
#[derive(Clone, Copy)]
pub struct WestWind;

impl LocalRule for WestWind {
    ghost answer = { λ _. bit 3 };

    ghost binary = { Prim.search rules };

    fn answer_to(&self, around: Neighbourhood) -> u8 {
        (around.number() / 8 % 2) as u8
    }
}

/// Makes `count` moves forward by the lift of the wind, each followed by a shift of every row.
pub fn blow(count: u32, start: &mut Start, cells: &mut [u8])
    ensures { held start.new cells.new ≡ repeated count windy_forward (held start.old cells.old) }
{
    Then::new(Lift::new(WestWind), RowShift::new()).advance_by(count, start, cells);
}
