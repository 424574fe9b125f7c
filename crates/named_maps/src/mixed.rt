//! A stack of a block map, a lift and a cell map.
ghost use Rattle.std.specs.Prelude.{◌≡◌};
ghost use Rattle.layers.specs.Counts.{number_of};
ghost use Rattle.named_maps.specs.Named.{exchange_forward, exchange_backward, mixed_forward, mixed_backward};

use crate::blocks::bbm;
use crate::life2::life2;
use block_map::map::BlockMap;
use cell_map::map::CellMap;
use lattice::map::Map;
use layers::conjugate::Conjugate;
use layers::count::Count;
use layers::then::Then;
use layers::times::Times;
use lift::map::Lift;
use rules::table::TableRule;

/// The type of the stack that `mixed` makes.
pub type Mixed = Times<Then<BlockMap, Conjugate<Lift<TableRule>, CellMap>>>;

// The cell map that exchanges past and present.
fn exchange() -> CellMap
    ensures forward { ⟦<CellMap as Map>⟧.forward result ≡ exchange_forward }
    ensures backward { ⟦<CellMap as Map>⟧.backward result ≡ exchange_backward }
{
    CellMap::new("exchange".parse().unwrap())
}

fn three() -> Count
    ensures { number_of result ≡ 3 }
{
    Count::new(3).unwrap()
}

/// A stack of both kinds. A move is made of three rounds: the billiard ball model, and then the lift of Life, conjugated by the exchange of
/// past and present.
pub fn mixed() -> Mixed
    ensures forward { ⟦<Mixed as Map>⟧.forward result ≡ mixed_forward }
    ensures backward { ⟦<Mixed as Map>⟧.backward result ≡ mixed_backward }
{
    let seen = Conjugate::new(life2(), exchange());
    Times::new(Then::new(bbm(), seen), three())
}
