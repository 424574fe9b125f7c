//! The block maps of the built-in tables.
ghost use Rattle.std.specs.Prelude.{◌≡◌};
ghost use Rattle.named_maps.specs.Named.{bbm_forward, bbm_backward, critters_forward, critters_backward, tron_forward, tron_backward};

use block_map::map::BlockMap;
use lattice::map::Map;

/// The billiard ball model, from Physics-like Models of Computation by N. Margolus (1984).
pub fn bbm() -> BlockMap
    ensures forward { ⟦<BlockMap as Map>⟧.forward result ≡ bbm_forward }
    ensures backward { ⟦<BlockMap as Map>⟧.backward result ≡ bbm_backward }
{
    BlockMap::new("bbm".parse().unwrap())
}

/// The block map of the table Critters, from Cellular Automata Machines by T. Toffoli and N. Margolus (1987).
pub fn critters() -> BlockMap
    ensures forward { ⟦<BlockMap as Map>⟧.forward result ≡ critters_forward }
    ensures backward { ⟦<BlockMap as Map>⟧.backward result ≡ critters_backward }
{
    BlockMap::new("critters".parse().unwrap())
}

/// The block map of the table Tron, from Cellular Automata Machines by T. Toffoli and N. Margolus (1987).
pub fn tron() -> BlockMap
    ensures forward { ⟦<BlockMap as Map>⟧.forward result ≡ tron_forward }
    ensures backward { ⟦<BlockMap as Map>⟧.backward result ≡ tron_backward }
{
    BlockMap::new("tron".parse().unwrap())
}
