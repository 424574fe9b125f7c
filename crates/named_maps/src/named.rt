//! One of the named maps, chosen when the program runs.
ghost use Rattle.std.specs.Prelude.{◌≡◌};
ghost use Rattle.lattice.specs.Cells.{OnlyBelow};
ghost use Rattle.lattice.specs.Starts.{held};
ghost use Rattle.named_maps.specs.Choice.{name_of, map_named, forward_of, backward_of};
ghost use Rattle.named_maps.specs.Laws.{laws_of};

use crate::blocks::{bbm, critters, tron};
use crate::life2::life2;
use crate::mixed::mixed;
use lattice::map::Map;
use lattice::start::Start;

/// A named map that is chosen when the program runs. docs/MAPS.md says what each of them is.
#[derive(Clone, Copy, PartialEq, Eq, Debug)]
pub enum NamedMap {
    /// The billiard ball model, a block map.
    Bbm,
    /// The block map of the table Critters.
    Critters,
    /// The block map of the table Tron.
    Tron,
    /// The lift of Life.
    Life2,
    /// Three rounds for each move: the billiard ball model, and then the lift of Life, conjugated by the exchange of past and present.
    Mixed,
}

const ALL: [NamedMap; 5] = [
    NamedMap::Bbm,
    NamedMap::Critters,
    NamedMap::Tron,
    NamedMap::Life2,
    NamedMap::Mixed,
];

impl NamedMap {
    /// The name of the map, as a job has it.
    pub fn name(self) -> &'static str
        ensures { result.now ≡ name_of self }
    {
        match self {
            NamedMap::Bbm => "bbm",
            NamedMap::Critters => "critters",
            NamedMap::Tron => "tron",
            NamedMap::Life2 => "life2",
            NamedMap::Mixed => "mixed",
        }
    }

    /// The map with this name, byte for byte. `None` if there is none.
    pub fn of(name: &[u8]) -> Option<NamedMap>
        ensures { result ≡ map_named name.now }
    {
        for map in ALL {
            if name == map.name().as_bytes() {
                return Some(map);
            }
        }
        None
    }
}

// A `match` for each direction: maps in a list would have to be boxed, and nothing here allocates.
impl Map for NamedMap {
    ghost forward = { forward_of };

    ghost backward = { backward_of };

    ghost laws = { laws_of };

    // In a cell only present and past change.
    fn advance(&self, start: &mut Start, cells: &mut [u8])
        ensures moved { held start.new cells.new ≡ forward_of self.now (held start.old cells.old) }
        ensures low { OnlyBelow 4 cells.old cells.new }
    {
        match self {
            NamedMap::Bbm => bbm().advance(start, cells),
            NamedMap::Critters => critters().advance(start, cells),
            NamedMap::Tron => tron().advance(start, cells),
            NamedMap::Life2 => life2().advance(start, cells),
            NamedMap::Mixed => mixed().advance(start, cells),
        }
    }

    fn retreat(&self, start: &mut Start, cells: &mut [u8])
        ensures moved { held start.new cells.new ≡ backward_of self.now (held start.old cells.old) }
        ensures low { OnlyBelow 4 cells.old cells.new }
    {
        match self {
            NamedMap::Bbm => bbm().retreat(start, cells),
            NamedMap::Critters => critters().retreat(start, cells),
            NamedMap::Tron => tron().retreat(start, cells),
            NamedMap::Life2 => life2().retreat(start, cells),
            NamedMap::Mixed => mixed().retreat(start, cells),
        }
    }
}
