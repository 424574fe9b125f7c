//! The tables of block maps: what becomes of each of the sixteen states of a block.
ghost use Rattle.std.specs.Prelude.{◌≡◌};
ghost use Rattle.tables.specs.Names.{BlockOf, block_identity};
ghost use Rattle.tables.specs.Tables.{entries_of};

use crate::refusal::TableRefusal;
use crate::table::Table;
use std::str::FromStr;

/// A permutation of 0 to 15, the states of a block. A state is a bit for each of the four cells, in the order that docs/MAPS.md gives.
pub type BlockTable = Table<16>;

const IDENTITY: [u8; 16] = [0, 1, 2, 3, 4, 5, 6, 7, 8, 9, 10, 11, 12, 13, 14, 15];

const BBM: [u8; 16] = [0, 8, 4, 3, 2, 5, 9, 7, 1, 6, 10, 11, 12, 13, 14, 15];

const CRITTERS: [u8; 16] = [15, 14, 13, 3, 11, 5, 6, 1, 7, 9, 10, 2, 12, 4, 8, 0];

const CRITTERS_BACK: [u8; 16] = [15, 7, 11, 3, 13, 5, 6, 8, 14, 9, 10, 4, 12, 2, 1, 0];

const TRON: [u8; 16] = [15, 1, 2, 3, 4, 5, 6, 7, 8, 9, 10, 11, 12, 13, 14, 0];

// The built-in table with this name.
impl FromStr for Table<16> {
    type Err = TableRefusal;

    ghost from_str_gives = { BlockOf };

    fn from_str(name: &str) -> Result<BlockTable, TableRefusal> {
        // bbm and tron are their own inverses.
        let (entries, inverse) = match name {
            "bbm" => (BBM, BBM),
            "critters" => (CRITTERS, CRITTERS_BACK),
            "tron" => (TRON, TRON),
            _ => return Err(TableRefusal::UnknownName),
        };
        Ok(Table { entries, inverse })
    }
}

impl Table<16> {
    /// The table that leaves every block as it is.
    pub fn identity() -> BlockTable
        ensures { entries_of result ≡ block_identity }
    {
        Table {
            entries: IDENTITY,
            inverse: IDENTITY,
        }
    }
}
