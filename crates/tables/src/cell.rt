//! The tables of cell maps: what becomes of each of the four states that a cell's present and past can be in.
ghost use Rattle.std.specs.Prelude.{◌≡◌};
ghost use Rattle.tables.specs.Names.{CellOf, cell_identity};
ghost use Rattle.tables.specs.Tables.{entries_of};

use crate::refusal::TableRefusal;
use crate::table::Table;
use std::str::FromStr;

/// A permutation of 0 to 3, the states of a cell: its present weighs 1, and its past weighs 2.
pub type CellTable = Table<4>;

const IDENTITY: [u8; 4] = [0, 1, 2, 3];

const EXCHANGE: [u8; 4] = [0, 2, 1, 3];

const COMPLEMENT: [u8; 4] = [1, 0, 3, 2];

// The built-in table with this name.
impl FromStr for Table<4> {
    type Err = TableRefusal;

    ghost from_str_gives = { CellOf };

    fn from_str(name: &str) -> Result<CellTable, TableRefusal> {
        // Both are their own inverses.
        let entries = match name {
            "exchange" => EXCHANGE,
            "complement" => COMPLEMENT,
            _ => return Err(TableRefusal::UnknownName),
        };
        Ok(Table {
            entries,
            inverse: entries,
        })
    }
}

impl Table<4> {
    /// The table that leaves every cell as it is.
    pub fn identity() -> CellTable
        ensures { entries_of result ≡ cell_identity }
    {
        Table {
            entries: IDENTITY,
            inverse: IDENTITY,
        }
    }
}
