//! Why a table is not filled.
ghost use Rattle.std.specs.Prelude.{◌≡◌};
ghost use Rattle.tables.specs.Refusals.{table_number};

use thiserror::Error;

/// The causes in the order of their checks. The last one is of fills by name alone. Each has the number that docs/REFUSALS.md gives it.
#[derive(Clone, Copy, PartialEq, Eq, Debug, Error)]
pub enum TableRefusal {
    #[error("the table takes another number of entries")]
    Entries = 4,
    #[error("an entry is not below the number of entries")]
    TooLarge = 5,
    #[error("two entries are the same")]
    Repeated = 6,
    #[error("no built-in table has this name")]
    UnknownName = 9,
}

// The number of the cause.
impl From<TableRefusal> for u8 {
    ghost from_gives = { λ cause n. n ≡ table_number cause };

    fn from(cause: TableRefusal) -> u8 {
        cause as u8
    }
}
