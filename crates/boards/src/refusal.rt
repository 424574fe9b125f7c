//! Why a board is not written.
ghost use Rattle.std.specs.Prelude.{◌≡◌};
ghost use Rattle.boards.specs.Refusals.{board_number};

use thiserror::Error;

/// The causes in the order of their checks. Each has the number that docs/REFUSALS.md gives it.
#[derive(Clone, Copy, PartialEq, Eq, Debug, Error)]
pub enum BoardRefusal {
    #[error("the cells are not as many as the lattice has")]
    Cells = 10,
    #[error("the memory is too short for the board")]
    MemoryTooShort = 30,
}

// The number of the cause.
impl From<BoardRefusal> for u8 {
    ghost from_gives = { λ cause n. n ≡ board_number cause };

    fn from(cause: BoardRefusal) -> u8 {
        cause as u8
    }
}
