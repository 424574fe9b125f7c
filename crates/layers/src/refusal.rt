//! Why a count is refused.
ghost use Rattle.std.specs.Prelude.{◌≡◌};
ghost use Rattle.layers.specs.Refusals.{count_number};

use thiserror::Error;

/// The only cause. It has the number that docs/REFUSALS.md gives it.
#[derive(Clone, Copy, PartialEq, Eq, Debug, Error)]
pub enum CountRefusal {
    #[error("the count is above 1,000")]
    TooLarge = 8,
}

// The number of the cause.
impl From<CountRefusal> for u8 {
    ghost from_gives = { λ cause n. n ≡ count_number cause };

    fn from(cause: CountRefusal) -> u8 {
        cause as u8
    }
}
