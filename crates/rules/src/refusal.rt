//! Why a local rule is refused.
ghost use Rattle.std.specs.Prelude.{◌≡◌};
ghost use Rattle.rules.specs.Refusals.{rule_number};

use thiserror::Error;

/// The causes: two of a table, which is checked for `Entries` first, and one of the masks of a count rule. Each has the number that
/// docs/REFUSALS.md gives it.
#[derive(Clone, Copy, PartialEq, Eq, Debug, Error)]
pub enum RuleRefusal {
    #[error("there are not 512 entries")]
    Entries = 4,
    #[error("an entry is neither 0 nor 1")]
    TooLarge = 5,
    #[error("a mask is above 511")]
    Mask = 7,
}

// The number of the cause.
impl From<RuleRefusal> for u8 {
    ghost from_gives = { λ cause n. n ≡ rule_number cause };

    fn from(cause: RuleRefusal) -> u8 {
        cause as u8
    }
}
