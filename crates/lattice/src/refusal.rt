//! Why a start record is refused.
ghost use Rattle.std.specs.Prelude.{◌≡◌};
ghost use Rattle.lattice.specs.Refusals.{start_number};

use thiserror::Error;

/// The causes in the order of their checks. Each has the number that docs/REFUSALS.md gives it.
#[derive(Clone, Copy, PartialEq, Eq, Debug, Error)]
pub enum StartRefusal {
    #[error("a side is odd, or not in 2 to 256")]
    Side = 1,
    #[error("there are more than 16,384 cells")]
    Area = 2,
    #[error("the phase is neither 0 nor 1")]
    Phase = 3,
}

// The number of the cause.
impl From<StartRefusal> for u8 {
    ghost from_gives = { λ cause n. n ≡ start_number cause };

    fn from(cause: StartRefusal) -> u8 {
        cause as u8
    }
}
