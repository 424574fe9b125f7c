//! Why a reverse script is not written.
ghost use Rattle.std.specs.Prelude.{◌≡◌};
ghost use Rattle.reverse_script.specs.Refusals.{script_number};

use thiserror::Error;

/// The cause, with its number in docs/REFUSALS.md.
#[derive(Clone, Copy, PartialEq, Eq, Debug, Error)]
pub enum ScriptRefusal {
    /// The script has more bytes than the memory.
    #[error("the memory is too short for the script")]
    MemoryTooShort = 30,
}

// The number of the cause.
impl From<ScriptRefusal> for u8 {
    ghost from_gives = { λ cause n. n ≡ script_number cause };

    fn from(cause: ScriptRefusal) -> u8 {
        cause as u8
    }
}
