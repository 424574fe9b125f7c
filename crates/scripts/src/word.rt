//! The words that records begin with.
ghost use Rattle.std.specs.Prelude.{◌≡◌};
ghost use Rattle.scripts.specs.Words.{spelling, word_of};

/// The word that a record begins with, which says what the record does.
#[derive(Clone, Copy, PartialEq, Eq, Debug)]
pub enum Word {
    /// A step. One field follows: the number of moves, negative for moves back.
    Step,
    /// Takes back the last action that stands. No field follows.
    Undo,
    /// Makes again the action that was undone last. No field follows.
    Redo,
    /// Starts a session. No field follows.
    Open,
    /// Flips bits of one cell in a session. Three fields follow: column, row and mask.
    Flip,
    /// Takes back the flips of the session. No field follows.
    Clear,
    /// Ends the session. No field follows.
    Close,
}

impl Word {
    /// The word with this spelling, byte for byte. `None` if there is none.
    pub fn of(bytes: &[u8]) -> Option<Word>
        ensures { result ≡ word_of bytes.now }
    {
        match bytes {
            b"step" => Some(Word::Step),
            b"undo" => Some(Word::Undo),
            b"redo" => Some(Word::Redo),
            b"open" => Some(Word::Open),
            b"flip" => Some(Word::Flip),
            b"clear" => Some(Word::Clear),
            b"close" => Some(Word::Close),
            _ => None,
        }
    }

    /// The word as it is written in a script.
    pub fn spelling(self) -> &'static str
        ensures { result.now ≡ spelling self }
    {
        match self {
            Word::Step => "step",
            Word::Undo => "undo",
            Word::Redo => "redo",
            Word::Open => "open",
            Word::Flip => "flip",
            Word::Clear => "clear",
            Word::Close => "close",
        }
    }
}
