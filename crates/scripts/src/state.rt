//! The two states of a bench, as the text of a script determines them.
use crate::word::Word;

/// Whether a session is open.
#[derive(Clone, Copy, PartialEq, Eq, Debug)]
pub enum State {
    /// No session is open: permits `step`, `undo`, `redo` and `open`.
    Rest,
    /// A session is open: permits `flip`, `clear` and `close`.
    Session,
}

impl State {
    ghost use Rattle.std.specs.Prelude.{◌≡◌};
    ghost use Rattle.scripts.specs.States.{permits, after};

    /// Whether a record with this word may come next.
    pub fn permits(self, word: Word) -> bool
        ensures { result ≡ permits self word }
    {
        match word {
            Word::Step | Word::Undo | Word::Redo | Word::Open => self == State::Rest,
            Word::Flip | Word::Clear | Word::Close => self == State::Session,
        }
    }

    /// The state after a record with this word.
    pub fn after(self, word: Word) -> State
        ensures { result ≡ after self word }
    {
        match word {
            Word::Open => State::Session,
            Word::Close => State::Rest,
            _ => self,
        }
    }
}
