//! The records of a script.
use crate::word::Word;

/// One line of a script. Whether its numbers suit the lattice is for the bench to judge.
#[derive(Clone, Copy, PartialEq, Eq, Debug)]
pub enum Record {
    /// A step of this many moves forward, or back if the number is negative.
    Step(i32),
    /// Takes back the last action that stands.
    Undo,
    /// Makes again the action that was undone last.
    Redo,
    /// Starts a session, and forgets what was undone.
    Open,
    /// The bits of the mask flipped in one cell, whose column and row count from 0.
    Flip { col: u32, row: u32, mask: u32 },
    /// Takes back the flips of the session, which stays open.
    Clear,
    /// Ends the session. Its flips, if there are any, become one action.
    Close,
}

impl Record {
    ghost use Rattle.std.specs.Prelude.{◌≡◌};
    ghost use Rattle.scripts.specs.Records.{kind_of};

    /// The word that the record begins with.
    pub fn word(&self) -> Word
        ensures { result ≡ kind_of self.now }
    {
        match self {
            Record::Step(_) => Word::Step,
            Record::Undo => Word::Undo,
            Record::Redo => Word::Redo,
            Record::Open => Word::Open,
            Record::Flip { .. } => Word::Flip,
            Record::Clear => Word::Clear,
            Record::Close => Word::Close,
        }
    }
}
