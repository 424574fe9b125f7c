//! Faults of a record, of a board's line, or of a text as a whole.
ghost use Rattle.std.specs.Prelude.{◌≡◌};
ghost use Rattle.faults.specs.declared.record.RecordFault.TheVariants.{Field};

use crate::field::FieldFault;
use lattice::refusal::StartRefusal;
use thiserror::Error;

/// What is wrong with a line or with a text as a whole. If a line or a `close` is missing at the end, `line` is the one after the last.
#[derive(Clone, Copy, PartialEq, Eq, Debug, Error)]
pub enum RecordFault {
    /// The fault of one of the line's fields.
    #[error("{0}")]
    Field(FieldFault),
    #[error("the text is longer than 65,536 bytes")]
    TooLong,
    #[error("line {line}: no newline at its end")]
    Unfinished { line: usize },
    #[error("line {line}: unknown word")]
    UnknownWord { line: usize },
    #[error("line {line}: wrong number of fields")]
    FieldCount { line: usize },
    #[error("line {line}: not permitted in this state")]
    NotPermitted { line: usize },
    #[error("line {line}: the text ends in session")]
    EndsInSession { line: usize },
    #[error("line {line}: no start record: {cause}")]
    Start { cause: StartRefusal, line: usize },
    #[error("line {line} is missing")]
    MissingLine { line: usize },
    #[error("line {line}: no map has this name")]
    UnknownMap { line: usize },
    #[error("the cells memory is too short")]
    CellsTooShort,
}

impl From<FieldFault> for RecordFault {
    ghost from_gives = { λ fault r. r ≡ Field fault };

    fn from(fault: FieldFault) -> RecordFault {
        RecordFault::Field(fault)
    }
}
