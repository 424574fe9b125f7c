//! Faults of a single field.
use crate::place::Place;
use thiserror::Error;

/// What is wrong with a field, and its place.
#[derive(Clone, Copy, PartialEq, Eq, Debug, Error)]
pub enum FieldFault {
    #[error("line {}, field {}: no number", .0.line, .0.field)]
    NotANumber(Place),
    #[error("line {}, field {}: not two digits for each cell", .0.line, .0.field)]
    WrongDigits(Place),
}
