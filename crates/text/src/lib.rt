//! Text as bytes: lines, the fields of a line, numbers, and a reader that returns the fields one after another.
#![tactic(auto)]

pub mod field;
pub mod line;
pub mod number;
pub mod reader;
pub mod whole;
