//! The reverse script: a text whose records undo the actions of a journal.
#![tactic(auto)]

mod put;
pub mod refusal;
pub mod write;
