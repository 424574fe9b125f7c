//! Scripts: their records, and the check of a whole text.
#![tactic(auto)]

pub mod check;
pub mod record;
pub mod records;
pub mod run;
pub mod state;
pub mod word;
pub mod write;
