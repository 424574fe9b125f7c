//! Local rules: functions from a cell and its Moore neighbourhood to 0 or 1.
#![tactic(auto)]

pub mod count;
pub mod neighbourhood;
pub mod refusal;
pub mod rule;
pub mod table;
