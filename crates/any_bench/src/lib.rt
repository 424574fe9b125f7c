//! A bench in either state, and calls as values.
#![tactic(auto)]

pub mod answer;
pub mod call;
