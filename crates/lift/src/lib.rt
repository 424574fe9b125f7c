//! The lift: the second-order rule that belongs to a local rule, and is reversible whatever that rule is.
#![tactic(auto)]

mod answers;
mod band;
mod exchange;
pub mod map;
mod passes;
mod torus;
