//! Lattices, and the trait of the maps that move them.
#![tactic(auto)]

pub mod map;
pub mod refusal;
pub mod round_trip;
pub mod start;
