//! Tables of numbers that are permutations by their type.
#![tactic(auto)]

pub mod block;
pub mod cell;
pub mod entries;
mod inverting;
pub mod refusal;
pub mod table;
