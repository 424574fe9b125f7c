//! Cell maps: each cell is changed by itself, by a permutation of the states that its present and past can be in.
#![tactic(auto)]

mod cells;
pub mod map;
