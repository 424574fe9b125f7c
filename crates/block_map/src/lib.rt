//! Block maps: reversible rules on the Margolus neighbourhood, each given by a permutation of the states of a block.
#![tactic(auto)]

mod blocks;
pub mod map;
