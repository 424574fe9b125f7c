//! A map from outside the library: every row moved by one cell, and stacks of it with the library's maps.
#![tactic(auto)]

pub mod map;
mod rows;
pub mod stacks;
mod way;
pub mod wind;
