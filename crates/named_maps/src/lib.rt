//! The maps that have a name: block maps, the lift of Life, and a stack of both.
#![tactic(auto)]

pub mod blocks;
pub mod examples;
pub mod life2;
pub mod mixed;
pub mod named;
