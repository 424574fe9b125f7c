//! What a bench does to a lattice: flips and actions, made and taken back.
#![tactic(auto)]

pub mod action;
pub mod flip;
pub mod step_count;
