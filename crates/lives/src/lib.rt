//! Whole lives: a bench and its mirror under any sequence of calls, and the way back to the opening lattice.
#![tactic(auto)]

mod calls;
pub mod event;
pub mod life;
pub mod memories;
mod mirror;
pub mod outcome;
mod pair;
mod way_back;
