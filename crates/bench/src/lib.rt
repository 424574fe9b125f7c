//! The bench: what can be done with a lattice that the caller lends, and undone, from a journal of what was done.
#![tactic(auto)]

pub mod bench;
pub mod session;
