//! What programs and tests try maps on.
#![tactic(auto)]

pub mod cells;
pub mod line;
pub mod openings;
pub mod outcome;
pub mod without_symmetry;
