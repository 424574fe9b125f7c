//! Faults of texts and of their runs: what is wrong, which layer found it, and where.
//!
//! Each of the three kinds of fault has the next lower one as a case, so `?` passes a fault up with all that is in it.
#![tactic(auto)]

pub mod field;
pub mod line_number;
pub mod place;
pub mod record;
pub mod report;
pub mod run;
