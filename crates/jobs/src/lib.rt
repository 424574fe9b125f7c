//! Jobs: texts that name a map, give a board and say what to do.
#![tactic(auto)]

pub mod done;
mod find;
pub mod job;
mod map_line;
pub mod opening;
