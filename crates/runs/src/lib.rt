//! Running a script on a bench.
#![tactic(auto)]

pub mod run;
