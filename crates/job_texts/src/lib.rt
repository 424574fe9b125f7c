//! Reading a job, and what is printed for it.
#![tactic(auto)]

pub mod carry;
pub mod lab_text;
pub mod read_job;
pub mod write_text;
