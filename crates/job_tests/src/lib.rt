//! Examples of jobs, with results worked out by hand or by the model.
#![tactic(auto)]

#[cfg(test)]
mod carried;
#[cfg(test)]
mod faults_met;
#[cfg(test)]
mod jobs_made;
#[cfg(test)]
mod memory_kept;
#[cfg(test)]
mod printed;
#[cfg(test)]
mod streams;
