//! Examples of the life of a bench, at its limits.
#![tactic(auto)]

#[cfg(test)]
mod another_memory;
#[cfg(test)]
mod journal_full;
#[cfg(test)]
mod longest_script;
#[cfg(test)]
mod no_frame;
#[cfg(test)]
mod scripts_run;
#[cfg(test)]
mod sessions;
#[cfg(test)]
mod steps;
#[cfg(test)]
mod whole_lives;
