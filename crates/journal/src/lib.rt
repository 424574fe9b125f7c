//! The journal of a bench: the actions of its ledger, in memory of fixed size.
#![tactic(auto)]

pub mod backwards;
pub mod entry;
pub mod journal;
pub mod open_journal;
