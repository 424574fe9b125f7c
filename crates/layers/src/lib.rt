//! Layers: maps that are made of other maps, of any kind.
#![tactic(auto)]

pub mod conjugate;
pub mod count;
pub mod refusal;
pub mod reverse;
pub mod then;
pub mod times;
