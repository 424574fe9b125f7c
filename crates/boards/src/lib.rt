//! Boards: lattices as text.
#![tactic(auto)]

pub mod board_text;
pub mod check;
mod digits;
mod lines;
mod put;
pub mod read;
pub mod refusal;
pub mod write;
