//! Iterations of a loop over a memo procedure in one go, each of which its record answers or is recorded at once.
#![tactic(auto)]

mod answered_chain;
mod answered_row;
mod leaf_chain;
mod recorded_half;
pub mod recording;
