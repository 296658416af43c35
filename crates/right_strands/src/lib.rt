//! Strands and continuations that are right for a run by their own types.
#![tactic(auto)]

mod body;
pub mod laid;
pub mod laws;
mod lists;
pub mod pair;
pub mod run;
pub mod spare;
pub mod strand;
pub mod task;
