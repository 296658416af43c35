//! The parts of a strand and its small steps, one at a time.
#![tactic(auto)]

mod advance;
mod entering;
mod evaluating;
pub mod lists;
mod loops;
pub mod machine;
mod memo;
mod remembering;
mod statements;
mod updating;
