//! The commands of a script: what its lines say.
#![tactic(auto)]

pub mod command;
mod edits;
mod numbers;
pub mod open_script;
pub mod script;
