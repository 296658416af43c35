//! Who is told of a session's runs and refusals, and the notes of runs that are written.
#![tactic(auto)]

pub mod explained;
pub mod notes;
pub mod run_notes;
