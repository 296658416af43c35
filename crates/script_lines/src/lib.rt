//! The lines of a script and their words, and where a define ends.
#![tactic(auto)]

pub mod defines;
pub mod lines;
pub mod words;
