//! The words of the program's line: what they ask for.
#![tactic(auto)]

pub mod line;
pub mod options;
pub mod words;
