//! The text of answers, byte by byte.
#![tactic(auto)]

pub mod amounts;
pub mod answers;
pub mod edits;
pub mod trace;
