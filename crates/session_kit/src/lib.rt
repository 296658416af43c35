//! A session for each test, scripts that are played in it, and what its runs come to as text.
#![tactic(auto)]

pub mod answers;
pub mod owners;
pub mod scripts;
