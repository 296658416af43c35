//! That the steps of strands by numbers are those of the definitions that they stand for.
#![tactic(auto)]

pub mod laws;
