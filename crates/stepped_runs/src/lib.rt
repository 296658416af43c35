//! Runs on several workers, one given step after another, as definitions over numbers, and which runs of the definitions they stand for.
#![tactic(auto)]

pub mod laws;
