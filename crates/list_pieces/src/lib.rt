//! Lists that are put together without copying long ones.
#![tactic(auto)]

pub mod pieces;
