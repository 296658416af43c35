//! What the rules ask of counts, kinds, names, moments and procedures, each question by itself.
#![tactic(auto)]

pub mod counts;
pub mod elements;
pub mod known;
pub mod named;
pub mod procedures;
