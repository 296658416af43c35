//! A checked program of the whole language: its rules, its tree, and beside it the code that runs, in which every name is a number.
#![tactic(auto)]

pub mod checked;
pub mod code;
mod fitting;
mod hints;
pub mod initial;
pub mod knowledge;
pub mod laws;
pub mod linking;
mod shortening;
pub mod tables;
pub mod violation;
