//! Procedures of a checked program that are defined anew.
#![tactic(auto)]

mod defining;
pub mod laws;
mod refusal;

pub use defining::define;
pub use refusal::DefineError;
