//! Programs with procedures put in.
#![tactic(auto)]

mod copies;
mod putting;

pub use putting::with_procedures;
