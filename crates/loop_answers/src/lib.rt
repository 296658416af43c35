//! Iterations of a loop over a memo procedure that records answer: many of them in one go.
#![tactic(auto)]

pub mod answering;
mod descending;
mod finding;
mod found;
mod taking;
mod tried;
mod vain;
