//! What records are by numbers, which of them answers an instance, and what follows from the definitions alone.
#![tactic(auto)]

pub mod agreement;
pub mod laws;
pub mod totals;
pub mod validity;
