//! What is done to a strand between its small steps: it begins, parts are taken out and put back, two become one, and it ends.
#![tactic(auto)]

pub mod bare;
pub mod ending;
pub mod joining;
pub mod moves;
pub mod task;
pub mod waiting;
