//! Runs on several workers by numbers: their steps and refusals, what their history notes, and the records that they are lent and make.
#![tactic(auto)]

pub mod ready;
pub mod refusal;
pub mod step;
