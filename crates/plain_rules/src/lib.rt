//! Rules by numbers and lists alone, as leaves: what is put last and taken first, how steps and tokens are counted, and limits of texts.
#![tactic(auto)]

pub mod limits;
pub mod steps;
pub mod trace_lines;
pub mod waiting;
