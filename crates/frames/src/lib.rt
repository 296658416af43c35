//! Strands of the whole language: instances of procedures and loops, run by small steps, and the continuations taken out of them.
#![tactic(auto)]

mod advance;
mod ahead;
mod answering;
mod ending;
mod joining;
mod lists;
mod moves;
mod places;
mod recording;
pub mod strand;
mod waiting;
