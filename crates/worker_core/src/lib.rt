//! A run on several workers, step by step: strands with their holders' deques, the pool of kits, and the history.
#![tactic(auto)]

mod ending;
mod folding;
mod laying;
mod piece;
pub mod run;
mod stealing;
mod stepping;
mod strands;

// What callers of a run name.
pub use instance_records::record::Record;
pub use numbered_runs::refusal::{Refusal, StartError};
pub use numbered_runs::step::{BookStep, Place, State, Step, StrandLine};
pub use positions::answer::RunAnswer;
pub use positions::phase::Fault;
pub use rerun_records::records::Records;
