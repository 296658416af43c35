//! Which memo instances a run executes and which records answer, and why the first of those executed aren't answered: by a serial
//! replay of the program over the tables and records that the run begins with.
#![tactic(auto)]

mod finding;
mod reason;
mod replay;
mod setting;
mod stale;
mod texts;
mod values;
mod walk;

pub use finding::reasons;
pub use reason::{Count, Ending, Explained, Reason, Reasons};
pub use texts::push_reasons;
