//! The serial meaning of a program as a plain slow program.
#![tactic(auto)]

mod answer;
mod beginning;
mod expressions;
mod journal;
mod lookup;
mod names;
mod range;
mod ranges;
mod records;
mod run;
mod scope;
mod stops;
mod tables;
mod updates;
mod validity;

pub use answer::{Answer, Rerun, from_scratch, needed_instances};
pub use journal::Key;
pub use records::{Reading, Record, Revision, Revisions};
pub use stops::{Fault, NoMemory};
pub use tables::{Row, TableRows};
