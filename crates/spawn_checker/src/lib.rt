//! Checks a program by the rules of the language and makes its code.
#![tactic(auto)]

mod checking;
mod declarations;
pub mod laws;
mod linked;
mod quiet;
mod refusal;
mod renumbering;
mod revisions;
mod table_names;
mod violation;
mod walk;

pub use checking::{check, redefine};
pub use violation::CheckError;
