//! Edits of a session, and why they are refused.
#![tactic(auto)]

mod edit;
mod refusal;

pub use edit::Edit;
pub use refusal::EditError;
