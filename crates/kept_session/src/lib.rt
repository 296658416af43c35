//! Sessions: a program with its tables, its kits and the records that runs leave, and edits of them.
#![tactic(auto)]

mod applying;
mod arguments;
mod blocks;
mod refusal;
mod session;
mod settling;

pub use blocks::Blocks;
pub use refusal::ApplyError;
pub use session::Session;
