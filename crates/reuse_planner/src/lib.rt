//! A session's runs by steps that are given, one after another and between edits, over what earlier runs have left.
#![tactic(auto)]

mod commands;
mod running;
mod stepped;

pub use commands::{Answer, Command};
pub use kept_session::{ApplyError, Blocks, Session};
pub use stepped::{play_session, run_session};
