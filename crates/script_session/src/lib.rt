//! A session's script and its answers, from a reader to a writer.
#![tactic(auto)]

pub mod live;
pub mod runner;
pub mod session;

pub use threaded_driver::{NoGate, Tally};
