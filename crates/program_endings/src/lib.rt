//! Why a session and the program end early, with which status; the streams of a session, with which of them failed.
#![tactic(auto)]

pub mod failing;
pub mod program_error;
pub mod session_error;
pub mod streams;
