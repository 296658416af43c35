//! Instances of procedures and of loops: their slots, their places in the code, their shares of a loop, and the names that wait.
#![tactic(auto)]

pub mod activation;
pub mod code;
pub mod names;
pub mod nest;
pub mod setting;
pub mod shares;
pub mod spares;
pub mod waiting;
