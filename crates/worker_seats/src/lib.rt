//! What each worker of a run by threads has to itself, what it takes kits from, and how the run ends.
#![tactic(auto)]

pub mod beginning;
pub mod depot;
pub mod ended;
pub mod ending;
pub mod failure;
pub mod held;
pub mod kits;
pub mod locking;
pub mod seat;
mod spare;
pub mod supply;
pub mod table;
pub mod waiting;
mod wanted;
