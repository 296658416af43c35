//! The records that a run leaves of its memo instances, and the next run looks up.
#![tactic(auto)]

pub mod batch;
pub mod block;
pub mod blocks;
mod covers;
mod due;
mod keeping;
mod level;
mod line;
mod listing;
pub mod records;
pub mod series;
mod settling;
mod skips;
mod slot;
mod telling;
