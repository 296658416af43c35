//! Lists of a run: strands by places and states with their history, kits that go home.
#![tactic(auto)]

pub mod chronicle;
pub mod error;
pub mod history;
pub mod kits;
pub mod laid_state;
pub mod lines;
mod numbers;
pub mod page;
mod spares;
