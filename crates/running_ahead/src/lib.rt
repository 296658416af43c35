//! Many small steps of a strand in one go.
#![tactic(auto)]

pub mod ahead;
pub mod called_halves;
pub mod came;
mod children;
pub mod descent;
pub mod halves;
mod nested;
pub mod plain;
pub mod ready;
pub mod spawning;
pub mod turns;
