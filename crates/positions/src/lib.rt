//! What a strand is at, by numbers; and as definitions: strands as plain values, their steps, and what they stand for.
#![tactic(auto)]

pub mod answer;
pub mod heights;
pub mod identities;
pub mod phase;
pub mod readings;
pub mod start;
pub mod touched;
pub mod work;
