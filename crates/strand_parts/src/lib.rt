//! What the moves of strands go by, as leaves: the layers with which strands begin and that take over what a right neighbour has noted, the
//! instances and phases with which they go on, and what they end with.
#![tactic(auto)]

mod beginning;
pub mod ends;
pub mod instances;
pub mod layering;
mod nesting;
