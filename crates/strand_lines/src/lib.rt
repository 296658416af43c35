//! What the list of strands asks of its lines and their states, each question by itself.
#![tactic(auto)]

pub mod place_list;
pub mod places;
pub mod states;
