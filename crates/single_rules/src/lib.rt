//! Each rule by itself: what breaks it first, and what is known of names after a statement; and whether a procedure keeps its revision number.
#![tactic(auto)]

pub mod heads;
pub mod keeping;
pub mod lines;
pub mod location;
pub mod names;
pub mod scope;
pub mod setting;
pub mod statements;
pub mod terms;
