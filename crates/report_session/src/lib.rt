//! A session for a program of one's own: opened over tables that the caller has made, and the values of its runs by their names.
#![tactic(auto)]

pub mod kits;
pub mod opening;
pub mod values;
