//! Places that are found again by numbers.
#![tactic(auto)]

mod links;
pub mod mixing;
pub mod places;
