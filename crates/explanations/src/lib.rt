//! What a refusal or a fault means and how to mend it, in plain words, as lines under its own.
#![tactic(auto)]

mod absent;
mod broken;
mod broken_words;
mod defines;
pub mod edits;
mod expected;
mod expressions;
pub mod faults;
mod followers;
mod habits;
mod hints;
mod known;
mod limits;
pub mod lines;
mod marks;
mod places;
pub mod programs;
pub mod rules;
mod statements;
pub mod tables;
pub mod words;
