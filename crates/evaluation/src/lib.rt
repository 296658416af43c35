//! The values of code's expressions over an instance's slots and the tables, with what was read on the way.
#![tactic(auto)]

pub mod at_once;
pub mod entry;
pub mod laws;
pub mod note;
pub mod notes;
pub mod ranges;
pub mod reading;
pub mod slot;
pub mod stop;
pub mod unnoted;
pub mod unread;
pub mod values;
