//! Tokens as text: how they are written one after another, parted by a space or by an end of line.
#![tactic(auto)]

mod marks;

pub use marks::{put_close, put_end, put_open};
