//! Cuts the text of a program into tokens: names, numbers, marks and keywords, each with its line.
#![tactic(auto)]

mod scanning;
mod token;

pub use scanning::{LONGEST_TEXT, limit, line_ends, tokens};
pub use token::{Mark, Placed, Token, same};
