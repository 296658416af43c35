//! What is done before a session: a program's text is read, then its tables' text, and then the program is checked.
#![tactic(auto)]

pub mod prepare;
