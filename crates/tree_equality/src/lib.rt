//! Whether two procedures have the same tree: the same memo mark, parameters, names and statements, whatever their own names and lines.
#![tactic(auto)]

mod actions;
mod blocks;
mod expressions;
mod procedures;

pub use procedures::same_procedure;
