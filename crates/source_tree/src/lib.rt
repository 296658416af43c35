//! The source tree of a program, with names in place, and the way from it to the program's tree.
#![tactic(auto)]

mod laws;
mod layout;
mod lowering;
mod places;
mod pool;
mod source;
mod terms;

pub use laws::laws_of_lowered_trees;
pub use lowering::{lower, lower_procedure};
pub use source::{Declaration, Expr, Measured, Procedure, Reducer, Statement};
