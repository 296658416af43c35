//! Programs as text: the one printed form.
#![tactic(auto)]

mod block;
mod declaration;
mod expression;
mod laws;
mod program;
mod statement;

pub use laws::laws_of_printing;
pub use program::print;
