//! What is done without an instance on the strand: statements that enter no other instance, over the topmost layer alone; iterations that
//! become records at once; and calls of the own procedure.
#![tactic(auto)]

mod chains;
mod combining;
pub mod filling;
mod found;
pub mod leaf;
pub mod leaves;
pub mod ran;
pub mod recursion;
pub mod runs;
mod short_forms;
pub mod statements;
