//! Layers of a strand: what is noted of a memo instance while it runs, how that becomes a record, and how layers go behind one another.
#![tactic(auto)]

mod absorbing;
pub mod closing;
mod counts;
mod entered;
mod few_values;
mod gathered;
mod joining;
pub mod layer;
mod leaves;
mod lone;
mod lowering;
pub mod recording;
mod rising;
pub mod spares;
pub mod tally;
pub mod updating;
