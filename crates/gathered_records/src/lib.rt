//! Records in a row, which are gathered into blocks behind a run.
#![tactic(auto)]

mod alone;
mod bounds;
mod flat;
pub mod gathering;
mod nesting;
mod row;
mod stretch;
mod sums;
mod tried;
mod widening;
