//! The answer of a run.
use crate::phase::Fault;
use monoid_laws::Val;

/// How a run ends: with its result, the reducers' values, and how many memo instances were executed, answered by a record, and
/// executed without a record of their own; by a fault, or not yet. Or there was no memory for it, or no kit to begin with.
#[derive(Drop)]
pub enum RunAnswer {
    Finished {
        result: i64,
        values: Vec<Val>,
        executed: u64,
        reused: u64,
        unrecorded: u64,
    },
    Fault(Fault),
    Unfinished,
    NoMemory,
    NoKit,
}
