//! What workers of a run by threads go by: which refusals end a run and when it is over, whether it has come to its result, what becomes of
//! a kit that a strand no longer has, and how many deques there are.
#![tactic(auto)]

pub mod free_kits;
pub mod its_deques;
pub mod its_end;
pub mod refusals;
