//! The number of a record's readings that the tables don't hold, how deep a record may answer, between which rows it has read, and which
//! of two records is kept.
#![tactic(auto)]

pub mod bringing;
pub mod depths;
pub mod rows;
pub mod stale;
