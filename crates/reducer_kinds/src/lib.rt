//! What kinds of reducers do with values that take no memory: the identity of each kind, numbers, pairs and affine maps
//! combined, the elements of written tables, and whether such a table is a monoid.
#![tactic(auto)]

pub mod elements;
pub mod fixed;
pub mod identities;
pub mod table_check;
pub mod table_rows;
