//! What tests begin with: texts, and the programs and tables that they are; kits of views; a view that refuses; numbers that are drawn.
#![tactic(auto)]

pub mod beginnings;
pub mod drawn;
pub mod refusing;
pub mod texts;
