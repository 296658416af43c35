//! What tables do with texts, numbers and plain lists alone: the document that a text is, which columns and rows there may be, why an edit
//! of a row is refused, the place of a name, rows in one list of cells, and the totals of columns.
#![tactic(auto)]

pub mod bounds;
pub mod cells;
pub mod found;
pub mod refusals;
pub mod sums;
pub mod texts;
