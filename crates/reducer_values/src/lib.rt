//! Values of reducers, whole or in pieces: the elements that updates name, and values combined, copied and updated in place,
//! each the plain operation of its kind.
#![tactic(auto)]

mod adding;
mod amounts;
mod combining;
mod copying;
mod elements;
mod fixed;
mod joining;
mod lists;
mod pieces;
mod updating;

pub use combining::{combine, combine_copy};
pub use copying::copy_of;
pub use elements::inject;
pub use monoid_laws::{InjectError, Kind, Table, TableAnswer, Val};
pub use pieces::{add_in_pieces, combine_at_once, combine_in_pieces, copied_in_pieces};
pub use reducer_kinds::fixed::sum_of;
pub use reducer_kinds::identities::identity;
pub use reducer_kinds::table_check::check_table;
pub use reducer_kinds::table_rows::table_of;
pub use updating::{add_at_once, add_element};
