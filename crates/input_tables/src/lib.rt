//! The tables that a program reads, from the text of a TOML document or made by calls.
#![tactic(auto)]

mod adding;
mod before;
mod document;
mod names;
mod page;
mod places;
mod refusal;
mod rows;
mod shapes;
mod table;
mod tables;

pub use before::Before;
pub use refusal::{AddError, PutError, TablesError};
pub use table_parts::refusals::RowError;
pub use tables::Tables;
