//! The book that workers share: their strands, those that were laid down, and the legal history of the list.
#![tactic(auto)]

mod book;
mod folds;
mod kept;
mod laid;
pub mod refusal;

pub use book::Book;
pub use refusal::{Mismatch, Refusal};
pub use strand_list::error::{BookError, ReplayError};
pub use strand_list::history::replay;
pub use strand_list::laid_state::LaidState;
