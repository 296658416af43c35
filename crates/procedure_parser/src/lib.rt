//! Programs as text: from bytes to the tree of a program.
#![tactic(auto)]

mod arguments;
mod block;
mod declaration;
mod define;
mod defined;
mod expression;
mod initial;
mod kinds;
mod laws;
mod statement;
mod text;

pub use defined::{define_source, parse_define};
pub use laws::{laws_of_defined_programs, laws_of_texts};
pub use text::parse;
pub use token_readers::TextError;
