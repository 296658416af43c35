//! Printed programs are read again.
#![tactic(auto)]

mod again;
mod definitions;
mod normal;
mod printing;

pub use again::print_and_parse;
pub use definitions::laws_of_definitions;
pub use normal::{laws_of_normal_forms, normal_form};
pub use printing::print;
