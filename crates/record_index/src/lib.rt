//! Records with the number of what each of them has read and entered that doesn't hold now.
#![tactic(auto)]

mod changes;
pub mod indexed;
mod told;
