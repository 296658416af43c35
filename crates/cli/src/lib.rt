//! The program's parts: what it is given, what it reads and what it writes.
#![tactic(auto)]

pub mod asking;
pub mod beginning;
pub mod formatting;
pub mod program;
pub mod sorts;

pub use report_files::files;
pub use report_session::kits;
pub use script_session::{live, runner, session};
pub use session_notes::{explained, notes, run_notes};
