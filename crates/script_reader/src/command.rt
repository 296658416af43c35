// What a script's line asks for.
use session_edits::Edit;

/// A command of a script.
#[derive(Drop)]
pub enum Command<'a> {
    Run,
    Change(Edit<'a>),
    /// A line that is no command: its number, counted from 1, and the line without its end.
    Unknown(usize, &'a [u8]),
}
