// Why an edit is refused.
use input_tables::RowError;
use linked_program::violation::Rule;

/// Why an edit is refused.
#[derive(Debug, Drop)]
pub enum EditError {
    /// The row may not be put or deleted.
    Row(RowError),
    /// The text isn't one of procedures: the line of its first fault.
    BadText {
        line: u32,
    },
    /// A rule would be broken: by which reducer or procedure, and on which line.
    Broken {
        rule: Rule,
        holder: String,
        line: u32,
    },
    /// No number is left for a definition, or for a procedure that it changes.
    Exhausted,
}
