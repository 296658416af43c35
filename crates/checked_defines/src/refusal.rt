//! Why a definition of procedures is refused.
ghost use Rattle.std.specs.Prelude.{◌≡◌};
ghost use Rattle.checked_defines.specs.Causes.{of_check, of_text};

use linked_program::violation::Rule;
use procedure_parser::TextError;
use spawn_checker::CheckError;
use thiserror::Error;

/// Why procedures aren't defined.
#[derive(Debug, Drop, Error)]
pub enum DefineError {
    #[error("out of memory")]
    NoMemory,
    /// The line of the text's first token that can't follow what stands before it; 0 for a text that is too long.
    #[error("refused E8 {line}")]
    Text { line: u32 },
    /// The first violation: its rule, the name of the reducer or procedure that holds it, its line.
    #[error("refused E9 {rule} {name} {line}")]
    Check { rule: Rule, name: String, line: u32 },
    /// No revision number is left.
    #[error("refused E18")]
    Exhausted,
}

/// The refusal of a text that isn't read.
pub(crate) fn unread(error: TextError) -> DefineError
    ensures { result ≡ of_text error }
{
    match error {
        TextError::NoMemory => DefineError::NoMemory,
        TextError::Text { line } => DefineError::Text { line },
    }
}

/// The refusal of a program that isn't checked.
pub(crate) fn unchecked(error: CheckError) -> DefineError
    ensures { result ≡ of_check error }
{
    match error {
        CheckError::NoMemory => DefineError::NoMemory,
        CheckError::Check { rule, name, line } => DefineError::Check { rule, name, line },
        CheckError::Exhausted => DefineError::Exhausted,
    }
}
