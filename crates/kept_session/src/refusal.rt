// Why an edit of a session isn't accepted.
ghost use Rattle.std.specs.Prelude.{◌≡◌};
ghost use Rattle.kept_session.specs.Applied.{of_put, of_define};

use checked_defines::DefineError;
use input_tables::PutError;
use session_edits::EditError;
use thiserror::Error;

/// Why an edit isn't accepted.
#[derive(Debug, Drop, Error)]
pub enum ApplyError {
    #[error("out of memory")]
    NoMemory,
    /// The definitions refuse it.
    #[error("refused")]
    Refused(EditError),
}

/// The refusal of a row that is to be put.
pub(crate) fn unput(error: PutError) -> ApplyError
    ensures { result ≡ of_put error }
{
    match error {
        PutError::NoMemory => ApplyError::NoMemory,
        PutError::Refused(error) => ApplyError::Refused(EditError::Row(error)),
    }
}

/// The refusal of a definition of procedures.
pub(crate) fn undefined(error: DefineError) -> ApplyError
    ensures { result ≡ of_define error }
{
    match error {
        DefineError::NoMemory => ApplyError::NoMemory,
        DefineError::Text { line } => ApplyError::Refused(EditError::BadText { line }),
        DefineError::Check { rule, name, line } => ApplyError::Refused(EditError::Broken {
            rule,
            holder: name,
            line,
        }),
        DefineError::Exhausted => ApplyError::Refused(EditError::Exhausted),
    }
}
