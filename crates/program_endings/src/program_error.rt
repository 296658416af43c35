// Why the program ends early, and with which status.
ghost use Rattle.std.specs.Prelude.{◌≡◌};
ghost use Rattle.program_endings.specs.Statuses.{status_of};

use crate::session_error::SessionError;
use command_line::options::OptionsError;
use prepared_program::prepare::PrepareError;
use thiserror::Error;

/// Why the program ended before its script did.
#[derive(Debug, Drop, Error)]
pub enum ProgramError {
    #[error("{0}")]
    Line(OptionsError),
    #[error("failed {0}")]
    File(String),
    #[error("{0}")]
    Prepare(PrepareError),
    #[error("{0}")]
    Session(SessionError),
    /// The trace's file failed after it was made.
    #[error("failed {0}")]
    Trace(String),
}

/// The program's exit status: 0 where its line asks for a text alone, 1 where its program, its tables, a file or a stream
/// failed, 2 for another line, 3 where memory, kits or a run's list of strands did.
pub fn status(error: &ProgramError) -> u8
    ensures { result ≡ status_of error.now }
{
    match error {
        ProgramError::Line(OptionsError::Help | OptionsError::Version) => 0,
        ProgramError::Line(OptionsError::Usage) => 2,
        ProgramError::Line(OptionsError::NoMemory)
        | ProgramError::Prepare(PrepareError::NoMemory)
        | ProgramError::Session(
            SessionError::NoMemory | SessionError::NoKit | SessionError::Mismatch(_),
        ) => 3,
        ProgramError::File(_)
        | ProgramError::Prepare(_)
        | ProgramError::Session(_)
        | ProgramError::Trace(_) => 1,
    }
}
