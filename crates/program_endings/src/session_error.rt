// Why a session ends early.
ghost use Rattle.std.specs.Prelude.{◌≡◌};
ghost use Rattle.program_endings.specs.declared.session_error.SessionError.TheVariants.{NoMemory};
ghost use Rattle.program_endings.specs.declared.session_error.SessionError.TheVariants as ended;

use std::alloc::AllocError;
use sync_fold::Mismatch;
use thiserror::Error;

/// Why a session ended before its script did.
#[derive(Debug, Drop, Error)]
pub enum SessionError {
    #[error("out of memory")]
    NoMemory,
    #[error("no kit")]
    NoKit,
    /// A run's list of strands refused one of its workers.
    #[error("worker mismatch")]
    Mismatch(Mismatch),
    #[error("failed input")]
    Read,
    #[error("failed output")]
    Write,
    /// A run couldn't be noted.
    #[error("failed output")]
    Notes,
}

impl From<AllocError> for SessionError {
    ghost from_gives = { λ _ e. e ≡ NoMemory };

    fn from(_e: AllocError) -> SessionError {
        SessionError::NoMemory
    }
}

impl From<Mismatch> for SessionError {
    ghost from_gives = { λ m e. e ≡ ended.Mismatch m };

    fn from(mismatch: Mismatch) -> SessionError {
        SessionError::Mismatch(mismatch)
    }
}
