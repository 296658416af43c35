//! Why a program is refused.
ghost use Rattle.std.specs.Prelude.{◌≡◌};
ghost use Rattle.spawn_checker.specs.declared.violation.CheckError.TheVariants.{NoMemory};

use linked_program::violation::Rule;
use std::alloc::AllocError;
use thiserror::Error;

/// Why a program isn't checked.
#[derive(Debug, Drop, Error)]
pub enum CheckError {
    #[error("out of memory")]
    NoMemory,
    /// The first violation: its rule, the name of the reducer or procedure that holds it, its line.
    #[error("refused E9 {rule} {name} {line}")]
    Check { rule: Rule, name: String, line: u32 },
    /// No revision number is left.
    #[error("refused E18")]
    Exhausted,
}

impl From<AllocError> for CheckError {
    ghost from_gives = { λ _ e. e ≡ NoMemory };

    fn from(_e: AllocError) -> CheckError {
        CheckError::NoMemory
    }
}
