//! Why a text could not be read.

ghost use Rattle.std.specs.Prelude.{◌≡◌};
ghost use Rattle.token_readers.specs.declared.fault.ParseError.TheVariants.{Memory};
ghost use Rattle.token_readers.specs.declared.fault.TextError.TheVariants.{NoMemory, Text};

use plain_rules::limits::line_of_too_long;
use std::alloc::{AllocError, AllocFailed};
use thiserror::Error;

/// Why a text is no program.
#[derive(Debug, Drop, Error)]
pub enum TextError {
    #[error("out of memory")]
    NoMemory,
    /// The line of the first token that can't follow what stands before it; 0 for a text that is too long.
    #[error("line {line}: not in the grammar, or a limit passed")]
    Text { line: u32 },
}

impl TextError {
    /// That of a text that is too long.
    pub fn too_long() -> TextError
        ensures { result ≡ Text 0 }
    {
        TextError::Text {
            line: line_of_too_long(),
        }
    }
}

/// Why tokens could not be read.
#[derive(Drop)]
pub enum ParseError {
    Memory,
    /// The token that can't follow, as the number of tokens from it on.
    Stuck(usize),
}

impl From<AllocError> for ParseError {
    ghost from_gives = { λ _ e. e ≡ Memory };

    fn from(_e: AllocError) -> ParseError {
        ParseError::Memory
    }
}

impl<T: Drop> From<AllocFailed<T>> for ParseError {
    ghost from_gives = { λ _ e. e ≡ Memory };

    fn from(_e: AllocFailed<T>) -> ParseError {
        ParseError::Memory
    }
}

impl From<AllocError> for TextError {
    ghost from_gives = { λ _ e. e ≡ NoMemory };

    fn from(_e: AllocError) -> TextError {
        TextError::NoMemory
    }
}
