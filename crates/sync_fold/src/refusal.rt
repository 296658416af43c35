//! Refusals that calls of the book gave.
ghost use Rattle.std.specs.Prelude.{◌≡◌};
ghost use Rattle.strand_list.specs.declared.error.BookError.TheVariants as reason;
ghost use Rattle.sync_fold.specs.Refusals.{WasGiven};

use std::marker::Model;
use strand_list::error::BookError;

/// Why a call of a book was refused. One is made where a call is refused, and nowhere else: no other crate can make one, but for
/// want of memory.
#[derive(Clone, Copy, Debug, PartialEq, Eq)]
pub struct Refusal {
    error: BookError,
}

impl Model for Refusal {
    ghost use Rattle.strand_list.specs.declared.error.BookError.{BookError};
    ghost use Rattle.sync_fold.specs.Refusals.{WasGiven};

    ghost Value = { BookError };

    ghost view = { λ r. r.error };

    ghost inverse = { λ e. record { error = e } };

    ghost invariant = { λ r. WasGiven r.error };
}

impl Refusal {
    /// A call was refused so.
    pub(crate) fn of(error: BookError) -> Refusal
        requires given { WasGiven error }
        ensures error { result ≡ error }
    {
        Refusal { error }
    }

    /// Memory was refused.
    pub fn without_memory() -> Refusal
        ensures error { result ≡ reason.NoMemory }
    {
        Refusal {
            error: BookError::NoMemory,
        }
    }

    /// What the type keeps.
    pub fn upheld(&self)
        ensures given { WasGiven self.now }
    {
        let _ = &self.error;
    }

    /// The reason.
    pub fn error(&self) -> BookError
        ensures error { result ≡ self.now }
    {
        self.error
    }
}

/// The list of strands refused a worker, as the refusal that it gave shows.
#[derive(Clone, Copy, Debug, PartialEq, Eq)]
pub struct Mismatch {
    pub refusal: Refusal,
}
