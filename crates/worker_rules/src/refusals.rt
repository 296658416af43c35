//! Which refusals end a run.
ghost use Rattle.std.specs.Prelude.{◌≡◌};
ghost use Rattle.worker_rules.specs.Ends.{is_refusal};

use strand_list::error::BookError;

/// Whether the list of strands refused a worker for another reason than want of memory.
pub fn is_refusal(error: BookError) -> bool
    ensures refusal { result ≡ is_refusal error }
{
    match error {
        BookError::NoMemory => false,
        _ => true,
    }
}
