//! Why a run by threads has no answer, and when it is over.
ghost use Rattle.std.specs.Prelude.{◌≡◌, ◌||◌, true, false, IfSome};
ghost use Rattle.sync_fold.specs.Refusals.{WasRefused, is_apart};
ghost use Rattle.worker_seats.specs.Over.{has_failed, is_far, is_refusal, is_right};
ghost use Rattle.worker_seats.specs.declared.failure.Failure.TheVariants as reason;

use sync_fold::{Mismatch, Refusal};
use worker_rules::its_end;
use worker_rules::refusals::is_refusal;

/// Why a run gives up: a growth was refused, or the list of strands refused a worker for another reason.
#[derive(Clone, Copy)]
pub enum Failure {
    NoMemory,
    Refused(Refusal),
}

/// Why a run gives up that was refused a step so.
pub fn failure_of(refusal: Refusal) -> Failure
    ensures right { is_right result ≡ true }
    ensures near { is_apart refusal ≡ false → is_far result ≡ false }
    ensures same { is_refusal refusal ≡ true → result ≡ reason.Refused refusal }
{
    if is_refusal(refusal.error()) {
        return Failure::Refused(refusal);
    }
    Failure::NoMemory
}

/// The mismatch of a run that gives up for this reason; none where memory was refused.
pub fn mismatch_of(failure: Failure) -> Option<Mismatch>
    requires right { is_right failure ≡ true }
    requires near { is_far failure ≡ false }
    ensures refusal { IfSome result (λ m. is_refusal m.refusal ≡ true) }
    ensures refused { IfSome result (λ m. WasRefused m.refusal) }
    ensures near { IfSome result (λ m. is_apart m.refusal ≡ false) }
    ensures noted { IfSome result (λ m. failure ≡ reason.Refused m.refusal) }
{
    match failure {
        Failure::NoMemory => None,
        Failure::Refused(refusal) => {
            was_refused(refusal);
            Some(Mismatch { refusal })
        }
    }
}

/// A call of the list gave a refusal that isn't for want of memory.
fn was_refused(refusal: Refusal)
    ensures refused { is_refusal refusal ≡ true → WasRefused refusal }
{
    refusal.upheld();
}

/// Whether a run is over that has given up for this reason, if for any, or that is at its end.
pub fn is_over(failure: &Option<Failure>, is_at_end: bool) -> bool
    ensures over { result ≡ (has_failed failure.now || is_at_end) }
{
    its_end::is_over(failure, is_at_end)
}
