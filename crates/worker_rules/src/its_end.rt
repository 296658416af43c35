//! When a run is over, and whether it has come to its result.
ghost use Rattle.std.specs.Prelude.{◌≡◌, ◌||◌, is_some};
ghost use Rattle.worker_rules.specs.Ends.{is_finished};

use positions::answer::RunAnswer;

/// Whether a run is over that has given up for this reason, if for any, or that is at its end.
#[inline(always)]
pub fn is_over<F>(failure: &Option<F>, is_at_end: bool) -> bool
    ensures over { result ≡ (is_some failure.now || is_at_end) }
{
    failure.is_some() || is_at_end
}

/// Whether a run with that answer has come to its result.
pub fn is_finished(answer: &RunAnswer) -> bool
    ensures finished { result ≡ is_finished answer.now }
{
    match answer {
        RunAnswer::Finished { .. } => true,
        _ => false,
    }
}
