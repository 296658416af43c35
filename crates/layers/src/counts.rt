// Counts that are refused where they are past their limit.
ghost use Rattle.std.specs.Prelude.{◌≡◌, ◌+◌, suc, IfOk};

use crate::tally::Tally;
use std::alloc::AllocError;

/// One more; refused where the count is at its limit.
pub(crate) fn one_more(count: u64) -> Result<u64, AllocError>
    ensures more { IfOk result (λ n. n ≡ suc count) }
{
    sum(count, 1)
}

/// The sum of two counts; refused where it is past the limit.
pub(crate) fn sum(left: u64, right: u64) -> Result<u64, AllocError>
    ensures sum { IfOk result (λ n. n ≡ left + right) }
{
    match left.checked_add(right) {
        Some(count) => Ok(count),
        None => Err(AllocError),
    }
}

/// How many instances were executed, answered by a record, and executed without a layer.
#[derive(Clone, Copy)]
pub(crate) struct Counts {
    pub(crate) executed: u64,
    pub(crate) reused: u64,
    pub(crate) unrecorded: u64,
}

/// The counts of two strands together; refused where one is past the limit.
pub(crate) fn counts_of(left: &Tally, right: &Tally) -> Result<Counts, AllocError>
    ensures executed { IfOk result (λ c. c.executed ≡ left.now.executed + right.now.executed) }
    ensures reused { IfOk result (λ c. c.reused ≡ left.now.reused + right.now.reused) }
    ensures unrecorded { IfOk result (λ c. c.unrecorded ≡ left.now.unrecorded + right.now.unrecorded) }
{
    Ok(Counts {
        executed: sum(left.executed(), right.executed())?,
        reused: sum(left.reused(), right.reused())?,
        unrecorded: sum(left.unrecorded(), right.unrecorded())?,
    })
}
