//! What expressions and loops do with numbers alone, and the faults that come of it.
#![tactic(auto)]

ghost use Rattle.std.specs.Prelude.{◌≡◌, ◌≤◌, ◌<◌, ◌+ℤ◌, pos, FitsSigned, IfSome, IfNone, Ok, Err};
ghost use Rattle.std.specs.Int.Width.{w64};
ghost use Rattle.meaning.specs.Statements.{most_iterations, span};
ghost use Rattle.meaning.specs.Values.{apply, one_if};
ghost use Rattle.meaning.specs.declared.FaultKind.TheVariants.{MissingRow};

use meaning::tree::Operator;
use meaning::{FaultKind, MOST_ITERATIONS};

/// 1 for true, 0 for false.
pub fn one_if(holds: bool) -> i64
    ensures { result ≡ one_if holds }
{
    if holds { 1 } else { 0 }
}

/// An operator's value, wrapped to 64 bits; a fault where the divisor is 0.
#[inline(always)]
pub fn apply(operator: Operator, left: i64, right: i64) -> Result<i64, FaultKind>
    ensures { result ≡ (apply operator left right).answer }
{
    match operator {
        Operator::Add => Ok(left.wrapping_add(right)),
        Operator::Subtract => Ok(left.wrapping_sub(right)),
        Operator::Multiply => Ok(left.wrapping_mul(right)),
        Operator::Divide => {
            if right == 0 {
                Err(FaultKind::DivideByZero)
            } else {
                Ok(left.wrapping_div(right))
            }
        }
        Operator::Remainder => {
            if right == 0 {
                Err(FaultKind::DivideByZero)
            } else {
                Ok(left.wrapping_rem(right))
            }
        }
        Operator::Equal => Ok(one_if(left == right)),
        Operator::Unequal => Ok(one_if(left != right)),
        Operator::Less => Ok(one_if(left < right)),
        Operator::AtMost => Ok(one_if(left <= right)),
        Operator::Greater => Ok(one_if(left > right)),
        Operator::AtLeast => Ok(one_if(left >= right)),
    }
}

/// A cell's value; a fault where there is no such row.
#[inline(always)]
pub fn held(cell: Option<i64>) -> Result<i64, FaultKind>
    ensures value { IfSome cell (λ v. result ≡ Ok v) }
    ensures missing { IfNone cell (result ≡ Err MissingRow) }
{
    match cell {
        Some(value) => Ok(value),
        None => Err(FaultKind::MissingRow),
    }
}

/// How many numbers there are from `low` to below `high`, where they are not too many for a loop.
pub fn count(low: i64, high: i64) -> Option<u32>
    ensures counted { IfSome result (λ n. n ≡ span low high) }
    ensures within { IfSome result (λ n. n ≤ most_iterations) }
    ensures fits { IfSome result (λ n. FitsSigned w64 (low +ℤ pos n)) }
    ensures above { IfNone result (most_iterations < span low high) }
{
    if high <= low {
        return Some(0);
    }
    match high.checked_sub(low) {
        None => None,
        Some(difference) => {
            if difference <= i64::from(MOST_ITERATIONS) {
                Some(difference as u32)
            } else {
                None
            }
        }
    }
}
