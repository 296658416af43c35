//! Rows between which readings lie.
ghost use Rattle.std.specs.Prelude.{◌≡◌};
ghost use Rattle.std.specs.Int.{int_min, int_max};

/// The lowest and the greatest of what two records have read, each given by its lowest and its greatest row. A record is told of a row
/// where it lies between them, so those of an instance are joined with those of the instances below it.
#[inline(always)]
pub fn rows_of_both(low: i64, high: i64, other_low: i64, other_high: i64) -> (i64, i64)
    ensures low { result.0 ≡ int_min low other_low }
    ensures high { result.1 ≡ int_max high other_high }
{
    (low.min(other_low), high.max(other_high))
}
