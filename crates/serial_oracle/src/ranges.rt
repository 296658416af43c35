//! The bounds of a loop, evaluated.
ghost use Rattle.meaning.specs.TreeView.{term};
ghost use Rattle.meaning.specs.Statements.{span, bounds};
ghost use Rattle.serial_oracle.specs.Listing.{tables_plain};
ghost use Rattle.serial_oracle.specs.Ranges.{AreBounds, ranging};

use crate::expressions::evaluate;
use crate::range::Range;
use crate::tables::TableRows;
use meaning::tree::Expr;
use meaning::{FaultKind, MOST_ITERATIONS};

/// The numbers from `low` to below `high`; too long where they are more than a loop may have.
fn range_between(low: i64, high: i64) -> Result<Range, FaultKind>
    ensures { AreBounds result (ranging low (span low high)).answer }
{
    if low >= high {
        return Ok(Range { low, count: 0 });
    }
    let count = high.abs_diff(low);
    if count > u64::from(MOST_ITERATIONS) {
        return Err(FaultKind::RangeTooLong);
    }
    Ok(Range { low, count })
}

/// The range of a loop from its bounds, the first evaluated first.
pub(crate) fn range_of(
    tables: &[TableRows],
    env: &[Option<i64>],
    low: &Expr,
    high: &Expr,
) -> Result<Range, FaultKind>
    ensures { AreBounds result (bounds (tables_plain tables.now) env.now (term low.now)
        (term high.now)).answer }
{
    let first = evaluate(tables, env, low)?;
    let last = evaluate(tables, env, high)?;
    range_between(first, last)
}
