//! The ranges that loops go through.

ghost use Rattle.std.specs.Prelude.{◌≡◌, ◌≤◌, ◌+ℤ◌, pos, FitsSigned};
ghost use Rattle.std.specs.Int.Width.{w64};
ghost use Rattle.linked_program.specs.CodeView.{expression as plain};
ghost use Rattle.meaning.specs.Statements.{most_iterations};
ghost use Rattle.evaluation.specs.Values.{bounds_at};
ghost use Rattle.evaluation.specs.Ends.{Ends, Stops};

use crate::notes::Notes;
use crate::slot::Slot;
use crate::stop::Stop;
use crate::values::evaluate;
use input_tables::Tables;
use linked_program::code::Expression;
use meaning::FaultKind;
use number_operators::count;

/// A loop's first number, and how many iterations it has.
#[derive(Clone, Copy)]
pub struct LoopRange {
    pub low: i64,
    pub count: u32,
    ghost few: { count ≤ most_iterations },
    ghost fits: { FitsSigned w64 (low +ℤ pos count) },
}

/// The range of a loop between the values of two expressions, or a fault: that of the first, of the second, or that the range
/// is too long. What they read is noted. Where memory is refused the notes are as they were.
pub fn bounds(
    low: &Expression,
    high: &Expression,
    slots: &[Slot],
    tables: &Tables,
    notes: &mut Notes,
) -> Result<LoopRange, Stop>
    ensures ends { Ends (λ r. (r.low, r.count)) (bounds_at tables.now.tables slots.now
        (plain low.now) (plain high.now)) notes.old notes.new result }
{
    let before = notes.len();
    match range(low, high, slots, tables, notes) {
        Ok(range) => Ok(range),
        Err(Stop::Fault(kind)) => Err(Stop::Fault(kind)),
        Err(Stop::NoMemory) => {
            notes.truncate(before);
            Err(Stop::NoMemory)
        }
    }
}

// The range of a loop; where memory is refused, the notes so far stay.
fn range(
    low: &Expression,
    high: &Expression,
    slots: &[Slot],
    tables: &Tables,
    notes: &mut Notes,
) -> Result<LoopRange, Stop>
    ensures stops { Stops (λ r. (r.low, r.count)) (bounds_at tables.now.tables slots.now (plain low.now) (plain high.now)) notes.old notes.new result }
{
    match evaluate(low, slots, tables, notes) {
        Ok(low) => match evaluate(high, slots, tables, notes) {
            Ok(high) => match count(low, high) {
                Some(count) => Ok(LoopRange { low, count }),
                None => Err(Stop::Fault(FaultKind::RangeTooLong)),
            },
            Err(stop) => Err(stop),
        },
        Err(stop) => Err(stop),
    }
}
