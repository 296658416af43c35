// Values on the way of a serial run, which ends at the first row that isn't there.

ghost use Rattle.std.specs.Prelude.{◌≡◌, ◌+◌, [], map, slice_set, IfOk, IfErr, OnOk, IsOk, Ok};
ghost use Rattle.linked_program.specs.CodeView.{expression as plain, slots_of as slot_count};
ghost use Rattle.evaluation.specs.Values.{value_at, values_at, bounds_at, entry_at};
ghost use Rattle.evaluation.specs.declared.slot.Slot.TheVariants.{Has};
ghost use Rattle.program_reasons.specs.Absent.{EndsAbsent, EndsMissing};
ghost use Rattle.program_reasons.specs.declared.missing_cells.Halt.TheVariants.{Unknown};

use crate::missing_cells::{Halt, searched};
use evaluation::entry::entry_slots;
use evaluation::notes::Notes;
use evaluation::ranges::{LoopRange, bounds};
use evaluation::slot::Slot;
use evaluation::values::value;
use input_tables::Tables;
use linked_program::checked::Checked;
use linked_program::code::Expression;
use std::alloc::Global;

// How many values are asked for at most, so that the search takes no more than a second or so.
const MOST_VALUES: u32 = 20_000_000;

/// What a walk goes by.
#[derive(Clone, Copy)]
pub struct Ground<'a> {
    pub alloc: Global,
    pub checked: &'a Checked,
    pub tables: &'a Tables,
}

/// What a walk has asked for.
#[derive(Drop)]
pub struct Asked {
    notes: Notes,
    values: u32,
}

impl Asked {
    /// Nothing yet.
    pub(crate) fn new(alloc: Global) -> Asked
        ensures unread { result.notes ≡ [] }
        ensures uncounted { result.values ≡ 0 }
    {
        Asked {
            notes: Notes::new(alloc),
            values: 0,
        }
    }

    // Counts one more value, and forgets what the ones before have read.
    fn begin(&mut self) -> Result<(), Halt>
        ensures unread { OnOk result (self.new.notes ≡ []) }
        ensures counted { OnOk result (self.new.values ≡ self.old.values + 1) }
        ensures unknown { IfErr result (λ halt. halt ≡ Unknown) }
    {
        if self.values >= MOST_VALUES {
            return Err(Halt::Unknown);
        }
        self.values += 1;
        self.notes.clear();
        Ok(())
    }

    // Why the first of these expressions that has no value has none.
    fn halted(&mut self, ground: Ground<'_>, slots: &[Slot], expressions: &[&Expression]) -> Halt
        ensures missing { EndsMissing (values_at ground.entry.tables.now.tables slots.now (map (λ e. plain e.now) expressions.now)).answer result }
        ensures absent { EndsAbsent ground.entry.tables.now.tables result }
    {
        for expression in expressions {
            if let Err(halt) = searched(ground.tables, slots, expression, &mut self.notes) {
                return halt;
            }
        }
        Halt::Unknown
    }
}

/// The value of an expression.
pub(crate) fn value_of(
    ground: Ground<'_>,
    expression: &Expression,
    slots: &[Slot],
    asked: &mut Asked,
) -> Result<i64, Halt>
    ensures value { IfOk result (λ v. (value_at ground.entry.tables.now.tables slots.now
        (plain expression.now)).answer ≡ Ok v) }
    ensures missing { IfErr result (EndsMissing (value_at ground.entry.tables.now.tables slots.now
        (plain expression.now)).answer) }
    ensures absent { IfErr result (EndsAbsent ground.entry.tables.now.tables) }
{
    asked.begin()?;
    match value(expression, slots, ground.tables, &mut asked.notes) {
        Ok(value) => Ok(value),
        Err(_) => Err(asked.halted(ground, slots, &[expression])),
    }
}

/// Asks for the values of expressions, from left to right.
pub(crate) fn ask_all(
    ground: Ground<'_>,
    expressions: &[Expression],
    slots: &[Slot],
    asked: &mut Asked,
) -> Result<(), Halt>
    ensures values { OnOk result (IsOk (values_at ground.entry.tables.now.tables slots.now
        (map plain expressions.now)).answer) }
    ensures missing { IfErr result (EndsMissing (values_at ground.entry.tables.now.tables slots.now
        (map plain expressions.now)).answer) }
    ensures absent { IfErr result (EndsAbsent ground.entry.tables.now.tables) }
{
    for expression in expressions {
        value_of(ground, expression, slots, asked)?;
    }
    Ok(())
}

/// The range of a loop.
pub(crate) fn range_of(
    ground: Ground<'_>,
    low: &Expression,
    high: &Expression,
    slots: &[Slot],
    asked: &mut Asked,
) -> Result<LoopRange, Halt>
    ensures range { IfOk result (λ r. (bounds_at ground.entry.tables.now.tables slots.now
        (plain low.now) (plain high.now)).answer ≡ Ok (r.low, r.count)) }
    ensures missing { IfErr result (EndsMissing (bounds_at ground.entry.tables.now.tables slots.now
        (plain low.now) (plain high.now)).answer) }
    ensures absent { IfErr result (EndsAbsent ground.entry.tables.now.tables) }
{
    asked.begin()?;
    match bounds(low, high, slots, ground.tables, &mut asked.notes) {
        Ok(range) => Ok(range),
        Err(_) => Err(asked.halted(ground, slots, &[low, high])),
    }
}

/// The slots with which an instance of the procedure of that number begins.
pub(crate) fn slots_of(
    ground: Ground<'_>,
    procedure: usize,
    arguments: &[Expression],
    slots: &[Slot],
    asked: &mut Asked,
) -> Result<Vec<Slot>, Halt>
    ensures slots { IfOk result (λ own. (entry_at ground.entry.tables.now.tables slots.now
        (slot_count ground.entry.checked.now.codes procedure) (map plain arguments.now)).answer
        ≡ Ok own.items) }
    ensures missing { IfErr result (EndsMissing (entry_at ground.entry.tables.now.tables slots.now
        (slot_count ground.entry.checked.now.codes procedure) (map plain arguments.now)).answer) }
    ensures absent { IfErr result (EndsAbsent ground.entry.tables.now.tables) }
{
    asked.begin()?;
    let room = Vec::new(ground.alloc);
    let size = ground.checked.slots(procedure);
    match entry_slots(
        room,
        size,
        arguments,
        slots,
        ground.tables,
        &mut asked.notes,
    ) {
        Ok(slots) => Ok(slots),
        Err(_) => {
            ask_all(ground, arguments, slots, asked)?;
            Err(Halt::Unknown)
        }
    }
}

/// Gives a slot its value.
pub(crate) fn put(slots: &mut Vec<Slot>, number: usize, value: i64)
    ensures put { slots.new.items ≡ slice_set slots.old.items number (Has value) }
{
    if number < slots.len() {
        slots[number] = Slot::Has(value);
    }
}
