// Values on the way of a replay.

ghost use Rattle.std.specs.Prelude.{◌≡◌, slice_set, IfOk, Ok};
ghost use Rattle.linked_program.specs.CodeView.{expression as plain};
ghost use Rattle.evaluation.specs.Values.{value_at, bounds_at};
ghost use Rattle.monoid_laws.specs.Kinds.{names_element, zero_at};
ghost use Rattle.evaluation.specs.declared.slot.Slot.TheVariants.{Has};

use crate::replay::Found;
use crate::setting::Setting;
use evaluation::ranges::{LoopRange, bounds};
use evaluation::slot::Slot;
use evaluation::stop::Stop;
use evaluation::unnoted::value;
use input_tables::Tables;
use linked_program::checked::Checked;
use linked_program::code::Expression;
use monoid_laws::Kind;
use std::alloc::{AllocError, Global};

/// Why a replay goes no further.
#[derive(Clone, Copy)]
pub(crate) enum Halt {
    /// Memory is refused.
    NoMemory,
    /// The program has a fault here.
    Fault,
    /// A reducer is read: nothing is entered behind that.
    Read,
}

// Why a replay goes no further where an expression has no value.
fn halt_of(stop: Stop) -> Halt {
    match stop {
        Stop::NoMemory => Halt::NoMemory,
        Stop::Fault(_) => Halt::Fault,
    }
}

/// The value of an expression.
pub(crate) fn value_of(
    tables: &Tables,
    expression: &Expression,
    slots: &[Slot],
) -> Result<i64, Halt>
    ensures value { IfOk result (λ v.
        (value_at tables.now.tables slots.now (plain expression.now)).answer ≡ Ok v) }
{
    match value(expression, slots, tables) {
        Ok(value) => Ok(value),
        Err(stop) => Err(halt_of(stop)),
    }
}

/// Puts the values of expressions, from left to right, in place of the numbers that were asked for last.
pub(crate) fn ask(
    tables: &Tables,
    expressions: &[Expression],
    slots: &[Slot],
    found: &mut Found,
) -> Result<(), Halt>
    ensures first { found.new.first ≡ found.old.first }
{
    found.numbers.clear();
    for expression in expressions {
        let value = value_of(tables, expression, slots)?;
        if found.numbers.push(value).is_err() {
            return Err(Halt::NoMemory);
        }
    }
    Ok(())
}

/// Asks for the values of an update of the reducer of that number.
pub(crate) fn ask_update(
    setting: Setting<'_>,
    reducer: usize,
    expressions: &[Expression],
    slots: &[Slot],
    found: &mut Found,
) -> Result<(), Halt>
    ensures first { found.new.first ≡ found.old.first }
{
    ask(setting.tables, expressions, slots, found)?;
    if has_element(setting.checked, reducer, &found.numbers) {
        Ok(())
    } else {
        Err(Halt::Fault)
    }
}

// Whether the reducer of that number has the element that the numbers name.
fn has_element(checked: &Checked, reducer: usize, numbers: &[i64]) -> bool {
    match checked.kinds().get(reducer) {
        Some(kind) => is_element(kind, numbers),
        None => true,
    }
}

// Whether a reducer of that kind has the element that the numbers name: only a table may not.
fn is_element(kind: &Kind, numbers: &[i64]) -> bool
    ensures element { result ≡ names_element kind.now numbers.now }
{
    match kind {
        Kind::Table(table) => {
            let number = first_of(numbers);
            number >= 0 && number < i64::from(table.size)
        }
        _ => true,
    }
}

// The first number, or 0 where there is none.
fn first_of(numbers: &[i64]) -> i64
    ensures first { result ≡ zero_at numbers.now 0 }
{
    match numbers.first() {
        Some(number) => *number,
        None => 0,
    }
}

/// The range of a loop.
pub(crate) fn range_of(
    tables: &Tables,
    low: &Expression,
    high: &Expression,
    slots: &[Slot],
    found: &mut Found,
) -> Result<LoopRange, Halt>
    ensures range { IfOk result (λ r. (bounds_at tables.now.tables slots.now (plain low.now)
        (plain high.now)).answer ≡ Ok (r.low, r.count)) }
    ensures first { found.new.first ≡ found.old.first }
{
    found.notes.clear();
    match bounds(low, high, slots, tables, &mut found.notes) {
        Ok(range) => Ok(range),
        Err(stop) => Err(halt_of(stop)),
    }
}

/// The slots of an instance that begins with these arguments: so many, first the arguments.
pub(crate) fn slots_of(
    alloc: Global,
    size: usize,
    arguments: &[i64],
) -> Result<Vec<Slot>, AllocError> {
    let mut slots = Vec::with_capacity(alloc, size)?;
    for argument in arguments {
        slots.push(Slot::Has(*argument))?;
    }
    slots.resize(size, Slot::Unset)?;
    Ok(slots)
}

/// Gives a slot its value.
pub(crate) fn put(slots: &mut Vec<Slot>, number: usize, value: i64)
    ensures put { slots.new.items ≡ slice_set slots.old.items number (Has value) }
{
    if number < slots.len() {
        slots[number] = Slot::Has(value);
    }
}
