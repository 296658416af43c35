//! The values of expressions where nobody asks what they read.

ghost use Rattle.std.specs.Prelude.{◌≡◌, ◌≤◌, ◌∷◌, [], IfSome, Ok, length, map, slice_get};
ghost use Rattle.linked_program.specs.CodeView.{expression as plain, on_row};
ghost use Rattle.evaluation.specs.Ends.{Answers};
ghost use Rattle.input_tables.specs.Edited as read;
ghost use Rattle.evaluation.specs.Values.{value_at, values_at, entry_at, slot_by, looked, applied as applied_to};

use crate::at_once::operand;
use crate::slot::Slot;
use crate::stop::Stop;
use crate::values::{joined, number_in};
use input_tables::Tables;
use linked_program::code::{Expression, RowCells};
use meaning::tree::Operator;
use number_operators::{apply, held, one_if};

/// The value of an expression, or its fault. Most have a value, which is found in a way that leaves faults aside.
#[inline(always)]
pub fn value(expression: &Expression, slots: &[Slot], tables: &Tables) -> Result<i64, Stop>
    ensures answer { Answers (λ v. v) (value_at tables.now.tables slots.now (plain expression.now))
        result }
{
    match operand(expression, slots, tables) {
        Some(value) => Ok(value),
        None => evaluate(expression, slots, tables),
    }
}

/// The values of two expressions, from left to right, or the first fault.
#[inline(always)]
pub fn two_values(
    first: &Expression,
    second: &Expression,
    slots: &[Slot],
    tables: &Tables,
) -> Result<(i64, i64), Stop>
    ensures answer { Answers (λ p. p.0 ∷ p.1 ∷ [])
        (values_at tables.now.tables slots.now (plain first.now ∷ plain second.now ∷ [])) result }
{
    match value(first, slots, tables) {
        Ok(left) => match value(second, slots, tables) {
            Ok(right) => Ok((left, right)),
            Err(stop) => Err(stop),
        },
        Err(stop) => Err(stop),
    }
}

/// Puts the slots of an instance of `size` names that is entered with these arguments in place of what `made` held: their values,
/// and then no values; or finds the first fault, or want of memory.
#[inline(always)]
pub fn fill_slots(
    made: &mut Vec<Slot>,
    size: usize,
    arguments: &[Expression],
    slots: &[Slot],
    tables: &Tables,
) -> Result<(), Stop>
    ensures answer { Answers (λ u. made.new.items) (entry_at tables.now.tables slots.now size
        (map plain arguments.now)) result }
{
    if made.len() == size && arguments.len() <= size {
        return put_over(made, arguments, slots, tables);
    }
    made.clear();
    put_values(made, size, arguments, slots, tables)
}

// Puts the slots of an instance in place of as many others: the values of its arguments, and then no values.
#[inline(always)]
fn put_over(
    made: &mut Vec<Slot>,
    arguments: &[Expression],
    slots: &[Slot],
    tables: &Tables,
) -> Result<(), Stop>
    requires room { length arguments.now ≤ length made.old.items }
    ensures answer { Answers (λ u. made.new.items)
        (entry_at tables.now.tables slots.now (length made.old.items) (map plain arguments.now)) result }
{
    for place in 0..made.len() {
        match slot_at(place, arguments, slots, tables) {
            Ok(slot) => made[place] = slot,
            Err(stop) => return Err(stop),
        }
    }
    Ok(())
}

// The slot at a place of an instance that is entered with these arguments.
#[inline(always)]
fn slot_at(
    place: usize,
    arguments: &[Expression],
    slots: &[Slot],
    tables: &Tables,
) -> Result<Slot, Stop>
    ensures answer { Answers (λ s. s) (slot_by tables.now.tables slots.now (slice_get (map plain arguments.now) place)) result }
{
    match arguments.get(place) {
        None => Ok(Slot::Unset),
        Some(argument) => match value(argument, slots, tables) {
            Ok(value) => Ok(Slot::Has(value)),
            Err(stop) => Err(stop),
        },
    }
}

// Puts the slots of an instance into an empty list: the values of its arguments, and then no values.
#[inline(never)]
fn put_values(
    made: &mut Vec<Slot>,
    size: usize,
    arguments: &[Expression],
    slots: &[Slot],
    tables: &Tables,
) -> Result<(), Stop>
    requires empty { made.old.items ≡ [] }
    ensures answer { Answers (λ u. made.new.items) (entry_at tables.now.tables slots.now size (map plain arguments.now)) result }
{
    if made.reserve(size).is_err() {
        return Err(Stop::NoMemory);
    }
    for argument in arguments {
        match value(argument, slots, tables) {
            Ok(value) => {
                if made.push(Slot::Has(value)).is_err() {
                    return Err(Stop::NoMemory);
                }
            }
            Err(stop) => return Err(stop),
        }
    }
    if made.resize(size, Slot::Unset).is_err() {
        return Err(Stop::NoMemory);
    }
    Ok(())
}

// The value of an expression, or its fault, operand by operand.
#[cycle(evaluate)]
fn evaluate(expression: &Expression, slots: &[Slot], tables: &Tables) -> Result<i64, Stop>
    ensures answer { Answers (λ v. v) (value_at tables.now.tables slots.now (plain expression.now)) result }
{
    match expression {
        Expression::Number(number) => Ok(*number),
        Expression::Slot(number) => Ok(number_in(slots, *number)),
        Expression::Cell(table, row, column) => match evaluate(row, slots, tables) {
            Ok(row) => cell(tables, *table, row, *column),
            Err(stop) => Err(stop),
        },
        Expression::Has(table, row) => match evaluate(row, slots, tables) {
            Ok(row) => Ok(one_if(tables.has(*table, row))),
            Err(stop) => Err(stop),
        },
        Expression::Limit(table) => Ok(tables.limit(*table)),
        Expression::Sum(table, column) => Ok(tables.sum(*table, *column)),
        Expression::Negate(inner) => match evaluate(inner, slots, tables) {
            Ok(number) => Ok(number.wrapping_neg()),
            Err(stop) => Err(stop),
        },
        Expression::Binary(operator, left, right) => match evaluate(left, slots, tables) {
            Ok(left) => match evaluate(right, slots, tables) {
                Ok(right) => applied(*operator, left, right),
                Err(stop) => Err(stop),
            },
            Err(stop) => Err(stop),
        },
        Expression::SlotCell(table, slot, column) => {
            cell(tables, *table, number_in(slots, *slot), *column)
        }
        Expression::Slots(operator, left, right) => {
            applied(*operator, number_in(slots, *left), number_in(slots, *right))
        }
        Expression::SlotAndNumber(operator, left, right) => {
            applied(*operator, number_in(slots, *left), *right)
        }
        Expression::NumberAndSlot(operator, left, right) => {
            applied(*operator, *left, number_in(slots, *right))
        }
        Expression::OnRow(operator, cells) => two_cells(*operator, cells, slots, tables),
    }
}

/// The value of an operator on two cells of one row, where the row is found at once and the operator has a value.
#[inline(always)]
pub fn row_at_once(
    operator: Operator,
    cells: &RowCells,
    slots: &[Slot],
    tables: &Tables,
) -> Option<i64>
    ensures value { IfSome result (λ v. (value_at tables.now.tables slots.now (on_row operator cells.now)).answer ≡ Ok v) }
{
    let values = tables.row_at_once(cells.table, number_in(slots, cells.slot))?;
    let left = values.get(cells.first)?;
    let right = values.get(cells.second)?;
    joined(operator, *left, *right)
}

// The value of an operator on two cells of one row, where the row is found at once and the operator has a value, compiled by itself.
#[inline(never)]
pub(crate) fn cells_at_once(
    operator: Operator,
    cells: &RowCells,
    slots: &[Slot],
    tables: &Tables,
) -> Option<i64>
    ensures value { IfSome result (λ v. (value_at tables.now.tables slots.now (on_row operator cells.now)).answer ≡ Ok v) }
{
    row_at_once(operator, cells, slots, tables)
}

// The value of an operator on two cells of one row, or its fault.
fn two_cells(
    operator: Operator,
    cells: &RowCells,
    slots: &[Slot],
    tables: &Tables,
) -> Result<i64, Stop>
    ensures answer { Answers (λ v. v) (value_at tables.now.tables slots.now (on_row operator cells.now)) result }
{
    let row = number_in(slots, cells.slot);
    match cell(tables, cells.table, row, cells.first) {
        Ok(left) => match cell(tables, cells.table, row, cells.second) {
            Ok(right) => applied(operator, left, right),
            Err(stop) => Err(stop),
        },
        Err(stop) => Err(stop),
    }
}

// The value of a cell, or that there is no such row.
#[inline(always)]
fn cell(tables: &Tables, table: usize, row: i64, column: usize) -> Result<i64, Stop>
    ensures answer { Answers (λ v. v) (looked table row column (read.cell_at tables.now.tables table row column)) result }
{
    match held(tables.cell(table, row, column)) {
        Ok(value) => Ok(value),
        Err(kind) => Err(Stop::Fault(kind)),
    }
}

// The value of an operator on two numbers, or its fault.
#[inline(always)]
fn applied(operator: Operator, left: i64, right: i64) -> Result<i64, Stop>
    ensures answer { Answers (λ v. v) (applied_to operator left right) result }
{
    match apply(operator, left, right) {
        Ok(value) => Ok(value),
        Err(kind) => Err(Stop::Fault(kind)),
    }
}
