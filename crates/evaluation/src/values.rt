//! The values of expressions.

ghost use Rattle.std.specs.Prelude.{◌≡◌, ◌∷◌, [], IfSome, IsNone, map, slice_get};
ghost use Rattle.linked_program.specs.CodeView.{expression as plain, on_row};
ghost use Rattle.input_tables.specs.Edited as read;
ghost use Rattle.meaning.specs.Values.{one_if as one_for};
ghost use Rattle.evaluation.specs.Slots.{number_in as number_of};
ghost use Rattle.evaluation.specs.Values.{value_at, values_at, looked, reading, pure, applied as applied_to};
ghost use Rattle.meaning.specs.Tables.{Tables as TableList};
ghost use Rattle.evaluation.specs.Ends.{AreNoted, Ends, Stops};

use crate::note::Note;
use crate::notes::Notes;
use crate::slot::Slot;
use crate::stop::Stop;
use input_tables::Tables;
use linked_program::code::{Expression, RowCells};
use meaning::tree::Operator;
use number_operators::{apply, held, one_if};

/// The value of an expression, or its fault; what it reads is noted. Where memory is refused the notes are as they were.
#[inline(always)]
pub fn value(
    expression: &Expression,
    slots: &[Slot],
    tables: &Tables,
    notes: &mut Notes,
) -> Result<i64, Stop>
    ensures ends { Ends (λ v. v) (value_at tables.now.tables slots.now (plain expression.now))
        notes.old notes.new result }
{
    match without_reading(expression, slots) {
        Some(value) => Ok(value),
        None => noted_value(expression, slots, tables, notes),
    }
}

// The value of an expression that may read something, or its fault.
#[inline(always)]
fn noted_value(
    expression: &Expression,
    slots: &[Slot],
    tables: &Tables,
    notes: &mut Notes,
) -> Result<i64, Stop>
    ensures ends { Ends (λ v. v) (value_at tables.now.tables slots.now (plain expression.now)) notes.old notes.new result }
{
    let before = notes.len();
    match read_value(expression, slots, tables, notes) {
        Ok(value) => Ok(value),
        Err(Stop::Fault(kind)) => Err(Stop::Fault(kind)),
        Err(Stop::NoMemory) => {
            notes.truncate(before);
            Err(Stop::NoMemory)
        }
    }
}

// The same, that of an operator on two cells of one row without a call; where memory is refused, the notes so far stay.
#[inline(always)]
fn read_value(
    expression: &Expression,
    slots: &[Slot],
    tables: &Tables,
    notes: &mut Notes,
) -> Result<i64, Stop>
    ensures stops { Stops (λ v. v) (value_at tables.now.tables slots.now (plain expression.now)) notes.old notes.new result }
{
    match expression {
        Expression::OnRow(operator, cells) => row_value(*operator, cells, slots, tables, notes),
        _ => evaluate(expression, slots, tables, notes),
    }
}

/// The values of expressions, from left to right, in place of what `numbers` held, or the first fault; what they read is
/// noted. Where memory is refused the notes are as they were.
pub fn values(
    expressions: &[Expression],
    slots: &[Slot],
    tables: &Tables,
    numbers: &mut Vec<i64>,
    notes: &mut Notes,
) -> Result<(), Stop>
    ensures ends { Ends (λ u. numbers.new.items)
        (values_at tables.now.tables slots.now (map plain expressions.now)) notes.old
        notes.new result }
{
    let before = notes.len();
    numbers.clear();
    match evaluate_all(expressions, slots, tables, numbers, notes) {
        Ok(()) => Ok(()),
        Err(Stop::Fault(kind)) => Err(Stop::Fault(kind)),
        Err(Stop::NoMemory) => {
            notes.truncate(before);
            Err(Stop::NoMemory)
        }
    }
}

/// The values of two expressions, from left to right, or the first fault; what they read is noted. Where memory is refused the
/// notes are as they were.
#[inline(always)]
pub fn two_values(
    first: &Expression,
    second: &Expression,
    slots: &[Slot],
    tables: &Tables,
    notes: &mut Notes,
) -> Result<(i64, i64), Stop>
    ensures ends { Ends (λ p. p.0 ∷ p.1 ∷ [])
        (values_at tables.now.tables slots.now (plain first.now ∷ plain second.now ∷ []))
        notes.old notes.new result }
{
    let before = notes.len();
    match both(first, second, slots, tables, notes) {
        Ok(pair) => Ok(pair),
        Err(Stop::Fault(kind)) => Err(Stop::Fault(kind)),
        Err(Stop::NoMemory) => {
            notes.truncate(before);
            Err(Stop::NoMemory)
        }
    }
}

// The values of two expressions; where memory is refused, the notes so far stay.
#[inline(always)]
fn both(
    first: &Expression,
    second: &Expression,
    slots: &[Slot],
    tables: &Tables,
    notes: &mut Notes,
) -> Result<(i64, i64), Stop>
    ensures stops { Stops (λ p. p.0 ∷ p.1 ∷ []) (values_at tables.now.tables slots.now (plain first.now ∷ plain second.now ∷ [])) notes.old notes.new result }
{
    match evaluated(first, slots, tables, notes) {
        Ok(left) => match evaluated(second, slots, tables, notes) {
            Ok(right) => Ok((left, right)),
            Err(stop) => Err(stop),
        },
        Err(stop) => Err(stop),
    }
}

// The values of expressions; where memory is refused, the notes so far stay.
fn evaluate_all(
    expressions: &[Expression],
    slots: &[Slot],
    tables: &Tables,
    numbers: &mut Vec<i64>,
    notes: &mut Notes,
) -> Result<(), Stop>
    requires { numbers.old.items ≡ [] }
    ensures stops { Stops (λ u. numbers.new.items) (values_at tables.now.tables slots.now (map plain expressions.now)) notes.old notes.new result }
{
    for expression in expressions {
        match evaluated(expression, slots, tables, notes) {
            Ok(value) => {
                if numbers.push(value).is_err() {
                    return Err(Stop::NoMemory);
                }
            }
            Err(stop) => return Err(stop),
        }
    }
    Ok(())
}

/// The value of an expression, or why there is none; where memory is refused, the notes so far stay.
#[cycle(evaluate)]
pub(crate) fn evaluate(
    expression: &Expression,
    slots: &[Slot],
    tables: &Tables,
    notes: &mut Notes,
) -> Result<i64, Stop>
    ensures stops { Stops (λ v. v) (value_at tables.now.tables slots.now (plain expression.now)) notes.old notes.new result }
{
    match expression {
        Expression::Number(number) => Ok(*number),
        Expression::Slot(number) => Ok(number_in(slots, *number)),
        Expression::Cell(table, row, column) => match evaluate(row, slots, tables, notes) {
            Ok(row) => cell(tables, *table, row, *column, notes),
            Err(stop) => Err(stop),
        },
        Expression::Has(table, row) => match evaluate(row, slots, tables, notes) {
            Ok(row) => has(tables, *table, row, notes),
            Err(stop) => Err(stop),
        },
        Expression::Limit(table) => limit(tables, *table, notes),
        Expression::Sum(table, column) => sum(tables, *table, *column, notes),
        Expression::Negate(inner) => match evaluate(inner, slots, tables, notes) {
            Ok(number) => Ok(number.wrapping_neg()),
            Err(stop) => Err(stop),
        },
        Expression::Binary(operator, left, right) => {
            match operand(left, slots, tables, notes) {
                Ok(left) => match operand(right, slots, tables, notes) {
                    Ok(right) => applied(*operator, left, right),
                    Err(stop) => Err(stop),
                },
                Err(stop) => Err(stop),
            }
        }
        Expression::SlotCell(table, slot, column) => {
            cell(tables, *table, number_in(slots, *slot), *column, notes)
        }
        Expression::Slots(operator, left, right) => {
            applied(*operator, number_in(slots, *left), number_in(slots, *right))
        }
        Expression::SlotAndNumber(operator, left, right) => {
            applied(*operator, number_in(slots, *left), *right)
        }
        Expression::NumberAndSlot(operator, left, right) => {
            applied(*operator, *left, number_in(slots, *right))
        }
        Expression::OnRow(operator, cells) => two_cells(*operator, cells, slots, tables, notes),
    }
}

/// The value of an operand, or its fault; that of a number, of a slot, and of a cell whose row is a slot's, without a call of
/// `evaluate`.
#[inline(always)]
#[cycle(evaluate)]
fn operand(
    expression: &Expression,
    slots: &[Slot],
    tables: &Tables,
    notes: &mut Notes,
) -> Result<i64, Stop>
    ensures stops { Stops (λ v. v) (value_at tables.now.tables slots.now (plain expression.now)) notes.old notes.new result }
{
    match expression {
        Expression::Number(number) => Ok(*number),
        Expression::Slot(number) => Ok(number_in(slots, *number)),
        Expression::SlotCell(table, slot, column) => {
            cell(tables, *table, number_in(slots, *slot), *column, notes)
        }
        _ => evaluate(expression, slots, tables, notes),
    }
}

/// The value of an expression, or its fault; that of numbers and slots, and of an operator on two of them, without a call.
#[inline(always)]
pub(crate) fn evaluated(
    expression: &Expression,
    slots: &[Slot],
    tables: &Tables,
    notes: &mut Notes,
) -> Result<i64, Stop>
    ensures stops { Stops (λ v. v) (value_at tables.now.tables slots.now (plain expression.now)) notes.old notes.new result }
{
    match without_reading(expression, slots) {
        Some(value) => Ok(value),
        None => evaluate(expression, slots, tables, notes),
    }
}

/// The value of a number, of a slot, or of an operator on two of them, where it has one; none of any other expression.
#[inline(always)]
pub fn without_reading(expression: &Expression, slots: &[Slot]) -> Option<i64>
    ensures value { IfSome result (λ v. (all : TableList) → value_at all slots.now (plain expression.now) ≡ pure v) }
{
    match expression {
        Expression::Number(number) => Some(*number),
        Expression::Slot(number) => Some(number_in(slots, *number)),
        Expression::Slots(operator, left, right) => {
            joined(*operator, number_in(slots, *left), number_in(slots, *right))
        }
        Expression::SlotAndNumber(operator, left, right) => {
            joined(*operator, number_in(slots, *left), *right)
        }
        Expression::NumberAndSlot(operator, left, right) => {
            joined(*operator, *left, number_in(slots, *right))
        }
        _ => None,
    }
}

/// An operator's value, where it has one.
#[inline(always)]
pub fn joined(operator: Operator, left: i64, right: i64) -> Option<i64>
    ensures value { IfSome result (λ v. applied_to operator left right ≡ pure v) }
{
    match apply(operator, left, right) {
        Ok(value) => Some(value),
        Err(_) => None,
    }
}

/// The number in a slot, and 0 where there is none.
pub fn number_in(slots: &[Slot], number: usize) -> i64
    ensures { result ≡ number_of (slice_get slots.now number) }
{
    match slots.get(number) {
        None => 0,
        Some(slot) => match slot {
            Slot::Has(value) => *value,
            Slot::Unset => 0,
            Slot::Waits(_) => 0,
        },
    }
}

// The value of an operator on two cells of one row, or its fault. It is kept out of `evaluate`.
#[inline(never)]
fn two_cells(
    operator: Operator,
    cells: &RowCells,
    slots: &[Slot],
    tables: &Tables,
    notes: &mut Notes,
) -> Result<i64, Stop>
    ensures stops { Stops (λ v. v) (value_at tables.now.tables slots.now (on_row operator cells.now)) notes.old notes.new result }
{
    row_value(operator, cells, slots, tables, notes)
}

// The value of an operator on two cells of one row, or its fault. Most rows are found at once.
#[inline(always)]
#[tactic(auto, using(crate::proofs::Rows::noted_end))]
fn row_value(
    operator: Operator,
    cells: &RowCells,
    slots: &[Slot],
    tables: &Tables,
    notes: &mut Notes,
) -> Result<i64, Stop>
    ensures stops { Stops (λ v. v) (value_at tables.now.tables slots.now (on_row operator cells.now)) notes.old notes.new result }
{
    match both_at_once(cells, slots, tables, notes) {
        Some((left, right)) => applied(operator, left, right),
        None => cells_in_turn(operator, cells, slots, tables, notes),
    }
}

// Two cells of one row, which are noted, where the row is found at once and memory for the notes isn't refused.
#[inline(always)]
fn both_at_once(
    cells: &RowCells,
    slots: &[Slot],
    tables: &Tables,
    notes: &mut Notes,
) -> Option<(i64, i64)>
    ensures found { IfSome result (λ p. AreNoted tables.now.tables slots.now cells.now p.0 p.1 notes.old notes.new) }
    ensures same { IsNone result → notes.new ≡ notes.old }
{
    let row = number_in(slots, cells.slot);
    let values = tables.row_at_once(cells.table, row)?;
    let left = *values.get(cells.first)?;
    let right = *values.get(cells.second)?;
    let first = Note::Cell {
        table: cells.table,
        row,
        column: cells.first,
        value: left,
    };
    let second = Note::Cell {
        table: cells.table,
        row,
        column: cells.second,
        value: right,
    };
    if !notes.add_both(&first, &second) {
        return None;
    }
    Some((left, right))
}

// The value of an operator on two cells of one row, one cell after the other.
#[inline(never)]
fn cells_in_turn(
    operator: Operator,
    cells: &RowCells,
    slots: &[Slot],
    tables: &Tables,
    notes: &mut Notes,
) -> Result<i64, Stop>
    ensures stops { Stops (λ v. v) (value_at tables.now.tables slots.now (on_row operator cells.now)) notes.old notes.new result }
{
    let row = number_in(slots, cells.slot);
    match cell(tables, cells.table, row, cells.first, notes) {
        Ok(left) => match cell(tables, cells.table, row, cells.second, notes) {
            Ok(right) => applied(operator, left, right),
            Err(stop) => Err(stop),
        },
        Err(stop) => Err(stop),
    }
}

// The value of a cell.
#[inline(always)]
fn cell(
    tables: &Tables,
    table: usize,
    row: i64,
    column: usize,
    notes: &mut Notes,
) -> Result<i64, Stop>
    ensures { Ends (λ v. v) (looked table row column (read.cell_at tables.now.tables table row column)) notes.old notes.new result }
{
    match held(tables.cell(table, row, column)) {
        Err(kind) => Err(Stop::Fault(kind)),
        Ok(value) => {
            let note = Note::Cell {
                table,
                row,
                column,
                value,
            };
            match notes.add(&note) {
                Ok(()) => Ok(value),
                Err(_) => Err(Stop::NoMemory),
            }
        }
    }
}

// 1 where there is such a row, or 0.
fn has(tables: &Tables, table: usize, row: i64, notes: &mut Notes) -> Result<i64, Stop>
    ensures { Ends (λ v. v) (reading (Note.Has table row (read.has_at tables.now.tables table row))
        (one_for (read.has_at tables.now.tables table row))) notes.old notes.new result }
{
    let found = tables.has(table, row);
    match notes.add(&Note::Has { table, row, found }) {
        Ok(()) => Ok(one_if(found)),
        Err(_) => Err(Stop::NoMemory),
    }
}

// One more than the greatest number of a row.
fn limit(tables: &Tables, table: usize, notes: &mut Notes) -> Result<i64, Stop>
    ensures { Ends (λ v. v) (reading (Note.Limit table (read.limit_at tables.now.tables table)) (read.limit_at tables.now.tables table))
        notes.old notes.new result }
{
    let value = tables.limit(table);
    match notes.add(&Note::Limit { table, value }) {
        Ok(()) => Ok(value),
        Err(_) => Err(Stop::NoMemory),
    }
}

// The sum of a column over all rows.
fn sum(tables: &Tables, table: usize, column: usize, notes: &mut Notes) -> Result<i64, Stop>
    ensures { Ends (λ v. v) (reading (Note.Sum table column (read.sum_at tables.now.tables table column))
        (read.sum_at tables.now.tables table column)) notes.old notes.new result }
{
    let value = tables.sum(table, column);
    match notes.add(&Note::Sum {
        table,
        column,
        value,
    }) {
        Ok(()) => Ok(value),
        Err(_) => Err(Stop::NoMemory),
    }
}

// The value of an operator on two numbers, or its fault.
fn applied(operator: Operator, left: i64, right: i64) -> Result<i64, Stop>
    ensures { Ends (λ v. v) (applied_to operator left right) [] [] result }
{
    match apply(operator, left, right) {
        Ok(value) => Ok(value),
        Err(kind) => Err(Stop::Fault(kind)),
    }
}
