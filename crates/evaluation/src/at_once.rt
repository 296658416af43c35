//! The values of expressions where nobody asks what they read, nor why there is none.
ghost use Rattle.std.specs.Prelude.{◌≡◌, IfSome, Ok};
ghost use Rattle.linked_program.specs.CodeView.{expression as plain, on_row};
ghost use Rattle.input_tables.specs.Edited as read;
ghost use Rattle.evaluation.specs.Values.{value_at, looked};

use crate::slot::Slot;
use crate::unnoted::cells_at_once;
use crate::values::{joined, number_in, without_reading};
use input_tables::Tables;
use linked_program::code::{Expression, RowCells};
use meaning::tree::Operator;
use number_operators::one_if;

/// The value of an expression, where it has one.
#[cycle(value)]
pub fn value(expression: &Expression, slots: &[Slot], tables: &Tables) -> Option<i64>
    ensures answer { IfSome result (λ v. (value_at tables.now.tables slots.now (plain expression.now)).answer ≡ Ok v) }
{
    match expression {
        Expression::Cell(table, row, column) => match operand(row, slots, tables) {
            Some(row) => cell(tables, *table, row, *column),
            None => None,
        },
        Expression::Has(table, row) => match operand(row, slots, tables) {
            Some(row) => Some(one_if(tables.has(*table, row))),
            None => None,
        },
        Expression::Limit(table) => Some(tables.limit(*table)),
        Expression::Sum(table, column) => Some(tables.sum(*table, *column)),
        Expression::Negate(inner) => match operand(inner, slots, tables) {
            Some(number) => Some(number.wrapping_neg()),
            None => None,
        },
        Expression::Binary(operator, left, right) => match operand(left, slots, tables) {
            Some(left) => match operand(right, slots, tables) {
                Some(right) => joined(*operator, left, right),
                None => None,
            },
            None => None,
        },
        Expression::OnRow(operator, cells) => two_cells(*operator, cells, slots, tables),
        _ => simple(expression, slots, tables),
    }
}

/// The value of an operand, where it has one; that of numbers and slots, of an operator on two of them, and of a cell whose row is a
/// slot's, without a call of `value`.
#[inline(always)]
#[cycle(value)]
pub(crate) fn operand(expression: &Expression, slots: &[Slot], tables: &Tables) -> Option<i64>
    ensures answer { IfSome result (λ v. (value_at tables.now.tables slots.now (plain expression.now)).answer ≡ Ok v) }
{
    match simple(expression, slots, tables) {
        Some(value) => Some(value),
        None => value(expression, slots, tables),
    }
}

// The value of a number, of a slot, of an operator on two of them, and of a cell whose row is a slot's; none of any other expression.
#[inline(always)]
fn simple(expression: &Expression, slots: &[Slot], tables: &Tables) -> Option<i64>
    ensures answer { IfSome result (λ v. (value_at tables.now.tables slots.now (plain expression.now)).answer ≡ Ok v) }
{
    match expression {
        Expression::SlotCell(table, slot, column) => {
            cell(tables, *table, number_in(slots, *slot), *column)
        }
        _ => without_reading(expression, slots),
    }
}

// The value of an operator on two cells of one row, where it has one. Most rows are found at once.
#[inline(always)]
fn two_cells(operator: Operator, cells: &RowCells, slots: &[Slot], tables: &Tables) -> Option<i64>
    ensures answer { IfSome result (λ v. (value_at tables.now.tables slots.now (on_row operator cells.now)).answer ≡ Ok v) }
{
    match cells_at_once(operator, cells, slots, tables) {
        Some(value) => Some(value),
        None => cells_in_turn(operator, cells, slots, tables),
    }
}

// The value of an operator on two cells of one row, one cell after the other.
#[inline(never)]
fn cells_in_turn(
    operator: Operator,
    cells: &RowCells,
    slots: &[Slot],
    tables: &Tables,
) -> Option<i64>
    ensures answer { IfSome result (λ v. (value_at tables.now.tables slots.now (on_row operator cells.now)).answer ≡ Ok v) }
{
    let row = number_in(slots, cells.slot);
    match cell(tables, cells.table, row, cells.first) {
        Some(left) => match cell(tables, cells.table, row, cells.second) {
            Some(right) => joined(operator, left, right),
            None => None,
        },
        None => None,
    }
}

// The value of a cell, where there is such a row.
#[inline(always)]
fn cell(tables: &Tables, table: usize, row: i64, column: usize) -> Option<i64>
    ensures answer { IfSome result (λ v. (looked table row column (read.cell_at tables.now.tables table row column)).answer ≡ Ok v) }
{
    match tables.cell(table, row, column) {
        Some(value) => Some(value),
        None => None,
    }
}
