// The cells of an expression that aren't there.

ghost use Rattle.std.specs.Prelude.{◌≡◌, ℤ, IfErr, OnOk, IsOk};
ghost use Rattle.linked_program.specs.CodeView.{expression as plain};
ghost use Rattle.linked_program.specs.Linked.{cell_at};
ghost use Rattle.evaluation.specs.Values.{value_at, looked};
ghost use Rattle.input_tables.specs.Edited as read;
ghost use Rattle.program_reasons.specs.declared.missing_cells.Halt.TheVariants.{Unknown};
ghost use Rattle.program_reasons.specs.Absent.{EndsAbsent, EndsMissing, with_right};

use evaluation::notes::Notes;
use evaluation::slot::Slot;
use evaluation::values::{number_in, value};
use input_tables::Tables;
use linked_program::code::Expression;
use meaning::tree::Operator;

/// A row that isn't there: the number of its table, and its own.
#[derive(Clone, Copy, PartialEq, Eq)]
pub struct Missed {
    pub table: usize,
    pub row: i64,
}

/// Why a walk over a program ends before the program does.
#[derive(Clone, Copy)]
pub enum Halt {
    /// A row isn't there.
    Missed(Missed),
    /// What follows isn't looked at: memory is refused, it takes too long, a reducer is read, or there is another fault.
    Unknown,
}

/// Where the expression's first fault is a row that isn't there, that row; `Unknown` where it is another. In an expression that has a
/// value nothing is found.
pub(crate) fn searched(
    tables: &Tables,
    slots: &[Slot],
    expression: &Expression,
    notes: &mut Notes,
) -> Result<(), Halt>
    ensures value { OnOk result (IsOk (value_at tables.now.tables slots.now
        (plain expression.now)).answer) }
    ensures missing { IfErr result (EndsMissing (value_at tables.now.tables slots.now
        (plain expression.now)).answer) }
    ensures absent { IfErr result (EndsAbsent tables.now.tables) }
{
    match expression {
        Expression::Number(_)
        | Expression::Slot(_)
        | Expression::Limit(_)
        | Expression::Sum(_, _) => Ok(()),
        Expression::Cell(table, row, column) => {
            searched(tables, slots, row, notes)?;
            searched_cell(tables, slots, *table, row, *column, notes)
        }
        Expression::Has(_, row) => searched(tables, slots, row, notes),
        Expression::Negate(inner) => searched(tables, slots, inner, notes),
        Expression::Binary(operator, left, right) => {
            searched(tables, slots, left, notes)?;
            searched(tables, slots, right, notes)?;
            searched_division(tables, slots, *operator, right, notes)
        }
        Expression::SlotCell(table, slot, column) => {
            searched_row(tables, *table, number_in(slots, *slot), *column)
        }
        Expression::Slots(_, _, _)
        | Expression::SlotAndNumber(_, _, _)
        | Expression::NumberAndSlot(_, _, _) => searched_value(tables, slots, expression, notes),
        Expression::OnRow(_, cells) => {
            let row = number_in(slots, cells.slot);
            searched_row(tables, cells.table, row, cells.first)?;
            searched_row(tables, cells.table, row, cells.second)?;
            searched_value(tables, slots, expression, notes)
        }
    }
}

// Whether an expression has a value, whatever fault it has if not.
fn searched_value(
    tables: &Tables,
    slots: &[Slot],
    expression: &Expression,
    notes: &mut Notes,
) -> Result<(), Halt>
    ensures value { OnOk result (IsOk (value_at tables.now.tables slots.now (plain expression.now)).answer) }
    ensures unknown { IfErr result (λ halt. halt ≡ Unknown) }
{
    match value(expression, slots, tables, notes) {
        Ok(_) => Ok(()),
        Err(_) => Err(Halt::Unknown),
    }
}

// The row of a cell, where it isn't there.
fn searched_cell(
    tables: &Tables,
    slots: &[Slot],
    table: usize,
    row: &Expression,
    column: usize,
    notes: &mut Notes,
) -> Result<(), Halt>
    ensures value { OnOk result (IsOk (value_at tables.now.tables slots.now (cell_at table (plain row.now) column)).answer) }
    ensures missing { IfErr result (EndsMissing (value_at tables.now.tables slots.now (cell_at table (plain row.now) column)).answer) }
    ensures absent { IfErr result (EndsAbsent tables.now.tables) }
{
    let Ok(row) = value(row, slots, tables, notes) else {
        return Err(Halt::Unknown);
    };
    searched_row(tables, table, row, column)
}

// The row of that number, where it isn't there. A cell has no value either where its table hasn't the column: no checked program has
// such a cell, but nothing here says so, and so the row is asked for too.
fn searched_row(tables: &Tables, table: usize, row: i64, column: usize) -> Result<(), Halt>
    ensures value { OnOk result (IsOk (looked table row column (read.cell_at tables.now.tables table row column)).answer) }
    ensures missing { IfErr result (EndsMissing (looked table row column (read.cell_at tables.now.tables table row column)).answer) }
    ensures absent { IfErr result (EndsAbsent tables.now.tables) }
{
    if tables.cell(table, row, column).is_some() {
        return Ok(());
    }
    if tables.has(table, row) {
        Err(Halt::Unknown)
    } else {
        Err(Halt::Missed(Missed { table, row }))
    }
}

// Whether an operator has a value by this operand: a divisor isn't zero.
fn searched_division(
    tables: &Tables,
    slots: &[Slot],
    operator: Operator,
    right: &Expression,
    notes: &mut Notes,
) -> Result<(), Halt>
    ensures value { (x : ℤ) → IsOk (value_at tables.now.tables slots.now (plain right.now)).answer
        → OnOk result (IsOk (with_right operator x (value_at tables.now.tables slots.now (plain right.now))).answer) }
    ensures unknown { IfErr result (λ halt. halt ≡ Unknown) }
{
    if !matches!(operator, Operator::Divide | Operator::Remainder) {
        return Ok(());
    }
    match value(right, slots, tables, notes) {
        Ok(0) | Err(_) => Err(Halt::Unknown),
        Ok(_) => Ok(()),
    }
}
