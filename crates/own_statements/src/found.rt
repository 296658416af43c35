//! Values of expressions that are found at once, with nothing to note for them.
ghost use Rattle.std.specs.Prelude.{◌≡◌, Bool, IfSome, List, Ok};
ghost use Rattle.meaning.specs.Tables.{Tables as TableList};
ghost use Rattle.linked_program.specs.CodeView.{expression as plain};
ghost use Rattle.linked_program.specs.Linked.{Linked, cell_at, slot as slot_of};
ghost use Rattle.evaluation.specs.declared.slot.Slot.{Slot as AnySlot};
ghost use Rattle.evaluation.specs.Values.{pure, value_at};
ghost use Rattle.own_statements.specs.Fills.{AreCells, Fills, Reads};
ghost use Rattle.own_statements.specs.Effects.{IsPart};

use crate::short_forms::Value;
use evaluation::slot::Slot;
use evaluation::values::{joined, number_in};
use evaluation::{at_once, unread};
use input_tables::Tables;
use layers::layer::Layer;
use linked_program::code::{Expression, RowCells};
use view_pool::View;

/// What values are found by: slots and tables, and whether readings are kept.
#[derive(Clone, Copy)]
pub struct Around<'a> {
    pub slots: &'a [Slot],
    pub tables: &'a Tables,
    pub keeps: bool,
}

/// The value of an expression where it is found at once; that of a number, or of a slot, without a call.
#[inline(always)]
#[tactic(auto, using(crate::proofs::AtOnce::pure_fills))]
pub(crate) fn given_at_once<V: View>(
    layer: &Layer<V>,
    expression: &Expression,
    slots: &[Slot],
    tables: &Tables,
) -> Option<i64>
    ensures value { IfSome result (λ v. Fills (value_at tables.now.tables slots.now (plain expression.now)) v layer.now layer.now) }
{
    match number_at_once(expression, slots) {
        Some(value) => Some(value),
        None => value_at_once(layer, expression, slots, tables),
    }
}

/// The value of a number, or of a slot, which reads nothing; none of any other expression.
#[inline(always)]
fn number_at_once(expression: &Expression, slots: &[Slot]) -> Option<i64>
    ensures value { IfSome result (λ v. (all : TableList) → value_at all slots.now (plain expression.now) ≡ pure v) }
{
    match expression {
        Expression::Number(number) => Some(*number),
        Expression::Slot(place) => Some(number_in(slots, *place)),
        _ => None,
    }
}

/// The value of an expression that reads nothing, or of any over a layer that keeps no readings; none where it isn't found so.
#[inline(always)]
#[tactic(auto, using(crate::proofs::AtOnce::reads_fill))]
fn value_at_once<V: View>(
    layer: &Layer<V>,
    expression: &Expression,
    slots: &[Slot],
    tables: &Tables,
) -> Option<i64>
    ensures value { IfSome result (λ v. Fills (value_at tables.now.tables slots.now (plain expression.now)) v layer.now layer.now) }
{
    let around = Around {
        slots,
        tables,
        keeps: layer.keeps,
    };
    value_in(expression, &around)
}

/// The same. It is compiled by itself, since it comes back to itself: operators that stand within one another are most of what it sees,
/// so it holds little and has an operator's cases once.
#[inline(never)]
#[cycle(value)]
fn value_in(expression: &Expression, around: &Around<'_>) -> Option<i64>
    ensures value { IfSome result (λ v. Reads around.now.keeps (value_at around.now.tables.now.tables around.now.slots.now (plain expression.now)) v) }
{
    match part_of(expression, around) {
        Value::Joined(left, right, operator) => joined(operator, left, right),
        Value::Found(value) => Some(value),
        _ => None,
    }
}

/// What an expression's value is made of.
#[inline(always)]
#[cycle(value)]
fn part_of<'a>(expression: &Expression, around: &Around<'_>) -> Value<'a>
    ensures part { IsPart around.now.keeps around.now.tables.now.tables around.now.slots.now result (plain expression.now) }
{
    match expression {
        Expression::Binary(operator, left, right) => match value_in(left, around) {
            Some(left) => match operand(right, around) {
                Some(right) => Value::Joined(left, right, *operator),
                None => Value::Later,
            },
            None => Value::Later,
        },
        Expression::SlotAndNumber(operator, left, right) => {
            Value::Joined(number_in(around.slots, *left), *right, *operator)
        }
        Expression::Slots(operator, left, right) => {
            Value::Joined(
                number_in(around.slots, *left),
                number_in(around.slots, *right),
                *operator,
            )
        }
        Expression::NumberAndSlot(operator, left, right) => {
            Value::Joined(*left, number_in(around.slots, *right), *operator)
        }
        Expression::SlotCell(table, slot, column) => {
            found(cell_around(expression, around, *table, *slot, *column))
        }
        _ => found(other(expression, around)),
    }
}

/// The value of an operand; that of a number, or of a slot, without a call.
#[inline(always)]
#[cycle(value)]
fn operand(expression: &Expression, around: &Around<'_>) -> Option<i64>
    ensures value { IfSome result (λ v. Reads around.now.keeps (value_at around.now.tables.now.tables around.now.slots.now (plain expression.now)) v) }
{
    match number_at_once(expression, around.slots) {
        Some(value) => Some(value),
        None => value_in(expression, around),
    }
}

/// A number that was found.
#[inline(always)]
fn found<'a>(number: Option<i64>) -> Value<'a>
    ensures part { (keeps : Bool) (all : TableList) (slots : List AnySlot) (e : Linked) → IfSome number (λ v. Reads keeps (value_at all slots e) v)
        → IsPart keeps all slots result e }
{
    match number {
        Some(number) => Value::Found(number),
        None => Value::Later,
    }
}

/// The value of a cell of a slot's row, where no reading is kept.
#[inline(always)]
fn cell_around(
    expression: &Expression,
    around: &Around<'_>,
    table: usize,
    slot: usize,
    column: usize,
) -> Option<i64>
    requires cell { plain expression.now ≡ cell_at table (slot_of slot) column }
    ensures value { IfSome result (λ v. Reads around.now.keeps (value_at around.now.tables.now.tables around.now.slots.now (plain expression.now)) v) }
{
    if around.keeps {
        return None;
    }
    match cell_at_once(table, slot, column, around.slots, around.tables) {
        Some(value) => Some(value),
        None => other(expression, around),
    }
}

/// The value of any expression, in the ways that others have; where readings are kept, that of one that reads nothing.
#[inline(never)]
fn other(expression: &Expression, around: &Around<'_>) -> Option<i64>
    ensures value { IfSome result (λ v. Reads around.now.keeps (value_at around.now.tables.now.tables around.now.slots.now (plain expression.now)) v) }
{
    if around.keeps {
        return unread::value(expression, around.slots);
    }
    at_once::value(expression, around.slots, around.tables)
}

/// The value of a cell of a slot's row, where the row is found at once.
#[inline(always)]
pub(crate) fn cell_at_once(
    table: usize,
    slot: usize,
    column: usize,
    slots: &[Slot],
    tables: &Tables,
) -> Option<i64>
    ensures value { IfSome result (λ v. (value_at tables.now.tables slots.now (cell_at table (slot_of slot) column)).answer ≡ Ok v) }
{
    let values = tables.row_at_once(table, number_in(slots, slot))?;
    let value = values.get(column)?;
    Some(*value)
}

/// Two cells of one row, where the row is found at once.
#[inline(always)]
pub(crate) fn two_at_once(cells: &RowCells, slots: &[Slot], tables: &Tables) -> Option<(i64, i64)>
    ensures cells { IfSome result (λ found. AreCells tables.now.tables slots.now cells.now found.0 found.1) }
{
    let values = tables.row_at_once(cells.table, number_in(slots, cells.slot))?;
    let left = values.get(cells.first)?;
    let right = values.get(cells.second)?;
    Some((*left, *right))
}
