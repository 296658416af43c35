//! What statements come to, by their short forms or by what they do.
ghost use Rattle.std.specs.Prelude.{◌≡◌, ℕ, IfSome, List};
ghost use Rattle.monoid_laws.specs.declared.Kind.{Kind};
ghost use Rattle.meaning.specs.Tables.{Tables as TableList};
ghost use Rattle.linked_program.specs.CodeView.{IsFormOf, act as act_of, on_row as row_of};
ghost use Rattle.linked_program.specs.Linked.{Act, Acts, cell_at, constant, joined as joined_by, slot as slot_of};
ghost use Rattle.evaluation.specs.declared.slot.Slot.{Slot as AnySlot};
ghost use Rattle.positions.specs.Layers.{PlainLayer};
ghost use Rattle.own_statements.specs.Effects.{Finds, HasValue, IsEffect};

use crate::chains::chain_at_once;
use crate::found::{cell_at_once, given_at_once, two_at_once};
use evaluation::slot::Slot;
use evaluation::values::{joined, number_in};
use input_tables::Tables;
use layers::layer::Layer;
use linked_program::code::{
    Chain, Expression, Instruction, Operation, RowCells, ShortForm, Target,
};
use meaning::tree::Operator;
use view_pool::View;

/// A statement's value: it isn't found at once; it is that number; an operator makes it of two; or it is that of a chain, or of an
/// expression. The operator stands last: beside the tag it would be put into one word with that, and each step taken apart again.
#[derive(Clone, Copy)]
pub enum Value<'a> {
    Later,
    Found(i64),
    Joined(i64, i64, Operator),
    Chained(&'a Chain),
    Of(&'a Expression),
}

/// What a statement comes to: it is none that an instance does by itself; it is a sync; it is done with all that it reads; it updates a
/// reducer by one number, or by two; or something is done with a value. An update by a number that is known at once stands by itself, so
/// that LLVM sees how often it is done, and compiles the view's call into the loop over statements.
#[derive(Clone, Copy)]
pub enum Effect<'a> {
    Other,
    Sync,
    Later,
    One(usize, i64),
    Two(usize, i64, i64),
    Value(Value<'a>, Target),
}

/// What a statement comes to over slots. Only a layer that keeps no readings lets tables be read for a short form. LLVM makes one switch of
/// this match and those behind it as long as few forms are left to them, which is why it has most of the forms itself.
#[inline(always)]
pub(crate) fn effect_of<'a, V: View>(
    layer: &Layer<V>,
    instruction: &'a Instruction,
    slots: &[Slot],
    tables: &Tables,
) -> Effect<'a>
    ensures effect { (kinds : List Kind) (inner : ℕ → Acts) → IsFormOf kinds inner instruction.now.short (act_of inner instruction.now.operation)
        → IsEffect kinds inner tables.now.tables slots.now layer.now (act_of inner instruction.now.operation) result }
{
    match &instruction.short {
        ShortForm::Other => effect_of_operation(&instruction.operation),
        ShortForm::UpdateSlot(reducer, slot) => Effect::One(*reducer, number_in(slots, *slot)),
        ShortForm::UpdateNumber(reducer, number) => Effect::One(*reducer, *number),
        ShortForm::UpdateSlots(reducer, first, second) => {
            let second = number_in(slots, *second);
            Effect::Two(*reducer, number_in(slots, *first), second)
        }
        ShortForm::UpdateSlotAndNumber(reducer, slot, number) => {
            Effect::Two(*reducer, number_in(slots, *slot), *number)
        }
        ShortForm::ReturnSlot(slot) => Effect::Value(of_slot(*slot, slots), Target::Back),
        ShortForm::ReturnNumber(number) => Effect::Value(Value::Found(*number), Target::Back),
        ShortForm::Slots(target, operator, left, right) => {
            Effect::Value(on_slots(*operator, *left, *right, slots), *target)
        }
        ShortForm::SlotAndNumber(target, operator, left, right) => {
            Effect::Value(on_left(*operator, *left, *right, slots), *target)
        }
        ShortForm::NumberAndSlot(target, operator, left, right) => {
            Effect::Value(on_right(*operator, *left, *right, slots), *target)
        }
        ShortForm::Chain(target, chain) => Effect::Value(Value::Chained(chain), *target),
        _ => effect_on_row(layer, &instruction.short, slots, tables),
    }
}

/// What a statement comes to that has no short form.
#[inline(always)]
fn effect_of_operation<'a>(operation: &'a Operation) -> Effect<'a>
    ensures effect { (kinds : List Kind) (inner : ℕ → Acts) (all : TableList) (slots : List AnySlot) (l : PlainLayer)
        → IsEffect kinds inner all slots l (act_of inner operation.now) result }
{
    match operation {
        Operation::Bind(name, value) => Effect::Value(Value::Of(value), Target::Slot(*name)),
        Operation::Update(_, _) => Effect::Later,
        Operation::If(condition, first, second) => {
            Effect::Value(Value::Of(condition), Target::Blocks(*first, *second))
        }
        Operation::Return(value) => Effect::Value(Value::Of(value), Target::Back),
        Operation::Sync => Effect::Sync,
        _ => Effect::Other,
    }
}

/// What one comes to whose short form has a value on a slot's row.
#[inline(always)]
fn effect_on_row<'a, V: View>(
    layer: &Layer<V>,
    short: &'a ShortForm,
    slots: &[Slot],
    tables: &Tables,
) -> Effect<'a>
    ensures effect { (kinds : List Kind) (inner : ℕ → Acts) (act : Act) → IsFormOf kinds inner short.now act
        → IsEffect kinds inner tables.now.tables slots.now layer.now act result }
{
    match short {
        ShortForm::OnRow(target, operator, cells) => {
            Effect::Value(on_row(layer, *operator, cells, slots, tables), *target)
        }
        ShortForm::Cell(target, table, slot, column) => {
            let value = of_cell(layer, *table, *slot, *column, slots, tables);
            Effect::Value(value, *target)
        }
        _ => Effect::Other,
    }
}

/// What a slot holds.
#[inline(always)]
fn of_slot<'a>(slot: usize, slots: &[Slot]) -> Value<'a>
    ensures value { (all : TableList) (l : PlainLayer) → Finds all slots.now l result (slot_of slot) }
{
    Value::Found(number_in(slots, slot))
}

/// The value of an operator on what two slots hold.
#[inline(always)]
fn on_slots<'a>(operator: Operator, left: usize, right: usize, slots: &[Slot]) -> Value<'a>
    ensures value { (all : TableList) (l : PlainLayer) → Finds all slots.now l result (joined_by operator (slot_of left) (slot_of right)) }
{
    Value::Joined(number_in(slots, left), number_in(slots, right), operator)
}

/// The value of an operator on what a slot holds and a number.
#[inline(always)]
fn on_left<'a>(operator: Operator, left: usize, right: i64, slots: &[Slot]) -> Value<'a>
    ensures value { (all : TableList) (l : PlainLayer) → Finds all slots.now l result (joined_by operator (slot_of left) (constant right)) }
{
    Value::Joined(number_in(slots, left), right, operator)
}

/// The value of an operator on a number and what a slot holds.
#[inline(always)]
fn on_right<'a>(operator: Operator, left: i64, right: usize, slots: &[Slot]) -> Value<'a>
    ensures value { (all : TableList) (l : PlainLayer) → Finds all slots.now l result (joined_by operator (constant left) (slot_of right)) }
{
    Value::Joined(left, number_in(slots, right), operator)
}

/// The value of an operator on two cells of one row, where that is found at once and no reading is kept.
#[inline(always)]
fn on_row<'a, V: View>(
    layer: &Layer<V>,
    operator: Operator,
    cells: &RowCells,
    slots: &[Slot],
    tables: &Tables,
) -> Value<'a>
    ensures value { Finds tables.now.tables slots.now layer.now result (row_of operator cells.now) }
{
    if layer.keeps {
        return Value::Later;
    }
    match two_at_once(cells, slots, tables) {
        Some((left, right)) => Value::Joined(left, right, operator),
        None => Value::Later,
    }
}

/// The value of a cell of a slot's row, where that is found at once and no reading is kept.
#[inline(always)]
fn of_cell<'a, V: View>(
    layer: &Layer<V>,
    table: usize,
    slot: usize,
    column: usize,
    slots: &[Slot],
    tables: &Tables,
) -> Value<'a>
    ensures value { Finds tables.now.tables slots.now layer.now result (cell_at table (slot_of slot) column) }
{
    if layer.keeps {
        return Value::Later;
    }
    match cell_at_once(table, slot, column, slots, tables) {
        Some(value) => Value::Found(value),
        None => Value::Later,
    }
}

/// A statement's value, where it is found at once. An operator's cases stand here alone, for whatever form has one and whatever is done
/// with the value, so that the loop over statements stays small enough to be compiled into those that call it.
#[inline(always)]
pub(crate) fn value_of<V: View>(
    layer: &Layer<V>,
    value: Value<'_>,
    slots: &[Slot],
    tables: &Tables,
) -> Option<i64>
    ensures value { IfSome result (λ v. HasValue tables.now.tables slots.now layer.now value.entry v) }
{
    match value {
        Value::Later => None,
        Value::Found(number) => Some(number),
        Value::Joined(left, right, operator) => joined(operator, left, right),
        Value::Chained(chain) => chain_at_once(layer, chain, slots, tables),
        Value::Of(expression) => given_at_once(layer, expression, slots, tables),
    }
}
