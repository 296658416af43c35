//! Values of chains of operators that are found at once, without a walk over a tree.
ghost use Rattle.std.specs.Prelude.{◌≡◌, Bool, IfSome, List, Ok, false};
ghost use Rattle.meaning.specs.Tables.{Tables as TableList};
ghost use Rattle.linked_program.specs.CodeView.{beginning, chain as chain_of, chained, linked_by};
ghost use Rattle.linked_program.specs.Linked.{constant, joined as joined_by, slot as slot_of, Linked};
ghost use Rattle.evaluation.specs.declared.slot.Slot.{Slot as AnySlot};
ghost use Rattle.evaluation.specs.Values.{value_at};
ghost use Rattle.own_statements.specs.Fills.{Fills, Reads};

use crate::found::cell_at_once;
use evaluation::slot::Slot;
use evaluation::unnoted::row_at_once;
use evaluation::values::{joined, number_in};
use input_tables::Tables;
use layers::layer::Layer;
use linked_program::code::{Chain, Link, Start};
use meaning::tree::Operator;
use view_pool::View;

/// The value of a chain that begins with a slot, or of any over a layer that keeps no readings, where it is found at once.
#[inline(always)]
#[tactic(auto, using(crate::proofs::AtOnce::reads_fill))]
pub(crate) fn chain_at_once<V: View>(
    layer: &Layer<V>,
    chain: &Chain,
    slots: &[Slot],
    tables: &Tables,
) -> Option<i64>
    ensures value { IfSome result (λ v. Fills (value_at tables.now.tables slots.now (chain_of chain.now)) v layer.now layer.now) }
{
    chain_in(chain, layer.keeps, slots, tables)
}

/// The same, by whether readings are kept.
#[inline(always)]
fn chain_in(chain: &Chain, keeps: bool, slots: &[Slot], tables: &Tables) -> Option<i64>
    ensures value { IfSome result (λ v. Reads keeps (value_at tables.now.tables slots.now (chain_of chain.now)) v) }
{
    match &chain.start {
        Start::Slot(slot) => linked(number_in(slots, *slot), chain.links.as_slice(), slots),
        _ => {
            if keeps {
                return None;
            }
            chain_on_row(chain, slots, tables)
        }
    }
}

/// The value of a chain where no readings are kept. It is compiled by itself, since most chains begin with a slot.
#[inline(never)]
fn chain_on_row(chain: &Chain, slots: &[Slot], tables: &Tables) -> Option<i64>
    ensures value { IfSome result (λ v. Reads false (value_at tables.now.tables slots.now (chain_of chain.now)) v) }
{
    match start_at_once(&chain.start, slots, tables) {
        Some(start) => linked(start, chain.links.as_slice(), slots),
        None => None,
    }
}

/// The value of what a chain begins with, where it is found at once.
#[inline(always)]
fn start_at_once(start: &Start, slots: &[Slot], tables: &Tables) -> Option<i64>
    ensures value { IfSome result (λ v. (value_at tables.now.tables slots.now (beginning start.now)).answer ≡ Ok v) }
{
    match start {
        Start::Slot(slot) => Some(number_in(slots, *slot)),
        Start::Cell(table, slot, column) => cell_at_once(*table, *slot, *column, slots, tables),
        Start::OnRow(operator, cells) => row_at_once(*operator, cells, slots, tables),
    }
}

/// The value that links make of one, where each of their operators has a value. They read slots and numbers alone, so what is read for
/// the first value is all that is read. It is compiled by itself, so that a link takes few steps and an operator's cases stand here once.
#[inline(never)]
fn linked(start: i64, links: &[Link], slots: &[Slot]) -> Option<i64>
    ensures value { IfSome result (λ v. (keeps : Bool) (all : TableList) (e : Linked) → Reads keeps (value_at all slots.now e) start
        → Reads keeps (value_at all slots.now (chained e links.now)) v) }
{
    let mut value = start;
    for link in links {
        match next(value, link, slots) {
            Some(found) => value = found,
            None => return None,
        }
    }
    Some(value)
}

/// The value that a link makes of one, where its operator has a value.
#[inline(always)]
fn next(value: i64, link: &Link, slots: &[Slot]) -> Option<i64>
    ensures value { IfSome result (λ v. (keeps : Bool) (all : TableList) (e : Linked) → Reads keeps (value_at all slots.now e) value
        → Reads keeps (value_at all slots.now (linked_by e link.now)) v) }
{
    match link {
        Link::Plus(number) => number_right(value, Operator::Add, *number),
        Link::Minus(number) => number_right(value, Operator::Subtract, *number),
        Link::Times(number) => number_right(value, Operator::Multiply, *number),
        Link::Over(number) => number_right(value, Operator::Divide, *number),
        Link::Modulo(number) => number_right(value, Operator::Remainder, *number),
        Link::NumberRight(operator, number) => number_right(value, *operator, *number),
        Link::NumberLeft(operator, number) => number_left(value, *operator, *number),
        Link::SlotRight(operator, slot) => slot_right(value, *operator, *slot, slots),
        Link::SlotLeft(operator, slot) => slot_left(value, *operator, *slot, slots),
    }
}

/// The value of an operator on a value and a number.
#[inline(always)]
fn number_right(value: i64, operator: Operator, number: i64) -> Option<i64>
    ensures value { IfSome result (λ v. (keeps : Bool) (all : TableList) (slots : List AnySlot) (e : Linked) → Reads keeps (value_at all slots e) value
        → Reads keeps (value_at all slots (joined_by operator e (constant number))) v) }
{
    joined(operator, value, number)
}

/// The value of an operator on a number and a value.
#[inline(always)]
fn number_left(value: i64, operator: Operator, number: i64) -> Option<i64>
    ensures value { IfSome result (λ v. (keeps : Bool) (all : TableList) (slots : List AnySlot) (e : Linked) → Reads keeps (value_at all slots e) value
        → Reads keeps (value_at all slots (joined_by operator (constant number) e)) v) }
{
    joined(operator, number, value)
}

/// The value of an operator on a value and what a slot holds.
#[inline(always)]
fn slot_right(value: i64, operator: Operator, slot: usize, slots: &[Slot]) -> Option<i64>
    ensures value { IfSome result (λ v. (keeps : Bool) (all : TableList) (e : Linked) → Reads keeps (value_at all slots.now e) value
        → Reads keeps (value_at all slots.now (joined_by operator e (slot_of slot))) v) }
{
    joined(operator, value, number_in(slots, slot))
}

/// The value of an operator on what a slot holds and a value.
#[inline(always)]
fn slot_left(value: i64, operator: Operator, slot: usize, slots: &[Slot]) -> Option<i64>
    ensures value { IfSome result (λ v. (keeps : Bool) (all : TableList) (e : Linked) → Reads keeps (value_at all slots.now e) value
        → Reads keeps (value_at all slots.now (joined_by operator (slot_of slot) e)) v) }
{
    joined(operator, number_in(slots, slot), value)
}
