//! Short forms of statements that are done often.
ghost use Rattle.std.specs.Prelude.{◌≡◌, ℕ, [], ◌∷◌, List, true, false, map, slice_get, IfOk, IfSome};
ghost use Rattle.monoid_laws.specs.declared.Kind.{Kind as AnyKind};
ghost use Rattle.monoid_laws.specs.Kinds.{arity as arity_of};
ghost use Rattle.linked_program.specs.Linked.{constant, gives, joined as joined_by, slot as slot_of, Acts, Linked, updates};
ghost use Rattle.linked_program.specs.CodeView.{expression as plain, act, act_for, beginning, chain as chain_of, linked_by, HasArity, IsFormOf, TakesOne};

use crate::code::{Chain, Expression, Link, Operation, ShortForm, Start, Target};
use meaning::tree::Operator;
use monoid_laws::Kind;
use std::alloc::{AllocError, Global};

/// The short form of what a statement does, where it has one. Want of memory is the only error.
pub(crate) fn short_form(
    alloc: Global,
    kinds: &[Kind],
    operation: &Operation,
) -> Result<ShortForm, AllocError>
    ensures form { IfOk result (λ made. (inner : ℕ → Acts) → IsFormOf kinds.now inner made (act inner operation.now)) }
{
    match operation {
        Operation::Bind(name, value) => value_form(alloc, value, Target::Slot(*name)),
        Operation::Update(reducer, values) => {
            update_form(alloc, kinds, *reducer, values.as_slice())
        }
        Operation::If(condition, first, second) => {
            value_form(alloc, condition, Target::Blocks(*first, *second))
        }
        Operation::Return(value) => return_form(alloc, value),
        _ => Ok(ShortForm::Other),
    }
}

// That of a statement that does something with a value.
fn value_form(alloc: Global, value: &Expression, target: Target) -> Result<ShortForm, AllocError>
    ensures form { IfOk result (λ made. (kinds : List AnyKind) (inner : ℕ → Acts) → TakesOne kinds target
        → IsFormOf kinds inner made (act_for inner (plain value.now) target)) }
{
    match value {
        Expression::Slots(operator, left, right) => {
            Ok(ShortForm::Slots(target, *operator, *left, *right))
        }
        Expression::SlotAndNumber(operator, left, right) => {
            Ok(ShortForm::SlotAndNumber(target, *operator, *left, *right))
        }
        Expression::NumberAndSlot(operator, left, right) => {
            Ok(ShortForm::NumberAndSlot(target, *operator, *left, *right))
        }
        Expression::OnRow(operator, cells) => Ok(ShortForm::OnRow(target, *operator, *cells)),
        Expression::SlotCell(table, slot, column) => {
            Ok(ShortForm::Cell(target, *table, *slot, *column))
        }
        Expression::Binary(_, _, _) => chain_form(alloc, value, target),
        _ => Ok(ShortForm::Other),
    }
}

// That of a statement that gives a value back.
fn return_form(alloc: Global, value: &Expression) -> Result<ShortForm, AllocError>
    ensures form { IfOk result (λ made. (kinds : List AnyKind) (inner : ℕ → Acts) → IsFormOf kinds inner made (gives (plain value.now))) }
{
    match value {
        Expression::Slot(slot) => Ok(ShortForm::ReturnSlot(*slot)),
        Expression::Number(number) => Ok(ShortForm::ReturnNumber(*number)),
        _ => value_form(alloc, value, Target::Back),
    }
}

// Whether an update of a reducer of that kind takes two numbers; else it takes one.
fn takes_two(kind: &Kind) -> bool
    ensures two { result ≡ true → arity_of kind.now ≡ 2 }
    ensures one { result ≡ false → arity_of kind.now ≡ 1 }
{
    match kind {
        Kind::Argmax | Kind::Affine | Kind::Hist => true,
        _ => false,
    }
}

// That of an update by so many values as the reducer takes.
fn update_form(
    alloc: Global,
    kinds: &[Kind],
    reducer: usize,
    values: &[Expression],
) -> Result<ShortForm, AllocError>
    ensures form { IfOk result (λ made. (inner : ℕ → Acts) → IsFormOf kinds.now inner made (updates reducer (map plain values.now))) }
{
    match kinds.get(reducer) {
        None => Ok(ShortForm::Other),
        Some(kind) => {
            let two = takes_two(kind);
            if values.len() == 1 && !two {
                return one_form(alloc, reducer, &values[0]);
            }
            if values.len() == 2 && two {
                return Ok(two_form(reducer, &values[0], &values[1]));
            }
            Ok(ShortForm::Other)
        }
    }
}

// That of an update by one value.
fn one_form(alloc: Global, reducer: usize, value: &Expression) -> Result<ShortForm, AllocError>
    ensures form { IfOk result (λ made. (kinds : List AnyKind) (inner : ℕ → Acts) → HasArity 1 (slice_get kinds reducer)
        → IsFormOf kinds inner made (updates reducer (plain value.now ∷ []))) }
{
    match value {
        Expression::Slot(slot) => Ok(ShortForm::UpdateSlot(reducer, *slot)),
        Expression::Number(number) => Ok(ShortForm::UpdateNumber(reducer, *number)),
        _ => value_form(alloc, value, Target::Update(reducer)),
    }
}

// That of an update by two values, of which the first stands in a slot.
fn two_form(reducer: usize, first: &Expression, second: &Expression) -> ShortForm
    ensures form { (kinds : List AnyKind) (inner : ℕ → Acts) → HasArity 2 (slice_get kinds reducer)
        → IsFormOf kinds inner result (updates reducer (plain first.now ∷ plain second.now ∷ [])) }
{
    match first {
        Expression::Slot(slot) => beside_slot(reducer, *slot, second),
        _ => ShortForm::Other,
    }
}

// That of an update by what a slot holds and a second value.
fn beside_slot(reducer: usize, slot: usize, second: &Expression) -> ShortForm
    ensures form { (kinds : List AnyKind) (inner : ℕ → Acts) → HasArity 2 (slice_get kinds reducer)
        → IsFormOf kinds inner result (updates reducer (slot_of slot ∷ plain second.now ∷ [])) }
{
    match second {
        Expression::Slot(other) => ShortForm::UpdateSlots(reducer, slot, *other),
        Expression::Number(number) => ShortForm::UpdateSlotAndNumber(reducer, slot, *number),
        _ => ShortForm::Other,
    }
}

// That of a statement that does something with an operator's value, where that is a chain.
fn chain_form(alloc: Global, value: &Expression, target: Target) -> Result<ShortForm, AllocError>
    ensures form { IfOk result (λ made. (kinds : List AnyKind) (inner : ℕ → Acts) → TakesOne kinds target
        → IsFormOf kinds inner made (act_for inner (plain value.now) target)) }
{
    match chain(alloc, value, 0)? {
        Some(chain) => Ok(ShortForm::Chain(target, chain)),
        None => Ok(ShortForm::Other),
    }
}

// An expression as a chain with room for so many links more, where it is one.
#[cycle(chain)]
fn chain(alloc: Global, expression: &Expression, more: usize) -> Result<Option<Chain>, AllocError>
    ensures chain { IfOk result (λ made. IfSome made (λ c. plain expression.now ≡ chain_of c)) }
{
    match expression {
        Expression::Binary(operator, left, right) => match right_link(*operator, right) {
            Some(link) => longer(chain(alloc, left, more.saturating_add(1)), link),
            None => match left_link(*operator, left) {
                Some(link) => longer(chain(alloc, right, more.saturating_add(1)), link),
                None => Ok(None),
            },
        },
        _ => begun(alloc, expression, more),
    }
}

// The link that an operator and a slot or a number to its right make.
fn right_link(operator: Operator, right: &Expression) -> Option<Link>
    ensures link { IfSome result (λ k. (e : Linked) → linked_by e k ≡ joined_by operator e (plain right.now)) }
{
    match right {
        Expression::Slot(slot) => Some(Link::SlotRight(operator, *slot)),
        Expression::Number(number) => Some(number_link(operator, *number)),
        _ => None,
    }
}

// The link that an operator and a number to its right make.
fn number_link(operator: Operator, number: i64) -> Link
    ensures link { (e : Linked) → linked_by e result ≡ joined_by operator e (constant number) }
{
    match operator {
        Operator::Add => Link::Plus(number),
        Operator::Subtract => Link::Minus(number),
        Operator::Multiply => Link::Times(number),
        Operator::Divide => Link::Over(number),
        Operator::Remainder => Link::Modulo(number),
        _ => Link::NumberRight(operator, number),
    }
}

// The link that an operator and a slot or a number to its left make.
fn left_link(operator: Operator, left: &Expression) -> Option<Link>
    ensures link { IfSome result (λ k. (e : Linked) → linked_by e k ≡ joined_by operator (plain left.now) e) }
{
    match left {
        Expression::Slot(slot) => Some(Link::SlotLeft(operator, *slot)),
        Expression::Number(number) => Some(Link::NumberLeft(operator, *number)),
        _ => None,
    }
}

// A chain with one link more, where there is a chain.
fn longer(made: Result<Option<Chain>, AllocError>, link: Link) -> Result<Option<Chain>, AllocError>
    ensures longer { (e : Linked) → IfOk made (λ before. IfSome before (λ c. e ≡ chain_of c))
        → IfOk result (λ after. IfSome after (λ c. linked_by e link ≡ chain_of c)) }
{
    match made? {
        Some(mut chain) => {
            chain.links.push(link)?;
            Ok(Some(chain))
        }
        None => Ok(None),
    }
}

// The same of an expression without operators within one another.
fn begun(alloc: Global, expression: &Expression, more: usize) -> Result<Option<Chain>, AllocError>
    ensures chain { IfOk result (λ made. IfSome made (λ c. plain expression.now ≡ chain_of c)) }
{
    match expression {
        Expression::Slots(operator, left, right) => {
            begun_with(alloc, *left, Link::SlotRight(*operator, *right), more)
        }
        Expression::SlotAndNumber(operator, left, right) => {
            begun_with(alloc, *left, number_link(*operator, *right), more)
        }
        Expression::NumberAndSlot(operator, left, right) => {
            begun_with(alloc, *right, Link::NumberLeft(*operator, *left), more)
        }
        Expression::SlotCell(table, slot, column) => {
            alone(alloc, Start::Cell(*table, *slot, *column), more)
        }
        Expression::OnRow(operator, cells) => alone(alloc, Start::OnRow(*operator, *cells), more),
        _ => Ok(None),
    }
}

// A chain of one link on a slot, with room for so many more.
fn begun_with(
    alloc: Global,
    slot: usize,
    link: Link,
    more: usize,
) -> Result<Option<Chain>, AllocError>
    ensures chain { IfOk result (λ made. IfSome made (λ c. linked_by (slot_of slot) link ≡ chain_of c)) }
{
    longer(
        alone(alloc, Start::Slot(slot), more.saturating_add(1)),
        link,
    )
}

// A chain without links, with room for so many.
fn alone(alloc: Global, start: Start, more: usize) -> Result<Option<Chain>, AllocError>
    ensures chain { IfOk result (λ made. IfSome made (λ c. beginning start ≡ chain_of c)) }
{
    let links = Vec::with_capacity(alloc, more)?;
    Ok(Some(Chain { start, links }))
}
