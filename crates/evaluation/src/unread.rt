//! The values of expressions that read nothing, where others ask what is read.
ghost use Rattle.std.specs.Prelude.{◌≡◌, IfSome};
ghost use Rattle.linked_program.specs.CodeView.{expression as plain};
ghost use Rattle.evaluation.specs.Values.{value_at, pure};
ghost use Rattle.meaning.specs.Tables.{Tables as TableList};

use crate::slot::Slot;
use crate::values::{joined, without_reading};
use linked_program::code::Expression;

/// The value of an expression that reads nothing, where it has one; none of any other expression. So there is nothing to note for it.
#[cycle(value)]
pub fn value(expression: &Expression, slots: &[Slot]) -> Option<i64>
    ensures value { IfSome result (λ v. (all : TableList) → value_at all slots.now (plain expression.now) ≡ pure v) }
{
    match expression {
        Expression::Negate(inner) => match operand(inner, slots) {
            Some(number) => Some(number.wrapping_neg()),
            None => None,
        },
        Expression::Binary(operator, left, right) => match operand(left, slots) {
            Some(left) => match operand(right, slots) {
                Some(right) => joined(*operator, left, right),
                None => None,
            },
            None => None,
        },
        _ => without_reading(expression, slots),
    }
}

// The value of an operand; that of numbers and slots, and of an operator on two of them, without a call of `value`.
#[inline(always)]
#[cycle(value)]
fn operand(expression: &Expression, slots: &[Slot]) -> Option<i64>
    ensures value { IfSome result (λ v. (all : TableList) → value_at all slots.now (plain expression.now) ≡ pure v) }
{
    match without_reading(expression, slots) {
        Some(value) => Some(value),
        None => value(expression, slots),
    }
}
