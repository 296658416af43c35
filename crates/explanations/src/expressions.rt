//! Expressions, as a text might have them.

use meaning::tree::{Expr, Operator, Procedure};
use text_page::Page;

// How many calls of this file are nested at most; an expression has 64 levels.
const MOST_NESTED: u32 = 512;

// How tightly the parts of an expression hold together: a comparison the least, and what needs no parentheses the most.
const COMPARISON: u8 = 0;

const SUM: u8 = 1;

const TERM: u8 = 2;

const UNARY: u8 = 3;

const ATOM: u8 = 4;

/// The name of a variable of a procedure.
pub(crate) fn variable(procedure: &Procedure, number: usize) -> &str {
    match procedure.names.get(number) {
        Some(name) => name.as_str(),
        None => "",
    }
}

/// Puts an expression, with as few parentheses as it can have, at the end of the text.
pub(crate) fn push_expression(text: &mut Page, procedure: &Procedure, expression: &Expr) {
    push_part(text, procedure, expression, COMPARISON, MOST_NESTED)
}

// Puts a part of an expression, in parentheses where it doesn't hold together as tightly as it has to there.
#[cycle(writing)]
fn push_part(text: &mut Page, procedure: &Procedure, expression: &Expr, least: u8, left: u32) {
    if left == 0 {
        return text.put("..");
    }
    if tightness(expression) >= least {
        return push_bare(text, procedure, expression, left - 1);
    }
    text.put("(");
    push_bare(text, procedure, expression, left - 1);
    text.put(")")
}

// Puts an expression without parentheses of its own.
#[cycle(writing)]
fn push_bare(text: &mut Page, procedure: &Procedure, expression: &Expr, left: u32) {
    if left == 0 {
        return text.put("..");
    }
    match expression {
        Expr::Number(number) => text.put_number("", *number, ""),
        Expr::Name(number) => text.put(variable(procedure, *number)),
        Expr::Limit(table) => text.put_named("limit ", table, ""),
        Expr::Sum(table, column) => {
            text.put_named("sum ", table, ".");
            text.put(column);
        }
        Expr::Cell(table, row, column) => {
            text.put(table);
            text.put("[");
            push_part(text, procedure, row, COMPARISON, left - 1);
            text.put_named("].", column, "");
        }
        Expr::Has(table, row) => {
            text.put_named("has ", table, "[");
            push_part(text, procedure, row, COMPARISON, left - 1);
            text.put("]");
        }
        Expr::Negate(inner) => {
            text.put("-");
            push_part(text, procedure, inner, UNARY, left - 1)
        }
        Expr::Binary(operator, first, second) => {
            let own = level_of(*operator);
            push_part(text, procedure, first, least_before(own), left - 1);
            text.put(sign_of(*operator));
            push_part(text, procedure, second, own.saturating_add(1), left - 1)
        }
    }
}

// How tightly an expression holds together.
fn tightness(expression: &Expr) -> u8 {
    match expression {
        Expr::Binary(operator, _, _) => level_of(*operator),
        Expr::Negate(_) => UNARY,
        _ => ATOM,
    }
}

// How tightly what an operator makes holds together.
fn level_of(operator: Operator) -> u8 {
    match operator {
        Operator::Add | Operator::Subtract => SUM,
        Operator::Multiply | Operator::Divide | Operator::Remainder => TERM,
        _ => COMPARISON,
    }
}

// How tightly the first operand has to hold together: sums and terms group to the left, and comparisons don't group.
fn least_before(level: u8) -> u8 {
    if level == COMPARISON { SUM } else { level }
}

// An operator as it is written between its operands.
fn sign_of(operator: Operator) -> &'static str {
    match operator {
        Operator::Add => " + ",
        Operator::Subtract => " - ",
        Operator::Multiply => " * ",
        Operator::Divide => " / ",
        Operator::Remainder => " % ",
        Operator::Equal => " == ",
        Operator::Unequal => " != ",
        Operator::Less => " < ",
        Operator::AtMost => " <= ",
        Operator::Greater => " > ",
        Operator::AtLeast => " >= ",
    }
}
