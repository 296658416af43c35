//! The values of expressions.
ghost use Rattle.std.specs.Prelude.{◌≡◌, map, slice_get};
ghost use Rattle.meaning.specs.TreeView.{term};
ghost use Rattle.serial_oracle.specs.Listing.{tables_plain};
ghost use Rattle.serial_oracle.specs.Results.{EvaluatesAll};
ghost use Rattle.meaning.specs.Values.{value, values as values_of, apply, one_if, or_zero};

use crate::lookup;
use crate::stops::Trouble;
use crate::tables::TableRows;
use meaning::FaultKind;
use meaning::tree::{Expr, Operator};
use std::alloc::Global;

/// The value of a name; 0 where it has none.
fn held(env: &[Option<i64>], n: usize) -> i64
    ensures { result ≡ or_zero (slice_get env.now n) }
{
    match env.get(n) {
        Some(Some(v)) => *v,
        _ => 0,
    }
}

/// 1 for true, 0 for false.
fn one_of(b: bool) -> i64
    ensures { result ≡ one_if b }
{
    if b { 1 } else { 0 }
}

/// An operator on two numbers.
fn applied(op: Operator, x: i64, y: i64) -> Result<i64, FaultKind>
    ensures { result ≡ (apply op x y).answer }
{
    match op {
        Operator::Add => Ok(x.wrapping_add(y)),
        Operator::Subtract => Ok(x.wrapping_sub(y)),
        Operator::Multiply => Ok(x.wrapping_mul(y)),
        Operator::Divide => {
            if y == 0 {
                Err(FaultKind::DivideByZero)
            } else {
                Ok(x.wrapping_div(y))
            }
        }
        Operator::Remainder => {
            if y == 0 {
                Err(FaultKind::DivideByZero)
            } else {
                Ok(x.wrapping_rem(y))
            }
        }
        Operator::Equal => Ok(one_of(x == y)),
        Operator::Unequal => Ok(one_of(x != y)),
        Operator::Less => Ok(one_of(x < y)),
        Operator::AtMost => Ok(one_of(x <= y)),
        Operator::Greater => Ok(one_of(x > y)),
        Operator::AtLeast => Ok(one_of(x >= y)),
    }
}

/// The value of an expression, or its fault.
pub(crate) fn evaluate(
    tables: &[TableRows],
    env: &[Option<i64>],
    e: &Expr,
) -> Result<i64, FaultKind>
    ensures { result ≡ (value (tables_plain tables.now) env.now (term e.now)).answer }
{
    match e {
        Expr::Number(n) => Ok(*n),
        Expr::Name(x) => Ok(held(env, *x)),
        Expr::Cell(t, row, c) => {
            let row = evaluate(tables, env, row)?;
            match lookup::cell(tables, t, row, c) {
                None => Err(FaultKind::MissingRow),
                Some(v) => Ok(v),
            }
        }
        Expr::Has(t, row) => {
            let row = evaluate(tables, env, row)?;
            Ok(one_of(lookup::has(tables, t, row)))
        }
        Expr::Limit(t) => Ok(lookup::limit(tables, t)),
        Expr::Sum(t, c) => Ok(lookup::sum(tables, t, c)),
        Expr::Negate(x) => {
            let x = evaluate(tables, env, x)?;
            Ok(x.wrapping_neg())
        }
        Expr::Binary(op, x, y) => {
            let x = evaluate(tables, env, x)?;
            let y = evaluate(tables, env, y)?;
            applied(*op, x, y)
        }
    }
}

/// The values of expressions, from left to right.
pub(crate) fn all_values(
    alloc: Global,
    tables: &[TableRows],
    env: &[Option<i64>],
    es: &[Expr],
) -> Result<Vec<i64>, Trouble>
    ensures { EvaluatesAll result (values_of (tables_plain tables.now) env.now
        (map term es.now)).answer }
{
    let mut vs = Vec::new(alloc);
    for e in es {
        match evaluate(tables, env, e) {
            Ok(v) => {
                if vs.push(v).is_err() {
                    return Err(Trouble::NoMemory);
                }
            }
            Err(kind) => return Err(Trouble::Fault(kind)),
        }
    }
    Ok(vs)
}
