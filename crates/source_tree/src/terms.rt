//! Expressions with their variables as numbers.

ghost use Rattle.std.specs.Prelude.{◌≡◌, IfOk, [], map, string_bytes};
ghost use Rattle.meaning.specs.Tree as plain;
ghost use Rattle.meaning.specs.TreeView.{term};
ghost use Rattle.source_tree.specs.Source.{phrase, phrases, option_text};
ghost use Rattle.source_tree.specs.Lowering.{lower_term, lower_terms, optional};

use crate::pool::Pool;
use crate::source;
use meaning::tree::{Expr, Operator};
use std::alloc::{AllocError, Global};

fn cell(alloc: Global, table: &str, row: Expr, column: &str) -> Result<Expr, AllocError>
    ensures { IfOk result (λ e. term e ≡ plain.cell table.now (term row) column.now) }
{
    let table = String::from_str(alloc, table)?;
    let column = String::from_str(alloc, column)?;
    Ok(Expr::Cell(table, Box::new(alloc, row)?, column))
}

fn has(alloc: Global, table: &str, row: Expr) -> Result<Expr, AllocError>
    ensures { IfOk result (λ e. term e ≡ plain.has table.now (term row)) }
{
    let table = String::from_str(alloc, table)?;
    Ok(Expr::Has(table, Box::new(alloc, row)?))
}

fn limit(alloc: Global, table: &str) -> Result<Expr, AllocError>
    ensures { IfOk result (λ e. term e ≡ plain.limit table.now) }
{
    Ok(Expr::Limit(String::from_str(alloc, table)?))
}

fn sum(alloc: Global, table: &str, column: &str) -> Result<Expr, AllocError>
    ensures { IfOk result (λ e. term e ≡ plain.sum table.now column.now) }
{
    let table = String::from_str(alloc, table)?;
    let column = String::from_str(alloc, column)?;
    Ok(Expr::Sum(table, column))
}

fn negate(alloc: Global, inner: Expr) -> Result<Expr, AllocError>
    ensures { IfOk result (λ e. term e ≡ plain.negate (term inner)) }
{
    Ok(Expr::Negate(Box::new(alloc, inner)?))
}

fn binary(alloc: Global, operator: Operator, left: Expr, right: Expr) -> Result<Expr, AllocError>
    ensures { IfOk result (λ e. term e ≡ plain.binary operator (term left) (term right)) }
{
    let left = Box::new(alloc, left)?;
    let right = Box::new(alloc, right)?;
    Ok(Expr::Binary(operator, left, right))
}

/// An expression, with each new name put last in the pool.
pub(crate) fn lower_expression(
    alloc: Global,
    pool: &mut Pool,
    expr: &source::Expr,
) -> Result<Expr, AllocError>
    ensures { IfOk result (λ e. (pool.new, term e) ≡ lower_term pool.old (phrase expr.now)) }
{
    match expr {
        source::Expr::Number(n) => Ok(Expr::Number(*n)),
        source::Expr::Name(x) => Ok(Expr::Name(pool.number_of(alloc, x)?)),
        source::Expr::Cell(table, row, column) => {
            let row = lower_expression(alloc, pool, row)?;
            cell(alloc, table, row, column)
        }
        source::Expr::Has(table, row) => {
            let row = lower_expression(alloc, pool, row)?;
            has(alloc, table, row)
        }
        source::Expr::Limit(table) => limit(alloc, table),
        source::Expr::Sum(table, column) => sum(alloc, table, column),
        source::Expr::Negate(inner) => {
            let inner = lower_expression(alloc, pool, inner)?;
            negate(alloc, inner)
        }
        source::Expr::Binary(operator, left, right) => {
            let left = lower_expression(alloc, pool, left)?;
            let right = lower_expression(alloc, pool, right)?;
            binary(alloc, *operator, left, right)
        }
    }
}

/// Expressions, from left to right.
pub(crate) fn lower_expressions(
    alloc: Global,
    pool: &mut Pool,
    exprs: &[source::Expr],
) -> Result<Vec<Expr>, AllocError>
    ensures { IfOk result (λ es. (pool.new, map term es.items)
        ≡ lower_terms (pool.old, []) (phrases exprs.now)) }
{
    let mut out = Vec::with_capacity(alloc, exprs.len())?;
    for expr in exprs {
        out.push(lower_expression(alloc, pool, expr)?)?;
    }
    Ok(out)
}

/// The number of a name that may be there.
pub(crate) fn number_of_bound(
    alloc: Global,
    pool: &mut Pool,
    bound: &Option<String>,
) -> Result<Option<usize>, AllocError>
    ensures { IfOk result (λ n. (pool.new, n) ≡ optional pool.old (option_text bound.now)) }
{
    match bound {
        None => Ok(None),
        Some(x) => Ok(Some(pool.number_of(alloc, x)?)),
    }
}
