//! Reads expressions.

ghost use Rattle.std.specs.Prelude.{string_bytes, ◌≡◌, ◌≤◌, ◌-◌, ◌<◌, ◌+◌, length, max, IfOk, IfSome, map, option_map, Option, Some, None, nat_eq};
ghost use Rattle.token_scanner.specs.Words.{words, rest, front_name, front_number};
ghost use Rattle.source_tree.specs.Source.{phrase, depth, Bin};
ghost use Rattle.token_readers.specs.Limits.{most_open, most_levels};
ghost use Rattle.token_readers.specs.Reading.{Gives};
ghost use Rattle.procedure_parser.specs.Reading.{limit_at, column_sum_at, after_name_at, row_at, has_at, plain_atom_at, atom_at, unary_at};
ghost use Rattle.procedure_parser.specs.Reading.{term_at, sum_at, against_at, inside_at, expr_at};
ghost use Rattle.procedure_parser.specs.Pieces.{column_at};

use meaning::tree::Operator;
use source_tree::{Expr, Measured};
use std::alloc::{AllocError, Global};
use token_readers::{
    Limits, ParseError, additive, comparison, front_number, left, mark, multiplicative, name,
    rest_of, starts,
};
use token_scanner::{Mark, Placed};

fn joined(
    alloc: Global,
    operation: Operator,
    left: Measured,
    right: Measured,
) -> Result<Measured, AllocError>
    requires left { left.levels < 1000 }
    requires right { right.levels < 1000 }
    ensures joined { IfOk result (λ x. phrase x.expr ≡ Bin operation (phrase left.expr) (phrase right.expr)) }
    ensures levels { IfOk result (λ x. x.levels ≡ max left.levels right.levels + 1) }
{
    let levels = left.levels.max(right.levels) + 1;
    let left = Box::new(alloc, left.expr)?;
    let right = Box::new(alloc, right.expr)?;
    Ok(Measured {
        expr: Expr::Binary(operation, left, right),
        levels,
    })
}

fn is_full(more: usize) -> bool
    ensures { result ≡ nat_eq more 0 }
{
    more == 0
}

/// Why reading stopped, behind what was read and is dropped: a call is proved in less time than a drop.
pub(crate) fn without<T: Drop>(_read: T, stop: ParseError) -> ParseError
    ensures { result ≡ stop }
{
    stop
}

/// An expression within the limits.
#[cycle(reading)]
#[tactic(auto, unfolding(crate::specs::Reading::expr_at, crate::specs::Reading::expr_with))]
pub(crate) fn expression<'a, 'b>(
    alloc: Global,
    limits: Limits,
    tokens: &'b [Placed<'a>],
) -> Result<(Measured, &'b [Placed<'a>]), ParseError>
    ensures exact { Gives (λ x. (phrase x.0.expr, words x.1.now)) result
        (expr_at limits.more limits.room (words tokens.now)) }
    ensures levels { IfOk result (λ x. x.0.levels ≤ limits.room) }
{
    let (left, rest) = sum(alloc, limits, tokens)?;
    against(alloc, limits, left, rest)
}

#[cycle(reading)]
#[tactic(auto, unfolding(crate::specs::Reading::against_at))]
fn against<'a, 'b>(
    alloc: Global,
    limits: Limits,
    left: Measured,
    tokens: &'b [Placed<'a>],
) -> Result<(Measured, &'b [Placed<'a>]), ParseError>
    requires left { left.levels ≤ limits.room }
    ensures exact { Gives (λ x. (phrase x.0.expr, words x.1.now)) result
        (against_at (sum_at (nat_eq limits.more 0) (inside_at limits.more)) limits.room (phrase left.expr) (words tokens.now)) }
    ensures levels { IfOk result (λ x. x.0.levels ≤ limits.room) }
{
    let Some(operation) = comparison(tokens) else {
        return Ok((left, tokens));
    };
    if left.levels >= limits.room {
        return Err(without(left, ParseError::Stuck(tokens.len())));
    }
    match sum(alloc, limits.lower(), rest_of(tokens)) {
        Err(stop) => Err(without(left, stop)),
        Ok((right, rest)) => Ok((joined(alloc, operation, left, right)?, rest)),
    }
}

#[cycle(reading)]
#[tactic(auto, unfolding(crate::specs::Reading::sum_at))]
fn sum<'a, 'b>(
    alloc: Global,
    limits: Limits,
    tokens: &'b [Placed<'a>],
) -> Result<(Measured, &'b [Placed<'a>]), ParseError>
    ensures exact { Gives (λ x. (phrase x.0.expr, words x.1.now)) result
        (sum_at (nat_eq limits.more 0) (inside_at limits.more) limits.room (words tokens.now)) }
    ensures levels { IfOk result (λ x. x.0.levels ≤ limits.room) }
{
    let (mut left, mut rest) = term(alloc, limits, tokens)?;
    for _ in 0..limits.room {
        let Some(operation) = additive(rest) else {
            return Ok((left, rest));
        };
        if left.levels >= limits.room {
            return Err(without(left, ParseError::Stuck(rest.len())));
        }
        let (right, after) = match term(alloc, limits.lower(), rest_of(rest)) {
            Err(stop) => return Err(without(left, stop)),
            Ok(read) => read,
        };
        left = joined(alloc, operation, left, right)?;
        rest = after;
    }
    Err(without(left, ParseError::Stuck(rest.len())))
}

#[cycle(reading)]
#[tactic(auto, unfolding(crate::specs::Reading::term_at))]
fn term<'a, 'b>(
    alloc: Global,
    limits: Limits,
    tokens: &'b [Placed<'a>],
) -> Result<(Measured, &'b [Placed<'a>]), ParseError>
    ensures exact { Gives (λ x. (phrase x.0.expr, words x.1.now)) result
        (term_at (nat_eq limits.more 0) (inside_at limits.more) limits.room (words tokens.now)) }
    ensures levels { IfOk result (λ x. x.0.levels ≤ limits.room) }
{
    let (mut left, mut rest) = unary(alloc, limits, tokens)?;
    for _ in 0..limits.room {
        let Some(operation) = multiplicative(rest) else {
            return Ok((left, rest));
        };
        if left.levels >= limits.room {
            return Err(without(left, ParseError::Stuck(rest.len())));
        }
        let (right, after) = match unary(alloc, limits.lower(), rest_of(rest)) {
            Err(stop) => return Err(without(left, stop)),
            Ok(read) => read,
        };
        left = joined(alloc, operation, left, right)?;
        rest = after;
    }
    Err(without(left, ParseError::Stuck(rest.len())))
}

#[cycle(reading)]
#[tactic(auto, unfolding(crate::specs::Reading::unary_at))]
fn unary<'a, 'b>(
    alloc: Global,
    limits: Limits,
    tokens: &'b [Placed<'a>],
) -> Result<(Measured, &'b [Placed<'a>]), ParseError>
    ensures exact { Gives (λ x. (phrase x.0.expr, words x.1.now)) result
        (unary_at (nat_eq limits.more 0) (inside_at limits.more) limits.room (words tokens.now)) }
    ensures levels { IfOk result (λ x. x.0.levels ≤ limits.room) }
{
    if !starts(tokens, Mark::Minus) {
        return atom(alloc, limits, tokens);
    }
    if limits.room == 1 {
        return Err(ParseError::Stuck(tokens.len()));
    }
    let (inner, rest) = unary(alloc, limits.lower(), rest_of(tokens))?;
    let levels = inner.levels + 1;
    let expr = Expr::Negate(Box::new(alloc, inner.expr)?);
    Ok((Measured { expr, levels }, rest))
}

#[cycle(reading)]
#[tactic(auto, unfolding(crate::specs::Reading::atom_at))]
fn atom<'a, 'b>(
    alloc: Global,
    limits: Limits,
    tokens: &'b [Placed<'a>],
) -> Result<(Measured, &'b [Placed<'a>]), ParseError>
    ensures exact { Gives (λ x. (phrase x.0.expr, words x.1.now)) result
        (atom_at (nat_eq limits.more 0) (inside_at limits.more) limits.room (words tokens.now)) }
    ensures levels { IfOk result (λ x. x.0.levels ≤ limits.room) }
{
    if starts(tokens, Mark::OpenParen) {
        let (inner, rest) = inside(alloc, limits, tokens)?;
        return match mark(rest, Mark::CloseParen) {
            Err(stop) => Err(without(inner, stop)),
            Ok(rest) => Ok((inner, rest)),
        };
    }
    plain_atom(alloc, limits, tokens)
}

#[cycle(reading)]
#[tactic(auto, unfolding(crate::specs::Reading::plain_atom_at))]
fn plain_atom<'a, 'b>(
    alloc: Global,
    limits: Limits,
    tokens: &'b [Placed<'a>],
) -> Result<(Measured, &'b [Placed<'a>]), ParseError>
    ensures exact { Gives (λ x. (phrase x.0.expr, words x.1.now)) result
        (plain_atom_at (nat_eq limits.more 0) (inside_at limits.more) limits.room (words tokens.now)) }
    ensures levels { IfOk result (λ x. x.0.levels ≤ limits.room) }
{
    if starts(tokens, Mark::Has) {
        return has(alloc, limits, tokens);
    }
    if starts(tokens, Mark::Limit) {
        return limit(alloc, limits, rest_of(tokens));
    }
    if starts(tokens, Mark::Sum) {
        return column_sum(alloc, limits, rest_of(tokens));
    }
    if let Some(n) = front_number(tokens) {
        let expr = Expr::Number(n);
        return Ok((Measured { expr, levels: 1 }, rest_of(tokens)));
    }
    let (x, rest) = name(alloc, tokens)?;
    after_name(alloc, limits, x, rest)
}

/// A cell's column, behind the row.
fn column<'a, 'b>(
    alloc: Global,
    tokens: &'b [Placed<'a>],
) -> Result<(String, &'b [Placed<'a>]), ParseError>
    ensures { Gives (λ x. (string_bytes x.0, words x.1.now)) result (column_at (words tokens.now)) }
{
    let rest = mark(tokens, Mark::CloseBracket)?;
    let rest = mark(rest, Mark::Dot)?;
    name(alloc, rest)
}

#[cycle(reading)]
#[tactic(auto, unfolding(crate::specs::Reading::after_name_at))]
fn after_name<'a, 'b>(
    alloc: Global,
    limits: Limits,
    x: String,
    tokens: &'b [Placed<'a>],
) -> Result<(Measured, &'b [Placed<'a>]), ParseError>
    ensures exact { Gives (λ x. (phrase x.0.expr, words x.1.now)) result
        (after_name_at (inside_at limits.more) limits.room (string_bytes x) (words tokens.now)) }
    ensures levels { IfOk result (λ x. x.0.levels ≤ limits.room) }
{
    if !starts(tokens, Mark::OpenBracket) {
        let expr = Expr::Name(x);
        return Ok((Measured { expr, levels: 1 }, tokens));
    }
    if limits.room <= 1 {
        return Err(ParseError::Stuck(tokens.len()));
    }
    let (row, rest) = inside(alloc, limits.lower(), tokens)?;
    let levels = row.levels + 1;
    let row = Box::new(alloc, row.expr)?;
    let (column, rest) = column(alloc, rest)?;
    let expr = Expr::Cell(x, row, column);
    Ok((Measured { expr, levels }, rest))
}

#[tactic(auto, unfolding(crate::specs::Reading::limit_at))]
fn limit<'a, 'b>(
    alloc: Global,
    limits: Limits,
    tokens: &'b [Placed<'a>],
) -> Result<(Measured, &'b [Placed<'a>]), ParseError>
    ensures exact { Gives (λ x. (phrase x.0.expr, words x.1.now)) result (limit_at (words tokens.now)) }
    ensures levels { IfOk result (λ x. x.0.levels ≤ limits.room) }
{
    let (x, rest) = name(alloc, tokens)?;
    let expr = Expr::Limit(x);
    Ok((Measured { expr, levels: 1 }, rest))
}

#[tactic(auto, unfolding(crate::specs::Reading::column_sum_at))]
fn column_sum<'a, 'b>(
    alloc: Global,
    limits: Limits,
    tokens: &'b [Placed<'a>],
) -> Result<(Measured, &'b [Placed<'a>]), ParseError>
    ensures exact { Gives (λ x. (phrase x.0.expr, words x.1.now)) result (column_sum_at (words tokens.now)) }
    ensures levels { IfOk result (λ x. x.0.levels ≤ limits.room) }
{
    let (table, rest) = name(alloc, tokens)?;
    let rest = mark(rest, Mark::Dot)?;
    let (column, rest) = name(alloc, rest)?;
    let expr = Expr::Sum(table, column);
    Ok((Measured { expr, levels: 1 }, rest))
}

#[cycle(reading)]
#[tactic(auto, unfolding(crate::specs::Reading::has_at))]
fn has<'a, 'b>(
    alloc: Global,
    limits: Limits,
    tokens: &'b [Placed<'a>],
) -> Result<(Measured, &'b [Placed<'a>]), ParseError>
    ensures exact { Gives (λ x. (phrase x.0.expr, words x.1.now)) result
        (has_at (nat_eq limits.more 0) (inside_at limits.more) limits.room (words tokens.now)) }
    ensures levels { IfOk result (λ x. x.0.levels ≤ limits.room) }
{
    if limits.room <= 1 {
        return Err(ParseError::Stuck(tokens.len()));
    }
    let (x, rest) = name(alloc, rest_of(tokens))?;
    row(alloc, limits, x, rest)
}

#[cycle(reading)]
#[tactic(auto, unfolding(crate::specs::Reading::row_at, crate::specs::Reading::over_as))]
fn row<'a, 'b>(
    alloc: Global,
    limits: Limits,
    x: String,
    tokens: &'b [Placed<'a>],
) -> Result<(Measured, &'b [Placed<'a>]), ParseError>
    requires room { 1 < limits.room }
    ensures exact { Gives (λ x. (phrase x.0.expr, words x.1.now)) result
        (row_at (nat_eq limits.more 0) (inside_at limits.more) limits.room (string_bytes x) (words tokens.now)) }
    ensures levels { IfOk result (λ x. x.0.levels ≤ limits.room) }
{
    if is_full(limits.more) {
        return Err(ParseError::Stuck(left(tokens)));
    }
    if !starts(tokens, Mark::OpenBracket) {
        return Err(ParseError::Stuck(tokens.len()));
    }
    let (row, rest) = inside(alloc, limits.lower(), tokens)?;
    let levels = row.levels + 1;
    let row = Box::new(alloc, row.expr)?;
    let rest = mark(rest, Mark::CloseBracket)?;
    let expr = Expr::Has(x, row);
    Ok((Measured { expr, levels }, rest))
}

#[cycle(reading)]
#[tactic(auto, unfolding(crate::specs::Reading::inside_at, crate::specs::Reading::expr_at))]
fn inside<'a, 'b>(
    alloc: Global,
    limits: Limits,
    tokens: &'b [Placed<'a>],
) -> Result<(Measured, &'b [Placed<'a>]), ParseError>
    ensures exact { Gives (λ x. (phrase x.0.expr, words x.1.now)) result (inside_at limits.more limits.room (words tokens.now)) }
    ensures levels { IfOk result (λ x. x.0.levels ≤ limits.room) }
{
    if limits.more == 0 {
        return Err(ParseError::Stuck(tokens.len()));
    }
    expression(alloc, limits.inner(), rest_of(tokens))
}
