//! Reads whole expressions and lists of them.

ghost use Rattle.std.specs.Prelude.{◌≡◌, length, []};
ghost use Rattle.token_scanner.specs.Words.{words, rest, starts};
ghost use Rattle.token_scanner.specs.declared.token.Mark.TheVariants.{Comma};
ghost use Rattle.source_tree.specs.Source.{phrase, phrases};
ghost use Rattle.token_readers.specs.Reading.{Gives};
ghost use Rattle.procedure_parser.specs.Reading.{with_front, many_at, comma_expr_at, whole_at, exprs_at, args_at};

use crate::expression::expression;
use source_tree::Expr;
use std::alloc::Global;
use token_readers::{Limits, ParseError, mark, rest_of, starts};
use token_scanner::{Mark, Placed};

/// An expression within the limits.
#[tactic(auto, unfolding(crate::specs::Reading::whole_at))]
pub(crate) fn whole<'a, 'b>(
    alloc: Global,
    tokens: &'b [Placed<'a>],
) -> Result<(Expr, &'b [Placed<'a>]), ParseError>
    ensures { Gives (λ x. (phrase x.0, words x.1.now)) result (whole_at (words tokens.now)) }
{
    let (measured, rest) = expression(alloc, Limits::whole(), tokens)?;
    Ok((measured.expr, rest))
}

#[tactic(auto, unfolding(crate::specs::Reading::comma_expr_at))]
fn comma_expression<'a, 'b>(
    alloc: Global,
    tokens: &'b [Placed<'a>],
) -> Result<(Expr, &'b [Placed<'a>]), ParseError>
    ensures { Gives (λ x. (phrase x.0, words x.1.now)) result (comma_expr_at (words tokens.now)) }
{
    let rest = mark(tokens, Mark::Comma)?;
    whole(alloc, rest)
}

fn beginning<'a, 'b>(all: Vec<Expr>, tokens: &'b [Placed<'a>]) -> (Vec<Expr>, &'b [Placed<'a>])
    ensures all { result.0 ≡ all }
    ensures rest { result.1.now ≡ tokens.now }
{
    (all, tokens)
}

fn more_expressions<'a, 'b>(
    alloc: Global,
    all: Vec<Expr>,
    tokens: &'b [Placed<'a>],
) -> Result<(Vec<Expr>, &'b [Placed<'a>]), ParseError>
    ensures { Gives (λ x. (phrases x.0.items, words x.1.now)) result
        (with_front (phrases all.items) (many_at (starts Comma) comma_expr_at (words tokens.now))) }
{
    let count = tokens.len();
    let (mut all, mut rest) = beginning(all, tokens);
    for _ in 0..count {
        if !starts(rest, Mark::Comma) {
            return Ok((all, rest));
        }
        let (next, after) = comma_expression(alloc, rest)?;
        all.push(next)?;
        rest = after;
    }
    Ok((all, rest))
}

/// Expressions with commas between them, at least one.
#[tactic(auto, unfolding(crate::specs::Reading::exprs_at))]
pub(crate) fn expressions<'a, 'b>(
    alloc: Global,
    tokens: &'b [Placed<'a>],
) -> Result<(Vec<Expr>, &'b [Placed<'a>]), ParseError>
    ensures { Gives (λ x. (phrases x.0.items, words x.1.now)) result (exprs_at (words tokens.now)) }
{
    let (first, rest) = whole(alloc, tokens)?;
    let mut all = Vec::new(alloc);
    all.push(first)?;
    more_expressions(alloc, all, rest)
}

/// Arguments in parentheses.
#[tactic(auto, unfolding(crate::specs::Reading::args_at))]
pub(crate) fn arguments<'a, 'b>(
    alloc: Global,
    tokens: &'b [Placed<'a>],
) -> Result<(Vec<Expr>, &'b [Placed<'a>]), ParseError>
    ensures { Gives (λ x. (phrases x.0.items, words x.1.now)) result (args_at (words tokens.now)) }
{
    let rest = mark(tokens, Mark::OpenParen)?;
    if starts(rest, Mark::CloseParen) {
        return Ok((Vec::new(alloc), rest_of(rest)));
    }
    let (all, rest) = expressions(alloc, rest)?;
    let rest = mark(rest, Mark::CloseParen)?;
    Ok((all, rest))
}
