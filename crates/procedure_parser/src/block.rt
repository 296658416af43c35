//! Reads blocks of statements.

ghost use Rattle.std.specs.Prelude.{string_bytes, ◌≡◌, length, Option, Some, None, Bool, not, ◌&&◌, []};
ghost use Rattle.token_scanner.specs.Words.{words, rest, line_of, starts};
ghost use Rattle.source_tree.specs.Source.{phrase, stmt, stmts, stmts_of};
ghost use Rattle.token_readers.specs.Reading.{Gives};
ghost use Rattle.procedure_parser.specs.Reading.{many_at, goes_on, else_at, if_at, keyword_at, statement_at, end_at, body_at, block_at};

use crate::arguments::whole;
use crate::expression::without;
use crate::statement::{bind, entry, looping, return_value, update};
use source_tree::{Expr, Statement};
use std::alloc::Global;
use token_readers::{ParseError, ended, front_name, left, line_of, mark, rest_of, starts, way_of};
use token_scanner::{Mark, Placed};

#[cycle(blocks)]
#[tactic(auto, unfolding(crate::specs::Reading::else_at))]
fn otherwise<'a, 'b>(
    alloc: Global,
    nested: usize,
    line: u32,
    condition: Expr,
    first: Vec<Statement>,
    tokens: &'b [Placed<'a>],
) -> Result<(Statement, &'b [Placed<'a>]), ParseError>
    ensures { Gives (λ x. (stmt x.0, words x.1.now)) result (else_at (block_at nested) line (phrase condition) (stmts first.items) (words tokens.now)) }
{
    if starts(tokens, Mark::Else) {
        return match block(alloc, nested, rest_of(tokens)) {
            Err(stop) => Err(without(condition, stop)),
            Ok((second, rest)) => Ok((Statement::If(line, condition, first, second), rest)),
        };
    }
    let none = Vec::new(alloc);
    Ok((Statement::If(line, condition, first, none), tokens))
}

#[cycle(blocks)]
#[tactic(auto, unfolding(crate::specs::Reading::if_at))]
fn choice<'a, 'b>(
    alloc: Global,
    nested: usize,
    line: u32,
    tokens: &'b [Placed<'a>],
) -> Result<(Statement, &'b [Placed<'a>]), ParseError>
    ensures { Gives (λ x. (stmt x.0, words x.1.now)) result (if_at (block_at nested) line (words tokens.now)) }
{
    let (condition, rest) = whole(alloc, tokens)?;
    match block(alloc, nested, rest) {
        Err(stop) => Err(without(condition, stop)),
        Ok((first, rest)) => otherwise(alloc, nested, line, condition, first, rest),
    }
}

#[cycle(blocks)]
#[tactic(auto, unfolding(crate::specs::Reading::keyword_at))]
fn keyword<'a, 'b>(
    alloc: Global,
    nested: usize,
    tokens: &'b [Placed<'a>],
) -> Result<(Statement, &'b [Placed<'a>]), ParseError>
    ensures { Gives (λ x. (stmt x.0, words x.1.now)) result (keyword_at (block_at nested) (words tokens.now)) }
{
    let line = line_of(tokens);
    if starts(tokens, Mark::Sync) {
        let rest = mark(rest_of(tokens), Mark::Semicolon)?;
        return Ok((Statement::Sync(line), rest));
    }
    if starts(tokens, Mark::Update) {
        return update(alloc, line, rest_of(tokens));
    }
    if starts(tokens, Mark::If) {
        return choice(alloc, nested, line, rest_of(tokens));
    }
    if starts(tokens, Mark::CilkFor) {
        return looping(alloc, line, rest_of(tokens));
    }
    Err(ParseError::Stuck(tokens.len()))
}

#[cycle(blocks)]
#[tactic(auto, unfolding(crate::specs::Reading::statement_at))]
fn statement<'a, 'b>(
    alloc: Global,
    nested: usize,
    tokens: &'b [Placed<'a>],
) -> Result<(Statement, &'b [Placed<'a>]), ParseError>
    ensures { Gives (λ x. (stmt x.0, words x.1.now)) result (statement_at (block_at nested) (words tokens.now)) }
{
    let line = line_of(tokens);
    match front_name(tokens) {
        Some(x) => bind(alloc, line, String::from_str(alloc, x)?, rest_of(tokens)),
        None => match way_of(tokens) {
            Some(way) => entry(alloc, line, None, way, rest_of(tokens)),
            None => keyword(alloc, nested, tokens),
        },
    }
}

#[tactic(auto, unfolding(crate::specs::Reading::end_at))]
fn block_end<'a, 'b>(
    alloc: Global,
    mut statements: Vec<Statement>,
    tokens: &'b [Placed<'a>],
) -> Result<(Vec<Statement>, &'b [Placed<'a>]), ParseError>
    ensures { Gives (λ x. (stmts x.0.items, words x.1.now)) result (end_at (stmts statements.items) (words tokens.now)) }
{
    if starts(tokens, Mark::Return) {
        let (last, rest) = return_value(alloc, line_of(tokens), rest_of(tokens))?;
        statements.push(last)?;
        let rest = mark(rest, Mark::CloseBrace)?;
        return Ok((statements, rest));
    }
    let rest = mark(tokens, Mark::CloseBrace)?;
    Ok((statements, rest))
}

fn no_statements<'a, 'b>(
    alloc: Global,
    tokens: &'b [Placed<'a>],
) -> (Vec<Statement>, &'b [Placed<'a>])
    ensures all { result.0.items ≡ [] }
    ensures rest { result.1.now ≡ tokens.now }
{
    (Vec::new(alloc), tokens)
}

fn goes_on(tokens: &[Placed]) -> bool
    ensures { result ≡ goes_on (words tokens.now) }
{
    !ended(tokens) && !starts(tokens, Mark::CloseBrace) && !starts(tokens, Mark::Return)
}

#[cycle(blocks)]
fn statements<'a, 'b>(
    alloc: Global,
    nested: usize,
    tokens: &'b [Placed<'a>],
) -> Result<(Vec<Statement>, &'b [Placed<'a>]), ParseError>
    ensures { Gives (λ x. (stmts x.0.items, words x.1.now)) result (many_at goes_on (statement_at (block_at nested)) (words tokens.now)) }
{
    let count = tokens.len();
    let (mut all, mut rest) = no_statements(alloc, tokens);
    for _ in 0..count {
        if !goes_on(rest) {
            return Ok((all, rest));
        }
        let (next, after) = statement(alloc, nested, rest)?;
        all.push(next)?;
        rest = after;
    }
    Ok((all, rest))
}

#[cycle(blocks)]
#[tactic(auto, unfolding(crate::specs::Reading::body_at))]
fn body<'a, 'b>(
    alloc: Global,
    nested: usize,
    tokens: &'b [Placed<'a>],
) -> Result<(Vec<Statement>, &'b [Placed<'a>]), ParseError>
    ensures { Gives (λ x. (stmts x.0.items, words x.1.now)) result (body_at (block_at nested) (words tokens.now)) }
{
    let (all, rest) = statements(alloc, nested, tokens)?;
    block_end(alloc, all, rest)
}

/// A block, of which at most `nested` may be nested in one another.
#[cycle(blocks)]
#[tactic(auto, unfolding(crate::specs::Reading::block_at, crate::specs::Reading::over_as))]
pub(crate) fn block<'a, 'b>(
    alloc: Global,
    nested: usize,
    tokens: &'b [Placed<'a>],
) -> Result<(Vec<Statement>, &'b [Placed<'a>]), ParseError>
    ensures { Gives (λ x. (stmts x.0.items, words x.1.now)) result
        (block_at nested (words tokens.now)) }
{
    if nested == 0 {
        return Err(ParseError::Stuck(left(tokens)));
    }
    let rest = mark(tokens, Mark::OpenBrace)?;
    body(alloc, nested - 1, rest)
}
