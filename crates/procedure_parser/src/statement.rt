//! Reads statements that hold no block.

ghost use Rattle.std.specs.Prelude.{string_bytes, ◌≡◌, ◌≤◌, ℕ, List, option_map, Option, Some, None, IfOk};
ghost use Rattle.token_scanner.specs.Words.{words, rest, line_of, starts};
ghost use Rattle.source_tree.specs.Source.{Phrase, phrase, phrases, stmt, Loops};
ghost use Rattle.procedure_parser.specs.Ranges.{ends};
ghost use Rattle.procedure_parser.specs.Pieces.{high_at};
ghost use Rattle.token_readers.specs.Reading.{Gives};
ghost use Rattle.procedure_parser.specs.Reading.{entry_at, value_at, read_at, bound_at, bind_at, update_at, return_at, grain_at, range_at};
ghost use Rattle.procedure_parser.specs.Reading.{iteration_at, loop_at};

use crate::arguments::{arguments, expressions, whole};
use crate::expression::without;
use meaning::tree::Way;
use source_tree::{Expr, Statement};
use std::alloc::Global;
use token_readers::{ParseError, mark, name, rest_of, starts, way_of, within};
use token_scanner::{Mark, Placed};

/// Behind `call` or `spawn`.
#[tactic(auto, unfolding(crate::specs::Reading::entry_at))]
pub(crate) fn entry<'a, 'b>(
    alloc: Global,
    line: u32,
    bound: Option<String>,
    way: Way,
    tokens: &'b [Placed<'a>],
) -> Result<(Statement, &'b [Placed<'a>]), ParseError>
    ensures { Gives (λ x. (stmt x.0, words x.1.now)) result
        (entry_at line (option_map string_bytes bound) way (words tokens.now)) }
{
    let (callee, rest) = name(alloc, tokens)?;
    let (arguments, rest) = arguments(alloc, rest)?;
    let rest = mark(rest, Mark::Semicolon)?;
    let statement = Statement::Enter(line, bound, way, callee, arguments);
    Ok((statement, rest))
}

#[tactic(auto, unfolding(crate::specs::Reading::value_at))]
fn value<'a, 'b>(
    alloc: Global,
    line: u32,
    x: String,
    tokens: &'b [Placed<'a>],
) -> Result<(Statement, &'b [Placed<'a>]), ParseError>
    ensures { Gives (λ x. (stmt x.0, words x.1.now)) result (value_at line (string_bytes x) (words tokens.now)) }
{
    let (value, rest) = whole(alloc, tokens)?;
    match mark(rest, Mark::Semicolon) {
        Err(stop) => Err(without(value, stop)),
        Ok(rest) => Ok((Statement::Bind(line, x, value), rest)),
    }
}

#[tactic(auto, unfolding(crate::specs::Reading::read_at))]
fn reading<'a, 'b>(
    alloc: Global,
    line: u32,
    x: String,
    tokens: &'b [Placed<'a>],
) -> Result<(Statement, &'b [Placed<'a>]), ParseError>
    ensures { Gives (λ x. (stmt x.0, words x.1.now)) result (read_at line (string_bytes x) (words tokens.now)) }
{
    let (reducer, rest) = name(alloc, tokens)?;
    let rest = mark(rest, Mark::Semicolon)?;
    Ok((Statement::Read(line, x, reducer), rest))
}

#[tactic(auto, unfolding(crate::specs::Reading::bound_at))]
fn bound<'a, 'b>(
    alloc: Global,
    line: u32,
    x: String,
    tokens: &'b [Placed<'a>],
) -> Result<(Statement, &'b [Placed<'a>]), ParseError>
    ensures { Gives (λ x. (stmt x.0, words x.1.now)) result (bound_at line (string_bytes x) (words tokens.now)) }
{
    if starts(tokens, Mark::Read) {
        return reading(alloc, line, x, rest_of(tokens));
    }
    match way_of(tokens) {
        Some(way) => entry(alloc, line, Some(x), way, rest_of(tokens)),
        None => value(alloc, line, x, tokens),
    }
}

/// Behind the name that is bound.
#[tactic(auto, unfolding(crate::specs::Reading::bind_at))]
pub(crate) fn bind<'a, 'b>(
    alloc: Global,
    line: u32,
    x: String,
    tokens: &'b [Placed<'a>],
) -> Result<(Statement, &'b [Placed<'a>]), ParseError>
    ensures { Gives (λ x. (stmt x.0, words x.1.now)) result
        (bind_at line (string_bytes x) (words tokens.now)) }
{
    let rest = mark(tokens, Mark::Assign)?;
    bound(alloc, line, x, rest)
}

/// Behind `update`.
#[tactic(auto, unfolding(crate::specs::Reading::update_at))]
pub(crate) fn update<'a, 'b>(
    alloc: Global,
    line: u32,
    tokens: &'b [Placed<'a>],
) -> Result<(Statement, &'b [Placed<'a>]), ParseError>
    ensures { Gives (λ x. (stmt x.0, words x.1.now)) result (update_at line (words tokens.now)) }
{
    let (reducer, rest) = name(alloc, tokens)?;
    let (numbers, rest) = expressions(alloc, rest)?;
    let rest = mark(rest, Mark::Semicolon)?;
    Ok((Statement::Update(line, reducer, numbers), rest))
}

/// Behind `return`.
#[tactic(auto, unfolding(crate::specs::Reading::return_at))]
pub(crate) fn return_value<'a, 'b>(
    alloc: Global,
    line: u32,
    tokens: &'b [Placed<'a>],
) -> Result<(Statement, &'b [Placed<'a>]), ParseError>
    ensures { Gives (λ x. (stmt x.0, words x.1.now)) result (return_at line (words tokens.now)) }
{
    let (value, rest) = whole(alloc, tokens)?;
    match mark(rest, Mark::Semicolon) {
        Err(stop) => Err(without(value, stop)),
        Ok(rest) => Ok((Statement::Return(line, value), rest)),
    }
}

#[tactic(auto, unfolding(crate::specs::Reading::grain_at))]
fn grain<'a, 'b>(tokens: &'b [Placed<'a>]) -> Result<(u64, &'b [Placed<'a>]), ParseError>
    ensures exact { Gives (λ x. (x.0, words x.1.now)) result (grain_at (words tokens.now)) }
    ensures small { IfOk result (λ x. x.0 ≤ 65536) }
{
    if !starts(tokens, Mark::Grain) {
        return Ok((1, tokens));
    }
    within(1, 65536, rest_of(tokens))
}

/// The two ends of a range.
#[derive(Drop)]
struct Ends {
    low: Expr,
    high: Expr,
}

fn high_end<'a, 'b>(
    alloc: Global,
    tokens: &'b [Placed<'a>],
) -> Result<(Expr, &'b [Placed<'a>]), ParseError>
    ensures { Gives (λ x. (phrase x.0, words x.1.now)) result (high_at (words tokens.now)) }
{
    let rest = mark(tokens, Mark::Range)?;
    whole(alloc, rest)
}

#[tactic(auto, unfolding(crate::specs::Reading::range_at))]
fn range<'a, 'b>(
    alloc: Global,
    tokens: &'b [Placed<'a>],
) -> Result<(Ends, &'b [Placed<'a>]), ParseError>
    ensures { Gives (λ x. (ends x.0, words x.1.now)) result (range_at (words tokens.now)) }
{
    let (low, rest) = whole(alloc, tokens)?;
    match high_end(alloc, rest) {
        Err(stop) => Err(without(low, stop)),
        Ok((high, rest)) => Ok((Ends { low, high }, rest)),
    }
}

/// Behind a range: the grain, the procedure and the arguments.
#[tactic(auto, unfolding(crate::specs::Reading::iteration_at))]
fn turns<'a, 'b>(
    alloc: Global,
    tokens: &'b [Placed<'a>],
) -> Result<((u32, String, Vec<Expr>), &'b [Placed<'a>]), ParseError>
    ensures { (line : ℕ) (x : List ℕ) (range : Phrase × Phrase)
        → Gives (λ t. (Loops line x range.0 range.1 t.0.0 (string_bytes t.0.1) (phrases t.0.2.items), words t.1.now)) result
        (iteration_at line x range (words tokens.now)) }
{
    let (grain, rest) = grain(tokens)?;
    let rest = mark(rest, Mark::Colon)?;
    let (callee, rest) = name(alloc, rest)?;
    let (arguments, rest) = arguments(alloc, rest)?;
    let rest = mark(rest, Mark::Semicolon)?;
    Ok(((grain as u32, callee, arguments), rest))
}

/// Behind `cilk_for`.
#[tactic(auto, unfolding(crate::specs::Reading::loop_at))]
pub(crate) fn looping<'a, 'b>(
    alloc: Global,
    line: u32,
    tokens: &'b [Placed<'a>],
) -> Result<(Statement, &'b [Placed<'a>]), ParseError>
    ensures { Gives (λ x. (stmt x.0, words x.1.now)) result (loop_at line (words tokens.now)) }
{
    let (x, rest) = name(alloc, tokens)?;
    let rest = mark(rest, Mark::In)?;
    let (range, rest) = range(alloc, rest)?;
    match turns(alloc, rest) {
        Err(stop) => Err(without(range, stop)),
        Ok((turns, rest)) => {
            let (grain, callee, arguments) = turns;
            let (low, high) = (range.low, range.high);
            let statement = Statement::Loop(line, x, low, high, grain, callee, arguments);
            Ok((statement, rest))
        }
    }
}
