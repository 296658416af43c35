//! Reads declarations, up to a whole text.

ghost use Rattle.std.specs.Prelude.{string_bytes, ◌≡◌, ◌≤◌, ◌-◌, ◌<◌, ◌+◌, length, Option, Some, None, Bool, [], ◌∷◌, Ok};
ghost use Rattle.token_scanner.specs.Words.{words, rest, line_of, starts};
ghost use Rattle.source_tree.specs.Source.{stmts, texts, decl, source};
ghost use Rattle.token_readers.specs.Reading.{Gives};
ghost use Rattle.procedure_parser.specs.Reading.{with_front, over_as, reducer_at, more_params_at, params_at, procedure_at};
ghost use Rattle.procedure_parser.specs.Reading.{procedure_word_at, starts_procedure, counted, worded, declarations_at, program_at};
ghost use Rattle.procedure_parser.specs.Reading.{text_at};

use crate::block::block;
use crate::initial::initial;
use crate::kinds::kind;
use source_tree::{Declaration, Procedure, Reducer};
use std::alloc::Global;
use token_readers::{
    MOST_NESTED, MOST_PARAMETERS, MOST_PROCEDURES, MOST_REDUCERS, ParseError, ended,
    left as left_of, line_of, mark, name, rest_of, starts,
};
use token_scanner::{Mark, Placed};

/// How many turns read as many declarations, and find that no more come.
const MOST_TURNS: usize = MOST_REDUCERS + MOST_PROCEDURES + 1;

#[tactic(auto, unfolding(crate::specs::Reading::reducer_at))]
fn reducer<'a, 'b>(
    alloc: Global,
    line: u32,
    tokens: &'b [Placed<'a>],
) -> Result<(Declaration, &'b [Placed<'a>]), ParseError>
    ensures { Gives (λ x. (decl x.0, words x.1.now)) result (reducer_at line (words tokens.now)) }
{
    let (name, rest) = name(alloc, tokens)?;
    let rest = mark(rest, Mark::Colon)?;
    let (kind, rest) = kind(alloc, rest)?;
    let (initial, rest) = initial(alloc, rest)?;
    let rest = mark(rest, Mark::Semicolon)?;
    let reducer = Reducer {
        line,
        name,
        kind,
        initial,
    };
    Ok((Declaration::Reducer(reducer), rest))
}

#[tactic(auto, unfolding(crate::specs::Reading::more_params_at, crate::specs::Reading::over_as))]
fn more_parameters<'a, 'b>(
    alloc: Global,
    left: usize,
    mut all: Vec<String>,
    tokens: &'b [Placed<'a>],
) -> Result<(Vec<String>, &'b [Placed<'a>]), ParseError>
    ensures { Gives (λ x. (texts x.0.items, words x.1.now)) result (with_front (texts all.items) (more_params_at left (words tokens.now))) }
{
    if !starts(tokens, Mark::Comma) {
        return Ok((all, tokens));
    }
    let rest = rest_of(tokens);
    if left == 0 {
        return Err(ParseError::Stuck(left_of(rest)));
    }
    let (parameter, rest) = name(alloc, rest)?;
    all.push(parameter)?;
    more_parameters(alloc, left - 1, all, rest)
}

/// A procedure's parameters in parentheses, and the tokens after them.
#[tactic(auto, unfolding(crate::specs::Reading::params_at))]
pub(crate) fn parameters<'a, 'b>(
    alloc: Global,
    tokens: &'b [Placed<'a>],
) -> Result<(Vec<String>, &'b [Placed<'a>]), ParseError>
    ensures { Gives (λ x. (texts x.0.items, words x.1.now)) result (params_at (words tokens.now)) }
{
    let rest = mark(tokens, Mark::OpenParen)?;
    if starts(rest, Mark::CloseParen) {
        return Ok((Vec::new(alloc), rest_of(rest)));
    }
    let (first, rest) = name(alloc, rest)?;
    let mut all = Vec::new(alloc);
    all.push(first)?;
    let (all, rest) = more_parameters(alloc, MOST_PARAMETERS - 1, all, rest)?;
    let rest = mark(rest, Mark::CloseParen)?;
    Ok((all, rest))
}

#[tactic(auto, unfolding(crate::specs::Reading::procedure_at))]
fn procedure<'a, 'b>(
    alloc: Global,
    line: u32,
    memo: bool,
    tokens: &'b [Placed<'a>],
) -> Result<(Declaration, &'b [Placed<'a>]), ParseError>
    ensures { Gives (λ x. (decl x.0, words x.1.now)) result (procedure_at line memo (words tokens.now)) }
{
    let (name, rest) = name(alloc, tokens)?;
    let (parameters, rest) = parameters(alloc, rest)?;
    let (body, rest) = block(alloc, MOST_NESTED, rest)?;
    let procedure = Procedure {
        line,
        memo,
        name,
        parameters,
        body,
    };
    Ok((Declaration::Procedure(procedure), rest))
}

/// The words in front of a procedure's name: whether it is marked memo.
#[tactic(auto, unfolding(crate::specs::Reading::procedure_word_at))]
pub(crate) fn procedure_word<'a, 'b>(
    tokens: &'b [Placed<'a>],
) -> Result<(bool, &'b [Placed<'a>]), ParseError>
    ensures { Gives (λ x. (x.0, words x.1.now)) result (procedure_word_at (words tokens.now)) }
{
    if starts(tokens, Mark::Memo) {
        let rest = mark(rest_of(tokens), Mark::Proc)?;
        return Ok((true, rest));
    }
    let rest = mark(tokens, Mark::Proc)?;
    Ok((false, rest))
}

/// Whether a procedure begins here.
pub(crate) fn starts_procedure(tokens: &[Placed]) -> bool
    ensures { result ≡ starts_procedure (words tokens.now) }
{
    starts(tokens, Mark::Memo) || starts(tokens, Mark::Proc)
}

#[cycle(declaring)]
#[tactic(auto, unfolding(crate::specs::Reading::declarations_at, crate::specs::Reading::over_as))]
fn with_reducer<'a, 'b>(
    alloc: Global,
    turns: usize,
    reducers: usize,
    procedures: usize,
    mut all: Vec<Declaration>,
    tokens: &'b [Placed<'a>],
) -> Result<(Vec<Declaration>, &'b [Placed<'a>]), ParseError>
    ensures { Gives (λ x. (source x.0.items, words x.1.now)) result
        (with_front (source all.items) (counted reducers (reducer_at (line_of (words tokens.now)))
        (declarations_at turns (reducers - 1) procedures) (rest (words tokens.now)))) }
{
    let rest = rest_of(tokens);
    if reducers == 0 {
        return Err(ParseError::Stuck(left_of(rest)));
    }
    let (next, rest) = reducer(alloc, line_of(tokens), rest)?;
    all.push(next)?;
    declarations(alloc, turns, reducers - 1, procedures, all, rest)
}

#[cycle(declaring)]
#[tactic(auto, unfolding(crate::specs::Reading::declarations_at, crate::specs::Reading::over_as))]
fn with_procedure<'a, 'b>(
    alloc: Global,
    turns: usize,
    reducers: usize,
    procedures: usize,
    mut all: Vec<Declaration>,
    tokens: &'b [Placed<'a>],
) -> Result<(Vec<Declaration>, &'b [Placed<'a>]), ParseError>
    ensures { Gives (λ x. (source x.0.items, words x.1.now)) result
        (with_front (source all.items) (worded procedures (declarations_at turns reducers (procedures - 1)) (line_of (words tokens.now))
        (words tokens.now))) }
{
    let (memo, rest) = procedure_word(tokens)?;
    if procedures == 0 {
        return Err(ParseError::Stuck(left_of(rest)));
    }
    let (next, rest) = procedure(alloc, line_of(tokens), memo, rest)?;
    all.push(next)?;
    declarations(alloc, turns, reducers, procedures - 1, all, rest)
}

#[cycle(declaring)]
#[tactic(auto, unfolding(crate::specs::Reading::declarations_at))]
fn declarations<'a, 'b>(
    alloc: Global,
    turns: usize,
    reducers: usize,
    procedures: usize,
    all: Vec<Declaration>,
    tokens: &'b [Placed<'a>],
) -> Result<(Vec<Declaration>, &'b [Placed<'a>]), ParseError>
    ensures { Gives (λ x. (source x.0.items, words x.1.now)) result
        (with_front (source all.items) (declarations_at turns reducers procedures (words tokens.now))) }
{
    if turns == 0 {
        return Err(ParseError::Stuck(tokens.len()));
    }
    if starts(tokens, Mark::Reducer) {
        return with_reducer(alloc, turns - 1, reducers, procedures, all, tokens);
    }
    if starts_procedure(tokens) {
        return with_procedure(alloc, turns - 1, reducers, procedures, all, tokens);
    }
    Ok((all, tokens))
}

#[tactic(auto, unfolding(crate::specs::Reading::program_at))]
fn program<'a, 'b>(
    alloc: Global,
    tokens: &'b [Placed<'a>],
) -> Result<(Vec<Declaration>, &'b [Placed<'a>]), ParseError>
    ensures { Gives (λ x. (source x.0.items, words x.1.now)) result (program_at (words tokens.now)) }
{
    let all = Vec::new(alloc);
    declarations(
        alloc,
        MOST_TURNS,
        MOST_REDUCERS,
        MOST_PROCEDURES,
        all,
        tokens,
    )
}

/// The declarations that the tokens are.
#[tactic(auto, unfolding(crate::specs::Reading::text_at))]
pub fn text(alloc: Global, tokens: &[Placed]) -> Result<Vec<Declaration>, ParseError>
    ensures { Gives (λ x. source x.items) result (text_at (words tokens.now)) }
{
    let (all, rest) = program(alloc, tokens)?;
    if !ended(rest) {
        return Err(ParseError::Stuck(rest.len()));
    }
    Ok(all)
}
