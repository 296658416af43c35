//! Reads texts that define procedures of a program.

ghost use Rattle.std.specs.Prelude.{◌≡◌, IfOk};
ghost use Rattle.token_scanner.specs.Words.{words, line_of, rest};
ghost use Rattle.source_tree.specs.Source.{decl, source};
ghost use Rattle.token_readers.specs.Reading.{Gives};
ghost use Rattle.procedure_parser.specs.Reading.{with_front};
ghost use Rattle.procedure_parser.specs.Defining.{behind_name_at, named_at, one_at, procedures_at, defining_at, definition_at};
ghost use Rattle.token_readers.specs.Seen as seen;

use crate::block::block;
use crate::declaration::{parameters, procedure_word, starts_procedure};
use source_tree::{Declaration, Procedure};
use std::alloc::Global;
use token_readers::{
    MOST_NESTED, ParseError, Room, ended, front_name, left, line_of, rest_of, room_behind, turns_of,
};
use token_scanner::Placed;

#[tactic(auto, unfolding(crate::specs::Defining::behind_name_at))]
fn behind_name<'a, 'b>(
    alloc: Global,
    line: u32,
    memo: bool,
    name: &str,
    tokens: &'b [Placed<'a>],
) -> Result<(Declaration, &'b [Placed<'a>]), ParseError>
    ensures { Gives (λ x. (decl x.0, words x.1.now)) result (behind_name_at line memo name.now (words tokens.now)) }
{
    let (parameters, rest) = parameters(alloc, tokens)?;
    let (body, rest) = block(alloc, MOST_NESTED, rest)?;
    let procedure = Procedure {
        line,
        memo,
        name: String::from_str(alloc, name)?,
        parameters,
        body,
    };
    Ok((Declaration::Procedure(procedure), rest))
}

#[cycle(defining)]
#[tactic(auto, unfolding(crate::specs::Defining::named_at, crate::specs::Defining::nameless_at, crate::specs::Reading::over_as))]
fn named<'a, 'b>(
    alloc: Global,
    turns: usize,
    room: Room,
    line: u32,
    memo: bool,
    mut all: Vec<Declaration>,
    tokens: &'b [Placed<'a>],
) -> Result<(Vec<Declaration>, &'b [Placed<'a>]), ParseError>
    ensures { Gives (λ x. (source x.0.items, words x.1.now)) result
        (with_front (source all.items) (named_at (seen.room room) (procedures_at turns) line memo (words tokens.now))) }
{
    let Some(name) = front_name(tokens) else {
        return Err(ParseError::Stuck(left(tokens)));
    };
    let Some(room) = room_behind(room, name) else {
        return Err(ParseError::Stuck(tokens.len()));
    };
    let (next, rest) = behind_name(alloc, line, memo, name, rest_of(tokens))?;
    all.push(next)?;
    procedures(alloc, turns, room, all, rest)
}

#[cycle(defining)]
#[tactic(auto, unfolding(crate::specs::Defining::one_at))]
fn one<'a, 'b>(
    alloc: Global,
    turns: usize,
    room: Room,
    all: Vec<Declaration>,
    tokens: &'b [Placed<'a>],
) -> Result<(Vec<Declaration>, &'b [Placed<'a>]), ParseError>
    ensures { Gives (λ x. (source x.0.items, words x.1.now)) result
        (with_front (source all.items) (one_at (seen.room room) (procedures_at turns) (words tokens.now))) }
{
    let (memo, rest) = procedure_word(tokens)?;
    named(alloc, turns, room, line_of(tokens), memo, all, rest)
}

#[cycle(defining)]
#[tactic(auto, unfolding(crate::specs::Defining::procedures_at))]
fn procedures<'a, 'b>(
    alloc: Global,
    turns: usize,
    room: Room,
    all: Vec<Declaration>,
    tokens: &'b [Placed<'a>],
) -> Result<(Vec<Declaration>, &'b [Placed<'a>]), ParseError>
    ensures { Gives (λ x. (source x.0.items, words x.1.now)) result (with_front (source all.items) (procedures_at turns (seen.room room) (words tokens.now))) }
{
    if turns == 0 {
        return Err(ParseError::Stuck(tokens.len()));
    }
    if starts_procedure(tokens) {
        return one(alloc, turns - 1, room, all, tokens);
    }
    Ok((all, tokens))
}

#[tactic(auto, unfolding(crate::specs::Defining::defining_at))]
fn defining<'a, 'b>(
    alloc: Global,
    room: Room,
    tokens: &'b [Placed<'a>],
) -> Result<(Vec<Declaration>, &'b [Placed<'a>]), ParseError>
    ensures { Gives (λ x. (source x.0.items, words x.1.now)) result (defining_at (seen.room room) (words tokens.now)) }
{
    if !starts_procedure(tokens) {
        return Err(ParseError::Stuck(tokens.len()));
    }
    let turns = turns_of(&room);
    one(alloc, turns, room, Vec::new(alloc), tokens)
}

/// The procedures that the tokens define, where there is such room for them.
#[tactic(auto, unfolding(crate::specs::Defining::definition_at))]
pub(crate) fn definition(
    alloc: Global,
    room: Room,
    tokens: &[Placed],
) -> Result<Vec<Declaration>, ParseError>
    ensures { Gives (λ x. source x.items) result
        (definition_at (seen.room room) (words tokens.now)) }
{
    let (all, rest) = defining(alloc, room, tokens)?;
    if !ended(rest) {
        return Err(ParseError::Stuck(rest.len()));
    }
    Ok(all)
}
