//! Reads the kinds of reducers.

ghost use Rattle.std.specs.Prelude.{◌≡◌, ◌≤◌, ◌-◌, ◌*◌, length, option_map, IfOk};
ghost use Rattle.token_scanner.specs.Words.{words, rest};
ghost use Rattle.source_tree.specs.Kinds.{written};
ghost use Rattle.procedure_parser.specs.KindWords.{simple_kind};
ghost use Rattle.token_readers.specs.Reading.{Gives};
ghost use Rattle.procedure_parser.specs.Reading.{with_front, comma_number_at, more_cells_at, cells_at, table_at, simple_kind_of, sized_kind_at, kind_at};

use monoid_laws::Kind;
use reducer_values::table_of;
use std::alloc::Global;
use token_readers::{ParseError, front_name, mark, rest_of, starts_name, within, word};
use token_scanner::{Mark, Placed};

fn byte_of(number: u64) -> u8
    requires { number ≤ 255 }
    ensures { result ≡ number }
{
    number as u8
}

fn short_of(number: u64) -> u16
    requires { number ≤ 65535 }
    ensures { result ≡ number }
{
    number as u16
}

#[tactic(auto, unfolding(crate::specs::Reading::comma_number_at))]
fn comma_number<'a, 'b>(
    size: u64,
    tokens: &'b [Placed<'a>],
) -> Result<(u64, &'b [Placed<'a>]), ParseError>
    requires { 1 ≤ size }
    ensures exact { Gives (λ x. (x.0, words x.1.now)) result (comma_number_at size (words tokens.now)) }
    ensures within { IfOk result (λ x. x.0 ≤ size - 1) }
{
    let rest = mark(tokens, Mark::Comma)?;
    within(0, size - 1, rest)
}

#[tactic(auto, unfolding(crate::specs::Reading::more_cells_at))]
fn more_cells<'a, 'b>(
    size: u64,
    left: u64,
    mut all: Vec<u8>,
    tokens: &'b [Placed<'a>],
) -> Result<(Vec<u8>, &'b [Placed<'a>]), ParseError>
    requires low { 1 ≤ size }
    requires high { size ≤ 16 }
    ensures { Gives (λ x. (x.0.items, words x.1.now)) result (with_front all.items (more_cells_at size left (words tokens.now))) }
{
    if left == 0 {
        return Ok((all, tokens));
    }
    let (number, rest) = comma_number(size, tokens)?;
    all.push(byte_of(number))?;
    more_cells(size, left - 1, all, rest)
}

#[tactic(auto, unfolding(crate::specs::Reading::cells_at))]
fn cells<'a, 'b>(
    alloc: Global,
    size: u64,
    tokens: &'b [Placed<'a>],
) -> Result<(Vec<u8>, &'b [Placed<'a>]), ParseError>
    requires low { 1 ≤ size }
    requires high { size ≤ 16 }
    ensures { Gives (λ x. (x.0.items, words x.1.now)) result (cells_at size (words tokens.now)) }
{
    let rest = mark(tokens, Mark::OpenBracket)?;
    let (first, rest) = within(0, size - 1, rest)?;
    let mut all = Vec::new(alloc);
    all.push(byte_of(first))?;
    let (all, rest) = more_cells(size, size * size - 1, all, rest)?;
    let rest = mark(rest, Mark::CloseBracket)?;
    Ok((all, rest))
}

#[tactic(auto, unfolding(crate::specs::Reading::table_at))]
fn table<'a, 'b>(
    alloc: Global,
    tokens: &'b [Placed<'a>],
) -> Result<(Kind, &'b [Placed<'a>]), ParseError>
    ensures { Gives (λ x. (written x.0, words x.1.now)) result (table_at (words tokens.now)) }
{
    let (size, rest) = within(1, 16, tokens)?;
    let rest = word(rest, "unit")?;
    let (unit, rest) = within(0, size - 1, rest)?;
    let (numbers, rest) = cells(alloc, size, rest)?;
    let table = table_of(byte_of(size), byte_of(unit), &numbers).unwrap();
    Ok((Kind::Table(table), rest))
}

#[tactic(auto, unfolding(crate::specs::KindWords::simple_kind))]
fn simple_kind(name: &str) -> Option<Kind>
    ensures { option_map written result ≡ simple_kind name.now }
{
    match name {
        "add" => Some(Kind::Add),
        "mul" => Some(Kind::Mul),
        "min" => Some(Kind::Min),
        "max" => Some(Kind::Max),
        "and" => Some(Kind::And),
        "or" => Some(Kind::Or),
        "xor" => Some(Kind::Xor),
        "list" => Some(Kind::List),
        "argmax" => Some(Kind::Argmax),
        "affine" => Some(Kind::Affine),
        "hist" => Some(Kind::Hist),
        _ => None,
    }
}

#[tactic(auto, unfolding(crate::specs::Reading::simple_kind_of))]
fn simple_kind_of(tokens: &[Placed]) -> Option<Kind>
    ensures { option_map written result ≡ simple_kind_of (words tokens.now) }
{
    match front_name(tokens) {
        Some(name) => simple_kind(name),
        None => None,
    }
}

#[tactic(auto, unfolding(crate::specs::Reading::sized_kind_at))]
fn sized_kind<'a, 'b>(
    alloc: Global,
    tokens: &'b [Placed<'a>],
) -> Result<(Kind, &'b [Placed<'a>]), ParseError>
    ensures { Gives (λ x. (written x.0, words x.1.now)) result (sized_kind_at (words tokens.now)) }
{
    if starts_name(tokens, "first") {
        let (most, rest) = within(1, 4096, rest_of(tokens))?;
        return Ok((Kind::First(short_of(most)), rest));
    }
    if starts_name(tokens, "last") {
        let (most, rest) = within(1, 4096, rest_of(tokens))?;
        return Ok((Kind::Last(short_of(most)), rest));
    }
    if starts_name(tokens, "table") {
        return table(alloc, rest_of(tokens));
    }
    Err(ParseError::Stuck(tokens.len()))
}

/// A kind, behind the colon.
#[tactic(auto, unfolding(crate::specs::Reading::kind_at))]
pub(crate) fn kind<'a, 'b>(
    alloc: Global,
    tokens: &'b [Placed<'a>],
) -> Result<(Kind, &'b [Placed<'a>]), ParseError>
    ensures { Gives (λ x. (written x.0, words x.1.now)) result (kind_at (words tokens.now)) }
{
    match simple_kind_of(tokens) {
        Some(kind) => Ok((kind, rest_of(tokens))),
        None => sized_kind(alloc, tokens),
    }
}
