//! Reads the numbers of initial values.

ghost use Rattle.std.specs.Prelude.{◌≡◌, ◌≤◌, ◌++◌, ◌∷◌, [], OnOk, pos, neg_ℤ};
ghost use Rattle.token_scanner.specs.Words.{words};
ghost use Rattle.token_readers.specs.Limits.{most_number};
ghost use Rattle.token_readers.specs.Reading.{Gives};
ghost use Rattle.procedure_parser.specs.Reading.{with_front, minus_at, signed_at, more_signed_at, signeds_at, initial_at};

use std::alloc::{AllocError, Global};
use token_readers::{
    MOST_INITIAL, MOST_NUMBER, ParseError, left as left_of, rest_of, starts, starts_name, within,
};
use token_scanner::{Mark, Placed};

fn above_zero(number: u64) -> i64
    requires { number ≤ most_number }
    ensures { result ≡ pos number }
{
    number as i64
}

fn below_zero(number: u64) -> i64
    requires { number ≤ most_number }
    ensures { result ≡ neg_ℤ (pos number) }
{
    -above_zero(number)
}

#[tactic(auto, unfolding(crate::specs::Reading::minus_at))]
fn minus<'a, 'b>(tokens: &'b [Placed<'a>]) -> Result<(i64, &'b [Placed<'a>]), ParseError>
    ensures { Gives (λ x. (x.0, words x.1.now)) result (minus_at (words tokens.now)) }
{
    let (number, rest) = within(0, MOST_NUMBER, tokens)?;
    Ok((below_zero(number), rest))
}

#[tactic(auto, unfolding(crate::specs::Reading::signed_at))]
fn signed<'a, 'b>(tokens: &'b [Placed<'a>]) -> Result<(i64, &'b [Placed<'a>]), ParseError>
    ensures { Gives (λ x. (x.0, words x.1.now)) result (signed_at (words tokens.now)) }
{
    if starts(tokens, Mark::Minus) {
        return minus(rest_of(tokens));
    }
    let (number, rest) = within(0, MOST_NUMBER, tokens)?;
    Ok((above_zero(number), rest))
}

fn beginning<'a, 'b>(all: Vec<i64>, tokens: &'b [Placed<'a>]) -> (Vec<i64>, &'b [Placed<'a>])
    ensures all { result.0 ≡ all }
    ensures rest { result.1.now ≡ tokens.now }
{
    (all, tokens)
}

fn push_number(all: &mut Vec<i64>, number: i64) -> Result<(), AllocError>
    ensures { OnOk result (all.new.items ≡ all.old.items ++ number ∷ []) }
{
    all.push(number)?;
    Ok(())
}

/// The numbers behind the first, of which so many may come.
fn more_signed<'a, 'b>(
    most: usize,
    all: Vec<i64>,
    tokens: &'b [Placed<'a>],
) -> Result<(Vec<i64>, &'b [Placed<'a>]), ParseError>
    ensures { Gives (λ x. (x.0.items, words x.1.now)) result (with_front all.items (more_signed_at most (words tokens.now))) }
{
    let (mut all, mut rest) = beginning(all, tokens);
    for _ in 0..most {
        if !starts(rest, Mark::Comma) {
            return Ok((all, rest));
        }
        let (next, after) = signed(rest_of(rest))?;
        push_number(&mut all, next)?;
        rest = after;
    }
    no_more(all, rest)
}

/// The numbers, behind which no more may come.
#[tactic(auto, unfolding(crate::specs::Reading::more_signed_at, crate::specs::Reading::over_as))]
fn no_more<'a, 'b>(
    all: Vec<i64>,
    tokens: &'b [Placed<'a>],
) -> Result<(Vec<i64>, &'b [Placed<'a>]), ParseError>
    ensures { Gives (λ x. (x.0.items, words x.1.now)) result (with_front all.items (more_signed_at 0 (words tokens.now))) }
{
    if starts(tokens, Mark::Comma) {
        Err(ParseError::Stuck(left_of(rest_of(tokens))))
    } else {
        Ok((all, tokens))
    }
}

#[tactic(auto, unfolding(crate::specs::Reading::signeds_at))]
fn numbers<'a, 'b>(
    alloc: Global,
    tokens: &'b [Placed<'a>],
) -> Result<(Vec<i64>, &'b [Placed<'a>]), ParseError>
    ensures { Gives (λ x. (x.0.items, words x.1.now)) result (signeds_at (words tokens.now)) }
{
    let (first, rest) = signed(tokens)?;
    let mut all = Vec::new(alloc);
    push_number(&mut all, first)?;
    more_signed(MOST_INITIAL - 1, all, rest)
}

/// The numbers of an initial value, behind a kind; none where there is no `from`.
#[tactic(auto, unfolding(crate::specs::Reading::initial_at))]
pub(crate) fn initial<'a, 'b>(
    alloc: Global,
    tokens: &'b [Placed<'a>],
) -> Result<(Vec<i64>, &'b [Placed<'a>]), ParseError>
    ensures { Gives (λ x. (x.0.items, words x.1.now)) result (initial_at (words tokens.now)) }
{
    if starts_name(tokens, "from") {
        numbers(alloc, rest_of(tokens))
    } else {
        Ok((Vec::new(alloc), tokens))
    }
}
