//! What stands at the front of the tokens.

ghost use Rattle.std.specs.Prelude.{string_bytes, ◌≡◌, ◌≤◌, ◌-◌, ◌<◌, length, IfOk, IfSome, map, option_map, Option, Some, None, false};
ghost use Rattle.token_scanner.specs.Words.{words, starts, rest, front_name, front_number, front_count, line_of, ended, starts_name, starts_over};
ghost use Rattle.token_readers.specs.Reading.{Gives, name_at, mark_at, within_of, within_at, word_at, comparison, additive, multiplicative, way_of};

use crate::fault::ParseError;
use meaning::tree::{Operator, Way};
use plain_rules::limits::is_within;
use std::alloc::Global;
use token_scanner::{Mark, Placed, Token, same};

/// Whether the first token is this mark.
pub fn starts(tokens: &[Placed], mark: Mark) -> bool
    ensures { result ≡ starts mark (words tokens.now) }
{
    if tokens.is_empty() {
        return false;
    }
    match tokens[0].token {
        Token::Sign(m) => same(m, mark),
        _ => false,
    }
}

/// The name in front.
pub fn front_name<'a>(tokens: &[Placed<'a>]) -> Option<&'a str>
    ensures { option_map (λ x. x.now) result ≡ front_name (words tokens.now) }
{
    if tokens.is_empty() {
        return None;
    }
    let first = tokens[0];
    match first.token {
        Token::Name(x) => Some(x),
        _ => None,
    }
}

/// The number in front.
pub fn front_number(tokens: &[Placed]) -> Option<i64>
    ensures { result ≡ front_number (words tokens.now) }
{
    if tokens.is_empty() {
        return None;
    }
    match tokens[0].token {
        Token::Number(n) => Some(n),
        _ => None,
    }
}

/// The number in front, where it is none below 0.
fn front_count(tokens: &[Placed]) -> Option<u64>
    ensures { result ≡ front_count (words tokens.now) }
{
    match front_number(tokens) {
        Some(n) => { if n < 0 { None } else { Some(n as u64) } }
        None => None,
    }
}

/// The tokens behind the first; none behind none.
pub fn rest_of<'a, 'b>(tokens: &'b [Placed<'a>]) -> &'b [Placed<'a>]
    ensures { words result.now ≡ rest (words tokens.now) }
{
    if tokens.is_empty() {
        tokens
    } else {
        &tokens[1..]
    }
}

/// The tokens behind a mark that has to come; stuck before any other.
#[tactic(auto, unfolding(crate::specs::Reading::mark_at))]
pub fn mark<'a, 'b>(tokens: &'b [Placed<'a>], mark: Mark) -> Result<&'b [Placed<'a>], ParseError>
    ensures { Gives (λ x. words x.now) result (mark_at mark (words tokens.now)) }
{
    if starts(tokens, mark) {
        Ok(rest_of(tokens))
    } else {
        Err(ParseError::Stuck(tokens.len()))
    }
}

/// A name that has to come, and the tokens behind it; stuck before any other token, or out of memory.
#[tactic(auto, unfolding(crate::specs::Reading::name_at))]
pub fn name<'a, 'b>(
    alloc: Global,
    tokens: &'b [Placed<'a>],
) -> Result<(String, &'b [Placed<'a>]), ParseError>
    ensures { Gives (λ x. (string_bytes x.0, words x.1.now)) result (name_at (words tokens.now)) }
{
    match front_name(tokens) {
        None => Err(ParseError::Stuck(tokens.len())),
        Some(x) => Ok((String::from_str(alloc, x)?, rest_of(tokens))),
    }
}

#[tactic(auto, unfolding(crate::specs::Reading::within_of))]
fn within_of(low: u64, high: u64, tokens: &[Placed]) -> Option<u64>
    ensures exact { result ≡ within_of low high (words tokens.now) }
    ensures within { IfSome result (λ n. (low ≤ n) × (n ≤ high)) }
{
    match front_count(tokens) {
        Some(n) => {
            if is_within(low, high, n) {
                Some(n)
            } else {
                None
            }
        }
        None => None,
    }
}

/// A number from `low` to `high`, and the tokens behind it; stuck before any other token.
#[tactic(auto, unfolding(crate::specs::Reading::within_at))]
pub fn within<'a, 'b>(
    low: u64,
    high: u64,
    tokens: &'b [Placed<'a>],
) -> Result<(u64, &'b [Placed<'a>]), ParseError>
    ensures exact { Gives (λ x. (x.0, words x.1.now)) result
        (within_at low high (words tokens.now)) }
    ensures within { IfOk result (λ x. (low ≤ x.0) × (x.0 ≤ high)) }
{
    match within_of(low, high, tokens) {
        None => Err(ParseError::Stuck(tokens.len())),
        Some(n) => Ok((n, rest_of(tokens))),
    }
}

/// Whether the first token is this name.
pub fn starts_name(tokens: &[Placed], name: &str) -> bool
    ensures { result ≡ starts_name name.now (words tokens.now) }
{
    match front_name(tokens) {
        None => false,
        Some(x) => x == name,
    }
}

/// The tokens behind a word that is no keyword; stuck before any other token.
#[tactic(auto, unfolding(crate::specs::Reading::word_at))]
pub fn word<'a, 'b>(tokens: &'b [Placed<'a>], word: &str) -> Result<&'b [Placed<'a>], ParseError>
    ensures { Gives (λ x. words x.now) result (word_at word.now (words tokens.now)) }
{
    if starts_name(tokens, word) {
        Ok(rest_of(tokens))
    } else {
        Err(ParseError::Stuck(tokens.len()))
    }
}

/// The comparison in front.
#[tactic(auto, unfolding(crate::specs::Reading::comparison))]
pub fn comparison(tokens: &[Placed]) -> Option<Operator>
    ensures { result ≡ comparison (words tokens.now) }
{
    if starts(tokens, Mark::Equal) {
        Some(Operator::Equal)
    } else if starts(tokens, Mark::Unequal) {
        Some(Operator::Unequal)
    } else if starts(tokens, Mark::Less) {
        Some(Operator::Less)
    } else if starts(tokens, Mark::AtMost) {
        Some(Operator::AtMost)
    } else if starts(tokens, Mark::Greater) {
        Some(Operator::Greater)
    } else if starts(tokens, Mark::AtLeast) {
        Some(Operator::AtLeast)
    } else {
        None
    }
}

/// The `+` or `-` in front.
#[tactic(auto, unfolding(crate::specs::Reading::additive))]
pub fn additive(tokens: &[Placed]) -> Option<Operator>
    ensures { result ≡ additive (words tokens.now) }
{
    if starts(tokens, Mark::Plus) {
        Some(Operator::Add)
    } else if starts(tokens, Mark::Minus) {
        Some(Operator::Subtract)
    } else {
        None
    }
}

/// The `*`, `/` or `%` in front.
#[tactic(auto, unfolding(crate::specs::Reading::multiplicative))]
pub fn multiplicative(tokens: &[Placed]) -> Option<Operator>
    ensures { result ≡ multiplicative (words tokens.now) }
{
    if starts(tokens, Mark::Star) {
        Some(Operator::Multiply)
    } else if starts(tokens, Mark::Slash) {
        Some(Operator::Divide)
    } else if starts(tokens, Mark::Percent) {
        Some(Operator::Remainder)
    } else {
        None
    }
}

/// The line of the first token; 0 where there is none.
pub fn line_of(tokens: &[Placed]) -> u32
    ensures { result ≡ line_of (words tokens.now) }
{
    if tokens.is_empty() { 0 } else { tokens[0].line }
}

/// The `call` or `spawn` in front.
#[tactic(auto, unfolding(crate::specs::Reading::way_of))]
pub fn way_of(tokens: &[Placed]) -> Option<Way>
    ensures { result ≡ way_of (words tokens.now) }
{
    if starts(tokens, Mark::Call) {
        Some(Way::Call)
    } else if starts(tokens, Mark::Spawn) {
        Some(Way::Spawn)
    } else {
        None
    }
}

/// How many tokens are left. None of them is the one that stands for one too many.
pub fn left(tokens: &[Placed]) -> usize
    ensures count { result ≡ length (words tokens.now) }
    ensures never { starts_over (words tokens.now) ≡ false }
{
    tokens.len()
}

/// Whether no token is left.
pub fn ended(tokens: &[Placed]) -> bool
    ensures { result ≡ ended (words tokens.now) }
{
    match tokens {
        [] => true,
        [_, ..] => false,
    }
}
