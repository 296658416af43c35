// Numbers of a script: an optional `-` and decimal digits, of 64 bits.
ghost use Rattle.std.specs.Prelude.{◌≡◌, ◌≤◌, IfOk, option_map, neg_ℤ, pos};
ghost use Rattle.meaning.specs.Script.{is_digit, digits_up_to, number_of, numbers_of};
ghost use Rattle.script_lines.specs.Words.{bytes_of};
ghost use Rattle.script_reader.specs.Digits.{with_digit};

use std::alloc::{AllocError, Global};

fn is_digit(byte: u8) -> bool
    ensures { result ≡ is_digit byte }
{
    48 <= byte && byte <= 57
}

// What a value becomes by one more digit, if it stays within the limit.
fn with_digit(limit: u64, value: u64, byte: u8) -> Option<u64>
    requires { limit ≤ 9223372036854775808 }
    ensures { result ≡ with_digit limit value byte }
{
    if !is_digit(byte) {
        return None;
    }
    if value > 922337203685477580 {
        return None;
    }
    let more = value * 10 + (byte - 48) as u64;
    if more > limit { None } else { Some(more) }
}

// The number that is written by one digit or more, if it is at most this limit.
fn digits_up_to(limit: u64, digits: &[u8]) -> Option<u64>
    requires { limit ≤ 9223372036854775808 }
    ensures { result ≡ digits_up_to limit digits.now }
{
    if digits.is_empty() {
        return None;
    }
    let mut value = 0;
    for digit in digits {
        match with_digit(limit, value, *digit) {
            None => return None,
            Some(more) => value = more,
        }
    }
    Some(value)
}

// The number behind a `-`.
fn negative(digits: &[u8]) -> Option<i64>
    ensures { result ≡ option_map (λ n. neg_ℤ (pos n)) (digits_up_to 9223372036854775808 digits.now) }
{
    match digits_up_to(9223372036854775808, digits) {
        None => None,
        Some(9223372036854775808) => Some(i64::MIN),
        Some(number) => Some(-(number as i64)),
    }
}

// The number of digits alone.
fn positive(digits: &[u8]) -> Option<i64>
    ensures { result ≡ option_map pos (digits_up_to 9223372036854775807 digits.now) }
{
    match digits_up_to(9223372036854775807, digits) {
        None => None,
        Some(number) => Some(number as i64),
    }
}

/// The number that a word is, if it is one.
pub(crate) fn number(word: &[u8]) -> Option<i64>
    ensures { result ≡ number_of word.now }
{
    match word {
        [b'-', digits @ ..] => negative(digits),
        _ => positive(word),
    }
}

/// The numbers that words are, if each is one. Want of memory is the only error.
pub(crate) fn numbers(alloc: Global, words: &[&[u8]]) -> Result<Option<Vec<i64>>, AllocError>
    ensures { IfOk result (λ found.
        option_map (λ values. values.items) found ≡ numbers_of (bytes_of words.now)) }
{
    let mut found = Vec::new(alloc);
    for word in words {
        match number(*word) {
            None => return Ok(None),
            Some(value) => found.push(value)?,
        }
    }
    Ok(Some(found))
}
