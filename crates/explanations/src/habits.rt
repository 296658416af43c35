//! What is written otherwise here than in most languages, where a text is refused for it.

use crate::hints::hint_at;
use crate::marks::name_before;
use crate::rules::push_line;
use std::alloc::{AllocError, Global};
use text_page::Page;
use token_scanner::{LONGEST_TEXT, Mark, Placed, Token, tokens};

// The greatest number of bytes that a name may have.
const LONGEST_NAME: usize = 32;

const NO_AND: &str =
    "There is no `and` or `&&`: write `(a < b) * (c < d)`, since a comparison gives 1 or 0.";

const NO_OR: &str =
    "There is no `or` or `||`: write `(a < b) + (c < d)`, since a comparison gives 1 or 0.";

const NO_NOT: &str =
    "There is no `not` or `!`: write `(a < b) == 0`, since a comparison gives 1 or 0.";

/// Puts how one does without what the token of that number is in other languages, or is behind the word in front of it, at the end of
/// the text; nothing where it is nothing such. The line is the token's.
pub(crate) fn push_habit(text: &mut Page, tokens: &[Placed], at: usize, line: &[u8]) {
    let Some(refused) = tokens.get(at) else {
        return;
    };
    if let Some(hint) = hint_at(tokens, at) {
        return push_line(text, hint);
    }
    let before = name_before(tokens, at);
    match refused.token {
        Token::Name("and") => push_line(text, NO_AND),
        Token::Name("or") => push_line(text, NO_OR),
        Token::Name("not") => push_line(text, NO_NOT),
        Token::Bad => push_odd_habit(text, line),
        Token::Sign(Mark::OpenParen) if before != "" && before != "not" => {
            text.put_named(
                "  A procedure is entered by `call ",
                before,
                "(..)` or `spawn ",
            );
            text.put(before);
            text.put("(..)`: by itself, or behind a name and `=`.\n");
        }
        _ if before == "not" => push_line(text, NO_NOT),
        _ => {}
    }
}

fn push_odd_habit(text: &mut Page, line: &[u8]) {
    let odd = odd_in(line);
    match odd.first() {
        Some(b'&') => push_line(text, NO_AND),
        Some(b'|') => push_line(text, NO_OR),
        Some(b'!') => push_line(text, NO_NOT),
        Some(b'"' | b'\'') => push_line(
            text,
            "There are no texts: a number stands for each, as `tools/tables_from_csv --code` gives them.",
        ),
        Some(first) if first.is_ascii_digit() => push_line(
            text,
            "The greatest number is 9223372036854775807.",
        ),
        Some(first) if is_of_a_word(*first) => push_line(
            text,
            "A name is a lower-case letter and then lower-case letters, digits and `_`, at most 32 bytes.",
        ),
        _ => {}
    }
}

/// What of a line, comments aside, is no name, number or mark of the language: the first such word, or mark; nothing where there is none.
pub(crate) fn odd_in(line: &[u8]) -> &[u8] {
    let mut word = 0;
    for (at, byte) in line.iter().enumerate() {
        if is_of_a_word(*byte) {
            continue;
        }
        if is_odd_word(slice(line, word, at)) {
            return slice(line, word, at);
        }
        if *byte == b'#' {
            return &[];
        }
        if is_odd_mark(line, at, *byte) {
            return mark_at(line, at, *byte);
        }
        word = at.saturating_add(1);
    }
    let last = slice(line, word, line.len());
    if is_odd_word(last) { last } else { &[] }
}

// The bytes from one place to another; none where there is no such stretch.
fn slice(line: &[u8], from: usize, to: usize) -> &[u8] {
    line.get(from..to).unwrap_or(&[])
}

// Whether a byte can be one of a name or a number, or of what looks like one.
fn is_of_a_word(byte: u8) -> bool {
    byte.is_ascii_alphanumeric() || byte == b'_'
}

// Whether a stretch of such bytes is neither a name nor a number.
fn is_odd_word(word: &[u8]) -> bool {
    match word.first() {
        None => false,
        Some(first) if first.is_ascii_digit() => is_odd_number(word),
        Some(first) => *first == b'_' || word.len() > LONGEST_NAME || has_upper_case(word),
    }
}

fn has_upper_case(word: &[u8]) -> bool {
    for byte in word {
        if byte.is_ascii_uppercase() {
            return true;
        }
    }
    false
}

fn are_digits(word: &[u8]) -> bool {
    for byte in word {
        if !byte.is_ascii_digit() {
            return false;
        }
    }
    true
}

// Whether a stretch that begins with a digit is a number out of its range, or has upper case.
fn is_odd_number(word: &[u8]) -> bool {
    if has_upper_case(word) {
        return true;
    }
    match str::from_utf8(word) {
        Ok(digits) => are_digits(word) && digits.parse::<i64>().is_err(),
        Err(_) => false,
    }
}

// Whether a byte that is no word's begins no mark of the language.
fn is_odd_mark(line: &[u8], at: usize, byte: u8) -> bool {
    match byte {
        b'!' => line.get(at.saturating_add(1)) != Some(&b'='),
        b'"' | b'$' | b'&' | b'\'' | b'?' | b'@' | b'\\' | b'^' | b'`' | b'|' | b'~' => true,
        _ => false,
    }
}

// The mark that begins with that byte, which counts twice where it stands twice.
fn mark_at(line: &[u8], at: usize, byte: u8) -> &[u8] {
    let next = at.saturating_add(1);
    let behind = if line.get(next) == Some(&byte) {
        next.saturating_add(1)
    } else {
        next
    };
    slice(line, at, behind)
}

/// Whether a line binds a name that its own expression uses, as `x = x + 1;` does. Want of memory is the only error.
pub(crate) fn binds_itself(alloc: Global, line: &[u8]) -> Result<bool, AllocError> {
    if line.len() > LONGEST_TEXT {
        return Ok(false);
    }
    let tokens = tokens(alloc, line)?;
    Ok(binds_itself_in(&tokens))
}

// Whether a line of these tokens binds a name that its own expression uses.
fn binds_itself_in(tokens: &[Placed]) -> bool {
    let mut bound = "";
    let mut is_behind = false;
    for placed in tokens {
        match placed.token {
            Token::Name(name) if is_behind && name == bound => return true,
            Token::Name(name) if !is_behind => bound = name,
            Token::Sign(Mark::Assign) => is_behind = true,
            Token::Sign(Mark::Semicolon) => is_behind = false,
            _ => {}
        }
    }
    false
}
