//! At which byte of its line a token begins.

use std::alloc::{AllocError, Global};
use token_scanner::{LONGEST_TEXT, Placed, Token, tokens};

/// The place in a line at which the token of that number begins, which is of that line; the line's end where there is no such token.
pub(crate) fn place_of(tokens: &[Placed], at: usize, line: &[u8]) -> usize {
    match tokens.get(at) {
        Some(placed) => place_behind(line, count_before(tokens, at, placed.line)),
        None => line.len(),
    }
}

/// The place in a line at which a name stands first; 0 where it doesn't. Want of memory is the only error.
pub(crate) fn place_of_name(alloc: Global, line: &[u8], name: &str) -> Result<usize, AllocError> {
    if line.len() > LONGEST_TEXT {
        return Ok(0);
    }
    let tokens = tokens(alloc, line)?;
    for (at, placed) in tokens.iter().enumerate() {
        if matches!(placed.token, Token::Name(found) if found == name) {
            return Ok(place_of(&tokens, at, line));
        }
    }
    Ok(0)
}

// How many tokens of that line stand in front of the one of that number.
fn count_before(tokens: &[Placed], at: usize, line: u32) -> usize {
    let mut count: usize = 0;
    for placed in tokens.iter().take(at) {
        if placed.line == line {
            count = count.saturating_add(1);
        }
    }
    count
}

// The place at which the token begins that has so many in front of it.
fn place_behind(line: &[u8], before: usize) -> usize {
    let mut place = blanks_end(line, 0);
    for _ in 0..before {
        place = blanks_end(line, token_end(line, place));
    }
    place
}

// The first place from that one on that has no space and no tab.
fn blanks_end(line: &[u8], from: usize) -> usize {
    for (at, byte) in line.iter().enumerate().skip(from) {
        if *byte != b' ' && *byte != b'\t' {
            return at;
        }
    }
    line.len()
}

// The place behind the token that begins at a place.
fn token_end(line: &[u8], from: usize) -> usize {
    match line.get(from) {
        Some(first) if first.is_ascii_lowercase() => word_end(line, from),
        Some(first) if first.is_ascii_digit() => digits_end(line, from),
        Some(first) => from.saturating_add(length_of(*first, line.get(from.saturating_add(1)))),
        None => from,
    }
}

fn word_end(line: &[u8], from: usize) -> usize {
    for (at, byte) in line.iter().enumerate().skip(from) {
        if !byte.is_ascii_lowercase() && !byte.is_ascii_digit() && *byte != b'_' {
            return at;
        }
    }
    line.len()
}

fn digits_end(line: &[u8], from: usize) -> usize {
    for (at, byte) in line.iter().enumerate().skip(from) {
        if !byte.is_ascii_digit() {
            return at;
        }
    }
    line.len()
}

// How many bytes the mark has that begins with that one, before the other.
fn length_of(first: u8, second: Option<&u8>) -> usize {
    match (first, second) {
        (b'.', Some(b'.')) => 2,
        (b'=' | b'!' | b'<' | b'>', Some(b'=')) => 2,
        _ => 1,
    }
}
