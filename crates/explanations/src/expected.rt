//! At which token a text is refused, and what could stand there.

use crate::followers::{may_follow, push_followers};
use crate::habits::{odd_in, push_habit};
use crate::limits::{counted_limit, nested_limit};
use crate::marks::{begins_declaration, mark_of, push_token};
use crate::places::place_of;
use crate::programs::{LOOKED_FOR, line_at, push_bytes, push_looked_for, push_shown_at};
use crate::rules::push_line;
use procedure_parser::{TextError, parse};
use std::alloc::{AllocError, Global};
use text_page::Page;
use token_scanner::{LONGEST_TEXT, Placed, Token, tokens};

// The longest beginning of a declaration that is read again with each word that could follow it, in bytes.
const LONGEST_BEGINNING: usize = 65_536;

/// Puts the line of a program's text at which it is refused, the token there that can't stand where it does, and what could stand in its
/// place, at the end of the text. Want of memory is the only error.
pub(crate) fn push_expected(
    alloc: Global,
    text: &mut Page,
    program: &[u8],
    line: u32,
) -> Result<(), AllocError> {
    if program.len() > LONGEST_TEXT {
        push_looked_for(text, program, line);
        return Ok(());
    }
    let tokens = tokens(alloc, program)?;
    match refused_at(alloc, &tokens)? {
        Some(at) if is_on(&tokens, at, line) => {
            let words = line_at(program, line);
            push_shown_at(text, program, line, place_of(&tokens, at, words));
            push_token_refused(alloc, text, &tokens, at, words)
        }
        _ => {
            push_looked_for(text, program, line);
            Ok(())
        }
    }
}

// Puts which token of that line can't stand where it does, and what could, unless too much stands in front of it.
fn push_token_refused(
    alloc: Global,
    text: &mut Page,
    tokens: &[Placed],
    at: usize,
    words: &[u8],
) -> Result<(), AllocError> {
    let first = declaration_around(tokens, at);
    let beginning = written(alloc, tokens, first, at, ' ')?;
    if beginning.len() > LONGEST_BEGINNING {
        push_line(text, LOOKED_FOR);
        return Ok(());
    }
    push_place(text, tokens, at, words);
    match nested_limit(alloc, beginning.as_str(), tokens, first, at)? {
        Some(limit) => push_limit(text, limit),
        None => push_wanted(alloc, text, beginning.as_str(), tokens, first, at)?,
    }
    push_habit(text, tokens, at, words);
    Ok(())
}

// The number of the token at which a text of these is refused, counted from 0; it is one more than the last one's where the text ends
// too early.
fn refused_at(alloc: Global, tokens: &[Placed]) -> Result<Option<usize>, AllocError> {
    // On a line of its own each token is told by its line.
    let text = written(alloc, tokens, 0, tokens.len(), '\n')?;
    match parse(alloc, text.as_bytes()) {
        Ok(_) => Ok(None),
        Err(TextError::NoMemory) => Err(AllocError),
        Err(TextError::Text { line: 0 }) => Ok(None),
        Err(TextError::Text { line }) => Ok(Some(line as usize - 1)),
    }
}

// Whether the token of that number is on that line; the text's end is on any.
fn is_on(tokens: &[Placed], at: usize, line: u32) -> bool {
    match tokens.get(at) {
        Some(token) => token.line == line,
        None => true,
    }
}

// The number of the token with which the declaration begins that is still open in front of a token.
fn declaration_around(tokens: &[Placed], at: usize) -> usize {
    let mut first = 0;
    let mut before = None;
    for (number, placed) in tokens.iter().enumerate() {
        if number < at && begins_declaration(before, placed.token) {
            first = number;
        }
        before = mark_of(placed.token);
    }
    first
}

// The tokens from one number to another, that one not counted, each with a character behind it.
fn written(
    alloc: Global,
    tokens: &[Placed],
    from: usize,
    to: usize,
    behind: char,
) -> Result<String, AllocError> {
    let mut text = Page::new(alloc);
    for (number, placed) in tokens.iter().enumerate() {
        if from <= number && number < to {
            push_token(&mut text, placed.token);
            text.push(behind);
        }
    }
    text.whole()
}

// Puts which token, of that line, can't stand behind which one at the end of the text.
fn push_place(text: &mut Page, tokens: &[Placed], at: usize, line: &[u8]) {
    match tokens.get(at) {
        None => text.put("  The text can't end"),
        Some(placed) => push_refused(text, placed.token, line),
    }
    if at == 0 {
        return text.put(" at the beginning. ");
    }
    match tokens.get(at - 1) {
        None => text.put(" there. "),
        Some(before) => push_before(text, before.token),
    }
}

// Puts the token that can't stand there, and is of that line, at the end of the text. One that is none of the language is the line's
// first such, since a text is refused at the first.
fn push_refused(text: &mut Page, token: Token<'_>, line: &[u8]) {
    text.put("  `");
    match token {
        Token::Bad => push_bytes(text, odd_in(line)),
        token => push_token(text, token),
    }
    text.put("` can't stand")
}

fn push_before(text: &mut Page, before: Token<'_>) {
    text.put(" behind `");
    push_token(text, before);
    text.put("`. ")
}

// Puts what could stand behind a beginning in the place of the token that is refused there at the end of the text.
fn push_wanted(
    alloc: Global,
    text: &mut Page,
    beginning: &str,
    tokens: &[Placed],
    first: usize,
    at: usize,
) -> Result<(), AllocError> {
    let mut page = Page::new(alloc);
    push_followers(alloc, &mut page, beginning)?;
    let followers = page.whole()?;
    if followers.is_empty() || is_one_too_many(alloc, beginning, tokens.get(at))? {
        push_limit(text, counted_limit(tokens, first, at));
    } else {
        text.put_named("Expected: ", followers.as_str(), ".\n");
    }
    Ok(())
}

// Puts which limit is passed at the end of the text.
fn push_limit(text: &mut Page, limit: &str) {
    text.put_named("A limit is passed there: ", limit, "\n")
}

// Whether a token that is refused could stand there if there were fewer declarations, or if it were a smaller number.
fn is_one_too_many(
    alloc: Global,
    beginning: &str,
    refused: Option<&Placed<'_>>,
) -> Result<bool, AllocError> {
    let Some(placed) = refused else {
        return Ok(false);
    };
    match placed.token {
        Token::Bad => Ok(false),
        Token::Number(_) => Ok(
            may_follow(alloc, beginning, "0")? || may_follow(alloc, beginning, "1")?,
        ),
        token => {
            let mut page = Page::new(alloc);
            push_token(&mut page, token);
            let word = page.whole()?;
            may_follow(alloc, beginning, word.as_str())
        }
    }
}
