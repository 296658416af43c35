//! Which limit of the language is passed at a token.

use crate::followers::may_follow;
use crate::marks::{
    is_arithmetic, is_comparison, mark_at, mark_before, mirrored, name_before, push_token,
};
use std::alloc::{AllocError, Global};
use text_page::Page;
use token_scanner::{Mark, Placed, Token};

const MOST_BLOCKS: usize = 32;

const MOST_OPEN: usize = 64;

const BLOCKS: &str =
    "at most 32 blocks are nested, the procedure's own being the first. Let another procedure do what is inside.";

const BRACKETS: &str =
    "at most 64 parentheses and brackets are open at once. Bind a part to a name in a statement before.";

const LEVELS: &str =
    "an expression has at most 64 levels, as a sum of 64 numbers has. Bind a part to a name in a statement before.";

/// The limit that is passed by nesting at the token of that number, behind such a beginning of the declaration from the first one on; nothing where the token
/// can't stand there in a smaller statement either. Want of memory is the only error.
pub(crate) fn nested_limit(
    alloc: Global,
    beginning: &str,
    tokens: &[Placed],
    first: usize,
    at: usize,
) -> Result<Option<&'static str>, AllocError> {
    let Some(placed) = tokens.get(at) else {
        return Ok(None);
    };
    if is_block_too_many(tokens, first, at) && mark_before(tokens, at) == Some(Mark::Else) {
        return Ok(Some(BLOCKS));
    }
    let Some(begin) = expression_before(tokens, at) else {
        return Ok(None);
    };
    let Some(limit) = limit_at(tokens, first, begin, at) else {
        return Ok(None);
    };
    if stands_in_smaller(alloc, beginning, tokens, first, begin, at, placed.token)? {
        return Ok(Some(limit));
    }
    Ok(None)
}

// Whether a token could stand behind such a beginning if the expression that begins at a number, and what is around it, were smaller.
fn stands_in_smaller(
    alloc: Global,
    beginning: &str,
    tokens: &[Placed],
    first: usize,
    begin: usize,
    at: usize,
    token: Token<'_>,
) -> Result<bool, AllocError> {
    let Some(head) = head_end(tokens, first, at) else {
        return Ok(false);
    };
    let mut page = Page::new(alloc);
    push_tokens(&mut page, tokens, first, head);
    push_tokens(&mut page, tokens, statement_begin(tokens, begin), begin);
    if mark_at(tokens, at) == Some(Mark::OpenBracket) {
        push_tokens(&mut page, tokens, name_begin(tokens, at), at);
    } else if !is_operand_next(tokens, begin, at) {
        if !ends_operand(alloc, beginning)? {
            return Ok(false);
        }
        page.put("1 ");
    }
    let smaller = page.whole()?;
    let mut page = Page::new(alloc);
    push_token(&mut page, token);
    let word = page.whole()?;
    may_follow(alloc, smaller.as_str(), word.as_str())
}

// Whether an operand should come behind what stands in front of a token.
fn is_operand_next(tokens: &[Placed], begin: usize, at: usize) -> bool {
    match mark_before(tokens, at) {
        _ if begin == at => true,
        Some(Mark::OpenParen | Mark::OpenBracket) => true,
        Some(mark) => is_arithmetic(mark) || is_comparison(mark),
        None => false,
    }
}

// Whether such a beginning ends with an operand.
fn ends_operand(alloc: Global, beginning: &str) -> Result<bool, AllocError> {
    for word in [";", ")", "]", ",", "{", "..", ":", "*"] {
        if may_follow(alloc, beginning, word)? {
            return Ok(true);
        }
    }
    Ok(false)
}

// Which limit a token would pass, behind an expression that begins at a number, if it could stand there in a smaller one.
fn limit_at(tokens: &[Placed], first: usize, begin: usize, at: usize) -> Option<&'static str> {
    let open = open_in(tokens, begin, at);
    match mark_at(tokens, at) {
        Some(Mark::OpenBrace) if open == 0 && is_block_too_many(tokens, first, at) => Some(BLOCKS),
        Some(Mark::OpenParen | Mark::OpenBracket) if open >= MOST_OPEN => Some(BRACKETS),
        Some(Mark::OpenParen | Mark::OpenBracket | Mark::Has | Mark::Limit | Mark::Sum) => Some(
            LEVELS,
        ),
        Some(mark) if is_arithmetic(mark) => Some(LEVELS),
        Some(mark) if is_comparison(mark) && !is_compared(tokens, begin, at) => Some(LEVELS),
        _ => None,
    }
}

// Whether a token is the `{` of a block that stands in as many others as there may be.
fn is_block_too_many(tokens: &[Placed], first: usize, at: usize) -> bool {
    let mut open: usize = 0;
    for number in first..at {
        match mark_at(tokens, number) {
            Some(Mark::OpenBrace) => open = open.saturating_add(1),
            Some(Mark::CloseBrace) => open = open.saturating_sub(1),
            _ => {}
        }
    }
    open >= MOST_BLOCKS && mark_at(tokens, at) == Some(Mark::OpenBrace)
}

// How many parentheses and brackets are open among the tokens from one number to another.
fn open_in(tokens: &[Placed], from: usize, to: usize) -> usize {
    let mut open: usize = 0;
    for number in from..to {
        match mark_at(tokens, number) {
            Some(Mark::OpenParen | Mark::OpenBracket) => open = open.saturating_add(1),
            Some(Mark::CloseParen | Mark::CloseBracket) => open = open.saturating_sub(1),
            _ => {}
        }
    }
    open
}

// Whether a comparison stands in front of a token, in the innermost of the brackets that are open there.
fn is_compared(tokens: &[Placed], begin: usize, at: usize) -> bool {
    let mut closed: usize = 0;
    for back in begin..at {
        match mark_at(tokens, mirrored(begin, at, back)) {
            Some(Mark::CloseParen | Mark::CloseBracket) => closed = closed.saturating_add(1),
            Some(Mark::OpenParen | Mark::OpenBracket) if closed == 0 => return false,
            Some(Mark::OpenParen | Mark::OpenBracket) => closed = closed.saturating_sub(1),
            Some(mark) if closed == 0 && is_comparison(mark) => return true,
            _ => {}
        }
    }
    false
}

// The number of the token with which the expression begins that is still open in front of a token of a statement.
fn expression_before(tokens: &[Placed], at: usize) -> Option<usize> {
    let mut closed: usize = 0;
    for back in 0..at {
        let number = mirrored(0, at, back);
        match mark_at(tokens, number) {
            Some(Mark::CloseParen | Mark::CloseBracket) => closed = closed.saturating_add(1),
            Some(Mark::OpenParen | Mark::OpenBracket) if closed > 0 => {
                closed = closed.saturating_sub(1)
            }
            _ if closed > 0 => {}
            Some(Mark::OpenParen) if !name_before(tokens, number).is_empty() =>
                return number.checked_add(1),
            Some(mark) if is_before_expression(mark) => return number.checked_add(1),
            Some(mark) if is_no_part(mark) => return None,
            None if mark_before(tokens, number) == Some(Mark::Update) => {
                return number.checked_add(1);
            }
            _ => {}
        }
    }
    None
}

// Whether an expression may begin behind such a mark, arguments and updates aside.
fn is_before_expression(mark: Mark) -> bool {
    matches!(
        mark,
        Mark::Assign | Mark::Return | Mark::If | Mark::In | Mark::Range | Mark::Comma
    )
}

// Whether such a mark stands in no expression, and none begins behind it.
fn is_no_part(mark: Mark) -> bool {
    matches!(
        mark,
        Mark::Semicolon
            | Mark::Colon
            | Mark::OpenBrace
            | Mark::CloseBrace
            | Mark::Call
            | Mark::Spawn
            | Mark::Read
            | Mark::Grain
            | Mark::Update
    )
}

// The number of the token behind the `{` with which a procedure's body begins.
fn head_end(tokens: &[Placed], first: usize, at: usize) -> Option<usize> {
    for number in first..at {
        if mark_at(tokens, number) == Some(Mark::OpenBrace) {
            return number.checked_add(1);
        }
    }
    None
}

// The number of the first token of the statement in which a token stands.
fn statement_begin(tokens: &[Placed], at: usize) -> usize {
    let mut begin = at;
    for number in 0..at {
        if matches!(
            mark_at(tokens, number),
            Some(Mark::Semicolon | Mark::OpenBrace | Mark::CloseBrace)
        ) {
            begin = number.saturating_add(1);
        }
    }
    begin
}

// The number of the token with which a name begins that stands in front of the token of that number, with the word or mark before it.
fn name_begin(tokens: &[Placed], at: usize) -> usize {
    let name = at.saturating_sub(1);
    match mark_before(tokens, name) {
        Some(Mark::Has | Mark::Limit | Mark::Sum | Mark::Dot) => name.saturating_sub(1),
        _ => name,
    }
}

// Puts the tokens from one number to another, that one not counted.
fn push_tokens(text: &mut Page, tokens: &[Placed], from: usize, to: usize) {
    for number in from..to {
        if let Some(placed) = tokens.get(number) {
            push_token(text, placed.token);
            text.put(" ");
        }
    }
}

/// The limit that is passed at the token of that number, of the declaration that begins at the first one, where fewer such or a smaller
/// number could stand there.
pub(crate) fn counted_limit(tokens: &[Placed], first: usize, at: usize) -> &'static str {
    let before = at.saturating_sub(1);
    match tokens.get(before) {
        Some(
            Placed {
                token: Token::Name(name),
                ..
            },
        ) => limit_behind(name),
        _ => match mark_at(tokens, before) {
            Some(Mark::Reducer) => "a program has at most 16 reducers.",
            Some(Mark::Proc) => "a program has at most 256 procedures.",
            Some(Mark::Grain) => "a grain is 1 to 65,536.",
            _ if mark_at(tokens, first) != Some(Mark::Reducer) =>
                "a procedure has at most 8 parameters.",
            _ if open_in(tokens, first, at) > 0 =>
                "each entry is one of the elements, which are 0 to n - 1 in a table of n.",
            _ => "a reducer begins with at most 4,096 numbers.",
        },
    }
}

// The limit of a number behind a word of a reducer's kind.
fn limit_behind(word: &str) -> &'static str {
    match word {
        "first" | "last" => "`first` and `last` keep 1 to 4,096 values.",
        "table" => "a table reducer has 1 to 16 elements.",
        "unit" => "the unit is one of the elements, which are 0 to n - 1 in a table of n.",
        _ => "docs/LANGUAGE.md has them.",
    }
}
