//! Tokens as they are written.

use text_page::Page;
use token_scanner::{Mark, Placed, Token};

/// Puts a token, as a text has it, at the end of the text; in place of what is no token stands `!`, which is none either.
pub(crate) fn push_token(text: &mut Page, token: Token<'_>) {
    match token {
        Token::Name(name) => text.put(name),
        Token::Number(number) => text.put_number("", number, ""),
        Token::Sign(mark) => text.put(written(mark)),
        Token::Bad => text.put("!"),
    }
}

/// Whether a declaration begins at a token that has the other in front of it.
pub(crate) fn begins_declaration(before: Option<Mark>, token: Token<'_>) -> bool {
    match token {
        Token::Sign(Mark::Reducer | Mark::Memo) => true,
        Token::Sign(Mark::Proc) => before != Some(Mark::Memo),
        _ => false,
    }
}

/// The mark that a token is.
pub(crate) fn mark_of(token: Token<'_>) -> Option<Mark> {
    match token {
        Token::Sign(mark) => Some(mark),
        _ => None,
    }
}

/// The mark that the token of that number is.
pub(crate) fn mark_at(tokens: &[Placed], at: usize) -> Option<Mark> {
    mark_of(tokens.get(at)?.token)
}

/// The mark in front of the token of that number.
pub(crate) fn mark_before(tokens: &[Placed], at: usize) -> Option<Mark> {
    if at == 0 {
        return None;
    }
    mark_at(tokens, at - 1)
}

/// Whether such a mark is an operator between two numbers, comparisons aside.
pub(crate) fn is_arithmetic(mark: Mark) -> bool {
    matches!(
        mark,
        Mark::Plus | Mark::Minus | Mark::Star | Mark::Slash | Mark::Percent
    )
}

/// Whether such a mark compares two numbers.
pub(crate) fn is_comparison(mark: Mark) -> bool {
    matches!(
        mark,
        Mark::Equal | Mark::Unequal | Mark::Less | Mark::AtMost | Mark::Greater | Mark::AtLeast
    )
}

/// The place that is as far in front of the end as another is behind the beginning.
pub(crate) fn mirrored(begin: usize, end: usize, place: usize) -> usize {
    end.saturating_sub(place.saturating_sub(begin))
        .saturating_sub(1)
}

/// The name in front of the token of that number; nothing where there is none.
pub(crate) fn name_before<'a>(tokens: &[Placed<'a>], at: usize) -> &'a str {
    if at == 0 {
        return "";
    }
    match tokens.get(at - 1) {
        Some(before) => match before.token {
            Token::Name(name) => name,
            _ => "",
        },
        None => "",
    }
}

// A mark or a keyword as it is written.
fn written(mark: Mark) -> &'static str {
    match mark {
        Mark::OpenBrace => "{",
        Mark::CloseBrace => "}",
        Mark::OpenParen => "(",
        Mark::CloseParen => ")",
        Mark::OpenBracket => "[",
        Mark::CloseBracket => "]",
        Mark::Colon => ":",
        Mark::Semicolon => ";",
        Mark::Comma => ",",
        Mark::Dot => ".",
        Mark::Range => "..",
        Mark::Assign => "=",
        Mark::Equal => "==",
        Mark::Unequal => "!=",
        Mark::Less => "<",
        Mark::AtMost => "<=",
        Mark::Greater => ">",
        Mark::AtLeast => ">=",
        Mark::Plus => "+",
        Mark::Minus => "-",
        Mark::Star => "*",
        Mark::Slash => "/",
        Mark::Percent => "%",
        keyword => keyword_written(keyword),
    }
}

fn keyword_written(keyword: Mark) -> &'static str {
    match keyword {
        Mark::Reducer => "reducer",
        Mark::Memo => "memo",
        Mark::Proc => "proc",
        Mark::Call => "call",
        Mark::Spawn => "spawn",
        Mark::Sync => "sync",
        Mark::Update => "update",
        Mark::If => "if",
        Mark::Else => "else",
        Mark::CilkFor => "cilk_for",
        Mark::In => "in",
        Mark::Grain => "grain",
        Mark::Return => "return",
        Mark::Read => "read",
        Mark::Has => "has",
        Mark::Limit => "limit",
        Mark::Sum => "sum",
        _ => "",
    }
}
