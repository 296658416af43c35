//! First mistakes with words that the language has, or that others have.

use crate::marks::{is_arithmetic, is_comparison, mark_at, mark_before, mirrored, name_before};
use token_scanner::{Mark, Placed};

const ALONE: &str =
    "A call, a spawn and a read stand by themselves, as `x = call f(1);` and `x = read total;`: use `x` in a statement behind.";

const ELSE_IF: &str = "There is no `else if`: write `else { if .. { .. } }`.";

const COMMENT: &str = "A comment begins with `#` and runs to the end of its line.";

const GROWS: &str =
    "Each name is bound once. What adds up over rows or calls is a reducer of kind `add`: `update total 1;`.";

const KINDS: &str =
    "The kinds are `add`, `mul`, `min`, `max`, `and`, `or`, `xor`, `list`, `first`, `last`, `argmax`, `affine`, `hist` and `table`.";

const LOOPS: &str =
    "The only loop is `cilk_for i in 0 .. 9 : f(i);`: it calls a procedure, which has the loop's statements.";

const BINDS: &str = "A name is bound by `x = 1;`, with no word in front of it.";

/// How one does without what the token of that number begins or goes on with; nothing where that is nothing such.
pub(crate) fn hint_at(tokens: &[Placed], at: usize) -> Option<&'static str> {
    let before = mark_before(tokens, at);
    match mark_at(tokens, at) {
        _ if is_kind(tokens, at) => Some(KINDS),
        Some(Mark::Read | Mark::Call | Mark::Spawn) if !is_behind_value(tokens, at) => Some(ALONE),
        Some(Mark::If) if before == Some(Mark::Else) => Some(ELSE_IF),
        Some(Mark::Slash | Mark::Star) if before == Some(Mark::Slash) => Some(COMMENT),
        Some(Mark::Slash) if begins_comment(tokens, at) => Some(COMMENT),
        Some(mark) if is_arithmetic(mark) && is_assigned(tokens, at) => Some(GROWS),
        Some(mark) if is_arithmetic(mark) || is_comparison(mark) => hint_behind_entry(tokens, at),
        _ => hint_behind(tokens, at),
    }
}

// Whether a reducer's kind should stand there.
fn is_kind(tokens: &[Placed], at: usize) -> bool {
    mark_before(tokens, at) == Some(Mark::Colon)
        && at >= 3
        && mark_at(tokens, at - 3) == Some(Mark::Reducer)
}

// Whether the mark there begins a comment of another language.
fn begins_comment(tokens: &[Placed], at: usize) -> bool {
    matches!(
        mark_at(tokens, at.saturating_add(1)),
        Some(Mark::Slash | Mark::Star)
    )
}

// Whether a name stands in front of the token, at the beginning of a statement, and `=` behind it.
fn is_assigned(tokens: &[Placed], at: usize) -> bool {
    !name_before(tokens, at).is_empty()
        && begins_statement(tokens, at.saturating_sub(1))
        && mark_at(tokens, at.saturating_add(1)) == Some(Mark::Assign)
}

// Whether a statement begins with the token of that number.
fn begins_statement(tokens: &[Placed], at: usize) -> bool {
    matches!(
        mark_before(tokens, at),
        Some(Mark::Semicolon | Mark::OpenBrace | Mark::CloseBrace)
    )
}

// Whether a value ends in front of the token: what is updated is none.
fn is_behind_value(tokens: &[Placed], at: usize) -> bool {
    match mark_before(tokens, at) {
        Some(Mark::CloseParen | Mark::CloseBracket) => true,
        Some(_) => false,
        None => at == 0 || mark_before(tokens, at - 1) != Some(Mark::Update),
    }
}

// What is said of an operator behind a call, a spawn or a read.
fn hint_behind_entry(tokens: &[Placed], at: usize) -> Option<&'static str> {
    if is_behind_entry(tokens, at) {
        return Some(ALONE);
    }
    None
}

// Whether a call, a spawn or a read ends in front of the token.
fn is_behind_entry(tokens: &[Placed], at: usize) -> bool {
    let mut closed: usize = 0;
    for back in 0..at {
        match mark_at(tokens, mirrored(0, at, back)) {
            Some(Mark::CloseParen | Mark::CloseBracket) => closed = closed.saturating_add(1),
            Some(Mark::OpenParen | Mark::OpenBracket) if closed > 0 => {
                closed = closed.saturating_sub(1)
            }
            _ if closed > 0 => {}
            Some(Mark::Call | Mark::Spawn | Mark::Read) => return true,
            Some(_) => return false,
            None => {}
        }
    }
    false
}

// What is said of a token behind a word that begins a statement in other languages.
fn hint_behind(tokens: &[Placed], at: usize) -> Option<&'static str> {
    if !begins_statement(tokens, at.saturating_sub(1)) {
        return None;
    }
    match name_before(tokens, at) {
        "for" | "while" => Some(LOOPS),
        "let" | "var" | "int" => Some(BINDS),
        _ => None,
    }
}
