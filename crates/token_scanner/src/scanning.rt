//! Cuts a text into tokens.

ghost use Rattle.std.specs.Prelude.{◌≡◌, ◌≤◌, ◌<◌, ◌+◌, length, IfOk, IfSome, MatchOption, IsUtf8, pos, None};
ghost use Rattle.token_scanner.specs.Words.{words, word};
ghost use Rattle.token_scanner.specs.Scanning.{is_letter, is_digit, is_space, belongs, front_len, followed, longer, single_of, mark_of};
ghost use Rattle.token_scanner.specs.Scanning.{name_of, number_of, keyword_of, decimal, word_at, tokens_of, line_ends, longest_text};

use crate::token::{Mark, Placed, Token};
use std::alloc::{AllocError, Global};

/// What a run of bytes may be part of.
#[derive(Clone, Copy)]
pub enum Class {
    InName,
    InNumber,
    InComment,
}

fn is_letter(b: u8) -> bool
    ensures { result ≡ is_letter b }
{
    97 <= b && b <= 122
}

fn is_digit(b: u8) -> bool
    ensures { result ≡ is_digit b }
{
    48 <= b && b <= 57
}

fn is_space(b: u8) -> bool
    ensures { result ≡ is_space b }
{
    b == b' ' || b == b'\t'
}

fn belongs(class: Class, b: u8) -> bool
    ensures { result ≡ belongs class b }
{
    match class {
        Class::InName => is_letter(b) || is_digit(b) || b == b'_',
        Class::InNumber => is_digit(b),
        Class::InComment => b == b'\t' || (32 <= b && b <= 126),
    }
}

fn front_len(class: Class, bytes: &[u8]) -> usize
    ensures exact { result ≡ front_len (belongs class) bytes.now }
    ensures within { result ≤ length bytes.now }
{
    let mut n = 0;
    for b in bytes {
        if !belongs(class, *b) {
            return n;
        }
        n += 1;
    }
    n
}

fn followed(bytes: &[u8], second: u8) -> bool
    ensures { result ≡ followed second bytes.now }
{
    match bytes {
        [_, b, ..] => *b == second,
        _ => false,
    }
}

fn longer<'a>(both: bool, long: Token<'a>, short: Token<'a>) -> (Token<'a>, usize)
    ensures { (word result.0, result.1) ≡ longer both (word long.entry) (word short.entry) }
{
    if both { (long, 2) } else { (short, 1) }
}

#[tactic(auto, unfolding(crate::specs::Scanning::single_of))]
fn single_of<'a>(b: u8) -> Token<'a>
    ensures { word result ≡ single_of b }
{
    match b {
        b'{' => Token::Sign(Mark::OpenBrace),
        b'}' => Token::Sign(Mark::CloseBrace),
        b'(' => Token::Sign(Mark::OpenParen),
        b')' => Token::Sign(Mark::CloseParen),
        b'[' => Token::Sign(Mark::OpenBracket),
        b']' => Token::Sign(Mark::CloseBracket),
        b':' => Token::Sign(Mark::Colon),
        b';' => Token::Sign(Mark::Semicolon),
        b',' => Token::Sign(Mark::Comma),
        b'+' => Token::Sign(Mark::Plus),
        b'-' => Token::Sign(Mark::Minus),
        b'*' => Token::Sign(Mark::Star),
        b'/' => Token::Sign(Mark::Slash),
        b'%' => Token::Sign(Mark::Percent),
        _ => Token::Bad,
    }
}

#[tactic(auto, unfolding(crate::specs::Scanning::mark_of))]
fn mark_of<'a>(b: u8, bytes: &[u8]) -> (Token<'a>, usize)
    ensures { (word result.0, result.1) ≡ mark_of b bytes.now }
{
    match b {
        b'.' => longer(
            followed(bytes, b'.'),
            Token::Sign(Mark::Range),
            Token::Sign(Mark::Dot),
        ),
        b'=' => longer(
            followed(bytes, b'='),
            Token::Sign(Mark::Equal),
            Token::Sign(Mark::Assign),
        ),
        b'!' => longer(
            followed(bytes, b'='),
            Token::Sign(Mark::Unequal),
            Token::Bad,
        ),
        b'<' => longer(
            followed(bytes, b'='),
            Token::Sign(Mark::AtMost),
            Token::Sign(Mark::Less),
        ),
        b'>' => longer(
            followed(bytes, b'='),
            Token::Sign(Mark::AtLeast),
            Token::Sign(Mark::Greater),
        ),
        _ => (single_of(b), 1),
    }
}

#[tactic(auto, unfolding(crate::specs::Scanning::keyword_of))]
fn keyword_of(name: &str) -> Option<Mark>
    ensures { result ≡ keyword_of name.now }
{
    match name {
        "reducer" => Some(Mark::Reducer),
        "memo" => Some(Mark::Memo),
        "proc" => Some(Mark::Proc),
        "call" => Some(Mark::Call),
        "spawn" => Some(Mark::Spawn),
        "sync" => Some(Mark::Sync),
        "update" => Some(Mark::Update),
        "if" => Some(Mark::If),
        "else" => Some(Mark::Else),
        "cilk_for" => Some(Mark::CilkFor),
        "in" => Some(Mark::In),
        "grain" => Some(Mark::Grain),
        "return" => Some(Mark::Return),
        "read" => Some(Mark::Read),
        "has" => Some(Mark::Has),
        "limit" => Some(Mark::Limit),
        "sum" => Some(Mark::Sum),
        _ => None,
    }
}

fn name_of<'a>(name: &'a str) -> Token<'a>
    ensures { word result ≡ name_of name.now }
{
    if name.len() > 32 {
        return Token::Bad;
    }
    match keyword_of(name) {
        Some(keyword) => Token::Sign(keyword),
        None => Token::Name(name),
    }
}

fn value_of(digits: &[u8]) -> Option<u64>
    ensures some { IfSome result (λ n. (n ≡ decimal 0 digits.now) × (n ≤ 9223372036854775807)) }
    ensures none { result ≡ None → 9223372036854775807 < decimal 0 digits.now }
{
    let mut value: u64 = 0;
    for digit in digits {
        if value > 922337203685477580 {
            return None;
        }
        value = value * 10 + digit.saturating_sub(48) as u64;
        if value > 9223372036854775807 {
            return None;
        }
    }
    Some(value)
}

#[tactic(auto, unfolding(crate::specs::Scanning::number_of))]
fn number_of<'a>(digits: &[u8]) -> Token<'a>
    ensures { word result ≡ number_of digits.now }
{
    match value_of(digits) {
        Some(n) => Token::Number(n as i64),
        None => Token::Bad,
    }
}

fn text_of(bytes: &[u8]) -> &str
    requires { IsUtf8 bytes.now }
    ensures { result.now ≡ bytes.now }
{
    str::from_utf8(bytes).unwrap()
}

#[tactic(auto, unfolding(crate::specs::Scanning::word_at))]
fn token_at<'a>(b: u8, bytes: &'a [u8]) -> (Token<'a>, usize)
    requires { 0 < length bytes.now }
    ensures token { (word result.0, result.1) ≡ word_at b bytes.now }
    ensures within { result.1 ≤ length bytes.now }
{
    if is_letter(b) {
        let n = front_len(Class::InName, bytes);
        return (name_of(text_of(&bytes[..n])), n);
    }
    if is_digit(b) {
        let n = front_len(Class::InNumber, bytes);
        return (number_of(&bytes[..n]), n);
    }
    mark_of(b, bytes)
}

/// The greatest length of a text, in bytes.
pub const LONGEST_TEXT: usize = 1_048_576;

/// The limit in code is that of the definitions.
pub fn limit()
    ensures longest { LONGEST_TEXT ≡ longest_text }
{}

/// The tokens of a text, each with its line, counted from 1. The text is not too long; want of memory is the only error.
pub fn tokens<'a>(alloc: Global, text: &'a [u8]) -> Result<Vec<Placed<'a>>, AllocError>
    requires { length text.now ≤ longest_text }
    ensures { IfOk result (λ v. words v.items ≡ tokens_of text.now) }
{
    let mut out = Vec::new(alloc);
    let mut line = 1;
    let mut at = 0;
    for _ in 0..text.len() {
        if at == text.len() {
            return Ok(out);
        }
        let b = text[at];
        if b == b'\n' {
            line += 1;
            at += 1;
            continue;
        }
        if is_space(b) {
            at += 1;
            continue;
        }
        if b == b'#' {
            at += front_len(Class::InComment, &text[at..]);
            continue;
        }
        let (token, taken) = token_at(b, &text[at..]);
        out.push(Placed { token, line })?;
        at += taken;
    }
    Ok(out)
}

/// How many lines end in a text.
pub fn line_ends(text: &[u8]) -> usize
    ensures exact { result ≡ line_ends text.now }
    ensures within { result ≤ length text.now }
{
    let mut n = 0;
    for b in text {
        if *b == b'\n' {
            n += 1;
        }
    }
    n
}
