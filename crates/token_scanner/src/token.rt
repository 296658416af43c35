//! What a text is cut into: names, numbers, marks and keywords, each with its line.

ghost use Rattle.std.specs.Prelude.{◌≡◌};
ghost use Rattle.token_scanner.specs.Marks.{same_mark};

/// A mark or a keyword.
#[derive(Clone, Copy, PartialEq, Eq)]
pub enum Mark {
    OpenBrace,
    CloseBrace,
    OpenParen,
    CloseParen,
    OpenBracket,
    CloseBracket,
    Colon,
    Semicolon,
    Comma,
    Dot,
    Range,
    Assign,
    Equal,
    Unequal,
    Less,
    AtMost,
    Greater,
    AtLeast,
    Plus,
    Minus,
    Star,
    Slash,
    Percent,
    Reducer,
    Memo,
    Proc,
    Call,
    Spawn,
    Sync,
    Update,
    If,
    Else,
    CilkFor,
    In,
    Grain,
    Return,
    Read,
    Has,
    Limit,
    Sum,
}

/// A token of a text.
#[derive(Clone, Copy)]
pub enum Token<'a> {
    Name(&'a str),
    Number(i64),
    Sign(Mark),
    /// What is no token of the language, or one out of its limit.
    Bad,
}

/// A token and its line.
#[derive(Clone, Copy)]
pub struct Placed<'a> {
    pub token: Token<'a>,
    pub line: u32,
}

/// Whether two marks are the same.
pub fn same(a: Mark, b: Mark) -> bool
    ensures { result ≡ same_mark a b }
{
    a == b
}
