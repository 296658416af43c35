//! What a beginning of a text may go on with, as the parser has it.

use procedure_parser::{TextError, parse};
use std::alloc::{AllocError, Global};
use text_page::Page;

// A word that a text may have, what it is called, and words that tell of it where they may stand too.
struct Follower(&'static str, &'static str, &'static [&'static str]);

// In the order in which they are told.
const FOLLOWERS: [Follower; 33] = [
    Follower(";", "`;`", &[]),
    Follower(",", "`,`", &[]),
    Follower(")", "`)`", &[]),
    Follower("]", "`]`", &[]),
    Follower("{", "`{`", &[]),
    Follower("}", "`}`", &[]),
    Follower("=", "`=`", &[]),
    Follower(":", "`:`", &[]),
    Follower("..", "`..`", &[]),
    Follower(".", "`.`", &[]),
    Follower("(", "`(`", &["has"]),
    Follower("[", "`[`", &[]),
    Follower("has", "an expression", &[]),
    Follower("x", "a name", &["has", "sync"]),
    Follower("1", "a number", &["has"]),
    Follower("0", "a number", &["has", "1"]),
    Follower("add", "a kind of reducer", &["x"]),
    Follower("unit", "`unit`", &["x"]),
    Follower("from", "`from`", &["x"]),
    Follower("*", "an operator", &[]),
    Follower("-", "`-`", &["has", "*"]),
    Follower("==", "a comparison", &[]),
    Follower("sync", "a statement", &[]),
    Follower("call", "`call`", &["sync"]),
    Follower("spawn", "`spawn`", &["sync"]),
    Follower("read", "`read`", &[]),
    Follower("return", "`return`", &[]),
    Follower("else", "`else`", &[]),
    Follower("in", "`in`", &[]),
    Follower("grain", "`grain`", &[]),
    Follower("reducer", "a declaration", &[]),
    Follower("proc", "`proc`", &["reducer"]),
    Follower("", "the text's end", &[]),
];

/// Puts what may follow such a beginning, which is one line, into an empty text; a comma between two. Want of memory is the only error.
pub(crate) fn push_followers(
    alloc: Global,
    text: &mut Page,
    beginning: &str,
) -> Result<(), AllocError> {
    for follower in FOLLOWERS.iter() {
        if is_told(alloc, beginning, follower)? {
            push_next(text, follower.1);
        }
    }
    Ok(())
}

// Puts one more word at the end of a list.
fn push_next(text: &mut Page, word: &str) {
    if !text.is_empty() {
        text.put(", ");
    }
    text.put(word)
}

// Whether a word may follow a beginning, and nothing else tells of it there.
fn is_told(alloc: Global, beginning: &str, follower: &Follower) -> Result<bool, AllocError> {
    if !may_follow(alloc, beginning, follower.0)? {
        return Ok(false);
    }
    for other in follower.2 {
        if may_follow(alloc, beginning, other)? {
            return Ok(false);
        }
    }
    Ok(true)
}

/// Whether a text may go on with a word behind such a beginning, which is one line; the empty word is the text's end. Want of memory is
/// the only error.
pub(crate) fn may_follow(alloc: Global, beginning: &str, word: &str) -> Result<bool, AllocError> {
    let mut page = Page::new(alloc);
    page.put(beginning);
    page.put(word);
    page.put("\n");
    let text = page.whole()?;
    match parse(alloc, text.as_bytes()) {
        Ok(_) => Ok(true),
        Err(TextError::NoMemory) => Err(AllocError),
        // A text that only ends too early is refused behind its last line.
        Err(TextError::Text { line }) => Ok(line == 2 && !word.is_empty()),
    }
}
