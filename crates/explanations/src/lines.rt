//! Why a line of a script is no command.

use crate::programs::{push_line_shown, wrong_byte};
use crate::rules::push_line;
use text_page::Page;

/// Puts a line of a script that is no command, with its number, and what is wrong with it, at the end of the text.
pub fn push_unknown(text: &mut Page, words: &[u8], number: usize) {
    push_line_shown(text, words, number);
    match wrong_byte(words) {
        Some(wrong) => push_line(text, wrong),
        None => push_line(text, wrong_with(words)),
    }
}

const HELP: &str =
    "The commands are `run`, `put TABLE ROW V ..`, `del TABLE ROW`, and `define`, then procedures on lines of their own, then `end`.";

// What is wrong with a line that has no wrong byte.
fn wrong_with(words: &[u8]) -> &'static str {
    let first = first_word(words);
    if first == b"put".as_slice() {
        return "Write `put TABLE ROW V ..`: a table's name, and at least two whole numbers of 64 bits.";
    }
    if first == b"del".as_slice() {
        return "Write `del TABLE ROW`: a table's name, and a whole number of 64 bits.";
    }
    if first == b"run".as_slice() {
        return "Write `run` alone on a line.";
    }
    if first == b"end".as_slice() {
        return "No `define` is open that this could end.";
    }
    if first == b"help".as_slice() {
        return HELP;
    }
    if first != b"define".as_slice() {
        return "A line begins with `run`, `put`, `del` or `define`, in lower case; a comment begins with `#`.";
    }
    if is_alone(words) {
        return "No line `end` follows, so the script ends here. Write `end` alone on a line behind the procedures.";
    }
    "Write `define` alone on a line, then procedures on lines of their own, and then `end`."
}

/// The first word of a line.
pub(crate) fn first_word(words: &[u8]) -> &[u8] {
    for word in words.split(|byte| is_blank(*byte)) {
        if !word.is_empty() {
            return word;
        }
    }
    &[]
}

// Whether a line has one word and no more.
fn is_alone(words: &[u8]) -> bool {
    let mut found = false;
    for word in words.split(|byte| is_blank(*byte)) {
        if !word.is_empty() {
            if found {
                return false;
            }
            found = true;
        }
    }
    found
}

fn is_blank(byte: u8) -> bool {
    byte == b' ' || byte == b'\t'
}
