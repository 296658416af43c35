//! Why a program's text isn't in the language, as far as its bytes tell.

use crate::broken::{Place, broken_by};
use crate::broken_words::push_broken_name;
use crate::expected::push_expected;
use crate::places::place_of_name;
use crate::rules::{push_line, push_rule_on};
use crate::tables::is_of_tables;
use input_tables::{Tables, TablesError};
use linked_program::violation::Rule;
use meaning::tree::Program;
use procedure_parser::{TextError, parse};
use std::alloc::{AllocError, Global};
use text_page::Page;

// What the longest line that is shown has.
const MOST_SHOWN: usize = 120;

// What to look for where the token at which a text is refused isn't found.
pub(crate) const LOOKED_FOR: &str =
    "A word of this line can't stand where it does. Look for a `;`, `}` or `)` that is missing here or on the line \
                          before, a keyword used as a name, or a limit that is passed.";

/// Puts the line of a text at which no program can have it, and what is wrong or was expected there, at the end of the text. Line 0 is a
/// text that is too long. Want of memory is the only error.
pub fn push_bad_program(
    alloc: Global,
    text: &mut Page,
    program: &[u8],
    line: u32,
) -> Result<(), AllocError> {
    if line == 0 {
        push_line(text, "The text has more than 1,048,576 bytes.");
        return Ok(());
    }
    if is_of_tables(alloc, program)? {
        push_shown(text, program, line);
        push_line(
            text,
            "These are tables: PROGRAM, the file of the program, comes first, and TABLES behind it.",
        );
        return Ok(());
    }
    if push_wrong_byte(text, program, line) {
        return Ok(());
    }
    push_expected(alloc, text, program, line)
}

/// Puts a line with a byte that no text may have, and which that is, at the end of the text; it is false, and nothing is put there, where
/// the line has none.
pub(crate) fn push_wrong_byte(text: &mut Page, program: &[u8], line: u32) -> bool {
    let words = line_at(program, line);
    let Some(wrong) = wrong_byte(words) else {
        return false;
    };
    push_shown_at(text, program, line, wrong_place(words));
    push_line(text, wrong);
    true
}

// The place of the first byte of a line that no text may have.
fn wrong_place(words: &[u8]) -> usize {
    for (at, byte) in words.iter().enumerate() {
        if !is_of_a_text(*byte) {
            return at;
        }
    }
    0
}

/// Puts the line of a text at which it is refused, and what to look for where the token isn't found.
pub(crate) fn push_looked_for(text: &mut Page, program: &[u8], line: u32) {
    push_shown(text, program, line);
    push_line(text, LOOKED_FOR)
}

/// Puts the line of a program that breaks a rule, which name breaks it, what the rule asks for and how to mend it at the end of the text.
/// Line 0 is none. Want of memory is the only error.
pub fn push_broken_program(
    alloc: Global,
    text: &mut Page,
    program: &[u8],
    tables: &str,
    rule: Rule,
    holder: &str,
    line: u32,
) -> Result<(), AllocError> {
    let tables = tables_of(alloc, tables)?;
    let tree = parsed(alloc, program)?;
    let place = Place {
        program: &tree,
        tables: &tables,
        rule,
        line,
    };
    push_broken_line(alloc, text, program, place, holder)
}

// The tables of a text; none where it is refused.
fn tables_of(alloc: Global, text: &str) -> Result<Tables, AllocError> {
    match Tables::from_toml(alloc, text) {
        Ok(tables) => Ok(tables),
        Err(TablesError::NoMemory) => Err(AllocError),
        Err(_) => Ok(Tables::new(alloc)),
    }
}

// The program of a text; one without declarations where it is refused.
fn parsed(alloc: Global, text: &[u8]) -> Result<Program, AllocError> {
    match parse(alloc, text) {
        Ok(program) => Ok(program),
        Err(TextError::NoMemory) => Err(AllocError),
        Err(TextError::Text { .. }) => Ok(Program {
            declarations: Vec::new(alloc),
        }),
    }
}

/// Puts such a line of a text whose procedures are some of a program's at the end of the text.
pub(crate) fn push_broken_line(
    alloc: Global,
    text: &mut Page,
    written: &[u8],
    place: Place<'_>,
    holder: &str,
) -> Result<(), AllocError> {
    let words = line_at(written, place.line);
    let broken = broken_by(alloc, place, holder)?;
    let at = match broken {
        Some(broken) => place_of_name(alloc, words, broken.name())?,
        None => 0,
    };
    push_shown_at(text, written, place.line, at);
    if let Some(broken) = broken {
        push_broken_name(text, place, broken);
    }
    push_rule_on(alloc, text, place.rule, words)
}

// What is said of a line with a byte that no text may have.
pub(crate) fn wrong_byte(words: &[u8]) -> Option<&'static str> {
    if has_byte(words, 13) {
        return Some("The line ends with a carriage return: lines end with a line feed alone.");
    }
    for byte in words {
        if !is_of_a_text(*byte) {
            return Some("The line has a byte that is neither a tab nor one from space to `~`.");
        }
    }
    None
}

// Whether a line has that byte.
pub(crate) fn has_byte(words: &[u8], wanted: u8) -> bool {
    for byte in words {
        if *byte == wanted {
            return true;
        }
    }
    false
}

// Whether a text may have that byte within a line.
fn is_of_a_text(byte: u8) -> bool {
    byte == 9 || (32 <= byte && byte <= 126)
}

// The line of that number, counted from 1, without its end; nothing where there is no such line.
pub(crate) fn line_at(program: &[u8], line: u32) -> &[u8] {
    let mut number = 1;
    let mut begin = 0;
    for (at, byte) in program.iter().enumerate() {
        if *byte == b'\n' {
            if number == line {
                return program.get(begin..at).unwrap_or(&[]);
            }
            if number == u32::MAX {
                return &[];
            }
            number += 1;
            begin = at.saturating_add(1);
        }
    }
    if number == line {
        return program.get(begin..).unwrap_or(&[]);
    }
    &[]
}

/// Puts the line of that number of a text, counted from 1, at the end of the text, as far as it isn't too long to be shown; nothing for
/// line 0. What isn't a byte of a program is shown as a question mark.
pub fn push_shown(text: &mut Page, program: &[u8], line: u32) {
    push_shown_at(text, program, line, 0)
}

/// Puts such a line, and where it is too long to be shown a part with the byte of that place, counted from 0.
pub(crate) fn push_shown_at(text: &mut Page, program: &[u8], line: u32, place: usize) {
    if line == 0 {
        return;
    }
    let words = line_at(program, line);
    let from = shown_from(words.len(), place);
    if from == 0 {
        return push_line_shown(text, words, line as usize);
    }
    text.put_count("  ", u64::from(line), " | .. ");
    push_bytes(text, words.get(from..).unwrap_or(&[]));
    text.put("\n")
}

// From which place on a line of so many bytes is shown, so that the byte of a place is among them.
fn shown_from(length: usize, place: usize) -> usize {
    if place < MOST_SHOWN - 20 {
        return 0;
    }
    place
        .saturating_sub(MOST_SHOWN / 2)
        .min(length.saturating_sub(MOST_SHOWN))
}

/// Puts a line that is given by itself, with its number, at the end of the text as `push_shown` does.
pub(crate) fn push_line_shown(text: &mut Page, words: &[u8], number: usize) {
    text.put_count("  ", number as u64, " | ");
    push_bytes(text, words);
    text.put("\n")
}

/// Puts bytes at the end of the text, as far as they aren't too many to be shown.
pub(crate) fn push_bytes(text: &mut Page, words: &[u8]) {
    for byte in words.iter().take(MOST_SHOWN) {
        let shown = if is_of_a_text(*byte) {
            *byte as char
        } else {
            '?'
        };
        text.push(shown);
    }
    if words.len() > MOST_SHOWN {
        text.put(" ..");
    }
}
