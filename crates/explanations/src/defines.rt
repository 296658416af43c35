//! Why a text that defines procedures is refused.

use crate::broken::{Place, broken_by};
use crate::broken_words::push_broken_name;
use crate::expected::push_expected;
use crate::programs::{push_broken_line, push_shown, push_wrong_byte};
use crate::rules::{push_line, push_rule};
use crate::statements::{procedure_called, push_statement, statement_on};
use meaning::tree::Program;
use procedure_parser::{TextError, parse, parse_define};
use std::alloc::{AllocError, Global};
use text_page::Page;
use token_scanner::{LONGEST_TEXT, Mark, Placed, Token, tokens};

/// Puts the line of a text at which it can't go on as one of procedures, and what is wrong or was expected there, at the end of the text.
/// Line 0 is a text that is too long. Want of memory is the only error.
pub(crate) fn push_bad_define(
    alloc: Global,
    text: &mut Page,
    define: &[u8],
    line: u32,
) -> Result<(), AllocError> {
    if line == 0 {
        push_line(text, "The text has more than 1,048,576 bytes.");
        return Ok(());
    }
    if push_wrong_byte(text, define, line) {
        return Ok(());
    }
    if let Some(wrong) = wrong_for_a_define(alloc, define, line)? {
        push_shown(text, define, line);
        push_line(text, wrong);
        return Ok(());
    }
    push_expected(alloc, text, define, line)
}

// What is said of a text that a program could have, but no define.
fn wrong_for_a_define(
    alloc: Global,
    define: &[u8],
    line: u32,
) -> Result<Option<&'static str>, AllocError> {
    if define.len() > LONGEST_TEXT {
        return Ok(None);
    }
    let tokens = tokens(alloc, define)?;
    if tokens.is_empty() {
        return Ok(Some(
            "A `define` holds one procedure or more, between its line and that of `end`.",
        ));
    }
    if has_reducer_on(&tokens, line) {
        return Ok(Some("A `define` holds procedures alone: a session keeps the reducers it has."));
    }
    if parse(alloc, define).is_ok() {
        return Ok(Some("With this procedure the program would have more than 256."));
    }
    Ok(None)
}

// Whether a token is the word `reducer` on that line.
fn has_reducer_on(tokens: &[Placed], line: u32) -> bool {
    for placed in tokens {
        if matches!(placed.token, Token::Sign(Mark::Reducer)) && placed.line == line {
            return true;
        }
    }
    false
}

/// Puts the line by which a define would break a rule, which name breaks it, what the rule asks for and how to mend it at the end of the
/// text. It is a line of the define, or of the text that a procedure of the place's program, which is that without the define, has come
/// from. Want of memory is the only error.
pub(crate) fn push_broken(
    alloc: Global,
    text: &mut Page,
    define: &[u8],
    place: Place<'_>,
    holder: &str,
) -> Result<(), AllocError> {
    match parse_define(alloc, define, place.program) {
        Ok(program) => {
            let place = Place {
                program: &program,
                tables: place.tables,
                rule: place.rule,
                line: place.line,
            };
            push_broken_in(alloc, text, define, place, holder)
        }
        Err(TextError::NoMemory) => Err(AllocError),
        Err(TextError::Text { .. }) => Ok(()),
    }
}

// Puts that of a place in the program with the define.
fn push_broken_in(
    alloc: Global,
    text: &mut Page,
    define: &[u8],
    place: Place<'_>,
    holder: &str,
) -> Result<(), AllocError> {
    if defines(alloc, define, holder)? {
        return push_broken_line(alloc, text, define, place, holder);
    }
    push_older(text, place.program, holder, place.line);
    if let Some(broken) = broken_by(alloc, place, holder)? {
        push_broken_name(text, place, broken);
    }
    push_rule(text, place.rule);
    Ok(())
}

// Whether a text defines the procedure of that name.
fn defines(alloc: Global, define: &[u8], name: &str) -> Result<bool, AllocError> {
    if define.len() > LONGEST_TEXT {
        return Ok(false);
    }
    let tokens = tokens(alloc, define)?;
    Ok(defines_in(&tokens, name))
}

// Whether that name stands behind `proc` among these tokens.
fn defines_in(tokens: &[Placed], name: &str) -> bool {
    let mut is_next = false;
    for placed in tokens {
        match placed.token {
            Token::Name(found) if is_next && found == name => return true,
            Token::Sign(Mark::Proc) => is_next = true,
            _ => is_next = false,
        }
    }
    false
}

// Puts the statement on that line of a procedure which the program has already.
fn push_older(text: &mut Page, program: &Program, holder: &str, line: u32) {
    text.put_named(
        "  It is `",
        holder,
        "`, which stays as it is, that would break a rule",
    );
    let Some(procedure) = procedure_called(program, holder) else {
        return text.put(".\n");
    };
    text.put(":\n");
    match statement_on(procedure, line) {
        None => {}
        Some(statement) => {
            text.put_count("  ", u64::from(line), " | ");
            push_statement(text, procedure, &statement.action);
            text.put("\n")
        }
    }
}
