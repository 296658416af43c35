//! What stands under the error of a program that is refused, from its files; and what explains a session's refusals and faults.
#![tactic(auto)]

pub mod causes;
mod failed;
mod missing_cells;
mod missing_rows;
mod missing_values;
mod reuse;
pub mod script;

use crate::causes::push_holder;
use crate::failed::{push_failed, push_failed_program};
use command_line::line::asked_by;
use command_line::options::{Asked, OptionsError};
use command_line::words::{as_strs, held_words};
use explanations::programs::{push_bad_program, push_broken_program};
use explanations::tables::{push_bad_table, push_bad_toml};
use explanations::words::push_mistake;
use prepared_program::prepare::PrepareError;
use program_endings::program_error::ProgramError;
use report_files::ReportFiles;
use report_files::files::FileSource;
use std::alloc::{AllocError, Global};
use std::fmt::Write;
use std::fs;
use std::rt::Runtime;
use text_page::Page;

/// The lines in plain words that belong under a report's error: those of a refused program, or of refused tables, which are read once
/// more by the words of the program's line; why a file failed; which word of the line is wrong. There are none under other errors, and
/// where a refused file can't be read any more.
pub fn reasons_of(
    rt: &(impl Runtime + AllocGlobal),
    alloc: Global,
    reported: &Result<(), ProgramError>,
) -> String {
    let found = match reported {
        Ok(()) => None,
        Err(error) => reasons_by_words(rt, alloc, error),
    };
    found.unwrap_or_else(|| String::new(alloc))
}

// The lines under an error, by the words of the program's line, which are read once more.
fn reasons_by_words(
    rt: &(impl Runtime + AllocGlobal),
    alloc: Global,
    error: &ProgramError,
) -> Option<String> {
    let held = held_words(rt, alloc).ok()?;
    let words = as_strs(alloc, held.as_slice()).ok()?;
    match error {
        ProgramError::Prepare(error) => read_again(rt, alloc, error, words.as_slice()),
        ProgramError::File(path) => failed_again(rt, alloc, path.as_str(), words.as_slice()),
        ProgramError::Line(OptionsError::Usage) => mistaken(alloc, words.as_slice()),
        _ => None,
    }
}

// Which word of the program's line is wrong.
fn mistaken(alloc: Global, words: &[&str]) -> Option<String> {
    let mut usage = String::new(alloc);
    write!(usage, "{}", OptionsError::Usage).ok()?;
    let mut page = Page::new(alloc);
    push_mistake(&mut page, usage.as_str(), words);
    page.whole().ok()
}

// Why a file of the program's line failed.
fn failed_again(
    rt: &(impl Runtime + AllocGlobal),
    alloc: Global,
    path: &str,
    words: &[&str],
) -> Option<String> {
    let asked = asked_by(alloc, words).ok()?;
    let mut text = String::new(alloc);
    if push_failure(&mut text, rt, path, asked).is_err() {
        return None;
    }
    Some(text)
}

// Puts why a file failed that a line which asks for this names.
fn push_failure(
    text: &mut String,
    rt: &(impl Runtime + AllocGlobal),
    path: &str,
    asked: Asked<'_>,
) -> Result<(), AllocError> {
    match asked {
        Asked::Session(options) => push_failed(text, rt, path, options),
        Asked::Print(_) => push_failed_program(text, rt, path),
    }
}

// The lines of a refusal, where the files of the program's line can be read.
fn read_again(
    rt: &(impl Runtime + AllocGlobal),
    alloc: Global,
    error: &PrepareError,
    words: &[&str],
) -> Option<String> {
    match asked_by(alloc, words).ok()? {
        Asked::Session(options) => {
            let tables = fs::read(rt, options.tables).ok()?;
            reasons_beside(rt, alloc, error, options.program, tables.as_slice())
        }
        Asked::Print(path) => reasons_beside(rt, alloc, error, path, &[]),
    }
}

// The lines of a refusal, where the program's file can be read, and the tables are text.
fn reasons_beside(
    rt: &(impl Runtime + AllocGlobal),
    alloc: Global,
    error: &PrepareError,
    path: &str,
    tables: &[u8],
) -> Option<String> {
    let files = ReportFiles {
        rt,
        program: path,
        tables: path,
    };
    let program = files.read(alloc, path).ok()?;
    let tables = str::from_utf8(tables).ok()?;
    reasons(alloc, error, program.as_slice(), tables).ok()
}

/// The lines under the refusal of a program or of tables with these texts. Want of memory is the only error.
pub fn reasons(
    alloc: Global,
    error: &PrepareError,
    program: &[u8],
    tables: &str,
) -> Result<String, AllocError> {
    let mut page = Page::new(alloc);
    match error {
        PrepareError::NoMemory => {}
        PrepareError::Text { line } => push_bad_program(alloc, &mut page, program, *line)?,
        PrepareError::NotToml => push_bad_toml(alloc, &mut page, tables),
        PrepareError::Shape { table } => push_bad_table(alloc, &mut page, tables, table.as_str())?,
        PrepareError::Check { rule, name, line } => {
            push_holder(&mut page, name.as_str());
            push_broken_program(
                alloc,
                &mut page,
                program,
                tables,
                *rule,
                name.as_str(),
                *line,
            )?;
        }
    }
    page.whole()
}

/// Prints the lines on standard error. That they can't be written changes nothing.
pub fn show(rt: &impl Eprint, reasons: &str) {
    let _ = eprint!(rt; "{reasons}");
}
