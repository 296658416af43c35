//! What is wrong with a tables' text.

use crate::lines::first_word;
use crate::programs::{has_byte, line_at, push_shown_at};
use crate::rules::push_line;
use std::alloc::{AllocError, Global};
use std::collections::BTreeSet;
use text_page::Page;
use token_scanner::{LONGEST_TEXT, Placed, Token, tokens};
use toml::{Table as Members, Value};

const MOST_TABLES: usize = 64;

const MOST_COLUMNS: usize = 8;

const LAST_ROW: i64 = 2147483647;

/// Puts the line of a text that isn't TOML, and what the reader of TOML says of it, at the end of the text.
pub fn push_bad_toml(alloc: Global, text: &mut Page, tables: &str) {
    let Err(error) = toml::table_from_str(alloc, tables) else {
        return;
    };
    let bytes = tables.as_bytes();
    if let Some(span) = error.span() {
        push_shown_at(
            text,
            bytes,
            line_of(bytes, span.start),
            place_in_line(bytes, span.start),
        );
    }
    push_line(text, error.message());
    if is_of_program(bytes) {
        push_line(
            text,
            "This is a program: PROGRAM comes first, and TABLES, the file of the tables, behind it.",
        );
    } else if is_of_commas(line_at(bytes, 1)) {
        push_line(
            text,
            "It looks like a CSV file: `tools/tables_from_csv FILE.csv > tables.toml` makes tables of one.",
        );
    }
}

// The number of the line, counted from 1, that the byte of that number, counted from 0, is of.
fn line_of(bytes: &[u8], place: usize) -> u32 {
    let mut line: u32 = 1;
    for byte in bytes.iter().take(place) {
        if *byte == b'\n' {
            line = line.saturating_add(1);
        }
    }
    line
}

// How many bytes of its line stand in front of the byte of that number.
fn place_in_line(bytes: &[u8], place: usize) -> usize {
    let mut before: usize = 0;
    for byte in bytes.iter().take(place) {
        before = if *byte == b'\n' {
            0
        } else {
            before.saturating_add(1)
        };
    }
    before
}

// Whether the first word of a text, comments aside, is one with which a program begins.
fn is_of_program(text: &[u8]) -> bool {
    for line in text.split(|byte| *byte == b'\n') {
        let word = first_word(line);
        match word.first() {
            None | Some(b'#') => {}
            Some(_) => return is_declaration(word),
        }
    }
    false
}

fn is_declaration(word: &[u8]) -> bool {
    word == b"reducer".as_slice() || word == b"memo".as_slice() || word == b"proc".as_slice()
}

// Whether a line is of words with marks between them, as the first of a CSV file is, and could be none of a file of tables.
fn is_of_commas(line: &[u8]) -> bool {
    (has_byte(line, b',') || has_byte(line, b';') || has_byte(line, b'\t'))
        && !has_byte(line, b'=')
        && !has_byte(line, b'[')
        && !has_byte(line, b'#')
}

/// Whether a text is TOML that has a table. Want of memory is the only error.
pub(crate) fn is_of_tables(alloc: Global, text: &[u8]) -> Result<bool, AllocError> {
    let Ok(words) = str::from_utf8(text) else {
        return Ok(false);
    };
    match toml::table_from_str(alloc, words) {
        Ok(document) => Ok(has_table(&document)),
        Err(error) if error.is_memory() => Err(AllocError),
        Err(_) => Ok(false),
    }
}

fn has_table(document: &Members) -> bool {
    for value in document.values() {
        if value.as_table().is_some() {
            return true;
        }
    }
    false
}

/// Puts what is wrong with the table of that name, and with which column or row of it, at the end of the text. Want of memory is the only
/// error.
pub fn push_bad_table(
    alloc: Global,
    text: &mut Page,
    tables: &str,
    name: &str,
) -> Result<(), AllocError> {
    let Ok(document) = toml::table_from_str(alloc, tables) else {
        return Ok(());
    };
    if document.len() > MOST_TABLES {
        push_line(text, "There are more than 64 tables.");
        return Ok(());
    }
    match document.get(name) {
        Some(value) => push_wrong(alloc, text, name, value),
        None => Ok(()),
    }
}

// Puts the first that is wrong with a value that is no table of numbers.
fn push_wrong(alloc: Global, text: &mut Page, name: &str, value: &Value) -> Result<(), AllocError> {
    if !is_name(alloc, name)? {
        push_line(
            text,
            "A table's name is a lower-case letter and then lower-case letters, digits and `_`, at most 32 bytes, and no keyword.",
        );
        return Ok(());
    }
    let Some(members) = value.as_table() else {
        push_line(
            text,
            "This key has no table: write `[name]`, and `columns` and `rows` below it.",
        );
        return Ok(());
    };
    let (Some(columns), Some(rows)) = (array_at(members, "columns"), array_at(members, "rows"))
    else {
        push_line(text, "`columns` or `rows` is missing, or is no array.");
        return Ok(());
    };
    if members.len() != 2 {
        push_line(text, "A table has no other keys than `columns` and `rows`.");
        return Ok(());
    }
    if push_wrong_columns(alloc, text, columns)? {
        return Ok(());
    }
    push_wrong_rows(alloc, text, columns, rows)
}

// The array at a key.
fn array_at<'a>(members: &'a Members, key: &str) -> Option<&'a Vec<Value>> {
    match members.get(key) {
        Some(value) => value.as_array(),
        None => None,
    }
}

// Puts the first that is wrong with the columns, and answers whether there is such.
fn push_wrong_columns(
    alloc: Global,
    text: &mut Page,
    columns: &[Value],
) -> Result<bool, AllocError> {
    if columns.is_empty() || columns.len() > MOST_COLUMNS {
        let count = columns.len();
        text.put_count(
            "  A table has 1 to 8 columns, and `columns` has ",
            count as u64,
            " entries.\n",
        );
        return Ok(true);
    }
    for (at, column) in columns.iter().enumerate() {
        if let Some(wrong) = wrong_with_column(alloc, columns, at, column)? {
            let entry = at.saturating_add(1);
            text.put_count("  Entry ", entry as u64, "");
            text.put_named(" of `columns`: ", wrong, "\n");
            return Ok(true);
        }
    }
    Ok(false)
}

// What is wrong with a column behind so many others.
fn wrong_with_column(
    alloc: Global,
    columns: &[Value],
    at: usize,
    column: &Value,
) -> Result<Option<&'static str>, AllocError> {
    let Some(name) = column.as_str() else {
        return Ok(Some("a column is a text, in quotation marks."));
    };
    if !is_name(alloc, name)? {
        return Ok(Some(
            "a column's name is a lower-case letter and then lower-case letters, digits and `_`, at most 32 bytes, and no keyword.",
        ));
    }
    if is_among(columns, at, name) {
        return Ok(Some("an earlier column has that name."));
    }
    Ok(None)
}

// Whether one of so many first columns has that name.
fn is_among(columns: &[Value], count: usize, name: &str) -> bool {
    for column in columns.iter().take(count) {
        if column.as_str() == Some(name) {
            return true;
        }
    }
    false
}

// Puts the first that is wrong with the rows.
fn push_wrong_rows(
    alloc: Global,
    text: &mut Page,
    columns: &[Value],
    rows: &[Value],
) -> Result<(), AllocError> {
    let mut numbers = BTreeSet::new(alloc);
    for (at, row) in rows.iter().enumerate() {
        if push_wrong_row(text, &mut numbers, columns, at.saturating_add(1), row)? {
            return Ok(());
        }
    }
    push_line(text, "It isn't of the shape that docs/LANGUAGE.md gives.");
    Ok(())
}

// Puts the first that is wrong with an entry of the rows, and answers whether there is such; the row's number is put among the others.
fn push_wrong_row(
    text: &mut Page,
    numbers: &mut BTreeSet<i64>,
    columns: &[Value],
    entry: usize,
    row: &Value,
) -> Result<bool, AllocError> {
    let Some(cells) = row.as_array() else {
        text.put_count(
            "  Entry ",
            entry as u64,
            " of `rows`: a row is an array, its number and then a value for each column.\n",
        );
        return Ok(true);
    };
    if push_wrong_count(text, columns, entry, cells)
        || push_wrong_value(text, columns, entry, cells)
    {
        return Ok(true);
    }
    let Some(number) = number_of(cells) else {
        return Ok(false);
    };
    if number < 0 || LAST_ROW < number {
        text.put_count("  Entry ", entry as u64, "");
        text.put_number(
            " of `rows`: a row's number is one of 0 to 2147483647, and ",
            number,
            " isn't.\n",
        );
        return Ok(true);
    }
    if numbers.insert(number)? {
        return Ok(false);
    }
    text.put_count("  Entry ", entry as u64, "");
    text.put_number(" of `rows`: an earlier row has the number ", number, ".\n");
    Ok(true)
}

// The number of a row.
fn number_of(cells: &[Value]) -> Option<i64> {
    cells.first()?.as_integer()
}

// Puts that a row has too few or too many values, and answers whether it has.
fn push_wrong_count(text: &mut Page, columns: &[Value], entry: usize, cells: &[Value]) -> bool {
    let wanted = columns.len();
    let found = cells.len().saturating_sub(1);
    if !cells.is_empty() && found == wanted {
        return false;
    }
    push_entry(text, entry, cells);
    text.put_count(
        "a row has its number and then one value for each column; columns ",
        wanted as u64,
        ", values ",
    );
    text.put_count("", found as u64, ".\n");
    true
}

// Puts which value of a row is no whole number, and answers whether one is.
fn push_wrong_value(text: &mut Page, columns: &[Value], entry: usize, cells: &[Value]) -> bool {
    for (place, cell) in cells.iter().enumerate() {
        if !cell.is_integer() {
            push_entry(text, entry, cells);
            push_cell(text, columns, place);
            text.put(" is no whole number of 64 bits.\n");
            return true;
        }
    }
    false
}

// Puts which entry of the rows is spoken of, and its number, where it has one.
fn push_entry(text: &mut Page, entry: usize, cells: &[Value]) {
    text.put_count("  Entry ", entry as u64, " of `rows`");
    if let Some(number) = number_of(cells) {
        text.put_number(", row ", number, "");
    }
    text.put(": ")
}

// Puts which value of a row is spoken of: its number, which is the first, or that of a column.
fn push_cell(text: &mut Page, columns: &[Value], place: usize) {
    if place == 0 {
        return text.put("its number, the first value,");
    }
    let name = match columns.get(place - 1) {
        Some(column) => column.as_str().unwrap_or(""),
        None => "",
    };
    text.put_named("the value of `", name, "`");
}

// Whether a text is a name by itself, as programs have them.
fn is_name(alloc: Global, text: &str) -> Result<bool, AllocError> {
    if text.len() > LONGEST_TEXT {
        return Ok(false);
    }
    let tokens = tokens(alloc, text.as_bytes())?;
    Ok(is_named(tokens.first(), text))
}

// Whether a token is that name.
fn is_named(placed: Option<&Placed<'_>>, text: &str) -> bool {
    match placed {
        Some(placed) => matches!(placed.token, Token::Name(name) if name == text),
        None => false,
    }
}
