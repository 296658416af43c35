//! Why an edit of a script is refused, and what would be taken.

use crate::broken::Place;
use crate::defines::{push_bad_define, push_broken};
use crate::rules::push_line;
use input_tables::{RowError, Tables};
use meaning::tree::Program;
use session_edits::{Edit, EditError};
use std::alloc::{AllocError, Global};
use text_page::Page;

// How many names are listed at most.
const MOST_LISTED: usize = 8;

/// Puts the lines under an edit that is refused for that reason, where these are the program and the tables, at the end of the text.
/// Want of memory is the only error.
pub fn push_refused(
    alloc: Global,
    text: &mut Page,
    edit: &Edit<'_>,
    error: &EditError,
    program: &Program,
    tables: &Tables,
) -> Result<(), AllocError> {
    match error {
        EditError::Row(error) => {
            push_row_refused(text, edit, error, tables);
            Ok(())
        }
        EditError::BadText { line } => push_bad_define(alloc, text, text_in(edit), *line),
        EditError::Broken { rule, holder, line } => {
            let place = Place {
                program,
                tables,
                rule: *rule,
                line: *line,
            };
            push_broken(alloc, text, text_in(edit), place, holder)
        }
        EditError::Exhausted => {
            push_exhausted(text);
            Ok(())
        }
    }
}

fn push_row_refused(text: &mut Page, edit: &Edit<'_>, error: &RowError, tables: &Tables) {
    let (table, row, given) = row_in(edit);
    match error {
        RowError::UnknownTable => push_unknown_table(text, table, tables),
        RowError::WrongColumns => push_wrong_columns(text, table, row, given, tables),
        RowError::RowRange => text.put_number(
            "  A row's number is one of 0 to 2147483647, and ",
            row,
            " isn't. It stands behind the table's name.\n",
        ),
        RowError::NoRow => push_no_row(text, table, row, tables),
        RowError::Exhausted => push_exhausted(text),
    }
}

fn push_exhausted(text: &mut Page) {
    push_line(
        text,
        "No number is left to count it by. A session that is begun anew counts from 0.",
    )
}

// The table and the row that an edit speaks of, and how many values it gives the row.
fn row_in<'a>(edit: &'a Edit<'_>) -> (&'a str, i64, usize) {
    match edit {
        Edit::Put { table, row, values } => (table, *row, values.len()),
        Edit::Delete { table, row } => (table, *row, 0),
        Edit::Define(_) => ("", 0, 0),
    }
}

// The text that an edit defines procedures by.
fn text_in<'a>(edit: &'a Edit<'_>) -> &'a [u8] {
    match edit {
        Edit::Define(text) => text,
        _ => &[],
    }
}

/// Puts that there is no such table, and which ones there are, at the end of the text.
pub(crate) fn push_unknown_table(text: &mut Page, table: &str, tables: &Tables) {
    text.put_named("  There is no table `", table, "`. ");
    if tables.count() == 0 {
        return text.put("The tables' file has none.\n");
    }
    text.put("The tables are ");
    for number in 0..tables.count().min(MOST_LISTED) {
        push_listed(text, number, tables.name(number));
    }
    push_rest(text, tables.count())
}

/// Puts one more name of a list.
pub(crate) fn push_listed(text: &mut Page, number: usize, name: &str) {
    if number > 0 {
        text.put(", ");
    }
    text.put_named("`", name, "`");
}

/// Puts the end of a list of so many names.
pub(crate) fn push_rest(text: &mut Page, names: usize) {
    if names > MOST_LISTED {
        let more = names - MOST_LISTED;
        text.put_count(" and ", more as u64, " more");
    }
    text.put(".\n")
}

fn push_wrong_columns(text: &mut Page, table: &str, row: i64, given: usize, tables: &Tables) {
    let Some(number) = tables.table(table) else {
        return;
    };
    let columns = tables.columns(number);
    push_given(text, given);
    push_wanted(text, table, columns.len());
    for (number, column) in columns.iter().enumerate() {
        push_listed(text, number, column);
    }
    let values = values_of(columns.len());
    text.put_named(".\n  Write `put ", table, " ");
    text.put_number("", row, "");
    text.put_named("` and then ", values, ".\n");
}

// How many values a row of so many columns has, in words.
fn values_of(columns: usize) -> &'static str {
    match columns {
        1 => "one value",
        2 => "two values",
        3 => "three values",
        4 => "four values",
        5 => "five values",
        6 => "six values",
        7 => "seven values",
        _ => "eight values",
    }
}

fn push_given(text: &mut Page, given: usize) {
    if given == 1 {
        return text.put("  There is one value here, ");
    }
    text.put_count("  There are ", given as u64, " values here, ");
}

fn push_wanted(text: &mut Page, table: &str, columns: usize) {
    if columns == 1 {
        text.put_named("and a row of `", table, "` has one: ");
        return;
    }
    text.put_named("and a row of `", table, "` has ");
    text.put_count("", columns as u64, ": ");
}

fn push_no_row(text: &mut Page, table: &str, row: i64, tables: &Tables) {
    text.put_named("  The table `", table, "` has no row ");
    text.put_number("", row, ", so none can be deleted. ");
    match tables.table(table) {
        Some(number) => push_greatest(text, tables.limit(number)),
        None => text.put("\n"),
    }
}

// Puts what the greatest row of a table is.
fn push_greatest(text: &mut Page, limit: i64) {
    if limit <= 0 {
        return text.put("It has no rows at all.\n");
    }
    let greatest = limit - 1;
    text.put_number("Its greatest row is ", greatest, ".\n");
}
