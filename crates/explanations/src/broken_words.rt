//! The name that breaks a rule, and what there is in its place.

use crate::broken::{Broken, Place, reducer_called};
use crate::edits::{push_listed, push_rest, push_unknown_table};
use input_tables::Tables;
use meaning::tree::{Declaration, Program};
use monoid_laws::Kind;
use text_page::Page;

/// Puts which name breaks a rule, and what there is in its place, at the end of the text.
pub(crate) fn push_broken_name(text: &mut Page, place: Place<'_>, broken: Broken<'_>) {
    match broken {
        Broken::NoTable(table) => push_unknown_table(text, table, place.tables),
        Broken::NoColumn(table, column) => push_no_column(text, table, column, place.tables),
        Broken::Unknown(name) => push_unknown_name(text, place.program, name),
        Broken::NoProcedure(name) => text.put_named("  There is no procedure `", name, "`.\n"),
        Broken::Arguments(name, taken, given) => {
            push_counts(text, name, taken, given, " argument", " arguments")
        }
        Broken::Values(name, taken, given) => {
            push_counts(text, name, taken, given, " value", " values")
        }
        Broken::NoReducer(name) => push_no_reducer(text, place.program, name),
        Broken::Parameter(name) => text.put_named("  `", name, "` is a parameter already.\n"),
        Broken::Bound(name, line) => push_earlier(text, name, "` is bound on line ", line),
        Broken::Declared(name, line) => push_earlier(text, name, "` is declared on line ", line),
    }
}

fn push_earlier(text: &mut Page, name: &str, is: &str, line: u32) {
    text.put_named("  `", name, is);
    text.put_count("", u64::from(line), " already.\n")
}

fn push_no_column(text: &mut Page, table: &str, column: &str, tables: &Tables) {
    text.put_named("  The table `", table, "` has no column `");
    text.put_named("", column, "`. ");
    let Some(number) = tables.table(table) else {
        return text.put("\n");
    };
    let columns = tables.columns(number);
    text.put("Its columns are ");
    for (number, name) in columns.iter().enumerate() {
        push_listed(text, number, name);
    }
    push_rest(text, columns.len())
}

// Puts that a name isn't known; of a reducer's how its value is got, if it can be read.
fn push_unknown_name(text: &mut Page, program: &Program, name: &str) {
    match reducer_called(program, name) {
        None => text.put_named("  `", name, "` isn't known there.\n"),
        Some(reducer) if is_read(&reducer.kind) => {
            text.put_named("  `", name, "` is a reducer: at the end of `main` ");
            text.put_named("`x = read ", name, ";` gives its value to a name.\n")
        }
        Some(_) => text.put_named(
            "  `",
            name,
            "` is a reducer of a kind that isn't read, but printed.\n",
        ),
    }
}

// Whether a program can read reducers of that kind.
fn is_read(kind: &Kind) -> bool {
    !matches!(
        kind,
        Kind::List | Kind::First(_) | Kind::Last(_) | Kind::Argmax | Kind::Affine | Kind::Hist
    )
}

// Puts how many are taken, and how many are given.
fn push_counts(text: &mut Page, name: &str, taken: usize, given: usize, one: &str, more: &str) {
    text.put_named("  `", name, "` takes ");
    text.put_count("", taken as u64, if taken == 1 { one } else { more });
    match given {
        0 => text.put(", and none is given.\n"),
        1 => text.put(", and one is given.\n"),
        _ => text.put_count(", and ", given as u64, " are given.\n"),
    }
}

fn push_no_reducer(text: &mut Page, program: &Program, name: &str) {
    text.put_named("  There is no reducer `", name, "`. ");
    let mut count: usize = 0;
    for declaration in &program.declarations {
        if let Declaration::Reducer(reducer) = declaration {
            if count == 0 {
                text.put("The reducers are ");
            }
            if count < 8 {
                push_listed(text, count, reducer.name.as_str());
            }
            count = count.saturating_add(1);
        }
    }
    if count == 0 {
        return text.put("The program declares none.\n");
    }
    push_rest(text, count)
}
