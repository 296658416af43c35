//! What a run's fault means.

use crate::rules::push_line;
use crate::statements::{procedure_at, push_statement, statement_at};
use meaning::FaultKind;
use meaning::tree::{Action, Declaration, Program, Statement};
use monoid_laws::Kind;
use text_page::Page;

/// Puts the lines under a fault of a program at a statement of the procedure of that number, counted from 0, at the end of the text. A
/// missing row is given by its table's name and its number, where they are known.
pub fn push_fault(
    text: &mut Page,
    program: &Program,
    kind: FaultKind,
    procedure: usize,
    statement: u32,
    missed: Option<(&str, i64)>,
) {
    let Some(procedure) = procedure_at(program, procedure) else {
        return;
    };
    let name = procedure.name.as_str();
    text.put_named("  ", name, ", statement ");
    text.put_count("", u64::from(statement), " | ");
    let Some(statement) = statement_at(procedure, statement) else {
        return text.put("\n");
    };
    push_statement(text, procedure, &statement.action);
    text.put("\n");
    match (kind, missed) {
        (FaultKind::MissingRow, Some((table, row))) => push_missed(text, table, row),
        _ => push_kind(text, program, kind, statement),
    }
}

// Puts what a fault of that kind is, and how to keep clear of it.
fn push_kind(text: &mut Page, program: &Program, kind: FaultKind, statement: &Statement) {
    match kind {
        FaultKind::DivideByZero => {
            push_line(text, "The number behind a `/` or `%` was 0 there.");
            push_line(text, "Test it first: `if d != 0 { .. }`.")
        }
        FaultKind::MissingRow => {
            push_line(
                text,
                "A cell is read there of a row that its table doesn't have.",
            );
            push_line(text, "Ask first by `has`, or put the row in.")
        }
        FaultKind::RangeTooLong => {
            push_line(text, "The loop would have more than 1,048,576 iterations.");
            push_line(
                text,
                "See what its bounds come to, or loop over parts of the range.",
            )
        }
        FaultKind::TooDeep => {
            push_line(
                text,
                "What is entered there would be at depth 257, and `main` is at depth 1.",
            );
            push_line(
                text,
                "See whether a procedure enters itself without an end, or use a loop.",
            )
        }
        FaultKind::BadElement => push_element(text, program, statement),
    }
}

// Puts the row that isn't there.
fn push_missed(text: &mut Page, table: &str, row: i64) {
    text.put_named("  The table `", table, "` has no row ");
    text.put_number("", row, ".\n");
    if row < 0 {
        return push_line(text, "No row has a number below 0: see how it is made.");
    }
    text.put_named(
        "  Ask first by `has ",
        table,
        "[..]`, or put the row in: `put ",
    );
    text.put(table);
    text.put_number(" ", row, " ..`.\n");
}

// Puts which elements a table reducer has.
fn push_element(text: &mut Page, program: &Program, statement: &Statement) {
    push_line(
        text,
        "A table reducer was given a number that is none of its elements.",
    );
    let Action::Update(reducer, _) = &statement.action else {
        return;
    };
    match size_of(program, reducer) {
        None => {}
        Some(size) => {
            let last = size.saturating_sub(1);
            text.put_named("  The elements of `", reducer, "` are 0 to ");
            text.put_count("", u64::from(last), ".\n");
        }
    }
}

// How many elements a table reducer has.
fn size_of(program: &Program, name: &str) -> Option<u8> {
    for declaration in &program.declarations {
        if let Declaration::Reducer(reducer) = declaration {
            if reducer.name.as_str() == name {
                return match &reducer.kind {
                    Kind::Table(table) => Some(table.size),
                    _ => None,
                };
            }
        }
    }
    None
}
