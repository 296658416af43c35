//! What a run's memo instances come to and why, as lines for people.

use crate::reason::{Count, Ending, Explained, Reason, Reasons};
use linked_program::checked::Checked;
use meaning::tree::Declaration;
use text_page::Page;

/// Puts what each memo procedure's instances come to, and why the first are executed that are, at the end of the text, a line each.
/// How many are left unrecorded is said where one worker runs: with more it goes by which kits are free when.
pub fn push_reasons(text: &mut Page, checked: &Checked, reasons: &Reasons, workers: usize) {
    for (procedure, count) in reasons.counts.iter().enumerate() {
        push_count(text, checked, procedure, *count, workers);
    }
    for explained in &reasons.first {
        push_explained(text, checked, explained);
    }
    push_rest(text, reasons);
    match reasons.ending {
        Ending::Whole => {}
        Ending::Fault => text.put("  this is as far as the fault\n"),
    }
}

// Puts what a procedure's instances come to, if it has some.
fn push_count(text: &mut Page, checked: &Checked, procedure: usize, count: Count, workers: usize) {
    let Count {
        executed,
        reused,
        unrecorded,
    } = count;
    if executed == 0 && reused == 0 {
        return;
    }
    text.put_named("  ", procedure_name(checked, procedure), " executed ");
    text.put_count("", executed, " reused ");
    text.put_count("", reused, "");
    if workers == 1 {
        text.put_count(" unrecorded ", unrecorded, "");
    }
    text.put("\n");
}

// Puts an instance that is executed, and why.
fn push_explained(text: &mut Page, checked: &Checked, explained: &Explained) {
    text.put_named("  ", procedure_name(checked, explained.procedure), "(");
    for (number, argument) in explained.arguments.iter().enumerate() {
        text.put(if number == 0 { "" } else { ", " });
        text.put_number("", *argument, "");
    }
    text.put("): ");
    push_reason(text, checked, explained.reason);
    text.put("\n");
}

// Puts why an instance is executed.
fn push_reason(text: &mut Page, checked: &Checked, reason: Reason) {
    match reason {
        Reason::NoRecord => text.put("no record"),
        Reason::Defined(procedure) => {
            text.put(procedure_name(checked, procedure));
            text.put(" was defined anew");
        }
        Reason::Cell {
            table,
            row,
            column,
            was,
            found,
        } => push_cell(text, checked, table, row, column, was, found),
        Reason::Row { table, row, was } => push_row(text, checked, table, row, was),
        Reason::Limit { table, was, found } => {
            text.put("limit of ");
            text.put(table_name(checked, table));
            push_change(text, was, found);
        }
        Reason::Sum {
            table,
            column,
            was,
            found,
        } => {
            text.put_named("sum of ", table_name(checked, table), ".");
            text.put(column_name(checked, table, column));
            push_change(text, was, found);
        }
        Reason::TooDeep => text.put("would go too deep"),
    }
}

// Puts what a number was and what it is.
fn push_change(text: &mut Page, was: i64, found: i64) {
    text.put_number(" was ", was, " and is ");
    text.put_number("", found, "");
}

// Puts a cell that is another now.
fn push_cell(
    text: &mut Page,
    checked: &Checked,
    table: usize,
    row: i64,
    column: usize,
    was: i64,
    found: i64,
) {
    text.put(table_name(checked, table));
    text.put_number("[", row, "].");
    text.put(column_name(checked, table, column));
    push_change(text, was, found);
}

// Puts a row that was there or wasn't, which is otherwise now.
fn push_row(text: &mut Page, checked: &Checked, table: usize, row: i64, was: bool) {
    text.put(table_name(checked, table));
    text.put_number("[", row, "");
    text.put(if was {
        "] was there and is not"
    } else {
        "] was not there and is"
    });
}

// Puts what there is besides the instances that are named.
fn push_rest(text: &mut Page, reasons: &Reasons) {
    let executed = executed_in(&reasons.counts);
    if !reasons.has_records && executed > 0 {
        return text.put("  no records yet\n");
    }
    let more = executed.saturating_sub(reasons.first.len() as u64);
    if more > 0 {
        text.put_count("  and ", more, " more\n");
    }
}

// How many instances are executed.
fn executed_in(counts: &[Count]) -> u64 {
    let mut executed: u64 = 0;
    for count in counts {
        executed = executed.saturating_add(count.executed);
    }
    executed
}

// The name of the procedure of that number.
fn procedure_name(checked: &Checked, number: usize) -> &str {
    let mut before = number;
    for declaration in &checked.program().declarations {
        if let Declaration::Procedure(procedure) = declaration {
            if before == 0 {
                return procedure.name.as_str();
            }
            before -= 1;
        }
    }
    ""
}

// The name of the table of that number.
fn table_name(checked: &Checked, number: usize) -> &str {
    match checked.tables().get(number) {
        Some(table) => table.name.as_str(),
        None => "",
    }
}

// The name of the column of that number in a table.
fn column_name(checked: &Checked, table: usize, number: usize) -> &str {
    match checked.tables().get(table) {
        Some(table) => match table.columns.get(number) {
            Some(column) => column.as_str(),
            None => "",
        },
        None => "",
    }
}
