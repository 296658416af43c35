//! What is said of an edit or a line that is refused, and of a run's fault.

use crate::missing_rows::first_missing;
use explanations::edits::push_refused;
use explanations::faults::push_fault;
use explanations::lines::push_unknown;
use input_tables::Tables;
use linked_program::checked::Checked;
use meaning::FaultKind;
use positions::answer::RunAnswer;
use positions::phase::Fault;
use session_edits::{Edit, EditError};
use session_notes::explained::Cause;
use std::alloc::{AllocError, Global};
use text_page::Page;
use trace_report::answers;
use trace_report::edits::push_edit_refusal;

// How many values of a put are shown.
const MOST_SHOWN: usize = 10;

// How the lines under a refusal begin where they say whose the broken rule is.
const HOLDER: &str = "  It is `";

/// What is said of a cause: a line with what was asked for and its answer, and lines in plain words under it. Want of memory is the only
/// error.
pub fn explanation(
    alloc: Global,
    cause: Cause<'_>,
    checked: &Checked,
    tables: &Tables,
) -> Result<String, AllocError> {
    let mut page = Page::new(alloc);
    match cause {
        Cause::Edit(edit, error) => {
            push_edit(&mut page, edit);
            push_edit_refusal(&mut page.words, error)?;
            push_under_edit(alloc, &mut page, edit, error, checked, tables)?;
        }
        Cause::Line(line, number) => {
            answers::push_unknown(&mut page.words, number)?;
            push_unknown(&mut page, line, number);
        }
        Cause::Fault(number, fault) => push_run(alloc, &mut page, number, *fault, checked, tables)?,
    }
    page.whole()
}

/// Puts who breaks a rule, a procedure or a reducer by its name, at the end of the text; nothing where there is no name.
pub fn push_holder(text: &mut Page, name: &str) {
    if !name.is_empty() {
        text.put_named("  It is `", name, "` that breaks a rule:\n");
    }
}

// Puts the lines under an edit that is refused. Those of a procedure that stays as it is say its name themselves.
fn push_under_edit(
    alloc: Global,
    text: &mut Page,
    edit: &Edit<'_>,
    error: &EditError,
    checked: &Checked,
    tables: &Tables,
) -> Result<(), AllocError> {
    let mut page = Page::new(alloc);
    push_refused(alloc, &mut page, edit, error, checked.program(), tables)?;
    let under = page.whole()?;
    if let EditError::Broken { holder, .. } = error {
        if !under.as_str().starts_with(HOLDER) {
            push_holder(text, holder.as_str());
        }
    }
    text.put(under.as_str());
    Ok(())
}

// Puts an edit as it stands in a script, and a colon; of a define its first word.
fn push_edit(text: &mut Page, edit: &Edit<'_>) {
    match edit {
        Edit::Put { table, row, values } => {
            text.put_named("put ", table, " ");
            text.put_number("", *row, "");
            push_values(text, values);
            text.put(": ");
        }
        Edit::Delete { table, row } => {
            text.put_named("del ", table, " ");
            text.put_number("", *row, ": ");
        }
        Edit::Define(_) => text.put("define: "),
    }
}

// Puts values, each behind a space, as far as they aren't too many to be shown.
fn push_values(text: &mut Page, values: &[i64]) {
    for place in 0..values.len().min(MOST_SHOWN) {
        text.put_number(" ", values[place], "");
    }
    if values.len() > MOST_SHOWN {
        text.put(" ..");
    }
}

// Puts the answer of a run that came to a fault, and what that means.
fn push_run(
    alloc: Global,
    text: &mut Page,
    number: usize,
    fault: Fault,
    checked: &Checked,
    tables: &Tables,
) -> Result<(), AllocError> {
    let Fault {
        kind,
        procedure,
        statement,
    } = fault;
    text.put_count("run ", number as u64, ": ");
    answers::push_outcome(alloc, &mut text.words, checked, &RunAnswer::Fault(fault))?;
    let missed = missed_row(alloc, kind, checked, tables);
    push_fault(text, checked.program(), kind, procedure, statement, missed);
    Ok(())
}

// The table and the row that a run misses first, where that is its fault.
fn missed_row<'a>(
    alloc: Global,
    kind: FaultKind,
    checked: &Checked,
    tables: &'a Tables,
) -> Option<(&'a str, i64)> {
    if kind != FaultKind::MissingRow {
        return None;
    }
    let missed = first_missing(alloc, checked, tables)?;
    if missed.table < tables.count() {
        return Some((tables.name(missed.table), missed.row));
    }
    None
}
