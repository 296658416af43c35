// What is said of an edit that no session comes to.
use crate::running::session;
use explanations::edits::push_refused;
use input_tables::Tables;
use linked_program::checked::Checked;
use session_edits::{Edit, EditError};
use std::alloc::Global;
use std::process::Abort;
use text_page::Page;
use trace_report::edits::push_edit_refusal;

// Writes that an edit was refused so, and why.
fn push_edit(
    rt: &impl Abort,
    alloc: Global,
    page: &mut Page,
    edit: &Edit<'_>,
    error: &EditError,
    program: &Checked,
    tables: &Tables,
) {
    push_edit_refusal(&mut page.words, error).expect(rt, "memory");
    push_refused(alloc, page, edit, error, program.program(), tables).expect(rt, "memory");
}

// Writes that no number is left for an edit.
fn push_exhausted(
    rt: &impl Abort,
    alloc: Global,
    page: &mut Page,
    program: &Checked,
    tables: &Tables,
) {
    let edit = Edit::Delete {
        table: "sales",
        row: 3,
    };
    push_edit(
        rt,
        alloc,
        page,
        &edit,
        &EditError::Exhausted,
        program,
        tables,
    );
}

const NO_NUMBER: &str =
    "refused E18\n  No number is left to count it by. A session that is begun anew counts from 0.\n";

// No session comes to the last number of edits.
fn edit_without_a_number(rt: &impl Abort, alloc: Global, program: &Checked, tables: &Tables) {
    let mut page = Page::new(alloc);
    push_exhausted(rt, alloc, &mut page, program, tables);
    let text = page.whole().expect(rt, "memory");
    assert!(rt; text.as_str() == NO_NUMBER);
}

#[test]
fn no_number_for_an_edit(rt: HostRuntime) {
    let tables = "[sales]\ncolumns = [\"qty\"]\nrows = [[3, 7]]\n";
    let session = session(&rt, rt.alloc(), b"proc main() { return 0; }", tables);
    edit_without_a_number(&rt, rt.alloc(), session.checked(), session.tables());
    session.end();
}
