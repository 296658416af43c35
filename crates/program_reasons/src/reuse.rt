// What is said of the memo instances of a run.
ghost use Rattle.record_theory.specs.InStep.{IsInStep};

use input_tables::Tables;
use linked_program::checked::Checked;
use positions::answer::RunAnswer;
use rerun_reasons::{push_reasons, reasons};
use rerun_records::records::Records;
use session_notes::explained::Crew;
use std::alloc::{AllocError, Global};
use text_page::Page;

/// What the memo instances of a run by that crew come to that begins with these tables and records, and why. Want of memory is the only
/// error.
pub(crate) fn reuse_text(
    alloc: Global,
    crew: Crew,
    checked: &Checked,
    tables: &Tables,
    records: &Records,
) -> Result<String, AllocError>
    requires in_step { IsInStep tables.now.tables records.now }
{
    let found = reasons(alloc, checked, tables, records, crew.kits)?;
    let mut page = Page::new(alloc);
    push_reasons(&mut page, checked, &found, crew.workers);
    page.whole()
}

/// Those reasons behind the run's number, and how many instances it left unrecorded, if it did. Want of memory is the only error.
pub(crate) fn outcome_text(
    alloc: Global,
    number: usize,
    reuse: &str,
    answer: &RunAnswer,
) -> Result<String, AllocError> {
    let mut page = Page::new(alloc);
    page.put_count("why ", number as u64, "\n");
    page.put(reuse);
    let unrecorded = unrecorded_in(answer);
    if unrecorded > 0 {
        page.put_count("  unrecorded ", unrecorded, ": no kit was free\n");
    }
    page.whole()
}

// How many instances a run left unrecorded.
fn unrecorded_in(answer: &RunAnswer) -> u64 {
    match answer {
        RunAnswer::Finished { unrecorded, .. } => *unrecorded,
        _ => 0,
    }
}
