//! Explanations of what a session refuses, of its runs' faults and of what their memo instances come to, on a stream.

ghost use Rattle.record_theory.specs.InStep.{IsInStep};

use crate::causes::explanation;
use crate::reuse::{outcome_text, reuse_text};
use input_tables::Tables;
use linked_program::checked::Checked;
use positions::answer::RunAnswer;
use program_endings::streams::{Failures, flush, write_whole};
use rerun_records::records::Records;
use session_notes::explained::{Cause, Crew, Explain};
use std::alloc::Global;
use std::io::Write;

/// Writes explanations to a stream. One for which memory is refused is left out, and so is one that can't be written.
#[derive(Drop)]
pub struct Explainer<W: Write + Drop> {
    alloc: Global,
    to: W,
    /// What the memo instances of the run come to that began last.
    reuse: Option<String>,
}

impl<W: Write + Drop> Explainer<W> {
    /// Who explains to that stream.
    pub fn new(alloc: Global, to: W) -> Explainer<W> {
        Explainer {
            alloc,
            to,
            reuse: None,
        }
    }

    // Writes a text, as far as the stream takes it.
    fn write(&mut self, text: &str) {
        let mut failures = Failures::none();
        if write_whole(&mut self.to, text.as_bytes(), &mut failures).is_ok() {
            let _ = flush(&mut self.to, &mut failures);
        }
    }
}

impl<W: Write + Drop> Explain for Explainer<W> {
    fn explain(&mut self, cause: Cause<'_>, checked: &Checked, tables: &Tables) {
        if let Ok(text) = explanation(self.alloc, cause, checked, tables) {
            self.write(text.as_str());
        }
    }

    fn begin(&mut self, crew: Crew, checked: &Checked, tables: &Tables, records: &Records) {
        self.reuse = reuse_text(self.alloc, crew, checked, tables, records).ok();
    }

    fn end(&mut self, number: usize, answer: &RunAnswer) {
        if let Some(reuse) = self.reuse.take() {
            if let Ok(text) = outcome_text(self.alloc, number, reuse.as_str(), answer) {
                self.write(text.as_str());
            }
        }
    }
}
