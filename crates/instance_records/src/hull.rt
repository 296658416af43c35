//! Rows that hold all that some records have read.
ghost use Rattle.std.specs.Prelude.{◌≡◌, ℕ, List, Some, IfOk, OnOk, slice_get, true};
ghost use Rattle.evaluation.specs.declared.note.Note.{Note as PlainNote};
ghost use Rattle.meaning.specs.Every.{every};
ghost use Rattle.instance_records.specs.declared.spans.Span.{Span as PlainSpan};
ghost use Rattle.instance_records.specs.Spans.{is_covered_by, is_touched};

use crate::few_spans::FewSpans;
use crate::readings::Readings;
use crate::record::Record;
use crate::spans::{are_touched, hold_rows, put_spans};
use std::alloc::{AllocError, Global};
use std::marker::Model;

/// Stretches of rows, one for each table.
#[derive(Drop)]
pub struct Hull {
    alloc: Global,
    spans: FewSpans,
}

impl Model for Hull {
    ghost use Rattle.std.specs.Prelude.{List};
    ghost use Rattle.instance_records.specs.declared.spans.Span.{Span};
    ghost use Rattle.instance_records.specs.Spans.{spans_in};

    ghost Value = { List Span };

    ghost view = { λ h. spans_in h.spans };
}

impl Hull {
    /// The rows of what these records have read, without spare room.
    pub fn of(alloc: Global, records: &[Record]) -> Result<Hull, AllocError>
        ensures held { IfOk result (λ h.
            every (λ r. every (is_covered_by h) r.reads) records.now ≡ true) }
    {
        let mut spans = Vec::new(alloc);
        for record in records {
            record.reads().put_rows(&mut spans)?;
        }
        let spans = FewSpans::packed(spans);
        Ok(Hull { alloc, spans })
    }

    /// The rows of these hulls together, without spare room.
    pub fn joined(alloc: Global, hulls: &[Hull]) -> Result<Hull, AllocError>
        ensures held { IfOk result (λ h. (i : ℕ) (g : List PlainSpan) (note : PlainNote)
            → slice_get hulls.now i ≡ Some g → is_covered_by g note ≡ true
            → is_covered_by h note ≡ true) }
    {
        let mut spans = Vec::new(alloc);
        for hull in hulls {
            put_spans(hull.spans.as_slice(), &mut spans)?;
        }
        let spans = FewSpans::packed(spans);
        Ok(Hull { alloc, spans })
    }

    /// Puts in the rows of what was read. Want of memory is the only error.
    pub fn widen(&mut self, reads: &Readings) -> Result<(), AllocError>
        ensures kept { OnOk result ((note : PlainNote) → is_covered_by self.old note ≡ true
            → is_covered_by self.new note ≡ true) }
        ensures put { OnOk result (every (is_covered_by self.new) reads.now ≡ true) }
    {
        if self.has(reads) {
            return Ok(());
        }
        let mut spans = Vec::from_slice(self.alloc, self.spans.as_slice())?;
        reads.put_rows(&mut spans)?;
        self.spans = FewSpans::packed(spans);
        Ok(())
    }

    /// Whether all that lies in the other lies in it.
    pub fn holds(&self, other: &Hull) -> bool
        ensures held { result ≡ true → (note : PlainNote) → is_covered_by other.now note ≡ true
            → is_covered_by self.now note ≡ true }
    {
        hold_rows(self.spans.as_slice(), other.spans.as_slice())
    }

    /// Whether all that was read lies in it.
    pub fn has(&self, reads: &Readings) -> bool
        ensures has { result ≡ true → every (is_covered_by self.now) reads.now ≡ true }
    {
        reads.lie_in(self.spans.as_slice())
    }

    /// Whether one of these changes, each given by its table's number and the row, lies in it.
    #[inline(always)]
    pub fn is_touched(&self, changes: &[(usize, i64)]) -> bool
        ensures touched { result ≡ is_touched self.now changes.now }
    {
        are_touched(self.spans.as_slice(), changes)
    }
}
