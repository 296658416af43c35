// Lines of cells, one row behind another, as what was read is looked through: of all of them the same columns were read.
ghost use Rattle.std.specs.Prelude.{◌≡◌, ◌≤◌, ◌+◌, List, IfOk, OnOk, map, pos, true, false};
ghost use Rattle.evaluation.specs.declared.note.Note.{Note as PlainNote};
ghost use Rattle.evaluation.specs.Short.{note_of};
ghost use Rattle.instance_records.specs.declared.spans.Span.{Span as PlainSpan};
ghost use Rattle.instance_records.specs.Full.{AreLines, IsFull, has_cell};
ghost use Rattle.instance_records.specs.Spans.{span_of, put_span, put_spans};
ghost use Rattle.record_theory.specs.Same.{is_read};

use crate::full::Full;
use crate::spans::{Span, join_on, put_span};
use evaluation::reading::Reading;
use std::alloc::AllocError;

/// Nothing is known of the row behind the others.
const NOTHING: u16 = 512;

/// No column is behind so many.
const MOST: u16 = 256;

/// Rows of which the same was read, and of the row behind them the columns up to that one.
#[derive(Clone, Copy)]
pub(crate) struct Lines {
    pub(crate) full: Full,
    pub(crate) next: u16,
}

impl Lines {
    // None.
    #[inline(always)]
    fn none() -> Lines
        ensures lines { (notes : List PlainNote) → AreLines notes result }
    {
        Lines {
            full: Full::none(),
            next: NOTHING,
        }
    }

    // Goes on to the next cell of the row at hand, which lies in the span already; whether the reading is of that cell.
    #[inline(always)]
    fn go_on(&mut self, reading: &Reading, run: &Span) -> bool
        ensures lines { result ≡ true → (notes : List PlainNote) → is_read notes (note_of reading.now) ≡ true
            → AreLines notes self.old → AreLines notes self.new }
        ensures held { result ≡ true → (spans : List PlainSpan)
            → put_span (put_span spans run.now) (span_of reading.now) ≡ put_span spans run.now }
        ensures same { result ≡ false → self.new ≡ self.old }
    {
        match reading {
            Reading::Cell {
                column,
                table,
                row,
                ..
            } => {
                if !self.is_next(*table, *row, u16::from(*column)) {
                    return false;
                }
                if !run.holds(*table, *row) {
                    return false;
                }
                self.next = u16::from(*column) + 1;
                true
            }
            _ => false,
        }
    }

    // Whether that cell is the next one of the row at hand.
    #[inline(always)]
    fn is_next(&self, table: u16, row: u32, column: u16) -> bool
        ensures row { result ≡ true → self.now.full.until ≡ row }
        ensures column { result ≡ true → self.now.next ≡ column }
        ensures table { result ≡ true → self.now.full.table ≡ table }
    {
        row == self.full.until && column == self.next && table == self.full.table
    }

    // Goes on to the row of the cell that was read, if it is of one.
    #[inline(always)]
    fn turn(&mut self, reading: &Reading)
        ensures lines { (notes : List PlainNote) → is_read notes (note_of reading.now) ≡ true
            → AreLines notes self.old → AreLines notes self.new }
    {
        match reading {
            Reading::Cell {
                column,
                table,
                row,
                ..
            } => self.turn_to(*table, *row, u16::from(*column)),
            _ => {}
        }
    }

    // Goes on to the row of that cell.
    #[inline(always)]
    fn turn_to(&mut self, table: u16, row: u32, column: u16)
        requires small { column ≤ 255 }
        ensures lines { (notes : List PlainNote) → has_cell notes table (pos row) column ≡ true
            → AreLines notes self.old → AreLines notes self.new }
    {
        if self.next == self.full.end && self.is_behind(table, row, column) {
            self.full.until = row;
            self.next = column + 1;
            return;
        }
        self.begin(table, row, column);
    }

    // Whether that cell is the first one of the row behind the one at hand.
    #[inline(always)]
    fn is_behind(&self, table: u16, row: u32, column: u16) -> bool
        ensures row { result ≡ true → row ≡ self.now.full.until + 1 }
        ensures column { result ≡ true → self.now.full.first ≡ column }
        ensures table { result ≡ true → self.now.full.table ≡ table }
    {
        column == self.full.first
            && table == self.full.table
            && u64::from(row) == u64::from(self.full.until) + 1
    }

    // The same where the cell isn't the first one of a row like those before: where these are several, nothing more is noted.
    #[cold]
    #[inline(never)]
    fn begin(&mut self, table: u16, row: u32, column: u16)
        requires small { column ≤ 255 }
        ensures lines { (notes : List PlainNote) → has_cell notes table (pos row) column ≡ true
            → AreLines notes self.old → AreLines notes self.new }
    {
        if self.full.low < self.full.until {
            self.next = NOTHING;
            return;
        }
        if self.next <= MOST && self.is_behind(table, row, column) {
            self.full.end = self.next;
            self.full.until = row;
            self.next = column + 1;
            return;
        }
        self.full = Full {
            low: row,
            until: row,
            table,
            first: column,
            end: 0,
        };
        self.next = column + 1;
    }

    // The rows, with the one at hand where it is like the others or the only one.
    #[inline(always)]
    fn finish(&self) -> Full
        ensures full { (notes : List PlainNote) → AreLines notes self.now → IsFull notes result }
    {
        let full = self.full;
        if self.next > MOST || full.until == u32::MAX {
            return full;
        }
        if full.low >= full.until {
            return Full {
                until: full.until + 1,
                end: self.next,
                ..full
            };
        }
        if self.next != full.end {
            return full;
        }
        Full {
            until: full.until + 1,
            ..full
        }
    }
}

/// Joins spans with the rows that were read, and finds rows of which the cells were.
#[inline(always)]
pub(crate) fn put_lines(own: &[Reading], spans: &mut Vec<Span>) -> Result<Full, AllocError>
    ensures put { OnOk result (spans.new.items ≡ put_spans spans.old.items (map span_of own.now)) }
    ensures full { IfOk result (λ f. IsFull (map note_of own.now) f) }
{
    match own.first() {
        Some(first) => put_lines_from(own, Span::new(first), spans),
        None => Ok(Full::none()),
    }
}

// The same, where the rows of the first reading are these.
#[inline(always)]
fn put_lines_from(own: &[Reading], first: Span, spans: &mut Vec<Span>) -> Result<Full, AllocError>
    requires first { put_spans (put_span spans.old.items first) (map span_of own.now)
        ≡ put_spans spans.old.items (map span_of own.now) }
    ensures put { OnOk result (spans.new.items ≡ put_spans spans.old.items (map span_of own.now)) }
    ensures full { IfOk result (λ f. IsFull (map note_of own.now) f) }
{
    let mut run = first;
    let mut lines = Lines::none();
    for reading in own {
        go_on(&mut lines, &mut run, reading, spans)?;
    }
    put_span(&run, spans)?;
    Ok(lines.finish())
}

// One reading more.
#[inline(always)]
fn go_on(
    lines: &mut Lines,
    run: &mut Span,
    reading: &Reading,
    spans: &mut Vec<Span>,
) -> Result<(), AllocError>
    ensures joined { OnOk result (put_span spans.new.items run.new
        ≡ put_span (put_span spans.old.items run.old) (span_of reading.now)) }
    ensures lines { OnOk result ((notes : List PlainNote) → is_read notes (note_of reading.now) ≡ true
        → AreLines notes lines.old → AreLines notes lines.new) }
{
    if lines.go_on(reading, run) {
        return Ok(());
    }
    join_on(run, reading, spans)?;
    lines.turn(reading);
    Ok(())
}
