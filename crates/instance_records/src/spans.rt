//! Stretches of rows in which what was read lies, one for each table.
ghost use Rattle.std.specs.Prelude.{◌≡◌, ◌≤ℤ◌, IfOk, IfSome, List, OnOk, Some, map, nat_eq, pos, false, true};
ghost use Rattle.std.specs.Int.{int_min, int_max};
ghost use Rattle.std.specs.List.{list_any};
ghost use Rattle.evaluation.specs.declared.note.Note.{Note as PlainNote};
ghost use Rattle.evaluation.specs.Short.{note_of};
ghost use Rattle.meaning.specs.Every.{every};
ghost use Rattle.instance_records.specs.declared.spans.Span.{Span as PlainSpan};
ghost use Rattle.instance_records.specs.Spans.{span_of, has_row, has_rows, hold_rows, covers, lies_in, joined, put_span, put_spans, is_covered_by, is_touched};

use evaluation::note::Note;
use evaluation::reading::Reading;
use record_numbers::rows::rows_of_both;
use std::alloc::AllocError;

/// The rows of a table from the lowest that was read to the greatest; all of them, where its limit or a sum was.
#[derive(Clone, Copy)]
pub struct Span {
    table: u16,
    whole: bool,
    low: i64,
    high: i64,
}

impl Span {
    /// The rows that a reading rests on.
    pub(crate) fn new(reading: &Reading) -> Span
        ensures span { result ≡ span_of reading.now }
    {
        match reading {
            Reading::Cell { table, row, .. } => Span::one(*table, i64::from(*row)),
            Reading::Has { table, row, .. } => Span::one(*table, *row),
            Reading::Limit { table, .. } => Span::whole(*table),
            Reading::Sum { table, .. } => Span::whole(*table),
        }
    }

    // One row.
    fn one(table: u16, row: i64) -> Span
        ensures one { result ≡ record { table = table; whole = false; low = row; high = row } }
    {
        Span {
            table,
            whole: false,
            low: row,
            high: row,
        }
    }

    // All rows.
    fn whole(table: u16) -> Span
        ensures whole { result ≡ record { table = table; whole = true; low = pos 0; high = pos 0 } }
    {
        Span {
            table,
            whole: true,
            low: 0,
            high: 0,
        }
    }

    // The rows of both, and those between.
    fn joined(&self, other: &Span) -> Span
        ensures joined { result ≡ joined self.now other.now }
    {
        let (low, high) = rows_of_both(self.low, self.high, other.low, other.high);
        Span {
            table: self.table,
            whole: self.whole || other.whole,
            low,
            high,
        }
    }

    // Puts in one more row of the same table.
    #[inline(always)]
    fn put_row(&mut self, row: u32)
        ensures joined { self.new ≡ record {
          table = self.old.table;
          whole = self.old.whole;
          low = int_min self.old.low (pos row);
          high = int_max self.old.high (pos row);
        } }
    {
        let row = i64::from(row);
        self.low = self.low.min(row);
        self.high = self.high.max(row);
    }

    // Puts in one more row of the same table that was asked for.
    #[inline(always)]
    fn put_asked(&mut self, row: &i64)
        ensures joined { self.new ≡ record {
          table = self.old.table;
          whole = self.old.whole;
          low = int_min self.old.low row.now;
          high = int_max self.old.high row.now;
        } }
    {
        self.low = self.low.min(*row);
        self.high = self.high.max(*row);
    }

    /// Whether that row is between its first and its last one: so it is as if it had been put in.
    #[inline(always)]
    pub(crate) fn holds(&self, table: u16, row: u32) -> bool
        ensures holds { result ≡ true → (spans : List PlainSpan)
            → put_span (put_span spans self.now) (record { table = table; whole = false; low = pos row; high = pos row })
            ≡ put_span spans self.now }
    {
        if !self.is_around(table, row) {
            return false;
        }
        true
    }

    // Whether that row of the table is between its first and its last one.
    #[inline(always)]
    fn is_around(&self, table: u16, row: u32) -> bool
        ensures low { result ≡ true → self.now.low ≤ℤ pos row }
        ensures high { result ≡ true → pos row ≤ℤ self.now.high }
        ensures table { result ≡ true → self.now.table ≡ table }
    {
        let row = i64::from(row);
        self.low <= row && row <= self.high && self.table == table
    }

    // Whether these are the rows of the other.
    #[inline(always)]
    fn is_same(&self, other: &Span) -> bool
        ensures same { result ≡ true → self.now ≡ other.now }
    {
        self.low == other.low
            && self.high == other.high
            && self.table == other.table
            && self.whole == other.whole
    }

    // Whether its rows are all that was read so rests on.
    fn covers(&self, note: &Note) -> bool
        ensures covers { result ≡ covers note.now self.now }
    {
        match note {
            Note::Cell { table, row, .. } => self.is_of(*table) && self.has_row(*row),
            Note::Has { table, row, .. } => self.is_of(*table) && self.has_row(*row),
            Note::Limit { table, .. } => self.is_of(*table) && self.whole,
            Note::Sum { table, .. } => self.is_of(*table) && self.whole,
        }
    }

    // Whether its rows are all that a reading rests on.
    #[inline(always)]
    fn covers_reading(&self, reading: &Reading) -> bool
        ensures covers { result ≡ covers (note_of reading.now) self.now }
    {
        match reading {
            Reading::Cell { table, row, .. } => {
                self.is_of(usize::from(*table)) && self.has_row(i64::from(*row))
            }
            Reading::Has { table, row, .. } => self.is_of(usize::from(*table))
                && self.has_row(*row),
            Reading::Limit { table, .. } => self.is_of(usize::from(*table)) && self.whole,
            Reading::Sum { table, .. } => self.is_of(usize::from(*table)) && self.whole,
        }
    }

    // Whether the rows of the other are among these.
    #[inline(always)]
    fn has_rows(&self, other: &Span) -> bool
        ensures rows { result ≡ has_rows self.now other.now }
    {
        self.table == other.table
            && (self.whole || !other.whole && self.low <= other.low && other.high <= self.high)
    }

    /// Whether its rows, of which none is unknown, come before those of the other, of the same table.
    #[inline(always)]
    pub(crate) fn is_before(&self, other: &Span) -> bool {
        self.table == other.table && !self.whole && !other.whole && self.high < other.low
    }

    /// The lowest row.
    #[inline(always)]
    pub(crate) fn low(&self) -> i64 {
        self.low
    }

    // Whether it is one of the table of that number.
    fn is_of(&self, table: usize) -> bool
        ensures of { result ≡ nat_eq self.now.table table }
    {
        usize::from(self.table) == table
    }

    // Whether it has that row.
    fn has_row(&self, row: i64) -> bool
        ensures has { result ≡ has_row self.now row }
    {
        self.whole || self.low <= row && row <= self.high
    }

    // Whether the changed row, given by its table's number and its own, is one of these.
    #[inline(always)]
    fn has(&self, change: &(usize, i64)) -> bool
        ensures has { result ≡ lies_in change.now self.now }
    {
        usize::from(self.table) == change.0
            && (self.whole || self.low <= change.1 && change.1 <= self.high)
    }
}

/// Joins it with the span of its table, where there is one.
pub(crate) fn put_span(span: &Span, spans: &mut Vec<Span>) -> Result<(), AllocError>
    ensures put { OnOk result (spans.new.items ≡ put_span spans.old.items span.now) }
{
    for place in 0..spans.len() {
        if spans[place].table == span.table {
            spans[place] = spans[place].joined(span);
            return Ok(());
        }
    }
    spans.push(*span)?;
    Ok(())
}

/// Joins spans with others.
pub(crate) fn put_spans(more: &[Span], spans: &mut Vec<Span>) -> Result<(), AllocError>
    ensures put { OnOk result (spans.new.items ≡ put_spans spans.old.items more.now) }
{
    for span in more {
        put_span(span, spans)?;
    }
    Ok(())
}

/// Joins spans with the rows that were read. Those of one table that stand behind one another are joined first, and put in together.
pub(crate) fn put_read(own: &[Reading], spans: &mut Vec<Span>) -> Result<(), AllocError>
    ensures put { OnOk result (spans.new.items ≡ put_spans spans.old.items (map span_of own.now)) }
{
    match own.first() {
        Some(first) => put_from(own, Span::new(first), spans),
        None => Ok(()),
    }
}

// Joins spans with the rows that were read, where those of the first reading are these.
#[inline(always)]
fn put_from(own: &[Reading], first: Span, spans: &mut Vec<Span>) -> Result<(), AllocError>
    requires first { put_spans (put_span spans.old.items first) (map span_of own.now)
        ≡ put_spans spans.old.items (map span_of own.now) }
    ensures put { OnOk result (spans.new.items ≡ put_spans spans.old.items (map span_of own.now)) }
{
    let mut run = first;
    for reading in own {
        join_on(&mut run, reading, spans)?;
    }
    put_span(&run, spans)
}

/// Joins rows that aren't in the spans yet with those of a reading, and puts them in first, where that is of another table.
#[inline(always)]
pub(crate) fn join_on(
    run: &mut Span,
    reading: &Reading,
    spans: &mut Vec<Span>,
) -> Result<(), AllocError>
    ensures joined { OnOk result (put_span spans.new.items run.new
        ≡ put_span (put_span spans.old.items run.old) (span_of reading.now)) }
{
    match reading {
        Reading::Cell { table, row, .. } if *table == run.table => {
            run.put_row(*row);
            Ok(())
        }
        Reading::Has { table, row, .. } if *table == run.table => {
            run.put_asked(row);
            Ok(())
        }
        _ => turn_to(run, reading, spans),
    }
}

// The same of whatever reading.
#[inline(never)]
fn turn_to(run: &mut Span, reading: &Reading, spans: &mut Vec<Span>) -> Result<(), AllocError>
    ensures joined { OnOk result (put_span spans.new.items run.new
        ≡ put_span (put_span spans.old.items run.old) (span_of reading.now)) }
{
    let last = *run;
    let span = Span::new(reading);
    if span.table == last.table {
        *run = last.joined(&span);
        return Ok(());
    }
    put_span(&last, spans)?;
    *run = span;
    Ok(())
}

/// Joins spans with the row of one reading.
pub(crate) fn put_one(reading: &Reading, spans: &mut Vec<Span>) -> Result<(), AllocError>
    ensures kept { OnOk result ((note : PlainNote) → is_covered_by spans.old.items note ≡ true
        → is_covered_by spans.new.items note ≡ true) }
    ensures put { OnOk result (is_covered_by spans.new.items (note_of reading.now) ≡ true) }
{
    let span = Span::new(reading);
    put_span(&span, spans)
}

/// Joins spans with the rows of two readings, which most often are of one row.
pub(crate) fn put_pair(pair: &[Reading; 2], spans: &mut Vec<Span>) -> Result<(), AllocError>
    ensures kept { OnOk result ((note : PlainNote) → is_covered_by spans.old.items note ≡ true
        → is_covered_by spans.new.items note ≡ true) }
    ensures put { OnOk result (every (is_covered_by spans.new.items) (map note_of pair.now) ≡ true) }
{
    let first = Span::new(&pair[0]);
    let second = Span::new(&pair[1]);
    if first.is_same(&second) {
        return put_span(&first, spans);
    }
    put_span(&first, spans)?;
    put_span(&second, spans)
}

/// Whether one of the changed rows lies in one of the spans.
#[inline(always)]
pub(crate) fn are_touched(spans: &[Span], changes: &[(usize, i64)]) -> bool
    ensures touched { result ≡ is_touched spans.now changes.now }
{
    for span in spans {
        if has_one(span, changes) {
            return true;
        }
    }
    false
}

/// Whether the rows of all of the others are among those of one of the spans.
pub(crate) fn hold_rows(spans: &[Span], others: &[Span]) -> bool
    ensures rows { result ≡ hold_rows spans.now others.now }
{
    for other in others {
        if !have_rows(spans, other) {
            return false;
        }
    }
    true
}

// Whether the rows of the other are among those of one of the spans.
#[inline(always)]
fn have_rows(spans: &[Span], other: &Span) -> bool
    ensures rows { result ≡ list_any (λ s. has_rows s other.now) spans.now }
{
    for span in spans {
        if span.has_rows(other) {
            return true;
        }
    }
    false
}

/// Whether the rows of all of these readings lie in one of the spans.
pub(crate) fn cover_all(spans: &[Span], own: &[Reading]) -> bool
    ensures covered { result ≡ every (is_covered_by spans.now) (map note_of own.now) }
{
    for reading in own {
        if !cover(spans, reading) {
            return false;
        }
    }
    true
}

// Whether the rows of the reading lie in one of the spans.
#[inline(always)]
fn cover(spans: &[Span], reading: &Reading) -> bool
    ensures covered { result ≡ is_covered_by spans.now (note_of reading.now) }
{
    for span in spans {
        if span.covers_reading(reading) {
            return true;
        }
    }
    false
}

/// Whether one of the spans has all rows.
#[inline(always)]
pub(crate) fn is_one_whole(spans: &[Span]) -> bool
    ensures whole { result ≡ list_any (λ s. s.whole) spans.now }
{
    for span in spans {
        if span.whole {
            return true;
        }
    }
    false
}

/// The row with which the first of the readings begins, or else the first of the spans; none where that has all rows.
pub(crate) fn first_row(own: &[Reading], spans: &[Span]) -> Option<(usize, i64)> {
    let first = match own.get(0) {
        Some(reading) => Span::new(reading),
        None => *spans.get(0)?,
    };
    if first.whole {
        return None;
    }
    Some((usize::from(first.table), first.low))
}

#[inline(always)]
fn has_one(span: &Span, changes: &[(usize, i64)]) -> bool
    ensures has { result ≡ list_any (λ c. lies_in c span.now) changes.now }
{
    for change in changes {
        if span.has(change) {
            return true;
        }
    }
    false
}

/// Whether one of the spans may hold that reading: its rows lie there.
pub(crate) fn may_have(spans: &[Span], note: &Note) -> bool
    ensures has { result ≡ is_covered_by spans.now note.now }
{
    for span in spans {
        if span.covers(note) {
            return true;
        }
    }
    false
}
