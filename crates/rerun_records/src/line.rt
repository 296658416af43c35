// The changed cells of a row: where a record has read all cells of some columns of the row, and nothing of what it has read was amiss before,
// it has read each of them as it was.
ghost use Rattle.std.specs.Prelude.{◌≡◌, ◌≤◌, ◌<◌, IfSome, length, true};
ghost use Rattle.record_theory.specs.Counts.{how_many};
ghost use Rattle.record_theory.specs.Same.{same_note};
ghost use Rattle.rerun_records.specs.Line.{IsLine, TellsOfOne};

use crate::settling::one_if;
use evaluation::note::Note;

/// Columns from one up to another, in which the changed cells of a row lie, and how many these are.
#[derive(Clone, Copy)]
pub(crate) struct Line {
    pub(crate) first: usize,
    pub(crate) end: usize,
    pub(crate) count: u64,
}

/// The columns of the cells among these readings of the changed row; none, where others than cells and sums are among them.
pub(crate) fn line_of(change: &(usize, i64), notes: &[Note]) -> Option<Line>
    ensures line { IfSome result (λ l. IsLine change.now l.first l.end l.count notes.now) }
{
    let (first, end) = columns_of(notes);
    match count_in(change, first, end, notes) {
        Some(count) => Some(Line { first, end, count }),
        None => None,
    }
}

// The columns from the first of these cells up to the last one.
fn columns_of(notes: &[Note]) -> (usize, usize) {
    let mut first = usize::MAX;
    let mut end = 0usize;
    for note in notes {
        match note {
            Note::Cell { column, .. } => {
                first = first.min(*column);
                end = end.max(column.saturating_add(1));
            }
            _ => {}
        }
    }
    (first, end)
}

// How many of these are cells of the changed row in these columns; none, where others than these and sums are among them.
fn count_in(change: &(usize, i64), first: usize, end: usize, notes: &[Note]) -> Option<u64>
    ensures line { IfSome result (λ count. IsLine change.now first end count notes.now) }
{
    let mut count = 0;
    for note in notes {
        match is_in(change, first, end, note) {
            Some(there) => count += one_if(there),
            None => return None,
        }
    }
    Some(count)
}

// Whether that is a cell of the changed row in these columns; none, where it isn't a sum either.
fn is_in(change: &(usize, i64), first: usize, end: usize, note: &Note) -> Option<bool>
    ensures tells { IfSome result (λ there. TellsOfOne change.now first end note.now there) }
{
    match note {
        Note::Cell {
            table,
            row,
            column,
            ..
        } => {
            if !lies_in(change, first, end, *table, row, *column) {
                return None;
            }
            Some(true)
        }
        Note::Sum { .. } => Some(false),
        _ => None,
    }
}

// Whether that cell is one of the changed row, in these columns.
#[inline(always)]
fn lies_in(
    change: &(usize, i64),
    first: usize,
    end: usize,
    table: usize,
    row: &i64,
    column: usize,
) -> bool
    ensures table { result ≡ true → table ≡ change.now.0 }
    ensures row { result ≡ true → row.now ≡ change.now.1 }
    ensures first { result ≡ true → first ≤ column }
    ensures end { result ≡ true → column < end }
{
    table == change.0 && *row == change.1 && first <= column && column < end
}
