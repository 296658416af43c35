// Whether changes of rows may have changed what was read.
ghost use Rattle.std.specs.Prelude.{◌≡◌, ◌&&◌, ℕ, ℤ, map, nat_eq, true, false};
ghost use Rattle.std.specs.List.{list_any};
ghost use Rattle.std.specs.Ordering.{int_eq};
ghost use Rattle.meaning.specs.Every.{every};
ghost use Rattle.evaluation.specs.declared.note.Note.TheVariants.{Sum};
ghost use Rattle.evaluation.specs.Short.{note_of};
ghost use Rattle.instance_records.specs.Spans.{is_covered_by};
ghost use Rattle.instance_records.specs.Full.{HasCells, IsFullNode};
ghost use Rattle.instance_records.specs.Readings.{node_notes, is_a_sum, is_covered};
ghost use Rattle.record_theory.specs.InStep.{rests_on, is_apart};
ghost use Rattle.record_theory.specs.Same.{is_read};

use crate::readings::Node;
use crate::spans::{Span, are_touched, cover_all, first_row, hold_rows, is_one_whole};
use evaluation::reading::Reading;
use std::slice;

/// Whether one of the changes may have changed what was read there or below.
#[inline(always)]
pub(crate) fn node_is_touched(node: &Node, changes: &[(usize, i64)]) -> bool
    requires covered { is_covered node.now ≡ true }
    ensures apart { result ≡ false → every (is_apart changes.now) (node_notes node.now) ≡ true }
{
    if are_own_touched(node.own.as_slice(), changes) {
        return true;
    }
    match &node.below {
        Some(below) => are_touched(below.spans.as_slice(), changes),
        None => false,
    }
}

/// Whether what instances below have read has that row, if there is one.
pub(crate) fn node_has_row(node: &Node, row: Option<(usize, i64)>) -> bool {
    match &node.below {
        Some(below) => match row {
            Some(row) => are_touched(below.spans.as_slice(), slice::from_ref(&row)),
            None => false,
        },
        None => false,
    }
}

/// A row that was read there or below, by the number of its table and its own; none where all of a table's were.
pub(crate) fn node_first_row(node: &Node) -> Option<(usize, i64)> {
    match &node.below {
        Some(below) => first_row(node.own.as_slice(), below.spans.as_slice()),
        None => first_row(node.own.as_slice(), &[]),
    }
}

/// Whether of the changed row all cells of the columns from one up to another were read below, as far as that is noted there.
#[inline(always)]
pub(crate) fn has_line(node: &Node, change: &(usize, i64), first: usize, end: usize) -> bool
    requires full { IsFullNode node.now }
    ensures has { result ≡ true → HasCells (node_notes node.now) change.now.0 change.now.1 first end }
{
    match &node.below {
        Some(below) => below.full.has(change, first, end),
        None => false,
    }
}

/// Whether the rows of all that was read there and below lie in these spans.
pub(crate) fn node_lies_in(node: &Node, spans: &[Span]) -> bool
    requires covered { is_covered node.now ≡ true }
    ensures lies { result ≡ true → every (is_covered_by spans.now) (node_notes node.now) ≡ true }
{
    if !cover_all(spans, node.own.as_slice()) {
        return false;
    }
    match &node.below {
        Some(below) => hold_rows(spans, below.spans.as_slice()),
        None => true,
    }
}

/// Whether one of the changes may have changed one of these readings.
#[inline(always)]
pub(crate) fn are_own_touched(own: &[Reading], changes: &[(usize, i64)]) -> bool
    ensures touched { result
        ≡ list_any (λ note. list_any (rests_on note) changes.now) (map note_of own.now) }
{
    for reading in own {
        if is_among(reading, changes) {
            return true;
        }
    }
    false
}

// Whether one of the changes, each given by its table's number and the row, may have changed what is read so.
fn is_among(reading: &Reading, changes: &[(usize, i64)]) -> bool
    ensures among { result ≡ list_any (rests_on (note_of reading.now)) changes.now }
{
    for change in changes {
        if rests_on(reading, change) {
            return true;
        }
    }
    false
}

/// Whether the change may have changed what is read so.
pub(crate) fn rests_on(reading: &Reading, change: &(usize, i64)) -> bool
    ensures rests { result ≡ rests_on (note_of reading.now) change.now }
{
    match reading {
        Reading::Cell { table, row, .. } => is_row(usize::from(*table), i64::from(*row), change),
        Reading::Has { table, row, .. } => is_row(usize::from(*table), *row, change),
        Reading::Limit { table, .. } => usize::from(*table) == change.0,
        Reading::Sum { table, .. } => usize::from(*table) == change.0,
    }
}

// Whether that row of the table of that number is the changed one. Another row is read more often than another table, so it is asked first.
#[inline(always)]
fn is_row(table: usize, row: i64, change: &(usize, i64)) -> bool
    ensures row { result ≡ (nat_eq table change.now.0 && int_eq row change.now.1) }
{
    if row != change.1 {
        return false;
    }
    table == change.0
}

/// Whether a sum may have been read there or below: one of the readings there is of a sum, or a span below has all rows.
#[inline(always)]
pub(crate) fn may_have_sums(node: &Node) -> bool
    requires covered { is_covered node.now ≡ true }
    ensures none { result ≡ false → (table column : ℕ) (value : ℤ)
        → is_read (node_notes node.now) (Sum table column value) ≡ false }
{
    if are_sums(node.own.as_slice()) {
        return true;
    }
    match &node.below {
        Some(below) => is_one_whole(below.spans.as_slice()),
        None => false,
    }
}

/// Whether one of these readings is of a sum.
#[inline(always)]
pub(crate) fn are_sums(own: &[Reading]) -> bool
    ensures sums { result ≡ list_any is_a_sum own.now }
{
    for reading in own {
        if is_sum(reading) {
            return true;
        }
    }
    false
}

// Whether the reading is of a sum.
#[inline(always)]
fn is_sum(reading: &Reading) -> bool
    ensures sum { result ≡ is_a_sum reading.now }
{
    match reading {
        Reading::Sum { .. } => true,
        _ => false,
    }
}
