//! An instance's own readings, looked through.
ghost use Rattle.std.specs.Prelude.{◌≡◌, ℤ, map};
ghost use Rattle.evaluation.specs.declared.note.Note.TheVariants.{Cell, Sum};
ghost use Rattle.evaluation.specs.Short.{note_of};
ghost use Rattle.record_theory.specs.Same.{is_read, same_note};

use crate::readings::is_same;
use evaluation::note::Note;
use evaluation::reading::Reading;

/// Whether that is one of these readings.
pub(crate) fn has_own(own: &[Reading], note: &Note) -> bool
    ensures has { result ≡ is_read (map note_of own.now) note.now }
{
    match note {
        Note::Cell {
            table,
            row,
            column,
            value,
        } => have_cell(own, *table, *row, *column, *value),
        Note::Sum {
            table,
            column,
            value,
        } => have_sum(own, *table, *column, *value),
        _ => have_other(own, note),
    }
}

// Whether one of these readings is of that cell with that value. No notes are made of them, here and below.
fn have_cell(own: &[Reading], table: usize, row: i64, column: usize, value: i64) -> bool
    ensures have { result ≡ is_read (map note_of own.now) (Cell table row column value) }
{
    for reading in own {
        if is_cell(reading, table, row, column, value) {
            return true;
        }
    }
    false
}

// Whether one of these readings is of that sum.
fn have_sum(own: &[Reading], table: usize, column: usize, value: i64) -> bool
    ensures have { result ≡ is_read (map note_of own.now) (Sum table column value) }
{
    for reading in own {
        if is_sum(reading, table, column, value) {
            return true;
        }
    }
    false
}

// Whether one of these readings is that one.
fn have_other(own: &[Reading], note: &Note) -> bool
    ensures have { result ≡ is_read (map note_of own.now) note.now }
{
    for reading in own {
        if is_same(note, &reading.note()) {
            return true;
        }
    }
    false
}

// Whether the reading is of that cell with that value.
#[inline(always)]
pub(crate) fn is_cell(reading: &Reading, table: usize, row: i64, column: usize, value: i64) -> bool
    ensures cell { result ≡ same_note (Cell table row column value) (note_of reading.now) }
{
    match reading {
        Reading::Cell {
            column: under,
            table: of,
            row: at,
            value: held,
        } => {
            // The value differs most often, so it is compared first.
            if value != *held {
                return false;
            }
            if column != usize::from(*under) {
                return false;
            }
            row == i64::from(*at) && table == usize::from(*of)
        }
        _ => false,
    }
}

// Whether the reading is of that sum.
#[inline(always)]
fn is_sum(reading: &Reading, table: usize, column: usize, value: i64) -> bool
    ensures sum { result ≡ same_note (Sum table column value) (note_of reading.now) }
{
    match reading {
        Reading::Sum {
            column: under,
            table: of,
            value: held,
        } => table == usize::from(*of) && (column == usize::from(*under) && value == *held),
        _ => false,
    }
}
