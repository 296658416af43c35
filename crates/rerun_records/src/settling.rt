// Readings of the cells that an edit changed, which settle how many of its readings a record has that has these.
ghost use Rattle.std.specs.Prelude.{◌≡◌, ◌≤◌, IfSome, cond, length, map, true};
ghost use Rattle.evaluation.specs.declared.note.Note.{Note as PlainNote};
ghost use Rattle.evaluation.specs.Short.{note_of};
ghost use Rattle.record_theory.specs.Counts.{how_many};
ghost use Rattle.record_theory.specs.OneTime.{IsOfOneTime};
ghost use Rattle.record_theory.specs.Same.{is_read, same_note};
ghost use Rattle.rerun_records.specs.Settled.{AreReadIn, Settles, TellsOf};

use evaluation::note::Note;
use evaluation::reading::Reading;
use instance_records::readings::Readings;
use instance_records::ways::{first_touched, value_near};

/// A row's cells lie near the first of them: so many readings are looked through.
const NEAR: usize = 4;

/// Readings of the changed cells, which lie from a place on among an instance's own, and how many of the lost and of the won readings a
/// record has that has these and no sum.
#[derive(Clone, Copy)]
pub(crate) struct Settled<'a> {
    at: usize,
    pub(crate) cells: &'a [Reading],
    pub(crate) more: u64,
    pub(crate) fewer: u64,
}

/// How many of the lost and of the won readings were read, where the settled cells lie at their place among the own ones, and no sum was
/// read.
#[inline(always)]
pub(crate) fn counts_by(
    reads: &Readings,
    own: &[Reading],
    settled: Option<Settled<'_>>,
    lost: &[Note],
    won: &[Note],
) -> Option<(u64, u64)>
    requires once { IsOfOneTime reads.now }
    requires within { AreReadIn (map note_of own.now) reads.now }
    requires settled { IfSome settled (λ s. Settles (map note_of s.cells.now) s.more lost.now
        × Settles (map note_of s.cells.now) s.fewer won.now) }
    ensures more { IfSome result (λ counts. counts.0 ≡ how_many same_note lost.now reads.now) }
    ensures fewer { IfSome result (λ counts. counts.1 ≡ how_many same_note won.now reads.now) }
    ensures few { IfSome result (λ counts. counts.0 ≤ length lost.now) }
{
    match settled {
        Some(settled) => counts_in(reads, own, settled, lost, won),
        None => None,
    }
}

// The same, by these settled cells.
#[inline(always)]
fn counts_in(
    reads: &Readings,
    own: &[Reading],
    settled: Settled<'_>,
    _lost: &[Note],
    _won: &[Note],
) -> Option<(u64, u64)>
    requires once { IsOfOneTime reads.now }
    requires within { AreReadIn (map note_of own.now) reads.now }
    requires more { Settles (map note_of settled.cells.now) settled.more _lost.now }
    requires fewer { Settles (map note_of settled.cells.now) settled.fewer _won.now }
    ensures more { IfSome result (λ counts. counts.0 ≡ how_many same_note _lost.now reads.now) }
    ensures fewer { IfSome result (λ counts. counts.1 ≡ how_many same_note _won.now reads.now) }
    ensures few { IfSome result (λ counts. counts.0 ≤ length _lost.now) }
{
    if reads.may_have_sums() {
        return None;
    }
    if !have_near(own, settled.at, settled.cells) {
        return None;
    }
    Some((settled.more, settled.fewer))
}

// Whether all of these cells were read so, near that place among the own readings.
#[inline(always)]
fn have_near(own: &[Reading], at: usize, cells: &[Reading]) -> bool
    ensures have { result ≡ true → AreReadIn (map note_of cells.now) (map note_of own.now) }
{
    for cell in cells {
        if !has_near(own, at, cell) {
            return false;
        }
    }
    true
}

// Whether that reading of a cell is near that place among the own ones.
#[inline(always)]
fn has_near(own: &[Reading], at: usize, cell: &Reading) -> bool
    ensures has { result ≡ true → is_read (map note_of own.now) (note_of cell.now) ≡ true }
{
    match cell {
        Reading::Cell {
            column,
            table,
            row,
            value,
        } => {
            match value_near(
                own,
                at,
                usize::from(*table),
                i64::from(*row),
                usize::from(*column),
            ) {
                Some(held) => held == *value,
                None => false,
            }
        }
        _ => false,
    }
}

// These readings from one place up to another; none where there are fewer.
#[inline(always)]
fn stretch(own: &[Reading], at: usize, end: usize) -> &[Reading] {
    if end > own.len() {
        return &[];
    }
    if at > end {
        return &[];
    }
    &own[at..end]
}

/// What settles the readings that an edit of cells changed, by these own readings of an instance.
pub(crate) fn settled_by<'a>(
    own: &'a [Reading],
    are_cells: bool,
    change: &(usize, i64),
    lost: &[Note],
    won: &[Note],
) -> Option<Settled<'a>>
    ensures settled { IfSome result (λ s. Settles (map note_of s.cells.now) s.more lost.now
        × Settles (map note_of s.cells.now) s.fewer won.now) }
{
    if !are_cells {
        return None;
    }
    let (at, end) = places_of(own, first_touched(own, change), lost)?;
    let cells = stretch(own, at, end);
    let more = count_in(cells, lost)?;
    let fewer = count_in(cells, won)?;
    Some(Settled {
        at,
        cells,
        more,
        fewer,
    })
}

// The first place and the one behind the last at which the cells of these notes were read, near that place.
fn places_of(own: &[Reading], first: usize, notes: &[Note]) -> Option<(usize, usize)> {
    let mut at = own.len();
    let mut end = 0usize;
    for note in notes {
        match note {
            Note::Cell {
                table,
                row,
                column,
                ..
            } => {
                let place = place_of(own, first, *table, *row, *column)?;
                at = at.min(place);
                end = end.max(place.saturating_add(1));
            }
            _ => {}
        }
    }
    Some((at, end))
}

// The place at which that cell was read, near the other one.
fn place_of(own: &[Reading], first: usize, table: usize, row: i64, column: usize) -> Option<usize> {
    for place in first..first.saturating_add(NEAR) {
        match own.get(place) {
            Some(reading) => {
                if is_of(reading, table, row, column) {
                    return Some(place);
                }
            }
            None => return None,
        }
    }
    None
}

// Whether the reading is of that cell.
#[inline(always)]
fn is_of(reading: &Reading, table: usize, row: i64, column: usize) -> bool {
    match reading {
        Reading::Cell {
            column: under,
            table: of,
            row: at,
            ..
        } => { column == usize::from(*under) && row == i64::from(*at) && table == usize::from(*of) }
        _ => false,
    }
}

// How many of these were read, where these cells were and no sum was: the cell of each is one of these, or it is a sum.
fn count_in(cells: &[Reading], notes: &[Note]) -> Option<u64>
    ensures settles { IfSome result (λ count. Settles (map note_of cells.now) count notes.now) }
{
    let mut count = 0;
    for note in notes {
        match is_in(cells, note) {
            Some(there) => count += one_if(there),
            None => return None,
        }
    }
    Some(count)
}

/// One where it is so.
#[inline(always)]
pub(crate) fn one_if(is_so: bool) -> u64
    ensures one { result ≡ cond is_so 1 0 }
    ensures few { result ≤ 1 }
{
    if is_so { 1 } else { 0 }
}

// Whether that was read, where these cells were and no sum was.
fn is_in(cells: &[Reading], note: &Note) -> Option<bool>
    ensures tells { IfSome result (λ there. TellsOf (map note_of cells.now) note.now there) }
{
    match note {
        Note::Cell {
            table,
            row,
            column,
            value,
        } => {
            let held = value_near(cells, 0, *table, *row, *column)?;
            Some(held == *value)
        }
        Note::Sum { .. } => Some(false),
        _ => None,
    }
}
