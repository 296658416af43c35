// How the change of a row changes the numbers of records.
ghost use Rattle.std.specs.Prelude.{◌≡◌, ◌≤◌, ◌<◌, ◌+◌, ◌++◌, ◌∷◌, [], ℕ, ℤ, IfSome, length, map, not, true, false, slice_set};
ghost use Rattle.meaning.specs.Every.{every};
ghost use Rattle.rerun_records.specs.Blocks.{BlocksFit};
ghost use Rattle.record_theory.specs.InStep.{is_apart};
ghost use Rattle.evaluation.specs.declared.note.Note.{Note as PlainNote};
ghost use Rattle.evaluation.specs.Short.{note_of};
ghost use Rattle.record_theory.specs.Counts.{how_many};
ghost use Rattle.rerun_records.specs.Covers.{AreApart, AreCovered};
ghost use Rattle.record_theory.specs.Numbers.{number_then, numbers_then, with_numbers};
ghost use Rattle.record_theory.specs.OneTime.{AreOfOneTime, IsOfOneTime};
ghost use Rattle.record_theory.specs.Same.{is_read, same_note};
ghost use Rattle.record_theory.specs.InStep.{IsInStep};
ghost use Rattle.meaning.specs.Tables.{Tables as PlainTables};
ghost use Rattle.rerun_records.specs.Line.{AreBefore, IsKnown, IsLine};
ghost use Rattle.rerun_records.specs.Settled.{AreReadIn, Settles};

use crate::blocks::Blocks;
use crate::covers::Covers;
use crate::line::{Line, line_of};
use crate::settling::{Settled, counts_by, settled_by};
use crate::skips::Cursor;
use evaluation::note::Note;
use instance_records::narrowing::how_many_own;
use instance_records::readings::Readings;
use instance_records::record::Record;
use instance_records::ways::{NONE, behind_first};
use record_numbers::stale::{is_fresh, number_after};

/// Tells each record what the change of a row made of its number, where these readings don't hold any more and those hold again, and
/// drops the blocks of those of which something doesn't hold then. It looks at the records that may have read the row, from the last
/// to the first, and takes no memory.
pub(crate) fn tell(
    numbers: &mut [u32],
    blocks: &mut Blocks,
    list: &[Record],
    covers: &Covers,
    change: &(usize, i64),
    lost: &[Note],
    won: &[Note],
)
    requires places { length numbers.old ≡ length list.now }
    requires rest { every (λ n. not (is_apart (change.now ∷ []) n)) (lost.now ++ won.now) ≡ true }
    requires fit { BlocksFit (with_numbers numbers.old list.now) blocks.old }
    requires covered { AreCovered list.now covers.now }
    requires once { AreOfOneTime list.now }
    ensures told { (tables : PlainTables) → IsInStep tables (with_numbers numbers.old list.now)
        → AreBefore tables lost.now won.now → numbers.new ≡ numbers_then lost.now won.now numbers.old list.now }
    ensures places { length numbers.new ≡ length list.now }
    ensures fit { BlocksFit (with_numbers numbers.new list.now) blocks.new }
{
    let mut cursor = covers.cursor();
    match covers.next_touched(list, list.len(), change, &mut cursor) {
        Some(place) => {
            let edit = Edit {
                change,
                lost,
                won,
                is_of_cells: are_of_cells(lost) && are_of_cells(won),
                line: line_of(change, lost),
            };
            tell_from(numbers, blocks, list, covers, place, &mut cursor, edit);
        }
        None => {}
    }
}

// A change of a row, with the readings that don't hold any more and those that hold again, whether these are of cells and sums alone, and
// the columns of those that don't hold any more.
#[derive(Clone, Copy)]
struct Edit<'a> {
    change: &'a (usize, i64),
    lost: &'a [Note],
    won: &'a [Note],
    is_of_cells: bool,
    line: Option<Line>,
}

// Whether these are readings of cells and sums alone.
fn are_of_cells(notes: &[Note]) -> bool {
    for note in notes {
        match note {
            Note::Has { .. } => return false,
            Note::Limit { .. } => return false,
            _ => {}
        }
    }
    true
}

// Tells the records up to that place of an edit. The one there is the last that may have read the row.
#[inline(always)]
fn tell_from(
    numbers: &mut [u32],
    blocks: &mut Blocks,
    list: &[Record],
    covers: &Covers,
    place: usize,
    cursor: &mut Cursor,
    edit: Edit<'_>,
)
    requires within { place < length list.now }
    requires places { length numbers.old ≡ length list.now }
    requires rest { every (λ n. not (is_apart (edit.change.now ∷ []) n)) (edit.lost.now ++ edit.won.now) ≡ true }
    requires fit { BlocksFit (with_numbers numbers.old list.now) blocks.old }
    requires covered { AreCovered list.now covers.now }
    requires once { AreOfOneTime list.now }
    requires line { IfSome edit.line (λ l. IsLine edit.change.now l.first l.end l.count edit.lost.now) }
    requires apart { AreApart list.now edit.change.now (place + 1) (length list.now) }
    ensures told { (tables : PlainTables) → IsInStep tables (with_numbers numbers.old list.now)
        → AreBefore tables edit.entry.lost.now edit.entry.won.now
        → numbers.new ≡ numbers_then edit.entry.lost.now edit.entry.won.now numbers.old list.now }
    ensures places { length numbers.new ≡ length list.now }
    ensures fit { BlocksFit (with_numbers numbers.new list.now) blocks.new }
{
    let mut course = Course {
        turns: NONE,
        settled: None,
    };
    let reads = list[place].reads();
    let number = told_next(numbers[place], reads, &edit, &mut course);
    renumber(numbers, blocks, list, place, number);
    let mut end = place;
    while let Some(place) = covers.next_touched(list, end, edit.change, cursor) {
        let number = told_next(numbers[place], list[place].reads(), &edit, &mut course);
        renumber(numbers, blocks, list, place, number);
        end = place;
    }
}

// Gives the record at that place that number; where it isn't 0 the record's blocks are dropped.
fn renumber(numbers: &mut [u32], blocks: &mut Blocks, list: &[Record], place: usize, number: u32)
    requires within { place < length numbers.old }
    requires places { length numbers.old ≡ length list.now }
    requires fit { BlocksFit (with_numbers numbers.old list.now) blocks.old }
    ensures numbered { numbers.new ≡ slice_set numbers.old place number }
    ensures fit { BlocksFit (with_numbers numbers.new list.now) blocks.new }
{
    numbers[place] = number;
    if is_fresh(number) {
        return;
    }
    blocks.drop_at(place);
}

// The way down from the record that was told last to what it has read of the row, and what that settles.
#[derive(Clone, Copy)]
struct Course<'a> {
    turns: u64,
    settled: Option<Settled<'a>>,
}

// The number that a record has then. Where nothing of what it has read is counted, and it is noted that it has read all cells of the changed
// columns of the row, it has read each as it was, so nothing is looked for.
#[inline(always)]
fn told_next<'a>(number: u32, reads: &'a Readings, edit: &Edit<'_>, course: &mut Course<'a>) -> u32
    requires rest { every (λ n. not (is_apart (edit.now.change.now ∷ []) n)) (edit.now.lost.now ++ edit.now.won.now) ≡ true }
    requires once { IsOfOneTime reads.now }
    requires settled { IfSome course.old.settled (λ s. Settles (map note_of s.cells.now) s.more edit.now.lost.now
        × Settles (map note_of s.cells.now) s.fewer edit.now.won.now) }
    requires line { IfSome edit.now.line (λ l. IsLine edit.now.change.now l.first l.end l.count edit.now.lost.now) }
    ensures settled { IfSome course.new.settled (λ s. Settles (map note_of s.cells.now) s.more edit.now.lost.now
        × Settles (map note_of s.cells.now) s.fewer edit.now.won.now) }
    ensures told { (tables : PlainTables) → AreBefore tables edit.now.lost.now edit.now.won.now
        → IsKnown tables number reads.now
        → result ≡ number_then edit.now.lost.now edit.now.won.now number reads.now }
{
    match count_by_line(number, reads, edit) {
        Some(count) => {
            course.turns = behind_first(course.turns);
            number_after(number, count, 0)
        }
        None => told_by_way(number, reads, *edit, course),
    }
}

// How many of the readings that don't hold any more a record has read of which nothing is counted, where that is noted.
#[inline(always)]
fn count_by_line(number: u32, reads: &Readings, edit: &Edit<'_>) -> Option<u64>
    requires line { IfSome edit.now.line (λ l. IsLine edit.now.change.now l.first l.end l.count edit.now.lost.now) }
    ensures lost { IfSome result (λ count. (tables : PlainTables) → AreBefore tables edit.now.lost.now edit.now.won.now
        → IsKnown tables number reads.now → how_many same_note edit.now.lost.now reads.now ≡ count) }
    ensures won { IfSome result (λ count. (tables : PlainTables) → AreBefore tables edit.now.lost.now edit.now.won.now
        → IsKnown tables number reads.now → how_many same_note edit.now.won.now reads.now ≡ 0) }
    ensures few { IfSome result (λ count. count ≤ length edit.now.lost.now) }
{
    match edit.line {
        Some(line) => {
            if !is_fresh(number) {
                return None;
            }
            if !reads.have_line(edit.change, line.first, line.end) {
                return None;
            }
            if reads.may_have_sums() {
                return None;
            }
            Some(line.count)
        }
        None => None,
    }
}

// The number that a record has then. The one told before it was mostly of the instance around its own, so the way from there goes on from
// here, and where it leads to the same readings they settle this one too: all were read at one time.
#[inline(always)]
fn told_by_way<'a>(number: u32, reads: &'a Readings, edit: Edit<'_>, course: &mut Course<'a>) -> u32
    requires rest { every (λ n. not (is_apart (edit.change.now ∷ []) n)) (edit.lost.now ++ edit.won.now) ≡ true }
    requires once { IsOfOneTime reads.now }
    requires settled { IfSome course.old.settled (λ s. Settles (map note_of s.cells.now) s.more edit.lost.now
        × Settles (map note_of s.cells.now) s.fewer edit.won.now) }
    ensures settled { IfSome course.new.settled (λ s. Settles (map note_of s.cells.now) s.more edit.entry.lost.now
        × Settles (map note_of s.cells.now) s.fewer edit.entry.won.now) }
    ensures told { result ≡ number_then edit.entry.lost.now edit.entry.won.now number reads.now }
{
    course.turns = behind_first(course.turns);
    let own = reads.own_by(course.turns);
    match counts_by(reads, own, course.settled, edit.lost, edit.won) {
        Some((more, fewer)) => number_after(number, more, fewer),
        None => told_anew(number, reads, edit, course),
    }
}

// The same, where the way leads elsewhere: another one is found.
#[inline(never)]
fn told_anew<'a>(number: u32, reads: &'a Readings, edit: Edit<'_>, course: &mut Course<'a>) -> u32
    requires rest { every (λ n. not (is_apart (edit.change.now ∷ []) n)) (edit.lost.now ++ edit.won.now) ≡ true }
    requires once { IsOfOneTime reads.now }
    ensures settled { IfSome course.new.settled (λ s. Settles (map note_of s.cells.now) s.more edit.entry.lost.now
        × Settles (map note_of s.cells.now) s.fewer edit.entry.won.now) }
    ensures told { result ≡ number_then edit.entry.lost.now edit.entry.won.now number reads.now }
{
    course.turns = way_to(reads, edit);
    let own = reads.own_by(course.turns);
    course.settled = settled_by(own, edit.is_of_cells, edit.change, edit.lost, edit.won);
    match counts_by(reads, own, course.settled, edit.lost, edit.won) {
        Some((more, fewer)) => number_after(number, more, fewer),
        None => told(number, reads, edit.change, edit.lost, edit.won),
    }
}

// The way from there to what rests on the change of an edit of cells.
#[inline(always)]
fn way_to(reads: &Readings, edit: Edit<'_>) -> u64 {
    if edit.is_of_cells {
        return reads.way_to(edit.change);
    }
    NONE
}

// The number that a record has then, by the lowest instance that has read all that the change may have changed.
fn told(number: u32, reads: &Readings, change: &(usize, i64), lost: &[Note], won: &[Note]) -> u32
    requires rest { every (λ n. not (is_apart (change.now ∷ []) n)) (lost.now ++ won.now) ≡ true }
    ensures told { result ≡ number_then lost.now won.now number reads.now }
{
    match reads.touched(change) {
        Some(own) => number_after(number, how_many_own(own, lost), how_many_own(own, won)),
        None => {
            let (more, fewer) = reads.how_many(change, lost, won);
            number_after(number, more, fewer)
        }
    }
}
