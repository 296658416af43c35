// Hulls over records by their places, so that an edit passes over those that have read none of its rows.
ghost use Rattle.std.specs.Prelude.{◌≡◌, ◌≤◌, ◌<◌, ◌+◌, ◌*◌, [], ◌∷◌, ℕ, List, Some, IfSome, IfNone, OnOk};
ghost use Rattle.std.specs.Prelude.{slice_get, length, option_copied, true, false, drop};
ghost use Rattle.evaluation.specs.declared.note.Note.{Note};
ghost use Rattle.meaning.specs.Every.{every};
ghost use Rattle.record_theory.specs.InStep.{is_apart};
ghost use Rattle.record_theory.specs.Record.{PlainRecord};
ghost use Rattle.instance_records.specs.Spans.{is_covered_by};
ghost use Rattle.instance_records.specs.declared.spans.Span.{Span};
ghost use Rattle.rerun_records.specs.Covers.{CoversBut, CoversLevel, AreCovered, AreCoveredBut, AreKept, AreApart, AreSameBut, is_hull_apart};

use crate::listing::record_at;
use crate::skips::{Cursor, Skips};
use instance_records::hull::Hull;
use instance_records::readings::Readings;
use instance_records::record::Record;
use std::alloc::{AllocError, Global};
use std::marker::Model;
use std::{mem, slice};

/// The widths of hulls: so many records have one together.
const WIDE: usize = 32_768;

const MIDDLE: usize = 1_024;

const NARROW: usize = 32;

/// So many hulls of one width make one of the next.
const TOGETHER: usize = 32;

/// Room for so many places is kept for those of the next run.
const KEPT: usize = 64;

/// Hulls of three widths, each for so many places one after another.
#[derive(Drop)]
pub(crate) struct Covers {
    wide: Vec<Hull>,
    middle: Vec<Hull>,
    narrow: Vec<Hull>,
    // Hulls of instances around others.
    skips: Skips,
    // Places at which another record was put in, whose hulls hold what it has read once they are asked.
    late: Vec<usize>,
}

impl Model for Covers {
    ghost use Rattle.std.specs.Prelude.{List, [], ◌∷◌};
    ghost use Rattle.rerun_records.specs.Covers.{PlainCovers};

    ghost Value = { PlainCovers };

    ghost view = { λ c. record {
      levels = record { width = 32768; hulls = c.wide.items }
          ∷ record { width = 1024; hulls = c.middle.items }
          ∷ record { width = 32; hulls = c.narrow.items } ∷ [];
      skips = c.skips;
      late = c.late.items;
    } };
}

impl Covers {
    /// No hulls; it takes no memory.
    pub(crate) fn new(alloc: Global) -> Covers
        ensures none { (records : List PlainRecord) → AreKept records result }
    {
        Covers {
            wide: Vec::new(alloc),
            middle: Vec::new(alloc),
            narrow: Vec::new(alloc),
            skips: Skips::new(alloc),
            late: Vec::new(alloc),
        }
    }

    /// A cursor behind all records.
    #[inline(always)]
    pub(crate) fn cursor(&self) -> Cursor {
        self.skips.cursor()
    }

    // From which place on, up to that end, no record has read what the change may have changed, or that end: by the hull of an instance that
    // ends there, or else by the widest of a level.
    #[inline(always)]
    fn apart_to(&self, end: usize, change: &(usize, i64), cursor: &mut Cursor) -> usize
        ensures within { result ≤ end }
        ensures apart { (records : List PlainRecord) → AreCovered records self.now
            → AreApart records change.now result end }
    {
        let first = self.skips.apart_to(end, change, cursor);
        if end % NARROW != 0 || end - first >= NARROW {
            return first;
        }
        self.apart_by_place(first, end, change, cursor)
    }

    // The same, where the hull of an instance leads to that place at most: several of these one behind another are passed at once.
    #[inline(always)]
    fn apart_by_place(
        &self,
        first: usize,
        end: usize,
        change: &(usize, i64),
        cursor: &mut Cursor,
    ) -> usize
        requires within { first ≤ end }
        requires apart { (records : List PlainRecord) → AreCovered records self.now
            → AreApart records change.now first end }
        ensures within { result ≤ end }
        ensures apart { (records : List PlainRecord) → AreCovered records self.now
            → AreApart records change.now result end }
    {
        if first == end && !self.skips.are_far(end, cursor) {
            return first;
        }
        let wider = self.apart_by_hull(end, change);
        if wider >= first {
            return first;
        }
        self.skips.move_to(wider, end, cursor);
        wider
    }

    // From which place on, up to that end, no record has read what the change may have changed, by the widest hull that ends there.
    #[inline(always)]
    fn apart_by_hull(&self, end: usize, change: &(usize, i64)) -> usize
        ensures within { result ≤ end }
        ensures apart { (records : List PlainRecord) → AreCovered records self.now
            → AreApart records change.now result end }
    {
        if end % NARROW != 0 {
            return end;
        }
        if end % MIDDLE == 0 {
            let first = apart_from(&self.wide, WIDE, end, change);
            if first < end {
                return first;
            }
            let first = apart_from(&self.middle, MIDDLE, end, change);
            if first < end {
                return first;
            }
        }
        apart_by_narrow(&self.narrow, end, change)
    }

    /// The last place before that end whose record may have read what the change of the row, given by its table's number and its own,
    /// may have changed. It takes no memory, and passes over hulls in which the row doesn't lie. The cursor is kept from one
    /// to the next.
    #[inline(always)]
    pub(crate) fn next_touched(
        &self,
        list: &[Record],
        end: usize,
        change: &(usize, i64),
        cursor: &mut Cursor,
    ) -> Option<usize>
        requires covered { AreCovered list.now self.now }
        ensures none { IfNone result (AreApart list.now change.now 0 end) }
        ensures before { IfSome result (λ place. place < end) }
        ensures apart { IfSome result (λ place. AreApart list.now change.now (place + 1) end) }
    {
        let mut last = end;
        while last > 0 {
            let first = self.apart_to(last, change, cursor);
            if first < last {
                last = first;
            } else {
                last -= 1;
                if is_touched(cursor.is_around, record_at(list, last), change) {
                    return Some(last);
                }
            }
        }
        None
    }

    /// Makes room to note so many places of records, no more than there are of these, as far as memory isn't refused.
    pub(crate) fn make_room(&mut self, places: usize, records: usize)
        ensures same { self.new ≡ self.old }
    {
        let left = records.saturating_sub(self.late.len());
        let _ = self.late.reserve(places.min(left));
    }

    /// Notes that the hulls of that place don't hold yet what the record there has read, which took another's place: only who asks them
    /// waits for that. Where there is no room to note it they hold it at once, as far as memory isn't refused.
    #[inline(always)]
    pub(crate) fn put_in(&mut self, list: &[Record], place: usize)
        ensures held { (before : List PlainRecord) → AreKept before self.old
            → AreSameBut (place ∷ []) before list.now → AreKept list.now self.new }
    {
        if self.late.len() < self.late.capacity() {
            self.late.push_reserved(place);
        } else {
            self.hold(list, place, true);
        }
    }

    /// Has the hulls of all places hold what the records there have read: they are widened as far as memory isn't refused, or, without
    /// memory, those that don't hold it are dropped.
    #[inline(always)]
    pub(crate) fn settle(&mut self, list: &[Record], widens: bool)
        requires kept { AreKept list.now self.old }
        ensures held { AreCovered list.now self.new }
        ensures kept { AreKept list.now self.new }
        ensures none { self.new.late ≡ [] }
    {
        // Behind an edit there are none, and further edits needn't do anything.
        if !self.late.is_empty() {
            self.hold_late(list, widens);
        }
    }

    // The same, where there are some.
    #[inline(never)]
    fn hold_late(&mut self, list: &[Record], widens: bool)
        requires kept { AreKept list.now self.old }
        ensures held { AreCovered list.now self.new }
        ensures kept { AreKept list.now self.new }
        ensures none { self.new.late ≡ [] }
    {
        let alloc = *self.late.allocator();
        let mut late = mem::replace(&mut self.late, Vec::new(alloc));
        self.hold_all(list, &late, widens);
        late.clear();
        if late.capacity() <= KEPT {
            self.late = late;
        }
    }

    // Has the hulls of these places hold what the records there have read, or drops them.
    fn hold_all(&mut self, list: &[Record], places: &[usize], widens: bool)
        requires kept { AreCoveredBut places.now list.now self.old }
        ensures held { AreCovered list.now self.new }
        ensures same { self.new.late ≡ self.old.late }
    {
        for place in places {
            self.hold(list, *place, widens);
        }
    }

    // Has the hulls of that place hold what the record there has read, or drops them.
    #[inline(never)]
    fn hold(&mut self, list: &[Record], place: usize, widens: bool)
        ensures held { (rest : List ℕ) → AreCoveredBut (place ∷ rest) list.now self.old
            → AreCoveredBut rest list.now self.new }
        ensures same { self.new.late ≡ self.old.late }
    {
        if place >= list.len() {
            return;
        }
        let reads = list[place].reads();
        put_in(&mut self.wide, WIDE, place, reads, widens);
        put_in(&mut self.middle, MIDDLE, place, reads, widens);
        put_in(&mut self.narrow, NARROW, place, reads, widens);
        self.skips.put_in(place, reads);
    }

    /// Makes hulls of the records whose places have none and are enough for one, and has the others hold what was read, as far as memory isn't
    /// refused. Only the narrowest are made of the records, and each wider one of those that lie in it: so each record is looked at once,
    /// and once more where it is of an instance around others.
    pub(crate) fn grow(&mut self, alloc: Global, list: &[Record])
        requires kept { AreKept list.now self.old }
        ensures kept { AreKept list.now self.new }
    {
        self.settle(list, true);
        self.add(alloc, list);
    }

    // Makes the hulls that are missing, as far as memory isn't refused.
    fn add(&mut self, alloc: Global, list: &[Record])
        requires held { AreCovered list.now self.old }
        ensures held { AreCovered list.now self.new }
        ensures same { self.new.late ≡ self.old.late }
    {
        add_all(alloc, &mut self.narrow, NARROW, list);
        join_all(alloc, &mut self.middle, &self.narrow);
        join_all(alloc, &mut self.wide, &self.middle);
        self.skips.grow(alloc, list);
    }
}

// From which place on, up to that end, no record has read what the change may have changed, by the hull of that width which ends
// there: its first place, or that end, where there is none or the change lies in it.
fn apart_from(hulls: &[Hull], width: usize, end: usize, change: &(usize, i64)) -> usize
    requires some { 0 < width }
    ensures within { result ≤ end }
    ensures apart { (records : List PlainRecord)
        → CoversLevel records (record { width = width; hulls = hulls.now })
        → AreApart records change.now result end }
{
    if end < width {
        return end;
    }
    let first = end - width;
    if first % width == 0 && is_hull_apart(hulls, first / width, change) {
        first
    } else {
        end
    }
}

// From which place on, up to that end, no record has read what the change may have changed, by narrow hulls, one before another, down to
// where a wider one may end.
#[inline(always)]
fn apart_by_narrow(hulls: &[Hull], end: usize, change: &(usize, i64)) -> usize
    ensures within { result ≤ end }
    ensures apart { (records : List PlainRecord)
        → CoversLevel records (record { width = 32; hulls = hulls.now })
        → AreApart records change.now result end }
{
    if end % NARROW != 0 {
        return end;
    }
    let mut number = end / NARROW;
    while number > 0 && is_hull_apart(hulls, number - 1, change) {
        number -= 1;
        if number % TOGETHER == 0 {
            return number * NARROW;
        }
    }
    number * NARROW
}

// Whether the record, where there is one, may have read what the change may have changed, if that isn't known.
#[inline(always)]
fn is_touched(is_known: bool, record: Option<&Record>, change: &(usize, i64)) -> bool
    ensures apart { result ≡ false → (r : PlainRecord) → option_copied record.entry ≡ Some r
        → every (is_apart (change.now ∷ [])) r.reads ≡ true }
{
    if is_known {
        return true;
    }
    match record {
        Some(record) => record.reads().are_touched(slice::from_ref(change)),
        None => false,
    }
}

// Has the hull of that place hold what was read, if there is one. Where it can't, it and those behind it are dropped.
fn put_in(hulls: &mut Vec<Hull>, width: usize, place: usize, reads: &Readings, widens: bool)
    requires some { 0 < width }
    ensures held { (list : List PlainRecord) (rest : List ℕ)
        → CoversBut (place ∷ rest) list (record { width = width; hulls = hulls.old.items })
        → ((r : PlainRecord) → slice_get list place ≡ Some r → r.reads ≡ reads.now)
        → CoversBut rest list (record { width = width; hulls = hulls.new.items }) }
{
    widen(hulls, place / width, reads, widens);
}

// Whether there is a hull of that number, and the change doesn't lie in it.
fn is_hull_apart(hulls: &[Hull], number: usize, change: &(usize, i64)) -> bool
    ensures apart { result ≡ is_hull_apart (change.now ∷ []) (slice_get hulls.now number) }
{
    match hulls.get(number) {
        Some(hull) => !hull.is_touched(slice::from_ref(change)),
        None => false,
    }
}

// Has the hull of that number hold what was read too, if there is one. Where it can't, it and those behind it are dropped, as it may then
// hold a part of what was read alone.
fn widen(hulls: &mut Vec<Hull>, number: usize, reads: &Readings, widens: bool)
    ensures fewer { length hulls.new.items ≤ length hulls.old.items }
    ensures held { (h : List Span) → slice_get hulls.new.items number ≡ Some h
        → every (is_covered_by h) reads.now ≡ true }
    ensures kept { (i : ℕ) (h : List Span) (notes : List Note) → slice_get hulls.new.items i ≡ Some h
        → ((g : List Span) → slice_get hulls.old.items i ≡ Some g → every (is_covered_by g) notes ≡ true)
        → every (is_covered_by h) notes ≡ true }
{
    if number >= hulls.len() {
        return;
    }
    if !holds(&mut hulls[number], reads, widens) {
        hulls.truncate(number);
    }
}

// Whether the hull holds what was read too: as it is, or widened, unless memory is refused.
fn holds(hull: &mut Hull, reads: &Readings, widens: bool) -> bool
    ensures held { result ≡ true → every (is_covered_by hull.new) reads.now ≡ true }
    ensures kept { result ≡ true → (note : Note) → is_covered_by hull.old note ≡ true
        → is_covered_by hull.new note ≡ true }
{
    if widens {
        hull.widen(reads).is_ok()
    } else {
        hull.has(reads)
    }
}

// Makes the hulls of places that have none and are enough for one of that width.
fn add_all(alloc: Global, hulls: &mut Vec<Hull>, width: usize, list: &[Record])
    requires some { 0 < width }
    requires held { CoversLevel list.now (record { width = width; hulls = hulls.old.items }) }
    ensures held { CoversLevel list.now (record { width = width; hulls = hulls.new.items }) }
{
    while width <= list.len() - hulls.len() * width {
        if add(alloc, hulls, width, list).is_err() {
            return;
        }
    }
}

// Makes the hull of the first places that have none.
fn add(
    alloc: Global,
    hulls: &mut Vec<Hull>,
    width: usize,
    list: &[Record],
) -> Result<(), AllocError>
    requires room { length hulls.old.items * width + width ≤ length list.now }
    ensures held { CoversLevel list.now (record { width = width; hulls = hulls.old.items })
        → CoversLevel list.now (record { width = width; hulls = hulls.new.items }) }
    ensures more { OnOk result (length hulls.new.items ≡ length hulls.old.items + 1) }
{
    let first = hulls.len() * width;
    let hull = Hull::of(alloc, &list[first..first + width])?;
    hulls.push(hull)?;
    Ok(())
}

// Makes the wider hulls that are missing, of those that lie in them, as far as these are there and memory isn't refused.
fn join_all(alloc: Global, wide: &mut Vec<Hull>, hulls: &[Hull])
    ensures held { (list : List PlainRecord) (width wider : ℕ) → wider ≡ width * 32
        → CoversLevel list (record { width = width; hulls = hulls.now })
        → CoversLevel list (record { width = wider; hulls = wide.old.items })
        → CoversLevel list (record { width = wider; hulls = wide.new.items }) }
{
    while wide.len() < hulls.len() / TOGETHER {
        if join(alloc, wide, hulls).is_err() {
            return;
        }
    }
}

// Makes the first of the wider hulls that are missing, of those that lie in it.
fn join(alloc: Global, wide: &mut Vec<Hull>, hulls: &[Hull]) -> Result<(), AllocError>
    requires room { length wide.old.items * 32 + 32 ≤ length hulls.now }
    ensures held { (list : List PlainRecord) (width wider : ℕ) → wider ≡ width * 32
        → CoversLevel list (record { width = width; hulls = hulls.now })
        → CoversLevel list (record { width = wider; hulls = wide.old.items })
        → CoversLevel list (record { width = wider; hulls = wide.new.items }) }
    ensures more { OnOk result (length wide.new.items ≡ length wide.old.items + 1) }
{
    let first = wide.len() * TOGETHER;
    let hull = Hull::joined(alloc, &hulls[first..first + TOGETHER])?;
    wide.push(hull)?;
    Ok(())
}
