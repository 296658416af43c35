// Hulls of records one after another of which the last has read what all of them have, as an instance has around which others are not. An
// edit of a row that lies in none of their rows passes over all of them at once.
ghost use Rattle.std.specs.Prelude.{◌≡◌, ◌≤◌, ◌<◌, ◌+◌, ◌-◌, [], ◌∷◌, ℕ, List, Some, IfSome, OnOk, OnErr, length, slice_get, true, false};
ghost use Rattle.evaluation.specs.declared.note.Note.{Note};
ghost use Rattle.meaning.specs.Every.{every};
ghost use Rattle.record_theory.specs.InStep.{is_apart};
ghost use Rattle.record_theory.specs.Record.{PlainRecord};
ghost use Rattle.instance_records.specs.Spans.{is_covered_by};
ghost use Rattle.rerun_records.specs.Covers.{AreApart};
ghost use Rattle.rerun_records.specs.Skips.{PlainSkip, IsInHull, PassBut, Reaches};

use instance_records::hull::Hull;
use instance_records::readings::Readings;
use instance_records::record::Record;
use std::alloc::{AllocError, Global};
use std::marker::Model;
use std::slice;

/// So many records before the last one have a hull with it, and no fewer: each by itself is asked as quickly.
const LEAST: usize = 5;

/// Hulls by places aren't asked where one of an instance ends so soon before.
const NEAR: usize = 32;

/// Hulls that were dropped are made anew once so many records, for each one put in since, are without.
const RECORDS_A_PUT: usize = 8;

/// A hull of the records from a place up to another, and how many hulls end before the first of them.
#[derive(Drop)]
pub(crate) struct Skip {
    first: usize,
    until: usize,
    before: usize,
    hull: Hull,
}

impl Model for Skip {
    ghost use Rattle.rerun_records.specs.Skips.{PlainSkip};

    ghost Value = { PlainSkip };

    ghost view = { λ s. record { first = s.first; until = s.until; before = s.before; hull = s.hull } };
}

/// Hulls in the order of their ends, each apart from another or inside it.
#[derive(Drop)]
pub(crate) struct Skips {
    list: Vec<Skip>,
    // The places before this one have their hulls.
    done: usize,
    // How many records were put in since hulls were dropped.
    owed: usize,
}

impl Model for Skips {
    ghost use Rattle.rerun_records.specs.Skips.{PlainSkips};

    ghost Value = { PlainSkips };

    ghost view = { λ s. record { done = s.done; skips = s.list.items } };
}

/// How many hulls end before a place that was come to, and whether the hull that ends there has the row that was looked for. Where it isn't
/// right, hulls are passed by.
#[derive(Drop)]
pub(crate) struct Cursor {
    next: usize,
    pub(crate) is_around: bool,
}

impl Skip {
    // From which place on, up to that end, none of its records has read what the change may have changed: its first place where it ends
    // there and the change doesn't lie in it, or that end.
    #[inline(always)]
    fn apart_to(&self, end: usize, change: &(usize, i64)) -> usize
        ensures within { result ≤ end }
        ensures apart { (p : ℕ) (notes : List Note) → result ≤ p → p < end
            → (self.now.first ≤ p → p < self.now.until → every (is_covered_by self.now.hull) notes ≡ true)
            → every (is_apart (change.now ∷ [])) notes ≡ true }
    {
        if self.until != end || self.first > end {
            return end;
        }
        if self.hull.is_touched(slice::from_ref(change)) {
            return end;
        }
        self.first
    }

    #[inline(always)]
    fn first(&self) -> usize
        ensures first { result ≡ self.now.first }
    {
        self.first
    }

    #[inline(always)]
    fn until(&self) -> usize
        ensures until { result ≡ self.now.until }
    {
        self.until
    }

    #[inline(always)]
    fn earlier(&self) -> usize
        ensures earlier { result ≡ self.now.before }
    {
        self.before
    }

    // Whether all that was read lies in its hull.
    #[inline(always)]
    fn has(&self, reads: &Readings) -> bool
        ensures has { result ≡ true → every (is_covered_by self.now.hull) reads.now ≡ true }
    {
        self.hull.has(reads)
    }

    // Whether all that lies in its hull lies in the other.
    #[inline(always)]
    fn lies_in(&self, hull: &Hull) -> bool
        ensures lies { result ≡ true → IsInHull self.now.hull hull.now }
    {
        hull.holds(&self.hull)
    }

    // Whether the place is one of its records'.
    #[inline(always)]
    fn is_around(&self, place: usize) -> bool
        ensures around { result ≡ true → (self.now.first ≤ place) × (place < self.now.until) }
        ensures apart { result ≡ false → self.now.first ≤ place → place < self.now.until → ⊥ }
    {
        if self.first > place {
            return false;
        }
        if place >= self.until {
            return false;
        }
        true
    }
}

impl Skips {
    /// No hulls; it takes no memory.
    pub(crate) fn new(alloc: Global) -> Skips
        ensures none { (records : List PlainRecord) → PassBut [] records result }
    {
        Skips {
            list: Vec::new(alloc),
            done: 0,
            owed: 0,
        }
    }

    /// A cursor behind all hulls.
    #[inline(always)]
    pub(crate) fn cursor(&self) -> Cursor {
        Cursor {
            next: self.list.len(),
            is_around: false,
        }
    }

    /// From which place on, up to that end, no record has read what the change may have changed, by the hull that ends there; where that is
    /// the end, the cursor tells whether there is one in which the change lies.
    #[inline(always)]
    pub(crate) fn apart_to(&self, end: usize, change: &(usize, i64), cursor: &mut Cursor) -> usize
        ensures within { result ≤ end }
        ensures apart { (records : List PlainRecord) → PassBut [] records self.now
            → AreApart records change.now result end }
    {
        apart_in(&self.list, end, change, cursor)
    }

    /// Whether hulls by places may be asked: the last hull before that place doesn't end soon before it.
    #[inline(always)]
    pub(crate) fn are_far(&self, end: usize, cursor: &Cursor) -> bool {
        if cursor.is_around {
            return false;
        }
        if cursor.next == 0 || cursor.next > self.list.len() {
            return true;
        }
        end.saturating_sub(self.list[cursor.next - 1].until()) >= NEAR
    }

    /// Has the cursor go on from that place, where it is before the other one.
    #[inline(always)]
    pub(crate) fn move_to(&self, first: usize, end: usize, cursor: &mut Cursor) {
        if first < end {
            cursor.next = first_behind(&self.list, first);
        }
    }

    /// Has the hulls around that place hold what was read: where one of them doesn't, it and those behind it are dropped. It takes no memory.
    pub(crate) fn put_in(&mut self, place: usize, reads: &Readings)
        ensures held { (records : List PlainRecord) (rest : List ℕ) → PassBut (place ∷ rest) records self.old
            → ((r : PlainRecord) → slice_get records place ≡ Some r → r.reads ≡ reads.now)
            → PassBut rest records self.new }
    {
        let is_dropped = drop_around(&mut self.list, place, reads);
        self.owed = owed_then(self.owed, is_dropped);
    }

    /// Makes hulls of the records whose places have none, as far as memory isn't refused.
    pub(crate) fn grow(&mut self, alloc: Global, list: &[Record])
        requires held { PassBut [] list.now self.old }
        ensures held { PassBut [] list.now self.new }
    {
        self.go_back();
        add_all(self, alloc, list);
    }

    #[inline(always)]
    fn done(&self) -> usize
        ensures done { result ≡ self.now.done }
    {
        self.done
    }

    // Goes back to the last hull, where others were dropped and enough records were put in since.
    fn go_back(&mut self)
        ensures held { (records : List PlainRecord) → PassBut [] records self.old → PassBut [] records self.new }
    {
        let done = done_then(&self.list, self.done, self.owed);
        self.owed = owed_behind(self.owed, self.done, done);
        self.done = done;
    }

    // Goes on to the next record that may end a hull.
    #[inline(always)]
    fn pass(&mut self, list: &[Record])
        ensures held { PassBut [] list.now self.old → PassBut [] list.now self.new }
        ensures more { self.old.done ≤ self.new.done }
    {
        let next = next_around(list, self.done);
        self.done = next;
    }

    // Makes the hull that ends with the next record, where it has enough before it.
    fn add(&mut self, alloc: Global, list: &[Record]) -> Result<(), AllocError>
        requires there { self.old.done < length list.now }
        requires held { PassBut [] list.now self.old }
        ensures held { PassBut [] list.now self.new }
        ensures more { OnOk result (self.old.done < self.new.done) }
    {
        add_at(&mut self.list, alloc, list, self.done)?;
        self.done += 1;
        Ok(())
    }
}

// Makes the hull that ends with the record at that place, where it has enough before it.
fn add_at(
    skips: &mut Vec<Skip>,
    alloc: Global,
    list: &[Record],
    place: usize,
) -> Result<(), AllocError>
    requires there { place < length list.now }
    requires held { PassBut [] list.now (record { done = place; skips = skips.old.items }) }
    ensures held { OnOk result
        (PassBut [] list.now (record { done = place + 1; skips = skips.new.items })) }
    ensures same { OnErr result (skips.new.items ≡ skips.old.items) }
{
    let hull = Hull::of(alloc, &list[place..place + 1])?;
    let found = reach_back(skips, list, place, &hull);
    if place.saturating_sub(found.0) < LEAST {
        return Ok(());
    }
    skips.push(Skip {
        first: found.0,
        until: place + 1,
        before: found.1,
        hull,
    })?;
    Ok(())
}

// How many records were put in since hulls were dropped, with one more.
fn owed_then(owed: usize, is_dropped: bool) -> usize {
    if is_dropped || owed > 0 {
        return owed.saturating_add(1);
    }
    0
}

// How many are owed where other places than before are done.
fn owed_behind(owed: usize, before: usize, done: usize) -> usize {
    if done < before {
        return 0;
    }
    owed
}

// How many places are done: up to the last hull alone, where others were dropped and enough records were put in since.
fn done_then(skips: &[Skip], done: usize, owed: usize) -> usize
    ensures held { (records : List PlainRecord)
        → PassBut [] records (record { done = done; skips = skips.now })
        → PassBut [] records (record { done = result; skips = skips.now }) }
{
    if owed == 0 {
        return done;
    }
    let last = last_end(skips);
    if last >= done {
        return done;
    }
    if owed < (done - last) / RECORDS_A_PUT {
        return done;
    }
    last
}

// Makes hulls of the records whose places have none, as far as memory isn't refused.
fn add_all(skips: &mut Skips, alloc: Global, list: &[Record])
    requires held { PassBut [] list.now skips.old }
    ensures held { PassBut [] list.now skips.new }
{
    skips.pass(list);
    while skips.done() < list.len() {
        if skips.add(alloc, list).is_err() {
            return;
        }
        skips.pass(list);
    }
}

// From which place on, up to that end, no record has read what the change may have changed, by the hull that ends there.
#[inline(always)]
fn apart_in(skips: &[Skip], end: usize, change: &(usize, i64), cursor: &mut Cursor) -> usize
    ensures within { result ≤ end }
    ensures apart { (records : List PlainRecord) (done : ℕ)
        → PassBut [] records (record { done = done; skips = skips.now })
        → AreApart records change.now result end }
{
    cursor.is_around = false;
    if cursor.next == 0 || cursor.next > skips.len() {
        return end;
    }
    let number = cursor.next - 1;
    let first = apart_by(skips, number, end, change);
    go_on(skips, number, first, end, cursor);
    first
}

// Has the cursor go on before the hull of that number, where it has led from that end to that place, or ends there.
#[inline(always)]
fn go_on(skips: &[Skip], number: usize, first: usize, end: usize, cursor: &mut Cursor)
    requires within { number < length skips.now }
{
    if first < end {
        cursor.next = skips[number].earlier();
    } else if skips[number].until() == end {
        cursor.next = number;
        cursor.is_around = true;
    }
}

// From which place on, up to that end, no record has read what the change may have changed, by the hull of that number.
#[inline(always)]
fn apart_by(skips: &[Skip], number: usize, end: usize, change: &(usize, i64)) -> usize
    requires within { number < length skips.now }
    ensures within { result ≤ end }
    ensures apart { (records : List PlainRecord) (done : ℕ)
        → PassBut [] records (record { done = done; skips = skips.now })
        → AreApart records change.now result end }
{
    skips[number].apart_to(end, change)
}

// Drops the first hull around that place that doesn't hold what was read, and those behind it; whether there was one.
fn drop_around(skips: &mut Vec<Skip>, place: usize, reads: &Readings) -> bool
    ensures held { (records : List PlainRecord) (rest : List ℕ) (done : ℕ)
        → PassBut (place ∷ rest) records (record { done = done; skips = skips.old.items })
        → ((r : PlainRecord) → slice_get records place ≡ Some r → r.reads ≡ reads.now)
        → PassBut rest records (record { done = done; skips = skips.new.items }) }
{
    let number = around(skips, place);
    if number >= skips.len() {
        return false;
    }
    if has(skips, number, reads) {
        return false;
    }
    skips.truncate(number);
    true
}

// Whether all that was read lies in the hull of that number.
fn has(skips: &[Skip], number: usize, reads: &Readings) -> bool
    requires within { number < length skips.now }
    ensures has { result ≡ true → (s : PlainSkip) → slice_get skips.now number ≡ Some s
        → every (is_covered_by s.hull) reads.now ≡ true }
{
    skips[number].has(reads)
}

// The number of the first hull around that place, or how many there are.
fn around(skips: &[Skip], place: usize) -> usize
    ensures before { (places : List ℕ) (records : List PlainRecord) (done : ℕ)
        → PassBut places records (record { done = done; skips = skips.now })
        → (i : ℕ) (s : PlainSkip) → i < result → slice_get skips.now i ≡ Some s
        → s.first ≤ place → place < s.until → ⊥ }
    ensures around { (s : PlainSkip) → slice_get skips.now result ≡ Some s
        → (s.first ≤ place) × (place < s.until) }
{
    let mut number = first_behind(skips, place);
    while number < skips.len() {
        if skips[number].is_around(place) {
            return number;
        }
        number += 1;
    }
    number
}

// The number of a hull before which all end before that place or there.
fn first_behind(skips: &[Skip], place: usize) -> usize
    ensures before { (places : List ℕ) (records : List PlainRecord) (done : ℕ)
        → PassBut places records (record { done = done; skips = skips.now })
        → (i : ℕ) (s : PlainSkip) → i < result → slice_get skips.now i ≡ Some s → s.until ≤ place }
{
    let mut low = 0;
    let mut high = skips.len();
    while low < high {
        let middle = low + (high - low) / 2;
        if skips[middle].until() <= place {
            low = middle + 1;
        } else {
            high = middle;
        }
    }
    low
}

// Where the last hull ends.
fn last_end(skips: &[Skip]) -> usize
    ensures last { (places : List ℕ) (records : List PlainRecord) (done : ℕ)
        → PassBut places records (record { done = done; skips = skips.now })
        → (i : ℕ) (s : PlainSkip) → slice_get skips.now i ≡ Some s → s.until ≤ result }
{
    if skips.is_empty() {
        return 0;
    }
    let last = skips.len() - 1;
    skips[last].until()
}

// The place of the next record that may have read what enough ones before it have, or the end.
#[inline(always)]
fn next_around(list: &[Record], place: usize) -> usize
    ensures from { place ≤ result }
    ensures until { place ≤ length list.now → result ≤ length list.now }
{
    let mut next = place;
    while next < list.len() && !may_be_around(list, next) {
        next += 1;
    }
    next
}

// Whether the record of that place may have read what enough ones before it have.
#[inline(always)]
fn may_be_around(list: &[Record], place: usize) -> bool
    requires within { place < length list.now }
{
    if place < LEAST {
        return false;
    }
    let reads = list[place].reads();
    if reads.is_pair() {
        return false;
    }
    reads.reach(list[place - 1].reads()) && reads.reach(list[place - LEAST].reads())
}

// The first place from which on all before that one have read what lies in the hull, as far as that goes by what is next to it, and how
// many hulls end before it.
fn reach_back(skips: &[Skip], list: &[Record], place: usize, hull: &Hull) -> (usize, usize)
    requires held { PassBut [] list.now (record { done = place; skips = skips.now }) }
    ensures reaches { Reaches list.now skips.now hull.now place result.0 result.1 }
{
    let mut first = place;
    let mut before = skips.len();
    while first > 0 {
        match reach_one(skips, list, place, hull, first, before) {
            Some(next) => {
                first = next.0;
                before = next.1;
            }
            None => return (first, before),
        }
    }
    (first, before)
}

// One hull more, or one record more.
#[inline(always)]
fn reach_one(
    skips: &[Skip],
    list: &[Record],
    place: usize,
    hull: &Hull,
    first: usize,
    before: usize,
) -> Option<(usize, usize)>
    requires some { 0 < first }
    requires few { before ≤ length skips.now }
    requires held { PassBut [] list.now (record { done = place; skips = skips.now }) }
    requires reaches { Reaches list.now skips.now hull.now place first before }
    ensures less { IfSome result (λ next. next.0 < first) }
    ensures reaches { IfSome result (λ next. Reaches list.now skips.now hull.now place next.0 next.1) }
{
    if ends_at(skips, before, first) {
        return reach_hull(skips, list, place, hull, first, before);
    }
    let last = first - 1;
    let reads = list[last].reads();
    if !hull.has(reads) {
        return None;
    }
    Some((last, before))
}

// Whether the last of so many hulls ends there.
#[inline(always)]
fn ends_at(skips: &[Skip], count: usize, end: usize) -> bool
    requires few { count ≤ length skips.now }
    ensures ends { result ≡ true → (0 < count) × ((s : PlainSkip) → slice_get skips.now (count - 1) ≡ Some s → s.until ≡ end) }
    ensures other { result ≡ false → 0 < count → (s : PlainSkip) → slice_get skips.now (count - 1) ≡ Some s → s.until ≡ end → ⊥ }
{
    if count == 0 {
        return false;
    }
    let last = count - 1;
    if skips[last].until() != end {
        return false;
    }
    true
}

// One hull more.
#[inline(always)]
fn reach_hull(
    skips: &[Skip],
    list: &[Record],
    place: usize,
    hull: &Hull,
    first: usize,
    before: usize,
) -> Option<(usize, usize)>
    requires some { 0 < before }
    requires few { before ≤ length skips.now }
    requires held { PassBut [] list.now (record { done = place; skips = skips.now }) }
    requires reaches { Reaches list.now skips.now hull.now place first before }
    requires ends { (s : PlainSkip) → slice_get skips.now (before - 1) ≡ Some s → s.until ≡ first }
    ensures less { IfSome result (λ next. next.0 < first) }
    ensures reaches { IfSome result (λ next. Reaches list.now skips.now hull.now place next.0 next.1) }
{
    let last = before - 1;
    let skip = &skips[last];
    if !skip.lies_in(hull) {
        return None;
    }
    Some((skip.first(), skip.earlier()))
}
