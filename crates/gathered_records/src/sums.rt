//! One record that has what several have together.
ghost use Rattle.std.specs.Prelude.{◌≡◌, ◌-◌, ◌<◌, ◌≤◌, ◌++◌, ◌∷◌, [], IfOk, IfSome, OnOk, All, length, map};
ghost use Rattle.std.specs.Prelude.{slice_get, slice_index_or, slice_set, None, Some, pos, true};
ghost use Rattle.std.specs.List.{list_any};
ghost use Rattle.monoid_laws.specs.Worth.{Worth};
ghost use Rattle.monoid_laws.specs.declared.Kind.{Kind as PlainKind};
ghost use Rattle.monoid_laws.specs.declared.Val.TheVariants.{Int, Arg};
ghost use Rattle.monoid_laws.specs.Kinds.{meaning, identities, operate, operate_all, AreWorths, IsMonoid, IsWorth};
ghost use Rattle.meaning.specs.Elision.{depth_limit};
ghost use Rattle.record_theory.specs.Record.{PlainRecord, touched};
ghost use Rattle.record_theory.specs.Named.{filled, AreValuesFrom, HaveValues};
ghost use Rattle.instance_records.specs.Parts.{entries_in};
ghost use Rattle.instance_records.specs.Gifts.{given_by};
ghost use Rattle.record_theory.specs.Sums.{arguments_of_last};
ghost use Rattle.rerun_records.specs.Sums.{IsSumFor};
ghost use Rattle.gathered_records.specs.Summing.{nothing_summed, kept_reads, added, summed, worth_in, same_entry, put_entry, put_entries};
ghost use Rattle.gathered_records.specs.Summing.{numbered_from, at_places, HasSummed};

use crate::flat::flat_sum_at;
use instance_records::arguments::Arguments;
use instance_records::entries::Entries;
use instance_records::gift::{Gift, gifts};
use instance_records::readings::Readings;
use instance_records::record::Record;
use instance_records::several::Several;
use meaning::DEPTH_LIMIT;
use monoid_laws::{Kind, Val};
use reducer_values::{combine, combine_copy, identity};
use std::alloc::{AllocError, Global};
use std::marker::Model;

/// Of how many numbers a reducer's value in a sum may be, and how many procedures it may name: past that a sum would take more
/// memory than it saves time.
const MOST: usize = 64;

/// What records have together so far: it begins with none, and each is added behind those before it.
#[derive(Drop)]
pub(crate) struct Sum {
    // Whether readings are kept.
    keeps: bool,
    // The value of each reducer behind its number.
    values: Vec<(usize, Val)>,
    reads: Several,
    entered: Entries,
    height: u32,
}

impl Model for Sum {
    ghost use Rattle.std.specs.Prelude.{map};
    ghost use Rattle.instance_records.specs.Parts.{entries_in};
    ghost use Rattle.gathered_records.specs.Summing.{PlainSum, worth_in};

    ghost Value = { PlainSum };

    ghost view = { λ s. record {
      keeps = s.keeps;
      worths = map worth_in s.values.items;
      reads = s.reads;
      entered = entries_in s.entered;
      height = s.height;
    } };
}

impl Sum {
    /// Of no records, for reducers of these kinds. Readings are kept or not: if they are, with room for those of so many records that have
    /// two each, and of so many others.
    pub(crate) fn new(
        alloc: Global,
        kinds: &[Kind],
        keeps: bool,
        records: usize,
        parts: usize,
    ) -> Result<Sum, AllocError>
        ensures none { IfOk result (λ s. s ≡ nothing_summed kinds.now keeps) }
    {
        Ok(Sum {
            keeps,
            values: units(alloc, kinds)?,
            reads: Several::new(alloc, room_if(keeps, records), room_if(keeps, parts))?,
            entered: Entries::Nothing,
            height: 0,
        })
    }

    /// Whether readings are kept.
    pub(crate) fn keeps(&self) -> bool
        ensures keeps { result ≡ self.now.keeps }
    {
        self.keeps
    }

    /// Adds a record behind the others. It is refused for want of memory, or where a value has grown past what a sum keeps; the
    /// sum is of no use then.
    #[inline(always)]
    pub(crate) fn add(
        &mut self,
        alloc: Global,
        kinds: &[Kind],
        record: &Record,
    ) -> Result<(), AllocError>
        requires monoids { All IsMonoid kinds.now }
        requires worths { AreWorths kinds.now self.old.worths }
        requires values { AreValuesFrom 0 kinds.now record.now.contribution }
        ensures added { OnOk result (self.new ≡ added kinds.now self.old record.now) }
    {
        add_values(&mut self.values, alloc, kinds, record.contribution())?;
        add_reads(self.keeps, &mut self.reads, record.reads())?;
        add_entries(alloc, &mut self.entered, record.entered())?;
        self.height = self.height.max(record.height());
        Ok(())
    }

    /// The record that has what those have together, and procedure, arguments and value of that one, the last of them. It is refused
    /// where a value has grown past what a sum keeps, too.
    pub(crate) fn finish(self, alloc: Global, last: &Record) -> Result<Record, AllocError>
        ensures summed { IfOk result (λ r. r ≡ summed self last.now) }
    {
        if !are_numbered(&self.values) {
            return Err(AllocError);
        }
        let arguments = Arguments::from_slice(alloc, last.arguments())?;
        let reads = self.reads.finish(alloc)?;
        let given = gifts(alloc, self.values)?;
        Ok(Record::new(
            last.procedure(),
            arguments,
            last.value(),
            given,
            reads,
            self.entered,
            self.height,
        ))
    }
}

// That room, where readings are kept.
fn room_if(keeps: bool, room: usize) -> usize {
    if keeps { room } else { 0 }
}

/// Puts what a record has read behind the others, where that is kept.
#[inline(always)]
fn add_reads(keeps: bool, reads: &mut Several, more: &Readings) -> Result<(), AllocError>
    ensures added { OnOk result (reads.new ≡ kept_reads keeps reads.old more.now) }
{
    if !keeps {
        return Ok(());
    }
    reads.add(more)
}

/// The record that has what those at these places have together, and what they have read where that is kept; refused as `Sum::add` is.
pub(crate) fn sum_at(
    alloc: Global,
    kinds: &[Kind],
    keeps: bool,
    records: &[Record],
    places: &[u32],
) -> Result<Record, AllocError>
    requires monoids { All IsMonoid kinds.now }
    requires values { HaveValues kinds.now records.now }
    requires some { 0 < length (at_places records.now places.now) }
    ensures sum { IfOk result (λ s. IsSumFor keeps kinds.now (at_places records.now places.now) s) }
{
    if keeps {
        return sum_each(alloc, kinds, keeps, records, places);
    }
    match flat_sum_at(alloc, kinds, records, places) {
        Some(sum) => Ok(sum),
        None => sum_each(alloc, kinds, keeps, records, places),
    }
}

// The same, whatever the records have.
#[inline(never)]
fn sum_each(
    alloc: Global,
    kinds: &[Kind],
    keeps: bool,
    records: &[Record],
    places: &[u32],
) -> Result<Record, AllocError>
    requires monoids { All IsMonoid kinds.now }
    requires values { HaveValues kinds.now records.now }
    requires some { 0 < length (at_places records.now places.now) }
    ensures sum { IfOk result (λ s. IsSumFor keeps kinds.now (at_places records.now places.now) s) }
{
    let (pairs, parts) = rooms_for(records, places);
    let mut sum = Sum::new(alloc, kinds, keeps, pairs, parts)?;
    for place in places {
        add_record(&mut sum, alloc, kinds, records, *place as usize)?;
    }
    finish_at(alloc, sum, kinds, records, places)
}

// For how many records that have two readings each, and for how many others, there is to be room: all are taken to be as the first.
fn rooms_for(records: &[Record], places: &[u32]) -> (usize, usize) {
    match first_of(records, places) {
        Some(first) if first.reads().is_pair() => (places.len(), 0),
        _ => (0, places.len()),
    }
}

// The record at the first of these places.
fn first_of<'a>(records: &'a [Record], places: &[u32]) -> Option<&'a Record> {
    let first = places.first()?;
    records.get(*first as usize)
}

/// The record that has what those at these places have together, of which it is the sum.
pub(crate) fn finish_at(
    alloc: Global,
    sum: Sum,
    _kinds: &[Kind],
    records: &[Record],
    places: &[u32],
) -> Result<Record, AllocError>
    requires some { 0 < length (at_places records.now places.now) }
    requires summed { HasSummed _kinds.now (at_places records.now places.now) sum }
    ensures sum { IfOk result (λ s. IsSumFor sum.keeps _kinds.now (at_places records.now places.now) s) }
{
    match last_at(records, places) {
        Some(last) => sum.finish(alloc, last),
        None => Err(AllocError),
    }
}

/// The record at the last of these places.
#[tactic(auto, using(crate::proofs::Rows::last_of))]
pub(crate) fn last_at<'a>(records: &'a [Record], places: &[u32]) -> Option<&'a Record>
    ensures last { IfSome result (λ last. arguments_of_last [] (at_places records.now places.now) ≡ last.now.arguments) }
{
    let place = last_place(places)?;
    let record = record_at(records, place)?;
    Some(record)
}

// The last of these places.
fn last_place(places: &[u32]) -> Option<usize>
    ensures last { IfSome result (λ p. Some p ≡ slice_get places.now (length places.now - 1)) }
{
    match places.last() {
        Some(place) => Some(*place as usize),
        None => None,
    }
}

/// The record at that place.
#[inline(always)]
pub(crate) fn record_at(records: &[Record], place: usize) -> Option<&Record>
    ensures there { IfSome result (λ r. slice_get records.now place ≡ Some r.now) }
{
    records.get(place)
}

// Adds the record at that place; where none is, nothing. One that is too high to answer at any depth is refused: nothing is
// known of its values.
#[inline(always)]
fn add_record(
    sum: &mut Sum,
    alloc: Global,
    kinds: &[Kind],
    records: &[Record],
    place: usize,
) -> Result<(), AllocError>
    requires monoids { All IsMonoid kinds.now }
    requires values { HaveValues kinds.now records.now }
    requires worths { AreWorths kinds.now sum.old.worths }
    ensures none { OnOk result (slice_get records.now place ≡ None → sum.new ≡ sum.old) }
    ensures added { (r : PlainRecord) → slice_get records.now place ≡ Some r
        → OnOk result (sum.new ≡ added kinds.now sum.old r) }
    ensures low { (r : PlainRecord) → slice_get records.now place ≡ Some r
        → OnOk result (r.height ≤ depth_limit) }
    ensures keeps { OnOk result (sum.new.keeps ≡ sum.old.keeps) }
{
    match records.get(place) {
        Some(record) if record.height() <= DEPTH_LIMIT => sum.add(alloc, kinds, record),
        Some(_) => Err(AllocError),
        None => Ok(()),
    }
}

// The values that change nothing, each behind its reducer's number.
fn units(alloc: Global, kinds: &[Kind]) -> Result<Vec<(usize, Val)>, AllocError>
    ensures identities { IfOk result (λ es. map worth_in es.items ≡ identities kinds.now) }
{
    let mut values = Vec::with_capacity(alloc, kinds.len())?;
    for kind in kinds {
        let number = values.len();
        values.push((number, identity(alloc, *kind)))?;
    }
    Ok(values)
}

// Combines copies of these values on the right of the reducers' values.
#[inline(always)]
fn add_values(
    held: &mut Vec<(usize, Val)>,
    alloc: Global,
    kinds: &[Kind],
    values: &[Gift],
) -> Result<(), AllocError>
    requires monoids { All IsMonoid kinds.now }
    requires worths { AreWorths kinds.now (map worth_in held.old.items) }
    requires values { AreValuesFrom 0 kinds.now (map touched (map given_by values.now)) }
    ensures added { OnOk result (map worth_in held.new.items
        ≡ operate_all kinds.now (map worth_in held.old.items) (filled (identities kinds.now) (map touched (map given_by values.now)))) }
{
    for entry in values {
        add_gift(held, alloc, kinds, entry)?;
    }
    Ok(())
}

// Combines a copy of what a reducer was given on the right of its value.
#[inline(always)]
fn add_gift(
    held: &mut Vec<(usize, Val)>,
    alloc: Global,
    kinds: &[Kind],
    gift: &Gift,
) -> Result<(), AllocError>
    requires there { (given_by gift.now).0 < length kinds.now }
    requires worths { AreWorths kinds.now (map worth_in held.old.items) }
    requires of_kind { (c : PlainKind) → c ≡ slice_index_or kinds.now (given_by gift.now).0 c
        → IsWorth c (meaning (given_by gift.now).1) }
    ensures added { (c : PlainKind) (x : Worth) → c ≡ slice_index_or kinds.now (given_by gift.now).0 c
        → x ≡ slice_index_or (map worth_in held.old.items) (given_by gift.now).0 x
        → OnOk result (map worth_in held.new.items
        ≡ slice_set (map worth_in held.old.items) (given_by gift.now).0 (operate c x (meaning (given_by gift.now).1))) }
{
    match gift {
        Gift::Number { reducer, number } => {
            let value = value_of(number);
            add_at(held, alloc, kinds, usize::from(*reducer), &value)
        }
        Gift::Best {
            reducer,
            second,
            first,
        } => {
            let value = best_of(first, second);
            add_at(held, alloc, kinds, usize::from(*reducer), &value)
        }
        Gift::Other(other) => add_at(held, alloc, kinds, other.0, &other.1),
    }
}

// The value that is that number.
#[inline(always)]
fn value_of(number: &i64) -> Val
    ensures same { result ≡ Int number.now }
{
    Val::Int(*number)
}

// The value that is the best pair of these numbers.
#[inline(always)]
fn best_of(first: &i64, second: &u32) -> Val
    ensures same { result ≡ Arg (Some (first.now, pos second.now)) }
{
    Val::Arg(Some((*first, i64::from(*second))))
}

// Combines a copy of a value on the right of the reducer of that number.
#[inline(always)]
fn add_at(
    held: &mut Vec<(usize, Val)>,
    alloc: Global,
    kinds: &[Kind],
    reducer: usize,
    value: &Val,
) -> Result<(), AllocError>
    requires there { reducer < length kinds.now }
    requires worths { AreWorths kinds.now (map worth_in held.old.items) }
    requires of_kind { (c : PlainKind) → c ≡ slice_index_or kinds.now reducer c → IsWorth c (meaning value.now) }
    ensures added { (c : PlainKind) (x : Worth) → c ≡ slice_index_or kinds.now reducer c
        → x ≡ slice_index_or (map worth_in held.old.items) reducer x
        → OnOk result (map worth_in held.new.items
        ≡ slice_set (map worth_in held.old.items) reducer (operate c x (meaning value.now))) }
{
    add_to(&mut held[reducer], alloc, &kinds[reducer], value)
}

// Combines a copy of a value on the right of a reducer's.
#[inline(always)]
fn add_to(
    held: &mut (usize, Val),
    alloc: Global,
    kind: &Kind,
    value: &Val,
) -> Result<(), AllocError>
    requires held { IsWorth kind.now (worth_in held.old) }
    requires value { IsWorth kind.now (meaning value.now) }
    ensures added { OnOk result (worth_in held.new ≡ operate kind.now (worth_in held.old) (meaning value.now)) }
{
    add_value(&mut held.1, alloc, kind, value)
}

// Combines a copy of a value on the right of another. Numbers and best pairs are quickest.
#[inline(always)]
fn add_value(held: &mut Val, alloc: Global, kind: &Kind, value: &Val) -> Result<(), AllocError>
    requires held { IsWorth kind.now (meaning held.old) }
    requires value { IsWorth kind.now (meaning value.now) }
    ensures added { OnOk result
        (meaning held.new ≡ operate kind.now (meaning held.old) (meaning value.now)) }
{
    match value {
        Val::Int(number) => add_flat(held, alloc, kind, Val::Int(*number)),
        Val::Arg(best) => add_flat(held, alloc, kind, Val::Arg(*best)),
        other => add_grown(held, alloc, kind, other),
    }
}

// Combines a value that takes no memory on the right of another.
#[inline(always)]
fn add_flat(held: &mut Val, alloc: Global, kind: &Kind, value: Val) -> Result<(), AllocError>
    requires held { IsWorth kind.now (meaning held.old) }
    requires value { IsWorth kind.now (meaning value) }
    ensures added { OnOk result
        (meaning held.new ≡ operate kind.now (meaning held.old) (meaning value)) }
{
    match combine(alloc, kind, held, value) {
        Ok(()) => Ok(()),
        Err(_) => Err(AllocError),
    }
}

// Combines a copy of a value of any form on the right of another; refused where it is of many numbers.
#[inline(never)]
fn add_grown(held: &mut Val, alloc: Global, kind: &Kind, value: &Val) -> Result<(), AllocError>
    requires held { IsWorth kind.now (meaning held.old) }
    requires value { IsWorth kind.now (meaning value.now) }
    ensures added { OnOk result
        (meaning held.new ≡ operate kind.now (meaning held.old) (meaning value.now)) }
{
    if !is_small(value) {
        return Err(AllocError);
    }
    combine_copy(alloc, kind, held, value)
}

// Whether each of these values stands behind the number of its place, and none is too long.
fn are_numbered(values: &[(usize, Val)]) -> bool
    ensures numbered { result ≡ true → map touched values.now ≡ numbered_from 0 (map worth_in values.now) }
{
    for place in 0..values.len() {
        if !is_numbered(&values[place], place) {
            return false;
        }
    }
    true
}

// Whether a value stands behind that number, and isn't too long.
fn is_numbered(value: &(usize, Val), place: usize) -> bool
    ensures numbered { result ≡ true → value.now.0 ≡ place }
{
    value.0 == place && is_small(&value.1)
}

// Whether a value is of few numbers.
fn is_small(value: &Val) -> bool {
    match value {
        Val::List(list) => list.len() <= MOST,
        Val::Pieces(pieces) => are_few(pieces),
        Val::Hist(amounts) => amounts.len() <= MOST,
        Val::HistPieces(pieces) => are_few(pieces),
        _ => true,
    }
}

// Whether there are few of these in all, and few pieces.
fn are_few<T: Drop>(pieces: &[Vec<T>]) -> bool {
    let mut left = MOST;
    for piece in pieces {
        if piece.len() >= left {
            return false;
        }
        left -= piece.len() + 1;
    }
    true
}

// Puts in the entries that aren't there.
#[inline(always)]
fn add_entries(
    alloc: Global,
    entries: &mut Entries,
    more: &[(usize, u64)],
) -> Result<(), AllocError>
    ensures put { OnOk result (entries_in entries.new ≡ put_entries (entries_in entries.old) more.now) }
{
    if is_same_one(entries, more) {
        return Ok(());
    }
    add_each(alloc, entries, more)
}

// Whether there is one entry, and the others are that one alone. Then it is there.
#[inline(always)]
fn is_same_one(entries: &Entries, more: &[(usize, u64)]) -> bool
    ensures same { result ≡ true → put_entries (entries_in entries.now) more.now ≡ entries_in entries.now }
{
    match entries {
        Entries::One(entry) => is_only(entry, more),
        _ => false,
    }
}

// Whether that entry is the only one of these.
#[inline(always)]
#[tactic(auto, using(crate::proofs::Summed::only_put))]
fn is_only(entry: &(usize, u64), more: &[(usize, u64)]) -> bool
    ensures same { result ≡ true → put_entries (entry.now ∷ []) more.now ≡ entry.now ∷ [] }
{
    if more.len() != 1 {
        return false;
    }
    is_same(&more[0], entry)
}

// Puts in the entries that aren't there, one by one.
#[inline(never)]
fn add_each(alloc: Global, entries: &mut Entries, more: &[(usize, u64)]) -> Result<(), AllocError>
    ensures put { OnOk result (entries_in entries.new ≡ put_entries (entries_in entries.old) more.now) }
{
    for entry in more {
        add_entry(alloc, entries, entry)?;
    }
    Ok(())
}

// Puts in an entry, unless it is there; refused where they get too many.
#[inline(always)]
fn add_entry(alloc: Global, entries: &mut Entries, entry: &(usize, u64)) -> Result<(), AllocError>
    ensures put { OnOk result (entries_in entries.new ≡ put_entry (entries_in entries.old) entry.now) }
{
    if is_entered(entries.as_slice(), entry) {
        return Ok(());
    }
    put_entry(alloc, entries, entry)
}

// Puts an entry behind the others; refused where they get too many.
#[inline(never)]
fn put_entry(alloc: Global, entries: &mut Entries, entry: &(usize, u64)) -> Result<(), AllocError>
    ensures put { OnOk result (entries_in entries.new ≡ entries_in entries.old ++ entry.now ∷ []) }
{
    if entries.as_slice().len() >= MOST {
        return Err(AllocError);
    }
    entries.push(alloc, *entry)
}

// Whether the entry is one of these.
#[inline(always)]
fn is_entered(entries: &[(usize, u64)], entry: &(usize, u64)) -> bool
    ensures entered { result ≡ list_any (same_entry entry.now) entries.now }
{
    for other in entries {
        if is_same(entry, other) {
            return true;
        }
    }
    false
}

/// Whether both are of one procedure at one revision.
pub(crate) fn is_same(entry: &(usize, u64), other: &(usize, u64)) -> bool
    ensures same { result ≡ same_entry entry.now other.now }
{
    entry.0 == other.0 && entry.1 == other.1
}
