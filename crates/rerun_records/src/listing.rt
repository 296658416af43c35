// Records in a list, found by the numbers of their procedures and arguments, and put into it.
ghost use Rattle.std.specs.Prelude.{◌≡◌, ◌<◌, ◌≤◌, ◌+◌, List, length, Some, None, IfSome, IfNone, map, true, false, slice_get};
ghost use Rattle.std.specs.Prelude.{option_copied, slice_set, vec_capacity};
ghost use Rattle.std.specs.List.{find, position_or_len};
ghost use Rattle.place_chains.specs.Mixing.{number_of as mixed_number};
ghost use Rattle.record_theory.specs.Record.{PlainRecord, is_of, same_instance, instance_number, as_made};
ghost use Rattle.record_theory.specs.Numbers.{with_numbers, HaveNumbers};
ghost use Rattle.record_theory.specs.InStep.{IsInStep, ReadNow, reads_agree};
ghost use Rattle.meaning.specs.Every.{every};
ghost use Rattle.meaning.specs.Tables.{Tables as PlainTables};
ghost use Rattle.instance_records.specs.declared.spans.Span.{Span};
ghost use Rattle.instance_records.specs.Spans.{is_covered_by};
ghost use Rattle.record_theory.specs.Commits.{put_record, put_records, AreSingle};
ghost use Rattle.rerun_records.specs.Blocks.{BlocksFit, BlocksRemain, IsFree, is_fresh_at};
ghost use Rattle.rerun_records.specs.Covers.{AreKept};

use crate::blocks::Blocks;
use crate::covers::Covers;
use instance_records::record::Record;
use place_chains::mixing::number_of;
use place_chains::places::Places;
use record_numbers::stale::{clear, is_fresh};
use std::mem;

/// So many records that others have replaced are kept at most.
const MOST_REPLACED: usize = 256;

/// The record at that place.
pub(crate) fn record_at(list: &[Record], place: usize) -> Option<&Record>
    ensures at { option_copied result ≡ slice_get list.now place }
{
    list.get(place)
}

/// Whether the record is that of the procedure of that number with these arguments.
#[inline(always)]
pub(crate) fn is_of(record: &Record, procedure: usize, arguments: &[i64]) -> bool
    ensures of { result ≡ is_of procedure arguments.now record.now }
{
    procedure == record.procedure() && *arguments == *record.arguments()
}

/// The record of the procedure of that number with these arguments, to which that number is given, and its place.
#[inline(always)]
pub(crate) fn found_in<'a>(
    list: &'a [Record],
    places: &Places,
    number: u32,
    procedure: usize,
    arguments: &[i64],
) -> Option<(usize, &'a Record)>
    requires numbered { places.now.numbers ≡ map instance_number list.now }
    requires number { number ≡ mixed_number procedure arguments.now }
    ensures there { IfSome result (λ found. slice_get list.now found.0 ≡ Some found.1.now) }
    ensures of { IfSome result (λ found. is_of procedure arguments.now found.1.now ≡ true) }
    ensures none { IfNone result (find (is_of procedure arguments.now) list.now ≡ None) }
{
    let mut end = places.newest(number);
    while end > 0 {
        let place = end - 1;
        let record = &list[place];
        if is_of(record, procedure, arguments) {
            return Some((place, record));
        }
        end = places.before(place);
    }
    None
}

// The places of the records of the same procedures and arguments as these: of the first of them, up to one of which there is none, or for which
// memory is refused. Each is looked for first as far from the one before it as the sums of their arguments are apart. They are looked up
// before any is put in, in a loop that does nothing else: so several are fetched from memory at the same time, and their numbers too.
fn places_near(
    list: &[Record],
    places: &Places,
    numbers: &[u32],
    records: &Vec<Record>,
) -> Vec<usize>
    requires numbered { places.now.numbers ≡ map instance_number list.now }
{
    let mut found = Vec::new(*records.allocator());
    if found.reserve(records.len()).is_err() {
        return found;
    }
    let mut offset: usize = 0;
    for record in records {
        let sum = sum_of(record.arguments());
        let place = place_by(list, places, offset.wrapping_add(sum), record);
        if place >= list.len() {
            return found;
        }
        if found.push(noted(numbers, place)).is_err() {
            return found;
        }
        offset = place.wrapping_sub(sum);
    }
    found
}

// The place of the record of the same procedure and arguments, which is looked for at the near place first, or the one behind the others.
#[inline(always)]
fn place_by(list: &[Record], places: &Places, near: usize, made: &Record) -> usize
    requires numbered { places.now.numbers ≡ map instance_number list.now }
{
    match record_at(list, near) {
        Some(record) => {
            if is_of(record, made.procedure(), made.arguments()) {
                return near;
            }
            found_place(list, places, made)
        }
        None => found_place(list, places, made),
    }
}

// The same by the number of its procedure and arguments.
#[inline(never)]
fn found_place(list: &[Record], places: &Places, made: &Record) -> usize
    requires numbered { places.now.numbers ≡ map instance_number list.now }
{
    let number = number_of(made.procedure(), made.arguments());
    match found_in(list, places, number, made.procedure(), made.arguments()) {
        Some((place, _)) => place,
        None => list.len(),
    }
}

// A place as it is noted: from the other end, where nothing of the record there is counted. So its number is looked at, which its put asks
// for, while the others are looked up.
#[inline(always)]
fn noted(numbers: &[u32], place: usize) -> usize {
    match numbers.get(place) {
        Some(number) => {
            if is_fresh(*number) {
                return usize::MAX.wrapping_sub(place);
            }
            place
        }
        None => place,
    }
}

// The place of that number among these, which are noted so, if there is one.
#[inline(always)]
fn near_at(near: &[usize], number: usize) -> usize {
    match near.get(number) {
        Some(place) => (*place).min(usize::MAX.wrapping_sub(*place)),
        None => usize::MAX,
    }
}

/// Lets go of the records that others have replaced, and makes room for so many more of them, as far as memory isn't refused.
pub(crate) fn make_way(replaced: &mut Vec<Record>, count: usize) {
    replaced.clear();
    let _ = replaced.reserve(count.min(MOST_REPLACED));
}

/// Lets go of the records that others have replaced with their list, and makes one with as much room, if memory isn't refused. Where that takes
/// a kilobyte, the allocator puts together what was let go, for which the next run's first allocation of such a size would have to wait.
pub(crate) fn renew(replaced: &mut Vec<Record>) {
    let alloc = *replaced.allocator();
    let room = replaced.capacity();
    *replaced = Vec::new(alloc);
    let _ = replaced.reserve(room);
}

/// Puts records in, for which there is room. Those that they replace are kept, as far as there is room for them.
pub(crate) fn put_all(
    list: &mut Vec<Record>,
    places: &mut Places,
    numbers: &mut Vec<u32>,
    blocks: &mut Blocks,
    covers: &mut Covers,
    records: Vec<Record>,
    replaced: &mut Vec<Record>,
)
    requires room { length list.old.items + length records.items ≤ vec_capacity list.old }
    requires room_below { length list.old.items + length records.items ≤ places.old.room }
    requires places { length numbers.old.items + length records.items ≤ vec_capacity numbers.old }
    requires numbered { places.old.numbers ≡ map instance_number list.old.items }
    requires numbers { HaveNumbers numbers.old.items list.old.items }
    requires fit { BlocksFit (with_numbers numbers.old.items list.old.items) blocks.old }
    requires covered { AreKept list.old.items covers.old }
    ensures put { with_numbers numbers.new.items list.new.items
        ≡ put_records (with_numbers numbers.old.items list.old.items) records.items }
    ensures numbered { places.new.numbers ≡ map instance_number list.new.items }
    ensures numbers { HaveNumbers numbers.new.items list.new.items }
    ensures fit { BlocksFit (with_numbers numbers.new.items list.new.items) blocks.new }
    ensures covered { AreKept list.new.items covers.new }
    ensures as_made { map as_made (with_numbers numbers.new.items list.new.items)
        ≡ put_records (map as_made (with_numbers numbers.old.items list.old.items))
        records.items }
    ensures in_step { (tables : PlainTables) → IsInStep tables (with_numbers numbers.old.items list.old.items)
        → ReadNow tables records.items → IsInStep tables (with_numbers numbers.new.items list.new.items) }
{
    let near = places_near(list, places, numbers, &records);
    let mut count: usize = 0;
    for record in records {
        let place = near_at(&near, count);
        let old = put(list, places, numbers, blocks, covers, place, record);
        keep(replaced, old);
        count = count.wrapping_add(1);
    }
}

// Keeps a record that was replaced, if there was one, where there is room for it and to let it go takes long: what it has read has memory of
// its own.
#[inline(always)]
fn keep(replaced: &mut Vec<Record>, old: Option<Record>) {
    match old {
        Some(old) => {
            if replaced.len() < replaced.capacity() && !old.reads().is_pair() {
                let _ = replaced.push(old);
            }
        }
        None => {}
    }
}

// Puts a record in, for which there is room, and which may have the near place; the one that it replaces is handed out.
#[inline(always)]
fn put(
    list: &mut Vec<Record>,
    places: &mut Places,
    numbers: &mut Vec<u32>,
    blocks: &mut Blocks,
    covers: &mut Covers,
    near: usize,
    made: Record,
) -> Option<Record>
    requires room { length list.old.items < vec_capacity list.old }
    requires room_below { length list.old.items < places.old.room }
    requires place { length numbers.old.items < vec_capacity numbers.old }
    requires numbered { places.old.numbers ≡ map instance_number list.old.items }
    requires numbers { HaveNumbers numbers.old.items list.old.items }
    requires fit { BlocksFit (with_numbers numbers.old.items list.old.items) blocks.old }
    requires covered { AreKept list.old.items covers.old }
    ensures put { with_numbers numbers.new.items list.new.items
        ≡ put_record (with_numbers numbers.old.items list.old.items) made }
    ensures count { length list.new.items ≤ length list.old.items + 1 }
    ensures room { vec_capacity list.new ≡ vec_capacity list.old }
    ensures room_below { places.new.room ≡ places.old.room }
    ensures places { length numbers.new.items ≤ length numbers.old.items + 1 }
    ensures capacity { vec_capacity numbers.new ≡ vec_capacity numbers.old }
    ensures numbered { places.new.numbers ≡ map instance_number list.new.items }
    ensures made { as_made made ≡ made }
    ensures numbers { HaveNumbers numbers.new.items list.new.items }
    ensures fit { BlocksFit (with_numbers numbers.new.items list.new.items) blocks.new }
    ensures covered { AreKept list.new.items covers.new }
    ensures in_step { (tables : PlainTables) → IsInStep tables (with_numbers numbers.old.items list.old.items)
        → reads_agree tables made ≡ true → IsInStep tables (with_numbers numbers.new.items list.new.items) }
{
    made.as_made();
    let (number, place) = place_near(list, places, near, &made);
    free(blocks, list, numbers, place);
    let old = put_at(list, places, covers, number, place, made);
    clear(numbers, place);
    old
}

// Notes that the record at that place is due, and drops the blocks that have it as part. Of which something is counted it is part of none.
#[inline(always)]
fn free(blocks: &mut Blocks, _list: &[Record], numbers: &[u32], place: usize)
    requires fit { BlocksFit (with_numbers numbers.now _list.now) blocks.old }
    requires numbers { HaveNumbers numbers.now _list.now }
    ensures remain { BlocksRemain blocks.new blocks.old }
    ensures free { IsFree place blocks.new.fine × IsFree place blocks.new.middle × IsFree place blocks.new.wide
        × IsFree place blocks.new.vast }
{
    blocks.note_due(place);
    if is_counted(_list, numbers, place) {
        return;
    }
    blocks.drop_at(place);
}

// Whether there is a record at that place of which something is counted.
#[inline(always)]
fn is_counted(_list: &[Record], numbers: &[u32], place: usize) -> bool
    requires numbers { HaveNumbers numbers.now _list.now }
    ensures counted { result ≡ true → is_fresh_at (with_numbers numbers.now _list.now) place ≡ false }
{
    match numbers.get(place) {
        Some(number) => !is_fresh(*number),
        None => false,
    }
}

// The sum of these numbers, as far as it fits.
#[inline(always)]
fn sum_of(numbers: &[i64]) -> usize {
    let mut sum: usize = 0;
    for number in numbers {
        sum = sum.wrapping_add(number.cast_unsigned() as usize);
    }
    sum
}

// The place of the record of the same procedure and arguments, which is looked for at the near place first, or the one behind the others, and
// then the number of its procedure and arguments too.
#[inline(always)]
fn place_near(list: &[Record], places: &Places, near: usize, made: &Record) -> (u32, usize)
    requires numbered { places.now.numbers ≡ map instance_number list.now }
    requires as_made { map as_made list.now ≡ list.now }
    requires single { AreSingle list.now }
    ensures place { result.1 ≡ position_or_len (same_instance made.now) list.now }
    ensures number { length list.now ≤ result.1 → result.0 ≡ instance_number made.now }
{
    if is_there(list, near, made) {
        return (0, near);
    }
    place_by_number(list, places, made)
}

// Whether the record at that place is of the same procedure and arguments.
#[inline(always)]
fn is_there(list: &[Record], place: usize, made: &Record) -> bool
    requires as_made { map as_made list.now ≡ list.now }
    requires single { AreSingle list.now }
    ensures there { result ≡ true → place ≡ position_or_len (same_instance made.now) list.now }
    ensures within { result ≡ true → place < length list.now }
{
    match record_at(list, place) {
        Some(record) => is_of(record, made.procedure(), made.arguments()),
        None => false,
    }
}

// The number of a record's procedure and arguments, and the place of the record of the same, or the one behind the others.
#[inline(never)]
fn place_by_number(list: &[Record], places: &Places, made: &Record) -> (u32, usize)
    requires numbered { places.now.numbers ≡ map instance_number list.now }
    requires as_made { map as_made list.now ≡ list.now }
    requires single { AreSingle list.now }
    ensures place { result.1 ≡ position_or_len (same_instance made.now) list.now }
    ensures number { result.0 ≡ instance_number made.now }
{
    let number = number_of(made.procedure(), made.arguments());
    (number, place_for(list, places, number, made))
}

/// The place of the record of the same procedure and arguments, or the one behind the others.
#[inline(always)]
pub(crate) fn place_for(list: &[Record], places: &Places, number: u32, made: &Record) -> usize
    requires numbered { places.now.numbers ≡ map instance_number list.now }
    requires number { number ≡ instance_number made.now }
    requires as_made { map as_made list.now ≡ list.now }
    requires single { AreSingle list.now }
    ensures place { result ≡ position_or_len (same_instance made.now) list.now }
{
    match found_in(list, places, number, made.procedure(), made.arguments()) {
        Some((place, _)) => place,
        None => list.len(),
    }
}

// Puts a record in the place of another, which is handed out. Where it has read of the rows of which that one had, its hulls hold them.
#[inline(always)]
fn replace_in(list: &mut Vec<Record>, covers: &mut Covers, place: usize, made: Record) -> Record
    requires within { place < length list.old.items }
    ensures put { list.new.items ≡ slice_set list.old.items place made }
    ensures room { vec_capacity list.new ≡ vec_capacity list.old }
    ensures covered { AreKept list.old.items covers.old → AreKept list.new.items covers.new }
{
    let is_held = has_rows_of(&made, record_at(list, place));
    let old = mem::replace(&mut list[place], made);
    if is_held {
        return old;
    }
    covers.put_in(list, place);
    old
}

// Whether a record has read of the rows of which the other one had, if there is one and that is seen at once.
#[inline(always)]
fn has_rows_of(made: &Record, other: Option<&Record>) -> bool
    ensures has { result ≡ true → (r : PlainRecord) → option_copied other.entry ≡ Some r → (h : List Span)
        → every (is_covered_by h) r.reads ≡ true → every (is_covered_by h) made.now.reads ≡ true }
{
    match other {
        Some(record) => made.reads().have_rows_of(record.reads()),
        None => false,
    }
}

// Puts a record at its place, or behind the others under that number, for which there is room; the one that it replaces is handed out.
#[inline(always)]
fn put_at(
    list: &mut Vec<Record>,
    places: &mut Places,
    covers: &mut Covers,
    number: u32,
    place: usize,
    made: Record,
) -> Option<Record>
    requires room { length list.old.items < vec_capacity list.old }
    requires room_below { length list.old.items < places.old.room }
    requires numbered { places.old.numbers ≡ map instance_number list.old.items }
    requires number { length list.old.items ≤ place → number ≡ instance_number made }
    requires place { place ≡ position_or_len (same_instance made) list.old.items }
    requires covered { AreKept list.old.items covers.old }
    ensures put { list.new.items ≡ put_record list.old.items made }
    ensures numbered { places.new.numbers ≡ map instance_number list.new.items }
    ensures room { vec_capacity list.new ≡ vec_capacity list.old }
    ensures room_below { places.new.room ≡ places.old.room }
    ensures covered { AreKept list.new.items covers.new }
{
    if place < list.len() {
        return Some(replace_in(list, covers, place, made));
    }
    list.push_reserved(made);
    places.push(number);
    None
}
