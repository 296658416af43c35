// A list of records that becomes that of a session: of those of one procedure and arguments the last is kept, where the first stands.
ghost use Rattle.std.specs.Prelude.{◌≡◌, ◌<◌, ◌≤◌, ◌+◌, [], length, take, drop, map, Some, slice_get, IfOk};
ghost use Rattle.std.specs.List.{position_or_len};
ghost use Rattle.meaning.specs.Tables.{Tables as PlainTables};
ghost use Rattle.record_theory.specs.Record.{PlainRecord, same_instance, instance_number, as_made};
ghost use Rattle.record_theory.specs.InStep.{IsInStep, ReadNow};
ghost use Rattle.record_theory.specs.Commits.{put_record, put_records, AreSingle};

use crate::listing::place_for;
use instance_records::record::Record;
use place_chains::mixing::number_of;
use place_chains::places::Places;
use record_numbers::bringing::bring;
use std::alloc::{AllocError, Global};

/// The numbers of the records' procedures and arguments. They are reckoned in a loop that does nothing else: so of records that were made
/// long ago several are fetched from memory at the same time.
pub(crate) fn numbers_of(alloc: Global, records: &[Record]) -> Result<Vec<u32>, AllocError>
    ensures numbers { IfOk result (λ numbers. numbers.items ≡ map instance_number records.now) }
{
    let mut numbers = Vec::new(alloc);
    numbers.reserve(records.len())?;
    for record in records {
        numbers.push(number_of(record.procedure(), record.arguments()))?;
    }
    Ok(numbers)
}

/// Has the list hold what its records come to that are put in one after another, where there are no others: those that are kept are
/// moved to its front. It takes no memory.
pub(crate) fn keep_last(list: &mut Vec<Record>, numbers: &[u32], places: &mut Places)
    requires numbers { numbers.now ≡ map instance_number list.old.items }
    requires room { length list.old.items ≤ places.old.room }
    requires no_places { places.old.numbers ≡ [] }
    ensures put { list.new.items ≡ put_records [] list.old.items }
    ensures numbered { places.new.numbers ≡ map instance_number list.new.items }
    ensures as_made { map as_made list.new.items ≡ list.new.items }
    ensures single { AreSingle list.new.items }
    ensures in_step { (tables : PlainTables) → ReadNow tables list.old.items → IsInStep tables list.new.items }
    ensures fewer { length list.new.items ≤ length list.old.items }
{
    let kept = keep_each(list, numbers, places);
    list.truncate(kept);
}

// Moves those that are kept to the front of the list, and tells how many they are.
fn keep_each(list: &mut [Record], numbers: &[u32], places: &mut Places) -> usize
    requires numbers { numbers.now ≡ map instance_number list.old }
    requires room { length list.old ≤ places.old.room }
    requires no_places { places.old.numbers ≡ [] }
    ensures put { take result list.new ≡ put_records [] list.old }
    ensures numbered { places.new.numbers ≡ map instance_number (take result list.new) }
    ensures as_made { map as_made (take result list.new) ≡ take result list.new }
    ensures single { AreSingle (take result list.new) }
    ensures in_step { (tables : PlainTables) → ReadNow tables list.old → IsInStep tables (take result list.new) }
    ensures fewer { length (take result list.new) ≤ length list.old }
{
    let mut kept = 0;
    for next in 0..list.len() {
        kept = keep(list, numbers, places, kept, next);
    }
    kept
}

// Puts the next record in among those that are kept, the first so many of the list, and tells how many they are then.
#[inline(always)]
fn keep(
    list: &mut [Record],
    numbers: &[u32],
    places: &mut Places,
    kept: usize,
    next: usize,
) -> usize
    requires within { next < length list.old }
    requires numbers { drop next numbers.now ≡ map instance_number (drop next list.old) }
    requires kept { kept ≤ next }
    requires room { length list.old ≤ places.old.room }
    requires numbered { places.old.numbers ≡ map instance_number (take kept list.old) }
    requires as_made { map as_made (take kept list.old) ≡ take kept list.old }
    requires single { AreSingle (take kept list.old) }
    ensures length { length list.new ≡ length list.old }
    ensures kept { result ≤ next + 1 }
    ensures numbers { drop (next + 1) numbers.now ≡ map instance_number (drop (next + 1) list.new) }
    ensures room { places.new.room ≡ places.old.room }
    ensures put { put_records (take result list.new) (drop (next + 1) list.new)
        ≡ put_records (take kept list.old) (drop next list.old) }
    ensures numbered { places.new.numbers ≡ map instance_number (take result list.new) }
    ensures as_made { map as_made (take result list.new) ≡ take result list.new }
    ensures single { AreSingle (take result list.new) }
    ensures in_step { (tables : PlainTables)
        → IsInStep tables (take kept list.old) → ReadNow tables (drop next list.old)
        → IsInStep tables (take result list.new) × ReadNow tables (drop (next + 1) list.new) }
{
    let number = number_at(list, numbers, next);
    let place = place_of_next(list, places, number, kept, next);
    move_to(list, places, number, kept, next, place)
}

// The number of the next record's procedure and arguments.
#[inline(always)]
fn number_at(_list: &[Record], numbers: &[u32], next: usize) -> u32
    requires within { next < length _list.now }
    requires numbers { drop next numbers.now ≡ map instance_number (drop next _list.now) }
    ensures number { (made : PlainRecord) → slice_get _list.now next ≡ Some made → result ≡ instance_number made }
{
    numbers[next]
}

// The place of the next record among those that are kept: that of the one of the same procedure and arguments, or the one behind them
// all. Where none has its number no record is looked at.
#[inline(always)]
fn place_of_next(list: &[Record], places: &Places, number: u32, kept: usize, next: usize) -> usize
    requires within { next < length list.now }
    requires kept { kept ≤ next }
    requires number { (made : PlainRecord) → slice_get list.now next ≡ Some made → number ≡ instance_number made }
    requires numbered { places.now.numbers ≡ map instance_number (take kept list.now) }
    requires as_made { map as_made (take kept list.now) ≡ take kept list.now }
    requires single { AreSingle (take kept list.now) }
    ensures place { (made : PlainRecord) → slice_get list.now next ≡ Some made
        → result ≡ position_or_len (same_instance made) (take kept list.now) }
    ensures as_made { (made : PlainRecord) → slice_get list.now next ≡ Some made → as_made made ≡ made }
{
    let record = &list[next];
    record.as_made();
    if places.newest(number) == 0 {
        return kept;
    }
    place_among(&list[..kept], places, number, record)
}

// The same, where some have that number.
#[inline(never)]
fn place_among(list: &[Record], places: &Places, number: u32, made: &Record) -> usize
    requires numbered { places.now.numbers ≡ map instance_number list.now }
    requires number { number ≡ instance_number made.now }
    requires as_made { map as_made list.now ≡ list.now }
    requires single { AreSingle list.now }
    ensures place { result ≡ position_or_len (same_instance made.now) list.now }
{
    place_for(list, places, number, made)
}

// Moves the next record to that place among those that are kept, or behind them, and tells how many they are then. What stood there
// isn't kept.
#[inline(always)]
fn move_to(
    list: &mut [Record],
    places: &mut Places,
    number: u32,
    kept: usize,
    next: usize,
    place: usize,
) -> usize
    requires within { next < length list.old }
    requires kept { kept ≤ next }
    requires place { place ≤ kept }
    requires room { length list.old ≤ places.old.room }
    requires numbered { places.old.numbers ≡ map instance_number (take kept list.old) }
    ensures length { length list.new ≡ length list.old }
    ensures kept { result ≤ next + 1 }
    ensures room { places.new.room ≡ places.old.room }
    ensures rest { drop (next + 1) list.new ≡ drop (next + 1) list.old }
    ensures put { (made : PlainRecord) → slice_get list.old next ≡ Some made
        → place ≡ position_or_len (same_instance made) (take kept list.old)
        → take result list.new ≡ put_record (take kept list.old) made }
    ensures numbered { (made : PlainRecord) → slice_get list.old next ≡ Some made
        → place ≡ position_or_len (same_instance made) (take kept list.old) → number ≡ instance_number made
        → places.new.numbers ≡ map instance_number (take result list.new) }
{
    bring(list, place, next);
    if place < kept {
        return kept;
    }
    places.push(number);
    kept + 1
}
