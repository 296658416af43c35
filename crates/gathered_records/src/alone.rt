// Records in a row whose instances have one argument: the number of none of them has to be written into the row for it to be found.
ghost use Rattle.std.specs.Prelude.{◌≡◌, ◌+ℤ◌, ◌∷◌, [], pos, true, IfSome, OnOk};
ghost use Rattle.rerun_records.specs.Blocks.{is_fresh_at};
ghost use Rattle.gathered_records.specs.Gathering.{moved_to, IsThere, AreInRow};

use crate::row::Row;
use crate::sums::record_at;
use instance_records::record::Record;
use rerun_records::records::Records;
use std::alloc::AllocError;

/// Puts the places of the first records in a row from that number on of which all readings are held, so many at most, where each has one
/// argument and they lie one behind another, into that empty list.
#[inline(always)]
pub(crate) fn put_alone(
    records: &Records,
    row: &Row,
    first: i64,
    most: usize,
    places: &mut Vec<u32>,
) -> Result<(), AllocError>
    requires none { places.old.items ≡ [] }
    ensures row { OnOk result (AreInRow records.now row.now first places.new.items) }
{
    let near = row.near_to(first);
    for _ in 0..most {
        match next_alone(records, row, first, places.len(), near) {
            Some(place) => places.push(place)?,
            None => return Ok(()),
        }
    }
    Ok(())
}

// The place of the record so many behind that number in the row, where it has one argument, lies as far behind that place, and all that it
// has read is held.
#[inline(always)]
fn next_alone(records: &Records, row: &Row, first: i64, step: usize, near: usize) -> Option<u32>
    ensures there { IfSome result (λ place. IsThere records.now (moved_to row.now (first +ℤ pos step)) place) }
    ensures fresh { IfSome result (λ place. is_fresh_at records.now place ≡ true) }
{
    let number = number_at(first, step)?;
    match u32::try_from(near.wrapping_add(step)) {
        Ok(place) => found_alone(records, row, number, place),
        Err(_) => None,
    }
}

// That place, where the record of the row's instance with that number lies there, has one argument, and all that it has read is held.
#[inline(always)]
fn found_alone(records: &Records, row: &Row, number: i64, place: u32) -> Option<u32>
    ensures there { IfSome result (λ place. IsThere records.now (moved_to row.now number) place) }
    ensures fresh { IfSome result (λ place. is_fresh_at records.now place ≡ true) }
{
    match record_at(records.as_slice(), place as usize) {
        Some(record) => {
            if !is_of_number(record, row, number) || !records.is_fresh(place as usize) {
                return None;
            }
            Some(place)
        }
        None => None,
    }
}

// Whether a record is that of the row's instance with that number, which has one argument.
#[inline(always)]
fn is_of_number(record: &Record, row: &Row, number: i64) -> bool
    ensures procedure { result ≡ true → record.now.procedure ≡ row.now.procedure }
    ensures arguments { result ≡ true → record.now.arguments ≡ (moved_to row.now number).arguments }
{
    record.procedure() == row.procedure() && row.is_alone() && is_one(record.arguments(), number)
}

// Whether these are that number alone.
#[inline(always)]
fn is_one(arguments: &[i64], number: i64) -> bool
    ensures one { result ≡ true → arguments.now ≡ number ∷ [] }
{
    arguments.len() == 1 && arguments[0] == number
}

// The number so many behind that one, where there is one.
#[inline(always)]
fn number_at(first: i64, step: usize) -> Option<i64>
    ensures behind { IfSome result (λ n. n ≡ first +ℤ pos step) }
{
    match i64::try_from(step) {
        Ok(step) => first.checked_add(step),
        Err(_) => None,
    }
}
