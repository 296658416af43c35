// Between which numbers of a row a block is made.
use crate::gathering::{begins_at, find_row, has_block, index_in};
use crate::row::Row;
use crate::stretch::{Bounds, Stretches};
use monoid_laws::Kind;
use rerun_records::block::Block;
use rerun_records::blocks::Width;
use rerun_records::records::Records;
use std::alloc::Global;

/// A fine block has so many records at most: halves of numbers have more than half of it, which keeps what blocks take of memory low. No sum has
/// more than 64 numbers of a list, so with more than 64 records there would be none of those that append to one.
const FINE: u64 = 40;

/// A middle one, which is made of fine ones.
const MIDDLE: u64 = 128;

/// A wide one, which is made of middle ones.
const WIDE: u64 = 2048;

/// And a vast one, which is made of wide ones.
const VAST: u64 = 8192;

/// So many parts in a row are gone through at most.
pub(crate) const PARTS: usize = 64;

/// How many records a block of that width has at most.
fn most_in(width: Width) -> u64 {
    match width {
        Width::Fine => FINE,
        Width::Middle => MIDDLE,
        Width::Wide => WIDE,
        Width::Vast => VAST,
    }
}

/// The width of the blocks that one of that width is made of.
pub(crate) fn part_of(width: Width) -> Width {
    match width {
        Width::Vast => Width::Wide,
        Width::Wide => Width::Middle,
        _ => Width::Fine,
    }
}

/// Between which numbers a block of that width is made around that of a row: a part of all numbers there that have records, halved as
/// a loop's iterations are. Where a block across its ends would be dropped for it, as behind a row that was appended, and where few
/// blocks are made, it is what the blocks beside it leave, if that isn't too much.
pub(crate) fn bounds_at(
    records: &Records,
    alloc: Global,
    width: Width,
    row: &mut Row,
    stretches: &mut Stretches,
    are_many: bool,
    kinds: &[Kind],
) -> Bounds {
    if are_many {
        if let Some(part) = whole_part(records, alloc, width, row, stretches, kinds) {
            return part;
        }
    }
    let number = row.number();
    let free = free_around(records, width, row, kinds);
    row.go_to(number);
    if free.count() <= most_in(width) {
        return free;
    }
    match whole_part(records, alloc, width, row, stretches, kinds) {
        Some(part) => part.within(free),
        None => free.part(number, most_in(width)),
    }
}

// The part of all numbers around that of a row, as a loop over them is halved, where no block of that width lies across its ends.
fn whole_part(
    records: &Records,
    alloc: Global,
    width: Width,
    row: &mut Row,
    stretches: &mut Stretches,
    kinds: &[Kind],
) -> Option<Bounds> {
    let number = row.number();
    let all = stretches.around(alloc, records, row);
    let part = all.part(number, most_in(width));
    let is_cut = is_cut(records, width, row, part, kinds);
    row.go_to(number);
    if is_cut { None } else { Some(part) }
}

// Whether blocks of that width lie across the ends of these numbers; not where they begin with that of a row, which is part of none.
fn is_cut(records: &Records, width: Width, row: &mut Row, bounds: Bounds, kinds: &[Kind]) -> bool {
    row.number() != bounds.first && is_across(records, width, row, bounds.first, kinds)
        || is_across(records, width, row, bounds.last.wrapping_add(1), kinds)
}

// Whether a block of that width has the record of that number as part, and not as the first.
fn is_across(records: &Records, width: Width, row: &mut Row, number: i64, kinds: &[Kind]) -> bool {
    row.go_to(number);
    match find_row(records, row) {
        Some(place) => match records.block_at(width, place as usize, kinds) {
            Some(block) => !begins_at(block, place) && index_in(block, place as usize).is_some(),
            None => false,
        },
        None => false,
    }
}

// The numbers around that of a row whose records are part of no block of that width: as many as one has and some more.
fn free_around(records: &Records, width: Width, row: &mut Row, kinds: &[Kind]) -> Bounds {
    let own = own_part(records, width, row, kinds);
    let below = free_below(records, width, row, own, kinds);
    let free = free_above(records, width, row, below, kinds);
    with_short(records, width, row, free, kinds)
}

// The numbers of the narrower block that begins in a row, behind those of the block of that width that has its first record as part.
fn own_part(records: &Records, width: Width, row: &Row, kinds: &[Kind]) -> Bounds {
    let mut own = Bounds::one(row.number());
    if let Some(place) = find_row(records, row) {
        if let Some(last) = end_of_part(records, width, row, place, kinds) {
            own.last = last;
        }
        if let Some(block) = records.block_at(width, place as usize, kinds) {
            if let Some(index) = index_in(block, place as usize) {
                own.first = before(own.first, index);
            }
        }
    }
    own
}

// These numbers with those before them.
fn free_below(
    records: &Records,
    width: Width,
    row: &mut Row,
    own: Bounds,
    kinds: &[Kind],
) -> Bounds {
    let mut free = own;
    for _ in 0..PARTS {
        if free.count() > most_in(width) {
            return free;
        }
        match part_below(records, width, row, free.first, kinds, true) {
            Some(first) => free.first = first,
            None => return free,
        }
    }
    free
}

// These numbers with those behind them.
fn free_above(
    records: &Records,
    width: Width,
    row: &mut Row,
    own: Bounds,
    kinds: &[Kind],
) -> Bounds {
    let mut free = own;
    for _ in 0..PARTS {
        if free.count() > most_in(width) {
            return free;
        }
        match part_above(records, width, row, free.last, kinds) {
            Some(last) => free.last = last,
            None => return free,
        }
    }
    free
}

// These numbers, where they are few with those of the block of that width that ends before them, if both go into one: so the last
// block of a table that grows becomes longer.
fn with_short(
    records: &Records,
    width: Width,
    row: &mut Row,
    free: Bounds,
    kinds: &[Kind],
) -> Bounds {
    if free.count() >= most_in(width) / 2 {
        return free;
    }
    match block_below(records, width, row, free.first, kinds) {
        Some(first) => longer(free, first, most_in(width)),
        None => free,
    }
}

// These numbers from another one on, unless they are too many then.
fn longer(free: Bounds, first: i64, most: u64) -> Bounds {
    let both = Bounds {
        first,
        last: free.last,
    };
    if both.count() <= most { both } else { free }
}

/// The first number of the part that ends before that number: of the record there or of the narrower block; if it is to be free, one
/// that no block of that width has.
pub(crate) fn part_below(
    records: &Records,
    width: Width,
    row: &mut Row,
    number: i64,
    kinds: &[Kind],
    is_free: bool,
) -> Option<i64> {
    row.go_to(number.checked_sub(1)?);
    let place = find_row(records, row)?;
    if is_free && has_block(records, width, place as usize, kinds) {
        return None;
    }
    match width {
        Width::Fine => Some(row.number()),
        _ => begin_of_block(records, part_of(width), row, place, kinds),
    }
}

/// The last number of the part that begins behind that number, where no block of that width has it: the row is there then.
pub(crate) fn part_above(
    records: &Records,
    width: Width,
    row: &mut Row,
    number: i64,
    kinds: &[Kind],
) -> Option<i64> {
    row.go_to(number.checked_add(1)?);
    let place = find_row(records, row)?;
    if has_block(records, width, place as usize, kinds) {
        return None;
    }
    end_of_part(records, width, row, place, kinds)
}

/// The last number of the narrower block that has the record of that number as part, or that number.
pub(crate) fn end_around(
    records: &Records,
    width: Width,
    row: &mut Row,
    number: i64,
    kinds: &[Kind],
) -> i64 {
    let own = row.number();
    row.go_to(number);
    let left = left_in_part(records, width, row, kinds);
    row.go_to(own);
    match left {
        Some(left) => behind(number, left),
        None => number,
    }
}

// How many records the narrower block of which that of a row is part has behind it.
fn left_in_part(records: &Records, width: Width, row: &Row, kinds: &[Kind]) -> Option<usize> {
    let place = find_row(records, row)? as usize;
    let block = records.block_at(part_of(width), place, kinds)?;
    let index = index_in(block, place)?;
    Some(block.places().len().saturating_sub(index).saturating_sub(1))
}

// The first number of the block of that width that ends before that number.
fn block_below(
    records: &Records,
    width: Width,
    row: &mut Row,
    number: i64,
    kinds: &[Kind],
) -> Option<i64> {
    row.go_to(number.checked_sub(1)?);
    let place = find_row(records, row)?;
    begin_of_block(records, width, row, place, kinds)
}

// The last number of the part that begins where a row is, at that place: of the record or of the narrower block.
fn end_of_part(
    records: &Records,
    width: Width,
    row: &Row,
    place: u32,
    kinds: &[Kind],
) -> Option<i64> {
    match width {
        Width::Fine => Some(row.number()),
        _ => {
            let block = records.block_at(part_of(width), place as usize, kinds)?;
            if block.counted() == row.counted() && begins_at(block, place) {
                Some(behind(row.number(), block.places().len().saturating_sub(1)))
            } else {
                None
            }
        }
    }
}

// The first number of the block of that width that ends where a row is, at that place.
fn begin_of_block(
    records: &Records,
    width: Width,
    row: &Row,
    place: u32,
    kinds: &[Kind],
) -> Option<i64> {
    let block = records.block_at(width, place as usize, kinds)?;
    if block.counted() == row.counted() && ends_at(block, place) {
        Some(before(row.number(), block.places().len().saturating_sub(1)))
    } else {
        None
    }
}

// Whether a block's last record has that place.
fn ends_at(block: &Block, place: u32) -> bool {
    match block.places().last() {
        Some(last) => *last == place,
        None => false,
    }
}

// The number so many before.
fn before(number: i64, count: usize) -> i64 {
    number.wrapping_sub((count as u64).cast_signed())
}

// The number so many behind.
fn behind(number: i64, count: usize) -> i64 {
    number.wrapping_add((count as u64).cast_signed())
}
