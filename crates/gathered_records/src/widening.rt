// Blocks in a row are joined into wider ones.
ghost use Rattle.std.specs.Prelude.{◌≡◌, ◌<◌, ◌+ℤ◌, ◌++◌, ℤ, pos, [], OnOk, OnSome, IfSome, All, length, map, slice_get, Some, true};
ghost use Rattle.monoid_laws.specs.Kinds.{AreWorths, IsMonoid};
ghost use Rattle.record_theory.specs.Record.{as_made};
ghost use Rattle.record_theory.specs.Named.{AreValuesFrom};
ghost use Rattle.gathered_records.specs.Summing.{at_places, nothing_summed, added, HasSummed};
ghost use Rattle.gathered_records.specs.Gathering.{moved_to, AreInRow, IsPart};

use crate::bounds::{PARTS, bounds_at, end_around, part_above, part_below, part_of};
use crate::gathering::{begins_at, find_row, go_on, has_block, is_part, row_of};
use crate::row::Row;
use crate::stretch::{Bounds, Stretches};
use crate::sums::{Sum, finish_at};
use crate::tried::Tried;
use linked_program::checked::Checked;
use monoid_laws::Kind;
use rerun_records::block::Block;
use rerun_records::blocks::Width;
use rerun_records::records::Records;
use std::alloc::{AllocError, Global};

/// There is room for so many blocks that are joined at first.
const ROOM: usize = 8;

/// And for so many of their places at most.
const PLACES: usize = 2048;

/// The places of the records of blocks that are joined, what these records have together, and behind how many none begins.
#[derive(Drop)]
struct Joined {
    places: Vec<u32>,
    sum: Sum,
    most: usize,
}

/// Makes a block of that width of narrower ones in a row with that of the record at that place, where it has such a one, none of
/// that width, and wasn't tried.
pub(crate) fn widen_at(
    records: &mut Records,
    alloc: Global,
    width: Width,
    place: usize,
    tried: &mut Tried,
    stretches: &mut Stretches,
    program: &Checked,
)
    requires monoids { All IsMonoid program.now.kinds }
    ensures same { records.new ≡ records.old }
{
    if tried.has(place) || has_block(records, width, place, program.kinds()) {
        return;
    }
    match part_row(records, alloc, width, place, tried, program.kinds()) {
        Ok(Some(mut row)) => {
            widen_on(
                records,
                alloc,
                width,
                &mut row,
                tried,
                stretches,
                program.kinds(),
            )
        }
        _ => {}
    }
}

// Makes blocks of that width of the narrower ones in a row from where it is on, as far as they are part of none and one is made.
fn widen_on(
    records: &mut Records,
    alloc: Global,
    width: Width,
    row: &mut Row,
    tried: &mut Tried,
    stretches: &mut Stretches,
    kinds: &[Kind],
)
    requires monoids { All IsMonoid kinds.now }
    ensures same { records.new ≡ records.old }
{
    for _ in 0..PARTS {
        let are_many = tried.are_many();
        let bounds = bounds_at(records, alloc, width, row, stretches, are_many, kinds);
        let last = end_around(records, width, row, bounds.last, kinds);
        if widen_row(records, alloc, width, row, bounds, tried, kinds).is_err() {
            return;
        }
        if part_above(records, width, row, last, kinds).is_none() {
            return;
        }
    }
}

// The row of the first record of the narrower block that has the record at that place as part, whose records are tried then.
fn part_row(
    records: &Records,
    alloc: Global,
    width: Width,
    place: usize,
    tried: &mut Tried,
    kinds: &[Kind],
) -> Result<Option<Row>, AllocError> {
    tried.put(place);
    match records.block_at(part_of(width), place, kinds) {
        Some(block) if is_part(block, place) => {
            tried.put_all(block.places());
            first_row(records, alloc, block)
        }
        _ => Ok(None),
    }
}

// The row of the first record of a block.
fn first_row(records: &Records, alloc: Global, block: &Block) -> Result<Option<Row>, AllocError> {
    match block.places().first() {
        Some(first) => match records.as_slice().get(*first as usize) {
            Some(record) => row_of(alloc, record, block.counted(), *first as usize),
            None => Ok(None),
        },
        None => Ok(None),
    }
}

// Makes a block of that width of the narrower ones in that row between these numbers.
fn widen_row(
    records: &mut Records,
    alloc: Global,
    width: Width,
    row: &mut Row,
    bounds: Bounds,
    tried: &mut Tried,
    kinds: &[Kind],
) -> Result<(), AllocError>
    requires monoids { All IsMonoid kinds.now }
    ensures same { records.new ≡ records.old }
{
    let first = lowest_part(records, width, row, bounds, kinds);
    let most = bounds.count_from(first);
    let mut joined = Joined {
        places: Vec::with_capacity(alloc, most.min(PLACES))?,
        sum: Sum::new(alloc, kinds, tried.keeps_reads(), 0, ROOM)?,
        most,
    };
    join_parts(records, alloc, width, row, first, kinds, &mut joined)?;
    tried.put_all(&joined.places);
    if joined.places.len() <= first_part(records, width, &joined.places, kinds) {
        return Ok(());
    }
    add_wide(records, alloc, width, row, first, joined, kinds)
}

// Adds a block of that width of the records in that row at these places.
fn add_wide(
    records: &mut Records,
    alloc: Global,
    width: Width,
    row: &Row,
    first: i64,
    joined: Joined,
    kinds: &[Kind],
) -> Result<(), AllocError>
    requires row { AreInRow records.old row.now first joined.places.items }
    requires summed { HasSummed kinds.now (at_places (map as_made records.old) joined.places.items) joined.sum }
    requires some { 0 < length joined.places.items }
    ensures same { records.new ≡ records.old }
{
    let counted = row.counted();
    let Joined { places, sum, .. } = joined;
    let keeps = sum.keeps();
    let sum = finish_at(alloc, sum, kinds, records.as_slice(), &places)?;
    let block = Block::new(places, counted, keeps, sum);
    records.add_block(alloc, width, kinds, block)
}

// How many records the narrower block has that has the first of these places; 0 where none has it.
fn first_part(records: &Records, width: Width, places: &[u32], kinds: &[Kind]) -> usize {
    match places.first() {
        Some(first) => match records.block_at(part_of(width), *first as usize, kinds) {
            Some(block) => block.places().len(),
            None => 0,
        },
        None => 0,
    }
}

// The least of these numbers from which on there are narrower blocks in a row up to where it is.
fn lowest_part(
    records: &Records,
    width: Width,
    row: &mut Row,
    bounds: Bounds,
    kinds: &[Kind],
) -> i64 {
    let mut first = row.number();
    for _ in 0..PARTS {
        match part_below(records, width, row, first, kinds, false) {
            Some(lower) if bounds.first <= lower => first = lower,
            _ => return first,
        }
    }
    first
}

// Puts the places of the narrower blocks in a row from that number on behind one another, as many as may be, and adds what they have
// together.
fn join_parts(
    records: &Records,
    alloc: Global,
    width: Width,
    row: &mut Row,
    first: i64,
    kinds: &[Kind],
    joined: &mut Joined,
) -> Result<(), AllocError>
    requires monoids { All IsMonoid kinds.now }
    requires none { joined.old.places.items ≡ [] }
    requires nothing { joined.old.sum ≡ nothing_summed kinds.now joined.old.sum.keeps }
    ensures row { OnOk result (AreInRow records.now row.new first joined.new.places.items) }
    ensures summed { OnOk result (
        HasSummed kinds.now (at_places (map as_made records.now) joined.new.places.items) joined.new.sum) }
{
    for _ in 0..PARTS {
        match part_next(
            records,
            width,
            row,
            first,
            joined.places.len(),
            joined.most,
            kinds,
        ) {
            Some(block) => put_part(alloc, block, kinds, joined)?,
            None => return Ok(()),
        }
    }
    Ok(())
}

// The narrower block that begins so many instances on in the row, where there is one and that is fewer than so many.
#[tactic(auto, using(crate::proofs::Rows::part_is))]
fn part_next<'a>(
    records: &'a Records,
    width: Width,
    row: &mut Row,
    first: i64,
    step: usize,
    most: usize,
    kinds: &[Kind],
) -> Option<&'a Block>
    ensures row { (z : ℤ) → moved_to row.new z ≡ moved_to row.old z }
    ensures within { OnSome result (row.new.counted < length row.new.arguments) }
    ensures part { IfSome result (λ block. IsPart kinds.now records.now row.new block.now) }
    ensures moved { OnSome result (row.new ≡ moved_to row.old (first +ℤ pos step)) }
{
    if step >= most {
        return None;
    }
    if !go_on(row, first, step) {
        return None;
    }
    let place = find_row(records, row)?;
    let block = records.block_at(part_of(width), place as usize, kinds)?;
    if begins_in(block, row.counted(), place) {
        Some(block)
    } else {
        None
    }
}

// Puts a block's places behind others, and adds what its records have together; refused where readings are kept and the block has none.
fn put_part(
    alloc: Global,
    block: &Block,
    kinds: &[Kind],
    joined: &mut Joined,
) -> Result<(), AllocError>
    requires monoids { All IsMonoid kinds.now }
    requires worths { AreWorths kinds.now joined.old.sum.worths }
    requires values { AreValuesFrom 0 kinds.now block.now.sum.contribution }
    ensures places { OnOk result (joined.new.places.items ≡ joined.old.places.items ++ block.now.places) }
    ensures added { OnOk result (joined.new.sum ≡ added kinds.now joined.old.sum block.now.sum) }
    ensures read { OnOk result (joined.old.sum.keeps ≡ true → block.now.keeps ≡ true) }
{
    if joined.sum.keeps() && !block.keeps() {
        return Err(AllocError);
    }
    joined.places.extend_from_slice(block.places())?;
    joined.sum.add(alloc, kinds, block.sum())
}

// Whether a block counts that argument, and its first record has that place.
fn begins_in(block: &Block, counted: usize, place: u32) -> bool
    ensures counts { result ≡ true → block.now.counted ≡ counted }
    ensures begins { result ≡ true → slice_get block.now.places 0 ≡ Some place }
{
    block.counted() == counted && begins_at(block, place)
}
