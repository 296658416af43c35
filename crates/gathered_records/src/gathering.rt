//! Records in a row are gathered into blocks, so that what they have together answers them all.
ghost use Rattle.std.specs.Prelude.{◌≡◌, ◌+ℤ◌, ℤ, pos, true, IfOk, OnSome, IfSome, Some, All, slice_get};
ghost use Rattle.monoid_laws.specs.Kinds.{IsMonoid};
ghost use Rattle.record_theory.specs.Named.{HaveValues};
ghost use Rattle.rerun_records.specs.Blocks.{is_fresh_at};
ghost use Rattle.gathered_records.specs.Gathering.{moved_to, IsThere, AreInRow};

use crate::alone::put_alone;
use crate::bounds::{PARTS, bounds_at, part_above};
use crate::nesting::may_nest;
use crate::row::Row;
use crate::stretch::{Bounds, Stretches};
use crate::sums::{record_at, sum_at};
use crate::tried::Tried;
use crate::widening::widen_at;
use instance_records::record::Record;
use linked_program::checked::Checked;
use monoid_laws::Kind;
use rerun_records::block::Block;
use rerun_records::blocks::Width;
use rerun_records::records::Records;
use std::alloc::{AllocError, Global};

/// There is room for so many places of a fine block at first.
const ROOM: usize = 40;

/// Vast blocks are made of so many records at least: an edit has one made again, which takes more than it saves among fewer.
const MANY: usize = 250_000;

/// Makes blocks of records in a row of which all readings are held, as many as there is memory for: of those at the places that were
/// put in, or whose blocks were dropped, since it was done last. Nothing that can be told of the records changes.
pub fn gather(records: &mut Records, alloc: Global, program: &Checked)
    requires monoids { All IsMonoid program.now.kinds }
    requires values { HaveValues program.now.kinds records.old }
    ensures same { records.new ≡ records.old }
{
    let are_all = records.are_all_due();
    let listed = records.take_due(alloc);
    let _ = gather_due(records, alloc, are_all, &listed, program);
}

// Makes such blocks of all records, or of those at these places.
fn gather_due(
    records: &mut Records,
    alloc: Global,
    are_all: bool,
    places: &[u32],
    program: &Checked,
) -> Result<(), AllocError>
    requires monoids { All IsMonoid program.now.kinds }
    requires values { HaveValues program.now.kinds records.old }
    ensures same { records.new ≡ records.old }
{
    if !are_all && places.is_empty() {
        return Ok(());
    }
    // What records have read is kept by layers of memo instances alone that have others inside.
    let keeps = may_nest(program.codes());
    if are_all {
        gather_all(records, alloc, keeps, program)
    } else {
        gather_these(records, alloc, keeps, places, program)
    }
}

// Makes the blocks of all records. Wider ones are looked for at the fine ones that were made.
fn gather_all(
    records: &mut Records,
    alloc: Global,
    keeps: bool,
    program: &Checked,
) -> Result<(), AllocError>
    requires monoids { All IsMonoid program.now.kinds }
    requires values { HaveValues program.now.kinds records.old }
    ensures same { records.new ≡ records.old }
{
    let all = places_to(alloc, records.len())?;
    let mut stretches = Stretches::new(alloc);
    let mut made = Vec::new(alloc);
    make_fine(
        records,
        alloc,
        keeps,
        &all,
        &mut stretches,
        &mut made,
        program,
    )?;
    make_all_wider(records, alloc, keeps, &made, &mut stretches, program)
}

// Gathers the records at these places: first into fine blocks, then these into wider ones.
fn gather_these(
    records: &mut Records,
    alloc: Global,
    keeps: bool,
    places: &[u32],
    program: &Checked,
) -> Result<(), AllocError>
    requires monoids { All IsMonoid program.now.kinds }
    requires values { HaveValues program.now.kinds records.old }
    ensures same { records.new ≡ records.old }
{
    let mut stretches = Stretches::new(alloc);
    let mut made = Vec::new(alloc);
    make_fine(
        records,
        alloc,
        keeps,
        places,
        &mut stretches,
        &mut made,
        program,
    )?;
    make_all_wider(records, alloc, keeps, places, &mut stretches, program)
}

// Makes blocks of all widths but the finest that have the records at these places as part.
fn make_all_wider(
    records: &mut Records,
    alloc: Global,
    keeps: bool,
    places: &[u32],
    stretches: &mut Stretches,
    program: &Checked,
) -> Result<(), AllocError>
    requires monoids { All IsMonoid program.now.kinds }
    ensures same { records.new ≡ records.old }
{
    make_wider(
        records,
        alloc,
        keeps,
        Width::Middle,
        places,
        stretches,
        program,
    )?;
    make_wider(
        records,
        alloc,
        keeps,
        Width::Wide,
        places,
        stretches,
        program,
    )?;
    if records.len() < MANY {
        return Ok(());
    }
    make_wider(
        records,
        alloc,
        keeps,
        Width::Vast,
        places,
        stretches,
        program,
    )
}

// Makes fine blocks that have the records at these places as part, and notes the first place of each.
fn make_fine(
    records: &mut Records,
    alloc: Global,
    keeps: bool,
    places: &[u32],
    stretches: &mut Stretches,
    made: &mut Vec<u32>,
    program: &Checked,
) -> Result<(), AllocError>
    requires monoids { All IsMonoid program.now.kinds }
    requires values { HaveValues program.now.kinds records.old }
    ensures same { records.new ≡ records.old }
{
    let mut tried = Tried::new(alloc, records.len(), places.len(), keeps)?;
    for place in places {
        gather_at(
            records,
            alloc,
            *place as usize,
            &mut tried,
            stretches,
            made,
            program,
        );
    }
    Ok(())
}

// Makes blocks of that width that have the records at these places as part.
fn make_wider(
    records: &mut Records,
    alloc: Global,
    keeps: bool,
    width: Width,
    places: &[u32],
    stretches: &mut Stretches,
    program: &Checked,
) -> Result<(), AllocError>
    requires monoids { All IsMonoid program.now.kinds }
    ensures same { records.new ≡ records.old }
{
    let mut tried = Tried::new(alloc, records.len(), places.len(), keeps)?;
    for place in places {
        widen_at(
            records,
            alloc,
            width,
            *place as usize,
            &mut tried,
            stretches,
            program,
        );
    }
    Ok(())
}

// Makes a fine block that has the record at that place as part, where there is none and that wasn't tried.
fn gather_at(
    records: &mut Records,
    alloc: Global,
    place: usize,
    tried: &mut Tried,
    stretches: &mut Stretches,
    made: &mut Vec<u32>,
    program: &Checked,
)
    requires monoids { All IsMonoid program.now.kinds }
    requires values { HaveValues program.now.kinds records.old }
    ensures same { records.new ≡ records.old }
{
    if tried.has(place) || has_block(records, Width::Fine, place, program.kinds()) {
        return;
    }
    tried.put(place);
    match row_at(records, alloc, place) {
        Ok(Some(mut row)) => gather_on(records, alloc, &mut row, tried, stretches, made, program),
        _ => {}
    }
}

// Makes fine blocks of the records in a row from where it is on, as far as they have none and one is made.
fn gather_on(
    records: &mut Records,
    alloc: Global,
    row: &mut Row,
    tried: &mut Tried,
    stretches: &mut Stretches,
    made: &mut Vec<u32>,
    program: &Checked,
)
    requires monoids { All IsMonoid program.now.kinds }
    requires values { HaveValues program.now.kinds records.old }
    ensures same { records.new ≡ records.old }
{
    for _ in 0..PARTS {
        let bounds = bounds_at(
            records,
            alloc,
            Width::Fine,
            row,
            stretches,
            tried.are_many(),
            program.kinds(),
        );
        if gather_row(records, alloc, row, bounds, tried, made, program).is_err() {
            return;
        }
        if part_above(records, Width::Fine, row, bounds.last, program.kinds()).is_none() {
            return;
        }
    }
}

// Makes a fine block of the records in that row between these numbers.
fn gather_row(
    records: &mut Records,
    alloc: Global,
    row: &mut Row,
    bounds: Bounds,
    tried: &mut Tried,
    made: &mut Vec<u32>,
    program: &Checked,
) -> Result<(), AllocError>
    requires monoids { All IsMonoid program.now.kinds }
    requires values { HaveValues program.now.kinds records.old }
    ensures same { records.new ≡ records.old }
{
    let first = lowest(records, row, bounds);
    let places = fresh_in_row(records, alloc, row, first, bounds)?;
    tried.put_all(&places);
    if places.len() < 2 {
        return Ok(());
    }
    made.push(places[0])?;
    let keeps = tried.keeps_reads();
    let sum = sum_at(alloc, program.kinds(), keeps, records.as_slice(), &places)?;
    let block = Block::new(places, row.counted(), keeps, sum);
    records.add_block(alloc, Width::Fine, program.kinds(), block)
}

// The least of these numbers from which on there are records in the row up to where it is.
fn lowest(records: &Records, row: &mut Row, bounds: Bounds) -> i64 {
    let mut first = row.number();
    for _ in 0..PARTS {
        if first <= bounds.first {
            return first;
        }
        let lower = first.wrapping_sub(1);
        row.go_to(lower);
        if find_row(records, row).is_none() {
            return first;
        }
        first = lower;
    }
    first
}

// The places of the records in a row from that number on of which all readings are held, as far as to the last of these numbers.
#[inline(never)]
fn fresh_in_row(
    records: &Records,
    alloc: Global,
    row: &mut Row,
    first: i64,
    bounds: Bounds,
) -> Result<Vec<u32>, AllocError>
    ensures row { IfOk result (λ places. AreInRow records.now row.new first places.items) }
{
    let most = bounds.count_from(first);
    let mut places = Vec::with_capacity(alloc, most.min(ROOM))?;
    put_alone(records, row, first, most, &mut places)?;
    for _ in places.len()..most {
        match next_fresh(records, row, first, places.len()) {
            Some(place) => places.push(place)?,
            None => return Ok(places),
        }
    }
    Ok(places)
}

// The place of the record so many further in the row, where there is one and all that it has read is held.
fn next_fresh(records: &Records, row: &mut Row, first: i64, step: usize) -> Option<u32>
    ensures row { (z : ℤ) → moved_to row.new z ≡ moved_to row.old z }
    ensures there { IfSome result (λ place. IsThere records.now row.new place) }
    ensures moved { OnSome result (row.new ≡ moved_to row.old (first +ℤ pos step)) }
    ensures fresh { IfSome result (λ place. is_fresh_at records.now place ≡ true) }
{
    if !go_on(row, first, step) {
        return None;
    }
    let place = find_near(records, row)?;
    if records.is_fresh(place as usize) {
        Some(place)
    } else {
        None
    }
}

/// The place of the record of the row's instance. It is looked for at the near place first.
pub(crate) fn find_row(records: &Records, row: &Row) -> Option<u32>
    ensures there { IfSome result (λ place. IsThere records.now row.now place) }
{
    find_near(records, row)
}

// The same, where many are looked for.
#[inline(always)]
fn find_near(records: &Records, row: &Row) -> Option<u32>
    ensures there { IfSome result (λ place. IsThere records.now row.now place) }
{
    match find_alone(records, row) {
        Some(place) => Some(place),
        None => find_any(records, row),
    }
}

// The near place, where the record of the row's instance lies there and has one argument, as most have.
#[inline(always)]
fn find_alone(records: &Records, row: &Row) -> Option<u32>
    ensures there { IfSome result (λ place. IsThere records.now row.now place) }
{
    match u32::try_from(row.near()) {
        Ok(place) => match record_at(records.as_slice(), place as usize) {
            Some(record) => {
                if !is_of_row(record, row) {
                    return None;
                }
                Some(place)
            }
            None => None,
        },
        Err(_) => None,
    }
}

// Whether a record is that of the row's instance, and has one argument.
#[inline(always)]
fn is_of_row(record: &Record, row: &Row) -> bool
    ensures procedure { result ≡ true → record.now.procedure ≡ row.now.procedure }
    ensures arguments { result ≡ true → record.now.arguments ≡ row.now.arguments }
{
    record.procedure() == row.procedure() && are_one(record.arguments(), row.arguments())
}

// Whether both are one number, and that is the same.
#[inline(always)]
fn are_one(left: &[i64], right: &[i64]) -> bool
    ensures same { result ≡ true → left.now ≡ right.now }
{
    left.len() == 1 && right.len() == 1 && left[0] == right[0]
}

// The place of the record of the row's instance, whatever arguments it has.
#[inline(never)]
fn find_any(records: &Records, row: &Row) -> Option<u32>
    ensures there { IfSome result (λ place. IsThere records.now row.now place) }
{
    match records.place_near(row.near(), row.procedure(), row.arguments()) {
        Some((place, _)) => match u32::try_from(place) {
            Ok(place) => Some(place),
            Err(_) => None,
        },
        None => None,
    }
}

// The row of the record at that place, where it may have one.
fn row_at(records: &Records, alloc: Global, place: usize) -> Result<Option<Row>, AllocError> {
    let all = records.as_slice();
    match all.get(place) {
        Some(record) => match counted_at(record, all, place) {
            Some(counted) => row_of(alloc, record, counted, place),
            None => Ok(None),
        },
        None => Ok(None),
    }
}

/// Whether a block of that width has the record at that place as part.
pub(crate) fn has_block(records: &Records, width: Width, place: usize, kinds: &[Kind]) -> bool {
    match records.block_at(width, place, kinds) {
        Some(block) => is_part(block, place),
        None => false,
    }
}

/// The row of the record at that place, of which that argument is counted, where there is one.
pub(crate) fn row_of(
    alloc: Global,
    record: &Record,
    counted: usize,
    place: usize,
) -> Result<Option<Row>, AllocError> {
    if counted >= record.arguments().len() {
        return Ok(None);
    }
    let row = Row::new(
        alloc,
        record.procedure(),
        record.arguments(),
        counted,
        place,
    )?;
    Ok(Some(row))
}

/// Goes so many instances on from that number, where there are so many.
pub(crate) fn go_on(row: &mut Row, first: i64, step: usize) -> bool
    ensures row { (z : ℤ) → moved_to row.new z ≡ moved_to row.old z }
    ensures there { result ≡ true → row.new ≡ moved_to row.old (first +ℤ pos step) }
{
    match i64::try_from(step) {
        Ok(step) => match first.checked_add(step) {
            Some(number) => {
                row.go_to(number);
                true
            }
            None => false,
        },
        Err(_) => false,
    }
}

/// Whether the record at that place is part of a block.
pub(crate) fn is_part(block: &Block, place: usize) -> bool {
    index_in(block, place).is_some()
}

/// Where that place stands among a block's, counted from 0. Records in a row mostly have places in a row: there it is looked for
/// first.
pub(crate) fn index_in(block: &Block, place: usize) -> Option<usize> {
    let places = block.places();
    match index_in_row(places, place) {
        Some(index) => Some(index),
        None => index_among(places, place),
    }
}

// Where that place stands, if it stands where it would if these went up by one.
fn index_in_row(places: &[u32], place: usize) -> Option<usize> {
    let first = places.first()?;
    let index = place.wrapping_sub(*first as usize);
    let other = places.get(index)?;
    if *other as usize == place {
        Some(index)
    } else {
        None
    }
}

// Where that place stands.
fn index_among(places: &[u32], place: usize) -> Option<usize> {
    for index in 0..places.len() {
        if places[index] as usize == place {
            return Some(index);
        }
    }
    None
}

/// Whether a block's first record has that place.
pub(crate) fn begins_at(block: &Block, place: u32) -> bool
    ensures begins { result ≡ true → slice_get block.now.places 0 ≡ Some place }
{
    match block.places().first() {
        Some(first) => *first == place,
        None => false,
    }
}

// Which argument of the record at that place is counted: the one in which the next record or the one before it differs from it by
// one, else the only one. Records of ranges have none, so no row is looked for.
fn counted_at(record: &Record, records: &[Record], place: usize) -> Option<usize> {
    match step_to(record, records.get(place.wrapping_add(1))) {
        Some(counted) => Some(counted),
        None => match step_to(record, records.get(place.wrapping_sub(1))) {
            Some(counted) => Some(counted),
            None => only_one(record),
        },
    }
}

// The only argument of a record.
fn only_one(record: &Record) -> Option<usize> {
    if record.arguments().len() == 1 {
        Some(0)
    } else {
        None
    }
}

// The one argument in which the other record of the same procedure differs, where it does by one.
fn step_to(record: &Record, other: Option<&Record>) -> Option<usize> {
    match other {
        Some(other) if other.procedure() == record.procedure() => {
            one_step(record.arguments(), other.arguments())
        }
        _ => None,
    }
}

// The one place in which these differ, where they do by one.
fn one_step(left: &[i64], right: &[i64]) -> Option<usize> {
    let mut found = None;
    for place in 0..left.len().min(right.len()) {
        if left[place] != right[place] {
            if found.is_some() || !is_next(left[place], right[place]) {
                return None;
            }
            found = Some(place);
        }
    }
    found
}

// Whether the numbers differ by one.
fn is_next(left: i64, right: i64) -> bool {
    left.wrapping_add(1) == right || right.wrapping_add(1) == left
}

// The first so many places.
fn places_to(alloc: Global, count: usize) -> Result<Vec<u32>, AllocError> {
    let mut places = Vec::new(alloc);
    for place in 0..count {
        match u32::try_from(place) {
            Ok(place) => places.push(place)?,
            Err(_) => return Ok(places),
        }
    }
    Ok(places)
}
