// Blocks of one width, and which block each record is part of.
ghost use Rattle.std.specs.Prelude.{◌≡◌, ◌⊎◌, ℕ, [], Some, None, IfSome, IfOk, OnOk, option_copied, true};
ghost use Rattle.std.specs.Prelude.{length, slice_set, ◌<◌, ◌≤◌};
ghost use Rattle.meaning.specs.Every.{every};
ghost use Rattle.rerun_records.specs.Blocks.{PlainBlock, live_at, IsLive, Remain, IsFree, AreHoused, is_home};

use crate::block::Block;
use crate::due::Due;
use crate::slot::Slot;
use std::alloc::{AllocError, Global};
use std::marker::Model;

/// No block's number.
const NOWHERE: u32 = u32::MAX;

/// Blocks by numbers, of which some were dropped. No record is part of two.
#[derive(Drop)]
pub(crate) struct Level {
    blocks: Vec<Slot>,
    // By places, the number of a block: that of the block that the record is part of, if it is part of any.
    homes: Vec<u32>,
}

impl Model for Level {
    ghost use Rattle.std.specs.Prelude.{List, Option};
    ghost use Rattle.rerun_records.specs.Blocks.{PlainBlock, AreHoused};

    ghost Value = { List (Option PlainBlock) };

    ghost view = { λ l. l.blocks.items };

    ghost invariant = { λ l. AreHoused l.homes.items l.blocks.items };
}

impl Level {
    /// No blocks; it takes no memory.
    pub(crate) fn new(alloc: Global) -> Level
        ensures none { result ≡ [] }
    {
        Level {
            blocks: Vec::new(alloc),
            homes: Vec::new(alloc),
        }
    }

    /// How many numbers blocks have, those of dropped ones counted.
    pub(crate) fn len(&self) -> usize
        ensures count { result ≡ length self.now }
    {
        self.blocks.len()
    }

    /// The block that may have the record at that place as part, where one has.
    pub(crate) fn at(&self, place: usize) -> Option<&Block>
        ensures live { IfSome result (λ b. IsLive self.now b.now) }
    {
        match self.homes.get(place) {
            Some(home) => numbered(&self.blocks, *home as usize),
            None => None,
        }
    }

    /// Drops the block that has the record at that place as part, if there is one.
    #[inline(always)]
    pub(crate) fn drop_at(&mut self, place: usize, due: &mut Due)
        ensures remain { Remain self.new self.old }
        ensures free { IsFree place self.new }
    {
        drop_home(&mut self.blocks, &self.homes, place, due);
    }

    /// Drops all blocks.
    pub(crate) fn clear(&mut self)
        ensures none { self.new ≡ [] }
    {
        self.blocks.clear();
        self.homes.clear();
    }

    /// Adds a block, in the place of those that have one of its records as part. Where memory is refused it isn't added.
    pub(crate) fn add(&mut self, block: Block, due: &mut Due) -> Result<(), AllocError>
        ensures added { (n : ℕ) (b : PlainBlock) → live_at self.new n ≡ Some b
            → (b ≡ block) ⊎ (live_at self.old n ≡ Some b) }
    {
        // An edit that drops blocks notes a place for each: room for those of the other widths too, which are fewer than the fine ones.
        due.make_room(self.blocks.len().saturating_add(1).saturating_mul(2));
        put_block(&mut self.blocks, &mut self.homes, block, due)
    }
}

// The block of that number, if it wasn't dropped.
fn numbered(blocks: &[Slot], number: usize) -> Option<&Block>
    ensures numbered { option_copied result ≡ live_at blocks.now number }
{
    match blocks.get(number) {
        Some(slot) => slot.block(),
        None => None,
    }
}

// Drops the block that has the record at that place as part, if there is one.
#[inline(always)]
fn drop_home(blocks: &mut Vec<Slot>, homes: &[u32], place: usize, due: &mut Due)
    requires housed { AreHoused homes.now blocks.old.items }
    ensures remain { Remain blocks.new.items blocks.old.items }
    ensures free { IsFree place blocks.new.items }
    ensures count { length blocks.new.items ≡ length blocks.old.items }
{
    match homes.get(place) {
        Some(home) => drop_numbered(blocks, *home as usize, due),
        None => {}
    }
}

// Drops the block of that number, and notes that one of its records is due.
#[inline(never)]
fn drop_numbered(blocks: &mut Vec<Slot>, number: usize, due: &mut Due)
    ensures dropped { blocks.new.items ≡ slice_set blocks.old.items number None }
    ensures count { length blocks.new.items ≡ length blocks.old.items }
{
    if number < blocks.len() {
        blocks[number].drop_block(due);
    }
}

// Adds a block, in the place of those that have one of its records as part.
fn put_block(
    blocks: &mut Vec<Slot>,
    homes: &mut Vec<u32>,
    block: Block,
    due: &mut Due,
) -> Result<(), AllocError>
    requires housed { AreHoused homes.old.items blocks.old.items }
    ensures housed { AreHoused homes.new.items blocks.new.items }
    ensures added { (n : ℕ) (b : PlainBlock) → live_at blocks.new.items n ≡ Some b
        → (b ≡ block) ⊎ (live_at blocks.old.items n ≡ Some b) }
{
    let number = number_for(blocks, homes, block.places())?;
    drop_numbered(blocks, number as usize, due);
    move_all(blocks, homes, block.places(), number, due)?;
    blocks[number as usize].fill(block);
    Ok(())
}

// A number for a block with these places: that of the one which has the first record as part, or one more.
fn number_for(blocks: &mut Vec<Slot>, homes: &[u32], places: &[u32]) -> Result<u32, AllocError>
    ensures remain { Remain blocks.new.items blocks.old.items }
    ensures within { IfOk result (λ number. number < length blocks.new.items) }
{
    match first_home(homes, places) {
        Some(home) if (home as usize) < blocks.len() => Ok(home),
        _ => one_more(blocks),
    }
}

// The home of the first of these places.
fn first_home(homes: &[u32], places: &[u32]) -> Option<u32> {
    let first = places.first()?;
    homes.get(*first as usize).copied()
}

// The next number, at which no block is yet.
fn one_more(blocks: &mut Vec<Slot>) -> Result<u32, AllocError>
    ensures remain { Remain blocks.new.items blocks.old.items }
    ensures within { IfOk result (λ number. number < length blocks.new.items) }
{
    let number = blocks.len();
    if number >= NOWHERE as usize {
        return Err(AllocError);
    }
    blocks.push(Slot::new())?;
    Ok(number as u32)
}

// Has the records at these places be at home at that number, and drops the blocks that they were part of.
fn move_all(
    blocks: &mut Vec<Slot>,
    homes: &mut Vec<u32>,
    places: &[u32],
    number: u32,
    due: &mut Due,
) -> Result<(), AllocError>
    requires housed { AreHoused homes.old.items blocks.old.items }
    ensures housed { AreHoused homes.new.items blocks.new.items }
    ensures remain { Remain blocks.new.items blocks.old.items }
    ensures count { length blocks.new.items ≡ length blocks.old.items }
    ensures there { OnOk result (every (is_home homes.new.items number) places.now ≡ true) }
{
    if are_home(homes, places, number) {
        return Ok(());
    }
    for place in places {
        move_in(blocks, homes, *place, number, due)?;
    }
    Ok(())
}

// Whether the records at these places are all at home at that number, as they mostly are where a block is made anew.
fn are_home(homes: &[u32], places: &[u32], number: u32) -> bool
    ensures home { result ≡ every (is_home homes.now number) places.now }
{
    for place in places {
        if !is_home(homes, number, *place as usize) {
            return false;
        }
    }
    true
}

// Has the record at that place be at home at that number, and drops the block that it was part of. In a first run it lies behind all that
// have a home.
#[inline(always)]
fn move_in(
    blocks: &mut Vec<Slot>,
    homes: &mut Vec<u32>,
    place: u32,
    number: u32,
    due: &mut Due,
) -> Result<(), AllocError>
    requires housed { AreHoused homes.old.items blocks.old.items }
    ensures housed { AreHoused homes.new.items blocks.new.items }
    ensures remain { Remain blocks.new.items blocks.old.items }
    ensures count { length blocks.new.items ≡ length blocks.old.items }
    ensures kept { (p : ℕ) → is_home homes.old.items number p ≡ true
        → is_home homes.new.items number p ≡ true }
    ensures there { OnOk result (is_home homes.new.items number place ≡ true) }
{
    if place as usize == homes.len() {
        return add_behind(homes, number);
    }
    move_home(blocks, homes, place, number, due)
}

// Makes the homes longer by that number.
#[inline(always)]
fn add_behind(homes: &mut Vec<u32>, number: u32) -> Result<(), AllocError>
    ensures kept { (n p : ℕ) → is_home homes.old.items n p ≡ true
        → is_home homes.new.items n p ≡ true }
    ensures there { OnOk result (is_home homes.new.items number (length homes.old.items) ≡ true) }
{
    homes.push(number)?;
    Ok(())
}

// The same, wherever it lies.
fn move_home(
    blocks: &mut Vec<Slot>,
    homes: &mut Vec<u32>,
    place: u32,
    number: u32,
    due: &mut Due,
) -> Result<(), AllocError>
    requires housed { AreHoused homes.old.items blocks.old.items }
    ensures housed { AreHoused homes.new.items blocks.new.items }
    ensures remain { Remain blocks.new.items blocks.old.items }
    ensures count { length blocks.new.items ≡ length blocks.old.items }
    ensures kept { (p : ℕ) → is_home homes.old.items number p ≡ true
        → is_home homes.new.items number p ≡ true }
    ensures there { OnOk result (is_home homes.new.items number place ≡ true) }
{
    let place = place as usize;
    if is_home(homes, number, place) {
        return Ok(());
    }
    drop_home(blocks, homes, place, due);
    if place < homes.len() {
        homes[place] = number;
        Ok(())
    } else {
        add_home(homes, place, number)
    }
}

// Whether the record at that place is at home at that number.
fn is_home(homes: &[u32], number: u32, place: usize) -> bool
    ensures home { result ≡ is_home homes.now number place }
{
    match homes.get(place) {
        Some(home) => *home == number,
        None => false,
    }
}

// Makes the homes longer, so that the one at that place is that number.
fn add_home(homes: &mut Vec<u32>, place: usize, number: u32) -> Result<(), AllocError>
    requires behind { length homes.old.items ≤ place }
    ensures kept { (n p : ℕ) → is_home homes.old.items n p ≡ true
        → is_home homes.new.items n p ≡ true }
    ensures there { OnOk result (is_home homes.new.items number place ≡ true) }
{
    homes.resize(place, NOWHERE)?;
    homes.push(number)?;
    Ok(())
}
