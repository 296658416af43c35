//! Records in a row that one record stands for.
ghost use Rattle.std.specs.Prelude.{◌≡◌, Some, true, length, slice_get};
ghost use Rattle.rerun_records.specs.Blocks.{Answers};

use crate::series::Series;
use instance_records::record::Record;
use linked_program::checked::Checked;
use std::marker::Model;

/// The places of records of one procedure, whose arguments go up by one in the counted one, and a record that has what theirs
/// have together: what they have read only where that is kept. What each look-up asks for stands together in front, since it lies in memory so:
/// the first place and how many there are beside their list.
#[derive(Drop)]
pub struct Block {
    first: Option<u32>,
    count: usize,
    counted: usize,
    keeps: bool,
    sum: Record,
    places: Vec<u32>,
}

impl Model for Block {
    ghost use Rattle.std.specs.Prelude.{◌≡◌, length, slice_get};
    ghost use Rattle.rerun_records.specs.Blocks.{PlainBlock};

    ghost Value = { PlainBlock };

    ghost view = { λ b. record { places = b.places.items; counted = b.counted; keeps = b.keeps; sum = b.sum } };

    ghost invariant = { λ b. (b.first ≡ slice_get b.places.items 0) × (b.count ≡ length b.places.items) };
}

impl Block {
    /// A block of these places, whose record has what theirs have read or not.
    pub fn new(places: Vec<u32>, counted: usize, keeps: bool, sum: Record) -> Block
        ensures block { result
            ≡ record { places = places.items; counted = counted; keeps = keeps; sum = sum } }
    {
        let first = places.first().copied();
        let count = places.len();
        Block {
            first,
            count,
            counted,
            keeps,
            sum,
            places,
        }
    }

    /// The first of the places.
    #[inline(always)]
    pub(crate) fn first(&self) -> Option<u32>
        ensures first { result ≡ slice_get self.now.places 0 }
    {
        self.first
    }

    /// How many places there are.
    #[inline(always)]
    pub(crate) fn count(&self) -> usize
        ensures count { result ≡ length self.now.places }
    {
        self.count
    }

    /// Lends the places.
    pub fn places(&self) -> &[u32]
        ensures places { result.now ≡ self.now.places }
    {
        &self.places
    }

    /// Which argument goes up.
    pub fn counted(&self) -> usize
        ensures counted { result ≡ self.now.counted }
    {
        self.counted
    }

    /// Whether its record has what theirs have read.
    pub fn keeps(&self) -> bool
        ensures keeps { result ≡ self.now.keeps }
    {
        self.keeps
    }

    /// Lends the record that has what they have together.
    pub fn sum(&self) -> &Record
        ensures sum { result.now ≡ self.now.sum }
    {
        &self.sum
    }

    /// Whether it begins at that place, counts that series' argument, has no more records than that, and what they have read where that
    /// is kept, and its procedures and depth allow it to answer.
    pub(crate) fn answers(&self, place: usize, series: Series, program: &Checked) -> bool
        ensures answers { result ≡ true
            → Answers program.now series.depth place series.counted series.most series.keeps self.now }
    {
        self.begins_at(place)
            && self.counted == series.counted
            && self.count <= series.most as usize
            && self.has_reads_for(series.keeps)
            && self.sum.is_allowed(series.depth, program)
    }

    // Whether it has what its records have read, where that is kept.
    #[inline(always)]
    fn has_reads_for(&self, keeps: bool) -> bool
        ensures read { result ≡ true → keeps ≡ true → self.now.keeps ≡ true }
    {
        self.keeps || !keeps
    }

    /// Whether the first of its records has that place.
    pub(crate) fn begins_at(&self, place: usize) -> bool
        ensures begins { result ≡ true → slice_get self.now.places 0 ≡ Some place }
    {
        match self.first {
            Some(first) => first as usize == place,
            None => false,
        }
    }
}
