//! Instances with consecutive numbers in one argument that records answer together.
ghost use Rattle.std.specs.Prelude.{◌≡◌, ◌≤◌, length};

use crate::block::Block;
use instance_records::record::Record;

/// So many instances, and one record that has what theirs have together; the record of the next instance may lie at that place.
#[derive(Clone, Copy)]
pub struct Batch<'a> {
    pub sum: &'a Record,
    pub count: u32,
    pub next: usize,
}

impl<'a> Batch<'a> {
    /// One instance, by its own record, which lies at that place.
    pub(crate) fn one(sum: &'a Record, place: usize) -> Batch<'a>
        ensures one { result.sum.now ≡ sum.now }
        ensures count { result.count ≡ 1 }
    {
        Batch {
            sum,
            count: 1,
            next: place.wrapping_add(1),
        }
    }

    /// The instances of a block, of which the first has its record at that place.
    pub(crate) fn whole(block: &'a Block, place: usize) -> Batch<'a>
        requires few { length block.now.places ≤ 4294967295 }
        ensures whole { result.sum.now ≡ block.now.sum }
        ensures count { result.count ≡ length block.now.places }
    {
        let count = block.count();
        Batch {
            sum: block.sum(),
            count: count as u32,
            next: place.wrapping_add(count),
        }
    }
}
