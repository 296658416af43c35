//! What a search for batches that answer a loop's iterations has found.
ghost use Rattle.std.specs.Prelude.{◌≡◌};

use rerun_records::batch::Batch;

/// Where a search ended: behind all iterations that were asked for, at one that isn't answered, or where it was of no use to go on.
#[derive(Clone, Copy)]
pub(crate) enum End {
    Through,
    Stale,
    Elsewhere,
}

/// Batches that answer a loop's iterations one after another, how many iterations those are, where the search ended, and near which
/// place the record of the next iteration may lie.
#[derive(Drop)]
pub(crate) struct Found<'a> {
    pub(crate) batches: Vec<Batch<'a>>,
    pub(crate) count: u32,
    pub(crate) end: End,
    pub(crate) near: usize,
}

impl<'a> Found<'a> {
    /// Whether the iteration behind these isn't answered.
    pub(crate) fn ends_at_stale(&self) -> bool {
        match self.end {
            End::Stale => true,
            _ => false,
        }
    }
}

/// These batches, where the search for them ended, and near which place the next record may lie.
pub(crate) fn found_so_far(batches: Vec<Batch<'_>>, count: u32, end: End, near: usize) -> Found<'_>
    ensures batches { result.batches ≡ batches.entry }
    ensures count { result.count ≡ count }
{
    Found {
        batches,
        count,
        end,
        near,
    }
}
