// A block's number, and what lies under it.
ghost use Rattle.std.specs.Prelude.{◌≡◌, Some, None, true, option_copied};

use crate::block::Block;
use crate::due::Due;
use std::marker::Model;

/// A block, or none, as one that was dropped. What that one takes of memory is given back where another is put in its place: an edit that
/// drops many gives the allocator nothing to put together, which the next run would wait for.
#[derive(Drop)]
pub(crate) struct Slot {
    // In front, where it lies in memory beside what a look-up asks of the block.
    is_live: bool,
    block: Option<Block>,
}

impl Model for Slot {
    ghost use Rattle.std.specs.Prelude.{Option, None, cond};
    ghost use Rattle.rerun_records.specs.Blocks.{PlainBlock};

    ghost Value = { Option PlainBlock };

    ghost view = { λ s. cond s.is_live s.block None };
}

impl Slot {
    /// No block; it takes no memory.
    pub(crate) fn new() -> Slot
        ensures none { result ≡ None }
    {
        Slot {
            block: None,
            is_live: false,
        }
    }

    /// Lends the block, if it wasn't dropped.
    #[inline(always)]
    pub(crate) fn block(&self) -> Option<&Block>
        ensures block { option_copied result ≡ self.now }
    {
        if self.is_live {
            self.block.as_ref()
        } else {
            None
        }
    }

    /// Drops the block, and notes that one of its records is due. It gives no memory back.
    pub(crate) fn drop_block(&mut self, due: &mut Due)
        ensures none { self.new ≡ None }
    {
        // Most were dropped before.
        if self.is_live {
            note_first(&self.block, due);
            self.is_live = false;
        }
    }

    /// Puts a block in.
    pub(crate) fn fill(&mut self, block: Block)
        ensures block { self.new ≡ Some block }
    {
        self.block = Some(block);
        self.is_live = true;
    }
}

// Notes that the first record of a block is due.
fn note_first(block: &Option<Block>, due: &mut Due) {
    match block {
        Some(block) => match block.first() {
            Some(first) => due.note(first),
            None => {}
        },
        None => {}
    }
}
