//! The blocks of a session's records.
ghost use Rattle.std.specs.Prelude.{◌≡◌, ◌⊎◌, ℕ, Some, [], IfSome, OnOk, true};
ghost use Rattle.rerun_records.specs.Blocks.{PlainBlock, PlainBlocks, BlocksRemain, IsFree, IsBlock, IsLive, live_at, Answers};

use crate::block::Block;
use crate::due::Due;
use crate::level::Level;
use crate::series::Series;
use linked_program::checked::Checked;
use monoid_laws::Kind;
use std::alloc::{AllocError, Global};
use std::marker::Model;

/// The width of a block.
#[derive(Clone, Copy)]
pub enum Width {
    Fine,
    Middle,
    Wide,
    Vast,
}

/// Blocks of four widths, all for reducers of these kinds.
#[derive(Drop)]
pub(crate) struct Blocks {
    kinds: Vec<Kind>,
    fine: Level,
    middle: Level,
    wide: Level,
    vast: Level,
    // What was put in or dropped since blocks were made.
    due: Due,
}

impl Model for Blocks {
    ghost use Rattle.rerun_records.specs.Blocks.{PlainBlocks};

    ghost Value = { PlainBlocks };

    ghost view = { λ b. record { kinds = b.kinds.items; fine = b.fine; middle = b.middle; wide = b.wide; vast = b.vast } };
}

impl Blocks {
    /// No blocks; it takes no memory.
    pub(crate) fn new(alloc: Global) -> Blocks
        ensures none { result ≡ record { kinds = []; fine = []; middle = []; wide = []; vast = [] } }
    {
        Blocks {
            kinds: Vec::new(alloc),
            fine: Level::new(alloc),
            middle: Level::new(alloc),
            wide: Level::new(alloc),
            vast: Level::new(alloc),
            due: Due::new(alloc),
        }
    }

    /// Notes that the record at that place is due. It takes no memory.
    #[inline(always)]
    pub(crate) fn note_due(&mut self, place: usize)
        ensures same { self.new ≡ self.old }
    {
        note(&mut self.due, place);
    }

    /// Drops the blocks that have the record at that place as part, of which something doesn't hold or which is replaced. It takes no memory.
    pub(crate) fn drop_at(&mut self, place: usize)
        ensures remain { BlocksRemain self.new self.old }
        ensures free { IsFree place self.new.fine × IsFree place self.new.middle × IsFree place self.new.wide
            × IsFree place self.new.vast }
    {
        self.fine.drop_at(place, &mut self.due);
        self.middle.drop_at(place, &mut self.due);
        self.wide.drop_at(place, &mut self.due);
        self.vast.drop_at(place, &mut self.due);
        self.due.note_stale();
    }

    /// Drops all blocks.
    pub(crate) fn clear(&mut self)
        ensures kinds { self.new.kinds ≡ self.old.kinds }
        ensures none { (self.new.fine ≡ []) × (self.new.middle ≡ []) × (self.new.wide ≡ []) × (self.new.vast ≡ []) }
    {
        if self.fine.len() > 0 {
            self.due.note_all();
        }
        self.fine.clear();
        self.middle.clear();
        self.wide.clear();
        self.vast.clear();
    }

    /// Drops all blocks, and has all records be due.
    pub(crate) fn begin_anew(&mut self)
        ensures none { (self.new.fine ≡ []) × (self.new.middle ≡ []) × (self.new.wide ≡ []) × (self.new.vast ≡ []) }
    {
        self.clear();
        self.due.note_all();
    }

    /// The widest block that begins at that place and answers instances of that series, no more than those. Where none begins, as behind
    /// edits, nothing is called.
    #[inline(always)]
    pub(crate) fn widest(&self, place: usize, series: Series, program: &Checked) -> Option<&Block>
        ensures block { IfSome result (λ b. IsBlock program.now.kinds self.now b.now) }
        ensures answers { IfSome result (λ b.
            Answers program.now series.depth place series.counted series.most series.keeps b.now) }
    {
        // A wider one begins where a fine one does.
        let fine = self.fine.at(place)?;
        if !fine.begins_at(place) {
            return None;
        }
        self.widest_with(fine, place, series, program)
    }

    // The same, where that fine block begins there.
    #[inline(never)]
    fn widest_with<'a>(
        &'a self,
        fine: &'a Block,
        place: usize,
        series: Series,
        program: &Checked,
    ) -> Option<&'a Block>
        requires live { IsLive self.now.fine fine.now }
        ensures block { IfSome result (λ b. IsBlock program.now.kinds self.now b.now) }
        ensures answers { IfSome result (λ b.
            Answers program.now series.depth place series.counted series.most series.keeps b.now) }
    {
        if !self.are_for(program.kinds()) || !fine.answers(place, series, program) {
            return None;
        }
        match self.middle.at(place) {
            Some(middle) => {
                if middle.answers(place, series, program) {
                    return Some(self.broadest(middle, place, series, program));
                }
                Some(fine)
            }
            None => Some(fine),
        }
    }

    // The same, where that middle block answers: a wider one does only where a narrower one does, so most aren't looked at behind edits.
    #[inline(always)]
    fn broadest<'a>(
        &'a self,
        middle: &'a Block,
        place: usize,
        series: Series,
        program: &Checked,
    ) -> &'a Block
        requires block { IsBlock program.now.kinds self.now middle.now }
        requires answers { Answers program.now series.depth place series.counted series.most series.keeps middle.now }
        ensures block { IsBlock program.now.kinds self.now result.now }
        ensures answers { Answers program.now series.depth place series.counted series.most series.keeps result.now }
    {
        match self.wide.at(place) {
            Some(wide) => {
                if !wide.answers(place, series, program) {
                    return middle;
                }
                match self.vast.at(place) {
                    Some(vast) => {
                        if vast.answers(place, series, program) {
                            return vast;
                        }
                        wide
                    }
                    None => wide,
                }
            }
            None => middle,
        }
    }

    /// The block of that width that may have the record at that place as part, where one has, for reducers of these kinds.
    pub(crate) fn at(&self, width: Width, place: usize, kinds: &[Kind]) -> Option<&Block>
        ensures block { IfSome result (λ b. IsBlock kinds.now self.now b.now) }
    {
        let block = self.live(width, place)?;
        if self.are_for(kinds) {
            Some(block)
        } else {
            None
        }
    }

    // The same, whichever reducers it is for.
    #[inline(always)]
    fn live(&self, width: Width, place: usize) -> Option<&Block>
        ensures live { IfSome result (λ b. IsLive self.now.fine b.now ⊎ (IsLive self.now.middle b.now
            ⊎ (IsLive self.now.wide b.now ⊎ IsLive self.now.vast b.now))) }
    {
        match width {
            Width::Fine => self.fine.at(place),
            Width::Middle => self.middle.at(place),
            Width::Wide => self.wide.at(place),
            Width::Vast => self.vast.at(place),
        }
    }

    // Whether the blocks are for reducers of these kinds.
    fn are_for(&self, kinds: &[Kind]) -> bool
        ensures kinds { result ≡ true → self.now.kinds ≡ kinds.now }
    {
        are_same(&self.kinds, kinds)
    }

    /// Has the blocks be for reducers of these kinds, for which those for others are dropped.
    pub(crate) fn have_kinds(&mut self, alloc: Global, kinds: &[Kind]) -> Result<(), AllocError>
        ensures remain { BlocksRemain self.new self.old
            ⊎ ((self.new.fine ≡ []) × (self.new.middle ≡ []) × (self.new.wide ≡ []) × (self.new.vast ≡ [])) }
        ensures kinds { OnOk result (self.new.kinds ≡ kinds.now) }
    {
        if !self.are_for(kinds) {
            self.clear();
            let mut copied = Vec::new(alloc);
            copied.extend_from_slice(kinds)?;
            self.kinds = copied;
        }
        Ok(())
    }

    /// Adds a block of that width, in the place of those that have one of its records as part. Where memory is refused it isn't
    /// added.
    pub(crate) fn add(&mut self, width: Width, block: Block) -> Result<(), AllocError>
        ensures kinds { self.new.kinds ≡ self.old.kinds }
        ensures fine { (n : ℕ) (b : PlainBlock) → live_at self.new.fine n ≡ Some b
            → (b ≡ block) ⊎ (live_at self.old.fine n ≡ Some b) }
        ensures middle { (n : ℕ) (b : PlainBlock) → live_at self.new.middle n ≡ Some b
            → (b ≡ block) ⊎ (live_at self.old.middle n ≡ Some b) }
        ensures wide { (n : ℕ) (b : PlainBlock) → live_at self.new.wide n ≡ Some b
            → (b ≡ block) ⊎ (live_at self.old.wide n ≡ Some b) }
        ensures vast { (n : ℕ) (b : PlainBlock) → live_at self.new.vast n ≡ Some b
            → (b ≡ block) ⊎ (live_at self.old.vast n ≡ Some b) }
    {
        match width {
            Width::Fine => self.fine.add(block, &mut self.due),
            Width::Middle => self.middle.add(block, &mut self.due),
            Width::Wide => self.wide.add(block, &mut self.due),
            Width::Vast => self.vast.add(block, &mut self.due),
        }
    }

    /// Whether all records may be put into blocks, in place of those at the places that are due.
    pub(crate) fn are_all_due(&self) -> bool {
        self.due.are_all()
    }

    /// Whether many places are due: edits have dropped many blocks, or many records were put in.
    pub(crate) fn are_many_due(&self) -> bool {
        self.due.has_many()
    }

    /// About how many records edits have made stale since blocks were made, where they are more than a few.
    pub(crate) fn many_stale(&self) -> Option<u32> {
        self.due.many_stale()
    }

    /// Takes out the places of records that may be put into blocks.
    pub(crate) fn take_due(&mut self, alloc: Global) -> Vec<u32>
        ensures same { self.new ≡ self.old }
    {
        let places = self.due.take(alloc);
        self.make_room(0);
        places
    }

    /// Makes room to note that so many records are due, and one of each block that there is, as far as memory isn't refused.
    pub(crate) fn make_room(&mut self, records: usize)
        ensures same { self.new ≡ self.old }
    {
        let narrow = self.fine.len().saturating_add(self.middle.len());
        let broad = self.wide.len().saturating_add(self.vast.len());
        self.due
            .make_room(records.saturating_add(narrow.saturating_add(broad)));
    }
}

// Notes that the record at that place is due.
fn note(due: &mut Due, place: usize) {
    match u32::try_from(place) {
        Ok(place) => due.note(place),
        Err(_) => {}
    }
}

// Whether these kinds are the same.
fn are_same(kinds: &[Kind], others: &[Kind]) -> bool
    ensures same { result ≡ true → kinds.now ≡ others.now }
{
    *kinds == *others
}
