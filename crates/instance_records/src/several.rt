//! What several records have read, as it is put together.
ghost use Rattle.std.specs.Prelude.{◌≡◌, ◌++◌, [], IfOk, OnOk};

use crate::readings::Readings;
use crate::short_list::ShortList;
use evaluation::reading::Reading;
use std::alloc::{AllocError, Global};
use std::marker::Model;

/// What records have read, one after another. Two readings that lie in their record are copied into one list, up to the first record
/// whose readings don't lie so; from there on they are parts.
#[derive(Drop)]
pub struct Several {
    own: Vec<Reading>,
    parts: Vec<Readings>,
}

impl Model for Several {
    ghost use Rattle.std.specs.Prelude.{List, ◌++◌, map};
    ghost use Rattle.evaluation.specs.declared.note.Note.{Note};
    ghost use Rattle.evaluation.specs.Short.{note_of};
    ghost use Rattle.instance_records.specs.Readings.{all_of};

    ghost Value = { List Note };

    ghost view = { λ s. map note_of s.own.items ++ all_of s.parts.items };
}

impl Several {
    /// Of no records, with room for so many that have two readings each, and for so many parts.
    pub fn new(alloc: Global, pairs: usize, parts: usize) -> Result<Several, AllocError>
        ensures none { IfOk result (λ s. s ≡ []) }
    {
        Ok(Several {
            own: Vec::with_capacity(alloc, pairs.saturating_mul(2))?,
            parts: Vec::with_capacity(alloc, parts)?,
        })
    }

    /// Puts what a record has read behind the others. Want of memory is the only error.
    #[inline(always)]
    #[tactic(auto, using(crate::proofs::Together::pair_behind))]
    pub fn add(&mut self, reads: &Readings) -> Result<(), AllocError>
        ensures added { OnOk result (self.new ≡ self.old ++ reads.now) }
    {
        if self.parts.is_empty() && reads.is_pair() {
            return reads.put_pair(&mut self.own);
        }
        self.add_part(reads)
    }

    /// Shares what a record has read, behind the others.
    #[inline(never)]
    #[tactic(auto, using(crate::proofs::Together::part_behind))]
    fn add_part(&mut self, reads: &Readings) -> Result<(), AllocError>
        ensures added { OnOk result (self.new ≡ self.old ++ reads.now) }
    {
        self.parts.push(reads.share()?)?;
        Ok(())
    }

    /// All of them. Nothing keeps spare room.
    pub fn finish(self, alloc: Global) -> Result<Readings, AllocError>
        ensures same { IfOk result (λ r. r ≡ self) }
    {
        Readings::new(alloc, ShortList::new(self.own), self.parts)
    }
}
