//! Lists that layers which are closed no longer need, for those that are opened.
ghost use Rattle.std.specs.Prelude.{◌≡◌, [], IfOk, false, replicate};

use crate::lowering::put_all_down;
use evaluation::notes::Notes;
use std::alloc::{AllocError, Global};

/// Lists for layers to come: each of notes, of flags and of used reducers. What they held doesn't matter.
#[derive(Drop)]
pub struct SpareLists {
    lists: Vec<(Notes, Vec<bool>, Vec<usize>)>,
}

impl SpareLists {
    /// None yet.
    pub fn new(alloc: Global) -> SpareLists {
        SpareLists {
            lists: Vec::new(alloc),
        }
    }

    /// Empty lists of notes and of used reducers, and so many flags, all of them down. Want of memory is the only error.
    #[inline(always)]
    pub fn take(
        &mut self,
        alloc: Global,
        procedures: usize,
    ) -> Result<(Notes, Vec<bool>, Vec<usize>), AllocError>
        ensures no_notes { IfOk result (λ lists. lists.0 ≡ []) }
        ensures flags_down { IfOk result (λ lists. lists.1.items ≡ replicate procedures false) }
        ensures none_used { IfOk result (λ lists. lists.2.items ≡ []) }
    {
        let (notes, mut flags, used) = self.left(alloc);
        put_all_down(&mut flags, procedures)?;
        Ok((notes, flags, used))
    }

    /// Lists of notes, of flags and of used reducers. The flags stand as they were left: there are mostly as many in the next layer,
    /// and putting a few down is quicker than making them anew.
    #[inline(always)]
    fn left(&mut self, alloc: Global) -> (Notes, Vec<bool>, Vec<usize>)
        ensures no_notes { result.0 ≡ [] }
        ensures none_used { result.2.items ≡ [] }
    {
        match self.lists.pop() {
            Some((mut notes, flags, mut used)) => {
                notes.clear();
                used.clear();
                (notes, flags, used)
            }
            None => (Notes::new(alloc), Vec::new(alloc), Vec::new(alloc)),
        }
    }

    /// Keeps the lists of a layer that is closed. Where memory is refused for that they are let go.
    pub fn keep_layer(&mut self, notes: Notes, flags: Vec<bool>, used: Vec<usize>) {
        let _ = self.lists.push((notes, flags, used));
    }
}
