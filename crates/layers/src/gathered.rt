// Values with their reducers' numbers, as they are gathered for a record.
ghost use Rattle.std.specs.Prelude.{◌≡◌, ◌++◌, ◌∷◌, [], OnOk, is_none, true, false};
ghost use Rattle.instance_records.specs.ShortLists.{items_in};
ghost use Rattle.layers.specs.Gatherings.{gathered_in};

use instance_records::gift::Gift;
use instance_records::short_list::ShortList;
use std::alloc::{AllocError, Global};
use std::mem;

/// The first two by themselves; where there are more, all lie in the list.
#[derive(Drop)]
pub(crate) struct Gathered {
    first: Option<Gift>,
    second: Option<Gift>,
    several: Vec<Gift>,
}

impl Gathered {
    /// None yet. It takes no memory.
    pub(crate) fn new(alloc: Global) -> Gathered
        ensures none { gathered_in result ≡ [] }
    {
        Gathered {
            first: None,
            second: None,
            several: Vec::new(alloc),
        }
    }

    /// Puts a value behind the others, which are so many at most.
    #[inline(always)]
    #[tactic(auto, using(crate::proofs::Gatherings::second_put))]
    pub(crate) fn put(&mut self, alloc: Global, value: Gift, most: usize) -> Result<(), AllocError>
        ensures put { OnOk result (gathered_in self.new ≡ gathered_in self.old ++ value ∷ []) }
    {
        if self.first.is_none() {
            return self.put_first(value);
        }
        if self.second.is_none() {
            self.second = Some(value);
            return Ok(());
        }
        self.put_third(alloc, value, most)
    }

    /// Puts a value behind those that all lie in the list.
    #[inline(always)]
    #[tactic(auto, using(crate::proofs::Gatherings::first_put, crate::proofs::Gatherings::other_put))]
    fn put_first(&mut self, value: Gift) -> Result<(), AllocError>
        requires none { is_none self.old.first ≡ true }
        ensures put { OnOk result (gathered_in self.new ≡ gathered_in self.old ++ value ∷ []) }
    {
        if self.several.is_empty() {
            self.first = Some(value);
            self.second = None;
            return Ok(());
        }
        self.several.push(value)?;
        Ok(())
    }

    /// Puts a third value behind two, with room for so many.
    #[inline(never)]
    fn put_third(&mut self, alloc: Global, value: Gift, most: usize) -> Result<(), AllocError>
        requires first { is_none self.old.first ≡ false }
        requires second { is_none self.old.second ≡ false }
        ensures put { OnOk result (gathered_in self.new ≡ gathered_in self.old ++ value ∷ []) }
    {
        let mut items = Vec::new(alloc);
        items.reserve_exact(most)?;
        let Some(first) = mem::replace(&mut self.first, None) else {
            unreachable!();
        };
        let Some(second) = mem::replace(&mut self.second, None) else {
            unreachable!();
        };
        items.push(first)?;
        items.push(second)?;
        items.push(value)?;
        self.several = items;
        Ok(())
    }

    /// The list of them, without spare room. It takes no memory.
    #[inline(always)]
    pub(crate) fn into_list(self) -> ShortList<Gift>
        ensures same { items_in result ≡ gathered_in self }
    {
        let Gathered {
            first,
            second,
            mut several,
        } = self;
        match first {
            None => {
                several.shrink_to_fit();
                ShortList::Several(several)
            }
            Some(one) => match second {
                None => ShortList::One(one),
                Some(two) => ShortList::Two([one, two]),
            },
        }
    }
}
