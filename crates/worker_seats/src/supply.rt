//! Kits for the strand of one worker, while the others go on.
ghost use Rattle.std.specs.Prelude.{◌≡◌, ◌+◌, ◌<◌, suc, None, IfSome, OnSome, IsNone};
ghost use Rattle.worker_seats.specs.Balances.{spare_count, most};

use crate::locking::locked;
use crate::spare::Spare;
use std::marker::PhantomData;
use std::sync::ledger::{Ledger, Share};
use std::sync::{Mutex, Wait};
use view_pool::KitSource;

/// In how many goes one after the other nobody asks for a kit, at most, before the one that is kept goes home.
const MOST_UNUSED: u32 = 16;

/// Where kits of type `K` lie under a lock. The ledger `L` counts those that don't lie there.
pub trait Shelf<K, L: Ledger> {
    /// A kit that may lie there.
    ghost fits: { K → Type 0 };

    /// A free kit, if there is one; it counts for that share.
    fn take_kit(&mut self, share: &mut Share<L>) -> Option<K>
        requires one { 0 < share.old.parts }
        ensures fits { IfSome result fits }
        ensures parts { share.new.parts ≡ share.old.parts }
        ensures counted { OnSome result (share.new.amount ≡ suc share.old.amount) }
        ensures uncounted { IsNone result → share.new.amount ≡ share.old.amount };

    /// Puts a kit among the free ones that counted for that share.
    fn give_kit(&mut self, kit: K, share: &mut Share<L>)
        requires fits { fits kit }
        requires some { 0 < share.old.amount }
        ensures parts { share.new.parts ≡ share.old.parts }
        ensures counted { suc share.new.amount ≡ share.old.amount };

    /// Whether there are so many free kits that each worker may keep one.
    fn has_plenty(&self) -> bool;
}

/// The kits of a run for the strand of one worker. Those that the strand doesn't hold count as free: some may be with others, then
/// there is none to take. They are taken and given under the lock; but where there were plenty when the last one was taken there,
/// one that comes back is kept beside it. The strand's kits and the one that is kept are the amount of a share.
#[derive(Drop)]
pub struct Supply<'a, D: Shelf<K, L>, K, L: Ledger, R: Wait> {
    rt: &'a R,
    shelf: &'a Mutex<D>,
    spare: Spare<D, K, L>,
    share: Share<L>,
    had_plenty: bool,
    unused: u32,
    free: usize,
    of: PhantomData<K>,
    ghost one: { share.parts ≡ 1 },
    ghost counted: { free + share.amount ≡ most + spare_count spare },
}

/// Puts a kit among the free ones under the lock that counted for that share. Out of line, so that a kit is kept quickly.
#[inline(never)]
fn give_back<D: Shelf<K, L>, K, L: Ledger, R: Wait>(
    rt: &R,
    shelf: &Mutex<D>,
    kit: K,
    share: &mut Share<L>,
)
    requires fits { D.fits kit }
    requires some { 0 < share.old.amount }
    ensures parts { share.new.parts ≡ share.old.parts }
    ensures counted { suc share.new.amount ≡ share.old.amount }
{
    locked(rt, shelf).give_kit(kit, share);
}

impl<'a, D: Shelf<K, L>, K: Drop, L: Ledger, R: Wait> Supply<'a, D, K, L, R> {
    /// The kits of a run for a strand with so many, which are that share's amount together with the one that lies ready for it, if there is
    /// one: then there were plenty.
    pub fn new(
        rt: &'a R,
        shelf: &'a Mutex<D>,
        share: Share<L>,
        kits: usize,
        ready: Option<K>,
    ) -> Supply<'a, D, K, L, R>
        requires one { share.parts ≡ 1 }
        requires counted { share.amount ≡ spare_count ready + kits }
        requires fits { IfSome ready D.fits }
        ensures free { kits + result.free ≡ most }
    {
        let had_plenty = ready.is_some();
        Supply {
            rt,
            shelf,
            spare: Spare::new(ready),
            share,
            had_plenty,
            unused: 0,
            free: usize::MAX - kits,
            of: PhantomData,
        }
    }

    /// A go of the strand begins: a kit that is kept goes home where nobody has asked for one in many goes.
    pub fn begin(&mut self)
        requires some { self.old.free < most }
        ensures free { self.new.free ≡ self.old.free }
    {
        if self.unused < MOST_UNUSED {
            self.unused += 1;
            return;
        }
        self.clear();
    }

    /// Has the kit that is kept go home.
    fn clear(&mut self)
        requires some { self.old.free < most }
        ensures free { self.new.free ≡ self.old.free }
        ensures none { self.new.spare ≡ None }
    {
        if let Some(kit) = self.spare.take() {
            give_back(self.rt, self.shelf, kit, &mut self.share);
        }
    }

    /// The share again, of which the strand's kits are the amount, and how many these are; the kit that is kept goes home.
    pub fn end(self) -> (Share<L>, usize)
        requires some { self.free < most }
        ensures one { result.0.parts ≡ 1 }
        ensures counted { result.0.amount ≡ result.1 }
        ensures kits { result.1 + self.entry.free ≡ most }
    {
        let mut supply = self;
        supply.clear();
        let Supply { share, free, .. } = supply;
        (share, usize::MAX - free)
    }

    /// The share again, of which the strand's kits and the one that is kept are the amount; how many the strand has, and the one that is kept.
    pub fn into_parts(self) -> (Share<L>, usize, Option<K>)
        ensures one { result.0.parts ≡ 1 }
        ensures counted { result.0.amount ≡ spare_count result.2 + result.1 }
        ensures kits { result.1 + self.entry.free ≡ most }
        ensures fits { IfSome result.2 D.fits }
    {
        let Supply {
            share,
            free,
            mut spare,
            ..
        } = self;
        let kits = usize::MAX - free;
        match spare.take() {
            Some(kit) => (share, kits, Some(kit)),
            None => (share, kits, None),
        }
    }

    /// A kit from under the lock, if there is one. Out of line, so that a kit that lies ready is taken quickly.
    #[inline(never)]
    fn fetch(&mut self) -> Option<K>
        requires some { 0 < self.old.free }
        requires none { self.old.spare ≡ None }
        ensures fits { IfSome result D.fits }
        ensures taken { OnSome result (self.old.free ≡ suc self.new.free) }
        ensures untaken { IsNone result → self.new.free ≡ self.old.free }
    {
        let mut shelf = locked(self.rt, self.shelf);
        self.had_plenty = shelf.has_plenty();
        match shelf.take_kit(&mut self.share) {
            Some(kit) => {
                self.free -= 1;
                Some(kit)
            }
            None => None,
        }
    }

    /// Keeps a kit of the strand, or has it go home.
    fn keep(&mut self, kit: K)
        requires fits { D.fits kit }
        requires some { self.old.free < most }
        ensures free { self.new.free ≡ suc self.old.free }
    {
        if !self.had_plenty {
            give_back(self.rt, self.shelf, kit, &mut self.share);
        } else {
            self.unused = 0;
            if let Some(other) = self.spare.put(kit) {
                give_back(self.rt, self.shelf, other, &mut self.share);
            }
        }
        self.free += 1;
    }
}

impl<D: Shelf<K, L>, K: Drop, L: Ledger, R: Wait> KitSource<K> for Supply<'_, D, K, L, R> {
    ghost use Rattle.worker_seats.specs.Balances.{most};

    ghost gives = { λ k s. D.fits k };

    ghost fits = { λ k s. D.fits k };

    ghost free = { λ s. s.free };

    ghost total = { λ s. most };

    ghost lacks = { λ s. Unit {0} };

    fn take(&mut self) -> Option<K> {
        if self.free == 0 {
            return None;
        }
        self.unused = 0;
        match self.spare.take() {
            Some(kit) => {
                self.free -= 1;
                Some(kit)
            }
            None => self.fetch(),
        }
    }

    #[inline(always)]
    fn give(&mut self, kit: K) -> Result<(), K> {
        if self.free == usize::MAX {
            return Err(kit);
        }
        self.keep(kit);
        Ok(())
    }
}
