//! A place for one kit that lies beside the lock.
ghost use Rattle.std.specs.Prelude.{◌≡◌, None, Some, IfSome};

use crate::supply::Shelf;
use std::marker::{Model, PhantomData};
use std::sync::ledger::Ledger;

/// A kit that doesn't lie on its shelf and isn't with a strand, or none.
#[derive(Drop)]
pub(crate) struct Spare<D: Shelf<K, L>, K, L: Ledger> {
    kit: Option<K>,
    of: PhantomData<D>,
    by: PhantomData<L>,
}

impl<D: Shelf<K, L>, K, L: Ledger> Model for Spare<D, K, L> {
    ghost use Rattle.std.specs.Prelude.{Option, IfSome};

    ghost Value = { Option K };

    ghost view = { λ s. s.kit };

    ghost invariant = { λ s. IfSome s.kit D.fits };
}

impl<D: Shelf<K, L>, K, L: Ledger> Spare<D, K, L> {
    /// A place with that kit, or without one.
    pub(crate) fn new(kit: Option<K>) -> Spare<D, K, L>
        requires fits { IfSome kit D.fits }
        ensures kit { result ≡ kit }
    {
        Spare {
            kit,
            of: PhantomData,
            by: PhantomData,
        }
    }

    /// The kit, if there is one.
    pub(crate) fn take(&mut self) -> Option<K>
        ensures fits { IfSome result D.fits }
        ensures taken { result ≡ self.old }
        ensures none { self.new ≡ None }
    {
        self.kit.take()
    }

    /// Puts a kit there; one that lies there is handed back.
    pub(crate) fn put(&mut self, kit: K) -> Option<K>
        requires fits { D.fits kit }
        ensures fits { IfSome result D.fits }
        ensures other { result ≡ self.old }
        ensures put { self.new ≡ Some kit }
    {
        self.kit.replace(kit)
    }
}
