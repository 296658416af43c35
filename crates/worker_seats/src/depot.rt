//! The free kits of a run, and the count of those that workers' strands have.
ghost use Rattle.std.specs.Prelude.{◌≡◌, ◌+◌, ◌<◌, ◌≤◌, suc, IfSome, IsNone, IsOk, OnOk, OnErr, OnSome};

use crate::kits::{RightPool, Stock};
use std::marker::Model;
use std::sync::ledger::{Blank, Book as Count, Ledger, Share};
use view_pool::KitSource;
use worker_rules::free_kits::{put_folded, put_untaken};

/// The free kits of type `K` of a run, and the count of those that the strands have that workers hold. Each such strand has one
/// part of the count; no kit is counted for the parts that are left.
#[derive(Drop)]
pub struct Depot<P: Stock<K> + Ledger, K> {
    pool: RightPool<P, K>,
    count: Count<P>,
    rest: Share<P>,
}

impl<P: Stock<K> + Ledger, K> Model for Depot<P, K> {
    ghost use Rattle.std.specs.Prelude.{◌≡◌, ◌≤◌};
    ghost use Rattle.worker_seats.specs.Balances.{PlainDepot};

    ghost Value = { PlainDepot };

    ghost view = { λ d. record { free = d.pool; out = d.count.total; parts = d.rest.parts; begun = P.begun } };

    ghost invariant = { λ d. (d.rest.amount ≡ 0) × (P.begun ≤ P.total) };
}

impl<P: Stock<K> + Ledger, K> Depot<P, K> {
    /// The kits of a run whose first strand has one of them, and that strand's share of their count.
    pub fn new(pool: RightPool<P, K>, blank: Blank) -> (Depot<P, K>, Share<P>)
        requires name { blank.name ≡ P.name }
        requires parts { blank.parts ≡ P.parts }
        requires some { 0 < P.parts }
        requires room { P.begun ≤ P.total }
        ensures free { result.0.free ≡ pool }
        ensures out { result.0.out ≡ 1 }
        ensures parts { result.0.parts + 1 ≡ P.parts }
        ensures begun { result.0.begun ≡ P.begun }
        ensures one { result.1.parts ≡ 1 }
        ensures counted { result.1.amount ≡ 1 }
    {
        let (mut count, mut rest) = blank.open::<P>();
        let mut share = rest.split_off(1, 0);
        count.add(&mut share, 1);
        (Depot { pool, count, rest }, share)
    }

    /// How many kits are free.
    pub fn free(&self) -> usize
        ensures free { result ≡ self.now.free }
    {
        self.pool.free()
    }

    /// A free kit, if there is one.
    pub fn take(&mut self) -> Option<K>
        ensures fits { IfSome result P.fits }
        ensures taken { OnSome result (self.old.free ≡ suc self.new.free) }
        ensures others { self.new ≡ record self.old { free = self.new.free } }
        ensures none { IsNone result → self.new ≡ self.old }
    {
        self.pool.take()
    }

    /// Puts a kit among the free ones, or hands it back where there is no room for it: not where one is missing of those that were
    /// free at first.
    pub fn put(&mut self, kit: K) -> Result<(), K>
        requires fits { P.fits kit }
        ensures room { self.old.free < self.old.begun → IsOk result }
        ensures put { OnOk result (self.new ≡ record self.old { free = suc self.old.free }) }
        ensures same { OnErr result (self.new ≡ self.old) }
    {
        self.pool.give(kit)
    }

    /// A free kit, if there is one, for the strand with that share.
    pub fn lend(&mut self, share: &mut Share<P>) -> Option<K>
        requires one { 0 < share.old.parts }
        ensures fits { IfSome result P.fits }
        ensures taken { OnSome result (self.old.free ≡ suc self.new.free) }
        ensures others { OnSome result (self.new
            ≡ record self.old { free = self.new.free; out = suc self.old.out }) }
        ensures counted { OnSome result (share.new.amount ≡ suc share.old.amount) }
        ensures none { IsNone result → self.new ≡ self.old }
        ensures uncounted { IsNone result → share.new.amount ≡ share.old.amount }
        ensures parts { share.new.parts ≡ share.old.parts }
    {
        match self.pool.take() {
            Some(kit) => {
                self.count.add(share, 1);
                Some(kit)
            }
            None => None,
        }
    }

    /// Puts a kit of the strand with that share among the free ones, or hands it back where there is no room for it: not where there
    /// are no more, free and counted, than were free at first.
    pub fn take_back(&mut self, kit: K, share: &mut Share<P>) -> Result<(), K>
        requires fits { P.fits kit }
        requires some { 0 < share.old.amount }
        ensures put { OnOk result (record self.new { out = suc self.new.out }
            ≡ record self.old { free = suc self.old.free }) }
        ensures room { self.old.free + self.old.out ≤ self.old.begun → IsOk result }
        ensures counted { suc share.new.amount ≡ share.old.amount }
        ensures parts { share.new.parts ≡ share.old.parts }
    {
        self.count.sub(share, 1);
        self.pool.give(kit)
    }

    /// A share for a strand with so many kits that a worker holds from then on.
    pub fn begin(&mut self, kits: usize) -> Share<P>
        requires some { 0 < self.old.parts }
        ensures one { result.parts ≡ 1 }
        ensures counted { result.amount ≡ kits }
        ensures begun { record self.old { out = kits + self.old.out }
            ≡ record self.new { parts = suc self.new.parts } }
    {
        let mut share = self.rest.split_off(1, 0);
        self.count.add(&mut share, kits as u64);
        share
    }

    /// No worker holds the strand with that share and so many kits any longer.
    pub fn end(&mut self, share: Share<P>, kits: usize)
        requires one { share.parts ≡ 1 }
        requires counted { share.amount ≡ kits }
        ensures ended { record self.old { parts = suc self.old.parts }
            ≡ record self.new { out = kits + self.new.out } }
    {
        let mut share = share;
        self.count.sub(&mut share, kits as u64);
        self.rest.merge(share);
    }

    /// The free kits, once no worker holds a strand: none is with one then.
    pub fn close(self) -> RightPool<P, K>
        requires all { self.parts ≡ P.parts }
        ensures free { result ≡ self.free }
        ensures none { self.out ≡ 0 }
        ensures begun { self.begun ≡ P.begun }
        ensures room { P.begun ≤ P.total }
    {
        let Depot {
            pool,
            mut count,
            mut rest,
        } = self;
        count.audit(&mut rest);
        pool
    }

    /// The free kits of a run that is given up.
    pub fn into_pool(self) -> RightPool<P, K>
        ensures free { result ≡ self.free }
    {
        let Depot { pool, .. } = self;
        pool
    }
}

impl<P: Stock<K> + Ledger, K: Drop> Depot<P, K> {
    /// Puts the kit of a strand that has become part of another among the free ones: one is missing of those that were free at first.
    pub fn put_folded(&mut self, kit: K)
        requires fits { P.fits kit }
        requires room { self.old.free < self.old.begun }
        ensures put { self.new ≡ record self.old { free = suc self.old.free } }
    {
        put_folded(&mut self.pool, kit);
    }

    /// Puts a kit among the free ones that was taken for nothing: one is missing of those that were free at first.
    pub fn put_untaken(&mut self, kit: K)
        requires fits { P.fits kit }
        requires room { self.old.free < self.old.begun }
        ensures put { self.new ≡ record self.old { free = suc self.old.free } }
    {
        put_untaken(&mut self.pool, kit);
    }
}
