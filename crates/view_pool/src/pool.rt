//! The pool of kits, and where kits come from and go home to.
ghost use Rattle.std.specs.Prelude.{◌≡◌, ℕ, suc, ◌≤◌, ◌<◌, OnOk, OnErr, IfErr, IsOk, IsNone, IfSome, length, ◌++◌, ◌∷◌, [], option_to_list, ◌↔◌, ◌⊎◌, Contains};

use std::marker::Model;

/// Where kits of type `K` come from and go home to.
pub trait KitSource<K> {
    /// It may give a kit that is seen as this.
    ghost gives: { K → Self → Type 0 };

    /// A kit that is seen as this may come home.
    ghost fits: { K → Self → Type 0 };

    /// How many kits are free.
    ghost free: { Self → ℕ };

    /// How many kits there are in all, free or not.
    ghost total: { Self → ℕ };

    /// It may have no kit to give.
    ghost lacks: { Self → Type 0 };

    /// A free kit, if there is one.
    fn take(&mut self) -> Option<K>
        ensures known { IfSome result (λ k. gives k self.old) }
        ensures fitting { (k : K) → fits k self.old → fits k self.new }
        ensures gives_known { (k : K) → gives k self.new → gives k self.old }
        ensures taken { IfSome result (λ k. free self.old ≡ suc (free self.new)) }
        ensures untaken { IsNone result → free self.new ≡ free self.old }
        ensures none { IsNone result → lacks self.old }
        ensures total { total self.new ≡ total self.old };

    /// Takes a kit home; hands it back only where all are there already.
    fn give(&mut self, kit: K) -> Result<(), K>
        requires fits { fits kit self.old }
        ensures fitting { (k : K) → fits k self.old → fits k self.new }
        ensures gives_known { (k : K) → gives k self.new → gives k self.old ⊎ kit ≡ k }
        ensures handed_back { IfErr result (λ k. k ≡ kit) }
        ensures room { free self.old < total self.old → IsOk result }
        ensures home { OnOk result (free self.new ≡ suc (free self.old)) }
        ensures away { OnErr result (free self.new ≡ free self.old) }
        ensures total { total self.new ≡ total self.old };
}

/// The kits of type `K` that are free, and how many there are in all.
#[derive(Drop)]
pub struct Pool<K> {
    kits: Vec<K>,
    total: usize,
}

impl<K> Model for Pool<K> {
    ghost use Rattle.std.specs.Prelude.{◌≤◌, vec_capacity, length};
    ghost use Rattle.view_pool.specs.Stock.{Stock};

    ghost Value = { Stock K };

    ghost view = { λ s. record { kits = s.kits.items; total = s.total } };

    ghost invariant = { λ s. (length s.kits.items ≤ s.total) × (s.total ≤ vec_capacity s.kits) };
}

impl<K> Pool<K> {
    /// A pool of these kits, all free.
    pub fn new(kits: Vec<K>) -> Self
        ensures { result ≡ record { kits = kits.items; total = length kits.items } }
    {
        let total = kits.len();
        Pool { kits, total }
    }

    /// How many kits are free.
    pub fn free(&self) -> usize
        ensures { result ≡ length self.now.kits }
    {
        self.kits.len()
    }

    /// How many kits there are in all, free or not.
    pub fn total(&self) -> usize
        ensures { result ≡ self.now.total }
    {
        self.total
    }

    /// A free kit; none only where no kit is free.
    pub fn take(&mut self) -> Option<K>
        ensures one { self.old.kits ≡ self.new.kits ++ option_to_list result }
        ensures none { IsNone result → self.old.kits ≡ [] }
        ensures total { self.new.total ≡ self.old.total }
    {
        self.kits.pop()
    }

    /// Puts a kit among the free ones, or hands it back where all are there already.
    pub fn give(&mut self, kit: K) -> Result<(), K>
        ensures put { OnOk result (self.new.kits ≡ self.old.kits ++ kit ∷ []) }
        ensures full { IsOk result ↔ (length self.old.kits < self.old.total) }
        ensures unchanged { OnErr result (self.new.kits ≡ self.old.kits) }
        ensures handed_back { IfErr result (λ k. k ≡ kit) }
        ensures total { self.new.total ≡ self.old.total }
    {
        if self.kits.len() >= self.total {
            return Err(kit);
        }
        self.kits.push_reserved(kit);
        Ok(())
    }
}

impl<K> KitSource<K> for Pool<K> {
    ghost gives = { λ k s. Contains s.kits k };

    ghost fits = { λ k s. Unit {0} };

    ghost free = { λ s. length s.kits };

    ghost total = { λ s. s.total };

    ghost lacks = { λ s. s.kits ≡ [] };

    fn take(&mut self) -> Option<K>
        ensures known { IfSome result (λ k. Contains self.old.kits k) }
        ensures fitting { (k : K) → Unit {0} → Unit {0} }
        ensures gives_known { (k : K) → Contains self.new.kits k → Contains self.old.kits k }
        ensures taken { IfSome result (λ k. length self.old.kits ≡ suc (length self.new.kits)) }
        ensures untaken { IsNone result → length self.new.kits ≡ length self.old.kits }
        ensures one { self.old.kits ≡ self.new.kits ++ option_to_list result }
        ensures none { IsNone result → self.old.kits ≡ [] }
        ensures total { self.new.total ≡ self.old.total }
    {
        Pool::take(self)
    }

    fn give(&mut self, kit: K) -> Result<(), K>
        ensures fitting { (k : K) → Unit {0} → Unit {0} }
        ensures gives_known { (k : K) → Contains self.new.kits k → Contains self.old.kits k ⊎ kit ≡ k }
        ensures handed_back { IfErr result (λ k. k ≡ kit) }
        ensures room { length self.old.kits < self.old.total → IsOk result }
        ensures home { OnOk result (length self.new.kits ≡ suc (length self.old.kits)) }
        ensures away { OnErr result (length self.new.kits ≡ length self.old.kits) }
        ensures put { OnOk result (self.new.kits ≡ self.old.kits ++ kit ∷ []) }
        ensures full { IsOk result ↔ (length self.old.kits < self.old.total) }
        ensures unchanged { OnErr result (self.new.kits ≡ self.old.kits) }
        ensures total { self.new.total ≡ self.old.total }
    {
        Pool::give(self, kit)
    }
}
