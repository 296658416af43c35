//! The pool of kits of a run.
ghost use Rattle.std.specs.Prelude.{◌≡◌, All, length};

use right_strands::run::Run;
use std::marker::{Brand, Model, PhantomData};
use std::sync::ledger::Ledger;
use view_pool::{Kit, KitSource, Pool, View};

/// How many kits there are in all, free or not, how many of them are free when the run begins, and the name of the ledger of those
/// that workers' strands have. Each call of a program picks them.
pub trait Stocked {
    ghost use Rattle.std.specs.Prelude.{ℕ};

    ghost total: { ℕ };

    ghost begun: { ℕ };

    ghost ledger: { ℕ };
}

impl Stocked for Brand {
    ghost total = { 0 };

    ghost begun = { 0 };

    ghost ledger = { 0 };
}

/// Which kits of type `K` belong to a run, how many there are in all, and how many of them were free when it began.
pub trait Stock<K> {
    ghost use Rattle.std.specs.Prelude.{ℕ};

    ghost fits: { K → Type 0 };

    ghost total: { ℕ };

    ghost begun: { ℕ };
}

/// The kits of the run J: those of its reducers' kinds.
pub struct KitsOf<J: Run + Stocked> {
    of: PhantomData<J>,
}

impl<J: Run + Stocked, V: View> Stock<Kit<V>> for KitsOf<J> {
    ghost fits = { λ k. k ≡ J.setting.kinds };

    ghost total = { J.total };

    ghost begun = { J.begun };
}

/// In its ledger each strand that a worker holds has a part, and its kits are the part's amount.
impl<J: Run + Stocked> Ledger for KitsOf<J> {
    ghost use Rattle.worker_seats.specs.Balances.{most};

    ghost name = { J.ledger };

    ghost parts = { most };
}

/// The free kits of a run. Contracts see how many they are.
#[derive(Drop)]
pub struct RightPool<P: Stock<K>, K> {
    pool: Pool<K>,
    of: PhantomData<P>,
}

impl<P: Stock<K>, K> Model for RightPool<P, K> {
    ghost use Rattle.std.specs.Prelude.{◌≡◌, ℕ, All, length};

    ghost Value = { ℕ };

    ghost view = { λ p. length p.pool.kits };

    ghost invariant = { λ p. All P.fits p.pool.kits × (p.pool.total ≡ P.total) };
}

impl<P: Stock<K>, K> RightPool<P, K> {
    /// The kits of a pool.
    pub fn new(pool: Pool<K>) -> RightPool<P, K>
        requires fits { All P.fits pool.kits }
        requires total { pool.total ≡ P.total }
        ensures free { result ≡ length pool.kits }
    {
        RightPool {
            pool,
            of: PhantomData,
        }
    }

    /// How many kits are free.
    pub fn free(&self) -> usize
        ensures free { result ≡ self.now }
    {
        self.pool.free()
    }

    /// The pool by itself.
    pub fn into_pool(self) -> Pool<K>
        ensures free { length result.kits ≡ self }
        ensures fits { All P.fits result.kits }
        ensures total { result.total ≡ P.total }
    {
        let RightPool { pool, of: _ } = self;
        pool
    }
}

impl<P: Stock<K>, K> KitSource<K> for RightPool<P, K> {
    ghost gives = { λ k p. P.fits k };

    ghost fits = { λ k p. P.fits k };

    ghost free = { λ p. p };

    ghost total = { λ p. P.total };

    ghost lacks = { λ p. Unit {0} };

    fn take(&mut self) -> Option<K> {
        self.pool.take()
    }

    fn give(&mut self, kit: K) -> Result<(), K> {
        self.pool.give(kit)
    }
}
