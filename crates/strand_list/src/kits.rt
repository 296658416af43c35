//! Kits that go home.
ghost use Rattle.std.specs.Prelude.{◌≡◌, ◌<◌, ◌++◌, ◌∷◌, [], length};

use view_pool::Pool;

/// Puts a kit among the free ones.
pub fn give_back<K: Drop>(kit: K, pool: &mut Pool<K>)
    requires room { length pool.old.kits < pool.old.total }
    ensures put { pool.new.kits ≡ pool.old.kits ++ kit ∷ [] }
    ensures total { pool.new.total ≡ pool.old.total }
{
    let _ = pool.give(kit);
}
