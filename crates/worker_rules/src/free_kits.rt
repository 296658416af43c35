//! Kits that come free.
ghost use Rattle.std.specs.Prelude.{◌≡◌, ◌<◌, suc};

use view_pool::KitSource;

/// Puts the kit of a strand that has become part of another among the free ones, for which there is room.
#[inline(always)]
pub fn put_folded<K: Drop, S: KitSource<K>>(source: &mut S, freed: K)
    requires fits { S.fits freed source.old }
    requires room { S.free source.old < S.total source.old }
    ensures put { S.free source.new ≡ suc (S.free source.old) }
{
    let _ = source.give(freed);
}

/// Puts a kit among the free ones that was taken for a strand, but nobody had a continuation for it; there is room for it.
#[inline(always)]
pub fn put_untaken<K: Drop, S: KitSource<K>>(source: &mut S, untaken: K)
    requires fits { S.fits untaken source.old }
    requires room { S.free source.old < S.total source.old }
    ensures put { S.free source.new ≡ suc (S.free source.old) }
{
    let _ = source.give(untaken);
}
