//! Which of two records of one procedure and arguments is kept.
ghost use Rattle.std.specs.Prelude.{◌≡◌, ◌<◌, ◌≤◌, length};
ghost use Rattle.std.specs.List.{SwappedAt};

/// Brings what comes later to the place of what isn't kept any more: swaps two places, unless they are one, since most records stay
/// where they are, and aren't written.
#[inline(always)]
pub fn bring<T>(list: &mut [T], place: usize, next: usize)
    requires within { next < length list.old }
    requires place { place ≤ next }
    ensures swapped { SwappedAt list.old list.new place next }
    ensures length { length list.new ≡ length list.old }
{
    if place < next {
        list.swap(place, next);
    }
}
