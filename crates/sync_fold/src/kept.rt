//! Lists of what is kept of strands.
ghost use Rattle.std.specs.Prelude.{◌≡◌, ◌<◌, ◌+◌, length, OnOk, OnErr, slice_index_or, slice_set};
ghost use Rattle.std.specs.List.{insert, remove};
ghost use Rattle.sync_fold.specs.declared.laid.Laid.TheVariants.{Nothing, Whole, Half, Paired};

use crate::laid::Laid;
use right_strands::laid::LaidState;
use std::alloc::AllocError;
use std::mem;

/// A worker holds the strand that is put behind the one of that number.
pub(crate) fn put_behind<P: Drop, Q: Drop>(
    laid: &mut Vec<Laid<P, Q>>,
    k: usize,
) -> Result<(), AllocError>
    requires within { k < length laid.old.items }
    ensures put { OnOk result (laid.new.items ≡ insert laid.old.items (k + 1) Nothing) }
    ensures same { OnErr result (laid.new.items ≡ laid.old.items) }
{
    if laid.insert(k + 1, Laid::Nothing).is_err() {
        return Err(AllocError);
    }
    Ok(())
}

/// The strand behind the one of that number is no more there.
pub(crate) fn take_behind<P: Drop, Q: Drop>(laid: &mut Vec<Laid<P, Q>>, k: usize)
    requires within { k + 1 < length laid.old.items }
    ensures taken { laid.new.items ≡ remove laid.old.items (k + 1) }
{
    laid.remove(k + 1);
}

/// The strand of that number is laid down.
pub(crate) fn keep<P: Drop, Q: Drop>(laid: &mut Vec<Laid<P, Q>>, k: usize, piece: P)
    requires within { k < length laid.old.items }
    ensures kept { laid.new.items ≡ slice_set laid.old.items k (Whole piece) }
{
    laid[k] = Laid::Whole(piece);
}

/// Takes what is kept of the strand of that number, and of the next one.
pub(crate) fn take_two<P, Q>(laid: &mut Vec<Laid<P, Q>>, k: usize) -> (Laid<P, Q>, Laid<P, Q>)
    requires within { k + 1 < length laid.old.items }
    ensures left { result.0 ≡ slice_index_or laid.old.items k result.0 }
    ensures right { result.1 ≡ slice_index_or laid.old.items (k + 1) result.1 }
    ensures none { laid.new.items ≡ slice_set (slice_set laid.old.items k Nothing) (k + 1) Nothing }
{
    let left = mem::replace(&mut laid[k], Laid::Nothing);
    let right = mem::replace(&mut laid[k + 1], Laid::Nothing);
    (left, right)
}

/// From then on the strand of that number and the next one are a pair.
pub(crate) fn keep_pair<P: Drop, Q: Drop>(
    laid: &mut Vec<Laid<P, Q>>,
    k: usize,
    pair: Q,
    over: LaidState,
    waiting: LaidState,
)
    requires within { k + 1 < length laid.old.items }
    ensures kept { laid.new.items ≡ slice_set (slice_set laid.old.items k (Half pair over)) (k + 1) (Paired waiting) }
{
    laid[k] = Laid::Half(pair, over);
    laid[k + 1] = Laid::Paired(waiting);
}
