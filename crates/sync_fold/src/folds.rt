//! Neighbours that become one strand.
ghost use Rattle.std.specs.Prelude.{◌≡◌, ◌<◌, ◌+◌, [], length, drop, false, Some, None, IfOk, OnOk, OnErr, MatchOption};
ghost use Rattle.strand_list.specs.Pages.{shown};
ghost use Rattle.sync_fold.specs.Counts.{TakesUp};
ghost use Rattle.sync_fold.specs.Books.{BeginAsOne, BeginWithPair, IsHalved, PlacesAt, fold_among, folded, folds_here};

use crate::kept::{keep_pair, take_behind, take_two};
use crate::laid::{LaidOf, join_up, may_touch};
use numbered_runs::step::{Place, StrandLine};
use right_strands::run::{Run, Scene};
use right_strands::spare::Spares;
use right_strands::strand::RightStrand;
use std::alloc::{AllocError, Global};
use strand_list::lines::{is_done, is_waiting};
use view_pool::{Kit, View};

/// Whether lists of lines, and of what is kept of them, begin with two strands that may be folded.
fn folds_here<J: Run, V: View>(lines: &[StrandLine], laid: &[LaidOf<J, V>]) -> bool
    ensures folds { result ≡ folds_here (shown lines.now) laid.now }
{
    match lines {
        [left, right, ..] => { is_done(left.state) && is_waiting(right.state) && may_touch(laid) }
        _ => false,
    }
}

/// The number of the first line whose strand may be folded with the next one.
pub(crate) fn first_fold<J: Run, V: View>(
    lines: &[StrandLine],
    laid: &[LaidOf<J, V>],
) -> Option<usize>
    requires long { length laid.now ≡ length lines.now }
    ensures { MatchOption result (fold_among (shown lines.now) laid.now ≡ None)
        (λ k. PlacesAt k (shown lines.now) (fold_among (shown lines.now) laid.now)) }
{
    for k in 0..lines.len() {
        if folds_here(&lines[k..], &laid[k..]) {
            return Some(k);
        }
    }
    None
}

/// The places of the line of that number and of the next one.
pub(crate) fn places_at(
    alloc: Global,
    lines: &[StrandLine],
    k: usize,
) -> Result<(Place, Place), AllocError>
    requires within { k + 1 < length lines.now }
    ensures places { IfOk result (λ r. PlacesAt k (shown lines.now) (Some (r.0.items, r.1.items))) }
{
    let left = Vec::from_slice(alloc, &lines[k].place)?;
    let right = Vec::from_slice(alloc, &lines[k + 1].place)?;
    Ok((left, right))
}

/// The strand of that number and the next one become one, which a worker holds. For want of memory they are kept as a pair.
pub(crate) fn fold_kept<J: Run, V: View>(
    scene: &Scene<'_, J>,
    laid: &mut Vec<LaidOf<J, V>>,
    k: usize,
    spares: &mut Spares<V>,
) -> Result<(RightStrand<J, V>, Kit<V>), AllocError>
    requires within { k + 1 < length laid.old.items }
    requires pair { BeginWithPair (drop k laid.old.items) }
    ensures joined { IfOk result (λ r. BeginAsOne (drop k laid.old.items) r.0.strand) }
    ensures going { IfOk result (λ r. r.0.failed ≡ false) }
    ensures kit { IfOk result (λ r. r.1 ≡ J.setting.kinds) }
    ensures folded { OnOk result (laid.new.items ≡ folded k laid.old.items) }
    ensures counted { IfOk result (λ r. TakesUp r.0.strand laid.old.items laid.new.items) }
    ensures halved { OnErr result (IsHalved k laid.old.items laid.new.items) }
{
    let (left, right) = take_two(laid, k);
    match join_up(scene, left, right, spares) {
        Ok(joined) => {
            take_behind(laid, k);
            Ok(joined)
        }
        Err((pair, over, waiting)) => {
            keep_pair(laid, k, pair, over, waiting);
            Err(AllocError)
        }
    }
}
