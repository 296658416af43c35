//! Hypermaps over boxes, of a view that refuses once.
ghost use Rattle.std.specs.Prelude.{◌≡◌, IfSome, ◌∷◌, []};
ghost use Rattle.monoid_laws.specs.declared.Kind.TheVariants.{List as ListKind};

use hypermaps::Hypermap;
use monoid_laws::{Kind, Val};
use reducer_values::inject;
use std::alloc::{AllocError, Global};
use std::sync::Arc;
use std::sync::atomic::{AtomicUsize, Ordering};
use test_kit::refusing::{Refuses, Stubborn};
use view_pool::{Kit, View};

/// Whether a value is the whole list of these numbers.
fn is_list(value: &Val, numbers: &[i64]) -> bool {
    match value {
        Val::List(list) => list.as_slice() == numbers,
        _ => false,
    }
}

/// The views' kit, where they are two lists.
fn two_lists<V: View>(views: Vec<V>) -> Option<Kit<V>>
    ensures { IfSome result (λ k. k ≡ ListKind ∷ ListKind ∷ []) }
{
    if views.len() != 2 {
        return None;
    }
    match (views[0].kind(), views[1].kind()) {
        (Kind::List, Kind::List) => Some(Kit::reset(views)),
        _ => None,
    }
}

/// A hypermap of two lists that hold one number each.
fn holding<V: View>(alloc: Global, views: Vec<V>, number: i64) -> Option<Hypermap<V>>
    ensures { IfSome result (λ h. h.kinds ≡ ListKind ∷ ListKind ∷ []) }
{
    let mut hypermap = Hypermap::open(alloc, two_lists(views)?);
    hypermap.update(0, &[number]).ok()?;
    hypermap.update(1, &[number]).ok()?;
    Some(hypermap)
}

/// Whether the two reducers hold these lists.
fn hold<V: View>(hypermap: &Hypermap<V>, first: &[i64], second: &[i64]) -> bool
    requires { hypermap.now.kinds ≡ ListKind ∷ ListKind ∷ [] }
{
    match (hypermap.value(0), hypermap.value(1)) {
        (Ok(one), Ok(other)) => is_list(&one, first) && is_list(&other, second),
        _ => false,
    }
}

/// Whether a fold moves the first list alone and is refused, and then moves the second.
fn folds_twice<V: View>(left: &mut Hypermap<V>, right: &mut Hypermap<V>) -> bool
    requires left_kinds { left.old.kinds ≡ ListKind ∷ ListKind ∷ [] }
    requires right_kinds { right.old.kinds ≡ ListKind ∷ ListKind ∷ [] }
{
    if left.fold(right).is_ok() || !hold(left, &[1, 2], &[1]) || !hold(right, &[], &[2]) {
        return false;
    }
    left.fold(right).is_ok() && hold(left, &[1, 2], &[1, 2]) && hold(right, &[], &[])
}

/// Folds hypermaps of these views twice, whose lists hold 1 on the left and 2 on the right.
fn fold_views_twice<V: View>(alloc: Global, left: Vec<V>, right: Vec<V>) -> Option<bool> {
    let mut left = holding(alloc, left, 1)?;
    let mut right = holding(alloc, right, 2)?;
    Some(folds_twice(&mut left, &mut right))
}

/// A list in a box.
fn boxed(
    alloc: Global,
    refuses: Refuses,
    drops: &Arc<AtomicUsize>,
) -> Result<Box<dyn View>, AllocError> {
    let view: Box<dyn View> = Box::new(alloc, Stubborn::new(alloc, refuses, drops)?)?;
    Ok(view)
}

/// Two lists in boxes, of which the second one refuses so.
fn boxes(
    alloc: Global,
    refuses: Refuses,
    drops: &Arc<AtomicUsize>,
) -> Result<Vec<Box<dyn View>>, AllocError> {
    let mut views: Vec<Box<dyn View>> = Vec::new(alloc);
    views.push(boxed(alloc, Refuses::Nothing, drops)?)?;
    views.push(boxed(alloc, refuses, drops)?)?;
    Ok(views)
}

/// Whether a record of 2s is refused; None where memory was.
fn is_refused<V: View>(alloc: Global, hypermap: &mut Hypermap<V>) -> Option<bool>
    requires { hypermap.old.kinds ≡ ListKind ∷ ListKind ∷ [] }
    ensures { hypermap.new.kinds ≡ ListKind ∷ ListKind ∷ [] }
{
    let first = inject(alloc, Kind::List, &[2]).ok()?;
    let second = inject(alloc, Kind::List, &[2]).ok()?;
    Some(hypermap.absorb_record(alloc, &[first, second]).is_err())
}

/// Whether a closed hypermap's kit has two reducers again, which hold nothing.
fn is_empty_again<V: View>(alloc: Global, hypermap: Hypermap<V>) -> bool
    requires { hypermap.kinds ≡ ListKind ∷ ListKind ∷ [] }
{
    let again = Hypermap::open(alloc, hypermap.close());
    again.len() == 2 && hold(&again, &[], &[])
}

/// Whether a record of 2s behind 1s is refused, and what is there then: these lists, and nothing after a close.
fn takes_record<V: View>(alloc: Global, views: Vec<V>, second: &[i64]) -> Option<(bool, bool)> {
    let mut hypermap = holding(alloc, views, 1)?;
    let refused = is_refused(alloc, &mut hypermap)?;
    let held = hold(&hypermap, &[1, 2], second);
    let empty = is_empty_again(alloc, hypermap);
    Some((refused, held && empty))
}

/// Whether a record of 2s behind 1s is refused by boxes, and what is there then.
fn boxes_take_record(alloc: Global, refuses: Refuses, second: &[i64]) -> Option<(bool, bool)> {
    let drops = Arc::new(alloc, AtomicUsize::new(0)).ok()?;
    let views = boxes(alloc, refuses, &drops).ok()?;
    takes_record(alloc, views, second)
}

#[test]
fn records_go_in_from_the_first(rt: HostRuntime) {
    let taken = boxes_take_record(rt.alloc(), Refuses::Nothing, &[1, 2]);
    assert_eq!(rt; taken, Some((false, true)));
    let refused = boxes_take_record(rt.alloc(), Refuses::Absorb, &[1]);
    assert_eq!(rt; refused, Some((true, true)));
}

/// Whether boxes fold so, and how many of them were dropped then.
fn boxes_fold_twice(alloc: Global) -> Option<(bool, usize)> {
    let drops = Arc::new(alloc, AtomicUsize::new(0)).ok()?;
    let left = boxes(alloc, Refuses::Absorb, &drops).ok()?;
    let right = boxes(alloc, Refuses::Nothing, &drops).ok()?;
    let folded = fold_views_twice(alloc, left, right)?;
    Some((folded, drops.load(Ordering::Relaxed)))
}

#[test]
fn refused_fold_goes_on(rt: HostRuntime) {
    assert_eq!(rt; boxes_fold_twice(rt.alloc()), Some((true, 4)));
}
