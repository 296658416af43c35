//! Reducers to views, each opened at its first use.
#![tactic(auto)]

ghost use Rattle.std.specs.Prelude.{◌≡◌, ℕ, ◌≤◌, ◌<◌, ◌+◌, OnOk, OnErr, IfOk, IfErr, IsOk, IsSome, IsTrue, IsNone, IfSome, length, List};
ghost use Rattle.std.specs.Prelude.{map, All, ◌++◌, ◌∷◌, [], slice_index_or, slice_set, ◌↔◌, Bool, false, true, not, vec_len, nat_eq, ◌⊎◌};
ghost use Rattle.std.specs.List.{list_any};
ghost use Rattle.monoid_laws.specs.Worth.{Worth};
ghost use Rattle.monoid_laws.specs.declared.Kind.{Kind};
ghost use Rattle.monoid_laws.specs.Kinds.{operate, identity_of, identities, meaning, element_of, IsWorth, AreWorths, arity, names_element};
ghost use Rattle.monoid_laws.specs.Kinds.{refusal, operate_all, IsMonoid};
ghost use Rattle.monoid_laws.specs.declared.InjectError.TheVariants.{NoMemory};
ghost use Rattle.hypermaps.specs.Layer.{Layer, IsLayer, IsAt, operate_first, used_also};

mod known;

use monoid_laws::{InjectError, Val};
use reducer_values::copy_of;
use std::alloc::{AllocError, Global};
use std::marker::Model;
use std::mem;
use view_pool::{Kit, View};

/// The views of a kit, and the reducers that were used, in the order of their first use.
#[derive(Drop)]
pub struct Hypermap<V: View = Box<dyn View>> {
    views: Vec<V>,
    used: Vec<usize>,
}

impl<V: View> Model for Hypermap<V> {
    ghost Value = { Layer };

    ghost view = { λ s. record { kinds = map V.kind_of s.views.items; worths = map V.worth_of s.views.items } };

    ghost invariant = { λ s. IsLayer (map V.kind_of s.views.items) (map V.worth_of s.views.items) s.used.items };
}

/// Whether a reducer was used. The used ones are so few that looking through them is quicker than a hash.
#[tactic(auto, using(crate::proofs::Layers::any_swap))]
fn is_used(used: &[usize], reducer: usize) -> bool
    ensures used { result ≡ list_any (nat_eq reducer) used.now }
{
    used.contains(&reducer)
}

/// Whether a reducer stands among the used ones at its own number's place, as all do in a program that uses them in order.
#[inline(always)]
fn is_in_order(used: &[usize], reducer: usize) -> bool
    ensures used { result ≡ true → list_any (nat_eq reducer) used.now ≡ true }
{
    match used.get(reducer) {
        Some(there) => *there == reducer,
        None => false,
    }
}

/// Notes that a reducer is used.
#[inline(always)]
fn note_use(used: &mut Vec<usize>, reducer: usize) -> Result<(), AllocError>
    ensures keys { OnOk result (used.new.items ≡ used_also used.old.items reducer) }
    ensures same { OnErr result (used.new.items ≡ used.old.items) }
{
    if is_in_order(used, reducer) {
        return Ok(());
    }
    note_anew(used, reducer)
}

/// Notes that a reducer is used that doesn't stand at its own number's place. It is kept out of the quick way of updates.
#[inline(never)]
fn note_anew(used: &mut Vec<usize>, reducer: usize) -> Result<(), AllocError>
    ensures keys { OnOk result (used.new.items ≡ used_also used.old.items reducer) }
    ensures same { OnErr result (used.new.items ≡ used.old.items) }
{
    if is_new_among_few(used, reducer) {
        return push_use(used, reducer);
    }
    note_among_all(used, reducer)
}

/// Whether a reducer stands nowhere among the used ones, of which there is none, or one alone: so it is at the first uses in a layer
/// of a memo instance.
#[inline(always)]
fn is_new_among_few(used: &[usize], reducer: usize) -> bool
    ensures new { result ≡ true → list_any (nat_eq reducer) used.now ≡ false }
{
    match used.len() {
        0 => true,
        1 => used[0] != reducer,
        _ => false,
    }
}

/// Puts a reducer behind the used ones, among which it isn't.
#[inline(always)]
fn push_use(used: &mut Vec<usize>, reducer: usize) -> Result<(), AllocError>
    requires new { list_any (nat_eq reducer) used.old.items ≡ false }
    ensures keys { OnOk result (used.new.items ≡ used_also used.old.items reducer) }
    ensures same { OnErr result (used.new.items ≡ used.old.items) }
{
    match used.push(reducer) {
        Ok(()) => Ok(()),
        Err(_) => Err(AllocError),
    }
}

/// Notes that a reducer is used, by a look at all that are.
#[inline(never)]
fn note_among_all(used: &mut Vec<usize>, reducer: usize) -> Result<(), AllocError>
    ensures keys { OnOk result (used.new.items ≡ used_also used.old.items reducer) }
    ensures same { OnErr result (used.new.items ≡ used.old.items) }
{
    if is_used(used, reducer) {
        return Ok(());
    }
    push_use(used, reducer)
}

/// Notes that a reducer is used; whether it wasn't before.
fn note_first(used: &mut Vec<usize>, reducer: usize) -> Result<bool, AllocError>
    ensures keys { OnOk result (used.new.items ≡ used_also used.old.items reducer) }
    ensures added { IfOk result (λ fresh. fresh ≡ not (list_any (nat_eq reducer) used.old.items)) }
    ensures same { OnErr result (used.new.items ≡ used.old.items) }
{
    if is_in_order(used, reducer) || is_used(used, reducer) {
        return Ok(false);
    }
    match used.push(reducer) {
        Ok(()) => Ok(true),
        Err(_) => Err(AllocError),
    }
}

/// Moves what `right` is worth into `left`, on its right.
fn move_one<V: View>(left: &mut V, right: &mut V, fresh: bool) -> Result<(), AllocError>
    requires same_kind { V.kind_of left.old ≡ V.kind_of right.old }
    requires right_value { IsWorth (V.kind_of right.old) (V.worth_of right.old) }
    requires monoid { IsMonoid (V.kind_of left.old) }
    requires shut { fresh ≡ true → V.worth_of left.old ≡ identity_of (V.kind_of left.old) }
    ensures left_kind { V.kind_of left.new ≡ V.kind_of left.old }
    ensures right_kind { V.kind_of right.new ≡ V.kind_of right.old }
    ensures moved { OnOk result (V.worth_of left.new ≡ operate (V.kind_of left.old) (V.worth_of left.old) (V.worth_of right.old)) }
    ensures emptied { OnOk result (V.worth_of right.new ≡ identity_of (V.kind_of left.old)) }
    ensures left_kept { OnErr result (V.worth_of left.new ≡ V.worth_of left.old) }
    ensures right_kept { OnErr result (V.worth_of right.new ≡ V.worth_of right.old) }
{
    if fresh {
        mem::swap(left, right);
        return Ok(());
    }
    let value = right.take();
    if left.absorb_at_once(&value) {
        return Ok(());
    }
    absorb_taken(left, right, value)
}

/// The same of a value that was taken from `right`, where that may take memory. It is kept out of the quick way of folds.
#[inline(never)]
fn absorb_taken<V: View>(left: &mut V, right: &mut V, value: Val) -> Result<(), AllocError>
    requires same_kind { V.kind_of left.old ≡ V.kind_of right.old }
    requires of_kind { IsWorth (V.kind_of left.old) (meaning value) }
    requires monoid { IsMonoid (V.kind_of left.old) }
    requires empty { V.worth_of right.old ≡ identity_of (V.kind_of right.old) }
    ensures left_kind { V.kind_of left.new ≡ V.kind_of left.old }
    ensures right_kind { V.kind_of right.new ≡ V.kind_of right.old }
    ensures moved { OnOk result (V.worth_of left.new ≡ operate (V.kind_of left.old) (V.worth_of left.old) (meaning value)) }
    ensures emptied { OnOk result (V.worth_of right.new ≡ identity_of (V.kind_of left.old)) }
    ensures left_kept { OnErr result (V.worth_of left.new ≡ V.worth_of left.old) }
    ensures right_kept { OnErr result (V.worth_of right.new ≡ meaning value) }
{
    match left.absorb(value) {
        Ok(()) => Ok(()),
        Err(value) => {
            put_back(right, value);
            Err(AllocError)
        }
    }
}

/// Puts a value back into the view that it was taken from. It is kept out of the quick way of folds.
#[inline(never)]
fn put_back<V: View>(view: &mut V, value: Val)
    requires empty { V.worth_of view.old ≡ identity_of (V.kind_of view.old) }
    requires of_kind { IsWorth (V.kind_of view.old) (meaning value) }
    ensures kind { V.kind_of view.new ≡ V.kind_of view.old }
    ensures back { V.worth_of view.new ≡ operate (V.kind_of view.old) (V.worth_of view.old) (meaning value) }
{
    let _ = view.absorb(value);
}

/// Moves what reducer `r` is worth on the right to the left.
fn fold_at<V: View>(
    left: &mut Vec<V>,
    left_used: &mut Vec<usize>,
    right: &mut Vec<V>,
    r: usize,
) -> Result<(), AllocError>
    requires reducer_is { r < length right.old.items }
    requires kinds { map V.kind_of left.old.items ≡ map V.kind_of right.old.items }
    requires left_layer { IsLayer (map V.kind_of left.old.items) (map V.worth_of left.old.items) left_used.old.items }
    requires right_values { AreWorths (map V.kind_of right.old.items) (map V.worth_of right.old.items) }
    requires monoids { All IsMonoid (map V.kind_of left.old.items) }
    ensures left_kinds { map V.kind_of left.new.items ≡ map V.kind_of left.old.items }
    ensures right_kinds { map V.kind_of right.new.items ≡ map V.kind_of right.old.items }
    ensures left_layer { IsLayer (map V.kind_of left.new.items) (map V.worth_of left.new.items) left_used.new.items }
    ensures product { operate_all (map V.kind_of left.new.items) (map V.worth_of left.new.items) (map V.worth_of right.new.items)
        ≡ operate_all (map V.kind_of left.old.items) (map V.worth_of left.old.items) (map V.worth_of right.old.items) }
    ensures moved { (c : Kind) → IsAt (map V.kind_of right.old.items) r c
        → OnOk result (map V.worth_of right.new.items ≡ slice_set (map V.worth_of right.old.items) r (identity_of c)) }
    ensures same { OnErr result (map V.worth_of right.new.items ≡ map V.worth_of right.old.items) }
{
    let Ok(fresh) = note_first(left_used, r) else {
        return Err(AllocError);
    };
    let l = &mut left[r];
    let q = &mut right[r];
    move_one(l, q, fresh)
}

/// Moves what the used reducers are worth on the right to the left.
fn fold_used<V: View>(
    left: &mut Vec<V>,
    left_used: &mut Vec<usize>,
    right: &mut Vec<V>,
    used: &[usize],
) -> Result<(), AllocError>
    requires kinds { map V.kind_of left.old.items ≡ map V.kind_of right.old.items }
    requires left_layer { IsLayer (map V.kind_of left.old.items) (map V.worth_of left.old.items) left_used.old.items }
    requires right_layer { IsLayer (map V.kind_of right.old.items) (map V.worth_of right.old.items) used.now }
    requires monoids { All IsMonoid (map V.kind_of left.old.items) }
    ensures left_kinds { map V.kind_of left.new.items ≡ map V.kind_of left.old.items }
    ensures right_kinds { map V.kind_of right.new.items ≡ map V.kind_of right.old.items }
    ensures left_layer { IsLayer (map V.kind_of left.new.items) (map V.worth_of left.new.items) left_used.new.items }
    ensures right_layer { IsLayer (map V.kind_of right.new.items) (map V.worth_of right.new.items) used.now }
    ensures product { operate_all (map V.kind_of left.old.items) (map V.worth_of left.new.items) (map V.worth_of right.new.items)
        ≡ operate_all (map V.kind_of left.old.items) (map V.worth_of left.old.items) (map V.worth_of right.old.items) }
    ensures emptied { OnOk result (IsLayer (map V.kind_of right.new.items) (map V.worth_of right.new.items) []) }
{
    for place in 0..used.len() {
        fold_at(left, left_used, right, used[place])?;
    }
    Ok(())
}

/// Combines a value on the right of what reducer `r` is worth, or hands it back.
fn absorb_at<V: View>(
    views: &mut Vec<V>,
    used: &mut Vec<usize>,
    r: usize,
    value: Val,
) -> Result<(), Val>
    requires reducer_is { r < length views.old.items }
    requires layer { IsLayer (map V.kind_of views.old.items) (map V.worth_of views.old.items) used.old.items }
    requires of_kind { (c : Kind) → IsAt (map V.kind_of views.old.items) r c → IsWorth c (meaning value) }
    ensures kinds { map V.kind_of views.new.items ≡ map V.kind_of views.old.items }
    ensures layer { IsLayer (map V.kind_of views.new.items) (map V.worth_of views.new.items) used.new.items }
    ensures absorbed { (c : Kind) (x : Worth) → IsAt (map V.kind_of views.old.items) r c → IsAt (map V.worth_of views.old.items) r x
        → OnOk result (map V.worth_of views.new.items ≡ slice_set (map V.worth_of views.old.items) r (operate c x (meaning value))) }
    ensures refused { OnErr result (map V.worth_of views.new.items ≡ map V.worth_of views.old.items) }
{
    if note_use(used, r).is_err() {
        return Err(value);
    }
    let view = &mut views[r];
    view.absorb(value)
}

/// Combines a lent value on the right of what reducer `r` is worth, where that is done at once; whether it was.
#[inline(always)]
fn absorb_at_once<V: View>(views: &mut Vec<V>, used: &mut Vec<usize>, r: usize, value: &Val) -> bool
    requires reducer_is { r < length views.old.items }
    requires layer { IsLayer (map V.kind_of views.old.items) (map V.worth_of views.old.items) used.old.items }
    requires of_kind { (c : Kind) → IsAt (map V.kind_of views.old.items) r c → IsWorth c (meaning value.now) }
    ensures kinds { map V.kind_of views.new.items ≡ map V.kind_of views.old.items }
    ensures layer { IsLayer (map V.kind_of views.new.items) (map V.worth_of views.new.items) used.new.items }
    ensures absorbed { (c : Kind) (x : Worth) → IsAt (map V.kind_of views.old.items) r c → IsAt (map V.worth_of views.old.items) r x
        → result ≡ true → map V.worth_of views.new.items ≡ slice_set (map V.worth_of views.old.items) r (operate c x (meaning value.now)) }
    ensures same { result ≡ false → map V.worth_of views.new.items ≡ map V.worth_of views.old.items }
{
    if note_use(used, r).is_err() {
        return false;
    }
    let view = &mut views[r];
    view.absorb_at_once(value)
}

/// The kit of these views, which are there already.
fn kit_at_identity<V: View>(views: Vec<V>) -> Kit<V>
    requires at_identity { All (λ v. V.worth_of v ≡ identity_of (V.kind_of v)) views.items }
    ensures kit { result ≡ map V.kind_of views.items }
{
    Kit::new(views)
}

/// The kit of these views, each put at its identity; where none was used, they are there already.
fn kit_of<V: View>(views: Vec<V>, used: &[usize]) -> Kit<V>
    requires layer { IsLayer (map V.kind_of views.items) (map V.worth_of views.items) used.now }
    ensures kit { result ≡ map V.kind_of views.items }
{
    if used.is_empty() {
        kit_at_identity(views)
    } else {
        Kit::reset(views)
    }
}

impl<V: View> Hypermap<V> {
    /// A hypermap in which no reducer was used.
    pub fn open(alloc: Global, kit: Kit<V>) -> Self
        ensures { result ≡ record { kinds = kit; worths = identities kit } }
    {
        Hypermap::open_in(kit, Vec::new(alloc))
    }

    /// A hypermap in which no reducer was used, with that empty list for those that will be. It takes no memory.
    pub fn open_in(kit: Kit<V>, used: Vec<usize>) -> Self
        requires { used.items ≡ [] }
        ensures { result ≡ record { kinds = kit; worths = identities kit } }
    {
        let views = kit.into_views();
        Hypermap { views, used }
    }

    /// How many reducers there are; each has a value of its kind, which is what the laws ask.
    pub fn len(&self) -> usize
        ensures count { result ≡ length self.now.kinds }
        ensures worths { AreWorths self.now.kinds self.now.worths }
    {
        self.views.len()
    }

    /// How many reducers were used: for who makes room for what they gave.
    pub fn used_count(&self) -> usize {
        self.used.len()
    }

    /// The kit, each view at its identity again.
    pub fn close(self) -> Kit<V>
        ensures { result ≡ self.kinds }
    {
        let (kit, _) = self.close_in();
        kit
    }

    /// The kit, each view at its identity again, and the list of the reducers that were used, for another hypermap. What it holds
    /// doesn't matter.
    pub fn close_in(self) -> (Kit<V>, Vec<usize>)
        ensures { result.0 ≡ self.kinds }
    {
        let Hypermap { views, used } = self;
        (kit_of(views, &used), used)
    }

    /// The value of one reducer. Want of memory is the only error.
    #[inline(always)]
    pub fn value(&self, reducer: usize) -> Result<Val, AllocError>
        requires { reducer < length self.now.kinds }
        ensures { IfOk result (λ v. IsAt self.now.worths reducer (meaning v)) }
    {
        self.views[reducer].export()
    }

    /// Combines the element that the numbers name on the right of the reducer's value. An error is BadElement, where a table
    /// has no such element, or NoMemory; all values stay.
    #[inline(always)]
    pub fn update(&mut self, reducer: usize, numbers: &[i64]) -> Result<(), InjectError>
        requires reducer_is { reducer < length self.old.kinds }
        requires count { (c : Kind) → IsAt self.old.kinds reducer c → length numbers.now ≡ arity c }
        ensures kinds { self.new.kinds ≡ self.old.kinds }
        ensures done { (c : Kind) (x : Worth) → IsAt self.old.kinds reducer c
            → IsAt self.old.worths reducer x
            → OnOk result (
            self.new.worths ≡ slice_set self.old.worths reducer (operate c x (element_of c numbers.now))) }
        ensures named { (c : Kind) → IsAt self.old.kinds reducer c
            → OnOk result (names_element c numbers.now ≡ true) }
        ensures refused { OnErr result (self.new.worths ≡ self.old.worths) }
        ensures cause { (c : Kind) → IsAt self.old.kinds reducer c
            → IfErr result (λ e. (e ≡ NoMemory) ⊎ (e ≡ refusal c numbers.now)) }
    {
        if note_use(&mut self.used, reducer).is_err() {
            return Err(InjectError::NoMemory);
        }
        let view = &mut self.views[reducer];
        view.update(numbers)
    }

    /// Combines a copy of a value on the right of one reducer's value; where memory is refused all values stay.
    pub fn absorb_one(
        &mut self,
        alloc: Global,
        reducer: usize,
        value: &Val,
    ) -> Result<(), AllocError>
        requires reducer_is { reducer < length self.old.kinds }
        requires of_kind { (c : Kind) → IsAt self.old.kinds reducer c
            → IsWorth c (meaning value.now) }
        ensures kinds { self.new.kinds ≡ self.old.kinds }
        ensures absorbed { (c : Kind) (x : Worth) → IsAt self.old.kinds reducer c
            → IsAt self.old.worths reducer x
            → OnOk result (
            self.new.worths ≡ slice_set self.old.worths reducer (operate c x (meaning value.now))) }
        ensures refused { OnErr result (self.new.worths ≡ self.old.worths) }
    {
        let copy = copy_of(alloc, value)?;
        self.absorb_value(reducer, copy)
    }

    /// Combines a value on the right of one reducer's value; where memory is refused all values stay.
    #[inline(always)]
    pub fn absorb_value(&mut self, reducer: usize, value: Val) -> Result<(), AllocError>
        requires reducer_is { reducer < length self.old.kinds }
        requires of_kind { (c : Kind) → IsAt self.old.kinds reducer c → IsWorth c (meaning value) }
        ensures kinds { self.new.kinds ≡ self.old.kinds }
        ensures absorbed { (c : Kind) (x : Worth) → IsAt self.old.kinds reducer c
            → IsAt self.old.worths reducer x
            → OnOk result (
            self.new.worths ≡ slice_set self.old.worths reducer (operate c x (meaning value))) }
        ensures refused { OnErr result (self.new.worths ≡ self.old.worths) }
    {
        match absorb_at(&mut self.views, &mut self.used, reducer, value) {
            Ok(()) => Ok(()),
            Err(_) => Err(AllocError),
        }
    }

    /// Combines a lent value on the right of one reducer's value, where that takes no memory and is done at once; whether it was, else all
    /// values stay.
    #[inline(always)]
    pub fn absorb_at_once(&mut self, reducer: usize, value: &Val) -> bool
        requires reducer_is { reducer < length self.old.kinds }
        requires of_kind { (c : Kind) → IsAt self.old.kinds reducer c → IsWorth c (meaning value.now) }
        ensures kinds { self.new.kinds ≡ self.old.kinds }
        ensures absorbed { (c : Kind) (x : Worth) → IsAt self.old.kinds reducer c
            → IsAt self.old.worths reducer x → result ≡ true
            → self.new.worths ≡ slice_set self.old.worths reducer (operate c x (meaning value.now)) }
        ensures same { result ≡ false → self.new.worths ≡ self.old.worths }
    {
        absorb_at_once(&mut self.views, &mut self.used, reducer, value)
    }

    /// A copy of the value of a reducer that was used; none where it wasn't, and stands at its identity. Want of memory is the
    /// only error.
    #[inline(always)]
    pub fn used_value(&self, reducer: usize) -> Result<Option<Val>, AllocError>
        requires reducer_is { reducer < length self.now.kinds }
        ensures used { IfOk result (λ v. IfSome v (λ v. IsAt self.now.worths reducer (meaning v))) }
        ensures unused { IfOk result (λ v. IsNone v → (c : Kind) (w : Worth)
            → IsAt self.now.kinds reducer c → IsAt self.now.worths reducer w → w ≡ identity_of c) }
    {
        if !is_in_order(&self.used, reducer) && !is_used(&self.used, reducer) {
            return Ok(None);
        }
        Ok(Some(self.views[reducer].export()?))
    }

    /// Combines a record's values, one for each reducer, on the right of the reducers' values.
    ///
    /// Where memory is refused, some of the first values are in and the others are not.
    pub fn absorb_record(&mut self, alloc: Global, values: &[Val]) -> Result<(), AllocError>
        requires of_kinds { AreWorths self.old.kinds (map meaning values.now) }
        ensures kinds { self.new.kinds ≡ self.old.kinds }
        ensures absorbed { OnOk result (self.new.worths
            ≡ operate_all self.old.kinds self.old.worths (map meaning values.now)) }
        ensures partly { OnErr result ((n : ℕ) × (self.new.worths
            ≡ operate_first n self.old.kinds self.old.worths (map meaning values.now))) }
    {
        for i in 0..values.len() {
            let copy = copy_of(alloc, &values[i])?;
            match absorb_at(&mut self.views, &mut self.used, i, copy) {
                Ok(()) => {}
                Err(_) => return Err(AllocError),
            }
        }
        Ok(())
    }

    /// Puts what `right` is worth on the right of this one, and leaves `right` at the identities.
    ///
    /// Where memory is refused, some reducers have moved to the left and the others have not.
    pub fn fold(&mut self, right: &mut Hypermap<V>) -> Result<(), AllocError>
        requires kinds { self.old.kinds ≡ right.old.kinds }
        requires monoids { All IsMonoid self.old.kinds }
        ensures left_kinds { self.new.kinds ≡ self.old.kinds }
        ensures right_kinds { right.new.kinds ≡ right.old.kinds }
        ensures product { operate_all self.old.kinds self.new.worths right.new.worths
            ≡ operate_all self.old.kinds self.old.worths right.old.worths }
        ensures folded { OnOk result (self.new.worths
            ≡ operate_all self.old.kinds self.old.worths right.old.worths) }
        ensures emptied { OnOk result (right.new.worths ≡ identities self.old.kinds) }
    {
        fold_used(
            &mut self.views,
            &mut self.used,
            &mut right.views,
            &right.used,
        )?;
        right.used.clear();
        Ok(())
    }
}
