//! What reducers are worth goes to another hypermap, where it is known by short values.
ghost use Rattle.std.specs.Prelude.{◌≡◌, ◌<◌, ◌∷◌, [], List, ℕ, OnOk, IfSome, All, length, map, slice_set, true, false};
ghost use Rattle.monoid_laws.specs.declared.Kind.{Kind};
ghost use Rattle.monoid_laws.specs.Kinds.{operate, operate_all, identity_of, identities, meaning, AreWorths, IsMonoid, IsWorth};
ghost use Rattle.hypermaps.specs.Layer.{IsLayer, IsAt};
ghost use Rattle.view_pool.specs.Short.{value_in};

use crate::{Hypermap, note_use};
use std::alloc::AllocError;
use view_pool::{ShortValue, View, let_go_short};

/// Moves what `right` is worth, which is that value, into `left`, on its right, where that is done at once; whether it was, else both stay.
#[inline(always)]
fn move_known<V: View>(left: &mut V, right: &mut V, value: ShortValue) -> bool
    requires same_kind { V.kind_of left.old ≡ V.kind_of right.old }
    requires of_kind { IsWorth (V.kind_of left.old) (meaning (value_in value)) }
    requires known { V.worth_of right.old ≡ meaning (value_in value) }
    ensures left_kind { V.kind_of left.new ≡ V.kind_of left.old }
    ensures right_kind { V.kind_of right.new ≡ V.kind_of right.old }
    ensures moved { result ≡ true → V.worth_of left.new ≡ operate (V.kind_of left.old) (V.worth_of left.old) (V.worth_of right.old) }
    ensures emptied { result ≡ true → V.worth_of right.new ≡ identity_of (V.kind_of left.old) }
    ensures left_kept { result ≡ false → V.worth_of left.new ≡ V.worth_of left.old }
    ensures right_kept { result ≡ false → V.worth_of right.new ≡ V.worth_of right.old }
{
    let value = value.value();
    let done = left.absorb_at_once(&value);
    let_go_short(value);
    if !done {
        return false;
    }
    right.reset();
    true
}

/// Moves what reducer `r` is worth on the right, which is that value, to the left, where that is done at once; whether it was, else both
/// values stay.
#[inline(always)]
fn fold_known_at<V: View>(
    left: &mut Vec<V>,
    left_used: &mut Vec<usize>,
    right: &mut Vec<V>,
    r: usize,
    value: ShortValue,
) -> bool
    requires reducer_is { r < length right.old.items }
    requires kinds { map V.kind_of left.old.items ≡ map V.kind_of right.old.items }
    requires left_layer { IsLayer (map V.kind_of left.old.items) (map V.worth_of left.old.items) left_used.old.items }
    requires right_values { AreWorths (map V.kind_of right.old.items) (map V.worth_of right.old.items) }
    requires monoids { All IsMonoid (map V.kind_of left.old.items) }
    requires known { IsAt (map V.worth_of right.old.items) r (meaning (value_in value)) }
    ensures left_kinds { map V.kind_of left.new.items ≡ map V.kind_of left.old.items }
    ensures right_kinds { map V.kind_of right.new.items ≡ map V.kind_of right.old.items }
    ensures left_layer { IsLayer (map V.kind_of left.new.items) (map V.worth_of left.new.items) left_used.new.items }
    ensures product { operate_all (map V.kind_of left.old.items) (map V.worth_of left.new.items) (map V.worth_of right.new.items)
        ≡ operate_all (map V.kind_of left.old.items) (map V.worth_of left.old.items) (map V.worth_of right.old.items) }
    ensures moved { (c : Kind) → IsAt (map V.kind_of right.old.items) r c
        → result ≡ true → map V.worth_of right.new.items ≡ slice_set (map V.worth_of right.old.items) r (identity_of c) }
    ensures same { result ≡ false → map V.worth_of right.new.items ≡ map V.worth_of right.old.items }
{
    if note_use(left_used, r).is_err() {
        return false;
    }
    let l = &mut left[r];
    let q = &mut right[r];
    move_known(l, q, value)
}

/// Moves what two reducers are worth on the right, which are these values, to the left, as far as that is done at once; whether all of it
/// was. The reducers used on the right stay noted.
#[inline(always)]
fn fold_both<V: View>(
    left: &mut Vec<V>,
    left_used: &mut Vec<usize>,
    right: &mut Vec<V>,
    first: ShortValue,
    second: ShortValue,
) -> bool
    requires kinds { map V.kind_of left.old.items ≡ map V.kind_of right.old.items }
    requires left_layer { IsLayer (map V.kind_of left.old.items) (map V.worth_of left.old.items) left_used.old.items }
    requires right_values { AreWorths (map V.kind_of right.old.items) (map V.worth_of right.old.items) }
    requires monoids { All IsMonoid (map V.kind_of left.old.items) }
    requires known { map V.worth_of right.old.items ≡ meaning (value_in first) ∷ meaning (value_in second) ∷ [] }
    ensures left_kinds { map V.kind_of left.new.items ≡ map V.kind_of left.old.items }
    ensures right_kinds { map V.kind_of right.new.items ≡ map V.kind_of right.old.items }
    ensures left_layer { IsLayer (map V.kind_of left.new.items) (map V.worth_of left.new.items) left_used.new.items }
    ensures right_layer { (used : List ℕ) → IsLayer (map V.kind_of right.old.items) (map V.worth_of right.old.items) used
        → IsLayer (map V.kind_of right.new.items) (map V.worth_of right.new.items) used }
    ensures product { operate_all (map V.kind_of left.old.items) (map V.worth_of left.new.items) (map V.worth_of right.new.items)
        ≡ operate_all (map V.kind_of left.old.items) (map V.worth_of left.old.items) (map V.worth_of right.old.items) }
    ensures emptied { result ≡ true → map V.worth_of right.new.items ≡ identities (map V.kind_of right.old.items) }
{
    if !fold_known_at(left, left_used, right, 0, first) {
        return false;
    }
    fold_known_at(left, left_used, right, 1, second)
}

/// The same of a right side with one reducer, which is worth that.
#[inline(always)]
fn fold_alone<V: View>(
    left: &mut Vec<V>,
    left_used: &mut Vec<usize>,
    right: &mut Vec<V>,
    value: ShortValue,
) -> bool
    requires kinds { map V.kind_of left.old.items ≡ map V.kind_of right.old.items }
    requires left_layer { IsLayer (map V.kind_of left.old.items) (map V.worth_of left.old.items) left_used.old.items }
    requires right_values { AreWorths (map V.kind_of right.old.items) (map V.worth_of right.old.items) }
    requires monoids { All IsMonoid (map V.kind_of left.old.items) }
    requires known { map V.worth_of right.old.items ≡ meaning (value_in value) ∷ [] }
    ensures left_kinds { map V.kind_of left.new.items ≡ map V.kind_of left.old.items }
    ensures right_kinds { map V.kind_of right.new.items ≡ map V.kind_of right.old.items }
    ensures left_layer { IsLayer (map V.kind_of left.new.items) (map V.worth_of left.new.items) left_used.new.items }
    ensures right_layer { (used : List ℕ) → IsLayer (map V.kind_of right.old.items) (map V.worth_of right.old.items) used
        → IsLayer (map V.kind_of right.new.items) (map V.worth_of right.new.items) used }
    ensures product { operate_all (map V.kind_of left.old.items) (map V.worth_of left.new.items) (map V.worth_of right.new.items)
        ≡ operate_all (map V.kind_of left.old.items) (map V.worth_of left.old.items) (map V.worth_of right.old.items) }
    ensures emptied { result ≡ true → map V.worth_of right.new.items ≡ identities (map V.kind_of right.old.items) }
{
    fold_known_at(left, left_used, right, 0, value)
}

impl<V: View> Hypermap<V> {
    /// The value of one reducer, where it is short.
    #[inline(always)]
    pub fn short(&self, reducer: usize) -> Option<ShortValue>
        requires { reducer < length self.now.kinds }
        ensures { IfSome result (λ v. IsAt self.now.worths reducer (meaning (value_in v))) }
    {
        self.views[reducer].short()
    }

    /// Puts what `right` is worth on the right of this one, and leaves `right` at the identities, as `fold` does, where `right` has two
    /// reducers that are worth these.
    ///
    /// Where memory is refused, some reducers have moved to the left and the others have not.
    #[inline(always)]
    pub fn fold_two(
        &mut self,
        right: &mut Hypermap<V>,
        first: ShortValue,
        second: ShortValue,
    ) -> Result<(), AllocError>
        requires kinds { self.old.kinds ≡ right.old.kinds }
        requires monoids { All IsMonoid self.old.kinds }
        requires known { right.old.worths ≡ meaning (value_in first) ∷ meaning (value_in second) ∷ [] }
        ensures left_kinds { self.new.kinds ≡ self.old.kinds }
        ensures right_kinds { right.new.kinds ≡ right.old.kinds }
        ensures product { operate_all self.old.kinds self.new.worths right.new.worths
            ≡ operate_all self.old.kinds self.old.worths right.old.worths }
        ensures folded { OnOk result (self.new.worths
            ≡ operate_all self.old.kinds self.old.worths right.old.worths) }
        ensures emptied { OnOk result (right.new.worths ≡ identities self.old.kinds) }
    {
        if fold_both(
            &mut self.views,
            &mut self.used,
            &mut right.views,
            first,
            second,
        ) {
            return Ok(());
        }
        self.fold(right)
    }

    /// The same where `right` has one reducer, which is worth that.
    pub fn fold_one(&mut self, right: &mut Hypermap<V>, value: ShortValue) -> Result<(), AllocError>
        requires kinds { self.old.kinds ≡ right.old.kinds }
        requires monoids { All IsMonoid self.old.kinds }
        requires known { right.old.worths ≡ meaning (value_in value) ∷ [] }
        ensures left_kinds { self.new.kinds ≡ self.old.kinds }
        ensures right_kinds { right.new.kinds ≡ right.old.kinds }
        ensures product { operate_all self.old.kinds self.new.worths right.new.worths
            ≡ operate_all self.old.kinds self.old.worths right.old.worths }
        ensures folded { OnOk result (self.new.worths
            ≡ operate_all self.old.kinds self.old.worths right.old.worths) }
        ensures emptied { OnOk result (right.new.worths ≡ identities self.old.kinds) }
    {
        if fold_alone(&mut self.views, &mut self.used, &mut right.views, value) {
            return Ok(());
        }
        self.fold(right)
    }
}
