// Layers of most leaves: two reducers were used, and no more than two cells were read. Their record is made in one go, each part where it
// will lie, and no part goes through another result.
ghost use Rattle.std.specs.Prelude.{true, ◌≡◌, ◌∷◌, [], ◌&&◌, ◌<◌, ◌≤◌, suc, IfSome, OnErr, OnOk, OnSome, All, length, map, slice_get, vec_len, vec_capacity};
ghost use Rattle.monoid_laws.specs.Kinds.{IsMonoid, identities, identity_of, meaning};
ghost use Rattle.hypermaps.specs.Layer.{IsAt};
ghost use Rattle.evaluation.specs.Short.{note_of};
ghost use Rattle.instance_records.specs.Gifts.{given_by};
ghost use Rattle.instance_records.specs.Parts.{entries_in};
ghost use Rattle.instance_records.specs.Readings.{all_of};
ghost use Rattle.positions.specs.Layers.{covered, kept_behind, kept_reads};
ghost use Rattle.positions.specs.Tallies.{touched_from};
ghost use Rattle.positions.specs.Values.{same_worth};
ghost use Rattle.layers.specs.Folds.{HasSameProduct, IsSameButWorths};
ghost use Rattle.layers.specs.Recordings.{recorded};
ghost use Rattle.view_pool.specs.Short.{value_in};

use crate::absorbing::push_shared;
use crate::joining::flag_all;
use crate::layer::Layer;
use crate::recording::{Opened, are_of_few_columns, few_reads};
use evaluation::reading::Reading;
use hypermaps::Hypermap;
use instance_records::entries::Entries;
use instance_records::gift::Gift;
use instance_records::readings::Readings;
use instance_records::record::Record;
use instance_records::short_list::ShortList;
use linked_program::checked::Checked;
use monoid_laws::Kind;
use positions::heights::height;
use positions::identities::is_identity;
use std::alloc::AllocError;
use view_pool::{ShortValue, View, let_go_short};

/// What lies at hand of a record: what the instance gave to the two reducers, how many instances were nested, and the value.
#[derive(Clone, Copy)]
pub(crate) struct Leaf {
    pub(crate) first: ShortValue,
    pub(crate) second: ShortValue,
    pub(crate) levels: u32,
    pub(crate) value: i64,
}

impl<V: View> Layer<V> {
    /// What the record of an instance that is over with that value is made of, where its layer is one of most leaves, and what it gave to
    /// the two reducers is short.
    #[inline(always)]
    pub(crate) fn leaf(&self, program: &Checked, value: i64) -> Option<Leaf>
        requires kinds { self.now.kinds ≡ program.now.kinds }
        ensures few { OnSome result (length self.now.notes ≤ 2) }
        ensures kept { OnSome result (kept_reads self.now ≡ self.now.notes) }
        ensures levels { IfSome result (λ l. l.levels ≡ suc self.now.deepest) }
        ensures value { IfSome result (λ l. l.value ≡ value) }
        ensures worths { IfSome result (λ l. self.now.worths ≡ meaning (value_in l.first) ∷ meaning (value_in l.second) ∷ []) }
        ensures touched { IfSome result (λ l. touched_from 0 self.now.kinds self.now.worths
            ≡ (0, meaning (value_in l.first)) ∷ (1, meaning (value_in l.second)) ∷ []) }
    {
        if !self.is_of_few(program) {
            return None;
        }
        let levels = self.deepest.checked_add(1)?;
        let values = two_values(&self.hypermap, program.kinds())?;
        Some(Leaf {
            first: values.0,
            second: values.1,
            levels,
            value,
        })
    }

    /// Whether no more than two readings were made, two of them of cells in different columns, and both reducers of a program of two were used.
    #[inline(always)]
    #[tactic(auto, using(crate::proofs::Alone::two_alone))]
    pub(crate) fn is_of_few(&self, program: &Checked) -> bool
        ensures kinds { result ≡ true → length program.now.kinds ≡ 2 }
        ensures notes { result ≡ true → length self.now.notes ≤ 2 }
        ensures kept { result ≡ true → kept_reads self.now ≡ self.now.notes }
    {
        if program.kinds().len() != 2 || self.hypermap.used_count() != 2 {
            return false;
        }
        self.shared.is_empty() && are_of_few_columns(self.notes.readings())
    }

    /// Puts a layer of no more than two readings, whose two reducers are worth these, and which becomes a record, behind this, and leaves
    /// its views at the identities. Where memory is refused, some reducers have moved to this one and the others have not, and nothing else
    /// has changed.
    #[inline(always)]
    pub(crate) fn cover_of_few(
        &mut self,
        right: &mut Layer<V>,
        first: ShortValue,
        second: ShortValue,
    ) -> Result<(), AllocError>
        requires kinds { self.old.kinds ≡ right.old.kinds }
        requires monoids { All IsMonoid self.old.kinds }
        requires worths { right.old.worths ≡ meaning (value_in first) ∷ meaning (value_in second) ∷ [] }
        requires few { length right.old.notes ≤ 2 }
        requires kept { kept_reads right.old ≡ right.old.notes }
        ensures covered { OnOk result (self.new ≡ covered self.old right.old) }
        ensures right_kinds { right.new.kinds ≡ right.old.kinds }
        ensures right_notes { OnOk result (right.new.notes ≡ right.old.notes) }
        ensures emptied { OnOk result (right.new.worths ≡ identities right.old.kinds) }
        ensures left_kept { OnErr result (IsSameButWorths self.old self.new) }
        ensures right_kept { OnErr result (IsSameButWorths right.old right.new) }
        ensures product { OnErr result (HasSameProduct self.old right.old self.new right.new) }
    {
        self.shared.reserve(1)?;
        self.hypermap.fold_two(&mut right.hypermap, first, second)?;
        push_few(self.keeps, &mut self.shared, right.notes.readings());
        flag_all(&mut self.entered, &right.entered);
        self.deepest = self.deepest.max(right.deepest);
        Ok(())
    }
}

/// Puts no more than two readings behind those that a layer shares, for which there is room, if it keeps any.
#[inline(always)]
pub(crate) fn push_few(keeps: bool, shared: &mut Vec<Readings>, found: &[Reading])
    requires room { vec_len shared.old < vec_capacity shared.old }
    requires few { length found.now ≤ 2 }
    ensures pushed { all_of shared.new.items
        ≡ kept_behind keeps (all_of shared.old.items) (map note_of found.now) }
{
    if keeps {
        push_shared(shared, few_reads(found));
    }
}

/// What two reducers are worth, where both values are short, and neither is the identity.
#[inline(always)]
#[tactic(auto, using(crate::proofs::Few::two_worths))]
fn two_values<V: View>(hypermap: &Hypermap<V>, kinds: &[Kind]) -> Option<(ShortValue, ShortValue)>
    requires kinds { hypermap.now.kinds ≡ kinds.now }
    requires two { length kinds.now ≡ 2 }
    ensures worths { IfSome result (λ v. hypermap.now.worths ≡ meaning (value_in v.0) ∷ meaning (value_in v.1) ∷ []) }
    ensures touched { IfSome result (λ v. touched_from 0 hypermap.now.kinds hypermap.now.worths
        ≡ (0, meaning (value_in v.0)) ∷ (1, meaning (value_in v.1)) ∷ []) }
{
    let _ = hypermap.len();
    let first = hypermap.short(0)?;
    let second = hypermap.short(1)?;
    if are_touched(hypermap, kinds, first, second) {
        return Some((first, second));
    }
    None
}

/// Whether neither of these values of the two reducers is the identity.
#[inline(always)]
fn are_touched<V: View>(
    hypermap: &Hypermap<V>,
    kinds: &[Kind],
    first: ShortValue,
    second: ShortValue,
) -> bool
    requires kinds { hypermap.now.kinds ≡ kinds.now }
    requires two { length kinds.now ≡ 2 }
    requires first { IsAt hypermap.now.worths 0 (meaning (value_in first)) }
    requires second { IsAt hypermap.now.worths 1 (meaning (value_in second)) }
    ensures touched { result ≡ true → touched_from 0 hypermap.now.kinds hypermap.now.worths
        ≡ (0, meaning (value_in first)) ∷ (1, meaning (value_in second)) ∷ [] }
{
    let _ = hypermap.len();
    if is_untouched(&kinds[0], first) || is_untouched(&kinds[1], second) {
        return false;
    }
    true
}

/// Whether a value is its kind's identity.
#[inline(always)]
pub(crate) fn is_untouched(kind: &Kind, value: ShortValue) -> bool
    ensures same { result ≡ same_worth (meaning (value_in value)) (identity_of kind.now) }
{
    let value = value.value();
    let untouched = is_identity(kind, &value);
    let_go_short(value);
    untouched
}

/// What a reducer was given, as a record keeps it. It takes no memory.
#[inline(always)]
pub(crate) fn gift_of(reducer: u16, value: ShortValue) -> Gift
    ensures given { given_by result ≡ (reducer, value_in value) }
{
    match value {
        ShortValue::Number(number) => Gift::Number { reducer, number },
        ShortValue::Best { second, first } => Gift::Best {
            reducer,
            second,
            first,
        },
    }
}

/// The record of an instance that is over: of what it gave to two reducers, of no more than two readings, and of the procedures that were
/// entered. It takes no memory.
#[inline(always)]
pub(crate) fn record_of_two(
    opened: Opened,
    found: &[Reading],
    entered: Entries,
    leaf: Leaf,
) -> Record
    requires few { length found.now ≤ 2 }
    ensures record { result ≡ recorded (record {
      contribution = (0, meaning (value_in leaf.first)) ∷ (1, meaning (value_in leaf.second)) ∷ [];
      reads = map note_of found.now;
      entered = entries_in entered;
      levels = leaf.levels;
    }) opened leaf.value }
{
    let (procedure, arguments, left) = opened.into_parts();
    Record::of_values(
        procedure,
        arguments,
        leaf.value,
        ShortList::Two([gift_of(0, leaf.first), gift_of(1, leaf.second)]),
        few_reads(found),
        entered,
        height(leaf.levels, left),
    )
}
