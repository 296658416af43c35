// Layers of leaves that used the only reducer of a program: their record is made in one go, as that of those that used two.
ghost use Rattle.std.specs.Prelude.{true, ◌≡◌, ◌∷◌, [], ◌≤◌, suc, IfSome, OnErr, OnOk, OnSome, All, length, map};
ghost use Rattle.monoid_laws.specs.Kinds.{IsMonoid, identities, meaning};
ghost use Rattle.hypermaps.specs.Layer.{IsAt};
ghost use Rattle.evaluation.specs.Short.{note_of};
ghost use Rattle.instance_records.specs.Parts.{entries_in};
ghost use Rattle.positions.specs.Layers.{covered, kept_reads};
ghost use Rattle.positions.specs.Tallies.{touched_from};
ghost use Rattle.layers.specs.Folds.{HasSameProduct, IsSameButWorths};
ghost use Rattle.layers.specs.Recordings.{recorded};
ghost use Rattle.view_pool.specs.Short.{value_in};

use crate::joining::flag_all;
use crate::layer::Layer;
use crate::leaves::{gift_of, is_untouched, push_few};
use crate::recording::{Opened, are_of_few_columns, few_reads};
use evaluation::reading::Reading;
use hypermaps::Hypermap;
use instance_records::entries::Entries;
use instance_records::record::Record;
use instance_records::short_list::ShortList;
use linked_program::checked::Checked;
use monoid_laws::Kind;
use positions::heights::height;
use std::alloc::AllocError;
use view_pool::{ShortValue, View};

/// What lies at hand of a record: what the instance gave to the reducer, how many instances were nested, and the value.
#[derive(Clone, Copy)]
pub(crate) struct Lone {
    pub(crate) gift: ShortValue,
    pub(crate) levels: u32,
    pub(crate) value: i64,
}

impl<V: View> Layer<V> {
    /// What the record of an instance that is over with that value is made of, where its layer is one of most leaves of a program with one
    /// reducer, and what it gave to that is short.
    #[inline(always)]
    pub(crate) fn lone(&self, program: &Checked, value: i64) -> Option<Lone>
        requires kinds { self.now.kinds ≡ program.now.kinds }
        ensures few { OnSome result (length self.now.notes ≤ 2) }
        ensures kept { OnSome result (kept_reads self.now ≡ self.now.notes) }
        ensures levels { IfSome result (λ l. l.levels ≡ suc self.now.deepest) }
        ensures value { IfSome result (λ l. l.value ≡ value) }
        ensures worths { IfSome result (λ l. self.now.worths ≡ meaning (value_in l.gift) ∷ []) }
        ensures touched { IfSome result (λ l. touched_from 0 self.now.kinds self.now.worths
            ≡ (0, meaning (value_in l.gift)) ∷ []) }
    {
        if !self.is_of_one(program) {
            return None;
        }
        let levels = self.deepest.checked_add(1)?;
        let gift = one_value(&self.hypermap, program.kinds())?;
        Some(Lone {
            gift,
            levels,
            value,
        })
    }

    /// Whether no more than two readings were made, two of them of cells in different columns, and the reducer of a program of one was used.
    #[inline(always)]
    #[tactic(auto, using(crate::proofs::Alone::two_alone))]
    fn is_of_one(&self, program: &Checked) -> bool
        ensures kinds { result ≡ true → length program.now.kinds ≡ 1 }
        ensures notes { result ≡ true → length self.now.notes ≤ 2 }
        ensures kept { result ≡ true → kept_reads self.now ≡ self.now.notes }
    {
        if program.kinds().len() != 1 || self.hypermap.used_count() != 1 {
            return false;
        }
        self.shared.is_empty() && are_of_few_columns(self.notes.readings())
    }

    /// Puts a layer of no more than two readings, whose reducer is worth that, and which becomes a record, behind this, and leaves its view
    /// at the identity. Where memory is refused, the reducer may have moved to this one, and nothing else has changed.
    #[inline(always)]
    pub(crate) fn cover_of_one(
        &mut self,
        right: &mut Layer<V>,
        gift: ShortValue,
    ) -> Result<(), AllocError>
        requires kinds { self.old.kinds ≡ right.old.kinds }
        requires monoids { All IsMonoid self.old.kinds }
        requires worths { right.old.worths ≡ meaning (value_in gift) ∷ [] }
        requires few { length right.old.notes ≤ 2 }
        requires kept { kept_reads right.old ≡ right.old.notes }
        ensures covered { OnOk result (self.new ≡ covered self.old right.old) }
        ensures right_kinds { right.new.kinds ≡ right.old.kinds }
        ensures right_notes { OnOk result (right.new.notes ≡ right.old.notes) }
        ensures emptied { OnOk result (right.new.worths ≡ identities right.old.kinds) }
        ensures left_kept { OnErr result (IsSameButWorths self.old self.new) }
        ensures right_kept { OnErr result (IsSameButWorths right.old right.new) }
        ensures product { OnErr result (HasSameProduct self.old right.old self.new right.new) }
    {
        self.shared.reserve(1)?;
        self.hypermap.fold_one(&mut right.hypermap, gift)?;
        push_few(self.keeps, &mut self.shared, right.notes.readings());
        flag_all(&mut self.entered, &right.entered);
        self.deepest = self.deepest.max(right.deepest);
        Ok(())
    }
}

/// What the only reducer is worth, where that is short and isn't the identity.
#[inline(always)]
#[tactic(auto, using(crate::proofs::Few::one_worth))]
fn one_value<V: View>(hypermap: &Hypermap<V>, kinds: &[Kind]) -> Option<ShortValue>
    requires kinds { hypermap.now.kinds ≡ kinds.now }
    requires one { length kinds.now ≡ 1 }
    ensures worths { IfSome result (λ v. hypermap.now.worths ≡ meaning (value_in v) ∷ []) }
    ensures touched { IfSome result (λ v. touched_from 0 hypermap.now.kinds hypermap.now.worths
        ≡ (0, meaning (value_in v)) ∷ []) }
{
    let _ = hypermap.len();
    let gift = hypermap.short(0)?;
    if is_touched(hypermap, kinds, gift) {
        return Some(gift);
    }
    None
}

/// Whether that value of the only reducer isn't the identity.
#[inline(always)]
fn is_touched<V: View>(hypermap: &Hypermap<V>, kinds: &[Kind], gift: ShortValue) -> bool
    requires kinds { hypermap.now.kinds ≡ kinds.now }
    requires one { length kinds.now ≡ 1 }
    requires gift { IsAt hypermap.now.worths 0 (meaning (value_in gift)) }
    ensures touched { result ≡ true → touched_from 0 hypermap.now.kinds hypermap.now.worths
        ≡ (0, meaning (value_in gift)) ∷ [] }
{
    let _ = hypermap.len();
    if is_untouched(&kinds[0], gift) {
        return false;
    }
    true
}

/// The record of an instance that is over: of what it gave to one reducer, of no more than two readings, and of the procedures that were
/// entered. It takes no memory.
#[inline(always)]
pub(crate) fn record_of_one(
    opened: Opened,
    found: &[Reading],
    entered: Entries,
    lone: Lone,
) -> Record
    requires few { length found.now ≤ 2 }
    ensures record { result ≡ recorded (record {
      contribution = (0, meaning (value_in lone.gift)) ∷ [];
      reads = map note_of found.now;
      entered = entries_in entered;
      levels = lone.levels;
    }) opened lone.value }
{
    let (procedure, arguments, left) = opened.into_parts();
    Record::of_values(
        procedure,
        arguments,
        lone.value,
        ShortList::One(gift_of(0, lone.gift)),
        few_reads(found),
        entered,
        height(lone.levels, left),
    )
}
