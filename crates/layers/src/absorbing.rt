// A layer takes over what a record has, or what a layer has that becomes a record.
ghost use Rattle.std.specs.Prelude.{◌≡◌, ◌<◌, ◌++◌, List, IfOk, OnErr, OnOk, All, Some, length, map, pos, slice_set, vec_len, vec_capacity, true, false};
ghost use Rattle.monoid_laws.specs.Worth.{Worth};
ghost use Rattle.monoid_laws.specs.declared.Kind.{Kind};
ghost use Rattle.monoid_laws.specs.declared.Val.TheVariants.{Int, Arg};
ghost use Rattle.monoid_laws.specs.Kinds.{IsMonoid, IsWorth, identities, meaning, operate};
ghost use Rattle.hypermaps.specs.Layer.{IsAt};
ghost use Rattle.evaluation.specs.declared.note.Note.{Note};
ghost use Rattle.record_theory.specs.Record.{touched};
ghost use Rattle.record_theory.specs.Named.{AreValuesFrom};
ghost use Rattle.instance_records.specs.Gifts.{given_by};
ghost use Rattle.instance_records.specs.Readings.{all_of};
ghost use Rattle.positions.specs.Layers.{absorbing, covered, flagged, kept_behind, kept_reads};
ghost use Rattle.layers.specs.Folds.{HasSameProduct, IsSameButWorths, combined_with, reads_in};

use crate::joining::{flag_all, put_up};
use crate::layer::Layer;
use hypermaps::Hypermap;
use instance_records::gift::Gift;
use instance_records::readings::Readings;
use instance_records::record::Record;
use monoid_laws::Val;
use positions::readings::put_nested;
use std::alloc::{AllocError, Global};
use view_pool::View;

impl<V: View> Layer<V> {
    /// Puts behind it what a record has of an instance at that depth, its readings where those are kept. Where memory is refused, or
    /// the depth is past its limit, some of the record's values are in and the others are not, and nothing else has changed.
    #[inline(always)]
    #[tactic(auto, using(crate::proofs::Kept::noted_nothing))]
    pub(crate) fn absorb(
        &mut self,
        alloc: Global,
        record: &Record,
        depth: u32,
    ) -> Result<(), AllocError>
        requires monoids { All IsMonoid self.old.kinds }
        requires values { AreValuesFrom 0 self.old.kinds record.now.contribution }
        ensures absorbed { OnOk result (self.new ≡ absorbing record.now depth self.old) }
        ensures partly { OnErr result (IsSameButWorths self.old self.new) }
    {
        if self.keeps {
            return self.absorb_kept(alloc, record, depth);
        }
        let Some(levels) = depth.checked_add(record.height()) else {
            return Err(AllocError);
        };
        absorb_values(&mut self.hypermap, alloc, record.contribution())?;
        flag_entered(&mut self.entered, record.entered());
        self.deepest = self.deepest.max(levels.saturating_sub(1));
        Ok(())
    }

    // The same where readings are kept.
    #[inline(never)]
    #[tactic(auto, using(crate::proofs::Kept::noted_all))]
    fn absorb_kept(&mut self, alloc: Global, record: &Record, depth: u32) -> Result<(), AllocError>
        requires keeps { self.old.keeps ≡ true }
        requires monoids { All IsMonoid self.old.kinds }
        requires values { AreValuesFrom 0 self.old.kinds record.now.contribution }
        ensures absorbed { OnOk result (self.new ≡ absorbing record.now depth self.old) }
        ensures partly { OnErr result (IsSameButWorths self.old self.new) }
    {
        let Some(levels) = depth.checked_add(record.height()) else {
            return Err(AllocError);
        };
        self.shared.reserve(1)?;
        let reads = record.reads().share()?;
        absorb_values(&mut self.hypermap, alloc, record.contribution())?;
        push_shared(&mut self.shared, reads);
        flag_entered(&mut self.entered, record.entered());
        self.deepest = self.deepest.max(levels.saturating_sub(1));
        Ok(())
    }

    /// Puts a layer that becomes a record behind this, which shares the readings that its record keeps, where it keeps any, and leaves
    /// its views at the identities. Where memory is refused, some reducers have moved to this one and the others have not, and nothing else has
    /// changed.
    pub(crate) fn cover(&mut self, right: &mut Layer<V>, kept: &Readings) -> Result<(), AllocError>
        requires kinds { self.old.kinds ≡ right.old.kinds }
        requires monoids { All IsMonoid self.old.kinds }
        requires kept { kept.now ≡ kept_reads right.old }
        ensures covered { OnOk result (self.new ≡ covered self.old right.old) }
        ensures right_kinds { right.new.kinds ≡ right.old.kinds }
        ensures emptied { OnOk result (right.new.worths ≡ identities right.old.kinds) }
        ensures left_kept { OnErr result (IsSameButWorths self.old self.new) }
        ensures right_kept { OnErr result (IsSameButWorths right.old right.new) }
        ensures product { OnErr result (HasSameProduct self.old right.old self.new right.new) }
    {
        self.shared.reserve(1)?;
        let reads = reads_kept(self.keeps, kept)?;
        self.hypermap.fold(&mut right.hypermap)?;
        push_kept(&mut self.shared, reads);
        flag_all(&mut self.entered, &right.entered);
        self.deepest = self.deepest.max(right.deepest);
        Ok(())
    }
}

/// Combines copies of these values on the right of the reducers' values. Where memory is refused, some of the first ones are in.
#[inline(always)]
fn absorb_values<V: View>(
    hypermap: &mut Hypermap<V>,
    alloc: Global,
    values: &[Gift],
) -> Result<(), AllocError>
    requires monoids { All IsMonoid hypermap.old.kinds }
    requires values { AreValuesFrom 0 hypermap.old.kinds (map touched (map given_by values.now)) }
    ensures kinds { hypermap.new.kinds ≡ hypermap.old.kinds }
    ensures absorbed { OnOk result (hypermap.new.worths
        ≡ combined_with (map touched (map given_by values.now)) hypermap.old.kinds hypermap.old.worths) }
{
    let _ = hypermap.len();
    for entry in values {
        absorb_gift(hypermap, alloc, entry)?;
    }
    Ok(())
}

/// Combines a copy of what a reducer was given on the right of its value; where memory is refused all values stay.
#[inline(always)]
fn absorb_gift<V: View>(
    hypermap: &mut Hypermap<V>,
    alloc: Global,
    gift: &Gift,
) -> Result<(), AllocError>
    requires reducer_is { (given_by gift.now).0 < length hypermap.old.kinds }
    requires of_kind { (c : Kind) → IsAt hypermap.old.kinds (given_by gift.now).0 c
        → IsWorth c (meaning (given_by gift.now).1) }
    ensures kinds { hypermap.new.kinds ≡ hypermap.old.kinds }
    ensures absorbed { (c : Kind) (x : Worth) → IsAt hypermap.old.kinds (given_by gift.now).0 c
        → IsAt hypermap.old.worths (given_by gift.now).0 x
        → OnOk result (hypermap.new.worths
        ≡ slice_set hypermap.old.worths (given_by gift.now).0 (operate c x (meaning (given_by gift.now).1))) }
{
    if absorb_short(hypermap, gift) {
        return Ok(());
    }
    absorb_copy(hypermap, alloc, gift)
}

/// The same where it takes no memory and is done at once; whether it was, else all values stay.
#[inline(always)]
fn absorb_short<V: View>(hypermap: &mut Hypermap<V>, gift: &Gift) -> bool
    requires reducer_is { (given_by gift.now).0 < length hypermap.old.kinds }
    requires of_kind { (c : Kind) → IsAt hypermap.old.kinds (given_by gift.now).0 c
        → IsWorth c (meaning (given_by gift.now).1) }
    ensures kinds { hypermap.new.kinds ≡ hypermap.old.kinds }
    ensures absorbed { (c : Kind) (x : Worth) → IsAt hypermap.old.kinds (given_by gift.now).0 c
        → IsAt hypermap.old.worths (given_by gift.now).0 x → result ≡ true
        → hypermap.new.worths
        ≡ slice_set hypermap.old.worths (given_by gift.now).0 (operate c x (meaning (given_by gift.now).1)) }
    ensures same { result ≡ false → hypermap.new.worths ≡ hypermap.old.worths }
{
    match gift {
        Gift::Number { reducer, number } => {
            hypermap.absorb_at_once(usize::from(*reducer), &value_of(number))
        }
        Gift::Best {
            reducer,
            second,
            first,
        } => hypermap.absorb_at_once(usize::from(*reducer), &best_of(first, second)),
        Gift::Other(_) => false,
    }
}

/// The same, whatever it takes.
#[inline(never)]
fn absorb_copy<V: View>(
    hypermap: &mut Hypermap<V>,
    alloc: Global,
    gift: &Gift,
) -> Result<(), AllocError>
    requires reducer_is { (given_by gift.now).0 < length hypermap.old.kinds }
    requires of_kind { (c : Kind) → IsAt hypermap.old.kinds (given_by gift.now).0 c
        → IsWorth c (meaning (given_by gift.now).1) }
    ensures kinds { hypermap.new.kinds ≡ hypermap.old.kinds }
    ensures absorbed { (c : Kind) (x : Worth) → IsAt hypermap.old.kinds (given_by gift.now).0 c
        → IsAt hypermap.old.worths (given_by gift.now).0 x
        → OnOk result (hypermap.new.worths
        ≡ slice_set hypermap.old.worths (given_by gift.now).0 (operate c x (meaning (given_by gift.now).1))) }
{
    match gift {
        Gift::Number { reducer, number } => {
            hypermap.absorb_value(usize::from(*reducer), value_of(number))
        }
        Gift::Best {
            reducer,
            second,
            first,
        } => { hypermap.absorb_value(usize::from(*reducer), best_of(first, second)) }
        Gift::Other(held) => hypermap.absorb_one(alloc, held.0, &held.1),
    }
}

/// The value that is that number.
#[inline(always)]
fn value_of(number: &i64) -> Val
    ensures same { result ≡ Int number.now }
{
    Val::Int(*number)
}

/// The value that is the best pair of these numbers.
#[inline(always)]
fn best_of(first: &i64, second: &u32) -> Val
    ensures same { result ≡ Arg (Some (first.now, pos second.now)) }
{
    Val::Arg(Some((*first, i64::from(*second))))
}

/// Those readings for a layer that keeps readings; none for one that doesn't.
#[inline(always)]
fn reads_kept(keeps: bool, reads: &Readings) -> Result<Option<Readings>, AllocError>
    ensures kept { IfOk result (λ kept. (ns : List Note) → ns ++ reads_in kept ≡ kept_behind keeps ns reads.now) }
{
    if !keeps {
        return Ok(None);
    }
    Ok(Some(reads.share()?))
}

/// Puts readings, if there are any, behind those that a layer shares, for which there is room.
#[inline(always)]
fn push_kept(shared: &mut Vec<Readings>, reads: Option<Readings>)
    requires room { vec_len shared.old < vec_capacity shared.old }
    ensures pushed { all_of shared.new.items ≡ all_of shared.old.items ++ reads_in reads }
{
    if let Some(reads) = reads {
        push_shared(shared, reads);
    }
}

/// Puts readings behind those that a layer shares, for which there is room.
pub(crate) fn push_shared(shared: &mut Vec<Readings>, reads: Readings)
    requires room { vec_len shared.old < vec_capacity shared.old }
    ensures pushed { all_of shared.new.items ≡ all_of shared.old.items ++ reads }
{
    put_nested(shared, reads);
}

/// Puts up the flags of these procedures.
fn flag_entered(flags: &mut Vec<bool>, entered: &[(usize, u64)])
    ensures flagged { flags.new.items ≡ flagged flags.old.items (map (λ e. e.0) entered.now) }
{
    for entry in entered {
        put_up(flags, entry.0);
    }
}
