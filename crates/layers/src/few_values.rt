// What one reducer or two have for a record, which needs no list to be gathered in.
ghost use Rattle.std.specs.Prelude.{◌≡◌, ◌++◌, ◌∷◌, [], ◌<◌, IfOk, IfSome, length, map, option_to_list};
ghost use Rattle.monoid_laws.specs.Worth.{Worth};
ghost use Rattle.monoid_laws.specs.Kinds.{meaning};
ghost use Rattle.hypermaps.specs.Layer.{IsAt};
ghost use Rattle.record_theory.specs.Named.{AreValuesFrom};
ghost use Rattle.record_theory.specs.Record.{touched};
ghost use Rattle.instance_records.specs.ShortLists.{items_in};
ghost use Rattle.instance_records.specs.Gifts.{given_by};
ghost use Rattle.positions.specs.Tallies.{touched_from, touched_at};

use hypermaps::Hypermap;
use instance_records::gift::Gift;
use instance_records::short_list::ShortList;
use monoid_laws::{Kind, Val};
use positions::identities::is_identity;
use positions::touched::unless_identity;
use std::alloc::{AllocError, Global};
use view_pool::{View, let_go_short};

/// A copy of the only reducer's value, unless it is the identity.
#[inline(always)]
pub(crate) fn value_of_one<V: View>(
    alloc: Global,
    hypermap: &Hypermap<V>,
    kinds: &[Kind],
) -> Result<ShortList<Gift>, AllocError>
    requires kinds { hypermap.now.kinds ≡ kinds.now }
    requires one { length kinds.now ≡ 1 }
    ensures touched { IfOk result (λ c.
        map touched (map given_by (items_in c)) ≡ touched_from 0 hypermap.now.kinds hypermap.now.worths) }
    ensures values { IfOk result (λ c.
        AreValuesFrom 0 hypermap.now.kinds (map touched (map given_by (items_in c)))) }
{
    let _ = hypermap.len();
    let first = touched_value(alloc, hypermap, 0, &kinds[0])?;
    Ok(one_listed(alloc, first))
}

/// Copies of the values of two reducers, both of them used, without those that are the identities after all.
#[inline(always)]
pub(crate) fn values_of_used<V: View>(
    alloc: Global,
    hypermap: &Hypermap<V>,
    kinds: &[Kind],
) -> Result<ShortList<Gift>, AllocError>
    requires kinds { hypermap.now.kinds ≡ kinds.now }
    requires two { length kinds.now ≡ 2 }
    ensures touched { IfOk result (λ c.
        map touched (map given_by (items_in c)) ≡ touched_from 0 hypermap.now.kinds hypermap.now.worths) }
    ensures values { IfOk result (λ c.
        AreValuesFrom 0 hypermap.now.kinds (map touched (map given_by (items_in c)))) }
{
    let _ = hypermap.len();
    let first = hypermap.value(0)?;
    match hypermap.value(1) {
        Ok(second) => Ok(pair_listed(alloc, &kinds[0], &kinds[1], first, second)?),
        Err(error) => {
            let_go(first);
            Err(error)
        }
    }
}

/// Copies of the values of two reducers, of which one may not be used.
#[inline(never)]
pub(crate) fn values_of_some<V: View>(
    alloc: Global,
    hypermap: &Hypermap<V>,
    kinds: &[Kind],
) -> Result<ShortList<Gift>, AllocError>
    requires kinds { hypermap.now.kinds ≡ kinds.now }
    requires two { length kinds.now ≡ 2 }
    ensures touched { IfOk result (λ c.
        map touched (map given_by (items_in c)) ≡ touched_from 0 hypermap.now.kinds hypermap.now.worths) }
    ensures values { IfOk result (λ c.
        AreValuesFrom 0 hypermap.now.kinds (map touched (map given_by (items_in c)))) }
{
    let _ = hypermap.len();
    let first = touched_value(alloc, hypermap, 0, &kinds[0])?;
    match touched_value(alloc, hypermap, 1, &kinds[1]) {
        Ok(second) => Ok(both_listed(alloc, first, second)),
        Err(error) => {
            let_go(first);
            Err(error)
        }
    }
}

/// Lets go what no record is made of after all. Its drop wants much room, which is kept out of who calls this.
#[inline(never)]
pub(crate) fn let_go<T: Drop>(_value: T) {}

/// A reducer's number with a copy of its value, unless that is the identity.
#[inline(always)]
fn touched_value<V: View>(
    alloc: Global,
    hypermap: &Hypermap<V>,
    reducer: usize,
    kind: &Kind,
) -> Result<Option<Gift>, AllocError>
    requires there { reducer < length hypermap.now.kinds }
    requires kind { IsAt hypermap.now.kinds reducer kind.now }
    ensures touched { (w : Worth) → IsAt hypermap.now.worths reducer w
        → IfOk result (λ v. map touched (map given_by (option_to_list v)) ≡ touched_at reducer kind.now w) }
{
    let _ = hypermap.len();
    match hypermap.used_value(reducer)? {
        Some(value) => kept_value(alloc, reducer, kind, value),
        None => Ok(None),
    }
}

/// What a record keeps of a reducer's value, unless that is the identity.
#[inline(always)]
pub(crate) fn kept_value(
    alloc: Global,
    reducer: usize,
    kind: &Kind,
    value: Val,
) -> Result<Option<Gift>, AllocError>
    ensures touched { IfOk result (λ v.
        map touched (map given_by (option_to_list v)) ≡ touched_at reducer kind.now (meaning value)) }
{
    match unless_identity(reducer, kind, value) {
        Some(entry) => Ok(Some(Gift::new(alloc, entry.0, entry.1)?)),
        None => Ok(None),
    }
}

/// The list of one value, where it is there. It takes no memory.
#[inline(always)]
fn one_listed(alloc: Global, value: Option<Gift>) -> ShortList<Gift>
    ensures listed { items_in result ≡ option_to_list value }
{
    match value {
        None => ShortList::new(Vec::new(alloc)),
        Some(value) => ShortList::One(value),
    }
}

/// The list of two values, of those that are there. It takes no memory.
#[inline(always)]
fn both_listed(alloc: Global, first: Option<Gift>, second: Option<Gift>) -> ShortList<Gift>
    ensures listed { items_in result ≡ option_to_list first ++ option_to_list second }
{
    match first {
        None => one_listed(alloc, second),
        Some(one) => match second {
            None => ShortList::One(one),
            Some(two) => ShortList::Two([one, two]),
        },
    }
}

/// The list of these values of the first two reducers, without those that are the identities.
#[inline(always)]
fn pair_listed(
    alloc: Global,
    first_kind: &Kind,
    second_kind: &Kind,
    first: Val,
    second: Val,
) -> Result<ShortList<Gift>, AllocError>
    ensures touched { IfOk result (λ c. map touched (map given_by (items_in c))
        ≡ touched_at 0 first_kind.now (meaning first) ++ touched_at 1 second_kind.now (meaning second)) }
{
    if is_identity(first_kind, &first) || is_identity(second_kind, &second) {
        return some_listed(alloc, first_kind, second_kind, first, second);
    }
    Ok(ShortList::Two(two_gifts(alloc, first, second)?))
}

/// What two reducers were given, which most often takes no memory.
#[inline(always)]
fn two_gifts(alloc: Global, first: Val, second: Val) -> Result<[Gift; 2], AllocError>
    ensures given { IfOk result (λ gifts.
        map touched (map given_by gifts) ≡ (0, meaning first) ∷ (1, meaning second) ∷ []) }
{
    match two_short(&first, &second) {
        Some(gifts) => {
            let_go_short(first);
            let_go_short(second);
            Ok(gifts)
        }
        None => two_long(alloc, first, second),
    }
}

/// The same, where both take no memory.
#[inline(always)]
fn two_short(first: &Val, second: &Val) -> Option<[Gift; 2]>
    ensures given { IfSome result (λ gifts.
        map touched (map given_by gifts) ≡ (0, meaning first.now) ∷ (1, meaning second.now) ∷ []) }
{
    let one = Gift::short(0, first)?;
    let two = Gift::short(1, second)?;
    Some([one, two])
}

/// The same, whatever they take.
#[inline(never)]
fn two_long(alloc: Global, first: Val, second: Val) -> Result<[Gift; 2], AllocError>
    ensures given { IfOk result (λ gifts.
        map touched (map given_by gifts) ≡ (0, meaning first) ∷ (1, meaning second) ∷ []) }
{
    let one = Gift::new(alloc, 0, first)?;
    let two = Gift::new(alloc, 1, second)?;
    Ok([one, two])
}

/// The list of those of these two values that aren't the identities.
#[inline(never)]
fn some_listed(
    alloc: Global,
    first_kind: &Kind,
    second_kind: &Kind,
    first: Val,
    second: Val,
) -> Result<ShortList<Gift>, AllocError>
    ensures touched { IfOk result (λ c. map touched (map given_by (items_in c))
        ≡ touched_at 0 first_kind.now (meaning first) ++ touched_at 1 second_kind.now (meaning second)) }
{
    let one = kept_value(alloc, 0, first_kind, first)?;
    let two = kept_value(alloc, 1, second_kind, second)?;
    Ok(both_listed(alloc, one, two))
}
