// Sums of records that gave two reducers, or one of them, or neither, values which take no memory, and entered one procedure: most are such.
ghost use Rattle.std.specs.Prelude.{◌≡◌, ◌<◌, ◌≤◌, ◌∷◌, [], IfSome, OnSome, All, length, map, pos, slice_get, None, Some, false, option_to_list};
ghost use Rattle.monoid_laws.specs.Worth.{number, best};
ghost use Rattle.monoid_laws.specs.Kinds.{meaning, identities, identity_of, operate, operate_all, AreWorths, IsMonoid, IsWorth};
ghost use Rattle.meaning.specs.Elision.{depth_limit};
ghost use Rattle.record_theory.specs.Record.{PlainRecord, touched};
ghost use Rattle.record_theory.specs.Named.{filled, AreValuesFrom, HaveValues};
ghost use Rattle.instance_records.specs.Gifts.{given_by};
ghost use Rattle.rerun_records.specs.Sums.{IsSumFor};
ghost use Rattle.gathered_records.specs.Flat.{worth_of};
ghost use Rattle.gathered_records.specs.Summing.{nothing_summed, added, summed, put_entries, at_places};

use crate::sums::{is_same, last_at};
use instance_records::arguments::Arguments;
use instance_records::entries::Entries;
use instance_records::gift::Gift;
use instance_records::readings::Readings;
use instance_records::record::Record;
use instance_records::short_list::ShortList;
use meaning::DEPTH_LIMIT;
use monoid_laws::{Kind, Val};
use reducer_kinds::fixed::{better, combine_numbers};
use reducer_values::identity;
use std::alloc::Global;
use std::marker::Model;

/// A value that takes no memory.
#[derive(Clone, Copy)]
pub(crate) enum Flat {
    Number(i64),
    Best(Option<(i64, i64)>),
}

/// What records have together so far, but for what they have read: the values of two reducers, the procedure that they entered, and the
/// greatest height.
#[derive(Drop)]
struct FlatSum {
    first: Flat,
    second: Flat,
    entered: Option<(usize, u64)>,
    height: u32,
}

impl Model for FlatSum {
    ghost use Rattle.std.specs.Prelude.{false, ◌∷◌, [], option_to_list};
    ghost use Rattle.gathered_records.specs.Flat.{worth_of};
    ghost use Rattle.gathered_records.specs.Summing.{PlainSum};

    ghost Value = { PlainSum };

    ghost view = { λ s. record {
      keeps = false;
      worths = worth_of s.first ∷ worth_of s.second ∷ [];
      reads = [];
      entered = option_to_list s.entered;
      height = s.height;
    } };
}

impl FlatSum {
    // Of no records, where the values of both reducers take no memory.
    #[tactic(auto, using(crate::proofs::FlatSums::two_identities))]
    fn new(alloc: Global, kinds: &[Kind]) -> Option<FlatSum>
        ensures none { IfSome result (λ s. s ≡ nothing_summed kinds.now false) }
        ensures two { OnSome result (length kinds.now ≡ 2) }
    {
        if kinds.len() != 2 {
            return None;
        }
        let first = unit_of(alloc, &kinds[0])?;
        let second = unit_of(alloc, &kinds[1])?;
        Some(FlatSum {
            first,
            second,
            entered: None,
            height: 0,
        })
    }

    // Adds the record at that place behind the others. It doesn't where there is none, or one of another form; the sum is of no use then.
    #[inline(always)]
    fn add_at(&mut self, kinds: &[Kind], records: &[Record], place: usize) -> Option<()>
        requires two { length kinds.now ≡ 2 }
        requires monoids { All IsMonoid kinds.now }
        requires right { AreWorths kinds.now self.old.worths }
        requires values { HaveValues kinds.now records.now }
        ensures none { OnSome result (slice_get records.now place ≡ None → self.new ≡ self.old) }
        ensures added { (r : PlainRecord) → slice_get records.now place ≡ Some r
            → OnSome result (self.new ≡ added kinds.now self.old r) }
        ensures low { (r : PlainRecord) → slice_get records.now place ≡ Some r
            → OnSome result (r.height ≤ depth_limit) }
        ensures keeps { OnSome result (self.new.keeps ≡ self.old.keeps) }
    {
        match records.get(place) {
            Some(record) if record.height() <= DEPTH_LIMIT => self.add(kinds, record),
            _ => None,
        }
    }

    // Adds a record behind the others. None where it is of another form; the sum is as it was then.
    #[inline(always)]
    fn add(&mut self, kinds: &[Kind], record: &Record) -> Option<()>
        requires two { length kinds.now ≡ 2 }
        requires monoids { All IsMonoid kinds.now }
        requires right { AreWorths kinds.now self.old.worths }
        requires values { AreValuesFrom 0 kinds.now record.now.contribution }
        ensures added { OnSome result (self.new ≡ added kinds.now self.old record.now) }
    {
        let values = with_two(kinds, self.first, self.second, record.contribution())?;
        let entry = with_entry(self.entered, record.entered())?;
        self.first = values.0;
        self.second = values.1;
        self.entered = Some(entry);
        self.height = self.height.max(record.height());
        Some(())
    }

    // The record that has what those have together, and procedure, arguments and value of that one, the last of them.
    fn finish(self, alloc: Global, last: &Record) -> Option<Record>
        ensures summed { IfSome result (λ r. r ≡ summed self last.now) }
    {
        let first = gift_of(0, self.first)?;
        let second = gift_of(1, self.second)?;
        let entry = self.entered?;
        match Arguments::from_slice(alloc, last.arguments()) {
            Ok(arguments) => Some(Record::of_values(
                last.procedure(),
                arguments,
                last.value(),
                ShortList::Two([first, second]),
                Readings::nothing(),
                Entries::One(entry),
                self.height,
            )),
            Err(_) => None,
        }
    }
}

/// The record that has what those at these places have together, but for what they have read; none where one of them is of another form.
#[inline(never)]
pub(crate) fn flat_sum_at(
    alloc: Global,
    kinds: &[Kind],
    records: &[Record],
    places: &[u32],
) -> Option<Record>
    requires monoids { All IsMonoid kinds.now }
    requires values { HaveValues kinds.now records.now }
    requires some { 0 < length (at_places records.now places.now) }
    ensures sum { IfSome result (λ s. IsSumFor false kinds.now (at_places records.now places.now) s) }
{
    let mut sum = FlatSum::new(alloc, kinds)?;
    for place in places {
        sum.add_at(kinds, records, *place as usize)?;
    }
    let last = last_at(records, places)?;
    sum.finish(alloc, last)
}

// The value that changes nothing, where it takes no memory.
fn unit_of(alloc: Global, kind: &Kind) -> Option<Flat>
    ensures unit { IfSome result (λ f. worth_of f ≡ identity_of kind.now) }
{
    match identity(alloc, *kind) {
        Val::Int(number) => Some(Flat::Number(number)),
        Val::Arg(best) => Some(Flat::Best(best)),
        _ => None,
    }
}

// The values of both reducers, with what a record gave on their right, where that is values that take no memory.
#[inline(always)]
#[tactic(auto, using(crate::proofs::FlatSums::two_combined, crate::proofs::FlatSums::first_value, crate::proofs::FlatSums::second_value))]
fn with_two(kinds: &[Kind], first: Flat, second: Flat, gifts: &[Gift]) -> Option<(Flat, Flat)>
    requires two { length kinds.now ≡ 2 }
    requires monoids { All IsMonoid kinds.now }
    requires right { AreWorths kinds.now (worth_of first ∷ worth_of second ∷ []) }
    requires values { AreValuesFrom 0 kinds.now (map touched (map given_by gifts.now)) }
    ensures combined { IfSome result (λ p. worth_of p.0 ∷ worth_of p.1 ∷ []
        ≡ operate_all kinds.now (worth_of first ∷ worth_of second ∷ []) (filled (identities kinds.now) (map touched (map given_by gifts.now)))) }
{
    if gifts.len() != 2 {
        return with_fewer(kinds, first, second, gifts);
    }
    let one = with_gift(&kinds[0], 0, first, &gifts[0])?;
    let two = with_gift(&kinds[1], 1, second, &gifts[1])?;
    Some((one, two))
}

// The same where a record gave one of them nothing, or both, as many do. Behind a call both values would be in memory for all records.
#[inline(always)]
#[tactic(auto, using(crate::proofs::FlatSums::none_combined))]
fn with_fewer(kinds: &[Kind], first: Flat, second: Flat, gifts: &[Gift]) -> Option<(Flat, Flat)>
    requires two { length kinds.now ≡ 2 }
    requires monoids { All IsMonoid kinds.now }
    requires right { AreWorths kinds.now (worth_of first ∷ worth_of second ∷ []) }
    requires values { AreValuesFrom 0 kinds.now (map touched (map given_by gifts.now)) }
    ensures combined { IfSome result (λ p. worth_of p.0 ∷ worth_of p.1 ∷ []
        ≡ operate_all kinds.now (worth_of first ∷ worth_of second ∷ []) (filled (identities kinds.now) (map touched (map given_by gifts.now)))) }
{
    if gifts.is_empty() {
        return Some((first, second));
    }
    if gifts.len() != 1 {
        return None;
    }
    with_one(kinds, first, second, gifts)
}

// The same where a record gave one of them something.
#[inline(always)]
#[tactic(auto, using(crate::proofs::FlatSums::one_only, crate::proofs::FlatSums::two_only, crate::proofs::FlatSums::of_one, crate::proofs::FlatSums::of_two))]
fn with_one(kinds: &[Kind], first: Flat, second: Flat, gifts: &[Gift]) -> Option<(Flat, Flat)>
    requires two { length kinds.now ≡ 2 }
    requires one { length gifts.now ≡ 1 }
    requires monoids { All IsMonoid kinds.now }
    requires right { AreWorths kinds.now (worth_of first ∷ worth_of second ∷ []) }
    requires values { AreValuesFrom 0 kinds.now (map touched (map given_by gifts.now)) }
    ensures combined { IfSome result (λ p. worth_of p.0 ∷ worth_of p.1 ∷ []
        ≡ operate_all kinds.now (worth_of first ∷ worth_of second ∷ []) (filled (identities kinds.now) (map touched (map given_by gifts.now)))) }
{
    match with_gift(&kinds[0], 0, first, &gifts[0]) {
        Some(one) => Some((one, second)),
        None => {
            let two = with_gift(&kinds[1], 1, second, &gifts[0])?;
            Some((first, two))
        }
    }
}

// A reducer's value with what a record gave on its right, where that is this reducer's and takes no memory.
#[inline(always)]
fn with_gift(kind: &Kind, reducer: u16, held: Flat, gift: &Gift) -> Option<Flat>
    requires value { (given_by gift.now).0 ≡ reducer → IsWorth kind.now (meaning (given_by gift.now).1) }
    ensures of { OnSome result ((given_by gift.now).0 ≡ reducer) }
    ensures combined { IfSome result (λ f. worth_of f ≡ operate kind.now (worth_of held) (meaning (given_by gift.now).1)) }
{
    match gift {
        Gift::Number {
            reducer: of,
            number,
        } => {
            if *of != reducer {
                return None;
            }
            with_number(kind, held, *number)
        }
        Gift::Best {
            reducer: of,
            second,
            first,
        } => {
            if *of != reducer {
                return None;
            }
            with_best(kind, held, *first, *second)
        }
        Gift::Other(_) => None,
    }
}

// A value with a number on its right, where it is one.
#[inline(always)]
fn with_number(kind: &Kind, held: Flat, more: i64) -> Option<Flat>
    requires value { IsWorth kind.now (number more) }
    ensures combined { IfSome result (λ f. worth_of f ≡ operate kind.now (worth_of held) (number more)) }
{
    match held {
        Flat::Number(value) => Some(Flat::Number(combine_numbers(kind, value, more))),
        Flat::Best(_) => None,
    }
}

// A value with a pair on its right, where it is the best one of several.
#[inline(always)]
fn with_best(kind: &Kind, held: Flat, first: i64, second: u32) -> Option<Flat>
    requires value { IsWorth kind.now (best (Some (first, pos second))) }
    ensures combined { IfSome result (λ f. worth_of f ≡ operate kind.now (worth_of held) (best (Some (first, pos second)))) }
{
    match held {
        Flat::Best(value) => Some(Flat::Best(better(value, Some((first, i64::from(second)))))),
        Flat::Number(_) => None,
    }
}

// The procedure entered, with those that another record has: where these are that one alone.
#[inline(always)]
#[tactic(auto, using(crate::proofs::FlatSums::first_put, crate::proofs::Summed::only_put))]
fn with_entry(entered: Option<(usize, u64)>, more: &[(usize, u64)]) -> Option<(usize, u64)>
    ensures put { IfSome result (λ e. e ∷ [] ≡ put_entries (option_to_list entered) more.now) }
{
    if more.len() != 1 {
        return None;
    }
    let entry = more[0];
    match entered {
        Some(held) => {
            if !is_same(&entry, &held) {
                return None;
            }
            Some(held)
        }
        None => Some(entry),
    }
}

// What a record has of a reducer's value, where that lies by itself.
#[inline(always)]
fn gift_of(reducer: u16, value: Flat) -> Option<Gift>
    ensures given { IfSome result (λ g. touched (given_by g) ≡ (reducer, worth_of value)) }
{
    match value {
        Flat::Number(number) => Some(Gift::Number { reducer, number }),
        Flat::Best(best) => Gift::short(usize::from(reducer), &Val::Arg(best)),
    }
}
