//! Amounts by key, the keys rising: an amount more, and two of them merged.
ghost use Rattle.std.specs.Prelude.{◌≡◌, ℕ, ℤ, pos, ◌<◌, ◌≤◌, ◌≤ℤ◌, OnOk, OnErr, IfOk, IfErr, length, take, drop, map, ◌++◌, slice_index_or};
ghost use Rattle.monoid_laws.specs.Worth.{amounts, the_amounts};
ghost use Rattle.monoid_laws.specs.Kinds.{add_at, merge, merged, meaning, IsRising, IsAmounts};

use crate::joining::append_pieces;
use crate::{Val, sum_of};
use std::alloc::{AllocError, Global};
use std::mem;

/// Where a key stands, or where it would be put.
fn key_index(amounts: &[(i64, i64)], key: i64) -> usize
    requires { IsRising amounts.now }
    ensures within { result ≤ length amounts.now }
    ensures passed { (v : ℤ) → add_at key v amounts.now ≡ take result amounts.now ++ add_at key v (drop result amounts.now) }
    ensures reached { (e : ℤ × ℤ) → result < length amounts.now → e ≡ slice_index_or amounts.now result e → key ≤ℤ e.0 }
{
    let mut low = 0;
    let mut high = amounts.len();
    while low < high {
        let middle = low + (high - low) / 2;
        if amounts[middle].0 < key {
            low = middle + 1;
        } else {
            high = middle;
        }
    }
    low
}

/// Adds an amount at a key, whose keys rise. Want of memory is the only error.
pub(crate) fn add_amount(
    amounts: &mut Vec<(i64, i64)>,
    key: i64,
    amount: i64,
) -> Result<(), AllocError>
    requires { IsRising amounts.old.items }
    ensures added { OnOk result (amounts.new.items ≡ add_at key amount amounts.old.items) }
    ensures refused { OnErr result (amounts.new.items ≡ amounts.old.items) }
{
    let i = key_index(amounts, key);
    if i < amounts.len() {
        let (found, held) = amounts[i];
        if found == key {
            amounts[i] = (key, sum_of(amount, held));
            return Ok(());
        }
    }
    match amounts.insert(i, (key, amount)) {
        Ok(()) => Ok(()),
        Err(_) => Err(AllocError),
    }
}

/// The amounts of both, by key, each of which has rising keys. Want of memory is the only error.
pub(crate) fn merge_amounts(
    alloc: Global,
    left: &[(i64, i64)],
    right: &[(i64, i64)],
) -> Result<Vec<(i64, i64)>, AllocError>
    requires left_rises { IsRising left.now }
    requires right_rises { IsRising right.now }
    ensures { IfOk result (λ v. v.items ≡ merge left.now right.now) }
{
    let mut sums = Vec::with_capacity(alloc, left.len())?;
    let mut i = 0;
    let mut j = 0;
    while i < left.len() && j < right.len() {
        let (key, amount) = left[i];
        let (other, more) = right[j];
        if key < other {
            sums.push((key, amount))?;
            i += 1;
        } else if other < key {
            sums.push((other, more))?;
            j += 1;
        } else {
            sums.push((key, sum_of(amount, more)))?;
            i += 1;
            j += 1;
        }
    }
    sums.extend_from_slice(&left[i..])?;
    sums.extend_from_slice(&right[j..])?;
    Ok(sums)
}

/// Merges the second amounts into the first, or hands them back.
fn merge_into(
    alloc: Global,
    held: &mut Vec<(i64, i64)>,
    more: Vec<(i64, i64)>,
) -> Result<(), Vec<(i64, i64)>>
    requires left_rises { IsRising held.old.items }
    requires right_rises { IsRising more.items }
    ensures merged { OnOk result (held.new.items ≡ merge held.old.items more.items) }
    ensures refused { OnErr result (held.new.items ≡ held.old.items) }
    ensures handed_back { IfErr result (λ v. v ≡ more) }
{
    if held.is_empty() {
        *held = more;
        return Ok(());
    }
    match merge_amounts(alloc, held, &more) {
        Ok(sums) => {
            *held = sums;
            Ok(())
        }
        Err(_) => Err(more),
    }
}

/// Puts amounts behind others in pieces, or hands them back.
fn push_piece(
    pieces: &mut Vec<Vec<(i64, i64)>>,
    more: Vec<(i64, i64)>,
) -> Result<(), Vec<(i64, i64)>>
    requires { IsRising more.items }
    ensures merged { OnOk result (merged (map (λ p. p.items) pieces.new.items) ≡ merge (merged (map (λ p. p.items) pieces.old.items)) more.items) }
    ensures refused { OnErr result (pieces.new.items ≡ pieces.old.items) }
    ensures handed_back { IfErr result (λ v. v ≡ more) }
{
    match pieces.push(more) {
        Ok(()) => Ok(()),
        Err(refused) => Err(refused.value),
    }
}

/// Amounts before pieces of them; where memory is refused, both stay.
fn put_before(
    alloc: Global,
    held: &mut Vec<(i64, i64)>,
    mut more: Vec<Vec<(i64, i64)>>,
) -> Result<Vec<Vec<(i64, i64)>>, Vec<Vec<(i64, i64)>>>
    ensures merged { IfOk result (λ v. merged (map (λ p. p.items) v.items) ≡ merge held.old.items (merged (map (λ p. p.items) more.items))) }
    ensures refused { OnErr result (held.new.items ≡ held.old.items) }
    ensures handed_back { IfErr result (λ v. v ≡ more) }
{
    let Ok(mut pieces) = Vec::with_capacity(alloc, more.len() + 1) else {
        return Err(more);
    };
    pieces.push_reserved(mem::replace(held, Vec::new(alloc)));
    let _ = pieces.append(&mut more);
    Ok(pieces)
}

/// Merges amounts into a value, or hands them back.
fn merge_whole(alloc: Global, left: &mut Val, more: Vec<(i64, i64)>) -> Result<(), Vec<(i64, i64)>>
    requires left_value { IsAmounts (meaning left.old) }
    requires right_rises { IsRising more.items }
    ensures merged { OnOk result (meaning left.new ≡ amounts (merge (the_amounts (meaning left.old)) more.items)) }
    ensures refused { OnErr result (meaning left.new ≡ meaning left.old) }
    ensures handed_back { IfErr result (λ v. v ≡ more) }
{
    match left {
        Val::Hist(held) => merge_into(alloc, held, more),
        Val::HistPieces(pieces) => push_piece(pieces, more),
        _ => Err(more),
    }
}

/// Puts pieces of amounts behind a value, or hands them back.
fn merge_pieces(
    alloc: Global,
    left: &mut Val,
    more: Vec<Vec<(i64, i64)>>,
) -> Result<(), Vec<Vec<(i64, i64)>>>
    ensures merged { OnOk result (meaning left.new ≡ amounts (merge (the_amounts (meaning left.old)) (merged (map (λ p. p.items) more.items)))) }
    ensures refused { OnErr result (meaning left.new ≡ meaning left.old) }
    ensures handed_back { IfErr result (λ v. v ≡ more) }
{
    match left {
        Val::Hist(held) => match put_before(alloc, held, more) {
            Ok(pieces) => {
                *left = Val::HistPieces(pieces);
                Ok(())
            }
            Err(more) => Err(more),
        },
        Val::HistPieces(pieces) => append_pieces(pieces, more),
        _ => Err(more),
    }
}

/// Merges two values that are amounts, each whole or in pieces.
pub(crate) fn combine_amounts(alloc: Global, left: &mut Val, right: Val) -> Result<(), Val>
    requires left_value { IsAmounts (meaning left.old) }
    requires right_value { IsAmounts (meaning right) }
    ensures merged { OnOk result (meaning left.new ≡ amounts (merge (the_amounts (meaning left.old)) (the_amounts (meaning right)))) }
    ensures refused { OnErr result (meaning left.new ≡ meaning left.old) }
    ensures handed_back { IfErr result (λ v. v ≡ right) }
{
    match right {
        Val::Hist(more) => match merge_whole(alloc, left, more) {
            Ok(()) => Ok(()),
            Err(more) => Err(Val::Hist(more)),
        },
        Val::HistPieces(more) => match merge_pieces(alloc, left, more) {
            Ok(()) => Ok(()),
            Err(more) => Err(Val::HistPieces(more)),
        },
        other => Err(other),
    }
}
