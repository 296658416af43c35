//! Lists: joined whole or in pieces, and cut to the first or the last numbers.
ghost use Rattle.std.specs.Prelude.{◌≡◌, ℕ, OnOk, OnErr, IfErr, IsOk, IfOk, ◌++◌, [], take, map};
ghost use Rattle.monoid_laws.specs.Worth.{items, the_items};
ghost use Rattle.monoid_laws.specs.Kinds.{last_of, joined, meaning};
ghost use Rattle.reducer_values.specs.Forms.{trimmed};

use crate::{Kind, Val};
use std::alloc::{AllocError, Global};

/// Joins two lists, or hands the second back.
fn join_lists(left: &mut Vec<i64>, mut right: Vec<i64>) -> Result<(), Vec<i64>>
    ensures joined { OnOk result (left.new.items ≡ left.old.items ++ right.items) }
    ensures refused { OnErr result (left.new.items ≡ left.old.items) }
    ensures handed_back { IfErr result (λ v. v ≡ right) }
{
    if left.is_empty() {
        *left = right;
        return Ok(());
    }
    if left.reserve(right.len()).is_err() {
        return Err(right);
    }
    let _ = left.append(&mut right);
    Ok(())
}

/// Keeps the last `n` numbers.
fn keep_last(list: &mut Vec<i64>, n: usize)
    ensures { list.new.items ≡ last_of n list.old.items }
{
    let length = list.len();
    if length > n {
        list.drain(..length - n);
    }
}

/// Joins pieces to a list; refused, the list is cut back to what it was.
fn join_pieces(list: &mut Vec<i64>, pieces: &[Vec<i64>]) -> Result<(), AllocError>
    ensures joined { OnOk result (list.new.items ≡ list.old.items ++ joined (map (λ p. p.items) pieces.now)) }
    ensures refused { OnErr result (list.new.items ≡ list.old.items) }
{
    let before = list.len();
    for piece in pieces {
        if list.extend_from_slice(piece).is_err() {
            list.truncate(before);
            return Err(AllocError);
        }
    }
    Ok(())
}

/// The pieces joined, as a new list.
pub(crate) fn joined_list(alloc: Global, pieces: &[Vec<i64>]) -> Result<Vec<i64>, AllocError>
    ensures { IfOk result (λ v. v.items ≡ joined (map (λ p. p.items) pieces.now)) }
{
    let mut list = Vec::new(alloc);
    join_pieces(&mut list, pieces)?;
    Ok(list)
}

/// Puts pieces behind others, or hands them back.
pub(crate) fn append_pieces<T: Drop>(
    left: &mut Vec<Vec<T>>,
    mut more: Vec<Vec<T>>,
) -> Result<(), Vec<Vec<T>>>
    ensures joined { OnOk result (left.new.items ≡ left.old.items ++ more.items) }
    ensures refused { OnErr result (left.new.items ≡ left.old.items) }
    ensures handed_back { IfErr result (λ v. v ≡ more) }
{
    if left.reserve(more.len()).is_err() {
        return Err(more);
    }
    let _ = left.append(&mut more);
    Ok(())
}

/// Puts a list behind a value, or hands it back.
fn push_list(left: &mut Val, more: Vec<i64>) -> Result<(), Vec<i64>>
    ensures joined { OnOk result (meaning left.new ≡ items (the_items (meaning left.old) ++ more.items)) }
    ensures refused { OnErr result (meaning left.new ≡ meaning left.old) }
    ensures handed_back { IfErr result (λ v. v ≡ more) }
{
    match left {
        Val::List(list) => join_lists(list, more),
        Val::Pieces(pieces) => match pieces.push(more) {
            Ok(()) => Ok(()),
            Err(refused) => Err(refused.value),
        },
        _ => Err(more),
    }
}

/// Puts pieces behind a value, or hands them back.
fn push_pieces(left: &mut Val, more: Vec<Vec<i64>>) -> Result<(), Vec<Vec<i64>>>
    ensures joined { OnOk result (meaning left.new ≡ items (the_items (meaning left.old) ++ joined (map (λ p. p.items) more.items))) }
    ensures refused { OnErr result (meaning left.new ≡ meaning left.old) }
    ensures handed_back { IfErr result (λ v. v ≡ more) }
{
    match left {
        Val::List(list) => match join_pieces(list, &more) {
            Ok(()) => Ok(()),
            Err(_) => Err(more),
        },
        Val::Pieces(pieces) => append_pieces(pieces, more),
        _ => Err(more),
    }
}

/// Joins two values that are lists, each whole or in pieces.
pub(crate) fn combine_lists(left: &mut Val, right: Val) -> Result<(), Val>
    ensures joined { OnOk result (meaning left.new ≡ items (the_items (meaning left.old) ++ the_items (meaning right))) }
    ensures refused { OnErr result (meaning left.new ≡ meaning left.old) }
    ensures handed_back { IfErr result (λ v. v ≡ right) }
{
    match right {
        Val::List(more) => match push_list(left, more) {
            Ok(()) => Ok(()),
            Err(more) => Err(Val::List(more)),
        },
        Val::Pieces(more) => match push_pieces(left, more) {
            Ok(()) => Ok(()),
            Err(more) => Err(Val::Pieces(more)),
        },
        other => Err(other),
    }
}

/// Keeps what a kind keeps of a list: the first numbers, the last ones, or all.
pub(crate) fn keep(kind: &Kind, list: &mut Vec<i64>)
    ensures { list.new.items ≡ trimmed kind.now list.old.items }
{
    match kind {
        Kind::First(n) => list.truncate(*n as usize),
        Kind::Last(n) => keep_last(list, *n as usize),
        _ => {}
    }
}

/// Joins a value to a list and keeps what the kind keeps, or hands the value back.
fn join_kept(kind: &Kind, list: &mut Vec<i64>, right: Val) -> Result<(), Val>
    ensures joined { OnOk result (list.new.items ≡ trimmed kind.now (list.old.items ++ the_items (meaning right))) }
    ensures refused { OnErr result (list.new.items ≡ list.old.items) }
    ensures handed_back { IfErr result (λ v. v ≡ right) }
{
    let joined = match &right {
        Val::List(more) => list.extend_from_slice(more),
        Val::Pieces(pieces) => join_pieces(list, pieces),
        _ => Err(AllocError),
    };
    if joined.is_err() {
        return Err(right);
    }
    keep(kind, list);
    Ok(())
}

/// Joins two lists of a kind and keeps what the kind keeps; the left one is whole afterwards.
pub(crate) fn combine_kept(
    alloc: Global,
    kind: &Kind,
    left: &mut Val,
    right: Val,
) -> Result<(), Val>
    ensures joined { OnOk result (meaning left.new ≡ items (trimmed kind.now (the_items (meaning left.old) ++ the_items (meaning right)))) }
    ensures refused { OnErr result (meaning left.new ≡ meaning left.old) }
    ensures handed_back { IfErr result (λ v. v ≡ right) }
{
    match left {
        Val::List(list) => join_kept(kind, list, right),
        Val::Pieces(pieces) => {
            let Ok(mut list) = joined_list(alloc, pieces) else {
                return Err(right);
            };
            match join_kept(kind, &mut list, right) {
                Ok(()) => {
                    *left = Val::List(list);
                    Ok(())
                }
                Err(right) => Err(right),
            }
        }
        _ => Err(right),
    }
}
