//! Amounts by key, in pieces.
ghost use Rattle.std.specs.Prelude.{◌≡◌, suc, OnOk, OnErr, ◌∷◌, [], map, length, true, false, slice_index_or};
ghost use Rattle.monoid_laws.specs.Worth.{amounts, the_amounts};
ghost use Rattle.monoid_laws.specs.Kinds.{merge, merged, meaning, IsAmounts, IsRising};

use crate::adding::{add_amount, merge_amounts};
use crate::pieces::FULL;
use monoid_laws::Val;
use std::alloc::{AllocError, Global};
use std::mem;

/// More pieces than get shorter and shorter from the first to the last.
const MOST_MERGES: usize = 64;

/// Makes whole amounts one piece, and of the last pieces one where that keeps them few. Where memory is refused they stay as they are.
pub(crate) fn split_amounts(alloc: Global, value: &mut Val)
    requires { IsAmounts (meaning value.old) }
    ensures { meaning value.new ≡ meaning value.old }
{
    match value {
        Val::Hist(held) => {
            let Ok(mut pieces) = Vec::with_capacity(alloc, 2) else {
                return;
            };
            pieces.push_reserved(mem::replace(held, Vec::new(alloc)));
            *value = Val::HistPieces(pieces);
        }
        Val::HistPieces(pieces) => merge_last(alloc, pieces),
        _ => {}
    }
}

/// Whether an amount is among these by its key.
fn has_key(amounts: &[(i64, i64)], key: i64) -> bool {
    for entry in amounts {
        if entry.0 == key {
            return true;
        }
    }
    false
}

/// Whether a piece takes an amount at a key: it is not full, or the key is there.
#[inline(always)]
fn takes(piece: &[(i64, i64)], key: i64) -> bool {
    piece.len() < FULL || piece.len() == FULL && has_key(piece, key)
}

/// Whether the keys rise.
fn rises(amounts: &[(i64, i64)]) -> bool
    ensures { result ≡ true → IsRising amounts.now }
{
    let mut i = 1;
    while i < amounts.len() {
        if amounts[i - 1].0 >= amounts[i].0 {
            return false;
        }
        i += 1;
    }
    true
}

/// Whether two pieces can be merged, and the second isn't the shorter.
fn may_merge(left: &[(i64, i64)], right: &[(i64, i64)]) -> bool
    ensures left { result ≡ true → IsRising left.now }
    ensures right { result ≡ true → IsRising right.now }
{
    if left.len() > right.len() {
        return false;
    }
    if !rises(left) {
        return false;
    }
    rises(right)
}

/// Merges the last piece with one behind it, where the keys of both rise and it isn't the longer one; whether it did.
fn merge_in_last(
    alloc: Global,
    pieces: &mut Vec<Vec<(i64, i64)>>,
    last: usize,
    right: &[(i64, i64)],
) -> bool
    requires { suc last ≡ length pieces.old.items }
    ensures merged { result ≡ true → merged (map (λ p. p.items) pieces.new.items) ≡ merge (merged (map (λ p. p.items) pieces.old.items)) right.now }
    ensures rising { result ≡ true → IsRising right.now }
    ensures same { result ≡ false → pieces.new ≡ pieces.old }
{
    let piece = &pieces[last];
    if !may_merge(piece, right) {
        return false;
    }
    match merge_amounts(alloc, piece, right) {
        Ok(sums) => {
            pieces[last] = sums;
            true
        }
        Err(_) => false,
    }
}

/// Merges the last piece, if there is one, with one behind it; whether it did.
fn merge_behind(alloc: Global, pieces: &mut Vec<Vec<(i64, i64)>>, right: &[(i64, i64)]) -> bool
    ensures merged { result ≡ true → merged (map (λ p. p.items) pieces.new.items) ≡ merge (merged (map (λ p. p.items) pieces.old.items)) right.now }
    ensures rising { result ≡ true → IsRising right.now }
    ensures same { result ≡ false → pieces.new ≡ pieces.old }
{
    let count = pieces.len();
    if count == 0 {
        return false;
    }
    merge_in_last(alloc, pieces, count - 1, right)
}

/// Makes the last two pieces one, where neither is out of order and the last one isn't the shorter; whether it did.
fn merge_two(alloc: Global, pieces: &mut Vec<Vec<(i64, i64)>>) -> bool
    ensures { merged (map (λ p. p.items) pieces.new.items) ≡ merged (map (λ p. p.items) pieces.old.items) }
{
    let Some(right) = pieces.pop() else {
        return false;
    };
    if merge_behind(alloc, pieces, &right) {
        return true;
    }
    pieces.push_reserved(right);
    false
}

/// Makes one of the last pieces as long as the last one isn't the shorter. So pieces stay few, and few of them hold one key.
fn merge_last(alloc: Global, pieces: &mut Vec<Vec<(i64, i64)>>)
    ensures { merged (map (λ p. p.items) pieces.new.items) ≡ merged (map (λ p. p.items) pieces.old.items) }
{
    for _ in 0..MOST_MERGES {
        if !merge_two(alloc, pieces) {
            return;
        }
    }
}

/// Makes amounts one piece that don't take another amount at a key.
#[inline(always)]
fn split_full(alloc: Global, value: &mut Val, key: i64)
    requires { IsAmounts (meaning value.old) }
    ensures same { meaning value.new ≡ meaning value.old }
    ensures still { IsAmounts (meaning value.new) }
{
    match value {
        Val::Hist(held) if !takes(held, key) => split_amounts(alloc, value),
        _ => {}
    }
}

/// Whether the last piece takes an amount at a key, and its keys rise, which those of a piece that came from elsewhere may not.
fn last_takes(pieces: &[Vec<(i64, i64)>], last: usize, key: i64) -> bool
    requires { suc last ≡ length pieces.now }
    ensures { result ≡ true → IsRising (slice_index_or (map (λ p. p.items) pieces.now) last []) }
{
    let piece = &pieces[last];
    if !takes(piece, key) {
        return false;
    }
    rises(piece)
}

/// Adds an amount at a key of the last piece, whose keys rise.
fn add_in_last(
    pieces: &mut Vec<Vec<(i64, i64)>>,
    last: usize,
    key: i64,
    amount: i64,
) -> Result<(), AllocError>
    requires last { suc last ≡ length pieces.old.items }
    requires rising { IsRising (slice_index_or (map (λ p. p.items) pieces.old.items) last []) }
    ensures added { OnOk result (merged (map (λ p. p.items) pieces.new.items) ≡ merge (merged (map (λ p. p.items) pieces.old.items)) ((key, amount) ∷ [])) }
    ensures refused { OnErr result (merged (map (λ p. p.items) pieces.new.items) ≡ merged (map (λ p. p.items) pieces.old.items)) }
{
    let piece = &mut pieces[last];
    add_amount(piece, key, amount)
}

/// Begins another piece with an amount.
fn begin_piece(
    alloc: Global,
    pieces: &mut Vec<Vec<(i64, i64)>>,
    key: i64,
    amount: i64,
) -> Result<(), AllocError>
    ensures added { OnOk result (merged (map (λ p. p.items) pieces.new.items) ≡ merge (merged (map (λ p. p.items) pieces.old.items)) ((key, amount) ∷ [])) }
    ensures refused { OnErr result (merged (map (λ p. p.items) pieces.new.items) ≡ merged (map (λ p. p.items) pieces.old.items)) }
{
    let mut piece = Vec::with_capacity(alloc, FULL)?;
    piece.push_reserved((key, amount));
    match pieces.push(piece) {
        Ok(()) => Ok(()),
        Err(_) => Err(AllocError),
    }
}

/// Adds an amount at a key to amounts in pieces.
fn add_to_pieces(
    alloc: Global,
    pieces: &mut Vec<Vec<(i64, i64)>>,
    key: i64,
    amount: i64,
) -> Result<(), AllocError>
    ensures added { OnOk result (merged (map (λ p. p.items) pieces.new.items) ≡ merge (merged (map (λ p. p.items) pieces.old.items)) ((key, amount) ∷ [])) }
    ensures refused { OnErr result (merged (map (λ p. p.items) pieces.new.items) ≡ merged (map (λ p. p.items) pieces.old.items)) }
{
    let count = pieces.len();
    if count > 0 && last_takes(pieces, count - 1, key) {
        return add_in_last(pieces, count - 1, key, amount);
    }
    merge_last(alloc, pieces);
    begin_piece(alloc, pieces, key, amount)
}

/// Adds an amount at a key to a value that is amounts, whole or in pieces.
pub(crate) fn add_at_key(
    alloc: Global,
    value: &mut Val,
    key: i64,
    amount: i64,
) -> Result<(), AllocError>
    requires { IsAmounts (meaning value.old) }
    ensures added { OnOk result (meaning value.new ≡ amounts (merge (the_amounts (meaning value.old)) ((key, amount) ∷ []))) }
    ensures refused { OnErr result (meaning value.new ≡ meaning value.old) }
{
    split_full(alloc, value, key);
    match value {
        Val::Hist(held) => add_amount(held, key, amount),
        Val::HistPieces(pieces) => add_to_pieces(alloc, pieces, key, amount),
        _ => Err(AllocError),
    }
}
