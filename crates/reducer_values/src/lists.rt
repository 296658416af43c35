//! A list in pieces.
ghost use Rattle.std.specs.Prelude.{◌≡◌, suc, OnOk, OnErr, IfOk, ◌++◌, ◌∷◌, [], map, length, true, false};
ghost use Rattle.monoid_laws.specs.Worth.{items, the_items};
ghost use Rattle.monoid_laws.specs.Kinds.{joined, meaning};

use crate::pieces::FULL;
use monoid_laws::Val;
use std::alloc::{AllocError, Global};
use std::mem;

/// Makes a whole list one piece. Where memory is refused it stays whole.
pub(crate) fn split_list(alloc: Global, value: &mut Val)
    ensures { meaning value.new ≡ meaning value.old }
{
    match value {
        Val::List(list) => {
            let Ok(mut pieces) = Vec::with_capacity(alloc, 2) else {
                return;
            };
            pieces.push_reserved(mem::replace(list, Vec::new(alloc)));
            *value = Val::Pieces(pieces);
        }
        _ => {}
    }
}

/// Makes a list that is full one piece.
#[inline(always)]
fn split_full(alloc: Global, value: &mut Val)
    ensures { meaning value.new ≡ meaning value.old }
{
    match value {
        Val::List(list) if list.len() >= FULL => split_list(alloc, value),
        _ => {}
    }
}

/// Puts a number into the last piece.
#[inline(always)]
fn push_in_last(pieces: &mut Vec<Vec<i64>>, last: usize, number: i64) -> Result<(), AllocError>
    requires { suc last ≡ length pieces.old.items }
    ensures pushed { OnOk result (joined (map (λ p. p.items) pieces.new.items) ≡ joined (map (λ p. p.items) pieces.old.items) ++ number ∷ []) }
    ensures refused { OnErr result (joined (map (λ p. p.items) pieces.new.items) ≡ joined (map (λ p. p.items) pieces.old.items)) }
{
    let piece = &mut pieces[last];
    match piece.push(number) {
        Ok(()) => Ok(()),
        Err(_) => Err(AllocError),
    }
}

/// Begins another piece with a number.
fn begin_piece(alloc: Global, pieces: &mut Vec<Vec<i64>>, number: i64) -> Result<(), AllocError>
    ensures pushed { OnOk result (joined (map (λ p. p.items) pieces.new.items) ≡ joined (map (λ p. p.items) pieces.old.items) ++ number ∷ []) }
    ensures refused { OnErr result (joined (map (λ p. p.items) pieces.new.items) ≡ joined (map (λ p. p.items) pieces.old.items)) }
{
    let mut piece = Vec::with_capacity(alloc, FULL)?;
    piece.push_reserved(number);
    match pieces.push(piece) {
        Ok(()) => Ok(()),
        Err(_) => Err(AllocError),
    }
}

/// Puts a number behind a list in pieces.
#[inline(always)]
fn push_number(alloc: Global, pieces: &mut Vec<Vec<i64>>, number: i64) -> Result<(), AllocError>
    ensures pushed { OnOk result (joined (map (λ p. p.items) pieces.new.items) ≡ joined (map (λ p. p.items) pieces.old.items) ++ number ∷ []) }
    ensures refused { OnErr result (joined (map (λ p. p.items) pieces.new.items) ≡ joined (map (λ p. p.items) pieces.old.items)) }
{
    let count = pieces.len();
    if count > 0 && pieces[count - 1].len() < FULL {
        return push_in_last(pieces, count - 1, number);
    }
    begin_piece(alloc, pieces, number)
}

/// Puts a number behind a list, whole or in pieces.
#[inline(always)]
pub(crate) fn add_number(alloc: Global, value: &mut Val, number: i64) -> Result<(), AllocError>
    ensures added { OnOk result (meaning value.new ≡ items (the_items (meaning value.old) ++ number ∷ [])) }
    ensures refused { OnErr result (meaning value.new ≡ meaning value.old) }
{
    split_full(alloc, value);
    match value {
        Val::List(list) => match list.push(number) {
            Ok(()) => Ok(()),
            Err(_) => Err(AllocError),
        },
        Val::Pieces(pieces) => push_number(alloc, pieces, number),
        _ => Err(AllocError),
    }
}

/// Puts numbers into the last piece, if memory isn't refused.
fn extend_in_last(pieces: &mut Vec<Vec<i64>>, last: usize, more: &[i64]) -> bool
    requires { suc last ≡ length pieces.old.items }
    ensures joined { result ≡ true → joined (map (λ p. p.items) pieces.new.items) ≡ joined (map (λ p. p.items) pieces.old.items) ++ more.now }
    ensures same { result ≡ false → joined (map (λ p. p.items) pieces.new.items) ≡ joined (map (λ p. p.items) pieces.old.items) }
{
    let piece = &mut pieces[last];
    match piece.extend_from_slice(more) {
        Ok(()) => true,
        Err(_) => false,
    }
}

/// Puts numbers into the last piece, if there is one with room for them.
fn extend_pieces(pieces: &mut Vec<Vec<i64>>, more: &[i64]) -> bool
    ensures joined { result ≡ true → joined (map (λ p. p.items) pieces.new.items) ≡ joined (map (λ p. p.items) pieces.old.items) ++ more.now }
    ensures same { result ≡ false → joined (map (λ p. p.items) pieces.new.items) ≡ joined (map (λ p. p.items) pieces.old.items) }
{
    let count = pieces.len();
    if count == 0 || more.len() > FULL || pieces[count - 1].len() > FULL - more.len() {
        return false;
    }
    extend_in_last(pieces, count - 1, more)
}

/// Puts a whole list into the last piece of a list in pieces, if there is room for it.
pub(crate) fn extend_last(left: &mut Val, right: &Val) -> bool
    ensures joined { result ≡ true → meaning left.new ≡ items (the_items (meaning left.old) ++ the_items (meaning right.now)) }
    ensures same { result ≡ false → meaning left.new ≡ meaning left.old }
{
    match right {
        Val::List(more) => match left {
            Val::Pieces(pieces) => extend_pieces(pieces, more),
            _ => false,
        },
        _ => false,
    }
}

/// Copies of pieces.
pub(crate) fn copied(alloc: Global, pieces: &[Vec<i64>]) -> Result<Vec<Vec<i64>>, AllocError>
    ensures { IfOk result (λ v. map (λ p. p.items) v.items ≡ map (λ p. p.items) pieces.now) }
{
    let mut copies = Vec::with_capacity(alloc, pieces.len())?;
    for piece in pieces {
        copies.push(piece.to_vec(alloc)?)?;
    }
    Ok(copies)
}
