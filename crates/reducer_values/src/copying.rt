//! Copies of values.
ghost use Rattle.std.specs.Prelude.{◌≡◌, IfOk, map};
ghost use Rattle.monoid_laws.specs.Kinds.{meaning};

use crate::Val;
use crate::joining::joined_list;
use std::alloc::{AllocError, Global};

/// Copies of pieces of amounts.
fn copied_pieces(
    alloc: Global,
    pieces: &[Vec<(i64, i64)>],
) -> Result<Vec<Vec<(i64, i64)>>, AllocError>
    ensures { IfOk result (λ v. map (λ p. p.items) v.items ≡ map (λ p. p.items) pieces.now) }
{
    let mut copies = Vec::with_capacity(alloc, pieces.len())?;
    for piece in pieces {
        copies.push(piece.to_vec(alloc)?)?;
    }
    Ok(copies)
}

/// A value worth the same. Want of memory is the only error. The forms that most values have come first.
#[inline(always)]
pub fn copy_of(alloc: Global, value: &Val) -> Result<Val, AllocError>
    ensures { IfOk result (λ v. meaning v ≡ meaning value.now) }
{
    match value {
        Val::Int(number) => Ok(Val::Int(*number)),
        Val::Arg(best) => Ok(Val::Arg(*best)),
        other => copied(alloc, other),
    }
}

/// A value worth as much, whatever its form. Want of memory is the only error.
#[inline(never)]
fn copied(alloc: Global, value: &Val) -> Result<Val, AllocError>
    ensures { IfOk result (λ v. meaning v ≡ meaning value.now) }
{
    match value {
        Val::Int(number) => Ok(Val::Int(*number)),
        Val::List(list) => Ok(Val::List(list.to_vec(alloc)?)),
        Val::Pieces(pieces) => Ok(Val::List(joined_list(alloc, pieces)?)),
        Val::Arg(best) => Ok(Val::Arg(*best)),
        Val::Pair(factor, term) => Ok(Val::Pair(*factor, *term)),
        Val::Hist(amounts) => Ok(Val::Hist(amounts.to_vec(alloc)?)),
        Val::HistPieces(pieces) => Ok(Val::HistPieces(copied_pieces(alloc, pieces)?)),
        Val::Elem(element) => Ok(Val::Elem(*element)),
    }
}
