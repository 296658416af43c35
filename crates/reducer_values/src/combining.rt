//! Two values of a kind combined.
ghost use Rattle.std.specs.Prelude.{◌≡◌, OnOk, OnErr, IfErr, IsOk, IsTrue, ◌↔◌, All, [], true, false};
ghost use Rattle.monoid_laws.specs.Kinds.{operate, identity_of, meaning, IsWorth};
ghost use Rattle.reducer_values.specs.Forms.{is_fixed, IsBlank};

use crate::adding::combine_amounts;
use crate::copying::copy_of;
use crate::fixed::{is_fixed, put_fixed};
use crate::joining::{combine_kept, combine_lists};
use crate::{Kind, Val};
use reducer_kinds::fixed::{put_best, put_number};
use std::alloc::{AllocError, Global};

/// Whether every piece is empty.
fn all_empty<T: Drop>(pieces: &[Vec<T>]) -> bool
    ensures { IsTrue result ↔ All (λ p. p.items ≡ []) pieces.now }
{
    for piece in pieces {
        if !piece.is_empty() {
            return false;
        }
    }
    true
}

/// Whether a value is a list or amounts, and holds nothing.
fn is_blank(value: &Val) -> bool
    ensures { IsTrue result ↔ IsBlank (meaning value.now) }
{
    match value {
        Val::List(list) => list.is_empty(),
        Val::Pieces(pieces) => all_empty(pieces),
        Val::Hist(amounts) => amounts.is_empty(),
        Val::HistPieces(pieces) => all_empty(pieces),
        _ => false,
    }
}

/// Combines two values of a kind that takes memory.
fn combine_growing(alloc: Global, kind: &Kind, left: &mut Val, right: Val) -> Result<(), Val>
    requires growing { is_fixed kind.now ≡ false }
    requires left_value { IsWorth kind.now (meaning left.old) }
    requires right_value { IsWorth kind.now (meaning right) }
    ensures combined { OnOk result (meaning left.new ≡ operate kind.now (meaning left.old) (meaning right)) }
    ensures refused { OnErr result (meaning left.new ≡ meaning left.old) }
    ensures handed_back { IfErr result (λ v. v ≡ right) }
{
    match kind {
        Kind::List => combine_lists(left, right),
        Kind::Hist => combine_amounts(alloc, left, right),
        _ => combine_kept(alloc, kind, left, right),
    }
}

/// Makes `left` the two combined, left then right; where memory is refused, hands `right` back. Numbers and best pairs are
/// quickest.
#[inline(always)]
pub fn combine(alloc: Global, kind: &Kind, left: &mut Val, right: Val) -> Result<(), Val>
    requires left_value { IsWorth kind.now (meaning left.old) }
    requires right_value { IsWorth kind.now (meaning right) }
    ensures combined { OnOk result (meaning left.new
        ≡ operate kind.now (meaning left.old) (meaning right)) }
    ensures refused { OnErr result (meaning left.new ≡ meaning left.old) }
    ensures handed_back { IfErr result (λ v. v ≡ right) }
    ensures fixed { is_fixed kind.now ≡ true → IsOk result }
    ensures room { meaning left.old ≡ identity_of kind.now → IsOk result }
{
    match right {
        Val::Int(number) => {
            put_number(kind, left, number);
            Ok(())
        }
        Val::Arg(best) => {
            put_best(left, best);
            Ok(())
        }
        other => combine_by_kind(alloc, kind, left, other),
    }
}

/// Makes `left` the two combined as their kind says, whatever form they have; where memory is refused, hands `right` back.
#[inline(never)]
fn combine_by_kind(alloc: Global, kind: &Kind, left: &mut Val, right: Val) -> Result<(), Val>
    requires left_value { IsWorth kind.now (meaning left.old) }
    requires right_value { IsWorth kind.now (meaning right) }
    ensures combined { OnOk result (meaning left.new
        ≡ operate kind.now (meaning left.old) (meaning right)) }
    ensures refused { OnErr result (meaning left.new ≡ meaning left.old) }
    ensures handed_back { IfErr result (λ v. v ≡ right) }
    ensures fixed { is_fixed kind.now ≡ true → IsOk result }
    ensures room { meaning left.old ≡ identity_of kind.now → IsOk result }
{
    if is_fixed(kind) {
        put_fixed(kind, left, &right);
        return Ok(());
    }
    match combine_growing(alloc, kind, left, right) {
        Ok(()) => Ok(()),
        Err(right) => {
            if is_blank(left) {
                *left = right;
                return Ok(());
            }
            Err(right)
        }
    }
}

/// Combines a copy of a value on the right of another. It is refused for want of memory alone; a value that takes none isn't
/// copied.
pub fn combine_copy(
    alloc: Global,
    kind: &Kind,
    held: &mut Val,
    value: &Val,
) -> Result<(), AllocError>
    requires held { IsWorth kind.now (meaning held.old) }
    requires value { IsWorth kind.now (meaning value.now) }
    ensures combined { OnOk result
        (meaning held.new ≡ operate kind.now (meaning held.old) (meaning value.now)) }
{
    if is_fixed(kind) {
        put_fixed(kind, held, value);
        return Ok(());
    }
    let copy = copy_of(alloc, value)?;
    match combine(alloc, kind, held, copy) {
        Ok(()) => Ok(()),
        Err(_) => Err(AllocError),
    }
}
