//! Values kept in pieces: another piece of a list, or of amounts by key, begins once the last one is full.
ghost use Rattle.std.specs.Prelude.{◌≡◌, OnOk, OnErr, IfOk, IfErr, IsOk, length, true, false};
ghost use Rattle.monoid_laws.specs.Kinds.{meaning, operate, identity_of, element_of, arity, names_element, refusal, IsWorth};

use crate::amounts::{add_at_key, split_amounts};
use crate::lists::{add_number, copied, extend_last, split_list};
use crate::{InjectError, Kind, Val, add_at_once, add_element, combine, copy_of};
use std::alloc::{AllocError, Global};

/// How many numbers or keys fill a piece.
pub(crate) const FULL: usize = 64;

/// How many numbers or keys a whole value holds; more than fill a piece where there are pieces.
fn count_of(value: &Val) -> usize {
    match value {
        Val::List(list) => list.len(),
        Val::Hist(held) => held.len(),
        Val::Pieces(_) | Val::HistPieces(_) => FULL + 1,
        _ => 0,
    }
}

/// Whether a value and one more behind it are better kept in pieces.
fn outgrow(left: &Val, right: &Val) -> bool {
    match right {
        Val::Pieces(_) | Val::HistPieces(_) => true,
        _ => {
            let held = count_of(left);
            held > FULL || held > 0 && count_of(right) > FULL - held
        }
    }
}

/// Has a value that outgrows one piece together with another become a piece, where memory isn't refused.
fn split_for(alloc: Global, kind: &Kind, left: &mut Val, right: &Val)
    requires { IsWorth kind.now (meaning left.old) }
    ensures { meaning left.new ≡ meaning left.old }
{
    if !outgrow(left, right) {
        return;
    }
    match kind {
        Kind::List => split_list(alloc, left),
        Kind::Hist => split_amounts(alloc, left),
        _ => {}
    }
}

/// Puts a short list into the last piece of another one, if there is room.
fn join_short(kind: &Kind, left: &mut Val, right: &Val) -> bool
    ensures joined { result ≡ true → meaning left.new ≡ operate kind.now (meaning left.old) (meaning right.now) }
    ensures same { result ≡ false → meaning left.new ≡ meaning left.old }
{
    match kind {
        Kind::List => extend_last(left, right),
        _ => false,
    }
}

/// Makes `left` the two combined, of a kind whose values may be kept in pieces.
#[inline(never)]
fn combine_long(alloc: Global, kind: &Kind, left: &mut Val, right: Val) -> Result<(), Val>
    requires left_value { IsWorth kind.now (meaning left.old) }
    requires right_value { IsWorth kind.now (meaning right) }
    ensures combined { OnOk result (meaning left.new
        ≡ operate kind.now (meaning left.old) (meaning right)) }
    ensures refused { OnErr result (meaning left.new ≡ meaning left.old) }
    ensures handed_back { IfErr result (λ v. v ≡ right) }
    ensures room { meaning left.old ≡ identity_of kind.now → IsOk result }
{
    if join_short(kind, left, &right) {
        return Ok(());
    }
    split_for(alloc, kind, left, &right);
    combine(alloc, kind, left, right)
}

/// Combines a number on the right of a sum, or a pair on the right of a best one; whether that was done.
#[inline(always)]
pub fn combine_at_once(kind: &Kind, left: &mut Val, right: &Val) -> bool
    ensures combined { result ≡ true → meaning left.new ≡ operate kind.now (meaning left.old) (meaning right.now) }
    ensures same { result ≡ false → meaning left.new ≡ meaning left.old }
{
    match kind {
        Kind::Add => match right {
            Val::Int(number) => add_at_once(kind, left, &[*number]),
            _ => false,
        },
        Kind::Argmax => match right {
            Val::Arg(Some((value, key))) => add_at_once(kind, left, &[*value, *key]),
            _ => false,
        },
        _ => false,
    }
}

/// Makes `left` the two combined, left then right; where memory is refused, hands `right` back. Pieces stay pieces.
#[inline(never)]
pub fn combine_in_pieces(alloc: Global, kind: &Kind, left: &mut Val, right: Val) -> Result<(), Val>
    requires left_value { IsWorth kind.now (meaning left.old) }
    requires right_value { IsWorth kind.now (meaning right) }
    ensures combined { OnOk result (meaning left.new
        ≡ operate kind.now (meaning left.old) (meaning right)) }
    ensures refused { OnErr result (meaning left.new ≡ meaning left.old) }
    ensures handed_back { IfErr result (λ v. v ≡ right) }
    ensures room { meaning left.old ≡ identity_of kind.now → IsOk result }
{
    match kind {
        Kind::List | Kind::Hist => combine_long(alloc, kind, left, right),
        _ => combine(alloc, kind, left, right),
    }
}

/// Combines the element that the numbers name on the right of a value; refused as by `add_element`. Sums and best pairs are
/// quickest.
#[inline(always)]
pub fn add_in_pieces(
    alloc: Global,
    kind: &Kind,
    value: &mut Val,
    numbers: &[i64],
) -> Result<(), InjectError>
    requires count { length numbers.now ≡ arity kind.now }
    requires of_kind { IsWorth kind.now (meaning value.old) }
    ensures combined { OnOk result (meaning value.new
        ≡ operate kind.now (meaning value.old) (element_of kind.now numbers.now)) }
    ensures element { OnOk result (IsWorth kind.now (element_of kind.now numbers.now)) }
    ensures named { OnOk result (names_element kind.now numbers.now ≡ true) }
    ensures refused { OnErr result (meaning value.new ≡ meaning value.old) }
    ensures cause { IfErr result (λ e. e ≡ refusal kind.now numbers.now) }
{
    if add_at_once(kind, value, numbers) {
        return Ok(());
    }
    match kind {
        Kind::List | Kind::Hist => add_by_kind(alloc, kind, value, numbers),
        _ => add_element(alloc, kind, value, numbers),
    }
}

/// Combines the element that the numbers name on the right of a value of whatever kind.
#[inline(never)]
fn add_by_kind(
    alloc: Global,
    kind: &Kind,
    value: &mut Val,
    numbers: &[i64],
) -> Result<(), InjectError>
    requires count { length numbers.now ≡ arity kind.now }
    requires of_kind { IsWorth kind.now (meaning value.old) }
    ensures combined { OnOk result (meaning value.new
        ≡ operate kind.now (meaning value.old) (element_of kind.now numbers.now)) }
    ensures element { OnOk result (IsWorth kind.now (element_of kind.now numbers.now)) }
    ensures named { OnOk result (names_element kind.now numbers.now ≡ true) }
    ensures refused { OnErr result (meaning value.new ≡ meaning value.old) }
    ensures cause { IfErr result (λ e. e ≡ refusal kind.now numbers.now) }
{
    let added = match kind {
        Kind::List => add_number(alloc, value, numbers[0]),
        Kind::Hist => add_at_key(alloc, value, numbers[0], numbers[1]),
        _ => return add_element(alloc, kind, value, numbers),
    };
    match added {
        Ok(()) => Ok(()),
        Err(_) => Err(InjectError::NoMemory),
    }
}

/// A value worth as much, in the same pieces, whatever its form. Want of memory is the only error.
#[inline(never)]
pub fn copied_in_pieces(alloc: Global, value: &Val) -> Result<Val, AllocError>
    ensures { IfOk result (λ v. meaning v ≡ meaning value.now) }
{
    match value {
        Val::Pieces(pieces) => Ok(Val::Pieces(copied(alloc, pieces)?)),
        whole => copy_of(alloc, whole),
    }
}
