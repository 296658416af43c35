//! Updates in place: a number behind a list, an amount at a key.
ghost use Rattle.std.specs.Prelude.{◌≡◌, ℕ, ◌≤◌, OnOk, OnErr, IfErr, IsOk, ◌++◌, ◌∷◌, [], take, length, true, false, Some};
ghost use Rattle.monoid_laws.specs.Worth.{items, amounts, best, the_amounts, the_best};
ghost use Rattle.monoid_laws.specs.Kinds.{last_of, merge, meaning, operate, element_of, arity, names_element, refusal, IsWorth, IsAmounts, IsNumberKind};
ghost use Rattle.monoid_laws.specs.Kinds.{better};
ghost use Rattle.monoid_laws.specs.declared.Kind.TheVariants as kinds;
ghost use Rattle.reducer_values.specs.Forms.{trimmed, is_fixed, IsListKind};

use crate::adding::add_amount;
use crate::elements::{one_amount, one_number};
use crate::fixed::combine_fixed;
use crate::{InjectError, Kind, Val, combine, inject};
use reducer_kinds::fixed::{combine_numbers, number_of, sum_of};
use std::alloc::{AllocError, Global};

/// Puts a number behind the first `n` of a list, where there is room for it.
fn push_first(list: &mut Vec<i64>, n: usize, number: i64) -> Result<(), AllocError>
    requires { length list.old.items ≤ n }
    ensures pushed { OnOk result (list.new.items ≡ take n (list.old.items ++ take n (number ∷ []))) }
    ensures refused { OnErr result (list.new.items ≡ list.old.items) }
{
    if list.len() == n {
        return Ok(());
    }
    match list.push(number) {
        Ok(()) => Ok(()),
        Err(_) => Err(AllocError),
    }
}

/// Puts a number behind the last `n` of a list; a full list loses its oldest number.
fn push_last(list: &mut Vec<i64>, n: usize, number: i64) -> Result<(), AllocError>
    requires { length list.old.items ≤ n }
    ensures pushed { OnOk result (list.new.items ≡ last_of n (list.old.items ++ last_of n (number ∷ []))) }
    ensures refused { OnErr result (list.new.items ≡ list.old.items) }
{
    if n == 0 {
        return Ok(());
    }
    if list.len() == n {
        list.remove(0);
        list.push_reserved(number);
        return Ok(());
    }
    match list.push(number) {
        Ok(()) => Ok(()),
        Err(_) => Err(AllocError),
    }
}

/// Puts a number behind a list and keeps what the kind keeps.
fn push_kept(kind: &Kind, list: &mut Vec<i64>, number: i64) -> Result<(), AllocError>
    requires { IsWorth kind.now (items list.old.items) }
    ensures pushed { OnOk result (list.new.items ≡ trimmed kind.now (list.old.items ++ trimmed kind.now (number ∷ []))) }
    ensures refused { OnErr result (list.new.items ≡ list.old.items) }
{
    match kind {
        Kind::First(n) => push_first(list, *n as usize, number),
        Kind::Last(n) => push_last(list, *n as usize, number),
        _ => match list.push(number) {
            Ok(()) => Ok(()),
            Err(_) => Err(AllocError),
        },
    }
}

/// Puts a number behind a value that is a list; a whole one takes it in place.
#[inline(never)]
fn add_number(alloc: Global, kind: &Kind, value: &mut Val, number: i64) -> Result<(), AllocError>
    requires listed { IsListKind kind.now }
    requires of_kind { IsWorth kind.now (meaning value.old) }
    ensures added { OnOk result (meaning value.new ≡ operate kind.now (meaning value.old) (element_of kind.now (number ∷ []))) }
    ensures refused { OnErr result (meaning value.new ≡ meaning value.old) }
{
    match value {
        Val::List(list) => push_kept(kind, list, number),
        other => {
            let element = one_number(alloc, *kind, number)?;
            match combine(alloc, kind, other, element) {
                Ok(()) => Ok(()),
                Err(_) => Err(AllocError),
            }
        }
    }
}

/// Adds an amount at a key to a value that is amounts; a whole one takes it in place.
#[inline(never)]
fn add_at_key(alloc: Global, value: &mut Val, key: i64, amount: i64) -> Result<(), AllocError>
    requires { IsAmounts (meaning value.old) }
    ensures added { OnOk result (meaning value.new ≡ amounts (merge (the_amounts (meaning value.old)) ((key, amount) ∷ []))) }
    ensures refused { OnErr result (meaning value.new ≡ meaning value.old) }
{
    match value {
        Val::Hist(held) => add_amount(held, key, amount),
        other => {
            let element = one_amount(alloc, key, amount)?;
            match combine(alloc, &Kind::Hist, other, element) {
                Ok(()) => Ok(()),
                Err(_) => Err(AllocError),
            }
        }
    }
}

/// Puts what a kind of numbers makes of a value of another form and a number in its place.
#[inline(never)]
fn set_number(kind: &Kind, value: &mut Val, number: i64)
    requires { IsNumberKind kind.now }
    ensures { meaning value.new ≡ operate kind.now (meaning value.old) (element_of kind.now (number ∷ [])) }
{
    *value = Val::Int(combine_numbers(kind, number_of(value), number));
}

/// Combines a number on the right of a value of a kind of numbers.
#[inline(always)]
fn add_to_number(kind: &Kind, value: &mut Val, number: i64)
    requires { IsNumberKind kind.now }
    ensures { meaning value.new ≡ operate kind.now (meaning value.old) (element_of kind.now (number ∷ [])) }
{
    match value {
        Val::Int(held) => *held = combine_numbers(kind, *held, number),
        other => set_number(kind, other, number),
    }
}

/// Combines an element that takes no memory on the right of a value.
#[inline(never)]
fn add_fixed(
    alloc: Global,
    kind: &Kind,
    value: &mut Val,
    numbers: &[i64],
) -> Result<(), InjectError>
    requires fixed { is_fixed kind.now ≡ true }
    requires count { length numbers.now ≡ arity kind.now }
    requires of_kind { IsWorth kind.now (meaning value.old) }
    ensures combined { OnOk result (meaning value.new ≡ operate kind.now (meaning value.old) (element_of kind.now numbers.now)) }
    ensures element { OnOk result (IsWorth kind.now (element_of kind.now numbers.now)) }
    ensures named { OnOk result (names_element kind.now numbers.now ≡ true) }
    ensures refused { OnErr result (meaning value.new ≡ meaning value.old) }
    ensures cause { IfErr result (λ e. e ≡ refusal kind.now numbers.now) }
    ensures succeeds { names_element kind.now numbers.now ≡ true → IsOk result }
{
    let element = inject(alloc, *kind, numbers)?;
    *value = combine_fixed(kind, value, &element);
    Ok(())
}

/// Adds a number to a sum in its own form; whether that was done.
#[inline(always)]
fn add_to_sum(value: &mut Val, number: i64) -> bool
    ensures added { result ≡ true → meaning value.new ≡ operate kinds.Add (meaning value.old) (element_of kinds.Add (number ∷ [])) }
    ensures same { result ≡ false → value.new ≡ value.old }
{
    match value {
        Val::Int(held) => {
            *held = sum_of(*held, number);
            true
        }
        _ => false,
    }
}

/// Puts a pair in place of the best one, where its first number is greater, in a best pair's own form; whether that was done.
#[inline(always)]
fn add_to_best(value: &mut Val, measure: i64, row: i64) -> bool
    ensures added { result ≡ true → meaning value.new ≡ best (better (the_best (meaning value.old)) (Some (measure, row))) }
    ensures same { result ≡ false → value.new ≡ value.old }
{
    match value {
        Val::Arg(held) => {
            put_better(held, measure, row);
            true
        }
        _ => false,
    }
}

/// Puts a pair in place of the best one, where its first number is greater.
#[inline(always)]
fn put_better(held: &mut Option<(i64, i64)>, measure: i64, row: i64)
    ensures { held.new ≡ better held.old (Some (measure, row)) }
{
    match held {
        Some(pair) => {
            if pair.0 < measure {
                *pair = (measure, row);
            }
        }
        None => *held = Some((measure, row)),
    }
}

/// Combines the element that the numbers name on the right of a value where that is a matter of a few steps, as for sums and best
/// pairs in their own form; whether that was done.
#[inline(always)]
pub fn add_at_once(kind: &Kind, value: &mut Val, numbers: &[i64]) -> bool
    requires count { length numbers.now ≡ arity kind.now }
    ensures combined { result ≡ true → meaning value.new
        ≡ operate kind.now (meaning value.old) (element_of kind.now numbers.now) }
    ensures element { result ≡ true → IsWorth kind.now (element_of kind.now numbers.now) }
    ensures named { result ≡ true → names_element kind.now numbers.now ≡ true }
    ensures same { result ≡ false → value.new ≡ value.old }
{
    match kind {
        Kind::Add => add_to_sum(value, numbers[0]),
        Kind::Argmax => add_to_best(value, numbers[0], numbers[1]),
        _ => false,
    }
}

/// Combines the element that the numbers name on the right of a value of whatever kind.
#[inline(never)]
fn add_by_kind(
    alloc: Global,
    kind: &Kind,
    value: &mut Val,
    numbers: &[i64],
) -> Result<(), InjectError>
    requires count { length numbers.now ≡ arity kind.now }
    requires of_kind { IsWorth kind.now (meaning value.old) }
    ensures combined { OnOk result (meaning value.new
        ≡ operate kind.now (meaning value.old) (element_of kind.now numbers.now)) }
    ensures element { OnOk result (IsWorth kind.now (element_of kind.now numbers.now)) }
    ensures named { OnOk result (names_element kind.now numbers.now ≡ true) }
    ensures refused { OnErr result (meaning value.new ≡ meaning value.old) }
    ensures cause { IfErr result (λ e. e ≡ refusal kind.now numbers.now) }
    ensures fixed { is_fixed kind.now ≡ true → names_element kind.now numbers.now ≡ true
        → IsOk result }
{
    let added = match kind {
        Kind::List | Kind::First(_) | Kind::Last(_) => add_number(alloc, kind, value, numbers[0]),
        Kind::Hist => add_at_key(alloc, value, numbers[0], numbers[1]),
        Kind::Argmax | Kind::Affine | Kind::Table(_) => return add_fixed(
            alloc, kind, value, numbers,
        ),
        _ => {
            add_to_number(kind, value, numbers[0]);
            return Ok(());
        }
    };
    match added {
        Ok(()) => Ok(()),
        Err(_) => Err(InjectError::NoMemory),
    }
}

/// Combines the element that the numbers name on the right of a value. An error is BadElement, where a table has no such
/// element, or NoMemory; the value is then worth the same as before. Sums and best pairs are
/// quickest.
#[inline(always)]
pub fn add_element(
    alloc: Global,
    kind: &Kind,
    value: &mut Val,
    numbers: &[i64],
) -> Result<(), InjectError>
    requires count { length numbers.now ≡ arity kind.now }
    requires of_kind { IsWorth kind.now (meaning value.old) }
    ensures combined { OnOk result (meaning value.new
        ≡ operate kind.now (meaning value.old) (element_of kind.now numbers.now)) }
    ensures element { OnOk result (IsWorth kind.now (element_of kind.now numbers.now)) }
    ensures named { OnOk result (names_element kind.now numbers.now ≡ true) }
    ensures refused { OnErr result (meaning value.new ≡ meaning value.old) }
    ensures cause { IfErr result (λ e. e ≡ refusal kind.now numbers.now) }
    ensures fixed { is_fixed kind.now ≡ true → names_element kind.now numbers.now ≡ true
        → IsOk result }
{
    if add_at_once(kind, value, numbers) {
        return Ok(());
    }
    add_by_kind(alloc, kind, value, numbers)
}
