//! The elements that the numbers of an update name.
ghost use Rattle.std.specs.Prelude.{◌≡◌, ℕ, ℤ, OnOk, IfErr, IfOk, IsOk, IfSome, OnSome, IsNone, true, false, length, ◌∷◌, []};
ghost use Rattle.monoid_laws.specs.Worth.{items, amounts, element};
ghost use Rattle.monoid_laws.specs.Kinds.{element_of, meaning, IsWorth, arity, names_element, refusal};
ghost use Rattle.reducer_values.specs.Forms.{is_fixed, trimmed};
ghost use Rattle.monoid_laws.specs.declared.Kind.TheVariants as kinds;

use crate::joining::keep;
use crate::{InjectError, Kind, Val};
use reducer_kinds::elements::table_element;
use std::alloc::{AllocError, Global};

/// The list of one number, as the kind keeps it.
pub(crate) fn one_number(alloc: Global, kind: Kind, number: i64) -> Result<Val, AllocError>
    ensures { IfOk result (λ v. meaning v ≡ items (trimmed kind (number ∷ []))) }
{
    let mut list = Vec::new(alloc);
    list.push(number)?;
    keep(&kind, &mut list);
    Ok(Val::List(list))
}

/// The amount at one key.
pub(crate) fn one_amount(alloc: Global, key: i64, amount: i64) -> Result<Val, AllocError>
    ensures { IfOk result (λ v. meaning v ≡ amounts ((key, amount) ∷ [])) }
{
    let mut list = Vec::new(alloc);
    list.push((key, amount))?;
    Ok(Val::Hist(list))
}

/// The element that the numbers of an update name. An error is BadElement, where a table has no such element, or NoMemory.
pub fn inject(alloc: Global, kind: Kind, numbers: &[i64]) -> Result<Val, InjectError>
    requires count { length numbers.now ≡ arity kind }
    ensures value { IfOk result (λ v. meaning v ≡ element_of kind numbers.now) }
    ensures of_kind { OnOk result (IsWorth kind (element_of kind numbers.now)) }
    ensures named { OnOk result (names_element kind numbers.now ≡ true) }
    ensures cause { IfErr result (λ e. e ≡ refusal kind numbers.now) }
    ensures fixed { is_fixed kind ≡ true → names_element kind numbers.now ≡ true → IsOk result }
{
    let grown = match kind {
        Kind::Argmax => return Ok(Val::Arg(Some((numbers[0], numbers[1])))),
        Kind::Affine => return Ok(Val::Pair(numbers[0], numbers[1])),
        Kind::Table(table) => {
            return match table_element(table, numbers[0]) {
                Some(element) => Ok(Val::Elem(element)),
                None => Err(InjectError::BadElement),
            };
        }
        Kind::List | Kind::First(_) | Kind::Last(_) => one_number(alloc, kind, numbers[0]),
        Kind::Hist => one_amount(alloc, numbers[0], numbers[1]),
        _ => return Ok(Val::Int(numbers[0])),
    };
    match grown {
        Ok(value) => Ok(value),
        Err(_) => Err(InjectError::NoMemory),
    }
}
