// Updates of reducers.
ghost use Rattle.std.specs.Prelude.{◌≡◌, ◌<◌, OnErr, OnOk, IfErr, IfOk, true, false, if◌then◌else◌, length};
ghost use Rattle.monoid_laws.specs.Kinds.{arity as arity_of, names_element, element_of};
ghost use Rattle.hypermaps.specs.Layer.{IsAt};
ghost use Rattle.positions.specs.Layers.{updating};
ghost use Rattle.layers.specs.Updates.{is_list as is_list_kind, IsIdentity};

use crate::layer::Layer;
use monoid_laws::{InjectError, Kind};
use std::alloc::AllocError;
use view_pool::View;

/// How many numbers an update takes.
#[inline(always)]
pub fn arity(kind: &Kind) -> usize
    ensures arity { result ≡ arity_of kind.now }
{
    match kind {
        Kind::Argmax | Kind::Affine | Kind::Hist => 2,
        _ => 1,
    }
}

impl<V: View> Layer<V> {
    /// Combines the element that the numbers name on the right of the value of a reducer of that kind; false where they name
    /// none. Refused for want of memory alone, and then the value stays.
    pub fn update(
        &mut self,
        kind: &Kind,
        reducer: usize,
        numbers: &mut Vec<i64>,
    ) -> Result<bool, AllocError>
        requires there { reducer < length self.old.kinds }
        requires kind { IsAt self.old.kinds reducer kind.now }
        ensures named { IfOk result (λ named. named ≡ names_element kind.now numbers.old.items) }
        ensures updated { IfOk result (λ named. self.new ≡ (if named then updating reducer kind.now numbers.old.items self.old else self.old)) }
        ensures unchanged { OnErr result (self.new ≡ self.old) }
    {
        let _ = self.hypermap.len();
        if !fit(kind, numbers)? {
            return Ok(true);
        }
        match self.update_fitting(kind, reducer, numbers) {
            Ok(()) => Ok(true),
            Err(InjectError::BadElement) => Ok(false),
            Err(InjectError::NoMemory) => Err(AllocError),
        }
    }

    /// Combines the element that as many numbers as the kind takes name on the right of the value of a reducer of that kind.
    #[inline(always)]
    pub fn update_fitting(
        &mut self,
        kind: &Kind,
        reducer: usize,
        numbers: &[i64],
    ) -> Result<(), InjectError>
        requires there { reducer < length self.old.kinds }
        requires kind { IsAt self.old.kinds reducer kind.now }
        requires count { length numbers.now ≡ arity_of kind.now }
        ensures updated { OnOk result (self.new ≡ updating reducer kind.now numbers.now self.old) }
        ensures named { OnOk result (names_element kind.now numbers.now ≡ true) }
        ensures cause { IfErr result (λ e. e ≡ InjectError.BadElement → names_element kind.now numbers.now ≡ false) }
        ensures unchanged { OnErr result (self.new ≡ self.old) }
    {
        let _ = self.hypermap.len();
        self.hypermap.update(reducer, numbers)
    }
}

/// Brings the numbers to as many as an update of the kind takes, and keeps the element that they name; false where they name
/// the identity, as no numbers do for a list.
fn fit(kind: &Kind, numbers: &mut Vec<i64>) -> Result<bool, AllocError>
    ensures count { IfOk result (λ some. some ≡ true → length numbers.new.items ≡ arity_of kind.now) }
    ensures element { IfOk result (λ some. some ≡ true → element_of kind.now numbers.new.items ≡ element_of kind.now numbers.old.items) }
    ensures named { IfOk result (λ some. some ≡ true → names_element kind.now numbers.new.items ≡ names_element kind.now numbers.old.items) }
    ensures identity { IfOk result (λ some. some ≡ false → IsIdentity kind.now numbers.old.items) }
{
    let count = arity(kind);
    if numbers.len() == count {
        return Ok(true);
    }
    if numbers.is_empty() && is_list(kind) {
        return Ok(false);
    }
    numbers.resize(count, 0)?;
    Ok(true)
}

/// Whether its values are lists of the updates' numbers.
fn is_list(kind: &Kind) -> bool
    ensures list { result ≡ is_list_kind kind.now }
{
    match kind {
        Kind::List | Kind::First(_) | Kind::Last(_) => true,
        _ => false,
    }
}
