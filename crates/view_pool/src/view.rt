//! The interface of a view, and the boxed view.
ghost use Rattle.std.specs.Prelude.{◌≡◌, OnOk, OnErr, IfOk, IfErr, IfSome, IsOk, length, true, false};
ghost use Rattle.monoid_laws.specs.Worth.{Worth};
ghost use Rattle.monoid_laws.specs.declared.Kind.{Kind};
ghost use Rattle.monoid_laws.specs.Kinds.{operate, identity_of, meaning, element_of, IsWorth, names_element, refusal, arity};
ghost use Rattle.view_pool.specs.Short.{value_in};

use crate::ShortValue;
use monoid_laws::{InjectError, Kind, Val};
use std::alloc::AllocError;

/// A value of one reducer, kept in some form.
pub trait View: Send + Drop {
    ghost kind_of: { Self → Kind };

    ghost worth_of: { Self → Worth };

    /// The reducer's kind.
    fn kind(&self) -> Kind
        ensures { result ≡ kind_of self.now };

    /// Combines the element that the numbers name on the right of the value; refused, the value stays.
    fn update(&mut self, numbers: &[i64]) -> Result<(), InjectError>
        requires count { length numbers.now ≡ arity (kind_of self.old) }
        ensures done { OnOk result (worth_of self.new
            ≡ operate (kind_of self.old) (worth_of self.old) (element_of (kind_of self.old) numbers.now)) }
        ensures element { OnOk result (IsWorth (kind_of self.old) (element_of (kind_of self.old) numbers.now)) }
        ensures named { OnOk result (names_element (kind_of self.old) numbers.now ≡ true) }
        ensures refused { OnErr result (worth_of self.new ≡ worth_of self.old) }
        ensures cause { IfErr result (λ e. e ≡ refusal (kind_of self.old) numbers.now) }
        ensures same_kind { kind_of self.new ≡ kind_of self.old };

    /// Combines a value on the right, or hands it back for want of memory; into a view at its identity it always succeeds.
    fn absorb(&mut self, value: Val) -> Result<(), Val>
        requires of_kind { IsWorth (kind_of self.old) (meaning value) }
        ensures done { OnOk result (worth_of self.new
            ≡ operate (kind_of self.old) (worth_of self.old) (meaning value)) }
        ensures refused { OnErr result (worth_of self.new ≡ worth_of self.old) }
        ensures handed_back { IfErr result (λ v. v ≡ value) }
        ensures room { worth_of self.old ≡ identity_of (kind_of self.old) → IsOk result }
        ensures same_kind { kind_of self.new ≡ kind_of self.old };

    /// Combines a lent value on the right, where that takes no memory and is done at once; whether it was, else the value stays. A view
    /// may leave it to `absorb`.
    fn absorb_at_once(&mut self, _value: &Val) -> bool
        requires of_kind { IsWorth (kind_of self.old) (meaning _value.now) }
        ensures done { result ≡ true → worth_of self.new
            ≡ operate (kind_of self.old) (worth_of self.old) (meaning _value.now) }
        ensures same { result ≡ false → worth_of self.new ≡ worth_of self.old }
        ensures same_kind { kind_of self.new ≡ kind_of self.old }
    {
        false
    }

    /// Gives the value away and stands at the identity. It takes no memory.
    fn take(&mut self) -> Val
        ensures value { meaning result ≡ worth_of self.old }
        ensures left { worth_of self.new ≡ identity_of (kind_of self.old) }
        ensures same_kind { kind_of self.new ≡ kind_of self.old };

    /// Goes back to the identity. It takes no memory.
    fn reset(&mut self)
        ensures left { worth_of self.new ≡ identity_of (kind_of self.old) }
        ensures same_kind { kind_of self.new ≡ kind_of self.old };

    /// A copy of the value. Want of memory is the only error.
    fn export(&self) -> Result<Val, AllocError>
        ensures { IfOk result (λ v. meaning v ≡ worth_of self.now) };

    /// The value, where it is short. A view may leave it to `export`.
    fn short(&self) -> Option<ShortValue>
        ensures short { IfSome result (λ v. meaning (value_in v) ≡ worth_of self.now) }
    {
        None
    }
}

impl View for Box<dyn View> {
    ghost kind_of = { λ b. (View-box b).kind_of b.value };

    ghost worth_of = { λ b. (View-box b).worth_of b.value };

    fn kind(&self) -> Kind {
        (**self).kind()
    }

    fn update(&mut self, numbers: &[i64]) -> Result<(), InjectError> {
        (**self).update(numbers)
    }

    fn absorb(&mut self, value: Val) -> Result<(), Val> {
        (**self).absorb(value)
    }

    fn absorb_at_once(&mut self, value: &Val) -> bool {
        (**self).absorb_at_once(value)
    }

    fn take(&mut self) -> Val {
        (**self).take()
    }

    fn reset(&mut self) {
        (**self).reset()
    }

    fn export(&self) -> Result<Val, AllocError> {
        (**self).export()
    }

    fn short(&self) -> Option<ShortValue> {
        (**self).short()
    }
}
