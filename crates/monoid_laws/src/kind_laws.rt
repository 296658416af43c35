//! The laws of the kinds, as the contract of a function that does nothing.
ghost use Rattle.monoid_laws.specs.Worth.{Worth};
ghost use Rattle.monoid_laws.specs.Kinds.{operate, identity_of, IsWorth, IsMonoid, IsTableMonoid};

use crate::Kind;

/// Every kind is a monoid on its values, a table where `check_table` says so, and its operation keeps to them.
pub fn laws_of(kind: Kind)
    ensures monoid { IsTableMonoid kind → IsMonoid kind }
    ensures identity { IsWorth kind (identity_of kind) }
    ensures closed { (x y : Worth) → IsWorth kind x → IsWorth kind y
        → IsWorth kind (operate kind x y) }
{}
