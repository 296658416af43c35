//! The identity of each kind.
ghost use Rattle.std.specs.Prelude.{◌≡◌};
ghost use Rattle.monoid_laws.specs.Kinds.{identity_of, meaning};

use monoid_laws::{Kind, Val};
use std::alloc::Global;

/// The value that changes nothing. It takes no memory.
pub fn identity(alloc: Global, kind: Kind) -> Val
    ensures { meaning result ≡ identity_of kind }
{
    match kind {
        Kind::Add => Val::Int(0),
        Kind::Mul => Val::Int(1),
        Kind::Min => Val::Int(i64::MAX),
        Kind::Max => Val::Int(i64::MIN),
        Kind::And => Val::Int(-1),
        Kind::Or => Val::Int(0),
        Kind::Xor => Val::Int(0),
        Kind::List => Val::List(Vec::new(alloc)),
        Kind::First(_) => Val::List(Vec::new(alloc)),
        Kind::Last(_) => Val::List(Vec::new(alloc)),
        Kind::Argmax => Val::Arg(None),
        Kind::Affine => Val::Pair(1, 0),
        Kind::Hist => Val::Hist(Vec::new(alloc)),
        Kind::Table(table) => Val::Elem(table.unit),
    }
}
