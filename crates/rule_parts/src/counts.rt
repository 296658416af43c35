//! How many arguments and values there have to be.
ghost use Rattle.std.specs.Prelude.{◌≡◌, ◌==◌, not};
ghost use Rattle.monoid_laws.specs.Kinds.{arity};

use monoid_laws::Kind;

/// How many values an update of a reducer of that kind takes.
pub fn arity(kind: &Kind) -> usize
    ensures { result ≡ arity kind.now }
{
    match kind {
        Kind::Argmax | Kind::Affine | Kind::Hist => 2,
        _ => 1,
    }
}

/// Whether an update of a reducer of that kind doesn't take so many values.
pub fn takes_others(kind: &Kind, count: usize) -> bool
    ensures { result ≡ not (arity kind.now == count) }
{
    arity(kind) != count
}

/// Whether a procedure with so many parameters doesn't take so many arguments.
pub fn are_others(parameters: usize, count: usize) -> bool
    ensures { result ≡ not (parameters == count) }
{
    parameters != count
}
