//! Which values are the identities.
ghost use Rattle.std.specs.Prelude.{◌≡◌, None, [], map};
ghost use Rattle.monoid_laws.specs.Worth.{number, items, best, line, amounts, element};
ghost use Rattle.monoid_laws.specs.Kinds.{meaning, identity_of};
ghost use Rattle.positions.specs.Values.{same_worth};
ghost use Rattle.positions.specs.Identities.{are_nil};

use monoid_laws::{Kind, Val};

/// Whether a value is its kind's identity. It looks at the value's form alone and takes no memory.
#[inline(always)]
pub fn is_identity(kind: &Kind, value: &Val) -> bool
    ensures same { result ≡ same_worth (meaning value.now) (identity_of kind.now) }
{
    match kind {
        Kind::Add | Kind::Or | Kind::Xor => is_number(value, 0),
        Kind::Mul => is_number(value, 1),
        Kind::Min => is_number(value, i64::MAX),
        Kind::Max => is_number(value, i64::MIN),
        Kind::And => is_number(value, -1),
        Kind::List | Kind::First(_) | Kind::Last(_) => is_no_items(value),
        Kind::Argmax => is_no_pair(value),
        Kind::Affine => is_line(value, 1, 0),
        Kind::Hist => is_no_amounts(value),
        Kind::Table(table) => is_element(value, table.unit),
    }
}

fn is_number(value: &Val, unit: i64) -> bool
    ensures same { result ≡ same_worth (meaning value.now) (number unit) }
{
    match value {
        Val::Int(held) => *held == unit,
        _ => false,
    }
}

fn is_no_items(value: &Val) -> bool
    ensures same { result ≡ same_worth (meaning value.now) (items []) }
{
    match value {
        Val::List(list) => list.is_empty(),
        Val::Pieces(pieces) => are_empty(pieces),
        _ => false,
    }
}

fn is_no_pair(value: &Val) -> bool
    ensures same { result ≡ same_worth (meaning value.now) (best None) }
{
    match value {
        Val::Arg(held) => held.is_none(),
        _ => false,
    }
}

fn is_line(value: &Val, factor: i64, term: i64) -> bool
    ensures same { result ≡ same_worth (meaning value.now) (line factor term) }
{
    match value {
        Val::Pair(first, second) => *first == factor && *second == term,
        _ => false,
    }
}

fn is_no_amounts(value: &Val) -> bool
    ensures same { result ≡ same_worth (meaning value.now) (amounts []) }
{
    match value {
        Val::Hist(held) => held.is_empty(),
        Val::HistPieces(pieces) => are_empty(pieces),
        _ => false,
    }
}

fn is_element(value: &Val, unit: u8) -> bool
    ensures same { result ≡ same_worth (meaning value.now) (element unit) }
{
    match value {
        Val::Elem(held) => *held == unit,
        _ => false,
    }
}

/// Whether each piece is empty.
fn are_empty<T: Drop>(pieces: &[Vec<T>]) -> bool
    ensures empty { result ≡ are_nil (map (λ p. p.items) pieces.now) }
{
    for piece in pieces {
        if !piece.is_empty() {
            return false;
        }
    }
    true
}
