//! What a record has of a reducer.
ghost use Rattle.std.specs.Prelude.{◌≡◌, map, option_to_list};
ghost use Rattle.monoid_laws.specs.Kinds.{meaning};
ghost use Rattle.record_theory.specs.Record.{touched};
ghost use Rattle.positions.specs.Tallies.{touched_at};

use crate::identities::is_identity;
use monoid_laws::{Kind, Val};

/// A reducer's number with the value that an instance gave it, unless that is the identity.
#[inline(always)]
pub fn unless_identity(reducer: usize, kind: &Kind, value: Val) -> Option<(usize, Val)>
    ensures touched { map touched (option_to_list result) ≡ touched_at reducer kind.now (meaning value) }
{
    if is_identity(kind, &value) {
        return None;
    }
    Some((reducer, value))
}
