//! The first violation so far, and one more at a location.
ghost use Rattle.std.specs.Prelude.{◌≡◌, [], ◌∷◌};
ghost use Rattle.linked_program.specs.Violations.{at, noted, when};

use linked_program::violation::{Rule, Violation};

/// Where a rule is broken.
#[derive(Clone, Copy)]
pub struct Location {
    pub declaration: usize,
    pub line: u32,
}

/// The first of the violations so far and that of this rule at this location.
pub fn note(first: Option<Violation>, location: Location, rule: Rule) -> Option<Violation>
    ensures { result ≡ noted first (at location.declaration location.line (rule ∷ [])) }
{
    let found = Violation {
        declaration: location.declaration,
        line: location.line,
        rule,
    };
    match first {
        Some(earlier) if !found.comes_before(earlier) => first,
        _ => Some(found),
    }
}

/// The first violation so far, or that of the rule at that location where it is broken.
pub fn note_if(
    first: Option<Violation>,
    broken: bool,
    location: Location,
    rule: Rule,
) -> Option<Violation>
    ensures { result ≡ noted first (at location.declaration location.line (when broken rule)) }
{
    if broken {
        note(first, location, rule)
    } else {
        first
    }
}
