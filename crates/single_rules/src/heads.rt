//! The rules of reducers and of procedures' heads.
ghost use Rattle.std.specs.Prelude.{◌≡◌, map, string_bytes, take};
ghost use Rattle.meaning.specs.TreeView.{decl, red, proc};
ghost use Rattle.linked_program.specs.Monoids.{is_monoid_kind};
ghost use Rattle.linked_program.specs.Declarations.{repeats, reducer_rules, main_rules, procedure_rules};
ghost use Rattle.linked_program.specs.Violations.{noted, at};

use crate::location::{Location, note_if};
use crate::names::{kind_of, parameters_of};
use linked_program::violation::{Rule, Violation};
use meaning::tree::{Declaration, Procedure, Reducer};
use monoid_laws::Kind;
use reducer_values::check_table;
use rule_parts::elements::{is_initial, says_monoid};
use rule_parts::named::has_name;
use rule_parts::procedures::is_recorded_main;

// Whether a name is there twice.
fn repeats(names: &[String]) -> bool
    ensures { result ≡ repeats (map string_bytes names.now) }
{
    for (i, name) in names.iter().enumerate() {
        if has_name(&names[i + 1..], name.as_str()) {
            return true;
        }
    }
    false
}

// Whether the kind's operation is a monoid.
fn is_monoid(kind: &Kind) -> bool
    ensures { result ≡ is_monoid_kind kind.now }
{
    match kind {
        Kind::Table(table) => says_monoid(check_table(table)),
        _ => true,
    }
}

/// The first violation so far or that of a reducer after these declarations.
#[tactic(auto, using(crate::proofs::Noting::noted_more))]
pub fn note_reducer(
    first: Option<Violation>,
    location: Location,
    before: &[Declaration],
    reducer: &Reducer,
) -> Option<Violation>
    ensures { result ≡ noted first (at location.declaration location.line (reducer_rules (map decl before.now) (red reducer.now))) }
{
    let is_second = kind_of(before, reducer.name.as_str()).is_some();
    let first = note_if(first, is_second, location, Rule::Twice);
    let first = note_if(first, !is_monoid(&reducer.kind), location, Rule::Monoid);
    let begins = is_initial(&reducer.kind, &reducer.initial);
    note_if(first, !begins, location, Rule::Initial)
}

// The first violation so far, or that of a `main` that is recorded or has parameters.
fn note_main(
    first: Option<Violation>,
    location: Location,
    procedure: &Procedure,
) -> Option<Violation>
    ensures { result ≡ noted first (at location.declaration location.line (main_rules (proc procedure.now))) }
{
    note_if(first, is_recorded_main(procedure), location, Rule::Main)
}

// Whether a name is that of two parameters.
fn repeats_parameter(procedure: &Procedure) -> bool
    ensures { result ≡ repeats (take procedure.now.parameters (map string_bytes procedure.now.names.items)) }
{
    let count = procedure.parameters.min(procedure.names.len());
    repeats(&procedure.names[..count])
}

/// The first violation so far, or that of a procedure's head.
#[tactic(auto, using(crate::proofs::Noting::noted_more))]
pub fn note_head(
    first: Option<Violation>,
    location: Location,
    before: &[Declaration],
    procedure: &Procedure,
) -> Option<Violation>
    ensures { result ≡ noted first (at location.declaration location.line (procedure_rules (map decl before.now) (proc procedure.now))) }
{
    let is_second = parameters_of(before, procedure.name.as_str()).is_some();
    let first = note_if(first, is_second, location, Rule::Twice);
    let first = note_if(first, repeats_parameter(procedure), location, Rule::Twice);
    note_main(first, location, procedure)
}
