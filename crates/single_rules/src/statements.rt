//! The rules that a statement can break by itself.
ghost use Rattle.std.specs.Prelude.{◌≡◌, ℕ, false, map, option_copied, ◌++◌, ◌&&◌, ◌==◌};
ghost use Rattle.meaning.specs.Tree.{Body};
ghost use Rattle.meaning.specs.TreeView.{decl, deed, term};
ghost use Rattle.linked_program.specs.Scope.{bound, entered, has_read, looped};
ghost use Rattle.linked_program.specs.Rules.{bind_rules, target_rules, callee_rules, enter_rules, update_rules, kind_rules, read_rules};
ghost use Rattle.linked_program.specs.Rules.{term_rules, terms_rules, entry_rules, range_rules, own_rules, kind_of as reducer_kind};
ghost use Rattle.linked_program.specs.Violations.{noted, at};
ghost use Rattle.linked_program.specs.TableNames.{columned};
ghost use Rattle.single_rules.specs.Settings.{plain};
ghost use Rattle.single_rules.specs.Own.{after_own};

use crate::location::{Location, note, note_if};
use crate::names::{is_readable, kind_of, parameters_of};
use crate::scope::Scope;
use crate::setting::Setting;
use crate::terms::{note_term, note_terms};
use linked_program::knowledge::Moment;
use linked_program::tables::TableNames;
use linked_program::violation::{Rule, Violation};
use meaning::tree::{Action, Declaration, Expr, Way};
use monoid_laws::Kind;
use rule_parts::counts::{are_others, takes_others};

// The first violation so far or that of binding a name.
fn note_bind(
    first: Option<Violation>,
    location: Location,
    scope: &Scope,
    name: usize,
) -> Option<Violation>
    ensures { result ≡ noted first (at location.declaration location.line (bind_rules scope.now name)) }
{
    note_if(first, scope.is_bound(name), location, Rule::Twice)
}

// The first violation so far, or that of binding the value of a call or a spawn, if it is bound.
fn note_target(
    first: Option<Violation>,
    location: Location,
    scope: &Scope,
    name: Option<usize>,
) -> Option<Violation>
    ensures { result ≡ noted first (at location.declaration location.line (target_rules scope.now name)) }
{
    match name {
        None => first,
        Some(name) => note_bind(first, location, scope, name),
    }
}

// The first violation so far, or that of entering a procedure with so many parameters with so many arguments.
fn note_callee(
    first: Option<Violation>,
    location: Location,
    parameters: Option<usize>,
    count: usize,
) -> Option<Violation>
    ensures { result ≡ noted first (at location.declaration location.line (callee_rules parameters count)) }
{
    match parameters {
        None => note(first, location, Rule::Unknown),
        Some(parameters) => note_if(
            first,
            are_others(parameters, count),
            location,
            Rule::Arguments,
        ),
    }
}

// The first violation so far, or that of entering the procedure of a name.
#[tactic(auto, using(crate::proofs::Noting::noted_more))]
fn note_enter(
    first: Option<Violation>,
    location: Location,
    declarations: &[Declaration],
    name: &str,
    count: usize,
) -> Option<Violation>
    ensures { result ≡ noted first (at location.declaration location.line (enter_rules (map decl declarations.now) name.now count)) }
{
    let first = note_callee(first, location, parameters_of(declarations, name), count);
    note_if(first, name == "main", location, Rule::Main)
}

// The first violation so far, or that of updating a reducer of that kind with so many values.
fn note_update(
    first: Option<Violation>,
    location: Location,
    kind: Option<&Kind>,
    count: usize,
) -> Option<Violation>
    ensures { result ≡ noted first (at location.declaration location.line (update_rules (option_copied kind.entry) count)) }
{
    match kind {
        None => note(first, location, Rule::Update),
        Some(kind) => note_if(first, takes_others(kind, count), location, Rule::Update),
    }
}

// The first violation so far, or that of reading a reducer of that kind.
fn note_kind(first: Option<Violation>, location: Location, kind: Option<&Kind>) -> Option<Violation>
    ensures { result ≡ noted first (at location.declaration location.line (kind_rules (option_copied kind.entry))) }
{
    match kind {
        None => note(first, location, Rule::Update),
        Some(kind) => note_if(first, !is_readable(kind), location, Rule::Read),
    }
}

// The first violation so far, or that of a read, in main's outermost block or elsewhere.
#[tactic(auto, using(crate::proofs::Noting::noted_more))]
fn note_read(
    first: Option<Violation>,
    location: Location,
    scope: &Scope,
    in_place: bool,
    kind: Option<&Kind>,
) -> Option<Violation>
    ensures { result ≡ noted first (at location.declaration location.line (read_rules in_place scope.now (option_copied kind.entry))) }
{
    let first = note_kind(first, location, kind);
    note_if(
        first,
        !in_place || scope.has_spawned(),
        location,
        Rule::Read,
    )
}

// The first violation so far, or that of a loop's arguments, in which its variable is known; the loop ends its variable.
fn note_arguments(
    first: Option<Violation>,
    location: Location,
    tables: &[TableNames],
    scope: &mut Scope,
    now: Moment,
    name: usize,
    arguments: &[Expr],
) -> Option<Violation>
    ensures noted { result ≡ noted first (at location.declaration location.line
        (terms_rules (map columned tables.now) (bound now false scope.old name) (map term arguments.now))) }
    ensures looped { scope.new ≡ looped scope.old name }
{
    let was_known = scope.is_known(name);
    scope.bind(now, false, name);
    let found = note_terms(first, location, tables, scope, arguments);
    if !was_known {
        scope.end(name);
    }
    found
}

// What is known after a call or a spawn.
fn enter(scope: &mut Scope, now: Moment, name: Option<usize>, way: Way)
    ensures entered { scope.new ≡ entered now scope.old name way }
{
    if way == Way::Spawn {
        scope.spawn();
    }
    if let Some(name) = name {
        scope.bind(now, way == Way::Spawn, name);
    }
}

// The first violation so far, or that of a call or a spawn.
#[tactic(auto, using(crate::proofs::Noting::noted_more, crate::proofs::Lists::length_of_map))]
fn note_entry(
    setting: &Setting,
    first: Option<Violation>,
    location: Location,
    scope: &Scope,
    name: Option<usize>,
    callee: &str,
    arguments: &[Expr],
) -> Option<Violation>
    ensures noted { result ≡ noted first (at location.declaration location.line
        (entry_rules (plain setting.now) scope.now name callee.now (map term arguments.now))) }
{
    let first = note_terms(first, location, setting.tables, scope, arguments);
    let first = note_target(first, location, scope, name);
    note_enter(
        first,
        location,
        setting.declarations,
        callee,
        arguments.len(),
    )
}

// The first violation so far, or that of a loop's bounds and variable.
#[tactic(auto, using(crate::proofs::Noting::noted_more))]
fn note_range(
    setting: &Setting,
    first: Option<Violation>,
    location: Location,
    scope: &Scope,
    name: usize,
    low: &Expr,
    high: &Expr,
) -> Option<Violation>
    ensures noted { result ≡ noted first (at location.declaration location.line
        (range_rules (plain setting.now) scope.now name (term low.now) (term high.now))) }
{
    let first = note_term(first, location, setting.tables, scope, low);
    let first = note_term(first, location, setting.tables, scope, high);
    note_bind(first, location, scope, name)
}

// The first violation so far, or that of a plain bind, with what is known after it.
#[tactic(auto, using(crate::proofs::Noting::noted_more))]
fn note_binding(
    setting: &Setting,
    first: Option<Violation>,
    location: Location,
    scope: &mut Scope,
    now: Moment,
    name: usize,
    value: &Expr,
) -> Option<Violation>
    ensures noted { result ≡ noted first (at location.declaration location.line
        (term_rules (map columned setting.now.tables.now) scope.old (term value.now) ++ bind_rules scope.old name)) }
    ensures bound { scope.new ≡ bound now false scope.old name }
{
    let first = note_term(first, location, setting.tables, scope, value);
    let first = note_bind(first, location, scope, name);
    scope.bind(now, false, name);
    first
}

// The first violation so far, or that of a read, with what is known after it.
#[tactic(auto, using(crate::proofs::Noting::noted_more))]
fn note_reading(
    setting: &Setting,
    first: Option<Violation>,
    location: Location,
    scope: &mut Scope,
    now: Moment,
    name: usize,
    reducer: &str,
) -> Option<Violation>
    ensures noted { result ≡ noted first (at location.declaration location.line
        (bind_rules scope.old name ++ read_rules (setting.now.in_main && (now.depth == 0)) scope.old
        (reducer_kind (map decl setting.now.declarations.now) reducer.now))) }
    ensures read { scope.new ≡ has_read now (bound now false scope.old name) }
{
    let first = note_bind(first, location, scope, name);
    let in_place = setting.in_main && now.depth == 0;
    let kind = kind_of(setting.declarations, reducer);
    let first = note_read(first, location, scope, in_place, kind);
    scope.bind(now, false, name);
    scope.read(now);
    first
}

/// The first violation so far or that of a statement by itself; what is known after it, its blocks aside.
#[tactic(auto, using(crate::proofs::Noting::noted_more, crate::proofs::Lists::length_of_map))]
pub fn note_own(
    setting: &Setting,
    first: Option<Violation>,
    location: Location,
    scope: &mut Scope,
    now: Moment,
    action: &Action,
) -> Option<Violation>
    ensures noted { (inner : ℕ → Body) → result ≡ noted first
        (at location.declaration location.line (own_rules (plain setting.now) now scope.old
        (deed inner action.now))) }
    ensures after { (inner : ℕ → Body) → scope.new
        ≡ after_own now scope.old (deed inner action.now) }
{
    match action {
        Action::Bind(name, value) => note_binding(
            setting, first, location, scope, now, *name, value,
        ),
        Action::Enter(name, way, callee, arguments) => {
            let first = note_entry(setting, first, location, scope, *name, callee, arguments);
            enter(scope, now, *name, *way);
            first
        }
        Action::Read(name, reducer) => {
            note_reading(
                setting,
                first,
                location,
                scope,
                now,
                *name,
                reducer.as_str(),
            )
        }
        Action::Sync => {
            scope.sync(now);
            first
        }
        Action::Update(reducer, values) => {
            let first = note_terms(first, location, setting.tables, scope, values);
            let kind = kind_of(setting.declarations, reducer.as_str());
            note_update(first, location, kind, values.len())
        }
        Action::If(condition, _, _) => note_term(first, location, setting.tables, scope, condition),
        Action::Loop(name, low, high, _, callee, arguments) => {
            let first = note_range(setting, first, location, scope, *name, low, high);
            let first = note_arguments(
                first,
                location,
                setting.tables,
                scope,
                now,
                *name,
                arguments,
            );
            note_enter(
                first,
                location,
                setting.declarations,
                callee,
                arguments.len(),
            )
        }
        Action::Return(value) => note_term(first, location, setting.tables, scope, value),
    }
}
