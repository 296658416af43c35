//! The changes of a run, in their order, and what the reducers are worth after them.
ghost use Rattle.std.specs.Prelude.{◌≡◌, ℕ, suc, ◌<◌, length, map, slice_get, true, false, IfOk, OnOk, Some, option_map};
ghost use Rattle.meaning.specs.TreeView.{term, tree};
ghost use Rattle.monoid_laws.specs.Kinds.{meaning, operate, element_of, names_element, identities, operate_all, zero_at, IsWorth, AreWorths};
ghost use Rattle.meaning.specs.Statements.{numbered, reducers, reading, number_of, update_of};
ghost use Rattle.meaning.specs.Outcome.{after};
ghost use Rattle.serial_oracle.specs.Keeping.{tree_in, tables_in, records_in};
ghost use Rattle.serial_oracle.specs.Results.{Notes};
ghost use Rattle.serial_oracle.specs.Worths.{kinds, kinds as kinds_in, worths, AreFit, change_log, reused_log, combined_from, is_listed};
ghost use Rattle.serial_oracle.specs.Worths.{is_paired, noticed, outcome_of, updated_by};

use crate::journal::Change;
use crate::scope::Scope;
use crate::stops::Trouble;
use crate::{expressions, names};
use meaning::FaultKind;
use meaning::tree::{Declaration, Expr, Program};
use monoid_laws::{Kind, Val, laws_of};
use reducer_values::{combine, copy_of, identity, inject};
use std::alloc::{AllocError, Global};

/// The kinds of a program's reducers, in their order.
fn kinds_of(alloc: Global, program: &Program) -> Result<Vec<Kind>, AllocError>
    ensures { IfOk result (λ v. v.items ≡ kinds (tree program.now)) }
{
    let mut found = Vec::new(alloc);
    for d in &program.declarations {
        if let Declaration::Reducer(r) = d {
            found.push(r.kind)?;
        }
    }
    Ok(found)
}

/// The identity of each kind.
fn identities_of(alloc: Global, kinds: &[Kind]) -> Result<Vec<Val>, AllocError>
    ensures { IfOk result (λ v. map meaning v.items ≡ identities kinds.now) }
{
    let mut values = Vec::new(alloc);
    for kind in kinds {
        values.push(identity(alloc, *kind))?;
    }
    Ok(values)
}

/// The i-th number; 0 where there is none.
fn number_at(numbers: &[i64], i: usize) -> i64
    ensures { result ≡ zero_at numbers.now i }
{
    match numbers.get(i) {
        Some(number) => *number,
        None => 0,
    }
}

/// Whether the values of a kind are lists of numbers.
fn is_list_kind(kind: Kind) -> bool
    ensures { result ≡ is_listed kind }
{
    match kind {
        Kind::List => true,
        Kind::First(_) => true,
        Kind::Last(_) => true,
        _ => false,
    }
}

/// Whether two numbers name an element of the kind.
pub(crate) fn is_pair_kind(kind: Kind) -> bool
    ensures { result ≡ is_paired kind }
{
    match kind {
        Kind::Argmax => true,
        Kind::Affine => true,
        Kind::Hist => true,
        _ => false,
    }
}

/// Whether the numbers name an element of the kind.
fn is_element(kind: Kind, numbers: &[i64]) -> bool
    ensures { result ≡ names_element kind numbers.now }
{
    match kind {
        Kind::Table(table) => {
            let number = number_at(numbers, 0);
            number >= 0 && number < table.size as i64
        }
        _ => true,
    }
}

/// The element that two numbers name, if the kind takes two, or one.
fn named_element(alloc: Global, kind: Kind, numbers: &[i64]) -> Result<Val, AllocError>
    requires named { names_element kind numbers.now ≡ true }
    requires not_listed { is_listed kind ≡ false }
    ensures value { IfOk result (λ v. meaning v ≡ element_of kind numbers.now) }
    ensures of_kind { OnOk result (IsWorth kind (element_of kind numbers.now)) }
{
    let first = number_at(numbers, 0);
    let made = if is_pair_kind(kind) {
        inject(alloc, kind, &[first, number_at(numbers, 1)])
    } else {
        inject(alloc, kind, &[first])
    };
    match made {
        Ok(value) => Ok(value),
        Err(_) => Err(AllocError),
    }
}

/// The list that the first of the numbers makes, an empty one where there is none.
fn listed_element(alloc: Global, kind: Kind, numbers: &[i64]) -> Result<Val, AllocError>
    requires listed { is_listed kind ≡ true }
    ensures value { IfOk result (λ v. meaning v ≡ element_of kind numbers.now) }
    ensures of_kind { OnOk result (IsWorth kind (element_of kind numbers.now)) }
{
    match numbers.first() {
        None => {
            laws_of(kind);
            Ok(identity(alloc, kind))
        }
        Some(first) => match inject(alloc, kind, &[*first]) {
            Ok(value) => Ok(value),
            Err(_) => Err(AllocError),
        },
    }
}

/// The element that numbers name.
fn element(alloc: Global, kind: Kind, numbers: &[i64]) -> Result<Val, AllocError>
    requires named { names_element kind numbers.now ≡ true }
    ensures value { IfOk result (λ v. meaning v ≡ element_of kind numbers.now) }
    ensures of_kind { OnOk result (IsWorth kind (element_of kind numbers.now)) }
{
    if is_list_kind(kind) {
        listed_element(alloc, kind, numbers)
    } else {
        named_element(alloc, kind, numbers)
    }
}

/// Combines a value on the right of another.
fn combine_into(alloc: Global, kind: Kind, left: &mut Val, right: Val) -> Result<(), AllocError>
    requires left_of_kind { IsWorth kind (meaning left.old) }
    requires right_of_kind { IsWorth kind (meaning right) }
    ensures combined { OnOk result (meaning left.new ≡ operate kind (meaning left.old) (meaning right)) }
    ensures of_kind { OnOk result (IsWorth kind (meaning left.new)) }
{
    laws_of(kind);
    match combine(alloc, &kind, left, right) {
        Ok(()) => Ok(()),
        Err(_) => Err(AllocError),
    }
}

/// Combines the element that numbers name on the right of a value.
fn add(alloc: Global, kind: Kind, value: &mut Val, numbers: &[i64]) -> Result<(), AllocError>
    requires named { names_element kind numbers.now ≡ true }
    requires value_of_kind { IsWorth kind (meaning value.old) }
    ensures combined { OnOk result (meaning value.new ≡ operate kind (meaning value.old) (element_of kind numbers.now)) }
    ensures of_kind { OnOk result (IsWorth kind (meaning value.new)) }
{
    let right = element(alloc, kind, numbers)?;
    combine_into(alloc, kind, value, right)
}

/// Adds to the n-th of the values, which is of this kind, the element that numbers name, if they name one.
fn add_at(
    alloc: Global,
    kinds: &[Kind],
    kind: Kind,
    values: &mut Vec<Val>,
    n: usize,
    numbers: &[i64],
) -> Result<(), AllocError>
    requires of_kinds { AreWorths kinds.now (map meaning values.old.items) }
    requires the_kind { slice_get kinds.now n ≡ Some kind }
    ensures after { OnOk result (map meaning values.new.items ≡ after (noticed (Some kind) n numbers.now) (map meaning values.old.items)) }
    ensures worths { OnOk result (AreWorths kinds.now (map meaning values.new.items)) }
{
    if !is_element(kind, numbers) {
        return Ok(());
    }
    match values.get_mut(n) {
        None => Ok(()),
        Some(value) => add(alloc, kind, value, numbers),
    }
}

/// Adds an update of the n-th reducer to the values.
fn apply_update(
    alloc: Global,
    kinds: &[Kind],
    values: &mut Vec<Val>,
    n: usize,
    numbers: &[i64],
) -> Result<(), AllocError>
    requires of_kinds { AreWorths kinds.now (map meaning values.old.items) }
    ensures after { OnOk result (map meaning values.new.items ≡ after (noticed (slice_get kinds.now n) n numbers.now) (map meaning values.old.items)) }
    ensures worths { OnOk result (AreWorths kinds.now (map meaning values.new.items)) }
{
    match kinds.get(n) {
        None => Ok(()),
        Some(kind) => add_at(alloc, kinds, *kind, values, n, numbers),
    }
}

/// Combines a copy of the i-th of other values on the right of the i-th value.
fn combine_at(
    alloc: Global,
    kinds: &[Kind],
    values: &mut Vec<Val>,
    rights: &[Val],
    i: usize,
) -> Result<(), AllocError>
    requires within { i < length kinds.now }
    requires of_kinds { AreWorths kinds.now (map meaning values.old.items) }
    requires rights_of_kinds { AreWorths kinds.now (map meaning rights.now) }
    ensures combined { OnOk result (combined_from (suc i) kinds.now (map meaning values.new.items) (map meaning rights.now)
        ≡ combined_from i kinds.now (map meaning values.old.items) (map meaning rights.now)) }
    ensures worths { OnOk result (AreWorths kinds.now (map meaning values.new.items)) }
{
    let kind = kinds[i];
    let right = copy_of(alloc, &rights[i])?;
    combine_into(alloc, kind, &mut values[i], right)
}

/// Combines copies of other values on the right of the values.
fn combine_all(
    alloc: Global,
    kinds: &[Kind],
    values: &mut Vec<Val>,
    rights: &[Val],
) -> Result<(), AllocError>
    requires of_kinds { AreWorths kinds.now (map meaning values.old.items) }
    requires rights_of_kinds { AreWorths kinds.now (map meaning rights.now) }
    ensures combined { OnOk result (map meaning values.new.items ≡ operate_all kinds.now (map meaning values.old.items) (map meaning rights.now)) }
    ensures worths { OnOk result (AreWorths kinds.now (map meaning values.new.items)) }
{
    for i in 0..kinds.len() {
        combine_at(alloc, kinds, values, rights, i)?;
    }
    Ok(())
}

/// Adds the contribution of the record at a place to the values.
fn apply_record(
    kinds: &[Kind],
    values: &mut Vec<Val>,
    scope: &Scope,
    place: usize,
) -> Result<(), AllocError>
    requires fit { AreFit (tree_in scope.now) (records_in scope.now) }
    requires the_kinds { kinds.now ≡ kinds_in (tree_in scope.now) }
    requires of_kinds { AreWorths kinds.now (map meaning values.old.items) }
    ensures after { OnOk result (map meaning values.new.items
        ≡ after (reused_log (reducers (tree_in scope.now)) (slice_get (records_in scope.now) place)) (map meaning values.old.items)) }
    ensures worths { OnOk result (AreWorths kinds.now (map meaning values.new.items)) }
{
    match scope.records.get(place) {
        None => Ok(()),
        Some(known) => combine_all(scope.alloc, kinds, values, &known.contribution),
    }
}

/// Adds a change to the values.
fn apply(
    kinds: &[Kind],
    values: &mut Vec<Val>,
    scope: &Scope,
    change: &Change,
) -> Result<(), AllocError>
    requires fit { AreFit (tree_in scope.now) (records_in scope.now) }
    requires the_kinds { kinds.now ≡ kinds_in (tree_in scope.now) }
    requires of_kinds { AreWorths kinds.now (map meaning values.old.items) }
    ensures after { OnOk result (map meaning values.new.items
        ≡ after (change_log (tree_in scope.now) (records_in scope.now) change.now) (map meaning values.old.items)) }
    ensures worths { OnOk result (AreWorths kinds.now (map meaning values.new.items)) }
{
    match change {
        Change::Update(n, numbers) => apply_update(scope.alloc, kinds, values, *n, numbers),
        Change::Reused(place) => apply_record(kinds, values, scope, *place),
    }
}

/// What the reducers are worth after the changes.
pub(crate) fn values_after(scope: &Scope, changes: &[Change]) -> Result<Vec<Val>, AllocError>
    requires fit { AreFit (tree_in scope.now) (records_in scope.now) }
    ensures { IfOk result (λ v. map meaning v.items
        ≡ worths (tree_in scope.now) (records_in scope.now) changes.now) }
{
    let kinds = kinds_of(scope.alloc, scope.program)?;
    let mut values = identities_of(scope.alloc, &kinds)?;
    for change in changes {
        apply(&kinds, &mut values, scope, change)?;
    }
    Ok(values)
}

/// The number of a value; 0 where it has none.
fn number_of_value(value: &Val) -> i64
    ensures { result ≡ number_of (Some (meaning value.now)) }
{
    match value {
        Val::Int(number) => *number,
        Val::Elem(element) => *element as i64,
        _ => 0,
    }
}

/// The number that a reducer gives after the changes.
pub(crate) fn read(scope: &Scope, name: &str, changes: &[Change]) -> Result<i64, AllocError>
    requires fit { AreFit (tree_in scope.now) (records_in scope.now) }
    ensures { IfOk result (λ v. v ≡ reading (worths (tree_in scope.now) (records_in scope.now)
        changes.now) (numbered 0 (reducers (tree_in scope.now)) name.now)) }
{
    match names::find_reducer(scope.program, name) {
        None => Ok(0),
        Some((n, _)) => {
            let values = values_after(scope, changes)?;
            match values.get(n) {
                None => Ok(0),
                Some(value) => Ok(number_of_value(value)),
            }
        }
    }
}

/// Notes an update of a reducer by the element that numbers name.
fn note(
    changes: &mut Vec<Change>,
    scope: &Scope,
    name: &str,
    numbers: Vec<i64>,
) -> Result<(), Trouble>
    ensures { Notes result (worths (tree_in scope.now) (records_in scope.now) changes.new.items)
        (updated_by (tree_in scope.now) name.now numbers.items (worths (tree_in scope.now) (records_in scope.now) changes.old.items)) }
{
    match names::find_reducer(scope.program, name) {
        None => Ok(()),
        Some((reducer, kind)) => {
            if !is_element(kind, &numbers) {
                return Err(Trouble::Fault(FaultKind::BadElement));
            }
            if changes.push(Change::Update(reducer, numbers)).is_err() {
                return Err(Trouble::NoMemory);
            }
            Ok(())
        }
    }
}

/// Evaluates the numbers of an update, and notes it.
pub(crate) fn update_reducer(
    scope: &Scope,
    env: &[Option<i64>],
    name: &str,
    numbers: &[Expr],
    changes: &mut Vec<Change>,
) -> Result<(), Trouble>
    ensures { Notes result (worths (tree_in scope.now) (records_in scope.now) changes.new.items)
        (outcome_of (update_of (tables_in scope.now) (reducers (tree_in scope.now)) env.now name.now
        (map term numbers.now)) (worths (tree_in scope.now) (records_in scope.now)
        changes.old.items)) }
{
    match expressions::all_values(scope.alloc, scope.tables, env, numbers) {
        Err(trouble) => Err(trouble),
        Ok(numbers) => note(changes, scope, name, numbers),
    }
}
