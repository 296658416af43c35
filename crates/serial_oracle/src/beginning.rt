//! The changes with which a run begins: updates by the initial values of the reducers.
ghost use Rattle.std.specs.Prelude.{◌≡◌, ℤ, List, ◌++◌, ◌∷◌, [], map, slice_get, IfOk, OnOk};
ghost use Rattle.meaning.specs.Statements.{in_pairs, in_groups, beginning};
ghost use Rattle.serial_oracle.specs.Keeping.{tree_in};
ghost use Rattle.serial_oracle.specs.Worths.{kinds, grouped, noted_in, waiting};

use crate::journal::Change;
use crate::scope::Scope;
use crate::updates::is_pair_kind;
use meaning::tree::Declaration;
use monoid_laws::Kind;
use std::alloc::AllocError;

/// Notes an update of the n-th reducer by these numbers.
fn note_group(
    scope: &Scope,
    changes: &mut Vec<Change>,
    n: usize,
    numbers: &[i64],
) -> Result<(), AllocError>
    ensures { OnOk result (noted_in scope.now changes.new.items
        ≡ noted_in scope.now changes.old.items ++ grouped (slice_get (kinds (tree_in scope.now)) n) n (numbers.now ∷ [])) }
{
    let numbers = numbers.to_vec(scope.alloc)?;
    if changes.push(Change::Update(n, numbers)).is_err() {
        return Err(AllocError);
    }
    Ok(())
}

/// Notes an update of the n-th reducer by each number.
fn note_singles(
    scope: &Scope,
    changes: &mut Vec<Change>,
    n: usize,
    numbers: &[i64],
) -> Result<(), AllocError>
    ensures { OnOk result (noted_in scope.now changes.new.items
        ≡ noted_in scope.now changes.old.items ++ grouped (slice_get (kinds (tree_in scope.now)) n) n (map (λ v. v ∷ []) numbers.now)) }
{
    for number in numbers {
        note_group(scope, changes, n, &[*number])?;
    }
    Ok(())
}

/// Notes an update of the n-th reducer by the number that waits and the next one, or lets the next one wait.
fn note_next(
    scope: &Scope,
    changes: &mut Vec<Change>,
    n: usize,
    held: Option<i64>,
    next: i64,
) -> Result<Option<i64>, AllocError>
    ensures { (rest : List ℤ) → IfOk result (λ held_now. noted_in scope.now changes.new.items ++ grouped
        (slice_get (kinds (tree_in scope.now)) n) n (in_pairs (waiting held_now rest))
        ≡ noted_in scope.now changes.old.items ++ grouped (slice_get (kinds (tree_in scope.now)) n) n
        (in_pairs (waiting held (next ∷ rest)))) }
{
    match held {
        None => Ok(Some(next)),
        Some(first) => {
            note_group(scope, changes, n, &[first, next])?;
            Ok(None)
        }
    }
}

/// Notes an update of the n-th reducer by each two numbers.
fn note_pairs(
    scope: &Scope,
    changes: &mut Vec<Change>,
    n: usize,
    numbers: &[i64],
) -> Result<(), AllocError>
    ensures { OnOk result (noted_in scope.now changes.new.items
        ≡ noted_in scope.now changes.old.items ++ grouped (slice_get (kinds (tree_in scope.now)) n) n (in_pairs numbers.now)) }
{
    let mut held = None;
    for number in numbers {
        held = note_next(scope, changes, n, held, *number)?;
    }
    Ok(())
}

/// Notes the updates of the n-th reducer, of this kind, by its initial value.
fn note_value(
    scope: &Scope,
    changes: &mut Vec<Change>,
    n: usize,
    kind: Kind,
    numbers: &[i64],
) -> Result<(), AllocError>
    ensures { OnOk result (noted_in scope.now changes.new.items
        ≡ noted_in scope.now changes.old.items ++ grouped (slice_get (kinds (tree_in scope.now)) n) n (in_groups kind numbers.now)) }
{
    if is_pair_kind(kind) {
        note_pairs(scope, changes, n, numbers)
    } else {
        note_singles(scope, changes, n, numbers)
    }
}

/// The updates by the initial values, reducer by reducer.
pub(crate) fn initial_changes(scope: &Scope) -> Result<Vec<Change>, AllocError>
    ensures { IfOk result (λ changes. noted_in scope.now changes.items
        ≡ beginning (tree_in scope.now)) }
{
    let mut changes = Vec::new(scope.alloc);
    let mut n = 0;
    for d in &scope.program.declarations {
        if let Declaration::Reducer(r) = d {
            note_value(scope, &mut changes, n, r.kind, &r.initial)?;
            n += 1;
        }
    }
    Ok(changes)
}
