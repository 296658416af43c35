//! A test of the values of records, so that reruns can be called.
ghost use Rattle.std.specs.Prelude.{◌≡◌, true, map, IfOk, IfSome};
ghost use Rattle.monoid_laws.specs.Kinds.{meaning, FitsPair, IsWorth, AreWorths};
ghost use Rattle.meaning.specs.TreeView.{tree};
ghost use Rattle.meaning.specs.Tree.{Tree};
ghost use Rattle.serial_oracle.specs.Keeping.{kept};
ghost use Rattle.serial_oracle.specs.Worths.{AreFit, kinds as kinds_in};

use meaning::tree::{Declaration, Program};
use monoid_laws::{Kind, Val};
use serial_oracle::Record;
use std::alloc::{AllocError, Global};

/// Whether there is no pair, or one of two numbers.
fn is_plain_pair(best: Option<(i64, i64)>) -> bool
    ensures { result ≡ true → IfSome best FitsPair }
{
    match best {
        None => true,
        Some((key, value)) => key <= i64::MAX && value <= i64::MAX,
    }
}

/// Whether a value is one of a sum, of a greatest pair or of a line.
fn is_plain(kind: Kind, value: &Val) -> bool
    ensures { result ≡ true → IsWorth kind (meaning value.now) }
{
    match kind {
        Kind::Add => match value {
            Val::Int(number) => {
                let _number = *number;
                true
            }
            _ => false,
        },
        Kind::Argmax => match value {
            Val::Arg(best) => is_plain_pair(*best),
            _ => false,
        },
        Kind::Affine => match value {
            Val::Pair(factor, term) => is_plain_pair(Some((*factor, *term))),
            _ => false,
        },
        _ => false,
    }
}

/// Whether all values are such ones.
fn are_plain(kinds: &[Kind], values: &[Val]) -> bool
    ensures { result ≡ true → AreWorths kinds.now (map meaning values.now) }
{
    if kinds.len() != values.len() {
        return false;
    }
    for i in 0..kinds.len() {
        if !is_plain(kinds[i], &values[i]) {
            return false;
        }
    }
    true
}

/// The kinds of a program's reducers, in their order.
fn kinds_of(alloc: Global, program: &Program) -> Result<Vec<Kind>, AllocError>
    ensures { IfOk result (λ found. found.items ≡ kinds_in (tree program.now)) }
{
    let mut found = Vec::new(alloc);
    for declaration in &program.declarations {
        if let Declaration::Reducer(reducer) = declaration {
            found.push(reducer.kind)?;
        }
    }
    Ok(found)
}

/// Whether the contributions of all records are such values.
pub fn are_fit(alloc: Global, program: &Program, records: &[Record]) -> bool
    ensures { result ≡ true → AreFit (tree program.now) (map kept records.now) }
{
    match kinds_of(alloc, program) {
        Err(_) => false,
        Ok(kinds) => all_plain(&kinds, records),
    }
}

fn all_plain(kinds: &[Kind], records: &[Record]) -> bool
    ensures { result ≡ true → (program : Tree) → kinds.now ≡ kinds_in program → AreFit program (map kept records.now) }
{
    for one in records {
        if !are_plain(kinds, &one.contribution) {
            return false;
        }
    }
    true
}
