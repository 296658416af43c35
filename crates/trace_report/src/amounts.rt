// Amounts in pieces, merged by key.
ghost use Rattle.std.specs.Prelude.{◌≡◌, ℤ, List, [], OnOk, IfOk, map, option_copied};
ghost use Rattle.monoid_laws.specs.Kinds.{add_at, merge, merged, IsRising};
ghost use Rattle.trace_report.specs.Amounts.{summed};

use reducer_values::sum_of;
use std::alloc::{AllocError, Global};
use std::collections::BTreeMap;

// An amount and the one that is held, if there is one.
fn sum_with(amount: i64, held: Option<&i64>) -> i64
    ensures { result ≡ summed amount (option_copied held.entry) }
{
    match held {
        None => amount,
        Some(held) => sum_of(amount, *held),
    }
}

// Adds an amount at a key.
fn add(sums: &mut BTreeMap<i64, i64>, key: i64, amount: i64) -> Result<(), AllocError>
    requires { IsRising sums.old.entries }
    ensures { OnOk result (sums.new.entries ≡ add_at key amount sums.old.entries) }
{
    let sum = sum_with(amount, sums.get(&key));
    match sums.insert(key, sum) {
        Ok(_) => Ok(()),
        Err(_) => Err(AllocError),
    }
}

// Adds each amount of a piece at its key.
fn add_piece(sums: &mut BTreeMap<i64, i64>, piece: &[(i64, i64)]) -> Result<(), AllocError>
    requires { IsRising sums.old.entries }
    ensures rises { OnOk result (IsRising sums.new.entries) }
    ensures added { OnOk result ((rest : List (ℤ × ℤ)) → merge sums.new.entries rest ≡ merge sums.old.entries (merge piece.now rest)) }
{
    for (key, amount) in piece {
        add(sums, *key, *amount)?;
    }
    Ok(())
}

/// The amounts of all pieces by rising keys, those of one key summed. Want of memory is the only error.
pub fn merged(alloc: Global, pieces: &[Vec<(i64, i64)>]) -> Result<Vec<(i64, i64)>, AllocError>
    ensures { IfOk result (λ amounts. amounts.items ≡ merged (map (λ p. p.items) pieces.now)) }
{
    let mut sums = BTreeMap::new(alloc);
    for piece in pieces {
        add_piece(&mut sums, piece)?;
    }
    sums.into_iter().collect(alloc)
}
