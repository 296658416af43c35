//! What a program's reducers begin with.
ghost use Rattle.std.specs.Prelude.{◌≡◌, ◌++◌, ◌∷◌, [], map, IfOk, OnOk};
ghost use Rattle.meaning.specs.TreeView.{decl};
ghost use Rattle.meaning.specs.Statements.{in_pairs, in_groups};
ghost use Rattle.linked_program.specs.Initials.{plain_initial, initials_by, initials_of};

use meaning::tree::Declaration;
use monoid_laws::Kind;
use std::alloc::{AllocError, Global};

/// The numbers of one element of an initial value, as many as an update takes, and the number of the reducer that begins with it.
#[derive(Drop)]
pub struct Initial {
    pub reducer: usize,
    pub numbers: Vec<i64>,
}

// Puts an element of these numbers last.
#[tactic(auto, using(std::proofs::lemmas::List::map_push))]
fn put_element(made: &mut Vec<Initial>, reducer: usize, numbers: Vec<i64>) -> Result<(), AllocError>
    ensures { OnOk result (map plain_initial made.new.items ≡ map plain_initial made.old.items ++ initials_by reducer (numbers.items ∷ [])) }
{
    made.push(Initial { reducer, numbers })?;
    Ok(())
}

fn put_single(
    alloc: Global,
    made: &mut Vec<Initial>,
    reducer: usize,
    number: i64,
) -> Result<(), AllocError>
    ensures { OnOk result (map plain_initial made.new.items ≡ map plain_initial made.old.items ++ initials_by reducer ((number ∷ []) ∷ [])) }
{
    let mut numbers = Vec::with_capacity(alloc, 1)?;
    numbers.push(number)?;
    put_element(made, reducer, numbers)
}

fn put_group(
    alloc: Global,
    made: &mut Vec<Initial>,
    reducer: usize,
    numbers: &[i64],
) -> Result<(), AllocError>
    ensures { OnOk result (map plain_initial made.new.items ≡ map plain_initial made.old.items ++ initials_by reducer (numbers.now ∷ [])) }
{
    let numbers = numbers.to_vec(alloc)?;
    put_element(made, reducer, numbers)
}

fn put_singles(
    alloc: Global,
    made: &mut Vec<Initial>,
    reducer: usize,
    numbers: &[i64],
) -> Result<(), AllocError>
    ensures { OnOk result (map plain_initial made.new.items ≡ map plain_initial made.old.items ++ initials_by reducer (map (λ v. v ∷ []) numbers.now)) }
{
    for number in numbers {
        put_single(alloc, made, reducer, *number)?;
    }
    Ok(())
}

fn put_pairs(
    alloc: Global,
    made: &mut Vec<Initial>,
    reducer: usize,
    numbers: &[i64],
) -> Result<(), AllocError>
    ensures { OnOk result (map plain_initial made.new.items ≡ map plain_initial made.old.items ++ initials_by reducer (in_pairs numbers.now)) }
{
    for pair in 0..numbers.len() / 2 {
        put_group(alloc, made, reducer, &numbers[2 * pair..2 * pair + 2])?;
    }
    Ok(())
}

// Puts the elements of a reducer of that kind last.
fn put_groups(
    alloc: Global,
    made: &mut Vec<Initial>,
    reducer: usize,
    kind: &Kind,
    numbers: &[i64],
) -> Result<(), AllocError>
    ensures { OnOk result (map plain_initial made.new.items ≡ map plain_initial made.old.items ++ initials_by reducer (in_groups kind.now numbers.now)) }
{
    match kind {
        Kind::Argmax | Kind::Affine | Kind::Hist => put_pairs(alloc, made, reducer, numbers),
        _ => put_singles(alloc, made, reducer, numbers),
    }
}

/// The initial values of a program's reducers, in the order in which a run begins with them. Want of memory is the only error.
pub fn initials(alloc: Global, declarations: &[Declaration]) -> Result<Vec<Initial>, AllocError>
    ensures initials { IfOk result (λ made. map plain_initial made.items
        ≡ initials_of (map decl declarations.now)) }
{
    let mut made = Vec::new(alloc);
    let mut number = 0;
    for declaration in declarations {
        if let Declaration::Reducer(reducer) = declaration {
            put_groups(alloc, &mut made, number, &reducer.kind, &reducer.initial)?;
            number += 1;
        }
    }
    Ok(made)
}
