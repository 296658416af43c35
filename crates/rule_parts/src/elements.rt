//! Kinds that are monoids, and the numbers that a reducer may begin with.
ghost use Rattle.std.specs.Prelude.{◌≡◌, ◌∷◌, []};
ghost use Rattle.monoid_laws.specs.declared.Kind.TheVariants as k;
ghost use Rattle.monoid_laws.specs.Kinds.{names_element};
ghost use Rattle.linked_program.specs.Monoids.{says_monoid};
ghost use Rattle.linked_program.specs.Initials.{all_elements, are_elements, is_initial};

use crate::counts::arity;
use monoid_laws::{Kind, Table, TableAnswer};

/// Whether the answer says that a table's operation is a monoid.
pub fn says_monoid(answer: TableAnswer) -> bool
    ensures { result ≡ says_monoid answer }
{
    match answer {
        TableAnswer::Monoid => true,
        TableAnswer::NotIdentity(_) | TableAnswer::NotAssociative(_, _, _) => false,
    }
}

fn is_element(table: &Table, number: i64) -> bool
    ensures { result ≡ names_element (k.Table table.now) (number ∷ []) }
{
    number >= 0 && number < table.size as i64
}

// Whether each number is one of the table's elements.
fn all_elements(table: &Table, numbers: &[i64]) -> bool
    ensures { result ≡ all_elements table.now numbers.now }
{
    for number in numbers {
        if !is_element(table, *number) {
            return false;
        }
    }
    true
}

// Whether each number is an element, where it is a table's kind.
fn are_elements(kind: &Kind, numbers: &[i64]) -> bool
    ensures { result ≡ are_elements kind.now numbers.now }
{
    match kind {
        Kind::Table(table) => all_elements(table, numbers),
        _ => true,
    }
}

/// Whether a reducer of that kind may begin with these numbers.
#[tactic(auto, using(crate::proofs::Arities::arity_some))]
pub fn is_initial(kind: &Kind, numbers: &[i64]) -> bool
    ensures { result ≡ is_initial kind.now numbers.now }
{
    numbers.len() % arity(kind) == 0 && are_elements(kind, numbers)
}
