//! What was read of a table's totals at one time and isn't so at another.
ghost use Rattle.std.specs.Prelude.{◌≡◌, ◌≤◌, ◌<◌, ◌+◌, ◌++◌, ◌∷◌, [], cond, length, vec_capacity};
ghost use Rattle.std.specs.Ordering.{int_eq};
ghost use Rattle.evaluation.specs.declared.note.Note.TheVariants.{Limit, Sum};

use evaluation::note::Note;

/// Puts the limit of a table behind others, where it is another at the other time; there is room for it.
pub fn put_limit(notes: &mut Vec<Note>, table: usize, value: i64, other: i64)
    requires room { length notes.old.items < vec_capacity notes.old }
    ensures put { notes.new.items ≡ notes.old.items
        ++ cond (int_eq value other) [] (Limit table value ∷ []) }
    ensures few { length notes.new.items ≤ length notes.old.items + 1 }
    ensures room { vec_capacity notes.new ≡ vec_capacity notes.old }
{
    if value != other {
        notes.push_reserved(Note::Limit { table, value });
    }
}

/// Puts the sum of a column behind others, where it is another at the other time; there is room for it.
pub fn put_sum(notes: &mut Vec<Note>, table: usize, column: usize, value: i64, other: i64)
    requires room { length notes.old.items < vec_capacity notes.old }
    ensures put { notes.new.items ≡ notes.old.items
        ++ cond (int_eq value other) [] (Sum table column value ∷ []) }
    ensures few { length notes.new.items ≤ length notes.old.items + 1 }
    ensures room { vec_capacity notes.new ≡ vec_capacity notes.old }
{
    if value != other {
        notes.push_reserved(Note::Sum {
            table,
            column,
            value,
        });
    }
}
