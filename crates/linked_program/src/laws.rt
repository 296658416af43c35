//! What follows from the rules alone, each as the contract of a function that does nothing.
ghost use Rattle.std.specs.Prelude.{◌≡◌, List, true, ◌↔◌};
ghost use Rattle.monoid_laws.specs.Kinds.{IsMonoidTable};
ghost use Rattle.linked_program.specs.Monoids.{is_monoid_table};
ghost use Rattle.linked_program.specs.declared.violation.Violation.{Violation};
ghost use Rattle.meaning.specs.Tree.{Name, Tree};
ghost use Rattle.linked_program.specs.First.{FirstIsLeast};
ghost use Rattle.meaning.specs.Tables.{Tables};
ghost use Rattle.linked_program.specs.Links.{ProcedureIs, ReducerIs, TableIs, ColumnIs};

use monoid_laws::Table;

/// The first violation is one of the violations, and none of them comes before it by declaration, then line, then rule; there
/// is no first one only where there is none.
pub fn first_is_least()
    ensures least { (vs : List Violation) → FirstIsLeast vs }
{}

/// A table that passes the rule on tables is a monoid, and one that is a monoid passes it.
pub fn table_rule_is_monoid(table: &Table)
    ensures monoid { (is_monoid_table table.now ≡ true) ↔ IsMonoidTable table.now }
{}

/// The number that a name becomes is that of what the definitions find by the name: a procedure, a reducer, a table, a column that there is.
pub fn links_lead_there()
    ensures procedures { (t : Tree) (f : Name) → ProcedureIs t f }
    ensures reducers { (t : Tree) (r : Name) → ReducerIs t r }
    ensures tables { (tables : Tables) (u : Name) → TableIs tables u }
    ensures columns { (tables : Tables) (u c : Name) → ColumnIs tables u c }
{}
