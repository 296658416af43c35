//! Whether a table's operation is a monoid.
ghost use Rattle.std.specs.Prelude.{◌≡◌, ℕ, ◌≤◌, ◌<◌, ◌+◌, ◌*◌, MatchOption, IsTrue, ◌↔◌};
ghost use Rattle.monoid_laws.specs.Kinds.{table_at, IsMonoidTable};
ghost use Rattle.monoid_laws.specs.Tables.{KeepsUnit, Holds, IsFirstChange, IsThird, IsSecond, IsAnswer};

use monoid_laws::{Table, TableAnswer};

/// The table's entry for `a op b`.
pub fn entry(table: &Table, a: u8, b: u8) -> u8
    requires left { a < table.now.size }
    requires right { b < table.now.size }
    ensures value { result ≡ table_at table.now a b }
    ensures element { result < table.now.size }
{
    table.cells[a as usize * table.size as usize + b as usize]
}

/// Whether the unit leaves `a` as it is, on either side.
fn keeps_unit(table: &Table, a: u8) -> bool
    requires { a < table.now.size }
    ensures { IsTrue result ↔ KeepsUnit table.now a }
{
    entry(table, table.unit, a) == a && entry(table, a, table.unit) == a
}

/// Whether the two ways to combine the three elements agree.
fn agrees(table: &Table, a: u8, b: u8, c: u8) -> bool
    requires first { a < table.now.size }
    requires second { b < table.now.size }
    requires third { c < table.now.size }
    ensures { IsTrue result ↔ Holds table.now a b c }
{
    entry(table, entry(table, a, b), c) == entry(table, a, entry(table, b, c))
}

/// The least element that the unit changes.
fn changed_by_unit(table: &Table) -> Option<u8>
    ensures { MatchOption result ((x : ℕ) → x < table.now.size → KeepsUnit table.now x) (λ a. IsFirstChange table.now a) }
{
    for a in 0..table.size {
        if !keeps_unit(table, a) {
            return Some(a);
        }
    }
    None
}

/// The least `c` for which the two ways to combine `a`, `b` and `c` differ.
fn failing_third(table: &Table, a: u8, b: u8) -> Option<u8>
    requires left { a < table.now.size }
    requires right { b < table.now.size }
    ensures { MatchOption result ((z : ℕ) → z < table.now.size → Holds table.now a b z) (λ c. IsThird table.now a b c) }
{
    for c in 0..table.size {
        if !agrees(table, a, b, c) {
            return Some(c);
        }
    }
    None
}

/// The first `b` and `c` for which the two ways to combine `a`, `b` and `c` differ.
fn failing_second(table: &Table, a: u8) -> Option<(u8, u8)>
    requires { a < table.now.size }
    ensures { MatchOption result ((y z : ℕ) → y < table.now.size → z < table.now.size → Holds table.now a y z) (λ p. IsSecond table.now a p.0 p.1) }
{
    for b in 0..table.size {
        if let Some(c) = failing_third(table, a, b) {
            return Some((b, c));
        }
    }
    None
}

/// Whether the table is a monoid; where it is not, the first failure of a law.
pub fn check_table(table: &Table) -> TableAnswer
    ensures { IsAnswer table.now result }
{
    if let Some(a) = changed_by_unit(table) {
        return TableAnswer::NotIdentity(a);
    }
    for a in 0..table.size {
        if let Some((b, c)) = failing_second(table, a) {
            return TableAnswer::NotAssociative(a, b, c);
        }
    }
    TableAnswer::Monoid
}
