//! The elements of written tables.
ghost use Rattle.std.specs.Prelude.{◌≡◌, IfSome, OnSome, IsNone, true, false, ◌∷◌, []};
ghost use Rattle.monoid_laws.specs.Worth.{element};
ghost use Rattle.monoid_laws.specs.Kinds.{element_of, names_element};
ghost use Rattle.monoid_laws.specs.declared.Kind.TheVariants as kinds;

use monoid_laws::Table;

/// A table's element of this number.
pub fn table_element(table: Table, number: i64) -> Option<u8>
    ensures none { IsNone result → names_element (kinds.Table table) (number ∷ []) ≡ false }
    ensures some { IfSome result (λ e. element e ≡ element_of (kinds.Table table) (number ∷ [])) }
    ensures named { OnSome result (names_element (kinds.Table table) (number ∷ []) ≡ true) }
{
    if number >= 0 && number < table.size as i64 {
        return Some(number as u8);
    }
    None
}
