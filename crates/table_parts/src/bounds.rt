// How many columns a table may have, and which numbers its rows.

ghost use Rattle.std.specs.Prelude.{◌≡◌, ◌&&◌, nat_le};
ghost use Rattle.meaning.specs.Edits.{in_range};

/// How many columns a table may have.
pub const MOST_COLUMNS: usize = 8;

/// Whether a table may have so many columns.
pub fn is_column_count(columns: usize) -> bool
    ensures { result ≡ nat_le 1 columns && nat_le columns 8 }
{
    1 <= columns && columns <= MOST_COLUMNS
}

/// Whether a row may have this number.
pub fn is_row_number(number: i64) -> bool
    ensures { result ≡ in_range number }
{
    0 <= number && number <= 2_147_483_647
}
