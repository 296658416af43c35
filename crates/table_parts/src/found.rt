// The place of a name, and what is found of a row.

ghost use Rattle.std.specs.Prelude.{◌≡◌, ◌≤◌, length, map, option_map, slice_get};
ghost use Rattle.meaning.specs.Tables.{index_of, is_there};
ghost use Rattle.table_parts.specs.Ends.{last_of};

use std::convert::AsStr;

/// The index of a name, or how many there are where it isn't among them.
pub fn index_of<N: AsStr>(named: &[N], name: &str) -> usize
    ensures place { result ≡ index_of (map N.text named.now) name.now }
    ensures within { result ≤ length named.now }
{
    for (place, other) in named.iter().enumerate() {
        if other.as_str() == name {
            return place;
        }
    }
    named.len()
}

/// Whether the values of a row were found.
#[inline(always)]
pub fn is_found(values: Option<&[i64]>) -> bool
    ensures { result ≡ is_there (option_map (λ values. values.now) values.entry) }
{
    values.is_some()
}

/// The value of a row in a column.
#[inline(always)]
pub fn value_in(values: &[i64], column: usize) -> Option<i64>
    ensures { result ≡ slice_get values.now column }
{
    values.get(column).copied()
}

/// The last of the numbers of rows.
pub fn last_number(numbers: &[(i64, ())]) -> Option<i64>
    ensures { result ≡ last_of numbers.now }
{
    match numbers.last() {
        Some(row) => Some(row.0),
        None => None,
    }
}
