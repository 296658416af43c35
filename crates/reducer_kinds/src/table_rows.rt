//! A table made of its numbers, row by row.
ghost use Rattle.std.specs.Prelude.{◌≡◌, ℕ, ◌<◌, ◌≤◌, ◌*◌, ◌↔◌, IsSome, IfSome, All, length, slice_index};

use monoid_laws::Table;

/// The table with these numbers; none where one of them, or the unit, is no element, or their count is not a square's.
pub fn table_of(size: u8, unit: u8, numbers: &[u8]) -> Option<Table>
    ensures made { IsSome result ↔ ((unit < size) × (size ≤ 16) × (length numbers.now ≡ size * size)
        × All (λ n. n < size) numbers.now) }
    ensures same_size { IfSome result (λ t. t.size ≡ size) }
    ensures same_unit { IfSome result (λ t. t.unit ≡ unit) }
    ensures cells { IfSome result (λ t. (i : ℕ) → i < length numbers.now
        → slice_index t.cells i ≡ slice_index numbers.now i) }
{
    if unit >= size || size > 16 || numbers.len() != size as usize * size as usize {
        return None;
    }
    let mut cells = [0; 256];
    for i in 0..numbers.len() {
        if numbers[i] >= size {
            return None;
        }
        cells[i] = numbers[i];
    }
    Some(Table { size, unit, cells })
}
