//! The number of a record's readings that the tables don't hold.
ghost use Rattle.std.specs.Prelude.{◌≡◌, ◌<◌, ◌≤◌, length, min, nat_eq, vec_capacity};
ghost use Rattle.record_numbers.specs.Stale.{most_number, number_by, cleared};

/// A number where so many readings more don't hold, and so many of these fewer.
#[inline(always)]
pub fn number_after(number: u32, more: u64, fewer: u64) -> u32
    requires few { more ≤ 9223372036854775807 }
    ensures after { result ≡ number_by number more fewer }
{
    if number == u32::MAX {
        return number;
    }
    let gone = u64::from(number) + more;
    capped(gone.saturating_sub(fewer))
}

// The number in four bytes; the greatest of these where it has none.
#[inline(always)]
fn capped(number: u64) -> u32
    ensures capped { result ≡ min most_number number }
{
    if number > u64::from(u32::MAX) {
        u32::MAX
    } else {
        number as u32
    }
}

/// Whether nothing is counted.
#[inline(always)]
pub fn is_fresh(number: u32) -> bool
    ensures fresh { result ≡ nat_eq number 0 }
{
    number == 0
}

/// The number at that place, or of one behind the others, for which there is room, is 0.
#[inline(always)]
pub fn clear(numbers: &mut Vec<u32>, place: usize)
    requires within { place ≤ length numbers.old.items }
    requires room { length numbers.old.items < vec_capacity numbers.old }
    ensures cleared { numbers.new.items ≡ cleared numbers.old.items place }
    ensures room { vec_capacity numbers.new ≡ vec_capacity numbers.old }
{
    if place < numbers.len() {
        numbers[place] = 0;
    } else {
        numbers.push_reserved(0);
    }
}
