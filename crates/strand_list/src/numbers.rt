//! One number that stands for a place.
ghost use Rattle.std.specs.Prelude.{◌≡◌};
ghost use Rattle.strand_list.specs.Numbers.{mixed, all_mixed, number_of};

/// Odd, so that no product loses anything, with bits that follow no rule: those of the golden section.
const FACTOR: u64 = 11400714819323198485;

/// A number that other places rarely have too.
pub(crate) fn number_of(place: &[usize]) -> u32
    ensures number { result ≡ number_of place.now }
{
    (all_mixed(1, place) / 4294967296) as u32
}

// All of them mixed in, one after another.
fn all_mixed(mut sum: u64, place: &[usize]) -> u64
    ensures mixed { result ≡ all_mixed sum place.now }
{
    for other in place {
        sum = mixed(sum, *other);
    }
    sum
}

// One more number mixed in.
fn mixed(sum: u64, other: usize) -> u64
    ensures mixed { result ≡ mixed sum other }
{
    sum.wrapping_add(other as u64).wrapping_mul(FACTOR)
}
