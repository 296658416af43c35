//! One number that stands for several.
ghost use Rattle.std.specs.Prelude.{◌≡◌, ◌/◌};
ghost use Rattle.place_chains.specs.Mixing.{added, all_mixed, last_mixed, mixed, number_in, number_of, spread, turned};

/// Odd, so that no product loses anything, with bits that follow no rule: those of the golden section.
const FACTOR: u64 = 11400714819323198485;

/// A number that other integers, or the same in another order, rarely have too. Those that differ by the last digit of sixteen of the
/// last one alone have numbers side by side, as a loop's iterations do.
#[tactic(auto, unfolding(crate::specs::Mixing::number_of))]
pub fn number_of(first: usize, others: &[i64]) -> u32
    ensures number { result ≡ number_of first others.now }
{
    number_in((first as u64).wrapping_mul(FACTOR), others)
}

// That of so much mixed, and of the others.
#[tactic(auto, using(crate::proofs::Mixed::of_none, crate::proofs::Mixed::by_last))]
fn number_in(sum: u64, others: &[i64]) -> u32
    ensures number { result ≡ number_in sum others.now }
{
    match others.split_last() {
        None => upper_half(sum),
        Some((last, front)) => last_mixed(all_mixed(sum, front), *last),
    }
}

// All of them mixed in, one after another.
fn all_mixed(mut sum: u64, others: &[i64]) -> u64
    ensures mixed { result ≡ all_mixed sum others.now }
{
    for other in others {
        sum = mixed(sum, *other);
    }
    sum
}

// One more integer mixed in.
fn mixed(sum: u64, other: i64) -> u64
    ensures mixed { result ≡ mixed sum other }
{
    added(sum, other).wrapping_mul(FACTOR)
}

// The last one mixed in.
fn last_mixed(sum: u64, other: i64) -> u32
    ensures mixed { result ≡ last_mixed sum other }
{
    let whole = added(0, other);
    turned(upper_half(spread(sum, whole / 16)), whole)
}

// So much more, and all of it mixed.
fn spread(sum: u64, more: u64) -> u64
    ensures spread { result ≡ spread sum more }
{
    sum.wrapping_add(more).wrapping_mul(FACTOR)
}

// The upper half of a number.
fn upper_half(number: u64) -> u32
    ensures half { result ≡ number / 4294967296 }
{
    (number / 4294967296) as u32
}

// One more integer added.
fn added(sum: u64, other: i64) -> u64
    ensures added { result ≡ added sum other }
{
    sum.wrapping_add_signed(other)
}

// That number with its last digit so much further on.
fn turned(number: u32, by: u64) -> u32
    ensures turned { result ≡ turned number by }
{
    number - number % 16 + (number % 16 + (by % 16) as u32) % 16
}
