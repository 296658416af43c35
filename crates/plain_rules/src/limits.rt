//! Limits of texts, and where one is passed.
ghost use Rattle.std.specs.Prelude.{◌≡◌, ◌-◌, ◌&&◌, nat_le};

/// How many levels an expression has at most.
#[inline(always)]
pub fn most_levels() -> usize
    ensures { result ≡ 64 }
{
    64
}

/// Whether a number is from `low` to `high`.
#[inline(always)]
pub fn is_within(low: u64, high: u64, number: u64) -> bool
    ensures { result ≡ (nat_le low number && nat_le number high) }
{
    low <= number && number <= high
}

/// How many more there may be where there are so many, and so many are the most.
#[inline(always)]
pub fn left_of(most: usize, count: usize) -> usize
    ensures { result ≡ most - count }
{
    most.saturating_sub(count)
}

/// The place of the token from which so many are left, of so many.
#[inline(always)]
pub fn place_of(tokens: usize, left: usize) -> usize
    ensures { result ≡ tokens - left }
{
    tokens.saturating_sub(left)
}

/// The line at which a text is refused that is too long.
#[inline(always)]
pub fn line_of_too_long() -> u32
    ensures { result ≡ 0 }
{
    0
}
