//! The range of a loop.
ghost use Rattle.std.specs.Prelude.{◌≡◌, ◌<◌, ◌≤◌, ◌+ℤ◌, ◌≤ℤ◌, pos};
ghost use Rattle.meaning.specs.Statements.{most_iterations};

/// So many numbers from a low one on.
#[derive(Clone, Copy)]
pub struct Range {
    pub low: i64,
    pub count: u64,
    ghost short: { count ≤ most_iterations },
    ghost inside: { (low +ℤ pos count) ≤ℤ pos 9223372036854775807 },
}

impl Range {
    /// The i-th number.
    pub(crate) fn at(self, i: u64) -> i64
        requires { i < self.count }
        ensures { result ≡ self.low +ℤ pos i }
    {
        self.low.wrapping_add(i as i64)
    }
}
