//! How far an expression may go.

ghost use Rattle.std.specs.Prelude.{◌≡◌, ◌≤◌, ◌-◌, ◌<◌};
ghost use Rattle.token_readers.specs.Limits.{most_open, most_levels};

use plain_rules::limits as plain_limits;

/// How many parentheses and brackets may be open at once in an expression.
const MOST_OPEN: usize = 64;

/// How far an expression may still go: how many more parentheses and brackets may be open, and how many levels there is room for.
#[derive(Clone, Copy)]
pub struct Limits {
    pub more: usize,
    pub room: usize,
    ghost open: { more ≤ most_open },
    ghost low: { 0 < room },
    ghost high: { room ≤ most_levels },
}

impl Limits {
    /// The limits of a whole expression.
    pub fn whole() -> Limits
        ensures more { result.more ≡ most_open }
        ensures room { result.room ≡ most_levels }
    {
        Limits {
            more: MOST_OPEN,
            room: plain_limits::most_levels(),
        }
    }

    /// With a level less.
    pub fn lower(self) -> Limits
        requires { 1 < self.room }
        ensures more { result.more ≡ self.more }
        ensures room { result.room ≡ self.room - 1 }
    {
        Limits {
            more: self.more,
            room: self.room - 1,
        }
    }

    /// Behind one more parenthesis or bracket.
    pub fn inner(self) -> Limits
        requires { 0 < self.more }
        ensures more { result.more ≡ self.more - 1 }
        ensures room { result.room ≡ self.room }
    {
        Limits {
            more: self.more - 1,
            room: self.room,
        }
    }
}
