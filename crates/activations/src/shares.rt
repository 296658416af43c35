//! Shares of a loop's iterations.
ghost use Rattle.std.specs.Prelude.{◌≡◌, ◌<◌, ◌≤◌, ◌+ℤ◌, pos};
ghost use Rattle.positions.specs.Activations.{ShareFits};
ghost use Rattle.activations.specs.Turned.{behind};
ghost use Rattle.positions.specs.Advance.{left_of as first_half_of, right_of as second_half_of, rest_of as later_of};

use positions::work::{Loop, Share};

/// Iterations of that loop: that share of them.
#[derive(Clone, Copy)]
pub struct Turns {
    pub site: Loop,
    pub share: Share,
}

/// The first half.
pub fn left_of(loop_place: Loop, share: Share) -> Share
    requires fits { ShareFits loop_place share }
    ensures half { result ≡ first_half_of share }
    ensures fits { ShareFits loop_place result }
{
    Share {
        first: share.first,
        count: share.count / 2,
    }
}

/// The second half.
pub fn right_of(loop_place: Loop, share: Share) -> Share
    requires fits { ShareFits loop_place share }
    ensures half { result ≡ second_half_of share }
    ensures fits { ShareFits loop_place result }
{
    Share {
        first: share.first + share.count / 2,
        count: share.count - share.count / 2,
    }
}

/// All but the first.
pub fn rest_of(loop_place: Loop, share: Share) -> Share
    requires fits { ShareFits loop_place share }
    requires more { 0 < share.count }
    ensures rest { result ≡ later_of share }
    ensures fits { ShareFits loop_place result }
{
    Share {
        first: share.first + 1,
        count: share.count - 1,
    }
}

/// All but so many first ones.
#[inline(always)]
pub fn behind(loop_place: Loop, share: Share, done: u32) -> Share
    requires fits { ShareFits loop_place share }
    requires some { done ≤ share.count }
    ensures rest { result ≡ behind done share }
    ensures fits { ShareFits loop_place result }
{
    Share {
        first: share.first + done,
        count: share.count - done,
    }
}

/// The number of the first iteration.
pub fn number_of(loop_place: Loop, share: Share) -> i64
    requires fits { ShareFits loop_place share }
    ensures number { result ≡ loop_place.low +ℤ pos share.first }
{
    loop_place.low + i64::from(share.first)
}
