//! How many instances were nested in one that is over.
ghost use Rattle.std.specs.Prelude.{◌≡◌, ◌-◌};
ghost use Rattle.meaning.specs.Elision.{depth_limit};

use meaning::DEPTH_LIMIT;

/// The height of a record: how many instances were nested in its own at most, itself counted, where so many were with main, and so many
/// levels were left below its own.
#[inline(always)]
pub fn height(levels: u32, left: u32) -> u32
    ensures height { result ≡ levels - (depth_limit - left) }
{
    levels.saturating_sub(DEPTH_LIMIT.saturating_sub(left))
}
