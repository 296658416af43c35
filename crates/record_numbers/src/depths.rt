//! How deep a record may answer.
ghost use Rattle.std.specs.Prelude.{◌≡◌, ◌+◌, suc, nat_le};
ghost use Rattle.meaning.specs.Elision.{depth_limit};

use meaning::DEPTH_LIMIT;

/// Whether so many nested instances from that depth on stay within the limit.
#[inline(always)]
pub fn fits(depth: u32, height: u32) -> bool
    ensures fits { result ≡ nat_le (depth + height) (suc depth_limit) }
{
    u64::from(depth) + u64::from(height) <= u64::from(DEPTH_LIMIT) + 1
}
