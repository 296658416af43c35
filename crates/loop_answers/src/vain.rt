// Whether it is of no use to look up more of a loop's iterations.
use crate::tried::{Ahead, Wanted};
use activations::setting::Setting;
use rerun_records::batch::Batch;
use rerun_records::blocks::Width;

/// So many single records are looked up at most in one go: one costs as much as a wide batch.
pub(crate) const SINGLES: u32 = 64;

/// So many records go together where they can.
const WIDTH: u32 = 16;

/// How many single records there are with that batch.
pub(crate) fn singles_with(singles: u32, batch: Batch<'_>) -> u32 {
    if batch.count == 1 {
        return singles.saturating_add(1);
    }
    singles
}

/// Whether it is of no use to look further: too many single records were found, or many iterations are all asked for, and a record
/// is part of no block where many are left, so that one beside it isn't valid any more, or no argument counts up. Of few iterations that are
/// left as they are otherwise the same is said of such a record alone.
pub(crate) fn is_in_vain(
    setting: Setting<'_>,
    wanted: Wanted,
    ahead: Ahead,
    batch: Batch<'_>,
    singles: u32,
) -> bool {
    if singles > SINGLES {
        return true;
    }
    if !wanted.all || batch.count > 1 {
        return false;
    }
    if ahead.counted.is_none() {
        return wanted.most > SINGLES;
    }
    (wanted.is_left || wanted.most > SINGLES) && ahead.most >= WIDTH && is_alone(setting, batch)
}

/// Whether the record of one instance is part of no block, nor is the one behind it.
fn is_alone(setting: Setting<'_>, batch: Batch<'_>) -> bool {
    !has_block(setting, batch.next.wrapping_sub(1)) && !has_block(setting, batch.next)
}

/// Whether the record at that place may be part of a block.
fn has_block(setting: Setting<'_>, place: usize) -> bool {
    let kinds = setting.program.kinds();
    setting
        .records
        .block_at(Width::Fine, place, kinds)
        .is_some()
}
