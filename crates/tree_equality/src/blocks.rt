//! The blocks of a procedure by their numbers.
ghost use Rattle.std.specs.Prelude.{◌≡◌, ◌<◌, ◌-◌, option_copied, OnSome};
ghost use Rattle.meaning.specs.TreeView.{block, statements_of};

use meaning::tree::Block;

/// The block of a number, where blocks nest at most so many levels; none where no level is left or there is no such block.
pub(crate) fn block_at(blocks: &[Block], levels: usize, number: usize) -> Option<&Block>
    ensures found { block blocks.now levels number
        ≡ statements_of (block blocks.now (levels - 1)) (option_copied result) }
    ensures nested { OnSome result (0 < levels) }
{
    if levels == 0 {
        None
    } else {
        blocks.get(number)
    }
}
