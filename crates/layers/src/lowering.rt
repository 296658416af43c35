// Flags that are put down, for a layer that is opened.
ghost use Rattle.std.specs.Prelude.{◌≡◌, ◌<◌, OnOk, false, length, replicate, slice_set};

use std::alloc::AllocError;

/// How many flags are few enough to put them down one by one, which is quicker than a call.
const FEW: usize = 16;

/// So many flags, all of them down, in that list.
#[inline(always)]
pub(crate) fn put_all_down(flags: &mut Vec<bool>, count: usize) -> Result<(), AllocError>
    ensures down { OnOk result (flags.new.items ≡ replicate count false) }
{
    if flags.len() == count && count <= FEW {
        put_few_down(flags);
        return Ok(());
    }
    make_down(flags, count)
}

/// So many flags, all of them down, made anew.
#[inline(never)]
fn make_down(flags: &mut Vec<bool>, count: usize) -> Result<(), AllocError>
    ensures down { OnOk result (flags.new.items ≡ replicate count false) }
{
    flags.clear();
    flags.resize(count, false)
}

/// Puts these flags down.
#[inline(always)]
fn put_few_down(flags: &mut Vec<bool>)
    ensures down { flags.new.items ≡ replicate (length flags.old.items) false }
{
    for i in 0..flags.len() {
        put_down(flags, i);
    }
}

/// Puts down the flag of that number, if it is up: most are down, and aren't written.
#[inline(always)]
fn put_down(flags: &mut Vec<bool>, number: usize)
    requires there { number < length flags.old.items }
    ensures down { flags.new.items ≡ slice_set flags.old.items number false }
{
    if flags[number] {
        flags[number] = false;
    }
}
