// A layer takes over what the right neighbour's layer has noted.
ghost use Rattle.std.specs.Prelude.{◌≡◌, ◌≤◌, ◌+◌, ◌++◌, All, OnOk, OnErr, slice_set, true, vec_len, vec_capacity};
ghost use Rattle.monoid_laws.specs.Kinds.{IsMonoid, operate_all};
ghost use Rattle.instance_records.specs.Readings.{all_of};
ghost use Rattle.positions.specs.Layers.{either, multiplied};

use crate::layer::Layer;
use instance_records::readings::Readings;
use std::alloc::AllocError;
use view_pool::View;

impl<V: View> Layer<V> {
    /// Puts what `right` has noted behind this, and leaves its views at the identities. Where memory is refused, some reducers
    /// have moved to this one and the others have not, and nothing else has changed.
    pub(crate) fn multiply(&mut self, right: &mut Layer<V>) -> Result<(), AllocError>
        requires kinds { self.old.kinds ≡ right.old.kinds }
        requires monoids { All IsMonoid self.old.kinds }
        ensures multiplied { OnOk result (self.new ≡ multiplied self.old right.old) }
        ensures right_kinds { right.new.kinds ≡ right.old.kinds }
        ensures left_kept { OnErr result (self.new ≡ record self.old { worths = self.new.worths }) }
        ensures right_kept { OnErr result (right.new ≡ record right.old { worths = right.new.worths }) }
        ensures product { OnErr result (operate_all self.old.kinds self.new.worths right.new.worths
            ≡ operate_all self.old.kinds self.old.worths right.old.worths) }
    {
        if !self.keeps {
            self.hypermap.fold(&mut right.hypermap)?;
            flag_all(&mut self.entered, &right.entered);
            self.deepest = self.deepest.max(right.deepest);
            return Ok(());
        }
        self.shared.reserve(right.shared.len())?;
        let before = self.notes.len();
        self.notes.add_all(&right.notes)?;
        if self.hypermap.fold(&mut right.hypermap).is_err() {
            self.notes.truncate(before);
            return Err(AllocError);
        }
        append_shared(&mut self.shared, &mut right.shared);
        flag_all(&mut self.entered, &right.entered);
        self.deepest = self.deepest.max(right.deepest);
        Ok(())
    }
}

/// Moves readings behind others, for which there is room.
fn append_shared(shared: &mut Vec<Readings>, more: &mut Vec<Readings>)
    requires room { vec_len shared.old + vec_len more.old ≤ vec_capacity shared.old }
    ensures appended { all_of shared.new.items ≡ all_of shared.old.items ++ all_of more.old.items }
{
    let _ = shared.append(more);
}

/// Puts up the flags that are up in `others`, of which few are.
pub(crate) fn flag_all(flags: &mut Vec<bool>, others: &[bool])
    ensures either { flags.new.items ≡ either flags.old.items others.now }
{
    for i in 0..others.len() {
        if others[i] {
            put_up(flags, i);
        }
    }
}

/// Puts up the flag of that number, where there is one.
#[inline(always)]
pub(crate) fn put_up(flags: &mut Vec<bool>, number: usize)
    ensures up { flags.new.items ≡ slice_set flags.old.items number true }
{
    if number < flags.len() {
        flags[number] = true;
    }
}
