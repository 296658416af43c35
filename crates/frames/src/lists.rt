// Lists that a run's first strand works with.
ghost use Rattle.std.specs.Prelude.{◌≡◌};

use crate::strand::Strand;
use small_steps::lists::WorkLists;
use small_steps::machine::Machine;
use std::mem;
use view_pool::View;

impl<V: View> Strand<V> {
    /// Goes on with these lists, and leaves its own there; those for a name and for instances that wait only where there is nothing in them. It
    /// takes no memory.
    pub fn exchange_lists(&mut self, lists: &mut WorkLists)
        ensures same { self.new ≡ self.old }
    {
        exchange(lists, &mut self.machine);
    }
}

/// The strand goes on with these lists, and leaves its own there.
fn exchange<V: View>(lists: &mut WorkLists, machine: &mut Machine<V>)
    ensures same { machine.new ≡ machine.old }
{
    lists.exchange(machine);
    exchange_empty(&mut lists.path, &mut machine.path);
    exchange_empty(&mut lists.below, &mut machine.below);
}

/// Exchanges two lists of which neither holds anything.
fn exchange_empty<T>(ours: &mut Vec<T>, theirs: &mut Vec<T>)
    ensures ours { ours.new.items ≡ ours.old.items }
    ensures theirs { theirs.new.items ≡ theirs.old.items }
{
    if ours.is_empty() && theirs.is_empty() {
        mem::swap(ours, theirs);
    }
}
