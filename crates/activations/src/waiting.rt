//! Whether a slot of an instance would still wait, if the strand that it is in were joined to its left neighbour.
ghost use Rattle.std.specs.Prelude.{◌≡◌, reverse};
ghost use Rattle.meaning.specs.Trail.{child_of};
ghost use Rattle.activations.specs.Waiting.{leaves_before, ends_after, still_waits, none_still_waits, none_waits_in, none_waits_below};

use crate::activation::Activation;
use crate::names::is_child;
use evaluation::slot::Slot;
use positions::start::Start;
use positions::work::Work;

/// Whether the child of that number of one instance leaves before that of another instance.
fn leaves_before(left: &[usize], child: usize, right: &[usize], other: usize) -> bool
    ensures before { result ≡ leaves_before (child_of left.now child) (child_of right.now other) }
{
    for depth in 0..left.len() {
        if depth == right.len() {
            return left[depth] <= other;
        }
        if left[depth] != right[depth] {
            return left[depth] < right[depth];
        }
    }
    match right.get(left.len()) {
        Some(next) => child < *next,
        None => child < other,
    }
}

/// Whether the child of that number of an instance leaves after the beginning of the strand of the name `path`.
fn ends_after(start: Start, path: &[usize], instance: &[usize], number: usize) -> bool
    ensures after { result ≡ ends_after start path.now (child_of instance.now number) }
{
    match start {
        Start::Root => true,
        Start::Behind { depth, child } => {
            let depth = depth.min(path.len());
            leaves_before(&path[..depth], child, instance, number)
        }
    }
}

/// Whether a slot of that instance waits for a child that isn't the left strand's and ends after its beginning.
fn still_waits(start: Start, left: &[usize], instance: &[usize], slot: Slot) -> bool
    ensures waits { result ≡ still_waits start left.now instance.now slot }
{
    match slot {
        Slot::Waits(child) => {
            !is_child(left, instance, child) && ends_after(start, left, instance, child)
        }
        _ => false,
    }
}

/// Whether none of these slots does.
fn none_still_waits(start: Start, left: &[usize], instance: &[usize], slots: &[Slot]) -> bool
    ensures none { result ≡ none_still_waits start left.now instance.now slots.now }
{
    for slot in slots {
        if still_waits(start, left, instance, *slot) {
            return false;
        }
    }
    true
}

/// Whether no slot of the instance of that name does; a loop's wait for none.
pub fn none_waits_in(start: Start, left: &[usize], name: &[usize], activation: &Activation) -> bool
    ensures none { result ≡ none_waits_in start left.now name.now activation.now }
{
    match activation.work() {
        Work::Block(_) | Work::Over => { none_still_waits(start, left, name, activation.slots()) }
        _ => true,
    }
}

/// Whether no slot of those below the instance of that name does; the last one has entered it. They are no more than `DEEPEST`.
#[tactic(auto, using(crate::proofs::Orders::last_waits))]
pub fn none_waits_below(start: Start, left: &[usize], name: &[usize], below: &[Activation]) -> bool
    ensures none { result ≡ none_waits_below start left.now name.now (reverse below.now) }
{
    match below.split_last() {
        None => true,
        Some((activation, lower)) => {
            let name = &name[..name.len().saturating_sub(1)];
            none_waits_in(start, left, name, activation)
                && none_waits_below(start, left, name, lower)
        }
    }
}
