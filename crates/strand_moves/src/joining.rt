//! Two strands become one.
ghost use Rattle.std.specs.Prelude.{◌≡◌, ◌⊎◌, [], List, All, IfOk, IfErr, OnOk, OnErr};
ghost use Rattle.monoid_laws.specs.declared.Kind.{Kind};
ghost use Rattle.monoid_laws.specs.Kinds.{IsMonoid, operate_all};
ghost use Rattle.record_theory.specs.Named.{HaveValues};
ghost use Rattle.positions.specs.Moves.{joined, joined_broken, joined_ended, settled_by, FoldsViews};
ghost use Rattle.positions.specs.Tallies.{no_tally};
ghost use Rattle.strand_moves.specs.Joins.{IsDone, with_worths};

use layers::tally::Tally;
use positions::phase::{Fault, Phase};
use positions::start::Start;
use small_steps::machine::Machine;
use std::alloc::AllocError;
use std::mem;
use strand_parts::layering::join_layers;
use view_pool::{Kit, View};

/// Gives the value of the child behind which the strand begins to the slots that wait for it.
fn give_child<V: View>(machine: &mut Machine<V>, value: i64)
    ensures settled { machine.new ≡ settled_by machine.old.start value machine.old }
{
    if let Start::Behind { depth, child } = machine.start {
        let above = machine.path.len().saturating_sub(depth);
        if above == 0 {
            machine.top.give_child(child, value);
        } else if above <= machine.below.len() {
            let place = machine.below.len() - above;
            machine.below[place].give_child(child, value);
        }
    }
}

/// Puts the right neighbour behind this strand, which has ended or has a fault; gives the right one's kit. Where memory is refused it
/// is handed back.
pub fn join<V: View>(
    machine: &mut Machine<V>,
    right: Machine<V>,
) -> Result<Kit<V>, (AllocError, Machine<V>)>
    requires done { IsDone machine.old.phase }
    requires one_layer { right.lower ≡ [] }
    requires kinds { machine.old.layer.kinds ≡ right.layer.kinds }
    requires monoids { All IsMonoid machine.old.layer.kinds }
    ensures joined { OnOk result (machine.new ≡ joined machine.old right) }
    ensures kit { IfOk result (λ kit. kit ≡ right.layer.kinds) }
    ensures made { (kinds : List Kind) → HaveValues kinds machine.old.tally.made → HaveValues kinds right.tally.made → HaveValues kinds machine.new.tally.made }
    ensures left_kept { OnErr result (machine.new ≡ with_worths machine.new.layer.worths machine.old) }
    ensures right_kept { IfErr result (λ e. e.1 ≡ with_worths e.1.layer.worths right) }
    ensures product { IfErr result (λ e. operate_all machine.old.layer.kinds machine.new.layer.worths e.1.layer.worths
        ≡ operate_all machine.old.layer.kinds machine.old.layer.worths right.layer.worths) }
    ensures views { IfErr result (λ e. FoldsViews machine.old.phase right.phase ⊎ ((machine.new ≡ machine.old) × (e.1 ≡ right))) }
{
    let mut right = right;
    match take_up(machine, &mut right) {
        Ok(()) => Ok(close(right)),
        Err(error) => Err((error, right)),
    }
}

/// Puts the right neighbour behind this strand, which has ended or has a fault, and leaves it where it lies: without layers below its one and
/// with nothing counted, to be let go. Where memory is refused both are as they were, but for reducers' values that have moved from the
/// right one to the left.
pub fn join_there<V: View>(
    machine: &mut Machine<V>,
    right: &mut Machine<V>,
) -> Result<(), AllocError>
    requires done { IsDone machine.old.phase }
    requires one_layer { right.old.lower ≡ [] }
    requires kinds { machine.old.layer.kinds ≡ right.old.layer.kinds }
    requires monoids { All IsMonoid machine.old.layer.kinds }
    ensures joined { OnOk result (machine.new ≡ joined machine.old right.old) }
    ensures kinds { right.new.layer.kinds ≡ right.old.layer.kinds }
    ensures made { (kinds : List Kind) → HaveValues kinds machine.old.tally.made → HaveValues kinds right.old.tally.made
        → HaveValues kinds machine.new.tally.made }
    ensures bare { OnOk result (right.new.lower ≡ []) }
    ensures uncounted { OnOk result (right.new.tally ≡ no_tally) }
    ensures left_kept { OnErr result (machine.new ≡ with_worths machine.new.layer.worths machine.old) }
    ensures right_kept { OnErr result (right.new ≡ with_worths right.new.layer.worths right.old) }
    ensures product { OnErr result (operate_all machine.old.layer.kinds machine.new.layer.worths right.new.layer.worths
        ≡ operate_all machine.old.layer.kinds machine.old.layer.worths right.old.layer.worths) }
    ensures views { OnErr result (FoldsViews machine.old.phase right.old.phase ⊎ ((machine.new ≡ machine.old) × (right.new ≡ right.old))) }
{
    match take_up(machine, right) {
        Ok(()) => {
            forget(right);
            Ok(())
        }
        Err(error) => Err(error),
    }
}

/// What a strand that is let go has counted and recorded is another's, and the layers below its one.
fn forget<V: View>(machine: &mut Machine<V>)
    ensures kinds { machine.new.layer.kinds ≡ machine.old.layer.kinds }
    ensures bare { machine.new.lower ≡ [] }
    ensures uncounted { machine.new.tally ≡ no_tally }
{
    let alloc = *machine.path.allocator();
    machine.lower.clear();
    machine.tally = Tally::new(alloc);
}

/// The kit of a strand with one layer that is let go.
pub fn close<V: View>(machine: Machine<V>) -> Kit<V>
    ensures kit { result ≡ machine.layer.kinds }
{
    machine.layer.close()
}

/// Puts the right neighbour behind this strand, which takes what it goes on with; the rest is to be let go. Where memory is refused
/// both are as they were, but for reducers' values that have moved from the right one to the left.
fn take_up<V: View>(machine: &mut Machine<V>, right: &mut Machine<V>) -> Result<(), AllocError>
    requires done { IsDone machine.old.phase }
    requires one_layer { right.old.lower ≡ [] }
    requires kinds { machine.old.layer.kinds ≡ right.old.layer.kinds }
    requires monoids { All IsMonoid machine.old.layer.kinds }
    ensures joined { OnOk result (machine.new ≡ joined machine.old right.old) }
    ensures kinds { right.new.layer.kinds ≡ right.old.layer.kinds }
    ensures made { (kinds : List Kind) → HaveValues kinds machine.old.tally.made → HaveValues kinds right.old.tally.made
        → HaveValues kinds machine.new.tally.made }
    ensures left_kept { OnErr result (machine.new ≡ with_worths machine.new.layer.worths machine.old) }
    ensures right_kept { OnErr result (right.new ≡ with_worths right.new.layer.worths right.old) }
    ensures product { OnErr result (operate_all machine.old.layer.kinds machine.new.layer.worths right.new.layer.worths
        ≡ operate_all machine.old.layer.kinds machine.old.layer.worths right.old.layer.worths) }
    ensures views { OnErr result (FoldsViews machine.old.phase right.old.phase ⊎ ((machine.new ≡ machine.old) × (right.new ≡ right.old))) }
{
    match machine.phase {
        Phase::Leaving(value) => match right.phase {
            Phase::Broken(fault) => join_broken(machine, fault, right),
            _ => join_ended(machine, value, right),
        },
        Phase::Broken(first) => join_broken(machine, first, right),
        _ => Ok(()),
    }
}

/// Is faulted, and takes over what the right neighbour has counted and recorded alone.
fn join_broken<V: View>(
    machine: &mut Machine<V>,
    fault: Fault,
    right: &mut Machine<V>,
) -> Result<(), AllocError>
    ensures joined { OnOk result (machine.new ≡ joined_broken machine.old right.old fault) }
    ensures kinds { right.new.layer.kinds ≡ right.old.layer.kinds }
    ensures made { (kinds : List Kind) → HaveValues kinds machine.old.tally.made → HaveValues kinds right.old.tally.made
        → HaveValues kinds machine.new.tally.made }
    ensures left_kept { OnErr result (machine.new ≡ machine.old) }
    ensures right_kept { OnErr result (right.new ≡ right.old) }
{
    match machine.tally.take_over(&mut right.tally) {
        Ok(()) => {}
        Err(error) => return Err(error),
    }
    machine.phase = Phase::Broken(fault);
    Ok(())
}

/// Goes on as the right neighbour, behind what this strand has done.
fn join_ended<V: View>(
    machine: &mut Machine<V>,
    value: i64,
    right: &mut Machine<V>,
) -> Result<(), AllocError>
    requires one_layer { right.old.lower ≡ [] }
    requires kinds { machine.old.layer.kinds ≡ right.old.layer.kinds }
    requires monoids { All IsMonoid machine.old.layer.kinds }
    ensures joined { OnOk result (machine.new ≡ joined_ended machine.old value right.old) }
    ensures kinds { right.new.layer.kinds ≡ right.old.layer.kinds }
    ensures made { (kinds : List Kind) → HaveValues kinds machine.old.tally.made → HaveValues kinds right.old.tally.made
        → HaveValues kinds machine.new.tally.made }
    ensures left_kept { OnErr result (machine.new ≡ with_worths machine.new.layer.worths machine.old) }
    ensures right_kept { OnErr result (right.new ≡ with_worths right.new.layer.worths right.old) }
    ensures product { OnErr result (operate_all machine.old.layer.kinds machine.new.layer.worths right.new.layer.worths
        ≡ operate_all machine.old.layer.kinds machine.old.layer.worths right.old.layer.worths) }
{
    match join_layers(
        &mut machine.tally,
        &mut right.tally,
        &mut machine.layer,
        &mut machine.lower,
        &mut right.layer,
    ) {
        Ok(()) => {
            give_child(right, value);
            go_on_as(machine, right);
            Ok(())
        }
        Err(error) => Err(error),
    }
}

/// Goes on with the instances of a strand that is let go, which gets those that are over.
fn go_on_as<V: View>(machine: &mut Machine<V>, right: &mut Machine<V>)
    ensures goes_on { machine.new ≡ record right.old
        { start = machine.old.start; layer = machine.old.layer; lower = machine.old.lower; tally = machine.old.tally } }
    ensures kinds { right.new.layer.kinds ≡ right.old.layer.kinds }
{
    mem::swap(&mut machine.path, &mut right.path);
    mem::swap(&mut machine.place, &mut right.place);
    mem::swap(&mut machine.top, &mut right.top);
    mem::swap(&mut machine.below, &mut right.below);
    mem::swap(&mut machine.arguments, &mut right.arguments);
    mem::swap(&mut machine.phase, &mut right.phase);
}
