//! Iterations one after another, each of which is recorded at once.
ghost use Rattle.std.specs.Prelude.{◌≡◌, ◌≤◌, ◌<◌, ◌++◌, ◌∷◌, [], suc, true, Some, None, All, IfOk, OnErr, OnOk, length, vec_len, vec_capacity};
ghost use Rattle.monoid_laws.specs.Kinds.{IsMonoid};
ghost use Rattle.record_theory.specs.Named.{HaveValues};
ghost use Rattle.positions.specs.Layers.{blank};
ghost use Rattle.activations.specs.Given.{lent};
ghost use Rattle.own_statements.specs.Leaves.{AreLeaves, AreUnknown, plain_leaf};
ghost use Rattle.own_statements.specs.Runs.{IsBody};
ghost use Rattle.running_ahead.specs.Leaves.{IsRefusedLeaf};
ghost use Rattle.recording_ahead.specs.AnsweredChains.{IsOwn};

use activations::nest::Nest;
use activations::setting::Setting;
use layers::layer::Layer;
use layers::tally::Tally;
use own_statements::leaf::Leaf;
use own_statements::leaves::{Leaves, record_each};
use positions::work::{Loop, Share};
use small_steps::machine::Machine;
use std::alloc::AllocError;
use std::mem;
use view_pool::View;

/// So many of the first iterations of a share of a loop's.
#[derive(Clone, Copy)]
pub(crate) struct Stretch {
    pub(crate) site: Loop,
    pub(crate) share: Share,
    pub(crate) most: u32,
}

/// Records iterations that no records answer, from that one on and one after another, each in that layer, in which nothing was noted yet, as
/// far as they do their statements by themselves, and so many at most; how many were recorded, and whether nothing is noted in the layer
/// again. The loop's instance doesn't learn of them. Where memory is refused when it becomes a record, it is taken and stays above the loop's,
/// of which nothing is claimed but its kinds.
#[inline(never)]
#[tactic(auto, using(crate::proofs::Own::own_there))]
pub(crate) fn record_chain<V: View>(
    machine: &mut Machine<V>,
    setting: Setting<'_>,
    first: Leaf<'_>,
    most: u32,
    own: &mut Option<Layer<V>>,
) -> Result<(u32, bool), AllocError>
    requires body { IsBody setting.program.now.codes first.callee first.body.now }
    requires unknown { AreUnknown (lent setting) (plain_leaf first) most }
    requires blank { own.old ≡ Some (blank true setting.program.now.kinds (length setting.program.now.codes)) }
    requires kinds { machine.old.layer.kinds ≡ setting.program.now.kinds }
    requires monoids { All IsMonoid setting.program.now.kinds }
    ensures leaves { IfOk result (λ done. AreLeaves (lent setting.entry) (plain_leaf first.entry)
        machine.old.layer machine.old.tally done.0 machine.new.layer machine.new.tally) }
    ensures others { OnOk result
        (machine.new ≡ record machine.old { layer = machine.new.layer; tally = machine.new.tally }) }
    ensures some { IfOk result (λ done. done.0 ≤ most) }
    ensures blank { IfOk result (λ done. done.1 ≡ true
        → own.new ≡ Some (blank true setting.entry.program.now.kinds (length setting.entry.program.now.codes))) }
    ensures own { OnOk result (IsOwn setting.entry.program.now.kinds own.new) }
    ensures taken { OnErr result (own.new ≡ None) }
    ensures refused { OnErr result (IsRefusedLeaf machine.old machine.new) }
    ensures kinds { machine.new.layer.kinds ≡ machine.old.layer.kinds }
    ensures values { HaveValues setting.entry.program.now.kinds machine.old.tally.made
        → HaveValues setting.entry.program.now.kinds machine.new.tally.made }
{
    if machine.lower.reserve(1).is_err() {
        return Ok((0, false));
    }
    let recorded = record_own(
        own,
        &mut machine.layer,
        &mut machine.tally,
        setting,
        Leaves { first, most },
        &mut machine.spares.nest,
        &mut machine.numbers,
    );
    match recorded {
        Ok(done) => Ok(done),
        Err(error) => {
            put_above(&mut machine.lower, &mut machine.layer, own);
            Err(error)
        }
    }
}

/// The same over the loop's layer, and in that layer, which is there.
#[inline(always)]
#[tactic(auto, using(crate::proofs::Own::own_there))]
fn record_own<V: View>(
    own: &mut Option<Layer<V>>,
    layer: &mut Layer<V>,
    tally: &mut Tally,
    setting: Setting<'_>,
    leaves: Leaves<'_>,
    nest: &mut Nest,
    numbers: &mut Vec<i64>,
) -> Result<(u32, bool), AllocError>
    requires body { IsBody setting.program.now.codes leaves.first.callee leaves.first.body.now }
    requires unknown { AreUnknown (lent setting) (plain_leaf leaves.first) leaves.most }
    requires blank { own.old ≡ Some (blank true setting.program.now.kinds (length setting.program.now.codes)) }
    requires kinds { layer.old.kinds ≡ setting.program.now.kinds }
    requires monoids { All IsMonoid setting.program.now.kinds }
    ensures leaves { IfOk result (λ done. AreLeaves (lent setting.entry) (plain_leaf leaves.entry.first)
        layer.old tally.old done.0 layer.new tally.new) }
    ensures some { IfOk result (λ done. done.0 ≤ leaves.entry.most) }
    ensures blank { IfOk result (λ done. done.1 ≡ true
        → own.new ≡ Some (blank true setting.entry.program.now.kinds (length setting.entry.program.now.codes))) }
    ensures own { IsOwn setting.entry.program.now.kinds own.new }
    ensures left_open { OnErr result (length tally.new.opened ≡ suc (length tally.old.opened)) }
    ensures kinds { layer.new.kinds ≡ layer.old.kinds }
    ensures values { HaveValues setting.entry.program.now.kinds tally.old.made
        → HaveValues setting.entry.program.now.kinds tally.new.made }
{
    match own {
        Some(own) => record_each(own, layer, tally, setting, leaves, nest, numbers),
        None => Ok((0, false)),
    }
}

/// Takes that layer, which is there, and puts it above the loop's, for which there is room.
#[inline(always)]
fn put_above<V: View>(lower: &mut Vec<Layer<V>>, layer: &mut Layer<V>, own: &mut Option<Layer<V>>)
    requires room { vec_len lower.old < vec_capacity lower.old }
    requires own { IsOwn layer.old.kinds own.old }
    ensures put { lower.new.items ≡ lower.old.items ++ layer.old ∷ [] }
    ensures kinds { layer.new.kinds ≡ layer.old.kinds }
    ensures taken { own.new ≡ None }
{
    match own.take() {
        Some(own) => lower.push_reserved(mem::replace(layer, own)),
        None => {}
    }
}
