//! Runs and calls of instances over those that a strand keeps for the ones that they call.
ghost use Rattle.std.specs.Prelude.{◌≡◌, ◌-◌, true, length};
ghost use Rattle.meaning.specs.Elision.{depth_limit};
ghost use Rattle.positions.specs.Activations.{made, first_of};
ghost use Rattle.positions.specs.Layers.{entering};
ghost use Rattle.activations.specs.Given.{lent};
ghost use Rattle.own_statements.specs.Runs.{EndsBy, IsBody};

use activations::activation::Activation;
use activations::nest::Nest;
use activations::setting::Setting;
use layers::layer::Layer;
use own_statements::ran::Ended;
use own_statements::runs::{Callee, call, run};
use positions::work::Work;
use view_pool::View;

/// Does the statements that the instance has left, as `run` does.
#[inline(always)]
pub(crate) fn run_over<V: View>(
    layer: &mut Layer<V>,
    setting: Setting<'_>,
    passes_syncs: bool,
    top: &mut Activation,
    above: &mut Vec<Activation>,
    numbers: &mut Vec<i64>,
) -> Ended
    requires kinds { layer.old.kinds ≡ setting.program.now.kinds }
    ensures ahead { EndsBy (lent setting.entry) passes_syncs top.old layer.old result top.new above.new.items layer.new }
    ensures long { length above.new.items ≡ length above.old.items }
    ensures kinds { layer.new.kinds ≡ layer.old.kinds }
{
    run(layer, setting, passes_syncs, top, above, numbers)
}

/// Enters an instance with the slots that it has, and does its statements, as `call` does.
#[inline(always)]
pub(crate) fn call_over<V: View>(
    layer: &mut Layer<V>,
    setting: Setting<'_>,
    callee: Callee<'_>,
    nest: &mut Nest,
    numbers: &mut Vec<i64>,
) -> Ended
    requires body { IsBody setting.program.now.codes callee.procedure callee.body.now }
    requires kinds { layer.old.kinds ≡ setting.program.now.kinds }
    ensures ahead { EndsBy (lent setting.entry) true
        (made callee.entry.procedure nest.old.child.slots (Work.Block (first_of 0)) callee.entry.left)
        (entering callee.entry.procedure (depth_limit - callee.entry.left) layer.old) result
        nest.new.child nest.new.above.items layer.new }
    ensures long { length nest.new.above.items ≡ length nest.old.above.items }
    ensures kinds { layer.new.kinds ≡ layer.old.kinds }
{
    call(
        layer,
        setting,
        callee,
        &mut nest.child,
        &mut nest.above,
        numbers,
    )
}
