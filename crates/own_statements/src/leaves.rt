//! Iterations of a loop over a memo procedure one after another, each of which is recorded at once.
ghost use Rattle.std.specs.Prelude.{◌≡◌, ◌≤◌, true, suc, All, IfOk, IfSome, OnErr, length};
ghost use Rattle.monoid_laws.specs.Kinds.{IsMonoid};
ghost use Rattle.record_theory.specs.Named.{HaveValues};
ghost use Rattle.positions.specs.Layers.{blank};
ghost use Rattle.activations.specs.Given.{lent};
ghost use Rattle.own_statements.specs.Leaves.{AreLeaves, AreUnknown, leaf_behind, plain_leaf};
ghost use Rattle.own_statements.specs.Runs.{IsBody};

use crate::leaf::{Leaf, record_in};
use activations::nest::Nest;
use activations::setting::Setting;
use layers::layer::Layer;
use layers::tally::Tally;
use std::alloc::AllocError;
use view_pool::View;

/// So many iterations of a loop, from that one on.
#[derive(Clone, Copy)]
pub struct Leaves<'a> {
    pub first: Leaf<'a>,
    pub most: u32,
}

/// Records iterations that no records answer, one after another, in that layer, in which nothing was noted yet, as far as they do their
/// statements by themselves, and so many at most; how many were recorded, and whether nothing is noted in the layer again. Where memory is
/// refused when it becomes a record, the loop's layer has other values.
#[inline(always)]
pub fn record_each<V: View>(
    own: &mut Layer<V>,
    layer: &mut Layer<V>,
    tally: &mut Tally,
    setting: Setting<'_>,
    leaves: Leaves<'_>,
    nest: &mut Nest,
    numbers: &mut Vec<i64>,
) -> Result<(u32, bool), AllocError>
    requires body { IsBody setting.program.now.codes leaves.first.callee leaves.first.body.now }
    requires unknown { AreUnknown (lent setting) (plain_leaf leaves.first) leaves.most }
    requires blank { own.old ≡ blank true setting.program.now.kinds (length setting.program.now.codes) }
    requires kinds { layer.old.kinds ≡ setting.program.now.kinds }
    requires monoids { All IsMonoid setting.program.now.kinds }
    ensures leaves { IfOk result (λ done. AreLeaves (lent setting.entry) (plain_leaf leaves.entry.first)
        layer.old tally.old done.0 layer.new tally.new) }
    ensures some { IfOk result (λ done. done.0 ≤ leaves.entry.most) }
    ensures blank { IfOk result (λ done. done.1 ≡ true
        → own.new ≡ blank true setting.entry.program.now.kinds (length setting.entry.program.now.codes)) }
    ensures left_open { OnErr result (length tally.new.opened ≡ suc (length tally.old.opened)) }
    ensures kinds { layer.new.kinds ≡ layer.old.kinds }
    ensures own_kinds { own.new.kinds ≡ setting.entry.program.now.kinds }
    ensures values { HaveValues setting.entry.program.now.kinds tally.old.made
        → HaveValues setting.entry.program.now.kinds tally.new.made }
{
    let Leaves { first, most } = leaves;
    let count = setting.program.codes().len();
    for done in 0..most {
        match behind(first, done) {
            Some(leaf) => match record_in(own, layer, tally, setting, leaf, nest, numbers) {
                Ok(true) => {
                    if own.renew(true, count).is_err() {
                        return Ok((done + 1, false));
                    }
                }
                Ok(false) => return Ok((done, false)),
                Err(error) => return Err(error),
            },
            None => return Ok((done, true)),
        }
    }
    Ok((most, true))
}

/// The iteration that lies so far behind that one, where its number fits.
#[inline(always)]
fn behind<'a>(first: Leaf<'a>, done: u32) -> Option<Leaf<'a>>
    ensures leaf { IfSome result (λ leaf. plain_leaf leaf ≡ leaf_behind done (plain_leaf first.entry)) }
    ensures body { IfSome result (λ leaf. leaf.body.now ≡ first.entry.body.now) }
{
    match first.number.checked_add(i64::from(done)) {
        Some(number) => Some(Leaf {
            callee: first.callee,
            size: first.size,
            left: first.left,
            number,
            body: first.body,
        }),
        None => None,
    }
}
