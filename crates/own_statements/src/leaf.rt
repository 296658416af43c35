//! One iteration of a loop over a memo procedure, done in a layer of its own that becomes a record at once.
ghost use Rattle.std.specs.Prelude.{◌≡◌, ◌∷◌, ◌-◌, [], true, false, Some, None, All, IfErr, IfOk, IfSome, OnErr, length};
ghost use Rattle.monoid_laws.specs.Kinds.{IsMonoid, identities};
ghost use Rattle.meaning.specs.Elision.{depth_limit};
ghost use Rattle.record_theory.specs.Named.{HaveValues};
ghost use Rattle.evaluation.specs.Slots.{slots_for};
ghost use Rattle.positions.specs.declared.work.Work.TheVariants.{Block};
ghost use Rattle.positions.specs.Activations.{made, first_of};
ghost use Rattle.positions.specs.Layers.{blank, covered, entering};
ghost use Rattle.positions.specs.Tallies.{opening, closing};
ghost use Rattle.positions.specs.Advance.{record_for};
ghost use Rattle.activations.specs.Given.{lent};
ghost use Rattle.own_statements.specs.Paths.{ComesTo};
ghost use Rattle.own_statements.specs.Runs.{IsBody};
ghost use Rattle.own_statements.specs.Leaves.{IsLeaf, opened_by, plain_leaf};

use crate::ran::Ended;
use crate::runs::{Callee, call};
use activations::nest::Nest;
use activations::setting::Setting;
use layers::layer::Layer;
use layers::recording::Opened;
use layers::spares::SpareLists;
use layers::tally::Tally;
use linked_program::checked::Checked;
use linked_program::code::Instruction;
use std::alloc::{AllocError, Global};
use view_pool::{Kit, View};

/// An iteration of a loop whose only argument is its number: as an instance of that procedure, which has so many slots and so many levels
/// below it, and does these statements.
#[derive(Clone, Copy)]
pub struct Leaf<'a> {
    pub callee: usize,
    pub size: usize,
    pub left: u32,
    pub number: i64,
    pub body: &'a [Instruction],
}

/// The statements of an iteration over its own layer; the value that it gives back, if it does them all by itself.
#[inline(always)]
fn value_of<V: View>(
    own: &mut Layer<V>,
    setting: Setting<'_>,
    leaf: Leaf<'_>,
    nest: &mut Nest,
    numbers: &mut Vec<i64>,
) -> Option<i64>
    requires body { IsBody setting.program.now.codes leaf.callee leaf.body.now }
    requires kinds { own.old.kinds ≡ setting.program.now.kinds }
    ensures came { IfSome result (λ v. ComesTo (lent setting.entry) true
        (made leaf.entry.callee (slots_for leaf.entry.size (leaf.entry.number ∷ [])) (Block (first_of 0)) leaf.entry.left)
        (entering leaf.entry.callee (depth_limit - leaf.entry.left) own.old) (Some v) nest.new.child own.new) }
    ensures kinds { own.new.kinds ≡ own.old.kinds }
{
    if !nest.child.put_number(leaf.size, leaf.number) {
        return None;
    }
    let callee = Callee {
        procedure: leaf.callee,
        body: leaf.body,
        left: leaf.left,
    };
    match call(
        own,
        setting,
        callee,
        &mut nest.child,
        &mut nest.above,
        numbers,
    ) {
        Ended::Gave(value) => Some(value),
        Ended::Stopped(_) => None,
    }
}

/// An iteration is over with that value: its layer becomes a record and goes onto the loop's. Whether that was done; where it wasn't,
/// nothing has changed. Where memory is refused meanwhile, the loop's layer has other values.
#[inline(always)]
fn close<V: View>(
    own: &mut Layer<V>,
    layer: &mut Layer<V>,
    tally: &mut Tally,
    alloc: Global,
    program: &Checked,
    leaf: Leaf<'_>,
    value: i64,
) -> Result<bool, AllocError>
    requires kinds { own.old.kinds ≡ program.now.kinds }
    requires same_kinds { layer.old.kinds ≡ own.old.kinds }
    requires monoids { All IsMonoid layer.old.kinds }
    ensures closed { IfOk result (λ done. done ≡ true → tally.new
        ≡ closing program.now.revisions own.old value (opening (opened_by (plain_leaf leaf.entry)) tally.old)) }
    ensures covered { IfOk result (λ done. done ≡ true → layer.new ≡ covered layer.old own.old) }
    ensures same_tally { IfOk result (λ done. done ≡ false → tally.new ≡ tally.old) }
    ensures same_layer { IfOk result (λ done. done ≡ false → layer.new ≡ layer.old) }
    ensures opened { OnErr result (tally.new ≡ opening (opened_by (plain_leaf leaf.entry)) tally.old) }
    ensures kinds { layer.new.kinds ≡ layer.old.kinds }
    ensures emptied { IfOk result (λ done. done ≡ true → own.new.worths ≡ identities own.new.kinds) }
    ensures own_kinds { own.new.kinds ≡ own.old.kinds }
    ensures values { HaveValues own.old.kinds tally.old.made → HaveValues own.old.kinds tally.new.made }
{
    // (nobody asks for the length of its name: its layer is closed at once)
    let Ok(opened) = Opened::new(alloc, leaf.callee, &[leaf.number], leaf.left, 0) else {
        return Ok(false);
    };
    tally.record(alloc, opened, own, layer, value, program)
}

/// An iteration that no record answers, in that layer, in which nothing was noted yet. Whether it was done, and then its layer is at the
/// identities again; where it wasn't, nothing has changed but that layer. Where memory is refused when it becomes a record, the loop's layer
/// has other values.
#[inline(always)]
pub(crate) fn record_in<V: View>(
    own: &mut Layer<V>,
    layer: &mut Layer<V>,
    tally: &mut Tally,
    setting: Setting<'_>,
    leaf: Leaf<'_>,
    nest: &mut Nest,
    numbers: &mut Vec<i64>,
) -> Result<bool, AllocError>
    requires body { IsBody setting.program.now.codes leaf.callee leaf.body.now }
    requires unknown { record_for (lent setting) (depth_limit - leaf.left) leaf.callee (leaf.number ∷ []) ≡ None }
    requires blank { own.old ≡ blank true setting.program.now.kinds (length setting.program.now.codes) }
    requires kinds { layer.old.kinds ≡ setting.program.now.kinds }
    requires monoids { All IsMonoid setting.program.now.kinds }
    ensures leaf { IfOk result (λ done. done ≡ true → IsLeaf (lent setting.entry) (plain_leaf leaf.entry)
        layer.old tally.old layer.new tally.new) }
    ensures emptied { IfOk result (λ done. done ≡ true → own.new.worths ≡ identities own.new.kinds) }
    ensures same_layer { IfOk result (λ done. done ≡ false → layer.new ≡ layer.old) }
    ensures same_tally { IfOk result (λ done. done ≡ false → tally.new ≡ tally.old) }
    ensures opened { OnErr result (tally.new ≡ opening (opened_by (plain_leaf leaf.entry)) tally.old) }
    ensures kinds { layer.new.kinds ≡ layer.old.kinds }
    ensures own_kinds { own.new.kinds ≡ setting.entry.program.now.kinds }
    ensures values { HaveValues setting.entry.program.now.kinds tally.old.made
        → HaveValues setting.entry.program.now.kinds tally.new.made }
{
    let alloc = *numbers.allocator();
    let Some(value) = value_of(own, setting, leaf, nest, numbers) else {
        return Ok(false);
    };
    match close(own, layer, tally, alloc, setting.program, leaf, value) {
        Ok(done) => Ok(done),
        Err(error) => Err(error),
    }
}

/// A layer of that kit in spare lists, in which nothing was noted yet. Where memory is refused, the kit is handed back.
#[inline(always)]
pub fn own_layer<V: View>(
    lists: &mut SpareLists,
    alloc: Global,
    program: &Checked,
    kit: Kit<V>,
) -> Result<Layer<V>, Kit<V>>
    requires kit { kit ≡ program.now.kinds }
    ensures blank { IfOk result (λ own. own ≡ blank true program.now.kinds (length program.now.codes)) }
    ensures handed_back { IfErr result (λ k. k ≡ program.now.kinds) }
{
    let count = program.codes().len();
    match lists.take(alloc, count) {
        Ok((notes, flags, used)) => Ok(Layer::in_lists(
            alloc, kit, true, count, notes, flags, used,
        )),
        Err(_) => Err(kit),
    }
}
