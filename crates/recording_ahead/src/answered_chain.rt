//! Iterations one after another in a run that has records: those that records answer are taken over, and each other one is recorded at once.
ghost use Rattle.std.specs.Prelude.{◌≡◌, ◌∷◌, ◌-◌, ◌≤◌, ◌<◌, ◌==◌, [], true, false, None, Some, length, map};
ghost use Rattle.std.specs.Prelude.{All, IfErr, IfNone, IfOk, IfSome, OnErr, OnOk, OnSome};
ghost use Rattle.monoid_laws.specs.Kinds.{AreWorths, IsMonoid};
ghost use Rattle.meaning.specs.Elision.{depth_limit};
ghost use Rattle.linked_program.specs.CodeView.{expression as plain, memo_of};
ghost use Rattle.record_theory.specs.Named.{AreValuesFrom, HaveValues};
ghost use Rattle.rerun_records.specs.Sums.{IsBatchFor};
ghost use Rattle.positions.specs.Activations.{ShareFits};
ghost use Rattle.positions.specs.Advance.{record_for};
ghost use Rattle.positions.specs.Code.{loop_at};
ghost use Rattle.positions.specs.Layers.{absorbing, blank};
ghost use Rattle.activations.specs.Given.{lent, loop_of};
ghost use Rattle.answered_loops.specs.Answered.{answered_more};
ghost use Rattle.own_statements.specs.Fills.{IsCounted};
ghost use Rattle.own_statements.specs.Runs.{IsBody};
ghost use Rattle.recording_ahead.specs.AnsweredChains.{ArePassed, AreTaken, IsOwn, IsRefusedBy, IsRefusedTurn};
ghost use Rattle.own_statements.specs.Leaves.{plain_leaf};
ghost use Rattle.running_ahead.specs.Leaves.{AreRecorded, IsRefusedLeaf, arguments_then, gathered_of};

use crate::answered_row::{Passed, take_behind};
use crate::leaf_chain::{Stretch, record_chain};
use activations::code::{LoopCode, instructions};
use activations::setting::Setting;
use activations::shares::{behind, number_of};
use layers::layer::{DEEPEST, Layer};
use own_statements::leaf::{Leaf, own_layer};
use rerun_records::batch::Batch;
use rerun_records::series::Series;
use small_steps::machine::Machine;
use std::alloc::{AllocError, Global};
use view_pool::{Kit, View};

/// So many iterations at most, and the place near which the record of the first one may lie.
#[derive(Clone, Copy)]
struct Ahead {
    most: u32,
    near: usize,
}

/// Goes through a stretch of iterations one after another: those that records answer are taken over, and each other one is recorded in a
/// layer of that kit, as far as they do their statements by themselves. How many are over, and the kit. The loop's instance doesn't learn
/// of them. Where memory is refused, the kit is given back, or the layer that was to become a record stays above the loop's: nothing is
/// claimed of these layers but their kinds.
#[inline(always)]
pub(crate) fn chain_through<V: View>(
    machine: &mut Machine<V>,
    alloc: Global,
    setting: Setting<'_>,
    code: LoopCode<'_>,
    stretch: Stretch,
    kit: Kit<V>,
) -> Result<(u32, Kit<V>), Option<Kit<V>>>
    requires fits { ShareFits stretch.site stretch.share }
    requires some { stretch.most ≤ stretch.share.count }
    requires found { loop_of code ≡ loop_at setting.program.now.codes machine.old.top.procedure stretch.site }
    requires memo { memo_of setting.program.now.codes code.callee ≡ true }
    requires deep { (machine.old.top.left == 0) ≡ false }
    requires counted { IsCounted machine.old.top.slots code.variable (map plain code.arguments.now) }
    requires kit { kit ≡ setting.program.now.kinds }
    requires kinds { machine.old.layer.kinds ≡ setting.program.now.kinds }
    requires monoids { All IsMonoid setting.program.now.kinds }
    requires answers { HaveValues setting.program.now.kinds setting.records.now }
    ensures records { IfOk result (λ done. AreRecorded (lent setting.entry) stretch.site
        machine.old.top.procedure machine.old.top.slots machine.old.top.left stretch.share.first
        (gathered_of machine.old machine.old.arguments) done.0
        (gathered_of machine.new (arguments_then done.0 stretch.site stretch.share machine.old.arguments))) }
    ensures others { OnOk result
        (machine.new ≡ record machine.old { layer = machine.new.layer; tally = machine.new.tally }) }
    ensures opened { OnOk result (machine.new.tally.opened ≡ machine.old.tally.opened) }
    ensures some { IfOk result (λ done. done.0 ≤ stretch.most) }
    ensures kit { IfOk result (λ done. done.1 ≡ setting.entry.program.now.kinds) }
    ensures kit_back { IfErr result (λ e. IfSome e (λ k. k ≡ setting.entry.program.now.kinds)) }
    ensures turn { IfErr result (λ e. OnSome e (IsRefusedTurn machine.old machine.new)) }
    ensures leaf { IfErr result (λ e. IfNone e (IsRefusedLeaf machine.old machine.new)) }
    ensures kinds { machine.new.layer.kinds ≡ machine.old.layer.kinds }
    ensures values { HaveValues setting.entry.program.now.kinds machine.old.tally.made
        → HaveValues setting.entry.program.now.kinds machine.new.tally.made }
{
    // One layer serves for all that are recorded: to make one anew takes a third as long as a record.
    let mut own = match open_own(machine, alloc, setting, kit) {
        Ok(own) => Some(own),
        Err(kit) => return Ok((0, kit)),
    };
    let came = chain_in(machine, alloc, setting, code, stretch, &mut own);
    match came {
        Ok(done) => match own {
            Some(own) => {
                let kit = close_own(machine, own);
                Ok((done, kit))
            }
            None => Err(None),
        },
        Err(_) => match own {
            Some(own) => {
                let back = close_own(machine, own);
                Err(Some(back))
            }
            None => Err(None),
        },
    }
}

/// A layer of that kit for records, in which nothing was noted yet. Where memory is refused, the kit is handed back.
#[inline(always)]
fn open_own<V: View>(
    machine: &mut Machine<V>,
    alloc: Global,
    setting: Setting<'_>,
    kit: Kit<V>,
) -> Result<Layer<V>, Kit<V>>
    requires kit { kit ≡ setting.program.now.kinds }
    ensures same { machine.new ≡ machine.old }
    ensures blank { IfOk result (λ own. own
        ≡ blank true setting.entry.program.now.kinds (length setting.entry.program.now.codes)) }
    ensures kit_back { IfErr result (λ k. k ≡ setting.entry.program.now.kinds) }
{
    own_layer(&mut machine.lists, alloc, setting.program, kit)
}

/// The kit of that layer, whose lists the strand keeps.
#[inline(always)]
fn close_own<V: View>(machine: &mut Machine<V>, own: Layer<V>) -> Kit<V>
    ensures same { machine.new ≡ machine.old }
    ensures kit { result ≡ own.kinds }
{
    own.close_in(&mut machine.lists)
}

/// The same over such a layer, which is taken where it was to become a record.
#[inline(always)]
fn chain_in<V: View>(
    machine: &mut Machine<V>,
    alloc: Global,
    setting: Setting<'_>,
    code: LoopCode<'_>,
    stretch: Stretch,
    own: &mut Option<Layer<V>>,
) -> Result<u32, AllocError>
    requires fits { ShareFits stretch.site stretch.share }
    requires some { stretch.most ≤ stretch.share.count }
    requires found { loop_of code ≡ loop_at setting.program.now.codes machine.old.top.procedure stretch.site }
    requires memo { memo_of setting.program.now.codes code.callee ≡ true }
    requires deep { (machine.old.top.left == 0) ≡ false }
    requires counted { IsCounted machine.old.top.slots code.variable (map plain code.arguments.now) }
    requires blank { own.old ≡ Some (blank true setting.program.now.kinds (length setting.program.now.codes)) }
    requires kinds { machine.old.layer.kinds ≡ setting.program.now.kinds }
    requires monoids { All IsMonoid setting.program.now.kinds }
    requires answers { HaveValues setting.program.now.kinds setting.records.now }
    ensures records { IfOk result (λ done. AreRecorded (lent setting.entry) stretch.site
        machine.old.top.procedure machine.old.top.slots machine.old.top.left stretch.share.first
        (gathered_of machine.old machine.old.arguments) done
        (gathered_of machine.new (arguments_then done stretch.site stretch.share machine.old.arguments))) }
    ensures others { OnOk result
        (machine.new ≡ record machine.old { layer = machine.new.layer; tally = machine.new.tally }) }
    ensures opened { OnOk result (machine.new.tally.opened ≡ machine.old.tally.opened) }
    ensures some { IfOk result (λ done. done ≤ stretch.most) }
    ensures own { OnOk result (IsOwn setting.entry.program.now.kinds own.new) }
    ensures kept { OnErr result (IfSome own.new (λ o. o.kinds ≡ setting.entry.program.now.kinds)) }
    ensures refused { OnErr result (IsRefusedBy own.new machine.old machine.new) }
    ensures kinds { machine.new.layer.kinds ≡ machine.old.layer.kinds }
    ensures values { HaveValues setting.entry.program.now.kinds machine.old.tally.made
        → HaveValues setting.entry.program.now.kinds machine.new.tally.made }
{
    if !setting.records.is_empty() {
        return answered_chain(machine, alloc, setting, code, stretch, own);
    }
    // A first run's loop has no more in it than it needs.
    let callee = code.callee;
    let size = setting.program.slots(callee);
    let left = machine.top.left() - 1;
    let body = instructions(setting.program, callee, 0, 0);
    let first = Leaf {
        callee,
        size,
        left,
        number: number_of(stretch.site, stretch.share),
        body,
    };
    match record_chain(machine, setting, first, stretch.most, own) {
        Ok((count, _)) => Ok(count),
        Err(error) => Err(error),
    }
}

/// The same where there are records.
#[inline(never)]
#[tactic(auto, using(crate::proofs::Own::own_there))]
fn answered_chain<V: View>(
    machine: &mut Machine<V>,
    alloc: Global,
    setting: Setting<'_>,
    code: LoopCode<'_>,
    stretch: Stretch,
    own: &mut Option<Layer<V>>,
) -> Result<u32, AllocError>
    requires fits { ShareFits stretch.site stretch.share }
    requires some { stretch.most ≤ stretch.share.count }
    requires found { loop_of code ≡ loop_at setting.program.now.codes machine.old.top.procedure stretch.site }
    requires memo { memo_of setting.program.now.codes code.callee ≡ true }
    requires deep { (machine.old.top.left == 0) ≡ false }
    requires counted { IsCounted machine.old.top.slots code.variable (map plain code.arguments.now) }
    requires blank { own.old ≡ Some (blank true setting.program.now.kinds (length setting.program.now.codes)) }
    requires kinds { machine.old.layer.kinds ≡ setting.program.now.kinds }
    requires monoids { All IsMonoid setting.program.now.kinds }
    requires answers { HaveValues setting.program.now.kinds setting.records.now }
    ensures records { IfOk result (λ done. AreRecorded (lent setting.entry) stretch.site
        machine.old.top.procedure machine.old.top.slots machine.old.top.left stretch.share.first
        (gathered_of machine.old machine.old.arguments) done
        (gathered_of machine.new (arguments_then done stretch.site stretch.share machine.old.arguments))) }
    ensures others { OnOk result
        (machine.new ≡ record machine.old { layer = machine.new.layer; tally = machine.new.tally }) }
    ensures opened { OnOk result (machine.new.tally.opened ≡ machine.old.tally.opened) }
    ensures some { IfOk result (λ done. done ≤ stretch.most) }
    ensures own { OnOk result (IsOwn setting.entry.program.now.kinds own.new) }
    ensures kept { OnErr result (IfSome own.new (λ o. o.kinds ≡ setting.entry.program.now.kinds)) }
    ensures refused { OnErr result (IsRefusedBy own.new machine.old machine.new) }
    ensures kinds { machine.new.layer.kinds ≡ machine.old.layer.kinds }
    ensures values { HaveValues setting.entry.program.now.kinds machine.old.tally.made
        → HaveValues setting.entry.program.now.kinds machine.new.tally.made }
{
    let callee = code.callee;
    let size = setting.program.slots(callee);
    let left = machine.top.left() - 1;
    let body = instructions(setting.program, callee, 0, 0);
    let mut done = 0;
    let mut near = stretch.share.first as usize;
    for _ in 0..stretch.most {
        if done == stretch.most {
            return Ok(done);
        }
        let leaf = Leaf {
            callee,
            size,
            left,
            number: number_of(stretch.site, behind(stretch.site, stretch.share, done)),
            body,
        };
        let ahead = Ahead {
            most: stretch.most - done,
            near,
        };
        match go_on(machine, alloc, setting, leaf, ahead, own) {
            Ok((passed, is_blank)) => {
                done += passed.count;
                if stops(passed.count, is_blank) {
                    return Ok(done);
                }
                near = passed.near;
            }
            Err(error) => return Err(error),
        }
    }
    Ok(done)
}

/// Whether it doesn't go on behind so many iterations that are over: there are none, or something is noted in the layer.
#[inline(always)]
fn stops(count: u32, is_blank: bool) -> bool
    ensures blank { result ≡ false → is_blank ≡ true }
{
    count == 0 || !is_blank
}

/// The iterations from that one on that records answer together, or that one alone, which is recorded. How many are over, and whether
/// nothing is noted in the layer again that is for records; where none is over, nothing else has changed.
#[inline(always)]
#[tactic(auto, using(crate::proofs::Own::own_there, crate::proofs::Own::own_kept))]
fn go_on<V: View>(
    machine: &mut Machine<V>,
    alloc: Global,
    setting: Setting<'_>,
    leaf: Leaf<'_>,
    ahead: Ahead,
    own: &mut Option<Layer<V>>,
) -> Result<(Passed, bool), AllocError>
    requires body { IsBody setting.program.now.codes leaf.callee leaf.body.now }
    requires some { 0 < ahead.most }
    requires blank { own.old ≡ Some (blank true setting.program.now.kinds (length setting.program.now.codes)) }
    requires kinds { machine.old.layer.kinds ≡ setting.program.now.kinds }
    requires monoids { All IsMonoid setting.program.now.kinds }
    requires answers { HaveValues setting.program.now.kinds setting.records.now }
    ensures passed { IfOk result (λ p. ArePassed (lent setting.entry) (plain_leaf leaf.entry) p.0.count
        machine.old.layer machine.old.tally machine.new.layer machine.new.tally) }
    ensures few { IfOk result (λ p. p.0.count ≤ ahead.most) }
    ensures others { OnOk result
        (machine.new ≡ record machine.old { layer = machine.new.layer; tally = machine.new.tally }) }
    ensures blank { IfOk result (λ p. p.1 ≡ true
        → own.new ≡ Some (blank true setting.entry.program.now.kinds (length setting.entry.program.now.codes))) }
    ensures own { OnOk result (IsOwn setting.entry.program.now.kinds own.new) }
    ensures kept { OnErr result (IfSome own.new (λ o. o.kinds ≡ setting.entry.program.now.kinds)) }
    ensures refused { OnErr result (IsRefusedBy own.new machine.old machine.new) }
    ensures kinds { machine.new.layer.kinds ≡ machine.old.layer.kinds }
    ensures values { HaveValues setting.entry.program.now.kinds machine.old.tally.made
        → HaveValues setting.entry.program.now.kinds machine.new.tally.made }
{
    let keeps = keeps_reads(machine);
    match answers_from(setting, leaf, ahead, keeps) {
        Some(batch) => match take_on(machine, alloc, setting, leaf, ahead, batch) {
            Ok(passed) => Ok((passed, true)),
            Err(error) => Err(error),
        },
        None => record_next(machine, setting, leaf, ahead, own),
    }
}

/// Whether the loop's layer keeps what is read.
#[inline(always)]
fn keeps_reads<V: View>(machine: &Machine<V>) -> bool
    ensures keeps { result ≡ machine.now.layer.keeps }
{
    machine.layer.keeps
}

/// The records that answer iterations from that one on, at most so many, as many as go together, with what they have read where that is
/// kept; none where none answers that one.
#[inline(always)]
#[tactic(auto, using(crate::proofs::AnsweredChains::unknown_from))]
fn answers_from<'a>(
    setting: Setting<'a>,
    leaf: Leaf<'_>,
    ahead: Ahead,
    keeps: bool,
) -> Option<Batch<'a>>
    requires some { 0 < ahead.most }
    requires answers { HaveValues setting.program.now.kinds setting.records.now }
    ensures deep { OnSome result (0 < depth_limit - leaf.entry.left) }
    ensures batch { IfSome result (λ b. IsBatchFor keeps setting.entry.program.now setting.entry.tables.now.tables
        (depth_limit - leaf.entry.left) setting.entry.records.now leaf.entry.callee (leaf.entry.number ∷ []) 0
        ahead.most b.count b.sum.now) }
    ensures unknown { IfNone result
        (record_for (lent setting.entry) (depth_limit - leaf.entry.left) leaf.entry.callee (leaf.entry.number ∷ []) ≡ None) }
{
    let depth = DEEPEST.saturating_sub(leaf.left);
    if depth == 0 {
        return None;
    }
    let series = Series {
        counted: 0,
        most: ahead.most,
        depth,
        near: ahead.near,
        keeps,
    };
    setting.records.batch(
        leaf.callee,
        &[leaf.number],
        series,
        setting.tables,
        setting.program,
    )
}

/// What a batch has that answers iterations from that one on goes onto the loop's layer; behind one iteration so do those behind it that
/// records answer one by one. How many are over. Where memory is refused, nothing is claimed of that layer but its kinds.
#[inline(always)]
fn take_on<V: View>(
    machine: &mut Machine<V>,
    alloc: Global,
    setting: Setting<'_>,
    leaf: Leaf<'_>,
    ahead: Ahead,
    batch: Batch<'_>,
) -> Result<Passed, AllocError>
    requires deep { 0 < depth_limit - leaf.left }
    requires batch { IsBatchFor machine.old.layer.keeps setting.program.now setting.tables.now.tables
        (depth_limit - leaf.left) setting.records.now leaf.callee (leaf.number ∷ []) 0 ahead.most batch.count batch.sum.now }
    requires kinds { machine.old.layer.kinds ≡ setting.program.now.kinds }
    requires monoids { All IsMonoid setting.program.now.kinds }
    requires answers { HaveValues setting.program.now.kinds setting.records.now }
    ensures taken { IfOk result (λ p. AreTaken (lent setting.entry) (plain_leaf leaf.entry) p.count
        machine.old.layer machine.old.tally machine.new.layer machine.new.tally) }
    ensures few { IfOk result (λ p. p.count ≤ ahead.most) }
    ensures others { machine.new ≡ record machine.old { layer = machine.new.layer; tally = machine.new.tally } }
    ensures opened { machine.new.tally.opened ≡ machine.old.tally.opened }
    ensures kinds { machine.new.layer.kinds ≡ machine.old.layer.kinds }
    ensures made { machine.new.tally.made ≡ machine.old.tally.made }
{
    let first = Passed {
        count: batch.count,
        near: batch.next,
    };
    match take_batch(machine, alloc, setting, leaf, batch) {
        Ok(()) => take_behind(machine, alloc, setting, leaf, ahead.most, first),
        Err(error) => Err(error),
    }
}

/// What a batch has that answers iterations from that one on goes onto the loop's layer. Where memory is refused, that has other values, and
/// nothing else has changed.
#[inline(always)]
fn take_batch<V: View>(
    machine: &mut Machine<V>,
    alloc: Global,
    _setting: Setting<'_>,
    leaf: Leaf<'_>,
    batch: Batch<'_>,
) -> Result<(), AllocError>
    requires kinds { machine.old.layer.kinds ≡ _setting.program.now.kinds }
    requires monoids { All IsMonoid _setting.program.now.kinds }
    requires values { AreValuesFrom 0 _setting.program.now.kinds batch.sum.now.contribution }
    ensures worths { AreWorths machine.old.layer.kinds machine.old.layer.worths }
    ensures layer { OnOk result (machine.new.layer ≡ absorbing batch.entry.sum.now (depth_limit - leaf.entry.left) machine.old.layer) }
    ensures tally { OnOk result (machine.new.tally ≡ answered_more batch.entry.count machine.old.tally) }
    ensures others { machine.new ≡ record machine.old { layer = machine.new.layer; tally = machine.new.tally } }
    ensures same { OnErr result (machine.new.tally ≡ machine.old.tally) }
    ensures kinds { machine.new.layer.kinds ≡ machine.old.layer.kinds }
    ensures made { machine.new.tally.made ≡ machine.old.tally.made }
{
    machine.layer.of_kinds();
    let depth = DEEPEST.saturating_sub(leaf.left);
    match machine
        .tally
        .reuse_for(alloc, &mut machine.layer, batch.sum, batch.count, depth)
    {
        Ok(()) => Ok(()),
        Err(error) => Err(error),
    }
}

/// An iteration that no record answers: it is recorded. Whether it is over, as the count says; where it isn't, nothing has changed.
#[inline(always)]
fn record_next<V: View>(
    machine: &mut Machine<V>,
    setting: Setting<'_>,
    leaf: Leaf<'_>,
    ahead: Ahead,
    own: &mut Option<Layer<V>>,
) -> Result<(Passed, bool), AllocError>
    requires body { IsBody setting.program.now.codes leaf.callee leaf.body.now }
    requires some { 0 < ahead.most }
    requires unknown { record_for (lent setting) (depth_limit - leaf.left) leaf.callee (leaf.number ∷ []) ≡ None }
    requires blank { own.old ≡ Some (blank true setting.program.now.kinds (length setting.program.now.codes)) }
    requires kinds { machine.old.layer.kinds ≡ setting.program.now.kinds }
    requires monoids { All IsMonoid setting.program.now.kinds }
    ensures passed { IfOk result (λ p. ArePassed (lent setting.entry) (plain_leaf leaf.entry) p.0.count
        machine.old.layer machine.old.tally machine.new.layer machine.new.tally) }
    ensures few { IfOk result (λ p. p.0.count ≤ ahead.most) }
    ensures others { OnOk result
        (machine.new ≡ record machine.old { layer = machine.new.layer; tally = machine.new.tally }) }
    ensures blank { IfOk result (λ p. p.1 ≡ true
        → own.new ≡ Some (blank true setting.entry.program.now.kinds (length setting.entry.program.now.codes))) }
    ensures own { OnOk result (IsOwn setting.entry.program.now.kinds own.new) }
    ensures kept { OnErr result (IfSome own.new (λ o. o.kinds ≡ setting.entry.program.now.kinds)) }
    ensures refused { OnErr result (IsRefusedBy own.new machine.old machine.new) }
    ensures kinds { machine.new.layer.kinds ≡ machine.old.layer.kinds }
    ensures values { HaveValues setting.entry.program.now.kinds machine.old.tally.made
        → HaveValues setting.entry.program.now.kinds machine.new.tally.made }
{
    match record_chain(machine, setting, leaf, 1, own) {
        Ok((count, is_blank)) => {
            let passed = Passed {
                count,
                near: ahead.near.wrapping_add(1),
            };
            Ok((passed, is_blank))
        }
        Err(error) => Err(error),
    }
}
