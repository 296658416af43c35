//! What batches that answer a loop's iterations leave of a strand.
ghost use Rattle.std.specs.Prelude.{◌≡◌, ◌+◌, ◌-◌, ◌≤◌, ◌<◌, ◌^◌, length, take, All, OnErr, OnOk, IfOk, IfSome};
ghost use Rattle.monoid_laws.specs.Kinds.{IsMonoid};
ghost use Rattle.record_theory.specs.Sums.{arguments_of_last};
ghost use Rattle.positions.specs.Activations.{ShareFits};
ghost use Rattle.answered_loops.specs.Answered.{absorbed, answered_more, iteration_depth, turned_to, halved_to};
ghost use Rattle.loop_answers.specs.Ahead.{DoneBy, IsSameButAnswers};
ghost use Rattle.loop_answers.specs.Batches.{sums_of, SumsHaveValues, instances_in, with_batches, halves_left, first_left, last_left, turns_left};

use crate::found::Found;
use activations::activation::Activation;
use activations::shares::right_of;
use activations::spares::Spares;
use layers::layer::{DEEPEST, Layer};
use layers::tally::Tally;
use positions::phase::Phase;
use positions::work::{Loop, Share, Work};
use rerun_records::batch::Batch;
use small_steps::machine::Machine;
use std::alloc::{AllocError, Global};
use view_pool::View;

/// Has these batches answer all iterations of a half that is halved again, which leaves; whether there is room for the numbers of
/// its halves.
pub(crate) fn end_halves<V: View>(
    machine: &mut Machine<V>,
    alloc: Global,
    found: &[Batch<'_>],
) -> Result<bool, AllocError>
    requires monoids { All IsMonoid machine.old.layer.kinds }
    requires values { SumsHaveValues machine.old.layer.kinds found.now }
    ensures ended { IfOk result (λ done. DoneBy done (machine.new ≡ halves_left found.now machine.old) (machine.new ≡ machine.old)) }
    ensures refused { OnErr result (IsSameButAnswers machine.old machine.new) }
{
    if machine.top.children().checked_add(2).is_none() {
        return Ok(false);
    }
    take_answers(machine, alloc, found)?;
    call_halves(&mut machine.top, &mut machine.spares, alloc);
    machine.phase = Phase::Leaving(0);
    Ok(true)
}

/// Has these batches answer the first half of a half's iterations: the second one is next. Whether there is room for the number of
/// the first.
pub(crate) fn end_first<V: View>(
    machine: &mut Machine<V>,
    alloc: Global,
    found: &[Batch<'_>],
    site: Loop,
    halvings: u32,
    share: Share,
) -> Result<bool, AllocError>
    requires fits { ShareFits site share }
    requires running { machine.old.phase ≡ Phase.Running }
    requires monoids { All IsMonoid machine.old.layer.kinds }
    requires values { SumsHaveValues machine.old.layer.kinds found.now }
    ensures ended { IfOk result (λ done. DoneBy done (machine.new ≡ first_left site (halvings - 1) share found.now machine.old) (machine.new ≡ machine.old)) }
    ensures refused { OnErr result (IsSameButAnswers machine.old machine.new) }
{
    if machine.top.children().checked_add(1).is_none() {
        return Ok(false);
    }
    take_answers(machine, alloc, found)?;
    let second = Work::Second(site, halvings.saturating_sub(1), right_of(site, share));
    machine.top.wait(true, None, second);
    Ok(true)
}

/// Has these batches answer all iterations of a half that isn't halved again, which leaves; whether there is room for their numbers.
pub(crate) fn end_last<V: View>(
    machine: &mut Machine<V>,
    alloc: Global,
    found: &Found<'_>,
    site: Loop,
    share: Share,
) -> Result<bool, AllocError>
    requires fits { ShareFits site share }
    requires count { found.now.count ≡ instances_in found.now.batches.items }
    requires few { found.now.count ≤ share.count }
    requires monoids { All IsMonoid machine.old.layer.kinds }
    requires values { SumsHaveValues machine.old.layer.kinds found.now.batches.items }
    ensures ended { IfOk result (λ done. DoneBy done (machine.new ≡ last_left site share found.now.batches.items machine.old) (machine.new ≡ machine.old)) }
    ensures refused { OnErr result (IsSameButAnswers machine.old machine.new) }
{
    if machine
        .top
        .children()
        .checked_add(found.count as usize)
        .is_none()
    {
        return Ok(false);
    }
    take_answers(machine, alloc, &found.batches)?;
    call_turns(&mut machine.top, site, share, found.count);
    machine.phase = Phase::Leaving(0);
    Ok(true)
}

/// Has these batches answer the first of the iterations that are left one by one; whether there are such, and room for their
/// numbers.
pub(crate) fn end_turns<V: View>(
    machine: &mut Machine<V>,
    alloc: Global,
    found: &Found<'_>,
    site: Loop,
    share: Share,
) -> Result<bool, AllocError>
    requires fits { ShareFits site share }
    requires count { found.now.count ≡ instances_in found.now.batches.items }
    requires few { found.now.count ≤ share.count }
    requires running { machine.old.phase ≡ Phase.Running }
    requires monoids { All IsMonoid machine.old.layer.kinds }
    requires values { SumsHaveValues machine.old.layer.kinds found.now.batches.items }
    ensures ended { IfOk result (λ done. DoneBy done (machine.new ≡ turns_left site share found.now.batches.items machine.old) (machine.new ≡ machine.old)) }
    ensures refused { OnErr result (IsSameButAnswers machine.old machine.new) }
{
    if found.count == 0 {
        return Ok(false);
    }
    begin_turns(machine, alloc, found, site, share)
}

/// Has these batches answer the first of the iterations that are done one by one, and goes on with the others; whether there is room
/// for their numbers.
pub(crate) fn begin_turns<V: View>(
    machine: &mut Machine<V>,
    alloc: Global,
    found: &Found<'_>,
    site: Loop,
    share: Share,
) -> Result<bool, AllocError>
    requires fits { ShareFits site share }
    requires count { found.now.count ≡ instances_in found.now.batches.items }
    requires few { found.now.count ≤ share.count }
    requires running { machine.old.phase ≡ Phase.Running }
    requires monoids { All IsMonoid machine.old.layer.kinds }
    requires values { SumsHaveValues machine.old.layer.kinds found.now.batches.items }
    ensures ended { IfOk result (λ done. DoneBy done (machine.new ≡ turns_left site share found.now.batches.items machine.old) (machine.new ≡ machine.old)) }
    ensures refused { OnErr result (IsSameButAnswers machine.old machine.new) }
{
    if machine
        .top
        .children()
        .checked_add(found.count as usize)
        .is_none()
    {
        return Ok(false);
    }
    take_answers(machine, alloc, &found.batches)?;
    call_turns(&mut machine.top, site, share, found.count);
    Ok(true)
}

/// Has these batches answer iterations of the topmost instance, a loop's.
fn take_answers<V: View>(
    machine: &mut Machine<V>,
    alloc: Global,
    found: &[Batch<'_>],
) -> Result<(), AllocError>
    requires monoids { All IsMonoid machine.old.layer.kinds }
    requires values { SumsHaveValues machine.old.layer.kinds found.now }
    ensures taken { OnOk result (machine.new ≡ with_batches (iteration_depth machine.old.top) found.now machine.old) }
    ensures refused { OnErr result (IsSameButAnswers machine.old machine.new) }
{
    let depth = DEEPEST.saturating_sub(machine.top.left().saturating_sub(1));
    keep_last(&mut machine.arguments, found)?;
    take_over(alloc, &mut machine.tally, &mut machine.layer, found, depth)
}

/// Has batches answer instances at that depth, one after another: what they have goes behind the layer.
fn take_over<V: View>(
    alloc: Global,
    tally: &mut Tally,
    layer: &mut Layer<V>,
    found: &[Batch<'_>],
    depth: u32,
) -> Result<(), AllocError>
    requires monoids { All IsMonoid layer.old.kinds }
    requires values { SumsHaveValues layer.old.kinds found.now }
    ensures answered { OnOk result (tally.new ≡ answered_more (instances_in found.now) tally.old) }
    ensures absorbed { OnOk result (layer.new ≡ absorbed depth (sums_of found.now) layer.old) }
    ensures counted { tally.new ≡ record tally.old { reused = tally.new.reused } }
    ensures kinds { layer.new.kinds ≡ layer.old.kinds }
{
    for batch in found {
        tally.reuse_for(alloc, layer, batch.sum, batch.count, depth)?;
    }
    Ok(())
}

/// The arguments of the last of these instances, where there is one.
fn keep_last(arguments: &mut Vec<i64>, found: &[Batch<'_>]) -> Result<(), AllocError>
    ensures last { OnOk result (arguments.new.items ≡ arguments_of_last arguments.old.items (sums_of found.now)) }
{
    if let Some(last) = found.last() {
        arguments.clear();
        arguments.extend_from_slice(last.sum.arguments())?;
    }
    Ok(())
}

/// Has a loop's instance call both its halves. The second had its slots, and is over: their list is kept.
fn call_halves(top: &mut Activation, spares: &mut Spares, alloc: Global)
    requires room { top.old.children + 2 < 2 ^ 64 }
    ensures halved { top.new ≡ halved_to top.old }
{
    let slots = top.take_slots(alloc);
    spares.keep(Activation::new(0, slots, Vec::new(alloc), Work::Over, 0));
    top.wait(true, None, Work::Over);
    top.wait(false, None, Work::Over);
}

/// Has a loop's instance call so many more of its iterations, with the others left one by one.
#[tactic(auto, using(crate::proofs::Turned::turned_same))]
fn call_turns(top: &mut Activation, site: Loop, share: Share, count: u32)
    requires room { top.old.children + count < 2 ^ 64 }
    requires fits { ShareFits site share }
    requires few { count ≤ share.count }
    ensures turned { top.new ≡ turned_to count site share top.old }
{
    top.set_work(Work::Turns(site, share));
    top.turns(site, share, count);
}

/// How many of these batches, from the first on, answer just so many instances, where some do.
pub(crate) fn batches_for(found: &[Batch<'_>], count: u32) -> Option<usize>
    ensures within { IfSome result (λ n. n ≤ length found.now) }
    ensures first { IfSome result (λ n. instances_in (take n found.now) ≡ count) }
{
    let mut left = count;
    for n in 0..found.len() {
        if left == 0 {
            return Some(n);
        }
        match left.checked_sub(found[n].count) {
            Some(rest) => left = rest,
            None => return None,
        }
    }
    if left == 0 { Some(found.len()) } else { None }
}
