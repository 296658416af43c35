//! A loop's half that is called, and whose iterations are recorded in one go, without the half's parts on the strand.
ghost use Rattle.std.specs.Prelude.{◌≡◌, ◌≤◌, ◌<◌, ◌+◌, ◌^◌, ◌==◌, [], true, false, All, IfSome, OnOk, OnSome, length, map, reverse, vec_len, vec_capacity};
ghost use Rattle.linked_program.specs.CodeView.{expression as plain, memo_of};
ghost use Rattle.positions.specs.Activations.{ShareFits};
ghost use Rattle.positions.specs.Code.{loop_at};
ghost use Rattle.positions.specs.Setting.{Setting as PlainSetting};
ghost use Rattle.positions.specs.Strands.{PlainStrand};
ghost use Rattle.activations.specs.Given.{lent, loop_of};
ghost use Rattle.answered_loops.specs.Answered.{is_by_turns};
ghost use Rattle.own_statements.specs.Fills.{IsCounted};
ghost use Rattle.small_steps.specs.Steps.{GivesNone, IsSuppliedBy, IsWhole, KeepsAllKits};
ghost use Rattle.running_ahead.specs.Chains.{IsClear, reach};
ghost use Rattle.running_ahead.specs.Leaves.{AreRecorded, Gathered, IsRecordedAhead, arguments_then, gathered_of};
ghost use Rattle.running_ahead.specs.RecordedHalves.{HalfRecords};

use crate::answered_chain::chain_through;
use crate::leaf_chain::Stretch;
use activations::activation::Activation;
use activations::code::{LoopCode, loop_code};
use activations::setting::Setting;
use activations::spares::Spares;
use evaluation::slot::Slot;
use layers::closing::send_home;
use positions::phase::Phase;
use positions::work::{Loop, Share, Work};
use running_ahead::called_halves::{SMALL, copies, end_half, keep_all, levels, turn_to};
use running_ahead::descent::{Part, Ready, descend};
use running_ahead::halves::is_halved;
use running_ahead::ready::{make_ready, may_record, put_last};
use running_ahead::spawning::Spawning;
use small_steps::machine::Machine;
use std::alloc::{AllocError, Global};
use view_pool::{Kit, KitSource, View};

/// A half of a loop that was halved so often is done in one go where there are records, too: the loop has 512 such halves or more, enough for all
/// workers, and records answer most of each behind most edits.
const PARTED: u32 = 9;

/// A half of a loop: that share of its iterations, which may be halved so many times more.
#[derive(Clone, Copy)]
pub(crate) struct Half {
    pub(crate) site: Loop,
    pub(crate) halvings: u32,
    pub(crate) share: Share,
}

/// Where the topmost instance has a half of few iterations left, of a memo procedure, and spawned children are called or the half is small:
/// does its iterations in one go, as far as records answer them or they do all of their statements by themselves. Whether it did anything.
#[inline(never)]
#[tactic(auto, using(crate::proofs::Kept::recorded_here, crate::proofs::Kept::kits_same))]
pub(crate) fn record_half<V: View, S: Spawning, K: KitSource<Kit<V>>>(
    machine: &mut Machine<V>,
    alloc: Global,
    setting: Setting<'_>,
    half: Half,
    spawning: &mut S,
    kits: &mut K,
) -> Result<bool, AllocError>
    requires fits { ShareFits half.site half.share }
    requires there { machine.old.top.work ≡ Work.Halves half.site half.halvings half.share }
    requires running { machine.old.phase ≡ Phase.Running }
    requires supplied { IsSuppliedBy K.KitSource setting kits.old machine.old }
    ensures ahead { OnOk result (IsRecordedAhead (lent setting.entry) machine.old machine.new) }
    ensures whole { IsWhole machine.old → IsWhole machine.new }
    ensures kinds { machine.new.layer.kinds ≡ machine.old.layer.kinds }
    ensures kits { KeepsAllKits K.KitSource setting.entry.program.now.kinds kits.old kits.new machine.old machine.new }
    ensures without_kit { GivesNone K.gives kits.old → machine.new ≡ machine.old }
{
    let code = loop_code(setting.program, machine.top.procedure(), half.site);
    let part = Part {
        site: half.site,
        halvings: half.halvings,
        share: half.share,
        grain: code.grain,
    };
    let Some(levels) = levels_of(machine, setting, code, part) else {
        return Ok(false);
    };
    if !is_small(setting, half) && !spawning.is_called() {
        return Ok(false);
    }
    let Some(copies) = make_parts(machine, alloc, setting.program.slots(code.callee), levels) else {
        return Ok(false);
    };
    record_part(machine, alloc, setting, code, Ready { part, copies }, kits)
}

/// Whether a half's iterations, which are few, are done in one go even where its first half could be pushed.
fn is_small(setting: Setting<'_>, half: Half) -> bool {
    if half.share.count <= SMALL {
        return true;
    }
    !setting.records.is_empty() && half.halvings.saturating_add(PARTED) <= meaning::HALVINGS
}

/// How often that part's iterations are halved at most, where they are few, are halved and may be recorded in one go.
fn levels_of<V: View>(
    machine: &Machine<V>,
    setting: Setting<'_>,
    code: LoopCode<'_>,
    part: Part,
) -> Option<usize>
    ensures memo { OnSome result (memo_of setting.entry.program.now.codes code.entry.callee ≡ true) }
    ensures by_halves { OnSome result (is_by_turns setting.entry.program.now.codes machine.now.top part.site part.halvings part.share.count ≡ false) }
    ensures counted { OnSome result (IsCounted machine.now.top.slots code.entry.variable (map plain code.entry.arguments.now)) }
    ensures deep { OnSome result ((machine.now.top.left == 0) ≡ false) }
    ensures children { OnSome result (machine.now.top.children + 1024 < 2 ^ 64) }
    ensures clear { OnSome result (IsClear machine.now) }
    ensures fewer { OnSome result (part.share.count ≤ 256) }
    ensures reached { IfSome result (λ n. part.share.count ≤ reach n part.grain) }
    ensures few { IfSome result (λ n. n ≤ 8) }
    ensures halved { IfSome result (λ n. n ≤ part.halvings) }
{
    if !may_record(machine, setting.program, code, part.share.count) {
        return None;
    }
    if !is_halved(machine, setting, part.site, part.halvings, part.share) {
        return None;
    }
    levels(part.share.count, part.grain, part.halvings)
}

/// Has room for a half's parts and for an argument, and an instance ready that has so many slots: copies of the loop's slots for the parts.
/// None where memory is refused.
#[inline(always)]
fn make_parts<V: View>(
    machine: &mut Machine<V>,
    alloc: Global,
    size: usize,
    levels: usize,
) -> Option<Vec<Vec<Slot>>>
    requires few { levels ≤ 8 }
    ensures same { machine.new ≡ machine.old }
    ensures many { IfSome result (λ xs. length xs.items ≡ levels) }
    ensures copies { IfSome result (λ xs. All (λ v. v.items ≡ machine.old.top.slots) xs.items) }
{
    if machine.path.reserve(levels + 1).is_err() || machine.below.reserve(levels + 1).is_err() {
        return None;
    }
    if !make_ready(machine, alloc, size) {
        return None;
    }
    copies(&machine.top, &mut machine.spares, alloc, levels)
}

/// The iterations of that part, which may be recorded in one go.
#[inline(always)]
#[tactic(auto, using(crate::proofs::Kept::recorded_here, crate::proofs::Kept::kits_same))]
fn record_part<V: View, K: KitSource<Kit<V>>>(
    machine: &mut Machine<V>,
    alloc: Global,
    setting: Setting<'_>,
    code: LoopCode<'_>,
    ready: Ready,
    kits: &mut K,
) -> Result<bool, AllocError>
    requires fits { ShareFits ready.part.site ready.part.share }
    requires there { machine.old.top.work ≡ Work.Halves ready.part.site ready.part.halvings ready.part.share }
    requires running { machine.old.phase ≡ Phase.Running }
    requires found { loop_of code ≡ loop_at setting.program.now.codes machine.old.top.procedure ready.part.site }
    requires grain { ready.part.grain ≡ code.grain }
    requires memo { memo_of setting.program.now.codes code.callee ≡ true }
    requires by_halves { is_by_turns setting.program.now.codes machine.old.top ready.part.site ready.part.halvings ready.part.share.count ≡ false }
    requires counted { IsCounted machine.old.top.slots code.variable (map plain code.arguments.now) }
    requires deep { (machine.old.top.left == 0) ≡ false }
    requires children { machine.old.top.children + 1024 < 2 ^ 64 }
    requires clear { IsClear machine.old }
    requires few { ready.part.share.count ≤ 256 }
    requires halved { length ready.copies.items ≤ ready.part.halvings }
    requires reached { ready.part.share.count ≤ reach (length ready.copies.items) ready.part.grain }
    requires levels { length ready.copies.items ≤ 8 }
    requires copies { All (λ v. v.items ≡ machine.old.top.slots) ready.copies.items }
    requires supplied { IsSuppliedBy K.KitSource setting kits.old machine.old }
    ensures ahead { OnOk result (IsRecordedAhead (lent setting.entry) machine.old machine.new) }
    ensures whole { IsWhole machine.old → IsWhole machine.new }
    ensures kinds { machine.new.layer.kinds ≡ machine.old.layer.kinds }
    ensures kits { KeepsAllKits K.KitSource setting.entry.program.now.kinds kits.old kits.new machine.old machine.new }
    ensures without_kit { GivesNone K.gives kits.old → machine.new ≡ machine.old }
{
    let Some(kit) = kits.take() else {
        return Ok(false);
    };
    let stretch = Stretch {
        site: ready.part.site,
        share: ready.part.share,
        most: ready.part.share.count,
    };
    match chain_through(machine, alloc, setting, code, stretch, kit) {
        Ok((done, kit)) => {
            send_home(kits, kit);
            settle_half(machine, alloc, ready, done)
        }
        Err(Some(kit)) => {
            send_home(kits, kit);
            Err(AllocError)
        }
        Err(None) => Err(AllocError),
    }
}

/// So many iterations of the topmost instance's half are recorded: it is over, or the part that has the next one is put on top. There is room
/// for that: else the strand couldn't go on.
#[inline(always)]
fn settle_half<V: View>(
    machine: &mut Machine<V>,
    alloc: Global,
    ready: Ready,
    done: u32,
) -> Result<bool, AllocError>
    requires fits { ShareFits ready.part.site ready.part.share }
    requires there { machine.old.top.work ≡ Work.Halves ready.part.site ready.part.halvings ready.part.share }
    requires running { machine.old.phase ≡ Phase.Running }
    requires some { done ≤ ready.part.share.count }
    requires children { machine.old.top.children + 1024 < 2 ^ 64 }
    requires few { ready.part.share.count ≤ 256 }
    requires halved { length ready.copies.items ≤ ready.part.halvings }
    requires reached { ready.part.share.count ≤ reach (length ready.copies.items) ready.part.grain }
    requires levels { length ready.copies.items ≤ 8 }
    requires copies { All (λ v. v.items ≡ machine.old.top.slots) ready.copies.items }
    ensures settled { OnOk result ((setting : PlainSetting) (s : PlainStrand)
        → machine.old ≡ record s { layer = machine.old.layer; tally = machine.old.tally }
        → IsClear s
        → ready.part.grain ≡ (loop_at setting.codes s.top.procedure ready.part.site).grain
        → is_by_turns setting.codes s.top ready.part.site ready.part.halvings ready.part.share.count ≡ false
        → AreRecorded setting ready.part.site s.top.procedure s.top.slots s.top.left ready.part.share.first
        (gathered_of s s.arguments) done
        (gathered_of machine.old (arguments_then done ready.part.site ready.part.share s.arguments))
        → IsRecordedAhead setting s machine.new) }
    ensures lower { machine.new.lower ≡ machine.old.lower }
    ensures kinds { machine.new.layer.kinds ≡ machine.old.layer.kinds }
    ensures whole { IsWhole machine.old → IsWhole machine.new }
{
    let room = ready.copies.len() + 1;
    machine.path.reserve(room)?;
    machine.below.reserve(room)?;
    put_last(
        &mut machine.arguments,
        ready.part.site,
        ready.part.share,
        done,
    )?;
    if half_goes(
        &mut machine.path,
        &mut machine.below,
        &mut machine.top,
        &mut machine.spares,
        alloc,
        ready,
        done,
    ) {
        machine.phase = Phase::Leaving(0);
        return Ok(true);
    }
    Ok(true)
}

/// After so many iterations of a half, which are recorded: whether it is over. Else the part of it that has the next one is put on top.
fn half_goes(
    path: &mut Vec<usize>,
    below: &mut Vec<Activation>,
    top: &mut Activation,
    spares: &mut Spares,
    alloc: Global,
    ready: Ready,
    done: u32,
) -> bool
    requires fits { ShareFits ready.part.site ready.part.share }
    requires some { done ≤ ready.part.share.count }
    requires there { top.old.work ≡ Work.Halves ready.part.site ready.part.halvings ready.part.share }
    requires halved { length ready.copies.items ≤ ready.part.halvings }
    requires reached { ready.part.share.count ≤ reach (length ready.copies.items) ready.part.grain }
    requires levels { length ready.copies.items ≤ 8 }
    requires copies { All (λ v. v.items ≡ top.old.slots) ready.copies.items }
    requires children { top.old.children + 1024 < 2 ^ 64 }
    requires few { ready.part.share.count ≤ 256 }
    requires path_room { vec_len path.old + length ready.copies.items < vec_capacity path.old }
    requires below_room { vec_len below.old + length ready.copies.items < vec_capacity below.old }
    ensures recorded { (setting : PlainSetting) (x y : Gathered)
        → ready.part.grain ≡ (loop_at setting.codes top.old.procedure ready.part.site).grain
        → is_by_turns setting.codes top.old ready.part.site ready.part.halvings ready.part.share.count ≡ false
        → AreRecorded setting ready.part.site top.old.procedure top.old.slots top.old.left ready.part.share.first x done y
        → HalfRecords setting result top.old x path.old.items (reverse below.old.items)
        top.new y path.new.items (reverse below.new.items) }
{
    if done == ready.part.share.count {
        keep_all(spares, alloc, ready.copies);
        end_half(top, spares, alloc);
        return true;
    }
    let last = descend(path, below, top, spares, alloc, ready, done);
    turn_to(top, last.part, last.done);
    false
}
