//! Where a loop over a memo procedure is next: its iterations, each with its record, as many as do their statements by themselves.
ghost use Rattle.std.specs.Prelude.{◌≡◌, ◌≤◌, ◌<◌, ◌+◌, ◌^◌, ◌==◌, [], true, false, IfSome, OnErr, OnOk, OnSome, map};
ghost use Rattle.linked_program.specs.CodeView.{expression as plain, memo_of};
ghost use Rattle.positions.specs.Activations.{ShareFits};
ghost use Rattle.positions.specs.Code.{loop_at};
ghost use Rattle.activations.specs.Given.{lent, loop_of};
ghost use Rattle.own_statements.specs.Fills.{IsCounted};
ghost use Rattle.small_steps.specs.Steps.{GivesNone, IsSuppliedBy, IsWhole, KeepsAllKits};
ghost use Rattle.activations.specs.Turned.{turned_by};
ghost use Rattle.running_ahead.specs.Leaves.{IsAmid, IsRecordedAhead, arguments_then};

use crate::answered_chain::chain_through;
use crate::leaf_chain::Stretch;
use crate::recorded_half::{Half, record_half};
use activations::code::{LoopCode, loop_code};
use activations::setting::Setting;
use layers::closing::send_home;
use linked_program::checked::Checked;
use own_statements::filling::is_counted;
use positions::phase::Phase;
use positions::start::Start;
use positions::work::{Loop, Share, Work};
use running_ahead::plain::{are_recorded, are_recorded_in_turn};
use running_ahead::ready::{make_ready, put_last};
use running_ahead::spawning::Spawning;
use small_steps::machine::Machine;
use std::alloc::{AllocError, Global};
use view_pool::{Kit, KitSource, View};

// How many iterations are done in one go.
const ITERATIONS: u32 = 1024;

// How many where each may take long.
const FEW: u32 = 64;

/// Where the topmost instance is a loop's over a memo procedure: does its next iterations in one go, as far as records answer them or they do
/// all of their statements by themselves, each of these in a layer of its own that becomes a record; those of a half only where it is
/// small or spawned children are called. Whether it did anything. A kit is taken for that, and given back. Where memory is refused
/// meanwhile, the strand can't go on.
#[inline(always)]
#[tactic(auto, using(crate::proofs::Kept::recorded_here, crate::proofs::Kept::kits_same))]
pub fn record_ahead<V: View, S: Spawning, K: KitSource<Kit<V>>>(
    machine: &mut Machine<V>,
    alloc: Global,
    setting: Setting<'_>,
    spawning: &mut S,
    kits: &mut K,
) -> Result<bool, AllocError>
    requires supplied { IsSuppliedBy K.KitSource setting kits.old machine.old }
    ensures ahead { OnOk result (IsRecordedAhead (lent setting.entry) machine.old machine.new) }
    ensures whole { IsWhole machine.old → IsWhole machine.new }
    ensures kinds { machine.new.layer.kinds ≡ machine.old.layer.kinds }
    ensures kits { KeepsAllKits K.KitSource setting.entry.program.now.kinds kits.old kits.new machine.old machine.new }
    ensures without_kit { GivesNone K.gives kits.old → machine.new ≡ machine.old }
{
    match machine.phase {
        Phase::Running => match machine.top.work() {
            Work::Turns(site, share) => record_turns(machine, alloc, setting, site, share, kits),
            Work::Halves(site, halvings, share) => {
                let half = Half {
                    site,
                    halvings,
                    share,
                };
                record_half(machine, alloc, setting, half, spawning, kits)
            }
            _ => Ok(false),
        },
        _ => Ok(false),
    }
}

/// The same of such iterations. It is kept out of the loop over small steps, which saves its registers.
#[inline(never)]
#[tactic(auto, using(crate::proofs::Kept::recorded_here, crate::proofs::Kept::kits_same))]
fn record_turns<V: View, K: KitSource<Kit<V>>>(
    machine: &mut Machine<V>,
    alloc: Global,
    setting: Setting<'_>,
    site: Loop,
    share: Share,
    kits: &mut K,
) -> Result<bool, AllocError>
    requires fits { ShareFits site share }
    requires there { machine.old.top.work ≡ Work.Turns site share }
    requires running { machine.old.phase ≡ Phase.Running }
    requires supplied { IsSuppliedBy K.KitSource setting kits.old machine.old }
    ensures ahead { OnOk result (IsRecordedAhead (lent setting.entry) machine.old machine.new) }
    ensures whole { IsWhole machine.old → IsWhole machine.new }
    ensures kinds { machine.new.layer.kinds ≡ machine.old.layer.kinds }
    ensures kits { KeepsAllKits K.KitSource setting.entry.program.now.kinds kits.old kits.new machine.old machine.new }
    ensures without_kit { GivesNone K.gives kits.old → machine.new ≡ machine.old }
{
    if share.count == 0 {
        return Ok(false);
    }
    let code = loop_code(setting.program, machine.top.procedure(), site);
    if !are_recorded_in_turn(setting.program, code.callee) {
        return Ok(false);
    }
    let Some(stretch) = stretch_of(machine, setting.program, code, site, share) else {
        return Ok(false);
    };
    if !make_ready(machine, alloc, setting.program.slots(code.callee)) {
        return Ok(false);
    }
    record_stretch(machine, alloc, setting, code, stretch, kits)
}

/// The iterations that may be recorded in one go, if there are any.
#[inline(always)]
fn stretch_of<V: View>(
    machine: &Machine<V>,
    program: &Checked,
    code: LoopCode<'_>,
    site: Loop,
    share: Share,
) -> Option<Stretch>
    ensures site { IfSome result (λ stretch. stretch.site ≡ site) }
    ensures share { IfSome result (λ stretch. stretch.share ≡ share) }
    ensures some { IfSome result (λ stretch. stretch.most ≤ share.count) }
    ensures room { IfSome result (λ stretch. machine.now.top.children + stretch.most < 2 ^ 64) }
    ensures amid { OnSome result (IsAmid machine.now) }
    ensures deep { OnSome result ((machine.now.top.left == 0) ≡ false) }
    ensures counted { OnSome result (IsCounted machine.now.top.slots code.entry.variable (map plain code.entry.arguments.now)) }
{
    if machine.top.left() == 0 || !is_counted(&machine.top, code.variable, code.arguments) {
        return None;
    }
    if begins_inside(machine) {
        return None;
    }
    let most = share.count.min(longest(program, code.callee));
    let Some(_) = machine.top.children().checked_add(most as usize) else {
        return None;
    };
    Some(Stretch { site, share, most })
}

/// How many iterations of that procedure are done in one go at most: few where it calls one whose values are found by recursion, since
/// nothing else is heard of meanwhile.
#[inline(always)]
fn longest(program: &Checked, procedure: usize) -> u32 {
    if are_recorded(program, procedure) {
        ITERATIONS
    } else {
        FEW
    }
}

/// Whether the strand begins above the topmost instance.
#[inline(always)]
fn begins_inside<V: View>(machine: &Machine<V>) -> bool
    ensures amid { result ≡ false → IsAmid machine.now }
{
    match machine.start {
        Start::Root => false,
        Start::Behind { depth, child: _ } => depth > machine.path.len(),
    }
}

/// A stretch of iterations of a loop's statement whose procedure is marked memo.
#[inline(always)]
#[tactic(auto, using(crate::proofs::Kept::recorded_here, crate::proofs::Kept::kits_same, running_ahead::proofs::RecordedTurns::turns_recorded))]
fn record_stretch<V: View, K: KitSource<Kit<V>>>(
    machine: &mut Machine<V>,
    alloc: Global,
    setting: Setting<'_>,
    code: LoopCode<'_>,
    stretch: Stretch,
    kits: &mut K,
) -> Result<bool, AllocError>
    requires fits { ShareFits stretch.site stretch.share }
    requires there { machine.old.top.work ≡ Work.Turns stretch.site stretch.share }
    requires some { stretch.most ≤ stretch.share.count }
    requires room { machine.old.top.children + stretch.most < 2 ^ 64 }
    requires running { machine.old.phase ≡ Phase.Running }
    requires found { loop_of code ≡ loop_at setting.program.now.codes machine.old.top.procedure stretch.site }
    requires memo { memo_of setting.program.now.codes code.callee ≡ true }
    requires deep { (machine.old.top.left == 0) ≡ false }
    requires counted { IsCounted machine.old.top.slots code.variable (map plain code.arguments.now) }
    requires amid { IsAmid machine.old }
    requires supplied { IsSuppliedBy K.KitSource setting kits.old machine.old }
    ensures ahead { OnOk result (IsRecordedAhead (lent setting.entry) machine.old machine.new) }
    ensures whole { IsWhole machine.old → IsWhole machine.new }
    ensures kinds { machine.new.layer.kinds ≡ machine.old.layer.kinds }
    ensures kits { KeepsAllKits K.KitSource setting.entry.program.now.kinds kits.old kits.new machine.old machine.new }
    ensures without_kit { GivesNone K.gives kits.old → machine.new ≡ machine.old }
{
    let Some(kit) = kits.take() else {
        return Ok(false);
    };
    match chain_through(machine, alloc, setting, code, stretch, kit) {
        Ok((done, kit)) => {
            send_home(kits, kit);
            settle(machine, stretch, done)
        }
        Err(Some(kit)) => {
            send_home(kits, kit);
            Err(AllocError)
        }
        Err(None) => Err(AllocError),
    }
}

/// The loop's instance has called so many iterations; whether these are some.
#[inline(always)]
fn settle<V: View>(
    machine: &mut Machine<V>,
    stretch: Stretch,
    done: u32,
) -> Result<bool, AllocError>
    requires fits { ShareFits stretch.site stretch.share }
    requires there { machine.old.top.work ≡ Work.Turns stretch.site stretch.share }
    requires some { done ≤ stretch.share.count }
    requires room { machine.old.top.children + done < 2 ^ 64 }
    ensures turned { OnOk result (machine.new ≡ record machine.old {
      top = turned_by done stretch.site stretch.share machine.old.top;
      arguments = arguments_then done stretch.site stretch.share machine.old.arguments;
    }) }
    ensures refused { OnErr result (machine.new ≡ record machine.old { arguments = [] }) }
{
    put_last(&mut machine.arguments, stretch.site, stretch.share, done)?;
    machine.top.turns(stretch.site, stretch.share, done);
    Ok(done > 0)
}
