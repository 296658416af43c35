//! A loop's instance that has halves left: it is halved, or goes over to its second half.
ghost use Rattle.std.specs.Prelude.{◌≡◌, true, false};
ghost use Rattle.positions.specs.Activations.{ShareFits};
ghost use Rattle.positions.specs.Advance.{in_phase, split};
ghost use Rattle.activations.specs.Given.{lent};
ghost use Rattle.answered_loops.specs.Answered.{is_by_turns};
ghost use Rattle.running_ahead.specs.Ahead.{IsAhead};

use crate::called_halves::{SMALL, half_at_once};
use crate::ready::may_record;
use crate::spawning::Spawning;
use activations::activation::Activation;
use activations::code::loop_code;
use activations::setting::Setting;
use activations::shares::{left_of, right_of};
use positions::phase::Phase;
use positions::work::{Loop, Share, Work};
use small_steps::machine::Machine;
use std::alloc::Global;
use std::mem;
use view_pool::View;

/// Spawns the first half of the iterations, or goes over to iterations one by one, where no record could answer all of them at once.
/// So few iterations that another worker would come too late are done in one go; where spawned children are called, more of them are, and the
/// first half of many is called. Few that may be recorded in one go are left to that, since they need a kit.
#[inline(always)]
#[tactic(auto, using(crate::proofs::Paths::ahead_here))]
pub(crate) fn halves_ahead<V: View, S: Spawning>(
    machine: &mut Machine<V>,
    alloc: Global,
    setting: Setting<'_>,
    site: Loop,
    halvings: u32,
    share: Share,
    spawning: &mut S,
) -> bool
    requires fits { ShareFits site share }
    requires there { machine.old.top.work ≡ Work.Halves site halvings share }
    requires running { machine.old.phase ≡ Phase.Running }
    requires kinds { machine.old.layer.kinds ≡ setting.program.now.kinds }
    ensures ahead { IsAhead (lent setting.entry) machine.old machine.new }
    ensures same { spawning.new ≡ spawning.old }
{
    if !setting.records.is_empty() {
        return false;
    }
    if !is_halved(machine, setting, site, halvings, share) {
        return halve(machine, alloc, setting, site, halvings, share);
    }
    if is_left_to_records(machine, setting, site, share) {
        return false;
    }
    if share.count <= SMALL {
        return few_ahead(machine, alloc, setting, site, halvings, share, spawning);
    }
    if spawning.is_called() {
        if half_at_once(machine, alloc, setting, site, halvings, share) {
            return true;
        }
        return first_ahead(machine, alloc, setting, site, halvings, share);
    }
    halve(machine, alloc, setting, site, halvings, share)
}

/// The same of few iterations, which are done in one go whether spawned children are called or not.
#[inline(always)]
#[tactic(auto, using(crate::proofs::Paths::ahead_here))]
fn few_ahead<V: View, S: Spawning>(
    machine: &mut Machine<V>,
    alloc: Global,
    setting: Setting<'_>,
    site: Loop,
    halvings: u32,
    share: Share,
    spawning: &mut S,
) -> bool
    requires fits { ShareFits site share }
    requires there { machine.old.top.work ≡ Work.Halves site halvings share }
    requires running { machine.old.phase ≡ Phase.Running }
    requires kinds { machine.old.layer.kinds ≡ setting.program.now.kinds }
    requires halved { is_by_turns setting.program.now.codes machine.old.top site halvings share.count ≡ false }
    ensures ahead { IsAhead (lent setting.entry) machine.old machine.new }
    ensures same { spawning.new ≡ spawning.old }
{
    if half_at_once(machine, alloc, setting, site, halvings, share) {
        return true;
    }
    if spawning.is_called() {
        return first_ahead(machine, alloc, setting, site, halvings, share);
    }
    halve(machine, alloc, setting, site, halvings, share)
}

/// Whether that many iterations may be recorded in one go.
#[inline(always)]
fn is_left_to_records<V: View>(
    machine: &Machine<V>,
    setting: Setting<'_>,
    site: Loop,
    share: Share,
) -> bool {
    let code = loop_code(setting.program, machine.top.procedure(), site);
    may_record(machine, setting.program, code, share.count)
}

/// Spawns the first half of the iterations, or goes over to iterations one by one.
#[inline(never)]
#[tactic(auto, using(crate::proofs::Paths::ahead_here))]
fn halve<V: View>(
    machine: &mut Machine<V>,
    alloc: Global,
    setting: Setting<'_>,
    site: Loop,
    halvings: u32,
    share: Share,
) -> bool
    requires fits { ShareFits site share }
    requires there { machine.old.top.work ≡ Work.Halves site halvings share }
    requires running { machine.old.phase ≡ Phase.Running }
    ensures ahead { IsAhead (lent setting.entry) machine.old machine.new }
{
    match machine.halve(alloc, setting.program, site, halvings, share) {
        Ok(()) => true,
        Err(_) => false,
    }
}

/// Calls the first half of the iterations, where there is memory for it.
#[inline(always)]
#[tactic(auto, using(crate::proofs::Paths::ahead_here))]
fn first_ahead<V: View>(
    machine: &mut Machine<V>,
    alloc: Global,
    setting: Setting<'_>,
    site: Loop,
    halvings: u32,
    share: Share,
) -> bool
    requires fits { ShareFits site share }
    requires there { machine.old.top.work ≡ Work.Halves site halvings share }
    requires running { machine.old.phase ≡ Phase.Running }
    requires halved { is_by_turns setting.program.now.codes machine.old.top site halvings share.count ≡ false }
    ensures ahead { IsAhead (lent setting.entry) machine.old machine.new }
{
    // (what the setting's type keeps is needed for the way)
    let _ = setting.program;
    if first_half(machine, alloc, site, halvings.saturating_sub(1), share) {
        return true;
    }
    false
}

/// Whether so many iterations are halved.
#[inline(always)]
pub fn is_halved<V: View>(
    machine: &Machine<V>,
    setting: Setting<'_>,
    site: Loop,
    halvings: u32,
    share: Share,
) -> bool
    ensures halved { result ≡ true → is_by_turns setting.entry.program.now.codes machine.now.top site halvings share.count ≡ false }
{
    let code = loop_code(setting.program, machine.top.procedure(), site);
    halvings != 0 && share.count > code.grain
}

/// Calls the first half of the iterations, which is entered. Whether there was memory for it.
#[inline(always)]
fn first_half<V: View>(
    machine: &mut Machine<V>,
    alloc: Global,
    site: Loop,
    halvings: u32,
    share: Share,
) -> bool
    requires fits { ShareFits site share }
    ensures called { result ≡ true → machine.new ≡ in_phase Phase.Running (split site halvings share machine.old) }
    ensures unchanged { result ≡ false → machine.new ≡ machine.old }
{
    let Some(number) = machine.top.children().checked_add(1) else {
        return false;
    };
    if machine.path.reserve(1).is_err() || machine.below.reserve(1).is_err() {
        return false;
    }
    let room = machine.spares.slots(alloc);
    let Ok(slots) = machine.top.copied_slots(room) else {
        return false;
    };
    let work = Work::Halves(site, halvings, left_of(site, share));
    let procedure = machine.top.procedure();
    let places = machine.spares.places(alloc);
    let child = Activation::new(procedure, slots, places, work, machine.top.left());
    machine.path.push_reserved(number);
    let mut parent = mem::replace(&mut machine.top, child);
    parent.wait(
        true,
        None,
        Work::Second(site, halvings, right_of(site, share)),
    );
    machine.below.push_reserved(parent);
    machine.phase = Phase::Running;
    true
}

/// Calls the second half of the iterations.
#[inline(always)]
#[tactic(auto, using(crate::proofs::Paths::ahead_here))]
pub(crate) fn second_ahead<V: View>(
    machine: &mut Machine<V>,
    alloc: Global,
    setting: Setting<'_>,
    site: Loop,
    halvings: u32,
    share: Share,
) -> bool
    requires fits { ShareFits site share }
    requires there { machine.old.top.work ≡ Work.Second site halvings share }
    requires running { machine.old.phase ≡ Phase.Running }
    ensures ahead { IsAhead (lent setting.entry) machine.old machine.new }
{
    // (what the setting's type keeps is needed for the path of steps)
    let _ = setting.program;
    match machine.second_half(alloc, site, halvings, share) {
        Ok(()) => true,
        Err(_) => false,
    }
}
