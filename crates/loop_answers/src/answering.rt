//! Where the topmost instance of a strand is a loop's over a memo procedure: whether records answer its iterations, and which. And where
//! a child is spawned, whether a record answers that.
ghost use Rattle.std.specs.Prelude.{◌≡◌, ◌≤◌, ◌==◌, ◌||◌, nat_le, ℕ, List, true, false, length, All, OnErr, OnOk};
ghost use Rattle.monoid_laws.specs.Kinds.{AreWorths, IsMonoid};
ghost use Rattle.record_theory.specs.Named.{HaveValues};
ghost use Rattle.positions.specs.Activations.{ShareFits};
ghost use Rattle.positions.specs.Strands.{entry_by};
ghost use Rattle.activations.specs.Given.{lent};
ghost use Rattle.answered_loops.specs.Answered.{IsInside, is_by_turns};
ghost use Rattle.loop_answers.specs.Ahead.{IsAnsweredAhead, IsSameButAnswers, IsRefusedAhead};

use crate::descending::{Descent, descend, few_left};
use crate::finding::answers;
use crate::taking::{begin_turns, end_halves, end_last, end_turns};
use crate::tried::Wanted;
use activations::code::loop_code;
use activations::setting::Setting;
use activations::shares::Turns;
use positions::phase::Phase;
use positions::start::Start;
use positions::work::{Loop, Share, Work};
use small_steps::machine::Machine;
use std::alloc::{AllocError, Global};
use view_pool::View;

/// How many times a loop may be halved.
pub(crate) const HALVINGS: u32 = meaning::HALVINGS;

/// Where the topmost instance is a loop's over a memo procedure, has records answer iterations: all those of a half that is halved
/// again, where they can, else the first ones, and it goes down to the next; or the first ones of those that are left one by one. At a
/// spawn it has a record answer the child. It is said whether a spawned child is called, for the halves that aren't answered, and whether
/// those of few iterations, which aren't all answered, are left as they are. Where memory is refused the strand can't go on.
#[inline(always)]
#[tactic(auto, using(crate::proofs::Replays::answered_same))]
pub fn answer_ahead<V: View>(
    machine: &mut Machine<V>,
    alloc: Global,
    setting: Setting<'_>,
    calls: bool,
    leaves: bool,
) -> Result<(), AllocError>
    requires kinds { machine.old.layer.kinds ≡ setting.program.now.kinds }
    requires monoids { All IsMonoid setting.program.now.kinds }
    requires values { HaveValues setting.program.now.kinds setting.records.now }
    ensures ahead { OnOk result (IsAnsweredAhead (lent setting.entry) machine.old machine.new) }
    ensures refused { OnErr result (IsRefusedAhead (lent setting.entry) machine.old machine.new) }
{
    if setting.records.is_empty() {
        return Ok(());
    }
    match machine.phase {
        Phase::Running => match machine.top.work() {
            Work::Halves(_, _, _) => answer_halves(machine, alloc, setting, calls, leaves),
            Work::Turns(site, share) => answer_turns(machine, alloc, setting, site, share),
            _ => Ok(()),
        },
        Phase::AtSpawn => answer_spawned(machine, alloc, setting),
        _ => Ok(()),
    }
}

/// At a spawn: has a record answer the child, as if that were called, so that nothing is pushed for it.
#[tactic(auto, using(crate::proofs::Replays::answered_same))]
fn answer_spawned<V: View>(
    machine: &mut Machine<V>,
    alloc: Global,
    setting: Setting<'_>,
) -> Result<(), AllocError>
    requires at_spawn { machine.old.phase ≡ Phase.AtSpawn }
    requires kinds { machine.old.layer.kinds ≡ setting.program.now.kinds }
    requires monoids { All IsMonoid setting.program.now.kinds }
    requires values { HaveValues setting.program.now.kinds setting.records.now }
    ensures ahead { OnOk result (IsAnsweredAhead (lent setting.entry) machine.old machine.new) }
    ensures refused { OnErr result (IsSameButAnswers machine.old machine.new) }
{
    machine.answer_spawned(alloc, setting)?;
    Ok(())
}

/// The same at a half, and at the halves in it that it comes to. It is kept out of the loop over small steps, which saves its registers.
#[inline(never)]
#[tactic(auto, using(crate::proofs::Replays::answered_same))]
fn answer_halves<V: View>(
    machine: &mut Machine<V>,
    alloc: Global,
    setting: Setting<'_>,
    calls: bool,
    leaves: bool,
) -> Result<(), AllocError>
    requires kinds { machine.old.layer.kinds ≡ setting.program.now.kinds }
    requires monoids { All IsMonoid setting.program.now.kinds }
    requires values { HaveValues setting.program.now.kinds setting.records.now }
    ensures ahead { OnOk result (IsAnsweredAhead (lent setting.entry) machine.old machine.new) }
    ensures refused { OnErr result (IsRefusedAhead (lent setting.entry) machine.old machine.new) }
{
    for _ in 0..HALVINGS {
        match answer_next(machine, alloc, setting, calls, leaves) {
            Ok(true) => {}
            Ok(false) => return Ok(()),
            Err(error) => return Err(error),
        }
    }
    Ok(())
}

/// The same at the half that comes next. Whether it came to another one of which nothing is known.
#[inline(always)]
#[tactic(auto, using(crate::proofs::Replays::answered_same))]
fn answer_next<V: View>(
    machine: &mut Machine<V>,
    alloc: Global,
    setting: Setting<'_>,
    calls: bool,
    leaves: bool,
) -> Result<bool, AllocError>
    requires kinds { machine.old.layer.kinds ≡ setting.program.now.kinds }
    requires monoids { All IsMonoid setting.program.now.kinds }
    requires values { HaveValues setting.program.now.kinds setting.records.now }
    ensures ahead { OnOk result (IsAnsweredAhead (lent setting.entry) machine.old machine.new) }
    ensures refused { OnErr result (IsRefusedAhead (lent setting.entry) machine.old machine.new) }
{
    match machine.phase {
        Phase::Running => match machine.top.work() {
            Work::Halves(site, halvings, share) => {
                let turns = Turns { site, share };
                answer_half(machine, alloc, setting, turns, halvings, calls, leaves)
            }
            _ => Ok(false),
        },
        _ => Ok(false),
    }
}

/// All iterations of a half, where records answer them; else it goes down to the first one that they don't. Whether it came to
/// another half of which nothing is known.
#[tactic(auto, using(crate::proofs::Replays::answered_same))]
fn answer_half<V: View>(
    machine: &mut Machine<V>,
    alloc: Global,
    setting: Setting<'_>,
    turns: Turns,
    halvings: u32,
    calls: bool,
    leaves: bool,
) -> Result<bool, AllocError>
    requires fits { ShareFits turns.site turns.share }
    requires there { machine.old.top.work ≡ Work.Halves turns.site halvings turns.share }
    requires running { machine.old.phase ≡ Phase.Running }
    requires kinds { machine.old.layer.kinds ≡ setting.program.now.kinds }
    requires monoids { All IsMonoid setting.program.now.kinds }
    requires values { HaveValues setting.program.now.kinds setting.records.now }
    ensures ahead { OnOk result (IsAnsweredAhead (lent setting.entry) machine.old machine.new) }
    ensures refused { OnErr result (IsRefusedAhead (lent setting.entry) machine.old machine.new) }
{
    let code = loop_code(setting.program, machine.top.procedure(), turns.site);
    let by_turns = goes_by_turns(halvings, turns.share.count, code.grain);
    if by_turns {
        answer_last(machine, alloc, setting, turns.site, halvings, turns.share)?;
        return Ok(false);
    }
    let wanted = Wanted {
        most: turns.share.count,
        all: true,
        halves: calls,
        is_left: leaves && turns.share.count <= few_left(halvings, calls),
    };
    let Some(found) = answers(machine, alloc, setting, code, turns, wanted) else {
        return Ok(false);
    };
    if !is_inside(machine) {
        return Ok(false);
    }
    if found.count == turns.share.count {
        of_kinds(machine);
        let _ = end_halves(machine, alloc, &found.batches)?;
        return Ok(false);
    }
    let descent = Descent {
        halvings,
        answered: found.count,
        is_stale: found.ends_at_stale(),
        calls,
        leaves,
    };
    descend(machine, alloc, setting, &found.batches, turns, descent)
}

/// A half that isn't halved again: all iterations where records answer them, else the first ones, and the others are done one by
/// one.
#[tactic(auto, using(crate::proofs::Replays::answered_same))]
pub(crate) fn answer_last<V: View>(
    machine: &mut Machine<V>,
    alloc: Global,
    setting: Setting<'_>,
    site: Loop,
    halvings: u32,
    share: Share,
) -> Result<(), AllocError>
    requires fits { ShareFits site share }
    requires there { machine.old.top.work ≡ Work.Halves site halvings share }
    requires running { machine.old.phase ≡ Phase.Running }
    requires kinds { machine.old.layer.kinds ≡ setting.program.now.kinds }
    requires monoids { All IsMonoid setting.program.now.kinds }
    requires values { HaveValues setting.program.now.kinds setting.records.now }
    requires turns { is_by_turns setting.program.now.codes machine.old.top site halvings share.count ≡ true }
    ensures ahead { OnOk result (IsAnsweredAhead (lent setting.entry) machine.old machine.new) }
    ensures refused { OnErr result (IsSameButAnswers machine.old machine.new) }
{
    let wanted = Wanted {
        most: share.count,
        all: false,
        halves: false,
        is_left: false,
    };
    let code = loop_code(setting.program, machine.top.procedure(), site);
    let turns = Turns { site, share };
    let Some(found) = answers(machine, alloc, setting, code, turns, wanted) else {
        return Ok(());
    };
    of_kinds(machine);
    let ends = ends_with(machine, found.count, share.count);
    if ends {
        end_last(machine, alloc, &found, site, share)?;
        return Ok(());
    }
    begin_turns(machine, alloc, &found, site, share)?;
    Ok(())
}

/// Whether so many iterations are all of them, and the half may leave then.
fn ends_with<V: View>(machine: &Machine<V>, count: u32, all: u32) -> bool
    ensures all { result ≡ true → count ≡ all }
    ensures inside { result ≡ true → IsInside machine.now }
{
    count == all && is_inside(machine)
}

/// The first of the iterations that are left one by one, as many as records answer.
#[tactic(auto, using(crate::proofs::Replays::answered_same))]
fn answer_turns<V: View>(
    machine: &mut Machine<V>,
    alloc: Global,
    setting: Setting<'_>,
    site: Loop,
    share: Share,
) -> Result<(), AllocError>
    requires fits { ShareFits site share }
    requires there { machine.old.top.work ≡ Work.Turns site share }
    requires running { machine.old.phase ≡ Phase.Running }
    requires kinds { machine.old.layer.kinds ≡ setting.program.now.kinds }
    requires monoids { All IsMonoid setting.program.now.kinds }
    requires values { HaveValues setting.program.now.kinds setting.records.now }
    ensures ahead { OnOk result (IsAnsweredAhead (lent setting.entry) machine.old machine.new) }
    ensures refused { OnErr result (IsSameButAnswers machine.old machine.new) }
{
    let wanted = Wanted {
        most: share.count,
        all: false,
        halves: false,
        is_left: false,
    };
    let code = loop_code(setting.program, machine.top.procedure(), site);
    let turns = Turns { site, share };
    let Some(found) = answers(machine, alloc, setting, code, turns, wanted) else {
        return Ok(());
    };
    of_kinds(machine);
    end_turns(machine, alloc, &found, site, share)?;
    Ok(())
}

/// What the layer keeps: each reducer's value is of its kind.
pub(crate) fn of_kinds<V: View>(machine: &Machine<V>)
    ensures worths { AreWorths machine.now.layer.kinds machine.now.layer.worths }
{
    machine.layer.of_kinds();
}

/// Whether so many iterations, which may be halved so many times, are done one by one.
pub(crate) fn goes_by_turns(halvings: u32, count: u32, grain: u32) -> bool
    ensures turns { result ≡ (halvings == 0 || nat_le count grain) }
{
    halvings == 0 || count <= grain
}

/// Whether the implicit syncs of the topmost instance, and of those above it, are passed and close no layer.
fn is_inside<V: View>(machine: &Machine<V>) -> bool
    ensures inside { result ≡ true → IsInside machine.now }
{
    starts_below(machine) && !machine.tally.owns_from(machine.path.len())
}

/// Whether the strand begins below its topmost instance.
fn starts_below<V: View>(machine: &Machine<V>) -> bool
    ensures below { result ≡ true → (path : List ℕ) → length machine.now.path ≤ length path → entry_by machine.now.start path ≡ false }
{
    let size = machine.path.len();
    match machine.start {
        Start::Root => true,
        Start::Behind { depth, child: _ } => depth < size,
    }
}
