//! Down from a half of a loop's iterations to the first one that records don't answer: what is found of the half once serves for all
//! the halves in it.
ghost use Rattle.std.specs.Prelude.{◌≡◌, ◌/◌, ◌≤◌, take, drop, length, true, false, None, All, OnErr, OnOk, IfOk, IfSome};
ghost use Rattle.monoid_laws.specs.Kinds.{IsMonoid};
ghost use Rattle.record_theory.specs.Named.{HaveValues};
ghost use Rattle.activations.specs.Given.{lent};
ghost use Rattle.answered_loops.specs.Answered.{is_by_turns};
ghost use Rattle.loop_answers.specs.Ahead.{IsAnsweredAhead, IsSameButAnswers, IsRefusedAhead};
ghost use Rattle.loop_answers.specs.Batches.{instances_in};
ghost use Rattle.loop_answers.specs.Levels.{IsAtHalf, IsBelow};

use crate::answering::{HALVINGS, answer_last, goes_by_turns, of_kinds};
use crate::taking::{batches_for, end_first};
use activations::code::loop_code;
use activations::setting::Setting;
use activations::shares::{Turns, left_of, right_of};
use positions::phase::Phase;
use positions::work::Share;
use rerun_records::batch::Batch;
use small_steps::machine::Machine;
use std::alloc::{AllocError, Global};
use view_pool::View;

/// Halves of so few iterations are left as they are, where that is asked for and spawned children are called.
const FEW: u32 = 64;

/// The same whether they are called or not.
const SMALL: u32 = 32;

/// The same of a loop that was halved so often: it has 512 such halves or more, enough for all workers, and to have another one take a part of
/// one takes longer than what records don't answer of it.
const PART: u32 = 256;

const PARTED: u32 = 9;

/// A half may be halved so many times, and so many of its iterations are answered; whether it is known that the one behind these
/// isn't, whether spawned children are called, and whether a half of few iterations, which aren't all answered, is left as it is.
#[derive(Clone, Copy)]
pub(crate) struct Descent {
    pub(crate) halvings: u32,
    pub(crate) answered: u32,
    pub(crate) is_stale: bool,
    pub(crate) calls: bool,
    pub(crate) leaves: bool,
}

/// Half of a half's iterations; so many batches answer those in front of them.
#[derive(Clone, Copy)]
struct Level {
    passed: usize,
    share: Share,
}

/// Goes down from a half, of which these batches answer the first iterations, to the first one that they don't answer. A first half
/// that they answer is over; another one is called, where spawned children are. Whether it came to a half of which nothing is known.
#[tactic(auto, using(crate::proofs::Replays::answered_same))]
pub(crate) fn descend<V: View>(
    machine: &mut Machine<V>,
    alloc: Global,
    setting: Setting<'_>,
    found: &[Batch<'_>],
    turns: Turns,
    descent: Descent,
) -> Result<bool, AllocError>
    requires there { IsAtHalf (lent setting) turns.site descent.halvings turns.share found.now machine.old }
    requires kinds { machine.old.layer.kinds ≡ setting.program.now.kinds }
    requires monoids { All IsMonoid setting.program.now.kinds }
    requires values { HaveValues setting.program.now.kinds setting.records.now }
    ensures ahead { OnOk result (IsAnsweredAhead (lent setting.entry) machine.old machine.new) }
    ensures refused { OnErr result (IsRefusedAhead (lent setting.entry) machine.old machine.new) }
{
    let mut passed = 0;
    let mut descent = descent;
    let mut share = turns.share;
    for _ in 0..HALVINGS {
        let rest = behind(found, passed);
        let below = Turns {
            site: turns.site,
            share,
        };
        match go_down(machine, alloc, setting, rest, below, descent) {
            Ok(Some(level)) => {
                passed += level.passed;
                descent.halvings = descent.halvings.saturating_sub(1);
                descent.answered = answered_in(descent, share, level);
                share = level.share;
                let is_known = is_end_known(descent, share);
                if !is_known {
                    return Ok(true);
                }
            }
            Ok(None) => return Ok(false),
            Err(error) => return Err(error),
        }
    }
    Ok(false)
}

/// How many of the iterations there are answered.
fn answered_in(descent: Descent, share: Share, level: Level) -> u32 {
    if level.passed > 0 {
        return descent.answered.saturating_sub(share.count / 2);
    }
    descent.answered
}

/// Whether it is known where the first of these iterations is that isn't answered: not where a batch reaches over them, nor where
/// none is left.
fn is_end_known(descent: Descent, share: Share) -> bool {
    descent.answered < share.count && (descent.answered > 0 || descent.is_stale)
}

/// All but so many first ones of these batches.
fn behind<'b, 'a>(found: &'b [Batch<'a>], count: usize) -> &'b [Batch<'a>]
    requires within { count ≤ length found.now }
    ensures rest { result.now ≡ drop count found.now }
{
    &found[count..]
}

/// Whether a half of those iterations, which aren't all answered, is left as it is.
fn is_left(descent: Descent, share: Share) -> bool {
    descent.leaves && share.count <= few_left(descent.halvings, descent.calls)
}

/// Halves of how many iterations are left as they are, where that is asked for, by how often they may be halved still and whether spawned
/// children are called.
pub(crate) fn few_left(halvings: u32, calls: bool) -> u32 {
    if halvings.saturating_add(PARTED) <= HALVINGS {
        return PART;
    }
    if calls { FEW } else { SMALL }
}

/// Goes down to half of a half's iterations, or where these are done one by one, to the first of them.
#[tactic(auto, using(crate::proofs::Replays::answered_same))]
fn go_down<V: View>(
    machine: &mut Machine<V>,
    alloc: Global,
    setting: Setting<'_>,
    found: &[Batch<'_>],
    turns: Turns,
    descent: Descent,
) -> Result<Option<Level>, AllocError>
    requires there { IsAtHalf (lent setting) turns.site descent.halvings turns.share found.now machine.old }
    requires kinds { machine.old.layer.kinds ≡ setting.program.now.kinds }
    requires monoids { All IsMonoid setting.program.now.kinds }
    requires values { HaveValues setting.program.now.kinds setting.records.now }
    ensures ahead { OnOk result (IsAnsweredAhead (lent setting.entry) machine.old machine.new) }
    ensures below { IfOk result (λ o. IfSome o (λ b. IsBelow (lent setting.entry) turns.site descent.halvings b.share found.now b.passed machine.new)) }
    ensures refused { OnErr result (IsSameButAnswers machine.old machine.new) }
{
    let code = loop_code(setting.program, machine.top.procedure(), turns.site);
    let by_turns = goes_by_turns(descent.halvings, turns.share.count, code.grain);
    if by_turns {
        begin_last(machine, alloc, setting, found, turns, descent.halvings)?;
        return Ok(None);
    }
    if is_left(descent, turns.share) {
        return Ok(None);
    }
    match batches_for(found, turns.share.count / 2) {
        Some(count) => go_right(
            machine,
            alloc,
            setting,
            found,
            turns,
            descent.halvings,
            count,
        ),
        None => {
            if !descent.calls {
                return Ok(None);
            }
            Ok(go_left(machine, alloc, setting, found, turns, descent.halvings))
        }
    }
}

/// So many batches answer the first half's iterations: it is over, and the second half is called.
#[tactic(auto, using(crate::proofs::Replays::answered_same))]
fn go_right<V: View>(
    machine: &mut Machine<V>,
    alloc: Global,
    setting: Setting<'_>,
    found: &[Batch<'_>],
    turns: Turns,
    halvings: u32,
    count: usize,
) -> Result<Option<Level>, AllocError>
    requires there { IsAtHalf (lent setting) turns.site halvings turns.share found.now machine.old }
    requires kinds { machine.old.layer.kinds ≡ setting.program.now.kinds }
    requires monoids { All IsMonoid setting.program.now.kinds }
    requires halved { is_by_turns setting.program.now.codes machine.old.top turns.site halvings turns.share.count ≡ false }
    requires within { count ≤ length found.now }
    requires half { instances_in (take count found.now) ≡ turns.share.count / 2 }
    ensures ahead { OnOk result (IsAnsweredAhead (lent setting.entry) machine.old machine.new) }
    ensures below { IfOk result (λ o. IfSome o (λ b. IsBelow (lent setting.entry) turns.site halvings b.share found.now b.passed machine.new)) }
    ensures refused { OnErr result (IsSameButAnswers machine.old machine.new) }
{
    // (what the setting's type keeps is needed for the path of steps)
    let _ = setting.program;
    of_kinds(machine);
    if !end_first(
        machine,
        alloc,
        &found[..count],
        turns.site,
        halvings,
        turns.share,
    )? {
        return Ok(None);
    }
    let share = right_of(turns.site, turns.share);
    match machine.second_half(alloc, turns.site, halvings.saturating_sub(1), share) {
        Ok(()) => Ok(Some(Level {
            passed: count,
            share,
        })),
        Err(_) => Ok(None),
    }
}

/// The first half is called. Where there is no room for it, nothing changes.
#[tactic(auto, using(crate::proofs::Replays::answered_same))]
fn go_left<V: View>(
    machine: &mut Machine<V>,
    alloc: Global,
    setting: Setting<'_>,
    found: &[Batch<'_>],
    turns: Turns,
    halvings: u32,
) -> Option<Level>
    requires there { IsAtHalf (lent setting) turns.site halvings turns.share found.now machine.old }
    requires halved { is_by_turns setting.program.now.codes machine.old.top turns.site halvings turns.share.count ≡ false }
    ensures ahead { IsAnsweredAhead (lent setting.entry) machine.old machine.new }
    ensures below { IfSome result (λ b. IsBelow (lent setting.entry) turns.site halvings b.share found.now b.passed machine.new) }
{
    // (the contract alone speaks of these)
    let _ = found;
    let share = left_of(turns.site, turns.share);
    match machine.halve(alloc, setting.program, turns.site, halvings, turns.share) {
        Ok(()) => {
            machine.phase = Phase::Running;
            Some(Level { passed: 0, share })
        }
        Err(_) => None,
    }
}

/// A half that isn't halved again. What answers its first iterations is looked up anew, where there are such: no more than these may
/// be taken.
#[tactic(auto, using(crate::proofs::Replays::answered_same))]
fn begin_last<V: View>(
    machine: &mut Machine<V>,
    alloc: Global,
    setting: Setting<'_>,
    found: &[Batch<'_>],
    turns: Turns,
    halvings: u32,
) -> Result<(), AllocError>
    requires there { IsAtHalf (lent setting) turns.site halvings turns.share found.now machine.old }
    requires kinds { machine.old.layer.kinds ≡ setting.program.now.kinds }
    requires monoids { All IsMonoid setting.program.now.kinds }
    requires values { HaveValues setting.program.now.kinds setting.records.now }
    requires turns { is_by_turns setting.program.now.codes machine.old.top turns.site halvings turns.share.count ≡ true }
    ensures ahead { OnOk result (IsAnsweredAhead (lent setting.entry) machine.old machine.new) }
    ensures refused { OnErr result (IsSameButAnswers machine.old machine.new) }
{
    if found.is_empty() {
        let _ = machine.halve(alloc, setting.program, turns.site, halvings, turns.share);
        return Ok(());
    }
    answer_last(machine, alloc, setting, turns.site, halvings, turns.share)
}
