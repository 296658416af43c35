//! Halves of a loop that are called and done in one go: one iteration after another, without the halves' parts on the strand.
ghost use Rattle.std.specs.Prelude.{◌≡◌, ◌+◌, ◌<◌, ◌≤◌, ◌^◌, ◌==◌, ◌∷◌, ℕ, List, true, false, All, IfSome, OnSome, length, reverse, vec_len, vec_capacity};
ghost use Rattle.linked_program.specs.CodeView.{memo_of};
ghost use Rattle.positions.specs.Activations.{ShareFits, at};
ghost use Rattle.positions.specs.Code.{loop_at};
ghost use Rattle.positions.specs.Layers.{PlainLayer};
ghost use Rattle.positions.specs.Setting.{Setting as PlainSetting};
ghost use Rattle.positions.specs.Strands.{entry_by};
ghost use Rattle.activations.specs.Given.{lent};
ghost use Rattle.activations.specs.Turned.{turned_by};
ghost use Rattle.answered_loops.specs.Answered.{halved_to, is_by_turns};
ghost use Rattle.running_ahead.specs.Ahead.{IsAhead};
ghost use Rattle.running_ahead.specs.Chains.{ChainsTo, HalfTo, IsClear, IsFewer, reach};

use crate::came::Chained;
use crate::children::put_on_top;
use crate::descent::{Part, Ready, descend};
use crate::turns::chain;
use activations::activation::Activation;
use activations::code::loop_code;
use activations::setting::Setting;
use activations::shares::Turns;
use activations::spares::Spares;
use evaluation::slot::Slot;
use layers::layer::Layer;
use positions::phase::Phase;
use positions::start::Start;
use positions::work::{Loop, Share, Work};
use small_steps::machine::Machine;
use std::alloc::Global;
use view_pool::View;

// So many iterations at most are done in one go: meanwhile no other worker can take a part of them.
pub(crate) const MOST: u32 = 256;

/// So few iterations are done in one go whether spawned children are called or not: to have another worker take some of them takes longer.
pub const SMALL: u32 = 32;

// So many more children an instance has room for: two halves, or its iterations.
const CHILDREN: usize = 1024;

/// Does the iterations of the topmost instance's half, as far as each goes back by itself, where they are few. Whether it did anything.
#[inline(never)]
#[tactic(auto, using(crate::proofs::Paths::ahead_here))]
pub(crate) fn half_at_once<V: View>(
    machine: &mut Machine<V>,
    alloc: Global,
    setting: Setting<'_>,
    site: Loop,
    halvings: u32,
    share: Share,
) -> bool
    requires fits { ShareFits site share }
    requires there { machine.old.top.work ≡ Work.Halves site halvings share }
    requires running { machine.old.phase ≡ Phase.Running }
    requires kinds { machine.old.layer.kinds ≡ setting.program.now.kinds }
    requires halved { is_by_turns setting.program.now.codes machine.old.top site halvings share.count ≡ false }
    ensures ahead { IsAhead (lent setting.entry) machine.old machine.new }
    ensures unchanged { result ≡ false → machine.new ≡ machine.old }
{
    let code = loop_code(setting.program, machine.top.procedure(), site);
    let part = Part {
        site,
        halvings,
        share,
        grain: code.grain,
    };
    let Some(levels) = levels_of(machine, setting, code.callee, part) else {
        return false;
    };
    let most = levels + 1 + machine.spares.nest.above.len();
    if machine.path.reserve(most).is_err() || machine.below.reserve(most).is_err() {
        return false;
    }
    let Some(copies) = copies(&machine.top, &mut machine.spares, alloc, levels) else {
        return false;
    };
    let came = chain(
        &mut machine.layer,
        setting,
        code,
        Turns { site, share },
        &mut machine.top,
        &mut machine.spares.nest,
        &mut machine.numbers,
    );
    if goes_on(
        &mut machine.path,
        &mut machine.below,
        &mut machine.top,
        &mut machine.spares,
        alloc,
        Ready { part, copies },
        came,
    ) {
        machine.phase = Phase::Leaving(0);
        return true;
    }
    true
}

/// How often that part's iterations of that procedure are halved at most, where they are few and may be done in one go.
fn levels_of<V: View>(
    machine: &Machine<V>,
    setting: Setting<'_>,
    callee: usize,
    part: Part,
) -> Option<usize>
    ensures plain { OnSome result (memo_of setting.entry.program.now.codes callee ≡ false) }
    ensures deep { OnSome result ((machine.now.top.left == 0) ≡ false) }
    ensures children { OnSome result (machine.now.top.children + 1024 < 2 ^ 64) }
    ensures clear { OnSome result (IsClear machine.now) }
    ensures fewer { OnSome result (part.share.count ≤ 256) }
    ensures reached { IfSome result (λ n. part.share.count ≤ reach n part.grain) }
    ensures few { IfSome result (λ n. n ≤ 8) }
    ensures halved { IfSome result (λ n. n ≤ part.halvings) }
{
    if !may_go(machine, setting, callee) || part.share.count > MOST {
        return None;
    }
    levels(part.share.count, part.grain, part.halvings)
}

/// Whether a loop's iterations of that procedure may be done so: it isn't marked memo and may go back by itself, there is a level and
/// there are numbers for them, and the syncs above are passed.
fn may_go<V: View>(machine: &Machine<V>, setting: Setting<'_>, callee: usize) -> bool
    ensures plain { result ≡ true → memo_of setting.entry.program.now.codes callee ≡ false }
    ensures deep { result ≡ true → (machine.now.top.left == 0) ≡ false }
    ensures children { result ≡ true → machine.now.top.children + 1024 < 2 ^ 64 }
    ensures clear { result ≡ true → IsClear machine.now }
{
    if setting.program.is_memo(callee) || !setting.program.hints(callee).back {
        return false;
    }
    has_room(machine)
}

/// Whether there is a level and there are numbers for the iterations of a half, and the syncs above are passed.
pub(crate) fn has_room<V: View>(machine: &Machine<V>) -> bool
    ensures deep { result ≡ true → (machine.now.top.left == 0) ≡ false }
    ensures children { result ≡ true → machine.now.top.children + 1024 < 2 ^ 64 }
    ensures clear { result ≡ true → IsClear machine.now }
{
    if machine.top.left() == 0 {
        return false;
    }
    let Some(_) = machine.top.children().checked_add(CHILDREN) else {
        return false;
    };
    is_clear(machine)
}

/// Whether the implicit syncs of the topmost instance, and of those above it, are passed and close no layer.
fn is_clear<V: View>(machine: &Machine<V>) -> bool
    ensures clear { result ≡ true → IsClear machine.now }
{
    starts_below(machine) && !machine.tally.owns_from(machine.path.len())
}

/// Whether the strand begins below its topmost instance.
fn starts_below<V: View>(machine: &Machine<V>) -> bool
    ensures below { result ≡ true → (path : List ℕ) → length machine.now.path ≤ length path → entry_by machine.now.start path ≡ false }
{
    let size = machine.path.len();
    match machine.start {
        Start::Root => true,
        Start::Behind { depth, child: _ } => depth < size,
    }
}

/// After so many iterations of a half: whether it is over. Else the part of it that has the next one is put on top, and what that has
/// called, where it has begun.
fn goes_on(
    path: &mut Vec<usize>,
    below: &mut Vec<Activation>,
    top: &mut Activation,
    spares: &mut Spares,
    alloc: Global,
    ready: Ready,
    came: Chained,
) -> bool
    requires fits { ShareFits ready.part.site ready.part.share }
    requires fewer { IsFewer ready.part.share.count (length spares.old.nest.above.items) came }
    requires there { top.old.work ≡ Work.Halves ready.part.site ready.part.halvings ready.part.share }
    requires halved { length ready.copies.items ≤ ready.part.halvings }
    requires reached { ready.part.share.count ≤ reach (length ready.copies.items) ready.part.grain }
    requires levels { length ready.copies.items ≤ 8 }
    requires copies { All (λ v. v.items ≡ top.old.slots) ready.copies.items }
    requires children { top.old.children + 1024 < 2 ^ 64 }
    requires few { ready.part.share.count ≤ 256 }
    requires path_room { vec_len path.old + length ready.copies.items + length spares.old.nest.above.items < vec_capacity path.old }
    requires below_room { vec_len below.old + length ready.copies.items + length spares.old.nest.above.items < vec_capacity below.old }
    ensures came { (setting : PlainSetting) (u v : PlainLayer)
        → ready.part.grain ≡ (loop_at setting.codes top.old.procedure ready.part.site).grain
        → is_by_turns setting.codes top.old ready.part.site ready.part.halvings ready.part.share.count ≡ false
        → ChainsTo setting ready.part.site top.old ready.part.share.first ready.part.share.count came u (spares.old.nest.child ∷ spares.old.nest.above.items) v
        → HalfTo setting result top.old u path.old.items (reverse below.old.items)
        top.new v path.new.items (reverse below.new.items) }
{
    match came {
        Chained::Whole => {
            keep_all(spares, alloc, ready.copies);
            end_half(top, spares, alloc);
            true
        }
        Chained::Before(done) => {
            let last = descend(path, below, top, spares, alloc, ready, done);
            turn_to(top, last.part, last.done);
            false
        }
        Chained::Within(done, more) => {
            let last = descend(path, below, top, spares, alloc, ready, done);
            turn_to(top, last.part, last.done + 1);
            put_on_top(path, below, top, spares, alloc, more);
            false
        }
    }
}

/// How often so many iterations are halved at most; none where that is more often than is allowed here.
pub fn levels(count: u32, grain: u32, halvings: u32) -> Option<usize>
    ensures reached { IfSome result (λ n. count ≤ reach n grain) }
    ensures few { IfSome result (λ n. n ≤ 8) }
    ensures halved { IfSome result (λ n. n ≤ halvings) }
{
    let mut most = u64::from(grain);
    for level in 0..9u32 {
        if level > halvings {
            return None;
        }
        if u64::from(count) <= most {
            return Some(level as usize);
        }
        most *= 2;
    }
    None
}

/// So many copies of an instance's slots; none where memory is refused.
pub fn copies(
    top: &Activation,
    spares: &mut Spares,
    alloc: Global,
    levels: usize,
) -> Option<Vec<Vec<Slot>>>
    ensures many { IfSome result (λ xs. length xs.items ≡ levels) }
    ensures copies { IfSome result (λ xs. All (λ v. v.items ≡ top.now.slots) xs.items) }
    ensures nest { spares.new.nest ≡ spares.old.nest }
{
    let Ok(mut copies) = Vec::with_capacity(alloc, levels) else {
        return None;
    };
    for _ in 0..levels {
        let room = spares.slots(alloc);
        let Ok(slots) = top.copied_slots(room) else {
            return None;
        };
        if copies.push(slots).is_err() {
            return None;
        }
    }
    Some(copies)
}

/// Keeps copies of slots that nobody needed.
pub fn keep_all(spares: &mut Spares, alloc: Global, copies: Vec<Vec<Slot>>) {
    for slots in copies {
        keep(spares, alloc, slots);
    }
}

/// Keeps a list of slots.
fn keep(spares: &mut Spares, alloc: Global, slots: Vec<Slot>) {
    spares.keep(Activation::new(0, slots, Vec::new(alloc), Work::Over, 0));
}

/// Both halves of an instance are over, the second of which took its slots.
pub fn end_half(top: &mut Activation, spares: &mut Spares, alloc: Global)
    requires children { top.old.children + 2 < 2 ^ 64 }
    ensures ended { top.new ≡ halved_to top.old }
{
    keep(spares, alloc, top.take_slots(alloc));
    top.wait(true, None, Work::Over);
    top.wait(false, None, Work::Over);
}

/// Goes iteration by iteration, of which so many are over or have begun.
pub fn turn_to(top: &mut Activation, part: Part, done: u32)
    requires fits { ShareFits part.site part.share }
    requires some { done ≤ part.share.count }
    requires children { top.old.children + done < 2 ^ 64 }
    ensures turned { top.new ≡ turned_by done part.site part.share (at (Work.Turns part.site part.share) top.old) }
{
    top.set_work(Work::Turns(part.site, part.share));
    top.turns(part.site, part.share, done);
}
