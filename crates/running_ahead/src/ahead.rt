//! Many small steps in one go: those for which no kit is needed. A spawned child is called where it is said so, else it ends them.
ghost use Rattle.std.specs.Prelude.{◌≡◌, ◌≤◌, ◌+◌, true, vec_len, vec_capacity};
ghost use Rattle.positions.specs.Activations.{ShareFits};
ghost use Rattle.positions.specs.Setting.{Setting as PlainSetting};
ghost use Rattle.activations.specs.Given.{lent};
ghost use Rattle.own_statements.specs.Paths.{phase_by, MayPass};
ghost use Rattle.running_ahead.specs.Ahead.{IsAhead, OnBack};

use crate::came::{Came, Gone};
use crate::children::{enter_ahead, has_room_above, put_any, put_on_top};
use crate::halves::{halves_ahead, second_ahead};
use crate::nested::run_over;
use crate::spawning::Spawning;
use crate::turns::turns;
use activations::activation::Activation;
use activations::code::{instruction, loop_code};
use activations::setting::Setting;
use layers::layer::DEEPEST;
use own_statements::ran::Ended;
use positions::phase::Phase;
use positions::work::{Loop, Share, Work};
use small_steps::machine::Machine;
use std::alloc::Global;
use view_pool::View;

// How many stretches of small steps are done in one go.
const STRETCHES: u32 = 1024;

// How many stretches of blocks are done before the next one of them is looked for as any other.
const BLOCKS: u32 = 16;

/// Does small steps of its instances. Where an iteration of a memo procedure is over, and its loop has another one, that is seen at
/// once.
pub fn run_ahead<V: View, S: Spawning>(
    machine: &mut Machine<V>,
    alloc: Global,
    setting: Setting<'_>,
    spawning: &mut S,
)
    requires kinds { machine.old.layer.kinds ≡ setting.program.now.kinds }
    ensures ahead { IsAhead (lent setting.entry) machine.old machine.new }
    ensures same { spawning.new ≡ spawning.old }
{
    make_nest(machine, alloc);
    if leaves_for_memo(machine, setting) {
        return;
    }
    if returns_to_record(machine, setting) {
        return;
    }
    run_on(machine, alloc, setting, spawning);
}

/// Has instances ready for those that are called beside the strand.
#[inline(always)]
fn make_nest<V: View>(machine: &mut Machine<V>, alloc: Global)
    ensures same { machine.new ≡ machine.old }
{
    machine.spares.make_nest(alloc);
}

/// The statements of an instance with a layer of its own, where that comes next; whether it does them all by itself, so that its
/// layer becomes a record now. Most such instances do, and need no more stretches.
#[inline(always)]
fn returns_to_record<V: View>(machine: &mut Machine<V>, setting: Setting<'_>) -> bool
    requires kinds { machine.old.layer.kinds ≡ setting.program.now.kinds }
    ensures ahead { IsAhead (lent setting.entry) machine.old machine.new }
{
    match machine.phase {
        Phase::Running => {
            if !machine.tally.is_own(machine.path.len()) {
                return false;
            }
            returns_alone(machine, setting)
        }
        _ => false,
    }
}

/// The statements that the topmost instance does by itself; whether the last one gives a value back.
#[inline(never)]
fn returns_alone<V: View>(machine: &mut Machine<V>, setting: Setting<'_>) -> bool
    requires running { machine.old.phase ≡ Phase.Running }
    requires kinds { machine.old.layer.kinds ≡ setting.program.now.kinds }
    ensures ahead { IsAhead (lent setting.entry) machine.old machine.new }
{
    statements_ahead(machine, setting).is_some()
}

/// The topmost instance's value goes to the one below it, where that comes next; whether a loop over a memo procedure goes on there,
/// for which a kit may be needed.
#[inline(always)]
fn leaves_for_memo<V: View>(machine: &mut Machine<V>, setting: Setting<'_>) -> bool
    ensures ahead { IsAhead (lent setting.entry) machine.old machine.new }
{
    match machine.phase {
        Phase::Leaving(value) => leave_ahead(machine, value) && is_at_memo_turn(machine, setting),
        _ => false,
    }
}

/// Whether the topmost instance is a loop whose next iteration is one of a procedure that is marked memo.
#[inline(always)]
fn is_at_memo_turn<V: View>(machine: &Machine<V>, setting: Setting<'_>) -> bool {
    match machine.top.work() {
        Work::Turns(site, share) => share.count > 0 && is_of_memo(machine, setting, site),
        _ => false,
    }
}

/// Does small steps of its instances, one stretch after another.
#[inline(never)]
#[tactic(auto, using(crate::proofs::Paths::ahead_here, crate::proofs::Paths::ahead_join))]
fn run_on<V: View, S: Spawning>(
    machine: &mut Machine<V>,
    alloc: Global,
    setting: Setting<'_>,
    spawning: &mut S,
)
    requires kinds { machine.old.layer.kinds ≡ setting.program.now.kinds }
    ensures ahead { IsAhead (lent setting.entry) machine.old machine.new }
    ensures same { spawning.new ≡ spawning.old }
{
    for _ in 0..STRETCHES {
        if !go_ahead(machine, alloc, setting, spawning) {
            return;
        }
    }
}

/// Does small steps of its topmost instance, or of one that this calls; whether there may be more.
#[tactic(auto, using(crate::proofs::Paths::ahead_here, crate::proofs::Paths::ahead_join))]
fn go_ahead<V: View, S: Spawning>(
    machine: &mut Machine<V>,
    alloc: Global,
    setting: Setting<'_>,
    spawning: &mut S,
) -> bool
    requires kinds { machine.old.layer.kinds ≡ setting.program.now.kinds }
    ensures ahead { IsAhead (lent setting.entry) machine.old machine.new }
    ensures same { spawning.new ≡ spawning.old }
{
    match machine.phase {
        Phase::Entering => enter_alone(machine, setting),
        Phase::Running => match machine.top.work() {
            Work::Block(_) | Work::Over => blocks_ahead(machine, alloc, setting, spawning),
            Work::Turns(site, share) => loop_ahead(machine, alloc, setting, site, share),
            Work::Halves(site, halvings, share) => {
                halves_ahead(machine, alloc, setting, site, halvings, share, spawning)
            }
            Work::Second(site, halvings, share) => {
                second_ahead(machine, alloc, setting, site, halvings, share)
            }
        },
        Phase::Returning(value) => sync_ahead(machine, value),
        Phase::Leaving(value) => leave_ahead(machine, value),
        Phase::AtSpawn => call_spawned(machine, spawning),
        Phase::Broken(_) => false,
    }
}

/// At a spawn: has the child entered as a called one, where it is to be called.
#[inline(always)]
fn call_spawned<V: View, S: Spawning>(machine: &mut Machine<V>, spawning: &mut S) -> bool
    requires at_spawn { machine.old.phase ≡ Phase.AtSpawn }
    ensures ahead { (setting : PlainSetting) → IsAhead setting machine.old machine.new }
    ensures same { spawning.new ≡ spawning.old }
{
    if !spawning.is_called() {
        return false;
    }
    machine.phase = Phase::Entering;
    true
}

/// Enters the topmost instance, where that is a loop's half or of a procedure that isn't marked memo.
#[tactic(auto, using(crate::proofs::Paths::ahead_here))]
fn enter_alone<V: View>(machine: &mut Machine<V>, setting: Setting<'_>) -> bool
    requires entering { machine.old.phase ≡ Phase.Entering }
    ensures ahead { IsAhead (lent setting.entry) machine.old machine.new }
{
    match machine.top.work() {
        Work::Block(_) => {
            if setting.program.is_memo(machine.top.procedure()) {
                return false;
            }
            machine.begin();
            true
        }
        Work::Halves(_, _, _) => {
            machine.phase = Phase::Running;
            true
        }
        _ => false,
    }
}

/// What is left of the topmost instance's blocks, and of those of the instance that is topmost then, and so on. Before each it asks
/// whether spawned children are called.
#[inline(always)]
fn blocks_ahead<V: View, S: Spawning>(
    machine: &mut Machine<V>,
    alloc: Global,
    setting: Setting<'_>,
    spawning: &mut S,
) -> bool
    requires running { machine.old.phase ≡ Phase.Running }
    requires kinds { machine.old.layer.kinds ≡ setting.program.now.kinds }
    ensures ahead { IsAhead (lent setting.entry) machine.old machine.new }
    ensures same { spawning.new ≡ spawning.old }
{
    for _ in 0..BLOCKS {
        let calls = spawning.is_called();
        match block_ahead(machine, alloc, setting, calls) {
            Came::Nowhere => return false,
            Came::Back => {}
            Came::Stays => return true,
        }
    }
    true
}

/// What is left of the topmost instance's blocks; whether spawned children are called in them is said. Back where the instance that is
/// topmost then is in a block.
#[inline(always)]
#[tactic(auto, using(crate::proofs::Paths::ahead_here, crate::proofs::Paths::ahead_join))]
fn block_ahead<V: View>(
    machine: &mut Machine<V>,
    alloc: Global,
    setting: Setting<'_>,
    calls: bool,
) -> Came
    requires running { machine.old.phase ≡ Phase.Running }
    requires kinds { machine.old.layer.kinds ≡ setting.program.now.kinds }
    ensures ahead { IsAhead (lent setting.entry) machine.old machine.new }
    ensures running { OnBack result (machine.new.phase ≡ Phase.Running) }
{
    match statements_ahead(machine, setting) {
        Some(value) => goes_back(machine, value),
        None => calls_ahead(machine, alloc, setting, calls),
    }
}

/// The topmost instance's value goes to the one below it, where no layer is closed: Back where that is in a block.
#[inline(always)]
fn goes_back<V: View>(machine: &mut Machine<V>, value: i64) -> Came
    requires returning { machine.old.phase ≡ Phase.Returning value }
    ensures ahead { (setting : PlainSetting) → IsAhead setting machine.old machine.new }
    ensures running { OnBack result (machine.new.phase ≡ Phase.Running) }
{
    if !sync_ahead(machine, value) {
        return Came::Nowhere;
    }
    if is_in_block(machine) {
        return Came::Back;
    }
    Came::Stays
}

/// Whether the topmost instance is within a block.
#[inline(always)]
fn is_in_block<V: View>(machine: &Machine<V>) -> bool
    ensures running { result ≡ true → machine.now.phase ≡ Phase.Running }
{
    match machine.phase {
        Phase::Running => match machine.top.work() {
            Work::Block(_) => true,
            _ => false,
        },
        _ => false,
    }
}

/// The statements that the topmost instance does by itself, as far as to the one that gives a value back.
#[inline(always)]
fn statements_ahead<V: View>(machine: &mut Machine<V>, setting: Setting<'_>) -> Option<i64>
    requires running { machine.old.phase ≡ Phase.Running }
    requires kinds { machine.old.layer.kinds ≡ setting.program.now.kinds }
    ensures ahead { IsAhead (lent setting.entry) machine.old machine.new }
    ensures phase { machine.new.phase ≡ phase_by result }
{
    let passes = passes_syncs(machine);
    let alloc = *machine.numbers.allocator();
    let most = machine.spares.nest.above.len();
    if !has_room(&mut machine.path, &mut machine.below, most) {
        return None;
    }
    match run_over(
        &mut machine.layer,
        setting,
        passes,
        &mut machine.top,
        &mut machine.spares.nest.above,
        &mut machine.numbers,
    ) {
        Ended::Gave(value) => {
            machine.phase = Phase::Returning(value);
            Some(value)
        }
        Ended::Stopped(more) => {
            put_any(
                &mut machine.path,
                &mut machine.below,
                &mut machine.top,
                &mut machine.spares,
                alloc,
                more,
            );
            None
        }
    }
}

/// Whether there is room for so many more instances on a strand.
#[inline(always)]
fn has_room(path: &mut Vec<usize>, below: &mut Vec<Activation>, most: usize) -> bool
    ensures path { path.new.items ≡ path.old.items }
    ensures below { below.new.items ≡ below.old.items }
    ensures path_room { result ≡ true → vec_len path.new + most ≤ vec_capacity path.new }
    ensures below_room { result ≡ true → vec_len below.new + most ≤ vec_capacity below.new }
{
    path.reserve(most).is_ok() && below.reserve(most).is_ok()
}

/// Whether the topmost instance passes syncs and may call others beside the strand: that doesn't begin in it or above it.
#[inline(always)]
fn passes_syncs<V: View>(machine: &Machine<V>) -> bool
    ensures passes { MayPass result machine.now }
{
    !machine.is_entry() && has_room_above(machine)
}

/// The implicit sync of the topmost instance, whose value that is, where no layer is closed.
fn sync_ahead<V: View>(machine: &mut Machine<V>, value: i64) -> bool
    requires returning { machine.old.phase ≡ Phase.Returning value }
    ensures ahead { (setting : PlainSetting) → IsAhead setting machine.old machine.new }
{
    if machine.is_entry() || machine.tally.is_own(machine.path.len()) {
        return false;
    }
    machine.phase = Phase::Leaving(value);
    leave_ahead(machine, value)
}

/// The topmost instance's value goes to the one below it.
#[inline(always)]
fn leave_ahead<V: View>(machine: &mut Machine<V>, value: i64) -> bool
    requires leaving { machine.old.phase ≡ Phase.Leaving value }
    ensures ahead { (setting : PlainSetting) → IsAhead setting machine.old machine.new }
{
    if machine.below.is_empty() {
        return false;
    }
    machine.leave(value);
    true
}

/// Calls the instance that the topmost one's next statement calls, or spawns where that is called; where it has more to do, the one
/// that its next statement calls, and so on. Back where one of them came back.
#[tactic(auto, using(crate::proofs::Paths::ahead_here, crate::proofs::Paths::ahead_join))]
fn calls_ahead<V: View>(
    machine: &mut Machine<V>,
    alloc: Global,
    setting: Setting<'_>,
    calls: bool,
) -> Came
    requires running { machine.old.phase ≡ Phase.Running }
    requires kinds { machine.old.layer.kinds ≡ setting.program.now.kinds }
    ensures ahead { IsAhead (lent setting.entry) machine.old machine.new }
    ensures running { OnBack result (machine.new.phase ≡ Phase.Running) }
{
    for _ in 0..DEEPEST {
        match call_ahead(machine, alloc, setting, calls) {
            Came::Nowhere => return Came::Nowhere,
            Came::Back => return Came::Back,
            Came::Stays => {}
        }
    }
    Came::Stays
}

/// The topmost instance's next statement, where that calls an instance of a procedure that isn't marked memo, or spawns one that is
/// called.
#[inline(always)]
fn call_ahead<V: View>(
    machine: &mut Machine<V>,
    alloc: Global,
    setting: Setting<'_>,
    calls: bool,
) -> Came
    requires running { machine.old.phase ≡ Phase.Running }
    requires kinds { machine.old.layer.kinds ≡ setting.program.now.kinds }
    ensures ahead { IsAhead (lent setting.entry) machine.old machine.new }
    ensures running { machine.new.phase ≡ Phase.Running }
{
    match machine.top.work() {
        Work::Block(position) => match instruction(
            setting.program,
            machine.top.procedure(),
            machine.top.depth(),
            position,
        ) {
            Some(instruction) => {
                enter_ahead(machine, alloc, setting, calls, position, instruction)
            }
            None => Came::Nowhere,
        },
        _ => Came::Nowhere,
    }
}

/// Whether the iterations of the topmost instance's loop are of a procedure that is marked memo.
#[inline(always)]
fn is_of_memo<V: View>(machine: &Machine<V>, setting: Setting<'_>, site: Loop) -> bool {
    let code = loop_code(setting.program, machine.top.procedure(), site);
    setting.program.is_memo(code.callee)
}

/// What a loop has left one by one. It looks first whether its procedure is marked memo, since then each iteration comes back here.
#[inline(always)]
#[tactic(auto, using(crate::proofs::Paths::ahead_here))]
fn loop_ahead<V: View>(
    machine: &mut Machine<V>,
    alloc: Global,
    setting: Setting<'_>,
    site: Loop,
    share: Share,
) -> bool
    requires fits { ShareFits site share }
    requires there { machine.old.top.work ≡ Work.Turns site share }
    requires kinds { machine.old.layer.kinds ≡ setting.program.now.kinds }
    requires running { machine.old.phase ≡ Phase.Running }
    ensures ahead { IsAhead (lent setting.entry) machine.old machine.new }
{
    if share.count > 0 && is_of_memo(machine, setting, site) {
        return false;
    }
    turns_ahead(machine, alloc, setting, site, share)
}

/// Does the iterations that a loop has left, where their procedure isn't marked memo and each goes back by itself; or ends the
/// loop. False where nothing is left that could be done so.
#[inline(never)]
#[tactic(auto, using(crate::proofs::Paths::ahead_here))]
fn turns_ahead<V: View>(
    machine: &mut Machine<V>,
    alloc: Global,
    setting: Setting<'_>,
    site: Loop,
    share: Share,
) -> bool
    requires fits { ShareFits site share }
    requires there { machine.old.top.work ≡ Work.Turns site share }
    requires kinds { machine.old.layer.kinds ≡ setting.program.now.kinds }
    requires running { machine.old.phase ≡ Phase.Running }
    ensures ahead { IsAhead (lent setting.entry) machine.old machine.new }
{
    if share.count == 0 {
        machine.phase = Phase::Returning(0);
        return true;
    }
    if !has_room_above(machine) {
        return false;
    }
    let most = machine.spares.nest.above.len() + 1;
    if machine.path.reserve(most).is_err() || machine.below.reserve(most).is_err() {
        return false;
    }
    match turns(
        &mut machine.layer,
        setting,
        site,
        share,
        &mut machine.top,
        &mut machine.spares.nest,
        &mut machine.numbers,
    ) {
        Gone::Nowhere => false,
        Gone::Back => true,
        Gone::Stays(more) => {
            put_on_top(
                &mut machine.path,
                &mut machine.below,
                &mut machine.top,
                &mut machine.spares,
                alloc,
                more,
            );
            true
        }
    }
}
