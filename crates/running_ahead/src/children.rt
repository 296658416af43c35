//! Instances that are called, or spawned where they are called then: they stand on the strand only where they have more to do.
ghost use Rattle.std.specs.Prelude.{◌≡◌, ◌+◌, ◌<◌, ◌≤◌, ◌++◌, ◌∷◌, ◌^◌, [], ℕ, suc, List, Some, true, false, length, map, reverse};
ghost use Rattle.std.specs.Prelude.{slice_get, slice_set, vec_len, vec_capacity};
ghost use Rattle.linked_program.specs.CodeView.{expression as plain, slots_of, memo_of};
ghost use Rattle.evaluation.specs.Values.{entry_at};
ghost use Rattle.positions.specs.Layers.{PlainLayer};
ghost use Rattle.positions.specs.Strands.{PlainStrand, entry_by};
ghost use Rattle.positions.specs.Advance.{called, evaluated, performed};
ghost use Rattle.activations.specs.Given.{lent};
ghost use Rattle.own_statements.specs.Paths.{HasRoomAbove, stacked, topped};
ghost use Rattle.own_statements.specs.Runs.{IsBody};
ghost use Rattle.small_steps.specs.Steps.{nested_plain};
ghost use Rattle.running_ahead.specs.Ahead.{GoesAhead, GoesAheadBy, CameBy, is_spawned};
ghost use Rattle.running_ahead.specs.Chains.{under};

use crate::came::Came;
use crate::nested::call_over;
use activations::activation::{Activation, next_of};
use activations::code::instructions;
use activations::setting::Setting;
use activations::spares::Spares;
use layers::layer::DEEPEST;
use linked_program::checked::Checked;
use linked_program::code::{Expression, Instruction, Operation};
use meaning::tree::Way;
use own_statements::filling::fills;
use own_statements::ran::Ended;
use own_statements::recursion::{Enters, Own, called};
use own_statements::runs::Callee as Begun;
use positions::phase::Phase;
use positions::start::Start;
use positions::work::{Position, Work};
use small_steps::machine::Machine;
use std::alloc::Global;
use std::mem;
use view_pool::View;

/// An instance that is to be called, which may be a spawned one: of that procedure, with those arguments; its value goes into that slot,
/// and the one that calls it stands at that position then.
#[derive(Clone, Copy)]
struct Callee<'a> {
    way: Way,
    procedure: usize,
    arguments: &'a [Expression],
    into: Option<usize>,
    next: Position,
}

/// What an instance of a procedure begins with: so many slots, and the statements of its body.
#[derive(Clone, Copy)]
struct Body<'a> {
    size: usize,
    statements: &'a [Instruction],
}

/// What an instance of that procedure begins with.
#[inline(always)]
fn body_of(program: &Checked, procedure: usize) -> Body<'_>
    ensures size { result.size ≡ slots_of program.now.codes procedure }
    ensures body { IsBody program.now.codes procedure result.statements.now }
{
    Body {
        size: program.slots(procedure),
        statements: instructions(program, procedure, 0, 0),
    }
}

/// Does the statement at that position, where it calls an instance of a procedure that isn't marked memo, or spawns one that is
/// called.
#[inline(always)]
pub(crate) fn enter_ahead<V: View>(
    machine: &mut Machine<V>,
    alloc: Global,
    setting: Setting<'_>,
    calls: bool,
    position: Position,
    instruction: &Instruction,
) -> Came
    requires room { position.index + 1 < 2 ^ 64 }
    requires kinds { machine.old.layer.kinds ≡ setting.program.now.kinds }
    requires running { machine.old.phase ≡ Phase.Running }
    ensures ahead { GoesAheadBy (lent setting.entry)
        (λ kit. performed (lent setting.entry) kit position instruction.now.number instruction.now.operation) machine.old machine.new }
    ensures running { machine.new.phase ≡ Phase.Running }
{
    match &instruction.operation {
        Operation::Enter(into, way, callee, arguments) => {
            let arguments = arguments.as_slice();
            let callee = Callee {
                way: *way,
                procedure: *callee,
                arguments,
                into: *into,
                next: next_of(position),
            };
            enter_by(machine, alloc, setting, calls, instruction.number, callee)
        }
        _ => Came::Nowhere,
    }
}

/// Calls an instance, where its procedure isn't marked memo and it isn't spawned, or is called then, and does its statements.
#[inline(always)]
fn enter_by<V: View>(
    machine: &mut Machine<V>,
    alloc: Global,
    setting: Setting<'_>,
    calls: bool,
    statement: u32,
    callee: Callee<'_>,
) -> Came
    requires kinds { machine.old.layer.kinds ≡ setting.program.now.kinds }
    requires running { machine.old.phase ≡ Phase.Running }
    ensures ahead { GoesAheadBy (lent setting.entry)
        (λ kit. called (lent setting.entry) kit statement callee.entry.way callee.entry.into (Work.Block callee.entry.next) callee.entry.procedure
        (map plain callee.entry.arguments.now) machine.old.top.slots) machine.old machine.new }
    ensures running { machine.new.phase ≡ Phase.Running }
{
    // (it is looked up here once, and not wherever a part of it is needed)
    let body = body_of(setting.program, callee.procedure);
    if setting.program.is_memo(callee.procedure) {
        return Came::Nowhere;
    }
    if is_spawn(callee.way) && !calls {
        return Came::Nowhere;
    }
    enter_plain_ahead(machine, alloc, setting, statement, callee, body)
}

/// Whether an instance that is entered so is spawned.
#[inline(always)]
fn is_spawn(way: Way) -> bool
    ensures spawn { result ≡ is_spawned way }
{
    match way {
        Way::Call => false,
        Way::Spawn => true,
    }
}

/// Calls an instance of a procedure that isn't marked memo, and does its statements.
#[inline(always)]
fn enter_plain_ahead<V: View>(
    machine: &mut Machine<V>,
    alloc: Global,
    setting: Setting<'_>,
    statement: u32,
    callee: Callee<'_>,
    body: Body<'_>,
) -> Came
    requires kinds { machine.old.layer.kinds ≡ setting.program.now.kinds }
    requires running { machine.old.phase ≡ Phase.Running }
    requires size { body.size ≡ slots_of setting.program.now.codes callee.procedure }
    requires body { IsBody setting.program.now.codes callee.procedure body.statements.now }
    requires plain { memo_of setting.program.now.codes callee.procedure ≡ false }
    ensures ahead { GoesAhead (lent setting.entry)
        (evaluated statement (entry_at setting.entry.tables.now.tables machine.old.top.slots
        (slots_of setting.entry.program.now.codes callee.entry.procedure) (map plain callee.entry.arguments.now))
        (nested_plain statement callee.entry.way callee.entry.into (Work.Block callee.entry.next) callee.entry.procedure)) machine.old machine.new }
    ensures running { machine.new.phase ≡ Phase.Running }
{
    if is_found_at_once(machine, setting, callee, body) {
        return Came::Back;
    }
    match child_ahead(machine, alloc, setting, callee, body) {
        Came::Nowhere => Came::Nowhere,
        Came::Back => Came::Back,
        Came::Stays => Came::Stays,
    }
}

/// Calls that instance, where it is one of the topmost one's own procedure whose value is found without an instance on the strand;
/// whether it is.
#[inline(always)]
fn is_found_at_once<V: View>(
    machine: &mut Machine<V>,
    setting: Setting<'_>,
    callee: Callee<'_>,
    body: Body<'_>,
) -> bool
    requires kinds { machine.old.layer.kinds ≡ setting.program.now.kinds }
    requires running { machine.old.phase ≡ Phase.Running }
    requires size { body.size ≡ slots_of setting.program.now.codes callee.procedure }
    requires body { IsBody setting.program.now.codes callee.procedure body.statements.now }
    requires plain { memo_of setting.program.now.codes callee.procedure ≡ false }
    ensures came { result ≡ true → ((statement : ℕ) → GoesAhead (lent setting.entry)
        (evaluated statement (entry_at setting.entry.tables.now.tables machine.old.top.slots
        (slots_of setting.entry.program.now.codes callee.entry.procedure) (map plain callee.entry.arguments.now))
        (nested_plain statement callee.entry.way callee.entry.into (Work.Block callee.entry.next) callee.entry.procedure)) machine.old machine.new) }
    ensures unchanged { result ≡ false → machine.new ≡ machine.old }
    ensures running { machine.new.phase ≡ Phase.Running }
{
    if machine.top.procedure() != callee.procedure || is_spawn(callee.way) {
        return false;
    }
    if !setting.program.hints(callee.procedure).own {
        return false;
    }
    find_at_once(machine, setting, callee, body)
}

/// Calls that instance, which is of the topmost one's procedure, where its value is found without an instance on the strand.
#[inline(never)]
fn find_at_once<V: View>(
    machine: &mut Machine<V>,
    setting: Setting<'_>,
    callee: Callee<'_>,
    body: Body<'_>,
) -> bool
    requires kinds { machine.old.layer.kinds ≡ setting.program.now.kinds }
    requires running { machine.old.phase ≡ Phase.Running }
    requires own { machine.old.top.procedure ≡ callee.procedure }
    requires size { body.size ≡ slots_of setting.program.now.codes callee.procedure }
    requires body { IsBody setting.program.now.codes callee.procedure body.statements.now }
    requires plain { memo_of setting.program.now.codes callee.procedure ≡ false }
    ensures came { result ≡ true → ((statement : ℕ) → GoesAhead (lent setting.entry)
        (evaluated statement (entry_at setting.entry.tables.now.tables machine.old.top.slots
        (slots_of setting.entry.program.now.codes callee.entry.procedure) (map plain callee.entry.arguments.now))
        (nested_plain statement callee.entry.way callee.entry.into (Work.Block callee.entry.next) callee.entry.procedure)) machine.old machine.new) }
    ensures unchanged { result ≡ false → machine.new ≡ machine.old }
    ensures running { machine.new.phase ≡ Phase.Running }
{
    let left = machine.top.left();
    if machine.top.slots().len() != body.size {
        return false;
    }
    if !has_room_above(machine) {
        return false;
    }
    let Some(_) = machine.top.children().checked_add(1) else {
        return false;
    };
    let mut least = left;
    let own = Own {
        procedure: callee.procedure,
        body: body.statements,
        left,
    };
    let enters = Enters {
        way: callee.way,
        callee: callee.procedure,
        arguments: callee.arguments,
    };
    match called(
        setting.program,
        own,
        machine.top.slots(),
        enters,
        &mut least,
    ) {
        Some(value) => {
            machine.top.wait_at(false, callee.into, callee.next);
            machine.top.receive(value);
            machine
                .layer
                .enter(callee.procedure, DEEPEST.saturating_sub(least));
            true
        }
        None => false,
    }
}

/// Whether no instance above the topmost one begins the strand or owns the topmost layer.
#[inline(always)]
pub(crate) fn has_room_above<V: View>(machine: &Machine<V>) -> bool
    ensures room { result ≡ true → HasRoomAbove machine.now }
{
    begins_no_higher(machine) && !machine.tally.owns_from(machine.path.len() + 1)
}

/// Whether the strand begins in no instance above its topmost one.
#[inline(always)]
fn begins_no_higher<V: View>(machine: &Machine<V>) -> bool
    ensures entry { result ≡ true → (path : List ℕ) → length machine.now.path < length path → entry_by machine.now.start path ≡ false }
{
    match machine.start {
        Start::Root => true,
        Start::Behind { depth, child: _ } => depth <= machine.path.len(),
    }
}

/// Calls that instance, whose procedure isn't marked memo, and does the statements that it does by itself. It stands on the strand
/// only where it has more to do.
#[inline(always)]
fn child_ahead<V: View>(
    machine: &mut Machine<V>,
    alloc: Global,
    setting: Setting<'_>,
    callee: Callee<'_>,
    body: Body<'_>,
) -> Came
    requires kinds { machine.old.layer.kinds ≡ setting.program.now.kinds }
    requires running { machine.old.phase ≡ Phase.Running }
    requires size { body.size ≡ slots_of setting.program.now.codes callee.procedure }
    requires body { IsBody setting.program.now.codes callee.procedure body.statements.now }
    requires plain { memo_of setting.program.now.codes callee.procedure ≡ false }
    ensures came { CameBy result (machine.new ≡ machine.old)
        ((statement : ℕ) → GoesAhead (lent setting.entry)
        (evaluated statement (entry_at setting.entry.tables.now.tables machine.old.top.slots
        (slots_of setting.entry.program.now.codes callee.entry.procedure) (map plain callee.entry.arguments.now))
        (nested_plain statement callee.entry.way callee.entry.into (Work.Block callee.entry.next) callee.entry.procedure)) machine.old machine.new) }
    ensures running { machine.new.phase ≡ Phase.Running }
{
    let left = machine.top.left();
    if left == 0 || !has_room_above(machine) {
        return Came::Nowhere;
    }
    let Some(_) = machine.top.children().checked_add(1) else {
        return Came::Nowhere;
    };
    let most = machine.spares.nest.above.len() + 1;
    if machine.path.reserve(most).is_err() || machine.below.reserve(most).is_err() {
        return Came::Nowhere;
    }
    if !fills(
        &mut machine.layer,
        &mut machine.spares.nest.child,
        &machine.top,
        body.size,
        callee.arguments,
        setting.tables,
    ) {
        return Came::Nowhere;
    }
    machine
        .top
        .wait_at(is_spawn(callee.way), callee.into, callee.next);
    let begun = Begun {
        procedure: callee.procedure,
        body: body.statements,
        left: left - 1,
    };
    match call_over(
        &mut machine.layer,
        setting,
        begun,
        &mut machine.spares.nest,
        &mut machine.numbers,
    ) {
        Ended::Gave(value) => {
            machine.top.receive(value);
            Came::Back
        }
        Ended::Stopped(more) => {
            put_on_top(
                &mut machine.path,
                &mut machine.below,
                &mut machine.top,
                &mut machine.spares,
                alloc,
                more,
            );
            Came::Stays
        }
    }
}

/// Puts the instance that was begun on top of the one that has called it and waits for it, and on top of that so many others, each of
/// which was called by the one below it. There is room for them.
#[inline(never)]
pub(crate) fn put_on_top(
    path: &mut Vec<usize>,
    below: &mut Vec<Activation>,
    top: &mut Activation,
    spares: &mut Spares,
    alloc: Global,
    more: usize,
)
    requires path_room { vec_len path.old + more < vec_capacity path.old }
    requires below_room { vec_len below.old + more < vec_capacity below.old }
    ensures stacked { (m : PlainLayer) (s : PlainStrand) → s.path ≡ path.old.items → s.below ≡ reverse below.old.items
        → stacked (suc more) top.old (spares.old.nest.child ∷ spares.old.nest.above.items) m s
        ≡ topped Phase.Running top.new m (under path.new.items (reverse below.new.items) s) }
{
    let blank = spares.blank(alloc);
    let child = mem::replace(&mut spares.nest.child, blank);
    put_over(path, below, top, child);
    put_all(path, below, top, spares, alloc, more);
}

/// Puts so many instances that were begun on top of one that waits, each of which was called by the one below it. There is room for them.
#[inline(never)]
fn put_all(
    path: &mut Vec<usize>,
    below: &mut Vec<Activation>,
    top: &mut Activation,
    spares: &mut Spares,
    alloc: Global,
    more: usize,
)
    requires path_room { vec_len path.old + more ≤ vec_capacity path.old }
    requires below_room { vec_len below.old + more ≤ vec_capacity below.old }
    ensures stacked { (m : PlainLayer) (s : PlainStrand) → s.path ≡ path.old.items → s.below ≡ reverse below.old.items
        → stacked more top.old spares.old.nest.above.items m s
        ≡ topped Phase.Running top.new m (under path.new.items (reverse below.new.items) s) }
{
    let most = more.min(spares.nest.above.len());
    for place in 0..most {
        let blank = spares.blank(alloc);
        let next = take_at(&mut spares.nest.above, place, blank);
        put_over(path, below, top, next);
    }
}

/// Takes the instance at that place, and puts another one there.
#[inline(always)]
fn take_at(above: &mut Vec<Activation>, place: usize, blank: Activation) -> Activation
    requires within { place < length above.old.items }
    ensures there { slice_get above.old.items place ≡ Some result }
    ensures left { above.new.items ≡ slice_set above.old.items place blank }
    ensures long { length above.new.items ≡ length above.old.items }
{
    mem::replace(&mut above[place], blank)
}

/// Puts so many instances that were begun on top of one that waits, as `put_all` does. Mostly there are none.
#[inline(always)]
pub(crate) fn put_any(
    path: &mut Vec<usize>,
    below: &mut Vec<Activation>,
    top: &mut Activation,
    spares: &mut Spares,
    alloc: Global,
    more: usize,
)
    requires path_room { vec_len path.old + more ≤ vec_capacity path.old }
    requires below_room { vec_len below.old + more ≤ vec_capacity below.old }
    ensures stacked { (m : PlainLayer) (s : PlainStrand) → s.path ≡ path.old.items → s.below ≡ reverse below.old.items
        → stacked more top.old spares.old.nest.above.items m s
        ≡ topped Phase.Running top.new m (under path.new.items (reverse below.new.items) s) }
{
    if more == 0 {
        return;
    }
    put_all(path, below, top, spares, alloc, more);
}

/// Puts an instance on top of the one that has called it and waits for it. There is room for both.
#[inline(always)]
fn put_over(
    path: &mut Vec<usize>,
    below: &mut Vec<Activation>,
    top: &mut Activation,
    next: Activation,
)
    requires path_room { vec_len path.old < vec_capacity path.old }
    requires below_room { vec_len below.old < vec_capacity below.old }
    ensures path { path.new.items ≡ path.old.items ++ top.old.children ∷ [] }
    ensures path_len { vec_len path.new ≡ vec_len path.old + 1 }
    ensures path_capacity { vec_capacity path.new ≡ vec_capacity path.old }
    ensures top { top.new ≡ next }
    ensures below { below.new.items ≡ below.old.items ++ top.old ∷ [] }
    ensures below_len { vec_len below.new ≡ vec_len below.old + 1 }
    ensures below_capacity { vec_capacity below.new ≡ vec_capacity below.old }
{
    path.push_reserved(top.children());
    below.push_reserved(mem::replace(top, next));
}
