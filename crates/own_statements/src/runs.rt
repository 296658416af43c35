//! Runs of an instance over the topmost layer alone, and of those that it calls: these stand beside the strand, some levels deep, and on
//! it only where they have more to do than can be done so.
ghost use Rattle.std.specs.Prelude.{◌≡◌, ◌-◌, ◌+◌, ◌<◌, ◌^◌, true, false, Bool, List, None, Some, length};
ghost use Rattle.meaning.specs.Elision.{depth_limit};
ghost use Rattle.positions.specs.Activations.{PlainActivation, made, first_of, at, next_of as behind, outside};
ghost use Rattle.positions.specs.Code.{instruction_inside};
ghost use Rattle.positions.specs.Layers.{PlainLayer, entering};
ghost use Rattle.activations.specs.Given.{lent};
ghost use Rattle.own_statements.specs.Paths.{ComesTo, IsInBlock};
ghost use Rattle.own_statements.specs.Runs.{CallsTo, EndsBy, RunsTo, IsBlock, IsBody};

use crate::filling::fills;
use crate::ran::{Ended, Inside, Ran};
use crate::recursion::{Enters, Own, called, is_spawn};
use crate::statements::{Did, perform};
use activations::activation::{Activation, FIRST, next_of};
use activations::code::instructions;
use activations::setting::Setting;
use layers::layer::{DEEPEST, Layer};
use linked_program::checked::Checked;
use linked_program::code::{Instruction, Operation};
use positions::work::{Position, Work};
use view_pool::View;

// How many stretches of statements, each within a block, an instance does in one go.
const STRETCHES: u32 = 4096;

/// An instance that is entered: of that procedure, whose body those statements are; and so many levels are below it.
#[derive(Clone, Copy)]
pub struct Callee<'a> {
    pub procedure: usize,
    pub body: &'a [Instruction],
    pub left: u32,
}

/// Statements from a position on, in a block that has those.
#[derive(Clone, Copy)]
struct Rest<'a> {
    position: Position,
    statements: &'a [Instruction],
}

/// Does the statements that the instance has left, and those of the instances that it calls, as far as they are no loop and no read, spawn
/// nothing, call nothing that is marked memo, have no fault and take no memory that is refused; the value that the last one gives back, if
/// it does. Else those that have more to do stand in `above`.
#[inline(always)]
pub fn run<V: View>(
    layer: &mut Layer<V>,
    setting: Setting<'_>,
    passes_syncs: bool,
    top: &mut Activation,
    above: &mut [Activation],
    numbers: &mut Vec<i64>,
) -> Ended
    requires kinds { layer.old.kinds ≡ setting.program.now.kinds }
    ensures ahead { EndsBy (lent setting.entry) passes_syncs top.old layer.old result top.new above.new layer.new }
    ensures long { length above.new ≡ length above.old }
    ensures kinds { layer.new.kinds ≡ layer.old.kinds }
{
    match ran_to(setting, top) {
        Ran::On(position, statements) => {
            let rest = Rest {
                position,
                statements,
            };
            run_from(layer, setting, passes_syncs, rest, top, above, numbers)
        }
        Ran::Gave(value) => Ended::Gave(value),
        Ran::Stopped(waiting) => Ended::Stopped(waiting),
    }
}

/// Enters an instance with the slots that it has, and does its statements as `run` does.
#[inline(always)]
#[cycle(calling)]
pub fn call<V: View>(
    layer: &mut Layer<V>,
    setting: Setting<'_>,
    callee: Callee<'_>,
    child: &mut Activation,
    above: &mut [Activation],
    numbers: &mut Vec<i64>,
) -> Ended
    requires body { IsBody setting.program.now.codes callee.procedure callee.body.now }
    requires kinds { layer.old.kinds ≡ setting.program.now.kinds }
    ensures ahead { EndsBy (lent setting.entry) true
        (made callee.entry.procedure child.old.slots (Work.Block (first_of 0)) callee.entry.left)
        (entering callee.entry.procedure (depth_limit - callee.entry.left) layer.old) result child.new above.new layer.new }
    ensures long { length above.new ≡ length above.old }
    ensures kinds { layer.new.kinds ≡ layer.old.kinds }
{
    child.begin(callee.procedure, callee.left);
    layer.enter(callee.procedure, DEEPEST.saturating_sub(callee.left));
    let body = Rest {
        position: FIRST,
        statements: callee.body,
    };
    run_from(layer, setting, true, body, child, above, numbers)
}

/// Does the statements from that position on, as `run` does; the block there has those statements. What the instance has left isn't
/// looked at.
#[inline(always)]
#[cycle(calling)]
fn run_from<V: View>(
    layer: &mut Layer<V>,
    setting: Setting<'_>,
    passes_syncs: bool,
    rest: Rest<'_>,
    top: &mut Activation,
    above: &mut [Activation],
    numbers: &mut Vec<i64>,
) -> Ended
    requires block { IsBlock setting.program.now.codes top.old rest.position.block rest.statements.now }
    requires kinds { layer.old.kinds ≡ setting.program.now.kinds }
    ensures ahead { EndsBy (lent setting.entry) passes_syncs (at (Work.Block rest.entry.position) top.old) layer.old result
        top.new above.new layer.new }
    ensures long { length above.new ≡ length above.old }
    ensures kinds { layer.new.kinds ≡ layer.old.kinds }
{
    let (mut position, mut statements) = first(rest.position, rest.statements);
    for _ in 0..STRETCHES {
        let rest = Rest {
            position,
            statements,
        };
        match run_block(layer, setting, passes_syncs, rest, top, above, numbers) {
            Ran::On(next, others) => {
                position = next;
                statements = others;
            }
            Ran::Gave(value) => return Ended::Gave(value),
            Ran::Stopped(waiting) => return Ended::Stopped(waiting),
        }
    }
    top.stand(position);
    Ended::Stopped(0)
}

// The block that is first.
#[inline(always)]
fn first(position: Position, statements: &[Instruction]) -> (Position, &[Instruction])
    ensures position { result.0 ≡ position }
    ensures statements { result.1.now ≡ statements.now }
{
    (position, statements)
}

/// The statements from that position on, as far as the block's end or to one that leads elsewhere.
/// Updates call a view, so they stand apart: the machine code tests a flag behind each call that may come to one.
#[inline(always)]
#[cycle(calling)]
fn run_block<'a, V: View>(
    layer: &mut Layer<V>,
    setting: Setting<'a>,
    passes_syncs: bool,
    rest: Rest<'a>,
    top: &mut Activation,
    above: &mut [Activation],
    numbers: &mut Vec<i64>,
) -> Ran<'a>
    requires block { IsBlock setting.program.now.codes top.old rest.position.block rest.statements.now }
    requires kinds { layer.old.kinds ≡ setting.program.now.kinds }
    ensures ran { RunsTo (lent setting.entry) passes_syncs (at (Work.Block rest.entry.position) top.old) layer.old result
        top.new above.new layer.new }
    ensures long { length above.new ≡ length above.old }
    ensures kinds { layer.new.kinds ≡ layer.old.kinds }
{
    setting.program.short();
    let block = rest.position.block;
    let statements = rest.statements;
    let mut index = rest.position.index;
    while index < statements.len() {
        let position = Position { block, index };
        let statement = &statements[index];
        match perform(
            layer,
            setting,
            passes_syncs,
            position,
            statement,
            top,
            numbers,
        ) {
            Did::Next => {
                index += 1;
                continue;
            }
            Did::Moved => return ran_to(setting, top),
            Did::Gave(value) => {
                top.stand(position);
                return Ran::Gave(value);
            }
            Did::Nothing => {}
        }
        if let Operation::Enter(_, _, _, _) = &statement.operation {
            let site = Site {
                position,
                statement,
            };
            match enters(layer, setting, passes_syncs, site, top, above, numbers) {
                Inside::Back => {
                    index += 1;
                    continue;
                }
                Inside::Nothing => {
                    top.stand(position);
                    return Ran::Stopped(0);
                }
                Inside::Stays(waiting) => return Ran::Stopped(waiting),
            }
        }
        top.stand(position);
        return Ran::Stopped(0);
    }
    go_behind(top);
    ran_to(setting, top)
}

/// A statement at a position of a block.
#[derive(Clone, Copy)]
struct Site<'a> {
    position: Position,
    statement: &'a Instruction,
}

/// The statement there, where it calls an instance of a procedure that isn't marked memo, and what that does.
#[inline(always)]
#[cycle(calling)]
fn enters<V: View>(
    layer: &mut Layer<V>,
    setting: Setting<'_>,
    passes_syncs: bool,
    site: Site<'_>,
    top: &mut Activation,
    above: &mut [Activation],
    numbers: &mut Vec<i64>,
) -> Inside
    requires found { Some site.statement.now ≡ instruction_inside setting.program.now.codes top.old.procedure (length top.old.outer) site.position }
    requires room { site.position.index + 1 < 2 ^ 64 }
    requires kinds { layer.old.kinds ≡ setting.program.now.kinds }
    ensures called { CallsTo (lent setting.entry) passes_syncs site.entry.position top.old layer.old result top.new above.new layer.new }
    ensures long { length above.new ≡ length above.old }
    ensures kinds { layer.new.kinds ≡ layer.old.kinds }
{
    if !passes_syncs || !stays_beside(setting.program, site.statement) {
        return Inside::Nothing;
    }
    call_inside(layer, setting, site, top, above, numbers)
}

/// Whether the instance that a statement enters may be over without a place on the strand, so that it is worth a try. Nothing is
/// claimed of it.
#[inline(always)]
fn stays_beside(program: &Checked, statement: &Instruction) -> bool {
    match &statement.operation {
        Operation::Enter(_, _, callee, _) => program.hints(*callee).beside,
        _ => false,
    }
}

/// The same, where syncs may be passed. It is compiled by itself, since it comes back to itself.
#[inline(never)]
#[cycle(calling)]
fn call_inside<V: View>(
    layer: &mut Layer<V>,
    setting: Setting<'_>,
    site: Site<'_>,
    top: &mut Activation,
    above: &mut [Activation],
    numbers: &mut Vec<i64>,
) -> Inside
    requires found { Some site.statement.now ≡ instruction_inside setting.program.now.codes top.old.procedure (length top.old.outer) site.position }
    requires room { site.position.index + 1 < 2 ^ 64 }
    requires kinds { layer.old.kinds ≡ setting.program.now.kinds }
    ensures called { CallsTo (lent setting.entry) true site.entry.position top.old layer.old result top.new above.new layer.new }
    ensures long { length above.new ≡ length above.old }
    ensures kinds { layer.new.kinds ≡ layer.old.kinds }
{
    let Operation::Enter(into, way, callee, arguments) = &site.statement.operation else {
        return Inside::Nothing;
    };
    let program = setting.program;
    // (it is looked up here once, and not wherever a part of it is needed)
    let size = program.slots(*callee);
    let body = instructions(program, *callee, 0, 0);
    if top.left() == 0 || is_spawn(*way) || program.is_memo(*callee) {
        return Inside::Nothing;
    }
    let Some(_) = top.children().checked_add(1) else {
        return Inside::Nothing;
    };
    if found_inside(layer, setting, site, top) {
        return Inside::Back;
    }
    let Some((child, rest)) = above.split_first_mut() else {
        return Inside::Nothing;
    };
    let arguments = arguments.as_slice();
    if !fills(layer, child, top, size, arguments, setting.tables) {
        return Inside::Nothing;
    }
    let callee = Callee {
        procedure: *callee,
        body,
        left: top.left() - 1,
    };
    top.wait_at(false, *into, next_of(site.position));
    match call(layer, setting, callee, child, rest, numbers) {
        Ended::Gave(value) => {
            top.receive(value);
            Inside::Back
        }
        Ended::Stopped(waiting) => Inside::Stays(waiting + 1),
    }
}

/// The statement there, where it calls an instance of its own procedure whose value is found without one; whether it does.
#[inline(always)]
fn found_inside<V: View>(
    layer: &mut Layer<V>,
    setting: Setting<'_>,
    site: Site<'_>,
    top: &mut Activation,
) -> bool
    requires found { Some site.statement.now ≡ instruction_inside setting.program.now.codes top.old.procedure (length top.old.outer) site.position }
    requires room { site.position.index + 1 < 2 ^ 64 }
    ensures came { result ≡ true → ComesTo (lent setting.entry) true (at (Work.Block site.entry.position) top.old) layer.old None
        (at (Work.Block (behind site.entry.position)) top.new) layer.new }
    ensures same_block { result ≡ true → IsInBlock top.old top.new }
    ensures top { result ≡ false → top.new ≡ top.old }
    ensures layer { result ≡ false → layer.new ≡ layer.old }
    ensures kinds { layer.new.kinds ≡ layer.old.kinds }
{
    match &site.statement.operation {
        Operation::Enter(_, _, callee, _) => {
            *callee == top.procedure()
                && setting.program.hints(*callee).own
                && find_inside(layer, setting, site, top)
        }
        _ => false,
    }
}

/// The same, where it calls one of its own procedure.
#[inline(never)]
fn find_inside<V: View>(
    layer: &mut Layer<V>,
    setting: Setting<'_>,
    site: Site<'_>,
    top: &mut Activation,
) -> bool
    requires found { Some site.statement.now ≡ instruction_inside setting.program.now.codes top.old.procedure (length top.old.outer) site.position }
    requires room { site.position.index + 1 < 2 ^ 64 }
    ensures came { result ≡ true → ComesTo (lent setting.entry) true (at (Work.Block site.entry.position) top.old) layer.old None
        (at (Work.Block (behind site.entry.position)) top.new) layer.new }
    ensures same_block { result ≡ true → IsInBlock top.old top.new }
    ensures top { result ≡ false → top.new ≡ top.old }
    ensures layer { result ≡ false → layer.new ≡ layer.old }
    ensures kinds { layer.new.kinds ≡ layer.old.kinds }
{
    let Operation::Enter(into, way, callee, arguments) = &site.statement.operation else {
        return false;
    };
    let program = setting.program;
    let procedure = *callee;
    if procedure != top.procedure() || program.is_memo(procedure) {
        return false;
    }
    if top.slots().len() != program.slots(procedure) {
        return false;
    }
    let Some(_) = top.children().checked_add(1) else {
        return false;
    };
    let left = top.left();
    let mut least = left;
    let own = Own {
        procedure,
        body: instructions(program, procedure, 0, 0),
        left,
    };
    let enters = Enters {
        way: *way,
        callee: procedure,
        arguments: arguments.as_slice(),
    };
    match called(program, own, top.slots(), enters, &mut least) {
        Some(value) => {
            top.wait_at(false, *into, next_of(site.position));
            top.receive(value);
            layer.enter(procedure, DEEPEST.saturating_sub(least));
            true
        }
        None => false,
    }
}

/// Goes behind the innermost block. Where that is the outermost one, and nothing was left to do before, nothing is written.
#[inline(always)]
fn go_behind(top: &mut Activation)
    ensures outside { top.new ≡ outside top.old }
{
    if top.depth() == 0 && is_over(top) {
        return;
    }
    top.go_outside();
}

/// Whether an instance has nothing left to do.
#[inline(always)]
fn is_over(top: &Activation) -> bool
    ensures over { result ≡ true → top.now.work ≡ Work.Over }
{
    match top.work() {
        Work::Over => true,
        _ => false,
    }
}

/// Where an instance goes on; one that has nothing left gives 0 back.
#[inline(always)]
fn ran_to<'a>(setting: Setting<'a>, top: &Activation) -> Ran<'a>
    ensures runs { (passes : Bool) (l : PlainLayer) (xs : List PlainActivation) → RunsTo (lent setting.entry) passes top.now l result top.now xs l }
{
    match top.work() {
        Work::Over => Ran::Gave(0),
        Work::Block(position) => {
            let statements = instructions(
                setting.program,
                top.procedure(),
                top.depth(),
                position.block,
            );
            Ran::On(position, statements)
        }
        _ => Ran::Stopped(0),
    }
}
