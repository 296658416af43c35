//! Iterations that are recorded in one go: whether a half's may be, what is made ready for them, and the argument of the last one.
ghost use Rattle.std.specs.Prelude.{◌≡◌, ◌≤◌, ◌<◌, ◌+◌, ◌^◌, ◌==◌, [], true, false, OnErr, OnOk, map};
ghost use Rattle.linked_program.specs.CodeView.{expression as plain, memo_of};
ghost use Rattle.positions.specs.Activations.{ShareFits};
ghost use Rattle.own_statements.specs.Fills.{IsCounted};
ghost use Rattle.running_ahead.specs.Chains.{IsClear};
ghost use Rattle.running_ahead.specs.Leaves.{arguments_then};

use crate::called_halves::{MOST, has_room};
use crate::plain::are_recorded;
use activations::activation::Activation;
use activations::code::{LoopCode, loop_code};
use activations::shares::{behind, number_of};
use activations::spares::Spares;
use evaluation::slot::Slot;
use linked_program::checked::Checked;
use own_statements::filling::is_counted;
use positions::phase::Phase;
use positions::work::{Loop, Share, Work};
use small_steps::machine::Machine;
use std::alloc::{AllocError, Global};
use std::mem;
use view_pool::View;

/// Whether so many iterations of the topmost instance's half may be recorded in one go: they are few, of a procedure that is marked memo and
/// does its statements by itself, and there is room for them.
pub fn may_record<V: View>(
    machine: &Machine<V>,
    program: &Checked,
    code: LoopCode<'_>,
    count: u32,
) -> bool
    ensures memo { result ≡ true → memo_of program.now.codes code.entry.callee ≡ true }
    ensures counted { result ≡ true → IsCounted machine.now.top.slots code.entry.variable (map plain code.entry.arguments.now) }
    ensures deep { result ≡ true → (machine.now.top.left == 0) ≡ false }
    ensures children { result ≡ true → machine.now.top.children + 1024 < 2 ^ 64 }
    ensures clear { result ≡ true → IsClear machine.now }
    ensures few { result ≡ true → count ≤ 256 }
{
    if count > MOST || !are_recorded(program, code.callee) {
        return false;
    }
    is_counted(&machine.top, code.variable, code.arguments) && has_room(machine)
}

/// Whether iterations of the topmost instance's half, and of the halves in it, may be recorded in one go, where they are few. Nothing is claimed of
/// it: where they can't be recorded, they are done one by one.
pub fn records_halves<V: View>(machine: &Machine<V>, program: &Checked) -> bool {
    match machine.phase {
        Phase::Running => match machine.top.work() {
            Work::Halves(site, _, _) => {
                let code = loop_code(program, machine.top.procedure(), site);
                are_recorded(program, code.callee)
                    && is_counted(&machine.top, code.variable, code.arguments)
            }
            _ => false,
        },
        _ => false,
    }
}

/// Has room for an argument, and an instance ready that has so many slots; not where memory is refused.
#[inline(always)]
pub fn make_ready<V: View>(machine: &mut Machine<V>, alloc: Global, size: usize) -> bool
    ensures same { machine.new ≡ machine.old }
{
    if machine.arguments.reserve(1).is_err() {
        return false;
    }
    machine.spares.make_nest(alloc);
    make_child(&mut machine.spares, alloc, size)
}

/// Has an instance ready that has so many slots; not where memory is refused.
#[inline(always)]
fn make_child(spares: &mut Spares, alloc: Global, size: usize) -> bool {
    if spares.nest.child.slots().len() == size {
        return true;
    }
    let mut slots = spares.slots(alloc);
    if slots.resize(size, Slot::Unset).is_err() {
        return false;
    }
    let places = spares.places(alloc);
    let child = Activation::new(0, slots, places, Work::Over, 0);
    let over = mem::replace(&mut spares.nest.child, child);
    spares.keep(over);
    true
}

/// After so many of a loop's iterations, the argument of the last one. There is room for it: else the strand couldn't go on.
#[inline(always)]
pub fn put_last(
    arguments: &mut Vec<i64>,
    site: Loop,
    share: Share,
    done: u32,
) -> Result<(), AllocError>
    requires fits { ShareFits site share }
    requires some { done ≤ share.count }
    ensures put { OnOk result (arguments.new.items ≡ arguments_then done site share arguments.old.items) }
    ensures refused { OnErr result (arguments.new.items ≡ []) }
{
    if done == 0 {
        return Ok(());
    }
    arguments.clear();
    arguments.push(number_of(site, behind(site, share, done - 1)))?;
    Ok(())
}
