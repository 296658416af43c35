//! Strands that begin, and what is taken out of a strand and put back.
ghost use Rattle.std.specs.Prelude.{◌≡◌, ◌∷◌, [], IfOk, IfErr, OnOk, OnErr};
ghost use Rattle.evaluation.specs.Slots.{slots_for};
ghost use Rattle.positions.specs.Moves.{first_strand, stolen, stolen_with, inlined, detached, attached, returned_of, resumed, at_update};
ghost use Rattle.strand_moves.specs.Bare.{IsBare};

use crate::task::Task;
use activations::code::loop_code;
use activations::spares::Spares;
use evaluation::slot::Slot;
use layers::layer::Layer;
use layers::spares::SpareLists;
use layers::tally::Tally;
use linked_program::checked::Checked;
use positions::phase::Phase;
use positions::start::Start;
use positions::work::Work;
use small_steps::machine::Machine;
use std::alloc::{AllocError, Global};
use std::mem;
use strand_parts::ends::is_update;
use strand_parts::instances::{call, main_instance, put_parent, receive, take_parent};
use strand_parts::layering::{first_layer, thief_layer};
use view_pool::{Kit, View};

/// So many slots without values.
fn unset(alloc: Global, size: usize) -> Result<Vec<Slot>, AllocError>
    ensures slots { IfOk result (λ v. v.items ≡ slots_for size []) }
{
    let mut slots = Vec::new(alloc);
    slots.resize(size, Slot::Unset)?;
    Ok(slots)
}

/// The strand of a run's beginning, in which `main` is to be entered; refused for want of memory alone, and then the kit is handed back.
pub fn first<V: View>(
    alloc: Global,
    program: &Checked,
    kit: Kit<V>,
) -> Result<Machine<V>, (AllocError, Kit<V>)>
    requires kinds { kit ≡ program.now.kinds }
    ensures first { IfOk result (λ machine. machine ≡ first_strand program.now.codes kit program.now.initials program.now.main) }
    ensures kinds { IfOk result (λ machine. machine.layer.kinds ≡ kit) }
    ensures handed_back { IfErr result (λ e. e.1 ≡ kit) }
{
    let main = program.main();
    let slots = match unset(alloc, program.slots(main)) {
        Ok(slots) => slots,
        Err(AllocError) => return Err((AllocError, kit)),
    };
    let layer = match first_layer(alloc, program, kit) {
        Ok(layer) => layer,
        Err(refused) => return Err(refused),
    };
    Ok(Machine {
        start: Start::Root,
        layer,
        lower: Vec::new(alloc),
        path: Vec::new(alloc),
        place: Vec::new(alloc),
        top: main_instance(alloc, main, slots),
        below: Vec::new(alloc),
        phase: Phase::Entering,
        arguments: Vec::new(alloc),
        tally: Tally::new(alloc),
        numbers: Vec::new(alloc),
        spares: Spares::new(alloc),
        lists: SpareLists::new(alloc),
    })
}

/// In a strand that holds nothing that of a stolen continuation begins, whose layer keeps readings where a memo instance may be around it, and
/// goes on with the lists that lie there; refused for want of memory alone, and then the continuation and the kit are handed back.
#[inline(always)]
pub fn begin_stolen<V: View>(
    machine: &mut Machine<V>,
    program: &Checked,
    task: Task,
    kit: Kit<V>,
) -> Result<(), (AllocError, Task, Kit<V>)>
    requires bare { IsBare machine.old }
    ensures stolen { OnOk result (machine.new ≡ stolen program.now.codes kit task) }
    ensures bare { OnErr result (IsBare machine.new) }
    ensures task_back { IfErr result (λ e. e.1 ≡ task) }
    ensures kit_back { IfErr result (λ e. e.2 ≡ kit) }
{
    let alloc = *machine.path.allocator();
    let layer = match thief_layer(alloc, program, kit, &mut machine.lists) {
        Ok(layer) => layer,
        Err((error, kit)) => return Err((error, task, kit)),
    };
    begin_behind(machine, task, layer);
    Ok(())
}

/// In a strand that holds nothing that of a continuation begins, with that layer.
#[inline(always)]
fn begin_behind<V: View>(machine: &mut Machine<V>, task: Task, layer: Layer<V>)
    requires bare { IsBare machine.old }
    ensures stolen { machine.new ≡ stolen_with layer task }
{
    let Task {
        mut place,
        mut top,
        below,
    } = task;
    let _ = place.pop();
    machine.start = Start::Behind {
        depth: place.len(),
        child: top.children(),
    };
    top.mark();
    machine.layer = layer;
    machine.path = place;
    machine.top = top;
    machine.below = below;
    machine.phase = Phase::Running;
}

/// Records may come of each iteration of a loop's second half with which a stolen strand begins, but no more than `most`: room for all of them
/// is made as they come. It takes no memory.
pub fn expect_records<V: View>(machine: &mut Machine<V>, program: &Checked, most: u32)
    ensures same { machine.new ≡ machine.old }
{
    match records_ahead(machine, program) {
        Some(records) => machine.tally.expect(records.min(most)),
        None => {}
    }
}

/// How many iterations there are, where the topmost instance is the second half of a loop over a memo procedure.
fn records_ahead<V: View>(machine: &Machine<V>, program: &Checked) -> Option<u32> {
    match machine.top.work() {
        Work::Second(site, _, share) => {
            let code = loop_code(program, machine.top.procedure(), site);
            if program.is_memo(code.callee) {
                Some(share.count)
            } else {
                None
            }
        }
        _ => None,
    }
}

/// At a spawn: takes out the parent and what waits below it, and leaves the child alone, which is to be entered.
pub fn take_out<V: View>(machine: &mut Machine<V>, alloc: Global) -> Task
    requires at_spawn { machine.old.phase ≡ Phase.AtSpawn }
    ensures task { machine.old.below ≡ result.top ∷ result.below }
    ensures place { result.place ≡ machine.old.path }
    ensures child { machine.new ≡ detached machine.old }
{
    machine.phase = Phase::Entering;
    let name = machine.spares.name(alloc);
    let waiting = machine.spares.waiting(alloc);
    let place = mem::replace(&mut machine.place, name);
    let mut below = mem::replace(&mut machine.below, waiting);
    let top = take_parent(&mut below, &mut machine.top);
    Task { place, top, below }
}

/// Puts a continuation back below the child.
pub fn put_back<V: View>(machine: &mut Machine<V>, task: Task)
    requires bare { machine.old.below ≡ [] }
    ensures called { machine.new ≡ attached task machine.old }
{
    let Task {
        place,
        top,
        mut below,
    } = task;
    put_parent(&mut below, top);
    machine.below = below;
    machine.place = place;
}

/// At a spawn: makes the child a call, which is to be entered.
pub fn call_child<V: View>(machine: &mut Machine<V>)
    ensures called { machine.new ≡ inlined machine.old }
{
    call(&mut machine.phase);
}

/// The value of the spawned child, where it has returned.
pub fn returned<V: View>(machine: &Machine<V>) -> Option<i64>
    ensures returned { result ≡ returned_of machine.now }
{
    match machine.phase {
        Phase::Leaving(value) if machine.below.is_empty() && !machine.path.is_empty() => Some(
            value,
        ),
        _ => None,
    }
}

/// Where the spawned child has returned: goes on with a continuation.
pub fn go_on_with<V: View>(machine: &mut Machine<V>, task: Task)
    ensures resumed { machine.new ≡ resumed task machine.old }
{
    if let Some(value) = returned(machine) {
        let Task {
            place,
            mut top,
            below,
        } = task;
        receive(&mut top, value);
        let over = mem::replace(&mut machine.top, top);
        let waiting = mem::replace(&mut machine.below, below);
        let name = mem::replace(&mut machine.place, place);
        machine.spares.keep_child(over, waiting, name);
        let _ = machine.path.pop();
        machine.phase = Phase::Running;
    }
}

/// Whether the next small step is that of an update.
pub fn updates_next<V: View>(machine: &Machine<V>, program: &Checked) -> bool
    ensures update { result ≡ at_update program.now.codes machine.now }
{
    match machine.phase {
        Phase::Running => is_update(machine.next_statement(program)),
        _ => false,
    }
}
