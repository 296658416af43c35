// Memo instances that are called and spawned: their arguments are kept, by which a record of them is looked up.
ghost use Rattle.std.specs.Prelude.{◌≡◌, [], true, false, ◌<◌, OnErr, OnOk, IfOk, map};
ghost use Rattle.linked_program.specs.CodeView.{expression as plain, memo_of};
ghost use Rattle.evaluation.specs.Slots.{padded, slots_for};
ghost use Rattle.evaluation.specs.Values.{values_at};
ghost use Rattle.positions.specs.Activations.{WorkFits};
ghost use Rattle.positions.specs.Advance.{answer_for, evaluated, nested, nested_memo, pushed, recalled};
ghost use Rattle.activations.specs.Given.{lent};
ghost use Rattle.small_steps.specs.Steps.{HoldsFor, IsSuppliedBy, IsValued, KeepsAllKits, took_back};

use crate::machine::Machine;
use activations::activation::{Activation, FIRST, Waiting};
use activations::setting::Setting;
use evaluation::slot::Slot;
use linked_program::code::Expression;
use meaning::FaultKind;
use meaning::tree::Way;
use positions::phase::Phase;
use positions::work::{Position, Work};
use std::alloc::{AllocError, Global};
use std::mem;
use view_pool::{Kit, KitSource, View};

/// How an instance is entered: at that statement, called or spawned, for the value in that slot, with that left behind it, and
/// as one of that procedure.
#[derive(Clone, Copy)]
pub(crate) struct Entrance {
    pub(crate) statement: u32,
    pub(crate) way: Way,
    pub(crate) into: Option<usize>,
    pub(crate) work: Work,
    pub(crate) callee: usize,
}

/// The slots of an instance of so many names that is entered with these values, in that empty list.
#[inline(always)]
fn slots_with(room: Vec<Slot>, size: usize, values: &[i64]) -> Result<Vec<Slot>, AllocError>
    requires empty { room.items ≡ [] }
    ensures slots { IfOk result (λ v. v.items ≡ slots_for size values.now) }
{
    let mut slots = room;
    slots.reserve(size)?;
    for value in values {
        slots.push(Slot::Has(*value))?;
    }
    fill_up(&mut slots, size)?;
    Ok(slots)
}

/// Brings the slots to so many, those behind without a value. Most instances have few of these, which are put in one by one: that is
/// quicker than a call.
#[inline(always)]
fn fill_up(slots: &mut Vec<Slot>, size: usize) -> Result<(), AllocError>
    ensures padded { OnOk result (slots.new.items ≡ padded size slots.old.items) }
{
    put_unset(slots, size)?;
    put_unset(slots, size)?;
    if slots.len() == size {
        return Ok(());
    }
    slots.resize(size, Slot::Unset)
}

/// Puts in a slot without a value, where there are fewer than so many.
#[inline(always)]
fn put_unset(slots: &mut Vec<Slot>, size: usize) -> Result<(), AllocError>
    ensures same { OnOk result (padded size slots.new.items ≡ padded size slots.old.items) }
{
    if slots.len() < size {
        slots.push(Slot::Unset)?;
    }
    Ok(())
}

impl<V: View> Machine<V> {
    /// Calls or spawns an instance of a memo procedure, or is faulted at that statement.
    pub(crate) fn enter_memo<K: KitSource<Kit<V>>>(
        &mut self,
        alloc: Global,
        setting: Setting<'_>,
        entrance: Entrance,
        arguments: &[Expression],
        kits: &mut K,
    ) -> Result<(), AllocError>
        requires fits { WorkFits entrance.work }
        requires running { self.old.phase ≡ Phase.Running }
        requires memo { memo_of setting.program.now.codes entrance.callee ≡ true }
        requires supplied { IsSuppliedBy K.KitSource setting kits.old self.old }
        ensures entered { OnOk result (HoldsFor K.KitSource kits.old
            (λ kit. self.new ≡ evaluated entrance.statement
            (values_at setting.entry.tables.now.tables self.old.top.slots (map plain arguments.now))
            (nested_memo (lent setting.entry) kit entrance.statement entrance.way entrance.into entrance.work entrance.callee)
            self.old)) }
        ensures refused { OnErr result (IsValued self.old self.new) }
        ensures kits { KeepsAllKits K.KitSource setting.entry.program.now.kinds kits.old kits.new self.old self.new }
    {
        let mut numbers = mem::replace(&mut self.numbers, Vec::new(alloc));
        let outcome = self.enter_memo_by(alloc, setting, entrance, arguments, &mut numbers, kits);
        self.numbers = numbers;
        outcome
    }

    /// Enters the memo instance by its arguments, which are put into `numbers`.
    fn enter_memo_by<K: KitSource<Kit<V>>>(
        &mut self,
        alloc: Global,
        setting: Setting<'_>,
        entrance: Entrance,
        arguments: &[Expression],
        numbers: &mut Vec<i64>,
        kits: &mut K,
    ) -> Result<(), AllocError>
        requires fits { WorkFits entrance.work }
        requires running { self.old.phase ≡ Phase.Running }
        requires memo { memo_of setting.program.now.codes entrance.callee ≡ true }
        requires supplied { IsSuppliedBy K.KitSource setting kits.old self.old }
        ensures entered { OnOk result (HoldsFor K.KitSource kits.old
            (λ kit. self.new ≡ evaluated entrance.statement
            (values_at setting.entry.tables.now.tables self.old.top.slots (map plain arguments.now))
            (nested_memo (lent setting.entry) kit entrance.statement entrance.way entrance.into entrance.work entrance.callee)
            self.old)) }
        ensures refused { OnErr result (IsValued self.old self.new) }
        ensures kits { KeepsAllKits K.KitSource setting.entry.program.now.kinds kits.old kits.new self.old self.new }
    {
        let before = self.layer.readings();
        match self.values(setting.tables, entrance.statement, arguments, numbers)? {
            Some(()) => match self.nest_memo(alloc, setting, entrance, numbers, kits) {
                Ok(()) => Ok(()),
                Err(AllocError) => {
                    self.forget(before);
                    Err(AllocError)
                }
            },
            None => Ok(()),
        }
    }

    /// Enters an instance of a memo procedure with those arguments; or too deep.
    #[inline(always)]
    pub(crate) fn nest_memo<K: KitSource<Kit<V>>>(
        &mut self,
        alloc: Global,
        setting: Setting<'_>,
        entrance: Entrance,
        numbers: &mut Vec<i64>,
        kits: &mut K,
    ) -> Result<(), AllocError>
        requires fits { WorkFits entrance.work }
        requires running { self.old.phase ≡ Phase.Running }
        requires memo { memo_of setting.program.now.codes entrance.callee ≡ true }
        requires supplied { IsSuppliedBy K.KitSource setting kits.old self.old }
        ensures nested { OnOk result (HoldsFor K.KitSource kits.old
            (λ kit. self.new ≡ nested_memo (lent setting.entry)
            kit entrance.statement entrance.way entrance.into entrance.work entrance.callee numbers.old.items self.old)) }
        ensures refused { OnErr result (IsValued self.old self.new) }
        ensures kits { KeepsAllKits K.KitSource setting.entry.program.now.kinds kits.old kits.new self.old self.new }
    {
        let room = self.spares.slots(alloc);
        let slots = slots_with(room, setting.program.slots(entrance.callee), numbers)?;
        let places = self.spares.places(alloc);
        mem::swap(&mut self.arguments, numbers);
        match self.nest_remembered(alloc, setting, entrance, slots, places, kits) {
            Ok(()) => Ok(()),
            Err(AllocError) => {
                mem::swap(&mut self.arguments, numbers);
                Err(AllocError)
            }
        }
    }

    /// Enters an instance of a memo procedure, whose arguments are kept, with those slots and that empty list for places; or too deep.
    #[inline(always)]
    fn nest_remembered<K: KitSource<Kit<V>>>(
        &mut self,
        alloc: Global,
        setting: Setting<'_>,
        entrance: Entrance,
        slots: Vec<Slot>,
        places: Vec<Position>,
        kits: &mut K,
    ) -> Result<(), AllocError>
        requires empty { places.items ≡ [] }
        requires fits { WorkFits entrance.work }
        requires running { self.old.phase ≡ Phase.Running }
        requires memo { memo_of setting.program.now.codes entrance.callee ≡ true }
        requires supplied { IsSuppliedBy K.KitSource setting kits.old self.old }
        ensures nested { OnOk result (HoldsFor K.KitSource kits.old
            (λ kit. self.new ≡ nested (lent setting.entry)
            kit entrance.statement entrance.way entrance.into entrance.work entrance.callee slots.items self.old)) }
        ensures refused { OnErr result (IsValued self.old self.new) }
        ensures kits { KeepsAllKits K.KitSource setting.entry.program.now.kinds kits.old kits.new self.old self.new }
    {
        let left = self.top.left();
        if left == 0 {
            self.fault(entrance.statement, FaultKind::TooDeep);
            return Ok(());
        }
        let child = Activation::new(entrance.callee, slots, places, Work::Block(FIRST), left - 1);
        match entrance.way {
            Way::Call => self.call_memo(alloc, setting, child, entrance, kits),
            Way::Spawn => self.push_spawned(child, entrance.work, entrance.into),
        }
    }

    /// Calls a memo child: a record answers it, or it begins.
    #[inline(always)]
    fn call_memo<K: KitSource<Kit<V>>>(
        &mut self,
        alloc: Global,
        setting: Setting<'_>,
        child: Activation,
        entrance: Entrance,
        kits: &mut K,
    ) -> Result<(), AllocError>
        requires fits { WorkFits entrance.work }
        requires running { self.old.phase ≡ Phase.Running }
        requires supplied { IsSuppliedBy K.KitSource setting kits.old self.old }
        ensures recalled { OnOk result (HoldsFor K.KitSource kits.old
            (λ kit. self.new ≡ recalled (lent setting.entry) kit
            (answer_for (lent setting.entry) (pushed child false entrance.into entrance.work Phase.Entering self.old))
            (pushed child false entrance.into entrance.work Phase.Entering self.old))) }
        ensures refused { OnErr result (IsValued self.old self.new) }
        ensures kits { KeepsAllKits K.KitSource setting.entry.program.now.kinds kits.old kits.new self.old self.new }
    {
        let before = self.top.waiting();
        self.push_called(child, entrance.work, entrance.into, Phase::Entering)?;
        match self.recall(alloc, setting, kits) {
            Ok(()) => Ok(()),
            Err(AllocError) => {
                self.take_back(before);
                Err(AllocError)
            }
        }
    }

    /// Takes a called child away again; the instance under it waits as it did before.
    fn take_back(&mut self, before: Waiting)
        requires fits { WorkFits before.work }
        ensures taken { self.new ≡ took_back self.old.below before.spawned before.into before.work self.old }
    {
        if let Some(mut parent) = self.below.pop() {
            parent.wait_again(before);
            self.top = parent;
            let _ = self.path.pop();
            self.phase = Phase::Running;
        }
    }
}
