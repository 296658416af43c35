//! An instance of a procedure or of a loop, by numbers.
ghost use Rattle.std.specs.Prelude.{◌≡◌, ◌+◌, ◌-◌, ◌<◌, ◌≤◌, ◌^◌, ◌∷◌, length, OnErr, OnOk, None, IfOk, map, [], true, false, slice_get, slice_set};
ghost use Rattle.evaluation.specs.declared.slot.Slot.TheVariants.{Has, Waits};
ghost use Rattle.linked_program.specs.CodeView.{expression as plain};
ghost use Rattle.evaluation.specs.Ends.{Answers, Ends};
ghost use Rattle.evaluation.specs.Values.{entry_at};
ghost use Rattle.positions.specs.Activations.{WorkFits, ShareFits, bound, at, waiting, made, inside, outside, next_of};
ghost use Rattle.activations.specs.Slots.{restored_slots, slot_in, emptied};
ghost use Rattle.activations.specs.Turned.{turned_by};
ghost use Rattle.evaluation.specs.Slots.{slots_for};
ghost use Rattle.positions.specs.Moves.{settled, settled_slot};

use crate::shares::behind;
use evaluation::entry::fill_slots;
use evaluation::notes::Notes;
use evaluation::slot::Slot;
use evaluation::stop::Stop;
use evaluation::unnoted;
use input_tables::Tables;
use linked_program::code::Expression;
use positions::work::{Loop, Position, Share, Work};
use std::alloc::{AllocError, Global};
use std::marker::Model;

/// The first position of an instance's code.
pub const FIRST: Position = Position { block: 0, index: 0 };

/// Of the instance that one entered last whether that was spawned, and the slot for its value; and what the one has left.
#[derive(Clone, Copy)]
pub struct Waiting {
    pub spawned: bool,
    pub into: Option<usize>,
    pub work: Work,
}

/// One instance: how many may be nested in it, how many it has entered, its procedure, its slots, the places behind its
/// innermost block, what it has left; and of the one that it entered last whether that was spawned, whether there is a slot for its
/// value, and which. The small ones stand together: it takes 128 bytes, and is moved without a call.
#[derive(Drop)]
pub struct Activation {
    left: u32,
    spawned: bool,
    has_into: bool,
    children: usize,
    procedure: usize,
    slots: Vec<Slot>,
    outer: Vec<Position>,
    work: Work,
    into: usize,
}

impl Model for Activation {
    ghost use Rattle.std.specs.Prelude.{reverse};
    ghost use Rattle.positions.specs.Activations.{PlainActivation, WorkFits};
    ghost use Rattle.activations.specs.Slots.{slot_in};

    ghost Value = { PlainActivation };

    ghost view = { λ a. record {
      left = a.left;
      children = a.children;
      procedure = a.procedure;
      slots = a.slots.items;
      outer = reverse a.outer.items;
      work = a.work;
      spawned = a.spawned;
      into = slot_in a.has_into a.into;
    } };

    ghost invariant = { λ a. WorkFits a.work };
}

impl Activation {
    /// An instance that begins, with those slots, an empty list for places, and so many levels below it.
    #[inline(always)]
    pub fn new(
        procedure: usize,
        slots: Vec<Slot>,
        outer: Vec<Position>,
        work: Work,
        left: u32,
    ) -> Activation
        requires fits { WorkFits work }
        requires empty { outer.items ≡ [] }
        ensures made { result ≡ made procedure slots.items work left }
    {
        Activation {
            left,
            spawned: false,
            has_into: false,
            children: 0,
            procedure,
            slots,
            outer,
            work,
            into: 0,
        }
    }

    /// Puts its slots in place: the values of those arguments over slots, as those of an instance of `size` names.
    #[inline(always)]
    pub fn fill(
        &mut self,
        size: usize,
        arguments: &[Expression],
        slots: &[Slot],
        tables: &Tables,
        notes: &mut Notes,
    ) -> Result<(), Stop>
        ensures ends { Ends (λ u. self.new.slots) (entry_at tables.now.tables slots.now size (map plain arguments.now)) notes.old notes.new result }
    {
        fill_slots(&mut self.slots, size, arguments, slots, tables, notes)
    }

    /// Puts its slots in place as `fill` does, where nothing is noted.
    #[inline(always)]
    pub fn fill_unnoted(
        &mut self,
        size: usize,
        arguments: &[Expression],
        slots: &[Slot],
        tables: &Tables,
    ) -> Result<(), Stop>
        ensures answer { Answers (λ u. self.new.slots) (entry_at tables.now.tables slots.now size (map plain arguments.now)) result }
    {
        unnoted::fill_slots(&mut self.slots, size, arguments, slots, tables)
    }

    /// Begins as an instance of that procedure, with the slots that it has; what it has left stays.
    #[inline(always)]
    pub fn begin(&mut self, procedure: usize, left: u32)
        ensures begun { self.new ≡ made procedure self.old.slots self.old.work left }
    {
        self.left = left;
        self.children = 0;
        self.procedure = procedure;
        self.outer.clear();
        self.spawned = false;
        self.has_into = false;
    }

    /// How many levels there are below it.
    pub fn left(&self) -> u32
        ensures left { result ≡ self.now.left }
    {
        self.left
    }

    /// How many instances it has entered.
    pub fn children(&self) -> usize
        ensures children { result ≡ self.now.children }
    {
        self.children
    }

    /// The number of its procedure.
    pub fn procedure(&self) -> usize
        ensures procedure { result ≡ self.now.procedure }
    {
        self.procedure
    }

    /// What it has left; the iterations fit.
    pub fn work(&self) -> Work
        ensures work { result ≡ self.now.work }
        ensures fits { WorkFits result }
    {
        self.work
    }

    /// How many blocks there are around its innermost one.
    pub fn depth(&self) -> usize
        ensures depth { result ≡ length self.now.outer }
    {
        self.outer.len()
    }

    /// Lends its slots.
    pub fn slots(&self) -> &[Slot]
        ensures slots { result.now ≡ self.now.slots }
    {
        &self.slots
    }

    /// A copy of its slots, in that empty list.
    pub fn copied_slots(&self, mut room: Vec<Slot>) -> Result<Vec<Slot>, AllocError>
        requires empty { room.items ≡ [] }
        ensures slots { IfOk result (λ v. v.items ≡ self.now.slots) }
    {
        room.extend_from_slice(&self.slots)?;
        Ok(room)
    }

    /// Its lists of slots and of places.
    pub(crate) fn into_lists(self) -> (Vec<Slot>, Vec<Position>) {
        let Activation { slots, outer, .. } = self;
        (slots, outer)
    }

    /// Gives its slots away.
    pub fn take_slots(&mut self, alloc: Global) -> Vec<Slot>
        ensures slots { result.items ≡ self.old.slots }
        ensures left { self.new ≡ record self.old { slots = [] } }
    {
        std::mem::replace(&mut self.slots, Vec::new(alloc))
    }

    /// Puts that into a slot, where there is such a slot.
    pub fn bind(&mut self, name: Option<usize>, slot: Slot)
        ensures bound { self.new ≡ bound name slot self.old }
    {
        if let Some(name) = name {
            if name < self.slots.len() {
                self.slots[name] = slot;
            }
        }
    }

    /// Puts its slots in place, where it has as many: those of an instance of `size` names that is entered with that number alone.
    /// Whether it has.
    #[inline(always)]
    pub fn put_number(&mut self, size: usize, number: i64) -> bool
        ensures put { result ≡ true → self.new ≡ record self.old { slots = slots_for size (number ∷ []) } }
        ensures unchanged { result ≡ false → self.new ≡ self.old }
    {
        if size == 0 || self.slots.len() != size {
            return false;
        }
        put_alone(&mut self.slots, number);
        true
    }

    /// Puts that into a slot, and gives what it held.
    pub fn exchange(&mut self, name: usize, slot: Slot) -> Option<Slot>
        ensures held { result ≡ slice_get self.old.slots name }
        ensures bound { self.new ≡ record self.old { slots = slice_set self.old.slots name slot } }
    {
        let held = self.slots.get(name).copied();
        self.bind(Some(name), slot);
        held
    }

    /// Puts back what a slot held.
    pub fn restore(&mut self, name: usize, held: Option<Slot>)
        ensures restored { self.new ≡ record self.old { slots = restored_slots name held self.old.slots } }
    {
        match held {
            None => {}
            Some(slot) => self.bind(Some(name), slot),
        }
    }

    /// Gives the value of the instance that it entered last to the slot for it.
    pub fn receive(&mut self, value: i64)
        ensures received { self.new ≡ bound self.old.into (Has value) self.old }
    {
        let into = slot_in(self.has_into, self.into);
        self.bind(into, Slot::Has(value));
    }

    /// Puts into the slot for the value of the instance that it entered last that it waits for it.
    pub fn mark(&mut self)
        ensures marked { self.new ≡ bound self.old.into (Waits self.old.children) self.old }
    {
        let into = slot_in(self.has_into, self.into);
        self.bind(into, Slot::Waits(self.children));
    }

    /// Has that left.
    pub fn set_work(&mut self, work: Work)
        requires fits { WorkFits work }
        ensures work { self.new ≡ at work self.old }
    {
        self.work = work;
    }

    /// Stands at that position.
    #[inline(always)]
    pub fn stand(&mut self, position: Position)
        ensures stands { self.new ≡ at (Work.Block position) self.old }
    {
        put_position(&mut self.work, position);
    }

    /// Has called or spawned one more instance, for whose value that slot is, and stands at that position.
    #[inline(always)]
    pub fn wait_at(&mut self, spawned: bool, into: Option<usize>, position: Position)
        requires room { self.old.children + 1 < 2 ^ 64 }
        ensures waiting { self.new ≡ waiting spawned into (Work.Block position) self.old }
    {
        self.children += 1;
        self.spawned = spawned;
        put_slot(&mut self.has_into, &mut self.into, into);
        put_position(&mut self.work, position);
    }

    /// Has called so many iterations of its loop, one after another, and has those behind them left.
    #[inline(always)]
    pub fn turns(&mut self, site: Loop, share: Share, done: u32)
        requires room { self.old.children + done < 2 ^ 64 }
        requires fits { ShareFits site share }
        requires there { self.old.work ≡ Work.Turns site share }
        requires some { done ≤ share.count }
        ensures turned { self.new ≡ turned_by done site share self.old }
    {
        if done == 0 {
            return;
        }
        self.children += done as usize;
        self.spawned = false;
        self.has_into = false;
        put_turns(&mut self.work, site, behind(site, share, done));
    }

    /// Has entered one more instance, for whose value that slot is, and has that left.
    pub fn wait(&mut self, spawned: bool, into: Option<usize>, work: Work)
        requires room { self.old.children + 1 < 2 ^ 64 }
        requires fits { WorkFits work }
        ensures waiting { self.new ≡ waiting spawned into work self.old }
    {
        self.children += 1;
        self.spawned = spawned;
        put_slot(&mut self.has_into, &mut self.into, into);
        self.work = work;
    }

    /// What it waits for, and what it has left.
    pub fn waiting(&self) -> Waiting
        ensures spawned { result.spawned ≡ self.now.spawned }
        ensures into { result.into ≡ self.now.into }
        ensures work { result.work ≡ self.now.work }
        ensures fits { WorkFits result.work }
    {
        Waiting {
            spawned: self.spawned,
            into: slot_in(self.has_into, self.into),
            work: self.work,
        }
    }

    /// Has not entered the last of its instances, and waits again as before it.
    pub fn wait_again(&mut self, before: Waiting)
        requires fits { WorkFits before.work }
        ensures back { self.new ≡ record self.old { children = self.old.children - 1; work = before.work; spawned = before.spawned; into = before.into } }
    {
        self.children = self.children.saturating_sub(1);
        self.spawned = before.spawned;
        put_slot(&mut self.has_into, &mut self.into, before.into);
        self.work = before.work;
    }

    /// Goes into a block of the statement at that position; refused for want of memory alone.
    #[inline(always)]
    pub fn go_inside(&mut self, block: usize, position: Position) -> Result<(), AllocError>
        requires room { position.index + 1 < 2 ^ 64 }
        ensures inside { OnOk result (self.new ≡ inside block position self.old) }
        ensures unchanged { OnErr result (self.new ≡ self.old) }
    {
        self.outer.push(next_of(position))?;
        put_position(&mut self.work, Position { block, index: 0 });
        Ok(())
    }

    /// Goes behind its innermost block.
    #[inline(always)]
    pub fn go_outside(&mut self)
        ensures outside { self.new ≡ outside self.old }
    {
        match self.outer.pop() {
            None => self.work = Work::Over,
            Some(position) => put_position(&mut self.work, position),
        }
    }

    /// Gives that value to the slots that wait for the child of that number; a loop's slots wait for none.
    pub fn give_child(&mut self, child: usize, value: i64)
        ensures settled { self.new ≡ settled child value self.old }
    {
        match self.work {
            Work::Block(_) | Work::Over => give_all(&mut self.slots, child, value),
            _ => {}
        }
    }
}

/// That slot, where there is one.
#[inline(always)]
fn slot_in(is: bool, slot: usize) -> Option<usize>
    ensures slot { result ≡ slot_in is slot }
{
    if is { Some(slot) } else { None }
}

/// Puts a slot, or that there is none, in place of another.
#[inline(always)]
fn put_slot(is: &mut bool, slot: &mut usize, into: Option<usize>)
    ensures slot { slot_in is.new slot.new ≡ into }
{
    match into {
        Some(into) => {
            *is = true;
            *slot = into;
        }
        None => *is = false,
    }
}

/// Puts a position in place of what is left: where that is a position already, nothing else is written.
#[inline(always)]
fn put_position(work: &mut Work, position: Position)
    ensures position { work.new ≡ Work.Block position }
{
    match work {
        Work::Block(held) => *held = position,
        other => *other = Work::Block(position),
    }
}

/// Puts iterations in place of what is left.
#[inline(always)]
fn put_turns(work: &mut Work, site: Loop, share: Share)
    ensures turns { work.new ≡ Work.Turns site share }
{
    match work {
        Work::Turns(held_site, held) => {
            *held_site = site;
            *held = share;
        }
        other => *other = Work::Turns(site, share),
    }
}

/// The position behind an instruction.
pub fn next_of(position: Position) -> Position
    requires room { position.index + 1 < 2 ^ 64 }
    ensures next { result ≡ next_of position }
{
    Position {
        block: position.block,
        index: position.index + 1,
    }
}

/// Puts that number into the first slot, and nothing into the others.
#[inline(always)]
fn put_alone(slots: &mut [Slot], number: i64)
    requires some { 0 < length slots.old }
    ensures put { slots.new ≡ slots_for (length slots.old) (number ∷ []) }
{
    empty_all(slots);
    slots[0] = Slot::Has(number);
}

/// Puts nothing into each slot.
#[inline(always)]
fn empty_all(slots: &mut [Slot])
    ensures emptied { slots.new ≡ map emptied slots.old }
{
    for i in 0..slots.len() {
        let slot = &mut slots[i];
        empty(slot);
    }
}

/// Puts nothing into a slot. One that holds nothing isn't written: else the loop over few slots would become a call.
#[inline(always)]
fn empty(slot: &mut Slot)
    ensures emptied { slot.new ≡ emptied slot.old }
{
    match slot {
        Slot::Unset => {}
        other => *other = Slot::Unset,
    }
}

/// Gives that value to the slots that wait for the child of that number.
fn give_all(slots: &mut Vec<Slot>, child: usize, value: i64)
    ensures settled { slots.new.items ≡ map (settled_slot child value) slots.old.items }
{
    for i in 0..slots.len() {
        slots[i] = settled_slot(slots[i], child, value);
    }
}

/// That value where the slot waits for the child of that number, else the slot.
fn settled_slot(slot: Slot, child: usize, value: i64) -> Slot
    ensures settled { result ≡ settled_slot child value slot }
{
    match slot {
        Slot::Waits(number) if number == child => Slot::Has(value),
        _ => slot,
    }
}
