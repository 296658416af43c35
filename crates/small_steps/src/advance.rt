// One small step of a strand, and the points at which there is none.
ghost use Rattle.std.specs.Prelude.{◌≡◌, ◌+◌, ◌<◌, ◌^◌, OnErr, OnOk, option_copied};
ghost use Rattle.record_theory.specs.Named.{HaveValues};
ghost use Rattle.positions.specs.Strands.{IsLayered};
ghost use Rattle.positions.specs.Advance.{performed, gone, worked, left_to, advanced, pause_of, next_statement, is_sync};
ghost use Rattle.activations.specs.Given.{lent};
ghost use Rattle.small_steps.specs.Steps.{HoldsFor, IsSuppliedBy, IsValued, KeepsAllKits};

use crate::machine::Machine;
use crate::remembering::Entrance;
use activations::activation::next_of;
use activations::code::instruction;
use activations::setting::Setting;
use input_tables::Tables;
use linked_program::checked::Checked;
use linked_program::code::{Instruction, Operation};
use positions::phase::{Paused, Phase};
use positions::work::{Position, Work};
use rerun_records::records::Records;
use std::alloc::{AllocError, Global};
use std::mem;
use view_pool::{Kit, KitSource, View};

impl<V: View> Machine<V> {
    /// The point at which the strand is, or Working where it can go on.
    pub fn pause(&self, program: &Checked) -> Paused
        ensures pause { result ≡ pause_of program.now.codes self.now }
    {
        match self.phase {
            Phase::Entering => Paused::Working,
            Phase::Running => {
                if self.is_entry() && self.is_at_sync(program) {
                    Paused::AtSync
                } else {
                    Paused::Working
                }
            }
            Phase::AtSpawn => Paused::AtSpawn,
            Phase::Returning(_) => {
                if self.is_entry() {
                    Paused::AtSync
                } else {
                    Paused::Working
                }
            }
            Phase::Leaving(_) => {
                if !self.below.is_empty() {
                    Paused::Working
                } else if self.path.is_empty() {
                    Paused::Finished
                } else {
                    Paused::Returned
                }
            }
            Phase::Broken(_) => Paused::Faulted,
        }
    }

    /// The topmost instance's next statement; none where a block ends, or in a loop.
    pub fn next_statement<'a>(&self, program: &'a Checked) -> Option<&'a Instruction>
        ensures found { option_copied result ≡ next_statement program.now.codes self.now }
    {
        match self.top.work() {
            Work::Block(position) => instruction(
                program,
                self.top.procedure(),
                self.top.depth(),
                position,
            ),
            _ => None,
        }
    }

    /// Whether the topmost instance's next statement is a sync.
    fn is_at_sync(&self, program: &Checked) -> bool
        ensures sync { result ≡ is_sync (next_statement program.now.codes self.now) }
    {
        match self.next_statement(program) {
            Some(instruction) => match &instruction.operation {
                Operation::Sync => true,
                _ => false,
            },
            None => false,
        }
    }

    /// The small step that the phase asks for.
    #[inline(always)]
    pub fn step_by_phase<K: KitSource<Kit<V>>>(
        &mut self,
        alloc: Global,
        setting: Setting<'_>,
        kits: &mut K,
    ) -> Result<(), AllocError>
        requires layered { IsLayered self.old }
        requires supplied { IsSuppliedBy K.KitSource setting kits.old self.old }
        ensures advanced { OnOk result (HoldsFor K.KitSource kits.old
            (λ kit. self.new ≡ advanced (lent setting.entry) kit self.old)) }
        ensures made { HaveValues self.old.layer.kinds self.old.tally.made → HaveValues self.old.layer.kinds self.new.tally.made }
        ensures refused { OnErr result (IsValued self.old self.new) }
        ensures kits { KeepsAllKits K.KitSource setting.entry.program.now.kinds kits.old kits.new self.old self.new }
    {
        match self.phase {
            Phase::Entering => self.start(alloc, setting, kits),
            Phase::Running => self.work(alloc, setting, kits),
            Phase::Returning(value) => self.last_sync(alloc, setting, value, kits),
            Phase::Leaving(value) => {
                self.leave(value);
                Ok(())
            }
            Phase::AtSpawn | Phase::Broken(_) => Ok(()),
        }
    }

    /// What the topmost instance has left.
    fn work<K: KitSource<Kit<V>>>(
        &mut self,
        alloc: Global,
        setting: Setting<'_>,
        kits: &mut K,
    ) -> Result<(), AllocError>
        requires running { self.old.phase ≡ Phase.Running }
        requires supplied { IsSuppliedBy K.KitSource setting kits.old self.old }
        ensures worked { OnOk result (HoldsFor K.KitSource kits.old
            (λ kit. self.new ≡ worked (lent setting.entry) kit self.old.top.work self.old)) }
        ensures refused { OnErr result (IsValued self.old self.new) }
        ensures kits { KeepsAllKits K.KitSource setting.entry.program.now.kinds kits.old kits.new self.old self.new }
    {
        match self.top.work() {
            Work::Block(position) => self.go(alloc, setting, position, kits),
            Work::Over => {
                self.phase = Phase::Returning(0);
                Ok(())
            }
            Work::Halves(site, halvings, share) => self.halve(
                alloc,
                setting.program,
                site,
                halvings,
                share,
            ),
            Work::Second(site, halvings, share) => self.second_half(alloc, site, halvings, share),
            Work::Turns(site, share) => self.turn(alloc, setting, site, share, kits),
        }
    }

    /// The statement at that position, or the block's end.
    fn go<K: KitSource<Kit<V>>>(
        &mut self,
        alloc: Global,
        setting: Setting<'_>,
        position: Position,
        kits: &mut K,
    ) -> Result<(), AllocError>
        requires running { self.old.phase ≡ Phase.Running }
        requires supplied { IsSuppliedBy K.KitSource setting kits.old self.old }
        ensures gone { OnOk result (HoldsFor K.KitSource kits.old
            (λ kit. self.new ≡ gone (lent setting.entry) kit position self.old)) }
        ensures refused { OnErr result (IsValued self.old self.new) }
        ensures kits { KeepsAllKits K.KitSource setting.entry.program.now.kinds kits.old kits.new self.old self.new }
    {
        match instruction(
            setting.program,
            self.top.procedure(),
            self.top.depth(),
            position,
        ) {
            None => {
                self.top.go_outside();
                Ok(())
            }
            Some(instruction) => self.perform(alloc, setting, position, instruction, kits),
        }
    }

    /// One statement of the topmost instance.
    fn perform<K: KitSource<Kit<V>>>(
        &mut self,
        alloc: Global,
        setting: Setting<'_>,
        position: Position,
        instruction: &Instruction,
        kits: &mut K,
    ) -> Result<(), AllocError>
        requires room { position.index + 1 < 2 ^ 64 }
        requires running { self.old.phase ≡ Phase.Running }
        requires supplied { IsSuppliedBy K.KitSource setting kits.old self.old }
        ensures performed { OnOk result (HoldsFor K.KitSource kits.old
            (λ kit. self.new ≡ performed (lent setting.entry) kit position instruction.now.number instruction.now.operation self.old)) }
        ensures refused { OnErr result (IsValued self.old self.new) }
        ensures kits { KeepsAllKits K.KitSource setting.entry.program.now.kinds kits.old kits.new self.old self.new }
    {
        let number = instruction.number;
        match &instruction.operation {
            Operation::Bind(name, value) => self.bind(
                setting.tables,
                number,
                position,
                *name,
                value,
            ),
            Operation::Enter(into, way, callee, arguments) => {
                let arguments = arguments.as_slice();
                let entrance = Entrance {
                    statement: number,
                    way: *way,
                    into: *into,
                    work: Work::Block(next_of(position)),
                    callee: *callee,
                };
                self.enter(alloc, setting, entrance, arguments, kits)
            }
            Operation::Read(name, reducer) => self.read(position, *name, *reducer),
            Operation::Sync => {
                self.sync(position);
                Ok(())
            }
            Operation::Update(reducer, values) => {
                let values = values.as_slice();
                self.update(alloc, setting, number, position, *reducer, values)
            }
            Operation::If(condition, first, second) => {
                self.choose(setting.tables, number, position, condition, *first, *second)
            }
            Operation::Loop(_, low, high, _, _, _) => {
                self.repeat_first(alloc, setting, number, position, low, high)
            }
            Operation::Return(value) => self.give(setting.tables, number, value),
        }
    }

    /// The topmost instance's value goes to the one below it, where there is one.
    #[inline(always)]
    pub fn leave(&mut self, value: i64)
        requires leaving { self.old.phase ≡ Phase.Leaving value }
        ensures left { self.new ≡ left_to self.old.below value self.old }
    {
        if let Some(parent) = self.below.pop() {
            let over = mem::replace(&mut self.top, parent);
            self.top.receive(value);
            self.spares.keep(over);
            let _ = self.path.pop();
            self.phase = Phase::Running;
        }
    }
}
