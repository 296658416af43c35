// Instances of procedures that are called and spawned.
ghost use Rattle.std.specs.Prelude.{◌≡◌, OnErr, OnOk, map};
ghost use Rattle.linked_program.specs.CodeView.{expression as plain, slots_of};
ghost use Rattle.evaluation.specs.Values.{entry_at};
ghost use Rattle.positions.specs.Activations.{WorkFits};
ghost use Rattle.positions.specs.Advance.{evaluated, called};
ghost use Rattle.activations.specs.Given.{lent};
ghost use Rattle.small_steps.specs.Steps.{HoldsFor, IsSuppliedBy, IsValued, KeepsAllKits, nested_plain};

use crate::machine::Machine;
use crate::remembering::Entrance;
use activations::activation::{Activation, FIRST};
use activations::setting::Setting;
use evaluation::slot::Slot;
use linked_program::code::Expression;
use meaning::FaultKind;
use meaning::tree::Way;
use positions::phase::Phase;
use positions::work::Work;
use std::alloc::{AllocError, Global};
use view_pool::{Kit, KitSource, View};

impl<V: View> Machine<V> {
    /// Calls or spawns an instance of a procedure, or is faulted at that statement.
    pub(crate) fn enter<K: KitSource<Kit<V>>>(
        &mut self,
        alloc: Global,
        setting: Setting<'_>,
        entrance: Entrance,
        arguments: &[Expression],
        kits: &mut K,
    ) -> Result<(), AllocError>
        requires fits { WorkFits entrance.work }
        requires running { self.old.phase ≡ Phase.Running }
        requires supplied { IsSuppliedBy K.KitSource setting kits.old self.old }
        ensures called { OnOk result (HoldsFor K.KitSource kits.old
            (λ kit. self.new ≡ called (lent setting.entry) kit entrance.statement entrance.way entrance.into entrance.work entrance.callee
            (map plain arguments.now) self.old.top.slots self.old)) }
        ensures refused { OnErr result (IsValued self.old self.new) }
        ensures kits { KeepsAllKits K.KitSource setting.entry.program.now.kinds kits.old kits.new self.old self.new }
    {
        if setting.program.is_memo(entrance.callee) {
            self.enter_memo(alloc, setting, entrance, arguments, kits)
        } else {
            self.enter_plain(alloc, setting, entrance, arguments)
        }
    }

    /// Calls or spawns an instance of a procedure that isn't marked memo, or is faulted at that statement.
    fn enter_plain(
        &mut self,
        alloc: Global,
        setting: Setting<'_>,
        entrance: Entrance,
        arguments: &[Expression],
    ) -> Result<(), AllocError>
        requires fits { WorkFits entrance.work }
        requires running { self.old.phase ≡ Phase.Running }
        ensures entered { OnOk result (self.new ≡ evaluated entrance.statement
            (entry_at setting.entry.tables.now.tables self.old.top.slots (slots_of setting.entry.program.now.codes entrance.callee)
            (map plain arguments.now)) (nested_plain entrance.statement entrance.way entrance.into entrance.work entrance.callee) self.old) }
        ensures unchanged { OnErr result (self.new ≡ self.old) }
    {
        let before = self.layer.readings();
        let size = setting.program.slots(entrance.callee);
        match self.entry(alloc, setting.tables, entrance.statement, size, arguments)? {
            Some(slots) => match self.nest(alloc, entrance, slots) {
                Ok(()) => Ok(()),
                Err(AllocError) => {
                    self.forget(before);
                    Err(AllocError)
                }
            },
            None => Ok(()),
        }
    }

    /// Enters an instance of a procedure that isn't marked memo, with those slots; or too deep.
    #[inline(always)]
    pub(crate) fn nest(
        &mut self,
        alloc: Global,
        entrance: Entrance,
        slots: Vec<Slot>,
    ) -> Result<(), AllocError>
        requires fits { WorkFits entrance.work }
        requires running { self.old.phase ≡ Phase.Running }
        ensures nested { OnOk result (self.new ≡ nested_plain entrance.statement entrance.way entrance.into entrance.work
            entrance.callee slots.items self.old) }
        ensures unchanged { OnErr result (self.new ≡ self.old) }
    {
        let left = self.top.left();
        if left == 0 {
            self.fault(entrance.statement, FaultKind::TooDeep);
            return Ok(());
        }
        let places = self.spares.places(alloc);
        let child = Activation::new(entrance.callee, slots, places, Work::Block(FIRST), left - 1);
        match entrance.way {
            Way::Call => {
                self.push_called(child, entrance.work, entrance.into, Phase::Entering)?;
                self.begin();
                Ok(())
            }
            Way::Spawn => self.push_spawned(child, entrance.work, entrance.into),
        }
    }
}
