// The statements of procedures.
ghost use Rattle.std.specs.Prelude.{◌≡◌, ◌+◌, ◌<◌, ◌^◌, OnErr, OnOk, if◌then◌else◌};
ghost use Rattle.linked_program.specs.CodeView.{expression as plain};
ghost use Rattle.evaluation.specs.Values.{value_at};
ghost use Rattle.positions.specs.Layers.{lowest as lowest_of};
ghost use Rattle.positions.specs.Strands.{is_entry};
ghost use Rattle.positions.specs.Advance.{evaluated, moved_on, binding, reading, choosing, giving};

use crate::machine::Machine;
use activations::activation::next_of;
use activations::setting::Setting;
use evaluation::slot::Slot;
use input_tables::Tables;
use layers::layer::Layer;
use linked_program::code::Expression;
use meaning::FaultKind;
use meaning::tree::Way;
use positions::phase::Phase;
use positions::work::{Position, Work};
use std::alloc::{AllocError, Global};
use view_pool::View;

impl<V: View> Machine<V> {
    /// Goes on behind the instruction at that position.
    pub(crate) fn pass(&mut self, position: Position)
        requires room { position.index + 1 < 2 ^ 64 }
        ensures passed { self.new ≡ moved_on position self.old }
    {
        self.top.set_work(Work::Block(next_of(position)));
    }

    /// Puts a value into a slot, and goes on behind the instruction at that position.
    pub(crate) fn set(&mut self, position: Position, name: usize, value: i64)
        requires room { position.index + 1 < 2 ^ 64 }
        ensures set { self.new ≡ binding position name value self.old }
    {
        self.top.bind(Some(name), Slot::Has(value));
        self.top.set_work(Work::Block(next_of(position)));
    }

    /// Puts the value of an expression into a slot, or is faulted at that statement.
    pub(crate) fn bind(
        &mut self,
        tables: &Tables,
        statement: u32,
        position: Position,
        name: usize,
        expression: &Expression,
    ) -> Result<(), AllocError>
        requires room { position.index + 1 < 2 ^ 64 }
        ensures bound { OnOk result (self.new ≡ evaluated statement (value_at tables.now.tables self.old.top.slots (plain expression.now))
            (binding position name) self.old) }
        ensures unchanged { OnErr result (self.new ≡ self.old) }
    {
        match self.value(tables, statement, expression)? {
            Some(value) => self.set(position, name, value),
            None => {}
        }
        Ok(())
    }

    /// The lowest layer, whose values `read` gives.
    pub(crate) fn lowest(&self) -> &Layer<V>
        ensures lowest { result.now ≡ lowest_of self.now.layer self.now.lower }
    {
        match self.lower.first() {
            Some(layer) => layer,
            None => &self.layer,
        }
    }

    /// Puts the number of a reducer's value into a slot; refused for want of memory alone.
    pub(crate) fn read(
        &mut self,
        position: Position,
        name: usize,
        reducer: usize,
    ) -> Result<(), AllocError>
        requires room { position.index + 1 < 2 ^ 64 }
        ensures read { OnOk result (self.new ≡ binding position name (reading reducer self.old) self.old) }
        ensures unchanged { OnErr result (self.new ≡ self.old) }
    {
        let value = self.lowest().number(reducer)?;
        self.set(position, name, value);
        Ok(())
    }

    /// Passes a sync, but not in the instance in which the strand begins.
    pub(crate) fn sync(&mut self, position: Position)
        requires room { position.index + 1 < 2 ^ 64 }
        ensures synced { self.new ≡ (if is_entry self.old then self.old else moved_on position self.old) }
    {
        if !self.is_entry() {
            self.pass(position);
        }
    }

    /// Goes into one of two blocks by a condition, or is faulted at that statement.
    pub(crate) fn choose(
        &mut self,
        tables: &Tables,
        statement: u32,
        position: Position,
        condition: &Expression,
        first: usize,
        second: usize,
    ) -> Result<(), AllocError>
        requires room { position.index + 1 < 2 ^ 64 }
        ensures chosen { OnOk result (self.new ≡ evaluated statement (value_at tables.now.tables self.old.top.slots (plain condition.now))
            (choosing position first second) self.old) }
        ensures unchanged { OnErr result (self.new ≡ self.old) }
    {
        let before = self.layer.readings();
        match self.value(tables, statement, condition)? {
            Some(value) => {
                let block = if value == 0 { second } else { first };
                match self.top.go_inside(block, position) {
                    Ok(()) => Ok(()),
                    Err(AllocError) => {
                        self.forget(before);
                        Err(AllocError)
                    }
                }
            }
            None => Ok(()),
        }
    }

    /// Gives the value of an expression back, or is faulted at that statement.
    pub(crate) fn give(
        &mut self,
        tables: &Tables,
        statement: u32,
        expression: &Expression,
    ) -> Result<(), AllocError>
        ensures given { OnOk result (self.new ≡ evaluated statement (value_at tables.now.tables self.old.top.slots (plain expression.now)) giving self.old) }
        ensures unchanged { OnErr result (self.new ≡ self.old) }
    {
        match self.value(tables, statement, expression)? {
            Some(value) => self.phase = Phase::Returning(value),
            None => {}
        }
        Ok(())
    }
}
