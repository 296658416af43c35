// Updates of reducers.
ghost use Rattle.std.specs.Prelude.{◌≡◌, ◌+◌, ◌<◌, ◌^◌, OnErr, OnOk, map, slice_get};
ghost use Rattle.linked_program.specs.CodeView.{expression as plain};
ghost use Rattle.evaluation.specs.Values.{values_at};
ghost use Rattle.positions.specs.Advance.{evaluated, combining};

use crate::machine::Machine;
use activations::setting::Setting;
use layers::layer::Layer;
use linked_program::checked::Checked;
use linked_program::code::Expression;
use meaning::FaultKind;
use monoid_laws::{InjectError, Kind};
use positions::work::Position;
use std::alloc::{AllocError, Global};
use std::mem;
use view_pool::View;

impl<V: View> Machine<V> {
    /// Combines what the expressions' values name with a reducer's value, or is faulted at that statement.
    pub(crate) fn update(
        &mut self,
        alloc: Global,
        setting: Setting<'_>,
        statement: u32,
        position: Position,
        reducer: usize,
        expressions: &[Expression],
    ) -> Result<(), AllocError>
        requires room { position.index + 1 < 2 ^ 64 }
        requires kinds { self.old.layer.kinds ≡ setting.program.now.kinds }
        ensures updated { OnOk result (self.new ≡ evaluated statement
            (values_at setting.entry.tables.now.tables self.old.top.slots (map plain expressions.now))
            (combining (slice_get setting.entry.program.now.kinds reducer) statement position reducer) self.old) }
        ensures unchanged { OnErr result (self.new ≡ self.old) }
    {
        let mut numbers = mem::replace(&mut self.numbers, Vec::new(alloc));
        let outcome = self.update_by(
            setting,
            statement,
            position,
            reducer,
            expressions,
            &mut numbers,
        );
        self.numbers = numbers;
        outcome
    }

    /// Updates the reducer by the values of the expressions, which are put into `numbers`.
    fn update_by(
        &mut self,
        setting: Setting<'_>,
        statement: u32,
        position: Position,
        reducer: usize,
        expressions: &[Expression],
        numbers: &mut Vec<i64>,
    ) -> Result<(), AllocError>
        requires room { position.index + 1 < 2 ^ 64 }
        requires kinds { self.old.layer.kinds ≡ setting.program.now.kinds }
        ensures updated { OnOk result (self.new ≡ evaluated statement
            (values_at setting.entry.tables.now.tables self.old.top.slots (map plain expressions.now))
            (combining (slice_get setting.entry.program.now.kinds reducer) statement position reducer) self.old) }
        ensures unchanged { OnErr result (self.new ≡ self.old) }
    {
        let before = self.layer.readings();
        match self.values(setting.tables, statement, expressions, numbers)? {
            Some(()) => match self.combine(setting.program, statement, position, reducer, numbers) {
                Ok(()) => Ok(()),
                Err(AllocError) => {
                    self.forget(before);
                    Err(AllocError)
                }
            },
            None => Ok(()),
        }
    }

    /// Combines the element that the numbers name on the right of a reducer's value, or is faulted where they name none.
    fn combine(
        &mut self,
        program: &Checked,
        statement: u32,
        position: Position,
        reducer: usize,
        numbers: &mut Vec<i64>,
    ) -> Result<(), AllocError>
        requires room { position.index + 1 < 2 ^ 64 }
        requires kinds { self.old.layer.kinds ≡ program.now.kinds }
        ensures combined { OnOk result (self.new ≡ combining (slice_get program.now.kinds reducer) statement position reducer numbers.old.items self.old) }
        ensures unchanged { OnErr result (self.new ≡ self.old) }
    {
        match program.kinds().get(reducer) {
            None => self.pass(position),
            Some(kind) => {
                if self.layer.update(kind, reducer, numbers)? {
                    self.pass(position);
                } else {
                    self.fault(statement, FaultKind::BadElement);
                }
            }
        }
        Ok(())
    }
}
