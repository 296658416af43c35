// Evaluations over the topmost instance's slots, with what they read noted in the topmost layer.
ghost use Rattle.std.specs.Prelude.{◌≡◌, OnErr, IfOk, map};
ghost use Rattle.linked_program.specs.CodeView.{expression as plain};
ghost use Rattle.evaluation.specs.Values.{value_at, values_at, entry_at, bounds_at};
ghost use Rattle.small_steps.specs.Ends.{Evaluates};

use crate::machine::Machine;
use evaluation::ranges::LoopRange;
use evaluation::slot::Slot;
use evaluation::stop::Stop;
use input_tables::Tables;
use linked_program::code::Expression;
use std::alloc::{AllocError, Global};
use view_pool::View;

impl<V: View> Machine<V> {
    /// The value of an expression at that statement; none where the strand is faulted by it.
    pub(crate) fn value(
        &mut self,
        tables: &Tables,
        statement: u32,
        expression: &Expression,
    ) -> Result<Option<i64>, AllocError>
        ensures evaluated { IfOk result (Evaluates (λ v. v) statement
            (value_at tables.now.tables self.old.top.slots (plain expression.now)) self.old self.new) }
        ensures unchanged { OnErr result (self.new ≡ self.old) }
    {
        match self.layer.value(expression, self.top.slots(), tables) {
            Ok(value) => Ok(Some(value)),
            Err(Stop::Fault(kind)) => {
                self.fault(statement, kind);
                Ok(None)
            }
            Err(Stop::NoMemory) => Err(AllocError),
        }
    }

    /// The values of expressions at that statement, in place of what `numbers` held; false where the strand is faulted by them.
    pub(crate) fn values(
        &mut self,
        tables: &Tables,
        statement: u32,
        expressions: &[Expression],
        numbers: &mut Vec<i64>,
    ) -> Result<Option<()>, AllocError>
        ensures evaluated { IfOk result (Evaluates (λ u. numbers.new.items) statement
            (values_at tables.now.tables self.old.top.slots (map plain expressions.now)) self.old self.new) }
        ensures unchanged { OnErr result (self.new ≡ self.old) }
    {
        match self
            .layer
            .values(expressions, self.top.slots(), tables, numbers)
        {
            Ok(()) => Ok(Some(())),
            Err(Stop::Fault(kind)) => {
                self.fault(statement, kind);
                Ok(None)
            }
            Err(Stop::NoMemory) => Err(AllocError),
        }
    }

    /// The slots of an instance that is entered at that statement; none where the strand is faulted by an argument.
    pub(crate) fn entry(
        &mut self,
        alloc: Global,
        tables: &Tables,
        statement: u32,
        size: usize,
        arguments: &[Expression],
    ) -> Result<Option<Vec<Slot>>, AllocError>
        ensures evaluated { IfOk result (Evaluates (λ v. v.items) statement
            (entry_at tables.now.tables self.old.top.slots size (map plain arguments.now)) self.old self.new) }
        ensures unchanged { OnErr result (self.new ≡ self.old) }
    {
        let room = self.spares.slots(alloc);
        match self
            .layer
            .entry(room, size, arguments, self.top.slots(), tables)
        {
            Ok(slots) => Ok(Some(slots)),
            Err(Stop::Fault(kind)) => {
                self.fault(statement, kind);
                Ok(None)
            }
            Err(Stop::NoMemory) => Err(AllocError),
        }
    }

    /// The range of a loop at that statement; none where the strand is faulted by it.
    pub(crate) fn bounds(
        &mut self,
        tables: &Tables,
        statement: u32,
        low: &Expression,
        high: &Expression,
    ) -> Result<Option<LoopRange>, AllocError>
        ensures evaluated { IfOk result (Evaluates (λ r. (r.low, r.count)) statement
            (bounds_at tables.now.tables self.old.top.slots (plain low.now) (plain high.now)) self.old self.new) }
        ensures unchanged { OnErr result (self.new ≡ self.old) }
    {
        match self.layer.bounds(low, high, self.top.slots(), tables) {
            Ok(range) => Ok(Some(range)),
            Err(Stop::Fault(kind)) => {
                self.fault(statement, kind);
                Ok(None)
            }
            Err(Stop::NoMemory) => Err(AllocError),
        }
    }
}
