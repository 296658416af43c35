//! Slots of an instance that is to be called, put in place over the topmost instance's.
ghost use Rattle.std.specs.Prelude.{◌≡◌, ◌∷◌, [], true, false, IfSome, Some, map, slice_set};
ghost use Rattle.meaning.specs.Tables.{Tables as TableList};
ghost use Rattle.linked_program.specs.CodeView.{expression as plain};
ghost use Rattle.linked_program.specs.Linked.{slot};
ghost use Rattle.evaluation.specs.Slots.{slots_for};
ghost use Rattle.evaluation.specs.Values.{entry_at, pure, value_at, values_at};
ghost use Rattle.activations.specs.Slots.{laid_over};
ghost use Rattle.layers.specs.Ends.{HasNoted};
ghost use Rattle.own_statements.specs.Fills.{Fills, IsCounted};

use activations::activation::Activation;
use evaluation::slot::Slot;
use evaluation::stop::Stop;
use evaluation::values::{number_in, without_reading};
use input_tables::Tables;
use layers::layer::Layer;
use linked_program::code::Expression;
use view_pool::View;

/// Puts the slots of an instance that is entered with these arguments in place, over the topmost instance's slots.
#[inline(always)]
#[tactic(auto, using(layers::proofs::Kept::noted_is, layers::proofs::Kept::unnoted_is))]
fn fill<V: View>(
    layer: &mut Layer<V>,
    child: &mut Activation,
    top: &Activation,
    size: usize,
    arguments: &[Expression],
    tables: &Tables,
) -> Result<(), Stop>
    ensures notes { HasNoted (λ u. child.new.slots) (entry_at tables.now.tables top.now.slots size (map plain arguments.now)) layer.old layer.new result }
{
    if layer.keeps {
        return child.fill(size, arguments, top.slots(), tables, &mut layer.notes);
    }
    child.fill_unnoted(size, arguments, top.slots(), tables)
}

/// Whether the only argument is that slot.
#[inline(always)]
fn is_slot(arguments: &[Expression], variable: usize) -> bool
    ensures is { result ≡ true → map plain arguments.now ≡ slot variable ∷ [] }
{
    if arguments.len() != 1 {
        return false;
    }
    let first = &arguments[0];
    match first {
        Expression::Slot(number) => *number == variable,
        _ => false,
    }
}

/// Whether the only argument of a loop's iterations is the loop's variable, so that `fills_turn` needs to evaluate nothing.
pub fn is_counted(top: &Activation, variable: usize, arguments: &[Expression]) -> bool
    ensures counted { result ≡ true → IsCounted top.now.slots variable (map plain arguments.now) }
{
    if !is_slot(arguments, variable) {
        return false;
    }
    variable < top.slots().len()
}

/// How a loop's iterations are entered: with so many names, and those arguments over the tables, while the loop's variable holds the
/// iteration's number; and whether that is `counted`.
#[derive(Clone, Copy)]
pub struct Iterations<'a> {
    pub size: usize,
    pub arguments: &'a [Expression],
    pub tables: &'a Tables,
    pub variable: usize,
    pub counted: bool,
}

/// Puts the slots of a loop's iteration of that number in place; whether that was done. Where it wasn't, nothing is noted.
#[inline(always)]
pub fn fills_turn<V: View>(
    layer: &mut Layer<V>,
    child: &mut Activation,
    top: &mut Activation,
    iterations: Iterations<'_>,
    number: i64,
) -> bool
    requires counted { iterations.counted ≡ true → IsCounted top.old.slots iterations.variable (map plain iterations.arguments.now) }
    ensures filled { result ≡ true → Fills
        (entry_at iterations.entry.tables.now.tables (slice_set top.old.slots iterations.entry.variable (Slot.Has number)) iterations.entry.size
        (map plain iterations.entry.arguments.now)) child.new.slots layer.old layer.new }
    ensures unchanged { result ≡ false → layer.new ≡ layer.old }
    ensures top { top.new ≡ top.old }
{
    if iterations.counted {
        if child.put_number(iterations.size, number) {
            return true;
        }
        return fills_anew(layer, child, top, iterations, number);
    }
    fills_meanwhile(layer, child, top, iterations, number)
}

/// Puts the slots of a loop's iteration in place so, where the instance has another number of them: that is rare.
#[inline(never)]
fn fills_anew<V: View>(
    layer: &mut Layer<V>,
    child: &mut Activation,
    top: &mut Activation,
    iterations: Iterations<'_>,
    number: i64,
) -> bool
    ensures filled { result ≡ true → Fills
        (entry_at iterations.entry.tables.now.tables (laid_over (Some (iterations.entry.variable, Slot.Has number)) top.old.slots) iterations.entry.size
        (map plain iterations.entry.arguments.now)) child.new.slots layer.old layer.new }
    ensures unchanged { result ≡ false → layer.new ≡ layer.old }
    ensures top { top.new ≡ top.old }
{
    fills_meanwhile(layer, child, top, iterations, number)
}

/// Puts the slots of a loop's iteration in place so, whatever its arguments are.
#[inline(always)]
#[tactic(auto, using(activations::proofs::Slots::put_back))]
fn fills_meanwhile<V: View>(
    layer: &mut Layer<V>,
    child: &mut Activation,
    top: &mut Activation,
    iterations: Iterations<'_>,
    number: i64,
) -> bool
    ensures filled { result ≡ true → Fills
        (entry_at iterations.entry.tables.now.tables (laid_over (Some (iterations.entry.variable, Slot.Has number)) top.old.slots) iterations.entry.size
        (map plain iterations.entry.arguments.now)) child.new.slots layer.old layer.new }
    ensures unchanged { result ≡ false → layer.new ≡ layer.old }
    ensures top { top.new ≡ top.old }
{
    let size = iterations.size;
    let held = top.exchange(iterations.variable, Slot::Has(number));
    let filled = fills_each(
        layer,
        child,
        top,
        size,
        iterations.arguments,
        iterations.tables,
    );
    top.restore(iterations.variable, held);
    filled
}

/// The value of an operator on slots and numbers, if it has one. It is compiled by itself, since it has many cases.
#[inline(never)]
fn operator_number(expression: &Expression, slots: &[Slot]) -> Option<i64>
    ensures value { IfSome result (λ v. (all : TableList) → value_at all slots.now (plain expression.now) ≡ pure v) }
{
    without_reading(expression, slots)
}

/// The value of a number, of a slot, or of an operator on slots and numbers; none of any other expression.
#[inline(always)]
fn plain_number(expression: &Expression, slots: &[Slot]) -> Option<i64>
    ensures value { IfSome result (λ v. (all : TableList) → value_at all slots.now (plain expression.now) ≡ pure v) }
{
    match expression {
        Expression::Number(number) => Some(*number),
        Expression::Slot(slot) => Some(number_in(slots, *slot)),
        Expression::Slots(_, _, _) => operator_number(expression, slots),
        Expression::SlotAndNumber(_, _, _) => operator_number(expression, slots),
        Expression::NumberAndSlot(_, _, _) => operator_number(expression, slots),
        _ => None,
    }
}

/// The value of the only argument, where that is a number, a slot, or an operator on these.
#[inline(always)]
fn only_number(arguments: &[Expression], slots: &[Slot]) -> Option<i64>
    ensures value { IfSome result (λ v. (all : TableList) → values_at all slots.now (map plain arguments.now) ≡ pure (v ∷ [])) }
{
    if arguments.len() != 1 {
        return None;
    }
    plain_number(&arguments[0], slots)
}

/// The values of two arguments, where each is a number, a slot, or an operator on these.
#[inline(always)]
fn two_numbers(arguments: &[Expression], slots: &[Slot]) -> Option<(i64, i64)>
    ensures values { IfSome result (λ v. (all : TableList) → values_at all slots.now (map plain arguments.now) ≡ pure (v.0 ∷ v.1 ∷ [])) }
{
    if arguments.len() != 2 {
        return None;
    }
    match plain_number(&arguments[0], slots) {
        Some(first) => match plain_number(&arguments[1], slots) {
            Some(second) => Some((first, second)),
            None => None,
        },
        None => None,
    }
}

/// Puts the slots of an instance in place, where it has as many: those of one that is entered with these two numbers. Whether it has.
#[inline(always)]
fn puts_two(child: &mut Activation, size: usize, first: i64, second: i64) -> bool
    ensures put { result ≡ true → child.new.slots ≡ slots_for size (first ∷ second ∷ []) }
{
    if !child.put_number(size, first) {
        return false;
    }
    child.bind(Some(1), Slot::Has(second));
    true
}

/// Whether the slots of an instance that is entered with these arguments were put in place, over the topmost instance's slots; where
/// they weren't, nothing is noted.
#[inline(always)]
pub fn fills<V: View>(
    layer: &mut Layer<V>,
    child: &mut Activation,
    top: &Activation,
    size: usize,
    arguments: &[Expression],
    tables: &Tables,
) -> bool
    ensures filled { result ≡ true → Fills (entry_at tables.now.tables top.now.slots size (map plain arguments.now)) child.new.slots layer.old layer.new }
    ensures unchanged { result ≡ false → layer.new ≡ layer.old }
{
    if let Some(number) = only_number(arguments, top.slots()) {
        if child.put_number(size, number) {
            return true;
        }
    }
    if let Some((first, second)) = two_numbers(arguments, top.slots()) {
        if puts_two(child, size, first, second) {
            return true;
        }
    }
    fills_each(layer, child, top, size, arguments, tables)
}

/// The same, one argument after another.
#[inline(always)]
fn fills_each<V: View>(
    layer: &mut Layer<V>,
    child: &mut Activation,
    top: &Activation,
    size: usize,
    arguments: &[Expression],
    tables: &Tables,
) -> bool
    ensures filled { result ≡ true → Fills (entry_at tables.now.tables top.now.slots size (map plain arguments.now)) child.new.slots layer.old layer.new }
    ensures unchanged { result ≡ false → layer.new ≡ layer.old }
{
    let before = layer.readings();
    match fill(layer, child, top, size, arguments, tables) {
        Ok(()) => true,
        Err(_) => {
            layer.forget(before);
            false
        }
    }
}
