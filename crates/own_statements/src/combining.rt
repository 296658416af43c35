//! Updates of reducers in the topmost layer.
ghost use Rattle.std.specs.Prelude.{◌≡◌, ◌+◌, ◌<◌, ◌^◌, ◌∷◌, [], true, false, if◌then◌else◌, length, map, slice_get};
ghost use Rattle.linked_program.specs.CodeView.{expression as plain};
ghost use Rattle.evaluation.specs.Values.{values_at};
ghost use Rattle.positions.specs.Advance.{evaluated, combining};
ghost use Rattle.own_statements.specs.declared.statements.Did.TheVariants.{Nothing, Next};
ghost use Rattle.own_statements.specs.Paths.{Does, OnNext, IsInBlock, Takes, Combines};

use crate::statements::Here;
use activations::activation::Activation;
use activations::setting::Setting;
use layers::layer::Layer;
use layers::updating::arity;
use linked_program::checked::Checked;
use linked_program::code::Expression;
use view_pool::View;

/// Combines what the values of whatever expressions name; those of one or two that are as many as the reducer takes need no list.
/// Most updates have a short form and don't come here, so it is compiled by itself: the loop over statements stays small enough to be
/// compiled into those that call it.
#[inline(never)]
pub(crate) fn combine_some<V: View>(
    layer: &mut Layer<V>,
    setting: Setting<'_>,
    here: Here,
    reducer: usize,
    expressions: &[Expression],
    top: &mut Activation,
    numbers: &mut Vec<i64>,
) -> bool
    requires room { here.position.index + 1 < 2 ^ 64 }
    requires kinds { layer.old.kinds ≡ setting.program.now.kinds }
    ensures done { Does here.passes_syncs here.position (λ kit. evaluated here.statement
        (values_at setting.entry.tables.now.tables top.old.slots (map plain expressions.now))
        (combining (slice_get setting.entry.program.now.kinds reducer) here.statement here.position reducer))
        top.old layer.old (if result then Next else Nothing) top.new layer.new }
    ensures same_block { OnNext (if result then Next else Nothing) (IsInBlock top.old top.new) }
    ensures kinds { layer.new.kinds ≡ layer.old.kinds }
{
    let count = expressions.len();
    if count == 1 && takes(setting.program, reducer, count) {
        let first = &expressions[0];
        return combine_one(layer, setting, here, reducer, first, top);
    }
    if count == 2 && takes(setting.program, reducer, count) {
        let first = &expressions[0];
        let second = &expressions[1];
        return combine_two(layer, setting, here, reducer, first, second, top);
    }
    combine_all(layer, setting, here, reducer, expressions, top, numbers)
}

/// Combines the element that one expression's value names, where the reducer takes one number.
#[inline(always)]
fn combine_one<V: View>(
    layer: &mut Layer<V>,
    setting: Setting<'_>,
    here: Here,
    reducer: usize,
    expression: &Expression,
    top: &mut Activation,
) -> bool
    requires room { here.position.index + 1 < 2 ^ 64 }
    requires takes { Takes setting.program.now.kinds reducer 1 }
    requires kinds { layer.old.kinds ≡ setting.program.now.kinds }
    ensures done { Does here.passes_syncs here.position (λ kit. evaluated here.statement
        (values_at setting.entry.tables.now.tables top.old.slots (plain expression.now ∷ []))
        (combining (slice_get setting.entry.program.now.kinds reducer) here.statement here.position reducer))
        top.old layer.old (if result then Next else Nothing) top.new layer.new }
    ensures same_block { OnNext (if result then Next else Nothing) (IsInBlock top.old top.new) }
    ensures kinds { layer.new.kinds ≡ layer.old.kinds }
{
    let before = layer.readings();
    match layer.value(expression, top.slots(), setting.tables) {
        Ok(number) => {
            if combine_fitting(layer, setting.program, reducer, &[number]) {
                return true;
            }
            layer.forget(before);
            false
        }
        Err(_) => {
            layer.forget(before);
            false
        }
    }
}

/// Combines the element that the values of two expressions name, where the reducer takes two numbers.
fn combine_two<V: View>(
    layer: &mut Layer<V>,
    setting: Setting<'_>,
    here: Here,
    reducer: usize,
    first: &Expression,
    second: &Expression,
    top: &mut Activation,
) -> bool
    requires room { here.position.index + 1 < 2 ^ 64 }
    requires takes { Takes setting.program.now.kinds reducer 2 }
    requires kinds { layer.old.kinds ≡ setting.program.now.kinds }
    ensures done { Does here.passes_syncs here.position (λ kit. evaluated here.statement
        (values_at setting.entry.tables.now.tables top.old.slots (plain first.now ∷ plain second.now ∷ []))
        (combining (slice_get setting.entry.program.now.kinds reducer) here.statement here.position reducer))
        top.old layer.old (if result then Next else Nothing) top.new layer.new }
    ensures same_block { OnNext (if result then Next else Nothing) (IsInBlock top.old top.new) }
    ensures kinds { layer.new.kinds ≡ layer.old.kinds }
{
    let before = layer.readings();
    match layer.pair(first, second, top.slots(), setting.tables) {
        Ok(pair) => {
            if combine_fitting(layer, setting.program, reducer, &[pair.0, pair.1]) {
                return true;
            }
            layer.forget(before);
            false
        }
        Err(_) => {
            layer.forget(before);
            false
        }
    }
}

/// Combines the element that the values of expressions name, however many there are.
fn combine_all<V: View>(
    layer: &mut Layer<V>,
    setting: Setting<'_>,
    here: Here,
    reducer: usize,
    expressions: &[Expression],
    top: &mut Activation,
    numbers: &mut Vec<i64>,
) -> bool
    requires room { here.position.index + 1 < 2 ^ 64 }
    requires kinds { layer.old.kinds ≡ setting.program.now.kinds }
    ensures done { Does here.passes_syncs here.position (λ kit. evaluated here.statement
        (values_at setting.entry.tables.now.tables top.old.slots (map plain expressions.now))
        (combining (slice_get setting.entry.program.now.kinds reducer) here.statement here.position reducer))
        top.old layer.old (if result then Next else Nothing) top.new layer.new }
    ensures same_block { OnNext (if result then Next else Nothing) (IsInBlock top.old top.new) }
    ensures kinds { layer.new.kinds ≡ layer.old.kinds }
{
    let before = layer.readings();
    if layer
        .values(expressions, top.slots(), setting.tables, numbers)
        .is_err()
    {
        layer.forget(before);
        return false;
    }
    if combine(layer, setting.program, reducer, numbers) {
        return true;
    }
    layer.forget(before);
    false
}

/// Combines the element that the numbers name on the right of a reducer's value; false where they name none, or memory is
/// refused, and then nothing has changed.
fn combine<V: View>(
    layer: &mut Layer<V>,
    program: &Checked,
    reducer: usize,
    numbers: &mut Vec<i64>,
) -> bool
    requires kinds { layer.old.kinds ≡ program.now.kinds }
    ensures combined { result ≡ true → Combines (slice_get program.now.kinds reducer) reducer numbers.old.items layer.old layer.new }
    ensures unchanged { result ≡ false → layer.new ≡ layer.old }
    ensures kinds { layer.new.kinds ≡ layer.old.kinds }
{
    match program.kinds().get(reducer) {
        None => true,
        Some(kind) => match layer.update(kind, reducer, numbers) {
            Ok(named) => named,
            Err(_) => false,
        },
    }
}

/// Combines the element that the numbers name, where they are as many as the reducer takes; false where memory is refused, and
/// then nothing has changed.
#[inline(always)]
fn combine_fitting<V: View>(
    layer: &mut Layer<V>,
    program: &Checked,
    reducer: usize,
    numbers: &[i64],
) -> bool
    requires kinds { layer.old.kinds ≡ program.now.kinds }
    requires takes { Takes program.now.kinds reducer (length numbers.now) }
    ensures combined { result ≡ true → Combines (slice_get program.now.kinds reducer) reducer numbers.now layer.old layer.new }
    ensures unchanged { result ≡ false → layer.new ≡ layer.old }
    ensures kinds { layer.new.kinds ≡ layer.old.kinds }
{
    match program.kinds().get(reducer) {
        None => true,
        Some(kind) => layer.update_fitting(kind, reducer, numbers).is_ok(),
    }
}

/// Whether a reducer of the program takes so many numbers.
#[inline(always)]
fn takes(program: &Checked, reducer: usize, count: usize) -> bool
    ensures takes { result ≡ true → Takes program.now.kinds reducer count }
{
    match program.kinds().get(reducer) {
        None => false,
        Some(kind) => arity(kind) == count,
    }
}
