//! The statements that an instance does by itself: they enter no other instance.
ghost use Rattle.std.specs.Prelude.{◌≡◌, ◌+◌, ◌<◌, ◌^◌, ◌∷◌, [], ℕ, ℤ, Bool, List, None, true, false, length, map, slice_get, if◌then◌else◌};
ghost use Rattle.linked_program.specs.CodeView.{HasArity, HasShort, TakesOne, expression as plain, instruction_at};
ghost use Rattle.evaluation.specs.Values.{NumberedOut, pure, value_at, values_at};
ghost use Rattle.positions.specs.Activations.{PlainActivation};
ghost use Rattle.positions.specs.Layers.{PlainLayer};
ghost use Rattle.positions.specs.Strands.{is_entry};
ghost use Rattle.positions.specs.Advance.{evaluated, binding, choosing, combining, giving, moved_on, performed};
ghost use Rattle.activations.specs.Given.{lent};
ghost use Rattle.own_statements.specs.declared.statements.Did.TheVariants.{Next, Nothing};
ghost use Rattle.own_statements.specs.Effects.{Comes, combining_one, goes_on};
ghost use Rattle.own_statements.specs.Fills.{Fills};
ghost use Rattle.own_statements.specs.Paths.{Chooses, Does, OnNext, OnPassed, IsInBlock};

use crate::combining::combine_some;
use crate::short_forms::{Effect, effect_of, value_of};
use activations::activation::Activation;
use activations::setting::Setting;
use evaluation::slot::Slot;
use input_tables::Tables;
use layers::layer::Layer;
use linked_program::checked::Checked;
use linked_program::code::{Expression, Instruction, Operation, Target};
use positions::work::Position;
use view_pool::View;

/// What was done of a statement or a stretch of them: all of it, and the next statement of the block is next; all of it, and the
/// instance goes on elsewhere; all of it, which gave that value back; nothing.
#[derive(Clone, Copy)]
pub enum Did {
    Next,
    Moved,
    Gave(i64),
    Nothing,
}

/// What was done of a choice between two blocks: nothing; the second one was passed by, in which there is nothing; or the instance has
/// gone inside.
#[derive(Clone, Copy)]
pub enum Chosen {
    Nothing,
    Passed,
    Inside,
}

/// Where an instance is: at that statement, which stands at that position, and whether it may pass a sync.
#[derive(Clone, Copy)]
pub struct Here {
    pub statement: u32,
    pub position: Position,
    pub passes_syncs: bool,
}

/// One statement, unless it enters another instance, loops or reads a reducer. Where the next one of the block is next, what the instance
/// has left is not noted.
#[inline(always)]
pub(crate) fn perform<V: View>(
    layer: &mut Layer<V>,
    setting: Setting<'_>,
    passes_syncs: bool,
    position: Position,
    instruction: &Instruction,
    top: &mut Activation,
    numbers: &mut Vec<i64>,
) -> Did
    requires room { position.index + 1 < 2 ^ 64 }
    requires short { HasShort setting.program.now.kinds instruction.now }
    requires kinds { layer.old.kinds ≡ setting.program.now.kinds }
    ensures done { Comes (lent setting.entry) passes_syncs position (λ kit. performed
        (lent setting.entry) kit position instruction.now.number instruction.now.operation) top.old layer.old result top.new layer.new }
    ensures same_block { OnNext result (IsInBlock top.old top.new) }
    ensures kinds { layer.new.kinds ≡ layer.old.kinds }
{
    let here = Here {
        statement: instruction.number,
        position,
        passes_syncs,
    };
    match effect_of(layer, instruction, top.slots(), setting.tables) {
        Effect::Other => Did::Nothing,
        Effect::Sync => pass_sync(layer, passes_syncs, position, top),
        Effect::Later => evaluate(layer, setting, here, &instruction.operation, top, numbers),
        Effect::One(reducer, number) => update_one(layer, setting, here, reducer, number),
        Effect::Two(reducer, first, second) => {
            update_two(layer, setting, here, reducer, first, second)
        }
        Effect::Value(value, target) => {
            match value_of(layer, value, top.slots(), setting.tables) {
                Some(value) => put(layer, setting, here, value, target, top),
                None => evaluate(layer, setting, here, &instruction.operation, top, numbers),
            }
        }
    }
}

/// A sync, where it may be passed.
#[inline(always)]
fn pass_sync<V: View>(
    layer: &mut Layer<V>,
    passes_syncs: bool,
    position: Position,
    top: &mut Activation,
) -> Did
    requires room { position.index + 1 < 2 ^ 64 }
    ensures done { Does passes_syncs position (λ kit s. if is_entry s then s else moved_on position s) top.old layer.old result top.new layer.new }
    ensures same_block { OnNext result (IsInBlock top.old top.new) }
    ensures kinds { layer.new.kinds ≡ layer.old.kinds }
{
    let _ = top.left();
    if passes_syncs {
        Did::Next
    } else {
        Did::Nothing
    }
}

/// Updates a reducer by one number, which was found with nothing to note. Whether that was done is told apart by itself, so that what comes
/// of it is known where the loop over statements asks.
#[inline(always)]
fn update_one<V: View>(
    layer: &mut Layer<V>,
    setting: Setting<'_>,
    here: Here,
    reducer: usize,
    number: i64,
) -> Did
    requires takes { HasArity 1 (slice_get setting.program.now.kinds reducer) }
    requires kinds { layer.old.kinds ≡ setting.program.now.kinds }
    ensures done { (a : PlainActivation) (o : NumberedOut ℤ) → Fills o number layer.old layer.old
        → Does here.passes_syncs here.position (λ kit. evaluated here.statement o
        (combining_one (slice_get setting.entry.program.now.kinds reducer) here.statement here.position reducer))
        a layer.old result a layer.new }
    ensures kinds { layer.new.kinds ≡ layer.old.kinds }
{
    if updates_one(layer, setting, here, reducer, number) {
        Did::Next
    } else {
        Did::Nothing
    }
}

/// The same; whether it was done. What is handed on lies in memory, so it is made here, and not for each statement.
#[inline(always)]
fn updates_one<V: View>(
    layer: &mut Layer<V>,
    setting: Setting<'_>,
    here: Here,
    reducer: usize,
    number: i64,
) -> bool
    requires takes { HasArity 1 (slice_get setting.program.now.kinds reducer) }
    requires kinds { layer.old.kinds ≡ setting.program.now.kinds }
    ensures done { (a : PlainActivation) (o : NumberedOut ℤ) → Fills o number layer.old layer.old
        → Does here.passes_syncs here.position (λ kit. evaluated here.statement o
        (combining_one (slice_get setting.entry.program.now.kinds reducer) here.statement here.position reducer))
        a layer.old (if result then Next else Nothing) a layer.new }
    ensures kinds { layer.new.kinds ≡ layer.old.kinds }
{
    updates_by(layer, setting, here, reducer, &[number])
}

/// Updates a reducer by two numbers.
#[inline(always)]
fn update_two<V: View>(
    layer: &mut Layer<V>,
    setting: Setting<'_>,
    here: Here,
    reducer: usize,
    first: i64,
    second: i64,
) -> Did
    requires takes { HasArity 2 (slice_get setting.program.now.kinds reducer) }
    requires kinds { layer.old.kinds ≡ setting.program.now.kinds }
    ensures done { (a : PlainActivation) (o : NumberedOut (List ℤ)) → o ≡ pure (first ∷ second ∷ [])
        → Does here.passes_syncs here.position (λ kit. evaluated here.statement o
        (combining (slice_get setting.entry.program.now.kinds reducer) here.statement here.position reducer))
        a layer.old result a layer.new }
    ensures kinds { layer.new.kinds ≡ layer.old.kinds }
{
    if updates_two(layer, setting, here, reducer, first, second) {
        Did::Next
    } else {
        Did::Nothing
    }
}

/// The same; whether it was done. What is handed on lies in memory, so it is made here, and not for each statement.
#[inline(always)]
fn updates_two<V: View>(
    layer: &mut Layer<V>,
    setting: Setting<'_>,
    here: Here,
    reducer: usize,
    first: i64,
    second: i64,
) -> bool
    requires takes { HasArity 2 (slice_get setting.program.now.kinds reducer) }
    requires kinds { layer.old.kinds ≡ setting.program.now.kinds }
    ensures done { (a : PlainActivation) (o : NumberedOut (List ℤ)) → o ≡ pure (first ∷ second ∷ [])
        → Does here.passes_syncs here.position (λ kit. evaluated here.statement o
        (combining (slice_get setting.entry.program.now.kinds reducer) here.statement here.position reducer))
        a layer.old (if result then Next else Nothing) a layer.new }
    ensures kinds { layer.new.kinds ≡ layer.old.kinds }
{
    updates_by(layer, setting, here, reducer, &[first, second])
}

/// Updates a reducer by as many numbers as it takes; whether that was done. Where memory is refused, or they name no element, nothing has changed.
#[inline(always)]
fn updates_by<V: View>(
    layer: &mut Layer<V>,
    setting: Setting<'_>,
    here: Here,
    reducer: usize,
    numbers: &[i64],
) -> bool
    requires takes { HasArity (length numbers.now) (slice_get setting.program.now.kinds reducer) }
    requires kinds { layer.old.kinds ≡ setting.program.now.kinds }
    ensures done { (a : PlainActivation) (o : NumberedOut (List ℤ)) → o ≡ pure numbers.now
        → Does here.passes_syncs here.position (λ kit. evaluated here.statement o
        (combining (slice_get setting.entry.program.now.kinds reducer) here.statement here.position reducer))
        a layer.old (if result then Next else Nothing) a layer.new }
    ensures kinds { layer.new.kinds ≡ layer.old.kinds }
{
    let kind = &setting.program.kinds()[reducer];
    layer.update_fitting(kind, reducer, numbers).is_ok()
}

/// Updates a reducer by the values of whatever expressions.
#[inline(always)]
fn update_by_all<V: View>(
    layer: &mut Layer<V>,
    setting: Setting<'_>,
    here: Here,
    reducer: usize,
    values: &[Expression],
    top: &mut Activation,
    numbers: &mut Vec<i64>,
) -> Did
    requires room { here.position.index + 1 < 2 ^ 64 }
    requires kinds { layer.old.kinds ≡ setting.program.now.kinds }
    ensures done { Does here.passes_syncs here.position (λ kit. evaluated here.statement
        (values_at setting.entry.tables.now.tables top.old.slots (map plain values.now))
        (combining (slice_get setting.entry.program.now.kinds reducer) here.statement here.position reducer))
        top.old layer.old result top.new layer.new }
    ensures same_block { OnNext result (IsInBlock top.old top.new) }
    ensures kinds { layer.new.kinds ≡ layer.old.kinds }
{
    if combine_some(layer, setting, here, reducer, values, top, numbers) {
        Did::Next
    } else {
        Did::Nothing
    }
}

/// Does what is to be done with a statement's value that was found with nothing to note: it goes into a slot, one of two blocks is chosen
/// by it, it is given back, or a reducer is updated by it. A second block in which there is nothing is passed by.
#[inline(always)]
fn put<V: View>(
    layer: &mut Layer<V>,
    setting: Setting<'_>,
    here: Here,
    value: i64,
    target: Target,
    top: &mut Activation,
) -> Did
    requires room { here.position.index + 1 < 2 ^ 64 }
    requires takes { TakesOne setting.program.now.kinds target }
    requires kinds { layer.old.kinds ≡ setting.program.now.kinds }
    ensures done { (o : NumberedOut ℤ) → Fills o value layer.old layer.old → Comes (lent setting.entry) here.passes_syncs here.position
        (λ kit. evaluated here.statement o (goes_on setting.entry.program.now.kinds here.statement here.position target))
        top.old layer.old result top.new layer.new }
    ensures same_block { OnNext result (IsInBlock top.old top.new) }
    ensures kinds { layer.new.kinds ≡ layer.old.kinds }
{
    match target {
        Target::Slot(name) => {
            top.bind(Some(name), Slot::Has(value));
            Did::Next
        }
        Target::Blocks(first, second) => choose_by(setting, here, value, first, second, top),
        Target::Back => Did::Gave(value),
        Target::Update(reducer) => update_one(layer, setting, here, reducer, value),
    }
}

/// Goes into one of two blocks by a value that is found with nothing to note; a second one in which there is nothing is passed by.
#[inline(always)]
fn choose_by(
    setting: Setting<'_>,
    here: Here,
    value: i64,
    first: usize,
    second: usize,
    top: &mut Activation,
) -> Did
    requires room { here.position.index + 1 < 2 ^ 64 }
    ensures done { (l : PlainLayer) (o : NumberedOut ℤ) → Fills o value l l → Comes (lent setting.entry) here.passes_syncs here.position
        (λ kit. evaluated here.statement o (choosing here.position first second)) top.old l result top.new l }
    ensures same_block { OnNext result (IsInBlock top.old top.new) }
{
    match go_by(setting.program, here.position, value, first, second, top) {
        Chosen::Nothing => Did::Nothing,
        Chosen::Passed => Did::Next,
        Chosen::Inside => Did::Moved,
    }
}

/// Goes into one of two blocks by the value that their condition has. A second one in which there is nothing is passed by.
#[inline(always)]
fn go_by(
    program: &Checked,
    position: Position,
    value: i64,
    first: usize,
    second: usize,
    top: &mut Activation,
) -> Chosen
    requires room { position.index + 1 < 2 ^ 64 }
    ensures done { (passes : Bool) (n : ℕ) (l : PlainLayer) (o : NumberedOut ℤ) → Fills o value l l
        → Chooses passes position second (λ kit. evaluated n o (choosing position first second)) top.old l result top.new l }
    ensures empty { OnPassed result (instruction_at program.now.codes top.old.procedure second 0 ≡ None) }
    ensures same_block { OnPassed result (IsInBlock top.old top.new) }
{
    if value == 0 && is_empty(program, top.procedure(), second) {
        return Chosen::Passed;
    }
    let block = if value == 0 { second } else { first };
    if top.go_inside(block, position).is_err() {
        return Chosen::Nothing;
    }
    Chosen::Inside
}

/// Whether there is nothing in a block of a procedure.
#[inline(always)]
fn is_empty(program: &Checked, procedure: usize, block: usize) -> bool
    ensures empty { result ≡ true → instruction_at program.now.codes procedure block 0 ≡ None }
{
    program.instruction(procedure, block, 0).is_none()
}

/// A statement that isn't done at once. Where it stands is handed on in memory, so it is put there here, and not for each statement.
#[inline(always)]
fn evaluate<V: View>(
    layer: &mut Layer<V>,
    setting: Setting<'_>,
    here: Here,
    operation: &Operation,
    top: &mut Activation,
    numbers: &mut Vec<i64>,
) -> Did
    requires room { here.position.index + 1 < 2 ^ 64 }
    requires kinds { layer.old.kinds ≡ setting.program.now.kinds }
    ensures done { Does here.passes_syncs here.position (λ kit. performed
        (lent setting.entry) kit here.position here.statement operation.now) top.old layer.old result top.new layer.new }
    ensures same_block { OnNext result (IsInBlock top.old top.new) }
    ensures kinds { layer.new.kinds ≡ layer.old.kinds }
{
    let here = Here {
        statement: here.statement,
        position: here.position,
        passes_syncs: here.passes_syncs,
    };
    // (each outcome is named anew: else the loop over statements would ask again what came of those that were done at once)
    match evaluate_apart(layer, setting, here, operation, top, numbers) {
        Did::Next => Did::Next,
        Did::Moved => Did::Moved,
        Did::Gave(value) => Did::Gave(value),
        Did::Nothing => Did::Nothing,
    }
}

/// The same: its values are found with all that is read for them, and that is noted where the layer keeps
/// readings. Where it has none, or memory is refused, nothing has changed. It is compiled by itself, so that the loop over statements is
/// small enough to be compiled into those around it.
#[inline(never)]
fn evaluate_apart<V: View>(
    layer: &mut Layer<V>,
    setting: Setting<'_>,
    here: Here,
    operation: &Operation,
    top: &mut Activation,
    numbers: &mut Vec<i64>,
) -> Did
    requires room { here.position.index + 1 < 2 ^ 64 }
    requires kinds { layer.old.kinds ≡ setting.program.now.kinds }
    ensures done { Does here.passes_syncs here.position (λ kit. performed
        (lent setting.entry) kit here.position here.statement operation.now) top.old layer.old result top.new layer.new }
    ensures same_block { OnNext result (IsInBlock top.old top.new) }
    ensures kinds { layer.new.kinds ≡ layer.old.kinds }
{
    match operation {
        Operation::Bind(name, value) => {
            bind_evaluated(layer, setting.tables, here, *name, value, top)
        }
        Operation::If(condition, first, second) => {
            choose_evaluated(layer, setting.tables, here, condition, *first, *second, top)
        }
        Operation::Return(value) => give_evaluated(layer, setting.tables, here, value, top),
        Operation::Update(reducer, values) => {
            update_by_all(
                layer,
                setting,
                here,
                *reducer,
                values.as_slice(),
                top,
                numbers,
            )
        }
        _ => Did::Nothing,
    }
}

/// Puts the value of whatever expression into a slot.
#[inline(always)]
fn bind_evaluated<V: View>(
    layer: &mut Layer<V>,
    tables: &Tables,
    here: Here,
    name: usize,
    expression: &Expression,
    top: &mut Activation,
) -> Did
    requires room { here.position.index + 1 < 2 ^ 64 }
    ensures done { Does here.passes_syncs here.position (λ kit. evaluated here.statement (value_at tables.now.tables top.old.slots (plain expression.now))
        (binding here.position name)) top.old layer.old result top.new layer.new }
    ensures same_block { OnNext result (IsInBlock top.old top.new) }
    ensures kinds { layer.new.kinds ≡ layer.old.kinds }
{
    let before = layer.readings();
    match layer.value(expression, top.slots(), tables) {
        Ok(value) => {
            top.bind(Some(name), Slot::Has(value));
            Did::Next
        }
        Err(_) => {
            layer.forget(before);
            Did::Nothing
        }
    }
}

/// Goes into one of two blocks by whatever condition.
#[inline(always)]
fn choose_evaluated<V: View>(
    layer: &mut Layer<V>,
    tables: &Tables,
    here: Here,
    condition: &Expression,
    first: usize,
    second: usize,
    top: &mut Activation,
) -> Did
    requires room { here.position.index + 1 < 2 ^ 64 }
    ensures done { Does here.passes_syncs here.position (λ kit. evaluated here.statement
        (value_at tables.now.tables top.old.slots (plain condition.now))
        (choosing here.position first second)) top.old layer.old result top.new layer.new }
    ensures goes { OnNext result (false ≡ true) }
    ensures kinds { layer.new.kinds ≡ layer.old.kinds }
{
    let before = layer.readings();
    match layer.value(condition, top.slots(), tables) {
        Ok(value) => {
            let block = if value == 0 { second } else { first };
            if top.go_inside(block, here.position).is_err() {
                layer.forget(before);
                return Did::Nothing;
            }
            Did::Moved
        }
        Err(_) => {
            layer.forget(before);
            Did::Nothing
        }
    }
}

/// Gives the value of whatever expression back.
#[inline(always)]
fn give_evaluated<V: View>(
    layer: &mut Layer<V>,
    tables: &Tables,
    here: Here,
    expression: &Expression,
    top: &mut Activation,
) -> Did
    ensures done { Does here.passes_syncs here.position (λ kit. evaluated here.statement
        (value_at tables.now.tables top.old.slots (plain expression.now)) giving) top.old layer.old result top.new layer.new }
    ensures same_block { OnNext result (IsInBlock top.old top.new) }
    ensures kinds { layer.new.kinds ≡ layer.old.kinds }
{
    let before = layer.readings();
    match layer.value(expression, top.slots(), tables) {
        Ok(value) => Did::Gave(value),
        Err(_) => {
            layer.forget(before);
            Did::Nothing
        }
    }
}
