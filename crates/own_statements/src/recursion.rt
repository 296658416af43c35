//! Procedures that call themselves and note nothing: the value of such a call is found without an instance on the strand. Where it
//! isn't, nothing has changed.
ghost use Rattle.std.specs.Prelude.{◌≡◌, ◌-◌, ◌≤◌, [], List, IfSome, true, false, ℕ, length, map, min};
ghost use Rattle.meaning.specs.Tables.{Tables as TableList};
ghost use Rattle.linked_program.specs.CodeView.{expression as plain, memo_of, slots_of};
ghost use Rattle.evaluation.specs.declared.slot.Slot.TheVariants.{Has};
ghost use Rattle.evaluation.specs.Values.{value_at, pure};
ghost use Rattle.record_theory.specs.Record.{PlainRecord};
ghost use Rattle.positions.specs.Activations.{with_slot};
ghost use Rattle.positions.specs.Layers.{PlainLayer};
ghost use Rattle.positions.specs.Setting.{setting_with};
ghost use Rattle.own_statements.specs.Recursion.{FoundBy, Gives, InsideBy, IsBegun, IsCalled, ReturnsBy, begun, deep};
ghost use Rattle.own_statements.specs.Runs.{IsBody};

use activations::code::instruction;
use evaluation::slot::Slot;
use evaluation::unread;
use evaluation::values::without_reading;
use linked_program::checked::Checked;
use linked_program::code::{Expression, Instruction, Operation};
use meaning::tree::Way;
use positions::work::Position;

// So many slots an instance has at most: they lie in an array.
const WIDEST: usize = 8;

/// What is found of a statement: nothing; the next one of the block is next; or that value is given back.
#[derive(Clone, Copy)]
pub enum Found {
    Nothing,
    Next,
    Gave(i64),
}

/// A procedure whose instances call no other one: its number, and its body; and how many levels there are below an instance.
#[derive(Clone, Copy)]
pub struct Own<'a> {
    pub procedure: usize,
    pub body: &'a [Instruction],
    pub left: u32,
}

/// An instance that is to be entered: whether it is called, of which procedure it is, and its arguments.
#[derive(Clone, Copy)]
pub struct Enters<'a> {
    pub way: Way,
    pub callee: usize,
    pub arguments: &'a [Expression],
}

/// Whether an instance that is entered so is spawned.
#[inline(always)]
pub(crate) fn is_spawn(way: Way) -> bool
    ensures call { result ≡ false → way ≡ Way.Call }
{
    match way {
        Way::Call => false,
        Way::Spawn => true,
    }
}

/// The value of an expression that reads nothing, if it has one.
#[inline(always)]
fn number(expression: &Expression, slots: &[Slot]) -> Option<i64>
    ensures value { IfSome result (λ v. (all : TableList) → value_at all slots.now (plain expression.now) ≡ pure v) }
{
    match without_reading(expression, slots) {
        Some(value) => Some(value),
        None => unread::value(expression, slots),
    }
}

/// Puts a value into a slot, where there is such a slot.
#[inline(always)]
fn put(slots: &mut [Slot], name: Option<usize>, value: i64)
    ensures put { slots.new ≡ with_slot name (Has value) slots.old }
    ensures size { length slots.new ≡ length slots.old }
{
    if let Some(name) = name {
        if name < slots.len() {
            slots[name] = Slot::Has(value);
        }
    }
}

/// What is found of a block's first statement, where that is a return.
#[inline(always)]
fn returned(first: &Instruction, slots: &[Slot]) -> Found
    ensures returned { (tables : TableList) → ReturnsBy tables first.now.operation slots.now result }
{
    match &first.operation {
        Operation::Return(expression) => match number(expression, slots) {
            Some(value) => Found::Gave(value),
            None => Found::Nothing,
        },
        _ => Found::Nothing,
    }
}

/// What is found of a block within the body: there is nothing in it, or it begins with a return.
#[inline(always)]
fn inside(program: &Checked, procedure: usize, block: usize, slots: &[Slot]) -> Found
    ensures inside { (tables : TableList) → InsideBy program.now.codes tables procedure block slots.now result }
{
    match instruction(program, procedure, 1, Position { block, index: 0 }) {
        None => Found::Next,
        Some(first) => returned(first, slots),
    }
}

/// What is found of a statement of the body that calls nothing.
#[inline(always)]
fn found_alone(
    program: &Checked,
    procedure: usize,
    position: Position,
    statement: &Instruction,
    slots: &mut [Slot],
) -> Found
    ensures found { (tables : TableList) (records : List PlainRecord) → FoundBy (setting_with program.now tables [] records)
        procedure position statement.now slots.old result slots.new }
    ensures size { length slots.new ≡ length slots.old }
{
    match &statement.operation {
        Operation::Bind(name, expression) => match number(expression, slots) {
            Some(value) => {
                put(slots, Some(*name), value);
                Found::Next
            }
            None => Found::Nothing,
        },
        Operation::If(condition, first, second) => match number(condition, slots) {
            Some(value) => {
                let block = if value == 0 { *second } else { *first };
                inside(program, procedure, block, slots)
            }
            None => Found::Nothing,
        },
        Operation::Return(expression) => match number(expression, slots) {
            Some(value) => Found::Gave(value),
            None => Found::Nothing,
        },
        Operation::Sync => Found::Next,
        _ => Found::Nothing,
    }
}

/// The value of an instance with those slots; and the least number of levels below one that was entered.
#[cycle(calling)]
fn value_of(program: &Checked, own: Own<'_>, slots: &mut [Slot], least: &mut u32) -> Option<i64>
    requires body { IsBody program.now.codes own.procedure own.body.now }
    requires plain { memo_of program.now.codes own.procedure ≡ false }
    requires size { length slots.old ≡ slots_of program.now.codes own.procedure }
    ensures gives { IfSome result (λ v. (tables : TableList) (records : List PlainRecord) (l : PlainLayer)
        → Gives (setting_with program.now tables [] records) (begun own.entry.procedure own.entry.left slots.old)
        (deep own.entry.procedure least.old l) v (deep own.entry.procedure least.new l)) }
{
    let body = own.body;
    let mut index = 0;
    while index < body.len() {
        let statement = &body[index];
        if let Operation::Enter(into, way, callee, arguments) = &statement.operation {
            let enters = Enters {
                way: *way,
                callee: *callee,
                arguments: arguments.as_slice(),
            };
            match called(program, own, slots, enters, least) {
                Some(value) => {
                    put(slots, *into, value);
                    index += 1;
                    continue;
                }
                None => return None,
            }
        }
        let position = Position { block: 0, index };
        match found_alone(program, own.procedure, position, statement, slots) {
            Found::Next => index += 1,
            Found::Gave(value) => return Some(value),
            Found::Nothing => return None,
        }
    }
    Some(0)
}

/// Puts the values of arguments into the first slots; whether each has one.
#[inline(always)]
fn begin(window: &mut [Slot], arguments: &[Expression], slots: &[Slot]) -> bool
    requires room { length arguments.now ≤ length window.old }
    ensures begun { result ≡ true → IsBegun slots.now (map plain arguments.now) window.old window.new }
{
    for place in 0..arguments.len() {
        match number(&arguments[place], slots) {
            Some(value) => window[place] = Slot::Has(value),
            None => return false,
        }
    }
    true
}

/// The value of an instance that one with those slots enters, where it is called and of the same procedure.
#[inline(always)]
#[cycle(calling)]
pub fn called(
    program: &Checked,
    own: Own<'_>,
    slots: &[Slot],
    enters: Enters<'_>,
    least: &mut u32,
) -> Option<i64>
    requires body { IsBody program.now.codes own.procedure own.body.now }
    requires plain { memo_of program.now.codes own.procedure ≡ false }
    requires size { length slots.now ≡ slots_of program.now.codes own.procedure }
    ensures called { IfSome result (λ v. IsCalled program.now own.entry.procedure own.entry.left least.old slots.now enters.entry.way
        enters.entry.callee (map plain enters.entry.arguments.now) v least.new) }
{
    if is_spawn(enters.way) || enters.callee != own.procedure || own.left == 0 {
        return None;
    }
    let size = slots.len();
    if size > WIDEST || enters.arguments.len() > size {
        return None;
    }
    let mut window = [Slot::Unset; WIDEST];
    if !begin(&mut window[..], enters.arguments, slots) {
        return None;
    }
    let left = own.left - 1;
    *least = (*least).min(left);
    let child = Own {
        procedure: own.procedure,
        body: own.body,
        left,
    };
    value_of(program, child, &mut window[..size], least)
}
