//! The slots that an instance begins with.

ghost use Rattle.std.specs.Prelude.{◌≡◌, [], map};
ghost use Rattle.linked_program.specs.CodeView.{expression as plain};
ghost use Rattle.evaluation.specs.Values.{entry_at};
ghost use Rattle.evaluation.specs.Ends.{Ends, Stops};

use crate::notes::Notes;
use crate::slot::Slot;
use crate::stop::Stop;
use crate::values::evaluated;
use input_tables::Tables;
use linked_program::code::Expression;

/// The slots of an instance of `size` names that is entered with these arguments: their values, and then no values; or the
/// first fault. What they read is noted. Where memory is refused the notes are as they were. They stand in `room`, an empty list.
pub fn entry_slots(
    room: Vec<Slot>,
    size: usize,
    arguments: &[Expression],
    slots: &[Slot],
    tables: &Tables,
    notes: &mut Notes,
) -> Result<Vec<Slot>, Stop>
    requires empty { room.items ≡ [] }
    ensures ends { Ends (λ v. v.items) (entry_at tables.now.tables slots.now size
        (map plain arguments.now)) notes.old notes.new result }
{
    let mut made = room;
    match fill_slots(&mut made, size, arguments, slots, tables, notes) {
        Ok(()) => Ok(made),
        Err(stop) => Err(stop),
    }
}

/// Puts the slots of an instance of `size` names that is entered with these arguments in place of what `made` held: their values,
/// and then no values; or finds the first fault. What they read is noted. Where memory is refused the notes are as they were.
pub fn fill_slots(
    made: &mut Vec<Slot>,
    size: usize,
    arguments: &[Expression],
    slots: &[Slot],
    tables: &Tables,
    notes: &mut Notes,
) -> Result<(), Stop>
    ensures ends { Ends (λ u. made.new.items) (entry_at tables.now.tables slots.now size
        (map plain arguments.now)) notes.old notes.new result }
{
    let before = notes.len();
    made.clear();
    match put_values(made, size, arguments, slots, tables, notes) {
        Ok(()) => Ok(()),
        Err(Stop::Fault(kind)) => Err(Stop::Fault(kind)),
        Err(Stop::NoMemory) => {
            notes.truncate(before);
            Err(Stop::NoMemory)
        }
    }
}

// The slots of a new instance in an empty list; where memory is refused, the notes so far stay.
#[inline(always)]
fn put_values(
    made: &mut Vec<Slot>,
    size: usize,
    arguments: &[Expression],
    slots: &[Slot],
    tables: &Tables,
    notes: &mut Notes,
) -> Result<(), Stop>
    requires empty { made.old.items ≡ [] }
    ensures stops { Stops (λ u. made.new.items) (entry_at tables.now.tables slots.now size (map plain arguments.now)) notes.old notes.new result }
{
    if made.reserve(size).is_err() {
        return Err(Stop::NoMemory);
    }
    for argument in arguments {
        match evaluated(argument, slots, tables, notes) {
            Ok(value) => {
                if made.push(Slot::Has(value)).is_err() {
                    return Err(Stop::NoMemory);
                }
            }
            Err(stop) => return Err(stop),
        }
    }
    if made.resize(size, Slot::Unset).is_err() {
        return Err(Stop::NoMemory);
    }
    Ok(())
}
