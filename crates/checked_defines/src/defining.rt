//! Defines procedures of a checked program.
ghost use Rattle.std.specs.Prelude.{◌≡◌, Ok, IfOk, IfErr};
ghost use Rattle.meaning.specs.Edits.{after_define};
ghost use Rattle.meaning.specs.TreeView.{tree, lines};
ghost use Rattle.linked_program.specs.TableNames.{columned_of};
ghost use Rattle.linked_program.specs.Checked.{revised_of};
ghost use Rattle.trail_theory.specs.KeptRecords.{RecordsStaySound};
ghost use Rattle.trail_theory.specs.MadeRecords.{IsLater};
ghost use Rattle.checked_defines.specs.Readers.{reads_text, checks_rules};
ghost use Rattle.checked_defines.specs.Standings.{standing, answer_to, HasPut, KeepsPlaces};
ghost use Rattle.checked_defines.specs.Causes.{IsDefineCause};

use crate::refusal::{DefineError, unchecked, unread};
use input_tables::Tables;
use linked_program::checked::Checked;
use meaning::tree::Program;
use procedure_parser::parse_define;
use spawn_checker::redefine;
use std::alloc::Global;

// A program with procedures put in, in the place of the checked one that it had been.
fn in_place(
    alloc: Global,
    checked: &Checked,
    tables: &Tables,
    program: Program,
) -> Result<Checked, DefineError>
    requires put { HasPut (tree checked.now.program, lines checked.now.program)
        (tree program, lines program) }
    ensures defined { IfOk result (λ new. answer_to (standing checked.now tables.now) program
        ≡ Ok (standing new tables.now)) }
    ensures refused { IfErr result (λ error.
        IsDefineCause (answer_to (standing checked.now tables.now) program) error) }
    ensures later { IfOk result (λ new. IsLater (revised_of checked.now) (revised_of new)) }
    ensures sound { IfOk result (λ new. RecordsStaySound (revised_of checked.now) (revised_of new)) }
    ensures tables { IfOk result (λ new. new.tables ≡ columned_of tables.now.tables) }
    ensures kinds { IfOk result (λ new. new.kinds ≡ checked.now.kinds) }
    ensures places { IfOk result (λ new. KeepsPlaces (tree checked.now.program) (tree new.program)) }
{
    match redefine(alloc, checked, program, tables) {
        Ok(new) => {
            // What the types of both keep, and that the new counter fits 64 bits.
            checked.clean();
            checked.linked();
            checked.revised();
            new.linked();
            new.counter();
            Ok(new)
        }
        Err(error) => Err(unchecked(error)),
    }
}

/// The checked program with the procedures of a text put in, checked anew beside the same tables: each stands in the place of
/// the one of its name, a new name goes last. A procedure whose tree is as it was, lines aside, keeps its revision number; a
/// changed or new one gets a number that was never used.
///
/// Refused by the text's first fault, else by the program's first violation, else as exhausted where a new number would not fit 64 bits; or for want of memory.
pub fn define(
    alloc: Global,
    checked: &Checked,
    tables: &Tables,
    text: &[u8],
) -> Result<Checked, DefineError>
    // The new program is the one that the definitions' edit leaves.
    ensures defined { IfOk result (λ new.
        after_define reads_text checks_rules (standing checked.now tables.now) text.now
        ≡ Ok (standing new tables.now)) }
    // Each refusal is the definitions' one.
    ensures refused { IfErr result (λ error. IsDefineCause
        (after_define reads_text checks_rules (standing checked.now tables.now) text.now) error) }
    // A procedure whose revision number is as it was is the same, and the reducers are the same.
    ensures later { IfOk result (λ new. IsLater (revised_of checked.now) (revised_of new)) }
    // Records that were sound are sound.
    ensures sound { IfOk result (λ new.
        RecordsStaySound (revised_of checked.now) (revised_of new)) }
    ensures tables { IfOk result (λ new. new.tables ≡ columned_of tables.now.tables) }
    ensures kinds { IfOk result (λ new. new.kinds ≡ checked.now.kinds) }
    // Each procedure stands where it stood.
    ensures places { IfOk result (λ new.
        KeepsPlaces (tree checked.now.program) (tree new.program)) }
{
    match parse_define(alloc, text, checked.program()) {
        Ok(program) => in_place(alloc, checked, tables, program),
        Err(error) => Err(unread(error)),
    }
}
