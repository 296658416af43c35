// Edits of a session, one kind after another.
ghost use Rattle.std.specs.Prelude.{◌≡◌, Ok, map, IfErr, OnOk, OnErr};
ghost use Rattle.meaning.specs.Edits.{Put, Delete, Define, after_put, after_delete, after_define};
ghost use Rattle.checked_defines.specs.Readers.{reads_text, checks_rules};
ghost use Rattle.record_theory.specs.Record.{as_made};
ghost use Rattle.kept_session.specs.Sessions.{standing_of};
ghost use Rattle.kept_session.specs.Applied.{IsApplyCause};

use crate::refusal::{ApplyError, undefined, unput};
use crate::session::Session;
use session_edits::EditError;
use std::alloc::Global;
use view_pool::View;

impl<V: View> Session<V> {
    /// Puts a row into a table.
    pub(crate) fn put(
        &mut self,
        alloc: Global,
        table: &str,
        row: i64,
        values: &[i64],
    ) -> Result<(), ApplyError>
        ensures put { OnOk result (after_put (standing_of self.old) table.now row values.now
            ≡ Ok (standing_of self.new)) }
        ensures refused { IfErr result (IsApplyCause (Put table.now row values.now)
            (after_put (standing_of self.old) table.now row values.now)) }
        ensures same { OnErr result (self.new ≡ self.old) }
        ensures others { self.new
            ≡ record self.old { tables = self.new.tables; records = self.new.records } }
        ensures records { map as_made self.new.records ≡ map as_made self.old.records }
    {
        // What edits are found by may take memory, so it is made before anything has changed.
        self.records.cover();
        match self.tables.put(alloc, table, row, values) {
            Ok(number) => {
                self.records.row_changed(&self.tables, number, row);
                Ok(())
            }
            Err(error) => Err(unput(error)),
        }
    }

    /// Takes a row out of a table.
    pub(crate) fn delete(&mut self, table: &str, row: i64) -> Result<(), ApplyError>
        ensures deleted { OnOk result (after_delete (standing_of self.old) table.now row
            ≡ Ok (standing_of self.new)) }
        ensures refused { IfErr result (IsApplyCause (Delete table.now row)
            (after_delete (standing_of self.old) table.now row)) }
        ensures same { OnErr result (self.new ≡ self.old) }
        ensures others { self.new
            ≡ record self.old { tables = self.new.tables; records = self.new.records } }
        ensures records { map as_made self.new.records ≡ map as_made self.old.records }
    {
        self.records.cover();
        match self.tables.delete(table, row) {
            Ok(number) => {
                self.records.row_changed(&self.tables, number, row);
                Ok(())
            }
            Err(error) => Err(ApplyError::Refused(EditError::Row(error))),
        }
    }

    /// Puts the procedures of a text into the program.
    pub(crate) fn define(&mut self, alloc: Global, text: &[u8]) -> Result<(), ApplyError>
        ensures defined { OnOk result
            (after_define reads_text checks_rules (standing_of self.old) text.now
            ≡ Ok (standing_of self.new)) }
        ensures refused { IfErr result (IsApplyCause (Define text.now)
            (after_define reads_text checks_rules (standing_of self.old) text.now)) }
        ensures same { OnErr result (self.new ≡ self.old) }
        ensures others { self.new ≡ record self.old { checked = self.new.checked } }
    {
        match checked_defines::define(alloc, &self.checked, &self.tables, text) {
            Ok(checked) => {
                // What the types of both programs keep: so the names of the first procedures are as they were.
                self.checked.revised();
                checked.revised();
                self.records.procedures_changed(&checked);
                self.checked = checked;
                Ok(())
            }
            Err(error) => Err(undefined(error)),
        }
    }
}
