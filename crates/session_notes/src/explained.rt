// Who explains what of a script is refused, the faults of its runs, and what their memo instances come to.
ghost use Rattle.std.specs.Prelude.{◌≡◌, true, false};
ghost use Rattle.numbered_runs.specs.Come.{HasEnded};
ghost use Rattle.record_theory.specs.InStep.{IsInStep};

use crate::notes::Notes;
use input_tables::Tables;
use linked_program::checked::Checked;
use numbered_runs::step::BookStep;
use positions::answer::RunAnswer;
use positions::phase::Fault;
use rerun_records::records::Records;
use session_edits::{Edit, EditError};

/// What is explained.
#[derive(Clone, Copy)]
pub enum Cause<'a> {
    /// An edit that is refused, and why.
    Edit(&'a Edit<'a>, &'a EditError),
    /// The line of a script that is no command, without its end, and its number, counted from 1.
    Line(&'a [u8], usize),
    /// The fault of the run of that number, counted from 1.
    Fault(usize, &'a Fault),
}

/// By how many workers and kits a run is done.
#[derive(Clone, Copy)]
pub struct Crew {
    pub workers: usize,
    pub kits: usize,
}

/// Who explains.
pub trait Explain {
    /// Is told of one more cause, with the program and the tables as they are then; what is refused changes neither.
    fn explain(&mut self, cause: Cause<'_>, checked: &Checked, tables: &Tables);

    /// Is told of a run that begins, with the program, the tables and the records as they are then.
    fn begin(&mut self, crew: Crew, checked: &Checked, tables: &Tables, records: &Records)
        requires in_step { IsInStep tables.now.tables records.now };

    /// Is told what the run that began last came to, by its number, counted from 1.
    fn end(&mut self, number: usize, answer: &RunAnswer);
}

/// Notes, and who explains, if somebody does: what is refused and the faults, or the memo instances of runs by that crew, or both.
#[derive(Drop)]
pub struct Explained<N: Notes + Drop, X: Explain + Drop> {
    pub notes: N,
    pub explain: Option<X>,
    pub refusals: bool,
    pub crew: Option<Crew>,
}

impl<N: Notes + Drop, X: Explain + Drop> Notes for Explained<N, X> {
    ghost failed = { λ e. N.failed e.notes };

    fn run(
        &mut self,
        number: usize,
        answer: &RunAnswer,
        history: &[BookStep],
        kits: (usize, usize),
    ) -> bool {
        let noted = self.notes.run(number, answer, history, kits);
        if self.crew.is_some() {
            if let Some(explain) = &mut self.explain {
                explain.end(number, answer);
            }
        }
        noted
    }

    fn begin(&mut self, checked: &Checked, tables: &Tables, records: &Records) {
        if let Some(crew) = self.crew {
            if let Some(explain) = &mut self.explain {
                explain.begin(crew, checked, tables, records);
            }
        }
    }

    fn explain(&mut self, cause: Cause<'_>, checked: &Checked, tables: &Tables) {
        if self.refusals {
            if let Some(explain) = &mut self.explain {
                explain.explain(cause, checked, tables);
            }
        }
    }
}
