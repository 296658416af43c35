// Who is told of a session's runs.
ghost use Rattle.std.specs.Prelude.{◌≡◌, Bool, true, false};
ghost use Rattle.numbered_runs.specs.Come.{HasEnded};
ghost use Rattle.record_theory.specs.InStep.{IsInStep};

use crate::explained::Cause;
use input_tables::Tables;
use linked_program::checked::Checked;
use numbered_runs::step::BookStep;
use positions::answer::RunAnswer;
use rerun_records::records::Records;

/// Who is told of each run that came to a result or a fault, and of what is refused.
pub trait Notes {
    // Whether it has failed.
    ghost failed: { Self → Bool };

    /// Tells of the run of that number, counted from 1: what it came to, the history of its list of strands, and how many kits
    /// are free, of how many. False where it couldn't be noted, which is a failure; nothing else is one.
    fn run(
        &mut self,
        number: usize,
        answer: &RunAnswer,
        history: &[BookStep],
        kits: (usize, usize),
    ) -> bool
        requires ended { HasEnded answer.now }
        ensures failed { result ≡ false → failed self.new ≡ true }
        ensures unmarked { result ≡ true → failed self.new ≡ failed self.old };

    /// Tells that a run begins, with the program, the tables and the records as they are then. That it isn't noted is no failure.
    fn begin(&mut self, _checked: &Checked, _tables: &Tables, _records: &Records)
        requires in_step { IsInStep _tables.now.tables _records.now }
        ensures same { failed self.new ≡ failed self.old }
    {}

    /// Tells of an edit or a line that is refused, or of a run's fault, with the program and the tables as they are then.
    /// That it isn't explained is no failure.
    fn explain(&mut self, _cause: Cause<'_>, _checked: &Checked, _tables: &Tables)
        ensures same { failed self.new ≡ failed self.old }
    {}
}

/// Tells nobody.
#[derive(Clone, Copy)]
pub struct NoNotes;

impl Notes for NoNotes {
    ghost failed = { λ _. false };

    fn run(
        &mut self,
        _number: usize,
        _answer: &RunAnswer,
        _history: &[BookStep],
        _kits: (usize, usize),
    ) -> bool {
        true
    }
}
