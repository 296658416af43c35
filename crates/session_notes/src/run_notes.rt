// Notes of runs, written: the history of each to the trace, and what is counted of each beside it.
ghost use Rattle.std.specs.Prelude.{◌≡◌, ◌≢◌, ◌⊎◌, ℕ, List, None, Some, true, false, IfErr, IfOk, IsSome, OnOk, string_bytes};
ghost use Rattle.std.specs.Io.KnownBytes.{Appends};
ghost use Rattle.numbered_runs.specs.Named.{history as steps_of};
ghost use Rattle.trace_report.specs.Traces.{stats_text, trace_text};
ghost use Rattle.numbered_runs.specs.Come.{HasEnded};
ghost use Rattle.session_notes.specs.declared.run_notes.NotesError.TheVariants as notes;
ghost use Rattle.program_endings.specs.declared.session_error.SessionError.TheVariants as ended;
ghost use Rattle.session_notes.specs.Noted.{Noted, has_failed, known_of, run_counts_text};

use crate::notes::Notes;
use numbered_runs::step::BookStep;
use positions::answer::RunAnswer;
use program_endings::session_error::SessionError;
use program_endings::streams::{Failures, flush, write_whole};
use std::alloc::{AllocError, Global};
use std::io::Write;
use std::marker::Model;
use trace_report::trace::{RunCounts, folds, history_text, stats_text, steals};

/// Why a run couldn't be noted: memory was refused, or a write of its history or of its counts failed.
#[derive(Clone, Copy)]
pub enum NotesError {
    NoMemory,
    Trace,
    Counts,
}

impl From<AllocError> for NotesError {
    ghost from_gives = { λ _ e. e ≡ notes.NoMemory };

    fn from(_e: AllocError) -> NotesError {
        NotesError::NoMemory
    }
}

/// Writes the history of each run to one writer, and what is counted of it to another, where there are such. All that is
/// written of a run is flushed before the next begins.
#[derive(Drop)]
pub struct RunNotes<T: Write + Drop, C: Write + Drop> {
    alloc: Global,
    trace: Option<T>,
    counts: Option<C>,
    failure: Option<NotesError>,
}

impl<T: Write + Drop, C: Write + Drop> Model for RunNotes<T, C> {
    ghost Value = { Noted };

    ghost view = { λ n. record {
      trace = known_of T.contents n.trace;
      counts = known_of C.contents n.counts;
      failure = n.failure;
    } };
}

impl<T: Write + Drop, C: Write + Drop> RunNotes<T, C> {
    /// Notes to these writers.
    pub fn new(alloc: Global, trace: Option<T>, counts: Option<C>) -> RunNotes<T, C>
        ensures trace { result.trace ≡ known_of T.contents trace }
        ensures counts { result.counts ≡ known_of C.contents counts }
        ensures fresh { result.failure ≡ None }
    {
        RunNotes {
            alloc,
            trace,
            counts,
            failure: None,
        }
    }

    /// Why a run couldn't be noted, if there was one.
    pub fn failure(&self) -> Option<NotesError>
        ensures failure { result ≡ self.now.failure }
    {
        self.failure
    }

    // Notes a run that came to its end. Both texts are made before one is written: a run for which memory is refused here has neither.
    fn note(
        &mut self,
        number: usize,
        answer: &RunAnswer,
        history: &[BookStep],
        kits: (usize, usize),
    ) -> Result<(), NotesError>
        ensures trace { OnOk result (Appends self.old.trace self.new.trace
            (trace_text number (steps_of history.now))) }
        ensures counts { OnOk result (Appends self.old.counts self.new.counts
            (run_counts_text number answer.now (steps_of history.now) kits)) }
        ensures unmarked { self.new.failure ≡ self.old.failure }
    {
        let trace = trace_for(self.alloc, &self.trace, number, history)?;
        let counts = counts_for(self.alloc, &self.counts, number, answer, history, kits)?;
        write_noted(&mut self.trace, trace.as_str(), NotesError::Trace)?;
        write_noted(&mut self.counts, counts.as_str(), NotesError::Counts)
    }
}

impl<T: Write + Drop, C: Write + Drop> Notes for RunNotes<T, C> {
    ghost failed = { has_failed };

    fn run(
        &mut self,
        number: usize,
        answer: &RunAnswer,
        history: &[BookStep],
        kits: (usize, usize),
    ) -> bool
        requires ended { HasEnded answer.now }
        ensures failed { result ≡ false → has_failed self.new ≡ true }
        ensures unmarked { result ≡ true → has_failed self.new ≡ has_failed self.old }
        ensures trace { result ≡ true → Appends self.old.trace self.new.trace
            (trace_text number (steps_of history.now)) }
        ensures counts { result ≡ true → Appends self.old.counts self.new.counts
            (run_counts_text number answer.now (steps_of history.now) kits) }
    {
        match self.note(number, answer, history, kits) {
            Ok(()) => true,
            Err(error) => {
                self.failure = Some(error);
                false
            }
        }
    }
}

// The text of a run's history, if there is a trace for it.
fn trace_for<T: Write>(
    alloc: Global,
    trace: &Option<T>,
    number: usize,
    history: &[BookStep],
) -> Result<String, NotesError>
    ensures { IfOk result (λ text. IsSome trace.now
        → string_bytes text ≡ trace_text number (steps_of history.now)) }
{
    match trace {
        None => Ok(String::new(alloc)),
        Some(_) => Ok(history_text(alloc, number, history)?),
    }
}

// The line of what is counted of a run, if there is a stream for it.
fn counts_for<C: Write>(
    alloc: Global,
    counts: &Option<C>,
    number: usize,
    answer: &RunAnswer,
    history: &[BookStep],
    kits: (usize, usize),
) -> Result<String, NotesError>
    ensures { IfOk result (λ text. IsSome counts.now
        → string_bytes text ≡ run_counts_text number answer.now (steps_of history.now) kits) }
{
    match counts {
        None => Ok(String::new(alloc)),
        Some(_) => Ok(stats_text(alloc, number, counts_of(answer, history, kits))?),
    }
}

// Writes a text, if there is a writer for it; refused as by `write_text`.
fn write_noted<W: Write>(
    to: &mut Option<W>,
    text: &str,
    failed: NotesError,
) -> Result<(), NotesError>
    ensures written { OnOk result
        (Appends (known_of W.contents to.old) (known_of W.contents to.new) text.now) }
    ensures refused { IfErr result (λ e. (e ≡ notes.NoMemory) ⊎ (e ≡ failed)) }
{
    match to {
        None => Ok(()),
        Some(to) => write_text(to, text, failed, &mut Failures::none()),
    }
}

// What is counted of a run: nothing of one that came to no result.
fn counts_of(answer: &RunAnswer, history: &[BookStep], kits: (usize, usize)) -> Option<RunCounts>
    ensures { (n : ℕ) → stats_text n result
        ≡ run_counts_text n answer.now (steps_of history.now) kits }
{
    match answer {
        RunAnswer::Finished {
            executed,
            reused,
            unrecorded,
            ..
        } => Some(RunCounts {
            executed: *executed as usize,
            reused: *reused as usize,
            unrecorded: *unrecorded as usize,
            steals: steals(history),
            folds: folds(history),
            free: kits.0,
            kits: kits.1,
        }),
        RunAnswer::Fault(_) | RunAnswer::Unfinished | RunAnswer::NoMemory | RunAnswer::NoKit =>
            None,
    }
}

// Writes a text and flushes it; the error is the one for a write or a flush that failed, which is noted, or that memory was refused.
fn write_text<W: Write>(
    writer: &mut W,
    text: &str,
    failed: NotesError,
    failures: &mut Failures,
) -> Result<(), NotesError>
    ensures written { OnOk result (Appends (W.contents writer.old) (W.contents writer.new) text.now) }
    ensures unmarked { OnOk result (failures.new ≡ failures.old) }
    ensures refused { IfErr result (λ e. ((e ≡ notes.NoMemory) × (failures.new ≡ failures.old))
        ⊎ ((e ≡ failed) × (failures.new.output ≡ true))) }
{
    match write_whole(writer, text.as_bytes(), failures) {
        Ok(()) => match flush(writer, failures) {
            Ok(()) => Ok(()),
            Err(error) => Err(reason(&error, failed)),
        },
        Err(error) => Err(reason(&error, failed)),
    }
}

// What such an error of a write or a flush is to the notes.
fn reason(error: &SessionError, failed: NotesError) -> NotesError
    ensures memory { error.now ≡ ended.NoMemory → result ≡ notes.NoMemory }
    ensures failed { error.now ≢ ended.NoMemory → result ≡ failed }
{
    match error {
        SessionError::NoMemory => NotesError::NoMemory,
        _ => failed,
    }
}
