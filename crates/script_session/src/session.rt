// The answers to a session's script, from a reader to a writer.
ghost use Rattle.std.specs.Prelude.{◌≡◌, ◌≢◌, ◌⊎◌, ◌+◌, ◌<◌, ◌≤◌, ◌^◌, [], true, Err, length, IfOk, IfErr, IfSome, OnOk, OnErr};
ghost use Rattle.std.specs.Io.KnownBytes.{Appends, Keeps, IsAtEnd};
ghost use Rattle.meaning.specs.Script.{commands as commands_of};
ghost use Rattle.meaning.specs.Text.{edit_text, runs_after};
ghost use Rattle.session_edits.specs.Said as edits;
ghost use Rattle.script_reader.specs.Said.{said};
ghost use Rattle.kept_session.specs.Sessions.{AreNewFor, standing_of};
ghost use Rattle.kept_session.specs.Applied.{edited};
ghost use Rattle.trace_report.specs.Outcomes.{Extends};
ghost use Rattle.script_session.specs.Answers.{IsLeftByFirst, MayBeLeft, answer_text, left_by_edit, left_by_script, run_answer, standing_after};
ghost use Rattle.script_session.specs.Sessions.{Leaves, LeavesByFirst, answers_of};
ghost use Rattle.numbered_runs.specs.Come.{HasCome, HasEnded};
ghost use Rattle.session_runs.specs.Runs.{IsFromScratch};
ghost use Rattle.program_endings.specs.Endings.{CarriesRefusal, IsAnswerError, IsRunError, IsWriterError};
ghost use Rattle.program_endings.specs.Written.{HasBeginning, WritesAll, WritesBeginning};

use crate::runner::Runner;
use input_tables::Tables;
use kept_session::{ApplyError, Session};
use linked_program::checked::Checked;
use numbered_runs::step::BookStep;
use positions::answer::RunAnswer;
use program_endings::session_error::SessionError;
use program_endings::streams::{Failures, flush, read_all, write_whole};
use script_reader::command::Command;
use script_reader::script::commands;
use session_edits::Edit;
use session_notes::explained::Cause;
use session_notes::notes::Notes;
use std::alloc::{AllocError, Global};
use std::io::{Read, Write};
use std::sync::Wait;
use std::thread::Threads;
use threaded_driver::{Ended, Gate, Tally, run_unsettled};
use trace_report::answers::{answer_text, push_unknown};
use trace_report::edits::{push_accepted, push_edit_refusal};
use view_pool::View;

/// Answers the script that a reader has, all of it read before anything runs. Each run is by as many threads as the runner has,
/// 1 to 16, which its gate watches; the notes are told of each that comes to a result or a fault, and of what is refused. It ends
/// early where memory is refused, no kit is free, a run's list of strands refuses a worker, a run can't be noted, or a read, a
/// write or a flush fails; a failed read leaves the writer as it was. It is noted which streams failed: a failed read is answered
/// where the reader is noted, and nowhere else is the reader noted; a failed write is answered where the writer is noted. The
/// writer is noted besides where its flush fails after another error has ended the session, and that error is answered.
pub fn session_text<V: View, N: Notes, R: Read, W: Write, T: Threads + Wait + Sync, G: Gate>(
    runner: &Runner<'_, T, G>,
    session: Session<V>,
    notes: &mut N,
    reader: &mut R,
    writer: &mut W,
    failures: &mut Failures,
) -> Result<(), SessionError>
    requires workers { (0 < runner.now.workers) × (runner.now.workers ≤ 16) }
    ensures answered { OnOk result (WritesAll (answers_of session)
        (R.remaining reader.old) (W.contents writer.old) (W.contents writer.new)) }
    ensures over { OnOk result (IsAtEnd (R.remaining reader.new)) }
    ensures unread { result ≡ Err SessionError.Read
        → Keeps (W.contents writer.old) (W.contents writer.new) }
    ensures beginning { WritesBeginning (answers_of session)
        (R.remaining reader.old) (W.contents writer.old) (W.contents writer.new) }
    ensures no_kit { result ≡ Err SessionError.NoKit → session.kits.kits ≡ [] }
    ensures mismatch { IfErr result CarriesRefusal }
    ensures input { result ≡ Err SessionError.Read → failures.new.input ≡ true }
    ensures output { result ≡ Err SessionError.Write → failures.new.output ≡ true }
    ensures unmarked { OnOk result (failures.new ≡ failures.old) }
    ensures input_stays { result ≢ Err SessionError.Read
        → failures.new.input ≡ failures.old.input }
    ensures output_unread { result ≡ Err SessionError.Read
        → failures.new.output ≡ failures.old.output }
    ensures output_stays { failures.old.output ≡ true → failures.new.output ≡ true }
    ensures notes { result ≡ Err SessionError.Notes → N.failed notes.new ≡ true }
    ensures notes_stay { result ≢ Err SessionError.Notes
        → N.failed notes.new ≡ N.failed notes.old }
{
    let mut session = session;
    let mut left = Tally::new(runner.alloc);
    let answered = answer_whole(
        runner,
        &mut session,
        notes,
        reader,
        writer,
        failures,
        &mut left,
    );
    session.end();
    answered
}

/// Does what `session_text` does in a session that is only lent: who owns it goes on with it, or ends it. Where all is answered the
/// session is what the script's edits leave, with as many kits; where it ends early, what some first commands leave. The records of the
/// script's last run, behind which none asks for them, aren't put into the session: they are left to the caller, in a tally.
pub fn answer_whole<V: View, N: Notes, R: Read, W: Write, T: Threads + Wait + Sync, G: Gate>(
    runner: &Runner<'_, T, G>,
    session: &mut Session<V>,
    notes: &mut N,
    reader: &mut R,
    writer: &mut W,
    failures: &mut Failures,
    left: &mut Tally,
) -> Result<(), SessionError>
    requires workers { (0 < runner.now.workers) × (runner.now.workers ≤ 16) }
    ensures answered { OnOk result (WritesAll (answers_of session.old)
        (R.remaining reader.old) (W.contents writer.old) (W.contents writer.new)) }
    ensures after { OnOk result (Leaves (R.remaining reader.old) session.old session.new) }
    ensures stands { OnErr result (LeavesByFirst (R.remaining reader.old) session.old session.new) }
    ensures free { OnOk result (length session.new.kits.kits ≡ length session.old.kits.kits) }
    ensures over { OnOk result (IsAtEnd (R.remaining reader.new)) }
    ensures unread { result ≡ Err SessionError.Read
        → Keeps (W.contents writer.old) (W.contents writer.new) }
    ensures beginning { WritesBeginning (answers_of session.old)
        (R.remaining reader.old) (W.contents writer.old) (W.contents writer.new) }
    ensures no_kit { result ≡ Err SessionError.NoKit → session.old.kits.kits ≡ [] }
    ensures mismatch { IfErr result CarriesRefusal }
    ensures input { result ≡ Err SessionError.Read → failures.new.input ≡ true }
    ensures output { result ≡ Err SessionError.Write → failures.new.output ≡ true }
    ensures unmarked { OnOk result (failures.new ≡ failures.old) }
    ensures input_stays { result ≢ Err SessionError.Read
        → failures.new.input ≡ failures.old.input }
    ensures output_unread { result ≡ Err SessionError.Read
        → failures.new.output ≡ failures.old.output }
    ensures output_stays { failures.old.output ≡ true → failures.new.output ≡ true }
    ensures notes { result ≡ Err SessionError.Notes → N.failed notes.new ≡ true }
    ensures notes_stay { result ≢ Err SessionError.Notes
        → N.failed notes.new ≡ N.failed notes.old }
{
    let script = read_all(runner.alloc, reader, failures)?;
    let text = script.as_slice();
    let answered = answer_script(runner, session, notes, text, writer, failures, left);
    let flushed = flush(writer, failures);
    answered?;
    flushed
}

// Writes the answers to a script, and leaves its last run's records in that tally.
fn answer_script<V: View, N: Notes, W: Write, T: Threads + Wait + Sync, G: Gate>(
    runner: &Runner<'_, T, G>,
    session: &mut Session<V>,
    notes: &mut N,
    script: &[u8],
    writer: &mut W,
    failures: &mut Failures,
    left: &mut Tally,
) -> Result<(), SessionError>
    requires workers { (0 < runner.now.workers) × (runner.now.workers ≤ 16) }
    ensures written { OnOk result (Appends (W.contents writer.old) (W.contents writer.new)
        (answers_of session.old script.now)) }
    ensures after { OnOk result (standing_of session.new ≡ left_by_script (standing_of session.old) script.now) }
    ensures stands { OnErr result (IsLeftByFirst (standing_of session.old) (standing_of session.new) (commands_of script.now)) }
    ensures free { OnOk result (length session.new.kits.kits ≡ length session.old.kits.kits) }
    ensures beginning { HasBeginning (W.contents writer.old) (W.contents writer.new)
        (answers_of session.old script.now) }
    ensures read { OnErr result (¬ (result ≡ Err SessionError.Read)) }
    ensures mismatch { IfErr result CarriesRefusal }
    ensures no_kit { result ≡ Err SessionError.NoKit → session.old.kits.kits ≡ [] }
    ensures output { result ≡ Err SessionError.Write → failures.new.output ≡ true }
    ensures unmarked { result ≢ Err SessionError.Write → failures.new ≡ failures.old }
    ensures input { failures.new.input ≡ failures.old.input }
    ensures notes { result ≡ Err SessionError.Notes → N.failed notes.new ≡ true }
    ensures notes_stay { result ≢ Err SessionError.Notes
        → N.failed notes.new ≡ N.failed notes.old }
{
    let commands = match commands(runner.alloc, script) {
        Ok(commands) => commands,
        Err(_) => return Err(SessionError::NoMemory),
    };
    let all = count_runs(&commands);
    let mut runs = 0;
    for command in commands.iter() {
        let written = answer_written(runner, session, notes, runs, command, writer, failures)?;
        runs = written.0;
        if keep_behind(runner.alloc, session, written.1, runs < all, left).is_err() {
            return Err(SessionError::NoMemory);
        }
    }
    Ok(())
}

// How many runs there are among these commands.
fn count_runs(commands: &[Command<'_>]) -> usize {
    let mut runs = 0usize;
    for command in commands {
        if matches!(command, Command::Run) {
            runs = runs.wrapping_add(1);
        }
    }
    runs
}

// Puts the new records of a run, if there was one, into the session that it has left, where another run may ask for them, and otherwise
// leaves them in that tally.
fn keep_behind<V: View>(
    alloc: Global,
    session: &mut Session<V>,
    tally: Option<Tally>,
    are_asked: bool,
    left: &mut Tally,
) -> Result<(), AllocError>
    requires news { IfSome tally (λ tally. AreNewFor session.old.checked session.old.tables tally.made) }
    ensures same { standing_of session.new ≡ standing_of session.old }
    ensures free { length session.new.kits.kits ≡ length session.old.kits.kits }
{
    if are_asked {
        return settle_behind(alloc, session, tally);
    }
    if let Some(tally) = tally {
        *left = tally;
    }
    Ok(())
}

/// Puts the new records of a run, if there was one, into the session that it has left, and makes blocks of them. Where memory is refused
/// the session's records are as they were.
pub(crate) fn settle_behind<V: View>(
    alloc: Global,
    session: &mut Session<V>,
    tally: Option<Tally>,
) -> Result<(), AllocError>
    requires news { IfSome tally (λ tally. AreNewFor session.old.checked session.old.tables tally.made) }
    ensures same { standing_of session.new ≡ standing_of session.old }
    ensures free { length session.new.kits.kits ≡ length session.old.kits.kits }
{
    match tally {
        None => Ok(()),
        Some(tally) => {
            // The session's kits are of its program's kinds, as those that are put back have to be.
            session.upheld();
            let pool = session.take_pool(alloc);
            match session.settle(pool, tally.into_records()) {
                Ok(()) => {
                    session.gather(alloc);
                    Ok(())
                }
                Err(AllocError) => Err(AllocError),
            }
        }
    }
}

/// Writes the answer to a command, after so many runs, and gives the number of runs after it, and of a run the new records, which
/// aren't put in yet.
pub(crate) fn answer_written<V: View, N: Notes, W: Write, T: Threads + Wait + Sync, G: Gate>(
    runner: &Runner<'_, T, G>,
    session: &mut Session<V>,
    notes: &mut N,
    runs: usize,
    command: &Command<'_>,
    writer: &mut W,
    failures: &mut Failures,
) -> Result<(usize, Option<Tally>), SessionError>
    requires few { runs + 1 < 2 ^ 64 }
    requires workers { (0 < runner.now.workers) × (runner.now.workers ≤ 16) }
    ensures written { OnOk result (Appends (W.contents writer.old) (W.contents writer.new)
        (answer_text (standing_of session.old) runs (said command.now))) }
    ensures beginning { HasBeginning (W.contents writer.old) (W.contents writer.new)
        (answer_text (standing_of session.old) runs (said command.now)) }
    ensures after { OnOk result (standing_of session.new
        ≡ standing_after (standing_of session.old) (said command.now)) }
    ensures stands { OnErr result (MayBeLeft (standing_of session.old) (standing_of session.new) (said command.now)) }
    ensures runs { IfOk result (λ n. n.0 ≡ runs_after runs (said command.now)) }
    ensures news { IfOk result (λ n. IfSome n.1 (λ tally.
        AreNewFor session.new.checked session.new.tables tally.made)) }
    ensures refused { IfErr result (λ e. IsAnswerError e ⊎ IsWriterError e) }
    ensures mismatch { IfErr result CarriesRefusal }
    ensures no_kit { result ≡ Err SessionError.NoKit → session.old.kits.kits ≡ [] }
    ensures free { OnOk result (length session.new.kits.kits ≡ length session.old.kits.kits) }
    ensures output { result ≡ Err SessionError.Write → failures.new.output ≡ true }
    ensures unmarked { result ≢ Err SessionError.Write → failures.new ≡ failures.old }
    ensures input { failures.new.input ≡ failures.old.input }
    ensures notes { result ≡ Err SessionError.Notes → N.failed notes.new ≡ true }
    ensures notes_stay { result ≢ Err SessionError.Notes
        → N.failed notes.new ≡ N.failed notes.old }
{
    let mut text = String::new(runner.alloc);
    let answered = answer(runner, session, notes, runs, command, &mut text)?;
    write_whole(writer, text.as_bytes(), failures)?;
    Ok(answered)
}

// Puts the answer to a command, after so many runs, at the end of the text, and gives the number of runs after it, and of a run the
// new records.
fn answer<V: View, N: Notes, T: Threads + Wait + Sync, G: Gate>(
    runner: &Runner<'_, T, G>,
    session: &mut Session<V>,
    notes: &mut N,
    runs: usize,
    command: &Command<'_>,
    text: &mut String,
) -> Result<(usize, Option<Tally>), SessionError>
    requires few { runs + 1 < 2 ^ 64 }
    requires workers { (0 < runner.now.workers) × (runner.now.workers ≤ 16) }
    ensures answered { OnOk result (Extends text.old text.new
        (answer_text (standing_of session.old) runs (said command.now))) }
    ensures after { OnOk result (standing_of session.new
        ≡ standing_after (standing_of session.old) (said command.now)) }
    ensures stands { OnErr result (MayBeLeft (standing_of session.old) (standing_of session.new) (said command.now)) }
    ensures runs { IfOk result (λ n. n.0 ≡ runs_after runs (said command.now)) }
    ensures news { IfOk result (λ n. IfSome n.1 (λ tally.
        AreNewFor session.new.checked session.new.tables tally.made)) }
    ensures refused { IfErr result IsAnswerError }
    ensures mismatch { IfErr result CarriesRefusal }
    ensures no_kit { result ≡ Err SessionError.NoKit → session.old.kits.kits ≡ [] }
    ensures free { OnOk result (length session.new.kits.kits ≡ length session.old.kits.kits) }
    ensures notes { result ≡ Err SessionError.Notes → N.failed notes.new ≡ true }
    ensures notes_stay { result ≢ Err SessionError.Notes
        → N.failed notes.new ≡ N.failed notes.old }
{
    match command {
        Command::Unknown(number, line) => {
            push_unknown(text, *number)?;
            notes.explain(
                Cause::Line(*line, *number),
                session.checked(),
                session.tables(),
            );
            Ok((runs, None))
        }
        Command::Change(edit) => {
            change(runner.alloc, session, notes, edit, text)?;
            Ok((runs, None))
        }
        Command::Run => {
            let tally = run_once(runner, session, notes, runs + 1, text)?;
            Ok((runs + 1, Some(tally)))
        }
    }
}

// Does an edit, and puts what it came to at the end of the text.
fn change<V: View, N: Notes>(
    alloc: Global,
    session: &mut Session<V>,
    notes: &mut N,
    edit: &Edit<'_>,
    text: &mut String,
) -> Result<(), SessionError>
    ensures answered { OnOk result (Extends text.old text.new
        (edit_text (edited (standing_of session.old) (edits.said edit.now)))) }
    ensures after { OnOk result (standing_of session.new
        ≡ left_by_edit (standing_of session.old) (edits.said edit.now)) }
    ensures stands { OnErr result ((standing_of session.new ≡ standing_of session.old)
        ⊎ (standing_of session.new ≡ left_by_edit (standing_of session.old) (edits.said edit.now))) }
    ensures refused { IfErr result (λ e. e ≡ SessionError.NoMemory) }
    ensures kits { session.new.kits ≡ session.old.kits }
    ensures notes_stay { N.failed notes.new ≡ N.failed notes.old }
{
    match session.apply(alloc, edit) {
        Ok(()) => Ok(push_accepted(text)?),
        Err(ApplyError::Refused(error)) => {
            let cause = Cause::Edit(edit, &error);
            notes.explain(cause, session.checked(), session.tables());
            Ok(push_edit_refusal(text, &error)?)
        }
        Err(ApplyError::NoMemory) => Err(SessionError::NoMemory),
    }
}

// Runs once, puts the line of the run of that number and what it came to at the end of the text, and tells the notes of it, before and
// after. The run's new records aren't put in yet.
fn run_once<V: View, N: Notes, T: Threads + Wait + Sync, G: Gate>(
    runner: &Runner<'_, T, G>,
    session: &mut Session<V>,
    notes: &mut N,
    number: usize,
    text: &mut String,
) -> Result<Tally, SessionError>
    requires workers { (0 < runner.now.workers) × (runner.now.workers ≤ 16) }
    ensures answered { OnOk result (Extends text.old text.new
        (run_answer (standing_of session.old) number)) }
    ensures same { standing_of session.new ≡ standing_of session.old }
    ensures news { IfOk result (λ tally. AreNewFor session.new.checked session.new.tables tally.made) }
    ensures refused { IfErr result IsAnswerError }
    ensures mismatch { IfErr result CarriesRefusal }
    ensures no_kit { result ≡ Err SessionError.NoKit → session.old.kits.kits ≡ [] }
    ensures free { OnOk result (length session.new.kits.kits ≡ length session.old.kits.kits) }
    ensures notes { result ≡ Err SessionError.Notes → N.failed notes.new ≡ true }
    ensures notes_stay { result ≢ Err SessionError.Notes
        → N.failed notes.new ≡ N.failed notes.old }
{
    // The session's records are in step with its tables, as notes of a run ask for.
    session.upheld();
    notes.begin(session.checked(), session.tables(), session.records());
    let ended = run_unsettled(
        runner.rt,
        runner.alloc,
        session,
        runner.workers,
        runner.gate,
    )?;
    let Ended {
        answer,
        tally,
        steps,
    } = ended;
    tell(
        runner.alloc,
        session,
        notes,
        number,
        &answer,
        steps.as_slice(),
        text,
    )?;
    Ok(tally)
}

// Puts the line of the run of that number and what it came to at the end of the text, and tells the notes of it.
fn tell<V: View, N: Notes>(
    alloc: Global,
    session: &Session<V>,
    notes: &mut N,
    number: usize,
    answer: &RunAnswer,
    history: &[BookStep],
    text: &mut String,
) -> Result<(), SessionError>
    requires come { HasCome answer.now }
    requires elision { IsFromScratch (standing_of session.now) answer.now }
    ensures answered { OnOk result (Extends text.old text.new
        (run_answer (standing_of session.now) number)) }
    ensures ended { OnOk result (HasEnded answer.now) }
    ensures refused { IfErr result IsAnswerError }
    ensures mismatch { IfErr result CarriesRefusal }
    ensures no_kit { result ≡ Err SessionError.NoKit → answer.now ≡ RunAnswer.NoKit }
    ensures notes { result ≡ Err SessionError.Notes → N.failed notes.new ≡ true }
    ensures notes_stay { result ≢ Err SessionError.Notes
        → N.failed notes.new ≡ N.failed notes.old }
{
    ended(answer)?;
    let shown = answer_text(alloc, number, session.checked(), answer)?;
    text.push_str(shown.as_str())?;
    tell_fault(notes, number, answer, session.checked(), session.tables());
    if notes.run(number, answer, history, session.kits()) {
        return Ok(());
    }
    Err(SessionError::Notes)
}

// Tells the notes of a run's fault, if it came to one.
fn tell_fault<N: Notes>(
    notes: &mut N,
    number: usize,
    answer: &RunAnswer,
    checked: &Checked,
    tables: &Tables,
)
    ensures same { N.failed notes.new ≡ N.failed notes.old }
{
    if let RunAnswer::Fault(fault) = answer {
        notes.explain(Cause::Fault(number, fault), checked, tables);
    }
}

// Refuses what a run that was refused memory or a kit came to.
fn ended(answer: &RunAnswer) -> Result<(), SessionError>
    requires come { HasCome answer.now }
    ensures ended { OnOk result (HasEnded answer.now) }
    ensures refused { IfErr result IsRunError }
    ensures mismatch { IfErr result CarriesRefusal }
    ensures no_kit { result ≡ Err SessionError.NoKit → answer.now ≡ RunAnswer.NoKit }
{
    match answer {
        RunAnswer::Finished { .. } | RunAnswer::Fault(_) => Ok(()),
        RunAnswer::NoMemory => Err(SessionError::NoMemory),
        RunAnswer::NoKit => Err(SessionError::NoKit),
        RunAnswer::Unfinished => unreachable!(),
    }
}
