// The answers to a session's script as its lines come.
ghost use Rattle.std.specs.Prelude.{◌≡◌, ◌≢◌, ◌+◌, ◌<◌, ◌≤◌, ◌^◌, [], true, Err, length, IfErr, OnOk, OnErr};
ghost use Rattle.std.specs.Io.KnownBytes.{Appends, IsAtEnd};
ghost use Rattle.meaning.specs.Text.{runs_after};
ghost use Rattle.script_reader.specs.Beginnings.{command_by, command_left, with_line};
ghost use Rattle.script_reader.specs.Said.{said};
ghost use Rattle.kept_session.specs.Sessions.{standing_of};
ghost use Rattle.script_session.specs.Answers.{MayBeLeft, answer_text, standing_after};
ghost use Rattle.script_session.specs.Coming.{MayBeBehind, answer_to, runs_behind, standing_behind};
ghost use Rattle.script_session.specs.Sessions.{Leaves, LeavesByFirst, answers_of, session_so_far};
ghost use Rattle.program_endings.specs.Endings.{CarriesRefusal};
ghost use Rattle.program_endings.specs.Written.{HasBeginning, WritesAll, WritesBeginning, WritesRead};

use crate::runner::Runner;
use crate::session::{answer_written, settle_behind};
use kept_session::Session;
use program_endings::session_error::SessionError;
use program_endings::streams::{Failures, flush, read_line};
use script_reader::command::Command;
use script_reader::open_script::{Found, OpenScript};
use session_edits::Edit;
use session_notes::notes::Notes;
use std::alloc::{AllocError, Global};
use std::io::{Read, Write};
use std::sync::Wait;
use std::thread::Threads;
use threaded_driver::Gate;
use view_pool::View;

/// A script as far as its lines have come, and how many runs there were in it.
#[derive(Drop)]
pub struct LiveScript {
    pub script: OpenScript,
    pub runs: usize,
}

/// Answers the script that a reader has as its lines come: each command is done as soon as its last line is read, and its answer
/// is written and flushed before a byte of the next line is read. What is answered, by whom it is noted, and what ends it early is
/// as of `session_text`, but for two things: after a failed read the answers to the commands that came whole are written, and
/// 2^64 - 2 lines without an end count as a failed read. Of lines that are done nothing is kept.
pub fn live_text<V: View, N: Notes, R: Read, W: Write, T: Threads + Wait + Sync, G: Gate>(
    runner: &Runner<'_, T, G>,
    session: Session<V>,
    notes: &mut N,
    reader: &mut R,
    writer: &mut W,
    failures: &mut Failures,
) -> Result<(), SessionError>
    requires workers { (0 < runner.now.workers) × (runner.now.workers ≤ 16) }
    ensures answered { OnOk result (WritesAll (answers_of session)
        (R.remaining reader.old) (W.contents writer.old) (W.contents writer.new)) }
    ensures over { OnOk result (IsAtEnd (R.remaining reader.new)) }
    ensures read { result ≡ Err SessionError.Read
        → WritesRead (session_so_far session) (R.remaining reader.old) (R.remaining reader.new)
        (W.contents writer.old) (W.contents writer.new) }
    ensures beginning { WritesBeginning (answers_of session)
        (R.remaining reader.old) (W.contents writer.old) (W.contents writer.new) }
    ensures no_kit { result ≡ Err SessionError.NoKit → session.kits.kits ≡ [] }
    ensures mismatch { IfErr result CarriesRefusal }
    ensures input { result ≡ Err SessionError.Read → failures.new.input ≡ true }
    ensures output { result ≡ Err SessionError.Write → failures.new.output ≡ true }
    ensures unmarked { OnOk result (failures.new ≡ failures.old) }
    ensures input_stays { result ≢ Err SessionError.Read
        → failures.new.input ≡ failures.old.input }
    ensures output_unread { result ≡ Err SessionError.Read
        → failures.new.output ≡ failures.old.output }
    ensures output_stays { failures.old.output ≡ true → failures.new.output ≡ true }
    ensures notes { result ≡ Err SessionError.Notes → N.failed notes.new ≡ true }
    ensures notes_stay { result ≢ Err SessionError.Notes
        → N.failed notes.new ≡ N.failed notes.old }
{
    let mut session = session;
    let answered = answer_lines(runner, &mut session, notes, reader, writer, failures);
    session.end();
    answered
}

/// Does what `live_text` does in a session that is only lent: who owns it goes on with it, or ends it. Where all is answered the
/// session is what the script's edits leave, with as many kits; where it ends early, what some first commands leave.
pub fn answer_lines<V: View, N: Notes, R: Read, W: Write, T: Threads + Wait + Sync, G: Gate>(
    runner: &Runner<'_, T, G>,
    session: &mut Session<V>,
    notes: &mut N,
    reader: &mut R,
    writer: &mut W,
    failures: &mut Failures,
) -> Result<(), SessionError>
    requires workers { (0 < runner.now.workers) × (runner.now.workers ≤ 16) }
    ensures answered { OnOk result (WritesAll (answers_of session.old)
        (R.remaining reader.old) (W.contents writer.old) (W.contents writer.new)) }
    ensures after { OnOk result (Leaves (R.remaining reader.old) session.old session.new) }
    ensures stands { OnErr result (LeavesByFirst (R.remaining reader.old) session.old session.new) }
    ensures free { OnOk result (length session.new.kits.kits ≡ length session.old.kits.kits) }
    ensures over { OnOk result (IsAtEnd (R.remaining reader.new)) }
    ensures read { result ≡ Err SessionError.Read
        → WritesRead (session_so_far session.old) (R.remaining reader.old) (R.remaining reader.new)
        (W.contents writer.old) (W.contents writer.new) }
    ensures beginning { WritesBeginning (answers_of session.old)
        (R.remaining reader.old) (W.contents writer.old) (W.contents writer.new) }
    ensures no_kit { result ≡ Err SessionError.NoKit → session.old.kits.kits ≡ [] }
    ensures mismatch { IfErr result CarriesRefusal }
    ensures input { result ≡ Err SessionError.Read → failures.new.input ≡ true }
    ensures output { result ≡ Err SessionError.Write → failures.new.output ≡ true }
    ensures unmarked { OnOk result (failures.new ≡ failures.old) }
    ensures input_stays { result ≢ Err SessionError.Read
        → failures.new.input ≡ failures.old.input }
    ensures output_unread { result ≡ Err SessionError.Read
        → failures.new.output ≡ failures.old.output }
    ensures output_stays { failures.old.output ≡ true → failures.new.output ≡ true }
    ensures notes { result ≡ Err SessionError.Notes → N.failed notes.new ≡ true }
    ensures notes_stay { result ≢ Err SessionError.Notes
        → N.failed notes.new ≡ N.failed notes.old }
{
    let script = OpenScript::new(runner.alloc);
    let mut so_far = LiveScript { script, runs: 0 };
    let mut line = Vec::new(runner.alloc);
    for _ in 0..u64::MAX - 1 {
        let ended = read_line(reader, &mut line, failures)?;
        answer_line(
            runner,
            session,
            notes,
            &mut so_far,
            line.as_slice(),
            writer,
            failures,
        )?;
        if !ended {
            return answer_rest(runner, session, notes, &so_far, writer, failures);
        }
    }
    Err(failures.of_input())
}

/// Answers the command that the next line of a script ends, if it ends one: its answer is written and flushed. It ends as
/// `session_text` where it can't be answered, and the script is lost then.
pub fn answer_line<V: View, N: Notes, W: Write, T: Threads + Wait + Sync, G: Gate>(
    runner: &Runner<'_, T, G>,
    session: &mut Session<V>,
    notes: &mut N,
    so_far: &mut LiveScript,
    line: &[u8],
    writer: &mut W,
    failures: &mut Failures,
) -> Result<(), SessionError>
    requires room { so_far.old.script.passed + 1 < 2 ^ 64 }
    requires few { so_far.old.runs + 1 < 2 ^ 64 }
    requires workers { (0 < runner.now.workers) × (runner.now.workers ≤ 16) }
    ensures written { OnOk result (Appends (W.contents writer.old) (W.contents writer.new)
        (answer_to (standing_of session.old) so_far.old.runs (command_by so_far.old.script line.now))) }
    ensures beginning { HasBeginning (W.contents writer.old) (W.contents writer.new)
        (answer_to (standing_of session.old) so_far.old.runs (command_by so_far.old.script line.now)) }
    ensures after { OnOk result (standing_of session.new
        ≡ standing_behind (standing_of session.old) (command_by so_far.old.script line.now)) }
    ensures stands { OnErr result (MayBeBehind (standing_of session.old) (standing_of session.new) (command_by so_far.old.script line.now)) }
    ensures runs { OnOk result (so_far.new.runs ≡ runs_behind so_far.old.runs (command_by so_far.old.script line.now)) }
    ensures taken { OnOk result (so_far.new.script ≡ with_line so_far.old.script line.now) }
    ensures read { OnErr result (result ≢ Err SessionError.Read) }
    ensures mismatch { IfErr result CarriesRefusal }
    ensures no_kit { result ≡ Err SessionError.NoKit → session.old.kits.kits ≡ [] }
    ensures free { OnOk result (length session.new.kits.kits ≡ length session.old.kits.kits) }
    ensures output { result ≡ Err SessionError.Write → failures.new.output ≡ true }
    ensures unmarked { OnOk result (failures.new ≡ failures.old) }
    ensures input { failures.new.input ≡ failures.old.input }
    ensures output_stays { failures.old.output ≡ true → failures.new.output ≡ true }
    ensures notes { result ≡ Err SessionError.Notes → N.failed notes.new ≡ true }
    ensures notes_stay { result ≢ Err SessionError.Notes
        → N.failed notes.new ≡ N.failed notes.old }
{
    match so_far.script.take_line(line) {
        Err(_) => Err(SessionError::NoMemory),
        Ok(Found::Nothing) => Ok(()),
        Ok(Found::Command(command)) => {
            answer_now(
                runner,
                session,
                notes,
                &mut so_far.runs,
                &command,
                writer,
                failures,
            )
        }
        Ok(Found::Define(text)) => {
            let command = Command::Change(Edit::Define(text.as_slice()));
            answer_now(
                runner,
                session,
                notes,
                &mut so_far.runs,
                &command,
                writer,
                failures,
            )
        }
    }
}

// Answers the command that is left where no line comes any more, if there is one.
fn answer_rest<V: View, N: Notes, W: Write, T: Threads + Wait + Sync, G: Gate>(
    runner: &Runner<'_, T, G>,
    session: &mut Session<V>,
    notes: &mut N,
    so_far: &LiveScript,
    writer: &mut W,
    failures: &mut Failures,
) -> Result<(), SessionError>
    requires few { so_far.now.runs + 1 < 2 ^ 64 }
    requires workers { (0 < runner.now.workers) × (runner.now.workers ≤ 16) }
    ensures written { OnOk result (Appends (W.contents writer.old) (W.contents writer.new)
        (answer_to (standing_of session.old) so_far.now.runs (command_left so_far.now.script))) }
    ensures beginning { HasBeginning (W.contents writer.old) (W.contents writer.new)
        (answer_to (standing_of session.old) so_far.now.runs (command_left so_far.now.script)) }
    ensures after { OnOk result (standing_of session.new
        ≡ standing_behind (standing_of session.old) (command_left so_far.now.script)) }
    ensures stands { OnErr result (MayBeBehind (standing_of session.old) (standing_of session.new) (command_left so_far.now.script)) }
    ensures read { OnErr result (result ≢ Err SessionError.Read) }
    ensures mismatch { IfErr result CarriesRefusal }
    ensures no_kit { result ≡ Err SessionError.NoKit → session.old.kits.kits ≡ [] }
    ensures free { OnOk result (length session.new.kits.kits ≡ length session.old.kits.kits) }
    ensures output { result ≡ Err SessionError.Write → failures.new.output ≡ true }
    ensures unmarked { OnOk result (failures.new ≡ failures.old) }
    ensures input { failures.new.input ≡ failures.old.input }
    ensures output_stays { failures.old.output ≡ true → failures.new.output ≡ true }
    ensures notes { result ≡ Err SessionError.Notes → N.failed notes.new ≡ true }
    ensures notes_stay { result ≢ Err SessionError.Notes
        → N.failed notes.new ≡ N.failed notes.old }
{
    match so_far.script.rest() {
        None => Ok(()),
        Some(command) => {
            let mut runs = so_far.runs;
            answer_now(
                runner, session, notes, &mut runs, &command, writer, failures,
            )
        }
    }
}

// Writes the answer to a command after so many runs, flushes it, and counts its run. Only then are the run's records put in and blocks
// made of them, for which nobody has to wait so; where memory is refused for them the answer stands written.
fn answer_now<V: View, N: Notes, W: Write, T: Threads + Wait + Sync, G: Gate>(
    runner: &Runner<'_, T, G>,
    session: &mut Session<V>,
    notes: &mut N,
    runs: &mut usize,
    command: &Command<'_>,
    writer: &mut W,
    failures: &mut Failures,
) -> Result<(), SessionError>
    requires few { runs.old + 1 < 2 ^ 64 }
    requires workers { (0 < runner.now.workers) × (runner.now.workers ≤ 16) }
    ensures written { OnOk result (Appends (W.contents writer.old) (W.contents writer.new)
        (answer_text (standing_of session.old) runs.old (said command.now))) }
    ensures beginning { HasBeginning (W.contents writer.old) (W.contents writer.new)
        (answer_text (standing_of session.old) runs.old (said command.now)) }
    ensures after { OnOk result (standing_of session.new
        ≡ standing_after (standing_of session.old) (said command.now)) }
    ensures stands { OnErr result (MayBeLeft (standing_of session.old) (standing_of session.new) (said command.now)) }
    ensures runs { OnOk result (runs.new ≡ runs_after runs.old (said command.now)) }
    ensures read { OnErr result (result ≢ Err SessionError.Read) }
    ensures mismatch { IfErr result CarriesRefusal }
    ensures no_kit { result ≡ Err SessionError.NoKit → session.old.kits.kits ≡ [] }
    ensures free { OnOk result (length session.new.kits.kits ≡ length session.old.kits.kits) }
    ensures output { result ≡ Err SessionError.Write → failures.new.output ≡ true }
    ensures unmarked { OnOk result (failures.new ≡ failures.old) }
    ensures input { failures.new.input ≡ failures.old.input }
    ensures output_stays { failures.old.output ≡ true → failures.new.output ≡ true }
    ensures notes { result ≡ Err SessionError.Notes → N.failed notes.new ≡ true }
    ensures notes_stay { result ≢ Err SessionError.Notes
        → N.failed notes.new ≡ N.failed notes.old }
{
    let answered = answer_written(runner, session, notes, *runs, command, writer, failures);
    let flushed = flush(writer, failures);
    let written = answered?;
    *runs = written.0;
    match flushed {
        Ok(()) => match settle_behind(runner.alloc, session, written.1) {
            Ok(()) => Ok(()),
            Err(AllocError) => Err(SessionError::NoMemory),
        },
        Err(error) => Err(error),
    }
}
