// The program: its line, its files, its session on standard input and output.
ghost use Rattle.std.specs.Prelude.{◌≡◌, ◌≢◌, ◌↔◌, ◌<◌, ◌≤◌, Err, Some, false, true, [], IfOk, IfErr, OnOk, OnErr, length, option_map};
ghost use Rattle.std.specs.Io.KnownBytes.{Keeps, IsAtEnd};
ghost use Rattle.std.specs.Process.{exit_status};
ghost use Rattle.program_endings.specs.Endings.{CarriesRefusal};
ghost use Rattle.program_endings.specs.Statuses.{status_of};
ghost use Rattle.program_endings.specs.Written.{WritesAll, WritesBeginning, WritesRead};
ghost use Rattle.script_session.specs.Sessions.{answers_of, session_so_far};
ghost use Rattle.cli.specs.Headline.{IsReportedOver};
ghost use Rattle.cli.specs.Reports.{IsOpened, IsUnopened, IsUnmade, IsLate, IsBegunOver, IsReadOver, ReadsNothing};
ghost use Rattle.cli.specs.Reports.{ReportsRefusal, WritesNothing};

use crate::asking::Asking;
use crate::beginning::{BeginError, begin};
use crate::formatting::{format_file, show_text};
use crate::sorts::Sort;
use command_line::line::asked_by;
use command_line::options::{Asked, Options, OptionsError};
use command_line::words::{as_strs, held_words};
use kept_session::{Blocks, Session};
use monoid_laws::Kind;
use program_endings::failing::{failed, failed_file, no_memory};
use program_endings::program_error::{ProgramError, status};
use program_endings::session_error::SessionError;
use program_endings::streams::Failures;
use report_files::ReportFiles;
use report_files::files::{FileSource, StandardError};
use script_session::live::answer_lines;
use script_session::runner::Runner;
use script_session::session::answer_whole;
use script_session::{NoGate, Tally};
use session_notes::explained::{Crew, Explain, Explained};
use session_notes::notes::Notes;
use session_notes::run_notes::{NotesError, RunNotes};
use std::alloc::{AllocError, Global};
use std::io;
use std::io::{BufReader, BufWriter, Read, Write};
use std::mem::ManuallyDrop;
use std::process::ExitCode;
use std::rt::Runtime;
use std::sync::Wait;
use std::thread::Threads;
use view_pool::View;

/// What a report goes by: the runtime, where memory is from, and the options of its line.
#[derive(Clone, Copy)]
pub struct Setting<'a, T> {
    pub rt: &'a T,
    pub alloc: Global,
    pub options: Options<'a>,
}

/// Who is told of a session beside its answers: the writer of counts, and who explains.
#[derive(Drop)]
pub struct Told<E: Write + Drop, X: Explain + Drop> {
    pub errors: E,
    pub explain: X,
}

/// How the program ends after its report: with status 0, or an error's text on standard error and its status. That this text can't be
/// written changes nothing.
pub fn ending(rt: &impl Eprint, reported: Result<(), ProgramError>) -> ExitCode
    ensures done { OnOk reported (exit_status result ≡ 0) }
    ensures failed { IfErr reported (λ e. exit_status result ≡ status_of e) }
{
    match reported {
        Ok(()) => ExitCode::SUCCESS,
        Err(error) => {
            let _ = eprintln!(rt; "{error}");
            ExitCode::from(status(&error))
        }
    }
}

/// Does what the program's line asks for: a session, printing a program in its normal form, or help or the version. Its errors are those
/// of the line, of a file, of `prepare`, of the session and of the output, but for the want of a kit, since a line asks for one kit
/// at least. The views are the caller's; one of another kind counts as want of memory. What is refused is explained where the
/// line asks for it. At a terminal the lines of a live session are asked for on standard error, and what is refused is explained;
/// of another session it is said there that commands are read to their end.
pub fn report<V: View, M: Fn(Sort, Kind) -> Result<V, AllocError>, X: Explain + Drop>(
    rt: &(impl Runtime + AllocGlobal + Threads + Wait + Sync),
    alloc: Global,
    make: &M,
    explain: X,
    is_terminal: bool,
) -> Result<(), ProgramError>
    requires callable { M.IsAlwaysCallable make.now }
    ensures kits { result ≢ Err (ProgramError.Session SessionError.NoKit) }
    ensures mismatch { IfErr result ReportsRefusal }
{
    let held = match held_words(rt, alloc) {
        Ok(held) => held,
        Err(error) => return Err(ProgramError::Line(error)),
    };
    let words = match as_strs(alloc, held.as_slice()) {
        Ok(words) => words,
        Err(error) => return Err(ProgramError::Line(error)),
    };
    match asked_by(alloc, words.as_slice()) {
        Ok(Asked::Session(options)) => report_by(rt, alloc, options, make, explain, is_terminal),
        Ok(Asked::Print(path)) => {
            let files = ReportFiles {
                rt,
                program: path,
                tables: path,
            };
            format_file(rt, alloc, path, &files)
        }
        Err(text @ (OptionsError::Help | OptionsError::Version)) => show_text(rt, alloc, &text),
        Err(error) => Err(ProgramError::Line(error)),
    }
}

// Does the session that the options ask for, from standard input to standard output.
fn report_by<V: View, M: Fn(Sort, Kind) -> Result<V, AllocError>, X: Explain + Drop>(
    rt: &(impl Runtime + AllocGlobal + Threads + Wait + Sync),
    alloc: Global,
    options: Options<'_>,
    make: &M,
    explain: X,
    is_terminal: bool,
) -> Result<(), ProgramError>
    requires callable { M.IsAlwaysCallable make.now }
    requires workers { (0 < options.workers) × (options.workers ≤ 16) }
    requires kits { 0 < options.kits }
    ensures kits { result ≢ Err (ProgramError.Session SessionError.NoKit) }
    ensures mismatch { IfErr result ReportsRefusal }
{
    let mut options = options;
    options.explain = options.explain || options.live && is_terminal;
    let asking = Asking::new(rt.reader(), StandardError { rt }, is_terminal, options.live);
    let Ok(mut reader) = BufReader::new(alloc, asking) else {
        return Err(no_memory());
    };
    let Ok(mut writer) = BufWriter::new(alloc, io::writer(rt)) else {
        return Err(no_memory());
    };
    let files = ReportFiles {
        rt,
        program: options.program,
        tables: options.tables,
    };
    let told = Told {
        errors: StandardError { rt },
        explain,
    };
    report_on(
        &Setting { rt, alloc, options },
        make,
        &files,
        &mut reader,
        &mut writer,
        told,
        &mut Failures::none(),
    )
}

/// Does the session that the options ask for: its program and its tables are those of two files, its kits are of views
/// that the caller makes, its script is all that the reader has, its answers go to the writer. The trace is a file that is
/// made before the script is read; counts go to the writer of errors; what is refused is explained where the options ask
/// for it. Where a file fails or is refused nothing is written; which streams failed is noted. A live session reads, answers and
/// flushes line by line: after a failed read the answers to the commands that came whole are written, where otherwise nothing is. The
/// memory of the session isn't given back at its end, which is the program's.
pub fn report_on<
    V: View,
    M: Fn(Sort, Kind) -> Result<V, AllocError>,
    F: FileSource,
    R: Read,
    W: Write,
    E: Write + Drop,
    X: Explain + Drop,
    T: Threads + Wait + Sync,
>(
    setting: &Setting<'_, T>,
    make: &M,
    files: &F,
    reader: &mut R,
    writer: &mut W,
    told: Told<E, X>,
    failures: &mut Failures,
) -> Result<(), ProgramError>
    requires callable { M.IsAlwaysCallable make.now }
    requires workers { (0 < setting.now.options.workers) × (setting.now.options.workers ≤ 16) }
    ensures answered { OnOk result (IsReportedOver (F.held files.now) setting.now.options
        (R.remaining reader.old) (W.contents writer.old) (W.contents writer.new)) }
    ensures over { OnOk result (IsAtEnd (R.remaining reader.new)) }
    ensures unopened { IfErr result (IsUnopened (F.held files.now) setting.now.options) }
    ensures beginning { IsBegunOver (F.held files.now) setting.now.options
        (R.remaining reader.old) (W.contents writer.old) (W.contents writer.new) }
    ensures unbegun { IfErr result (λ e. ReadsNothing e
        → Keeps (W.contents writer.old) (W.contents writer.new)) }
    ensures unwritten { setting.now.options.live ≡ false → IfErr result (λ e. WritesNothing e
        → Keeps (W.contents writer.old) (W.contents writer.new)) }
    ensures read { setting.now.options.live ≡ true
        → result ≡ Err (ProgramError.Session SessionError.Read)
        → IsReadOver (F.held files.now) setting.now.options (R.remaining reader.old)
        (R.remaining reader.new) (W.contents writer.old) (W.contents writer.new) }
    ensures unread { IfErr result (λ e. ReadsNothing e
        → Keeps (R.remaining reader.old) (R.remaining reader.new)) }
    ensures kits { 0 < setting.now.options.kits
        → result ≢ Err (ProgramError.Session SessionError.NoKit) }
    ensures mismatch { IfErr result ReportsRefusal }
    ensures input { result ≡ Err (ProgramError.Session SessionError.Read)
        → failures.new.input ≡ true }
    ensures output { result ≡ Err (ProgramError.Session SessionError.Write)
        → failures.new.output ≡ true }
    ensures unmarked { OnOk result (failures.new ≡ failures.old) }
    ensures input_stays { result ≢ Err (ProgramError.Session SessionError.Read)
        → failures.new.input ≡ failures.old.input }
{
    let mut session = session_of(setting.alloc, setting.options, make, files)?;
    session.make_blocks(Blocks::Later);
    let reported = report_in(setting, &mut session, files, reader, writer, told, failures);
    // The program ends now, and its memory goes back as a whole: to give back record by record takes a tenth of a first run.
    let _ = ManuallyDrop::new(session);
    reported
}

// What a report does with its session, which is only lent, so that who owns it does nothing else.
fn report_in<
    V: View,
    F: FileSource,
    R: Read,
    W: Write,
    E: Write + Drop,
    X: Explain + Drop,
    T: Threads + Wait + Sync,
>(
    setting: &Setting<'_, T>,
    session: &mut Session<V>,
    files: &F,
    reader: &mut R,
    writer: &mut W,
    told: Told<E, X>,
    failures: &mut Failures,
) -> Result<(), ProgramError>
    requires workers { (0 < setting.now.options.workers) × (setting.now.options.workers ≤ 16) }
    requires opened { IsOpened (F.held files.now) setting.now.options session.old.checked session.old.tables.tables }
    requires unedited { session.old.tables.edits ≡ 0 }
    requires count { length session.old.kits.kits ≡ setting.now.options.kits }
    ensures answered { OnOk result (IsReportedOver (F.held files.now) setting.now.options
        (R.remaining reader.old) (W.contents writer.old) (W.contents writer.new)) }
    ensures over { OnOk result (IsAtEnd (R.remaining reader.new)) }
    ensures unopened { IfErr result (IsUnopened (F.held files.now) setting.now.options) }
    ensures beginning { IsBegunOver (F.held files.now) setting.now.options
        (R.remaining reader.old) (W.contents writer.old) (W.contents writer.new) }
    ensures unbegun { IfErr result (λ e. ReadsNothing e
        → Keeps (W.contents writer.old) (W.contents writer.new)) }
    ensures unwritten { setting.now.options.live ≡ false → IfErr result (λ e. WritesNothing e
        → Keeps (W.contents writer.old) (W.contents writer.new)) }
    ensures read { setting.now.options.live ≡ true
        → result ≡ Err (ProgramError.Session SessionError.Read)
        → IsReadOver (F.held files.now) setting.now.options (R.remaining reader.old)
        (R.remaining reader.new) (W.contents writer.old) (W.contents writer.new) }
    ensures unread { IfErr result (λ e. ReadsNothing e
        → Keeps (R.remaining reader.old) (R.remaining reader.new)) }
    ensures kits { 0 < setting.now.options.kits
        → result ≢ Err (ProgramError.Session SessionError.NoKit) }
    ensures mismatch { IfErr result ReportsRefusal }
    ensures input { result ≡ Err (ProgramError.Session SessionError.Read)
        → failures.new.input ≡ true }
    ensures output { result ≡ Err (ProgramError.Session SessionError.Write)
        → failures.new.output ≡ true }
    ensures unmarked { OnOk result (failures.new ≡ failures.old) }
    ensures input_stays { result ≢ Err (ProgramError.Session SessionError.Read)
        → failures.new.input ≡ failures.old.input }
{
    let Setting { rt, alloc, options } = *setting;
    let mut notes = notes_of(alloc, options, files, told)?;
    let runner = Runner {
        rt,
        alloc,
        workers: options.workers,
        gate: &NoGate,
    };
    match answered(
        &runner,
        session,
        options.live,
        &mut notes,
        reader,
        writer,
        failures,
    ) {
        Ok(()) => Ok(()),
        Err(error) => Err(ended_by(alloc, options.trace, error, notes.notes.failure())),
    }
}

// Answers the script that the reader has: as its lines come in a live session, otherwise once it is read.
fn answered<V: View, N: Notes, R: Read, W: Write, T: Threads + Wait + Sync>(
    runner: &Runner<'_, T, NoGate>,
    session: &mut Session<V>,
    live: bool,
    notes: &mut N,
    reader: &mut R,
    writer: &mut W,
    failures: &mut Failures,
) -> Result<(), SessionError>
    requires workers { (0 < runner.now.workers) × (runner.now.workers ≤ 16) }
    ensures answered { OnOk result (WritesAll (answers_of session.old)
        (R.remaining reader.old) (W.contents writer.old) (W.contents writer.new)) }
    ensures over { OnOk result (IsAtEnd (R.remaining reader.new)) }
    ensures unread { live ≡ false → result ≡ Err SessionError.Read
        → Keeps (W.contents writer.old) (W.contents writer.new) }
    ensures read { live ≡ true → result ≡ Err SessionError.Read
        → WritesRead (session_so_far session.old) (R.remaining reader.old) (R.remaining reader.new)
        (W.contents writer.old) (W.contents writer.new) }
    ensures beginning { WritesBeginning (answers_of session.old)
        (R.remaining reader.old) (W.contents writer.old) (W.contents writer.new) }
    ensures no_kit { result ≡ Err SessionError.NoKit → session.old.kits.kits ≡ [] }
    ensures mismatch { IfErr result CarriesRefusal }
    ensures input { result ≡ Err SessionError.Read → failures.new.input ≡ true }
    ensures output { result ≡ Err SessionError.Write → failures.new.output ≡ true }
    ensures unmarked { OnOk result (failures.new ≡ failures.old) }
    ensures input_stays { result ≢ Err SessionError.Read
        → failures.new.input ≡ failures.old.input }
{
    if live {
        return answer_lines(runner, session, notes, reader, writer, failures);
    }
    let mut left = Tally::new(runner.alloc);
    let answered = answer_whole(runner, session, notes, reader, writer, failures, &mut left);
    // As of the session: the program ends now, so records that nobody asks for any more aren't given back one by one.
    let _ = ManuallyDrop::new(left);
    answered
}

// The session of a program's file and a tables' file.
fn session_of<V: View, M: Fn(Sort, Kind) -> Result<V, AllocError>, F: FileSource>(
    alloc: Global,
    options: Options<'_>,
    make: &M,
    files: &F,
) -> Result<Session<V>, ProgramError>
    requires callable { M.IsAlwaysCallable make.now }
    ensures opened { IfOk result (λ session.
        IsOpened (F.held files.now) options.entry session.checked session.tables.tables) }
    ensures unedited { IfOk result (λ session. session.tables.edits ≡ 0) }
    ensures count { IfOk result (λ session. length session.kits.kits ≡ options.entry.kits) }
    ensures unopened { IfErr result (IsUnopened (F.held files.now) options.entry) }
    ensures kits { 0 < options.entry.kits
        → result ≢ Err (ProgramError.Session SessionError.NoKit) }
    ensures mismatch { IfErr result ReportsRefusal }
    ensures input { result ≢ Err (ProgramError.Session SessionError.Read) }
    ensures output { result ≢ Err (ProgramError.Session SessionError.Write) }
{
    let program = match files.read(alloc, options.program) {
        Ok(program) => program,
        Err(error) => return Err(failed(alloc, options.program, &error)),
    };
    let tables = match files.read(alloc, options.tables) {
        Ok(tables) => tables,
        Err(error) => return Err(failed(alloc, options.tables, &error)),
    };
    let Ok(text) = str::from_utf8(tables.as_slice()) else {
        return Err(failed_file(alloc, options.tables));
    };
    match begin(
        alloc,
        program.as_slice(),
        text,
        options.kits,
        options.views,
        make,
    ) {
        Ok(session) => Ok(session),
        Err(BeginError::Prepare(error)) => Err(ProgramError::Prepare(error)),
        Err(BeginError::NoKit) => Err(ProgramError::Session(SessionError::NoKit)),
    }
}

// Who is told of the session's runs as the options ask for it, with the trace's file made, and who explains.
fn notes_of<F: FileSource, E: Write + Drop, X: Explain + Drop>(
    alloc: Global,
    options: Options<'_>,
    files: &F,
    told: Told<E, X>,
) -> Result<Explained<RunNotes<F::Made, E>, X>, ProgramError>
    ensures unmade { IfErr result (IsUnmade (option_map (λ t. t.now) options.entry.trace)) }
    ensures kits { result ≢ Err (ProgramError.Session SessionError.NoKit) }
    ensures mismatch { IfErr result ReportsRefusal }
    ensures input { result ≢ Err (ProgramError.Session SessionError.Read) }
    ensures output { result ≢ Err (ProgramError.Session SessionError.Write) }
{
    let Told { errors, explain } = told;
    match run_notes_of(alloc, options, files, errors) {
        Ok(notes) => Ok(Explained {
            notes,
            explain: asked(options.explain || options.why, explain),
            refusals: options.explain,
            crew: crew_of(options),
        }),
        Err(error) => Err(error),
    }
}

// The notes of runs that the options ask for, with the trace's file made.
fn run_notes_of<F: FileSource, E: Write + Drop>(
    alloc: Global,
    options: Options<'_>,
    files: &F,
    errors: E,
) -> Result<RunNotes<F::Made, E>, ProgramError>
    ensures unmade { IfErr result (IsUnmade (option_map (λ t. t.now) options.entry.trace)) }
    ensures kits { result ≢ Err (ProgramError.Session SessionError.NoKit) }
    ensures mismatch { IfErr result ReportsRefusal }
    ensures input { result ≢ Err (ProgramError.Session SessionError.Read) }
    ensures output { result ≢ Err (ProgramError.Session SessionError.Write) }
{
    let trace = match options.trace {
        None => None,
        Some(path) => match files.make(path) {
            Ok(file) => Some(file),
            Err(error) => return Err(failed(alloc, path, &error)),
        },
    };
    let counts = if options.stats { Some(errors) } else { None };
    Ok(RunNotes::new(alloc, trace, counts))
}

// Who explains, where that is asked for.
fn asked<X: Explain + Drop>(is_asked: bool, explain: X) -> Option<X> {
    if is_asked { Some(explain) } else { None }
}

// The crew of runs, where it is asked why they execute instances.
fn crew_of(options: Options<'_>) -> Option<Crew> {
    if options.why {
        Some(Crew {
            workers: options.workers,
            kits: options.kits,
        })
    } else {
        None
    }
}

// What an error of a session is to the program, with the reason why a run couldn't be noted.
fn ended_by(
    alloc: Global,
    trace: Option<&str>,
    error: SessionError,
    failure: Option<NotesError>,
) -> ProgramError
    ensures named { IsLate (option_map (λ t. t.now) trace.entry) result }
    ensures written { WritesNothing result → error ≡ SessionError.Read }
    ensures kits { result ≡ ProgramError.Session SessionError.NoKit → error ≡ SessionError.NoKit }
    ensures mismatch { CarriesRefusal error → ReportsRefusal result }
    ensures input { result ≡ ProgramError.Session SessionError.Read ↔ error ≡ SessionError.Read }
    ensures output { result ≡ ProgramError.Session SessionError.Write → error ≡ SessionError.Write }
{
    match error {
        SessionError::Notes => unnoted(alloc, trace, failure),
        error => ProgramError::Session(error),
    }
}

// The error of a run that couldn't be noted for that reason.
fn unnoted(alloc: Global, trace: Option<&str>, failure: Option<NotesError>) -> ProgramError
    ensures memory { failure ≡ Some NotesError.NoMemory
        → result ≡ ProgramError.Session SessionError.NoMemory }
    ensures named { IsLate (option_map (λ t. t.now) trace.entry) result }
    ensures written { ¬ (WritesNothing result) }
    ensures kits { result ≢ ProgramError.Session SessionError.NoKit }
    ensures mismatch { ReportsRefusal result }
    ensures input { result ≢ ProgramError.Session SessionError.Read }
    ensures output { result ≢ ProgramError.Session SessionError.Write }
{
    match failure {
        Some(NotesError::NoMemory) => no_memory(),
        Some(NotesError::Trace) => failed_trace(alloc, trace),
        Some(NotesError::Counts) | None => ProgramError::Session(SessionError::Notes),
    }
}

// The error of a trace that failed after it was made.
fn failed_trace(alloc: Global, trace: Option<&str>) -> ProgramError
    ensures named { IsLate (option_map (λ t. t.now) trace.entry) result }
    ensures written { ¬ (WritesNothing result) }
    ensures kits { result ≢ ProgramError.Session SessionError.NoKit }
    ensures mismatch { ReportsRefusal result }
    ensures input { result ≢ ProgramError.Session SessionError.Read }
    ensures output { result ≢ ProgramError.Session SessionError.Write }
{
    match trace {
        Some(path) => match String::from_str(alloc, path) {
            Ok(path) => ProgramError::Trace(path),
            Err(_) => no_memory(),
        },
        None => ProgramError::Session(SessionError::Notes),
    }
}
