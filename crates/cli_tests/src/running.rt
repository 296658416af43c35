// Sessions of programs over tables, by one worker: the one place where these tests begin them and hand them a script.
use cli::beginning::{BeginError, begin};
use cli::live::live_text;
use cli::notes::NoNotes;
use cli::runner::Runner;
use cli::session::session_text;
use cli::sorts::Sort;
use command_line::options::Views;
use kept_session::Session;
use monoid_laws::Kind;
use prepared_program::prepare::PrepareError;
use program_endings::session_error::SessionError;
use program_endings::streams::Failures;
use std::alloc::{AllocError, Global};
use std::io::{Read, Write};
use std::process::Abort;
use std::sync::Wait;
use std::thread::Threads;
use threaded_driver::NoGate;
use view_pool::PlainView;

// A session with so many kits of views of the reducers' kinds, or of another one.
fn begun(
    alloc: Global,
    program: &[u8],
    tables: &str,
    kits: usize,
    are_theirs: bool,
) -> Result<Session<PlainView>, BeginError> {
    let make = |_sort: Sort, kind: Kind| -> Result<PlainView, AllocError> {
        let its = if are_theirs { kind } else { Kind::Mul };
        Ok(PlainView::new(alloc, its))
    };
    begin(alloc, program, tables, kits, Views::Plain, &make)
}

// A session with a few kits.
pub fn session(rt: &impl Abort, alloc: Global, program: &[u8], tables: &str) -> Session<PlainView> {
    begun(alloc, program, tables, 8, true).expect(rt, "a session")
}

// Why no session is begun. One that is begun is ended by its own crate, so that this one needn't prove how it is dropped.
pub fn begin_error(
    alloc: Global,
    program: &[u8],
    tables: &str,
    kits: usize,
    are_theirs: bool,
) -> Option<BeginError> {
    match begun(alloc, program, tables, kits, are_theirs) {
        Ok(session) => {
            session.end();
            None
        }
        Err(error) => Some(error),
    }
}

// Why a program isn't prepared.
pub fn prepare_error(rt: &impl Abort, alloc: Global, program: &[u8], tables: &str) -> PrepareError {
    match begin_error(alloc, program, tables, 8, true) {
        Some(BeginError::Prepare(error)) => error,
        _ => panic!(rt; "not refused"),
    }
}

// What a session ends by over these streams.
pub fn ended<R: Read, W: Write>(
    rt: &(impl Threads + Wait + Sync),
    alloc: Global,
    session: Session<PlainView>,
    reader: &mut R,
    writer: &mut W,
    failures: &mut Failures,
) -> Result<(), SessionError> {
    let notes = &mut NoNotes;
    let runner = Runner {
        rt,
        alloc,
        workers: 1,
        gate: &NoGate,
    };
    session_text(&runner, session, notes, reader, writer, failures)
}

// What a live session ends by over these streams.
pub fn ended_live<R: Read, W: Write>(
    rt: &(impl Threads + Wait + Sync),
    alloc: Global,
    session: Session<PlainView>,
    reader: &mut R,
    writer: &mut W,
    failures: &mut Failures,
) -> Result<(), SessionError> {
    let notes = &mut NoNotes;
    let runner = Runner {
        rt,
        alloc,
        workers: 1,
        gate: &NoGate,
    };
    live_text(&runner, session, notes, reader, writer, failures)
}
