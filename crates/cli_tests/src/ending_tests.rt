// What is said of errors that no session of the program shows, and their statuses.
use command_line::options::OptionsError;
use prepared_program::prepare::PrepareError;
use program_endings::program_error::{ProgramError, status};
use program_endings::session_error::SessionError;
use std::alloc::Global;
use std::process::Abort;
use sync_fold::Refusal;
use threaded_driver::Mismatch;

// Whether this is said of an error, and this is its status.
fn says(rt: &impl Abort, alloc: Global, error: &ProgramError, said: &str, wanted: u8) -> bool {
    let text = error.to_string(alloc).expect(rt, "memory");
    text.as_str() == said && status(error) == wanted
}

// Compares what is said of an error, and its status.
fn is_said(rt: &impl Abort, alloc: Global, error: ProgramError, said: &str, wanted: u8) {
    assert!(rt; says(rt, alloc, &error, said, wanted), "{said}");
}

fn is_said_of_a_session(
    rt: &impl Abort,
    alloc: Global,
    error: SessionError,
    said: &str,
    wanted: u8,
) {
    is_said(rt, alloc, ProgramError::Session(error), said, wanted);
}

#[test]
fn errors_and_their_statuses(rt: HostRuntime) {
    let alloc = rt.alloc();
    is_said_of_a_session(&rt, alloc, SessionError::NoMemory, "out of memory", 3);
    is_said_of_a_session(&rt, alloc, SessionError::NoKit, "no kit", 3);
    // A refusal for want of memory is the only one that can be made here.
    let refusal = Refusal::without_memory();
    let mismatch = SessionError::Mismatch(Mismatch { refusal });
    is_said_of_a_session(&rt, alloc, mismatch, "worker mismatch", 3);
    is_said_of_a_session(&rt, alloc, SessionError::Notes, "failed output", 1);
    let error = ProgramError::Prepare(PrepareError::NoMemory);
    is_said(&rt, alloc, error, "out of memory", 3);
    let error = ProgramError::Line(OptionsError::NoMemory);
    is_said(&rt, alloc, error, "out of memory", 3);
}
