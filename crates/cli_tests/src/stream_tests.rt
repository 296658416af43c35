// Readers and writers that fail in mid-stream, or only for a moment; and sessions over them.
use crate::running::{ended, ended_live, session};
use program_endings::session_error::SessionError;
use program_endings::streams::{Failures, flush, read_all, write_whole};
use std::alloc::Global;
use std::io;
use std::io::{ErrorKind, Read, Write};
use std::process::Abort;
use std::sync::Wait;
use std::thread::Threads;

// A reader that gives one byte of a text a call, and errors of this kind before some.
#[derive(Drop)]
struct Halting {
    text: &'static [u8],
    given: usize,
    error: ErrorKind,
    at: usize,
    times: usize,
}

impl Read for Halting {
    fn read(&mut self, buf: &mut [u8]) -> io::Result<usize> {
        if self.given == self.at && self.times > 0 {
            self.times -= 1;
            return Err(io::Error::from(self.error));
        }
        if self.given >= self.text.len() || buf.is_empty() {
            return Ok(0);
        }
        buf[0] = self.text[self.given];
        self.given += 1;
        Ok(1)
    }
}

fn halting_reader(text: &'static [u8], error: ErrorKind, at: usize, times: usize) -> Halting {
    Halting {
        text,
        given: 0,
        error,
        at,
        times,
    }
}

// A writer that takes so many bytes in all, with an error of its kind before the first and before the first flush.
#[derive(Drop)]
struct Slow {
    error: Option<ErrorKind>,
    flush_error: Option<ErrorKind>,
    room: usize,
    taken: Vec<u8>,
}

impl Write for Slow {
    fn write(&mut self, buf: &[u8]) -> io::Result<usize> {
        if let Some(error) = self.error.take() {
            return Err(io::Error::from(error));
        }
        let count = buf.len().min(self.room).min(1);
        self.taken.extend_from_slice(&buf[..count])?;
        self.room -= count;
        Ok(count)
    }

    fn flush(&mut self) -> io::Result<()> {
        match self.flush_error.take() {
            Some(error) => Err(io::Error::from(error)),
            None => Ok(()),
        }
    }
}

fn slow_writer(
    alloc: Global,
    error: Option<ErrorKind>,
    flush_error: Option<ErrorKind>,
    room: usize,
) -> Slow {
    Slow {
        error,
        flush_error,
        room,
        taken: Vec::new(alloc),
    }
}

const RUN: &[u8] = b"run\n";

// Compares bytes.
fn same_bytes(rt: &impl Abort, found: &[u8], wanted: &[u8]) {
    assert_eq!(rt; found, wanted);
}

// Which streams have failed: the input, and the output.
fn have_failed(rt: &impl Abort, failures: &Failures, streams: (bool, bool)) {
    assert!(rt; failures.noted() == streams);
}

#[test]
fn reads_that_are_interrupted_or_refused(rt: HostRuntime) {
    let mut failures = Failures::none();
    let mut reader = halting_reader(RUN, ErrorKind::Interrupted, 2, 3);
    let read = read_all(rt.alloc(), &mut reader, &mut failures).expect(&rt, "bytes");
    same_bytes(&rt, &read, RUN);
    let mut reader = halting_reader(RUN, ErrorKind::OutOfMemory, 1, 1);
    let read = read_all(rt.alloc(), &mut reader, &mut failures);
    assert!(&rt; matches!(&read, Err(SessionError::NoMemory)));
    have_failed(&rt, &failures, (false, false));
}

#[test]
fn writes_that_are_interrupted_or_take_nothing(rt: HostRuntime) {
    let mut failures = Failures::none();
    let mut writer = slow_writer(rt.alloc(), INTERRUPTED, INTERRUPTED, 3);
    write_whole(&mut writer, b"ok\n", &mut failures).expect(&rt, "written");
    flush(&mut writer, &mut failures).expect(&rt, "flushed");
    have_failed(&rt, &failures, (false, false));
    let written = write_whole(&mut writer, b"ok\n", &mut failures);
    assert!(&rt; matches!(&written, Err(SessionError::Write)));
    same_bytes(&rt, &writer.taken, b"ok\n");
    have_failed(&rt, &failures, (false, true));
}

const RETURNS_4: &[u8] = b"proc main() { return 4; }";

const NO_ROWS: &str = "[t]\ncolumns = [\"a\"]\nrows = []\n";

// How a session ends over these streams.
fn ending(
    rt: &(impl Abort + Threads + Wait + Sync),
    alloc: Global,
    reader: &mut Halting,
    writer: &mut Slow,
    failures: &mut Failures,
) -> &'static str {
    let session = session(rt, alloc, RETURNS_4, NO_ROWS);
    match &ended(rt, alloc, session, reader, writer, failures) {
        Ok(()) => "done",
        Err(SessionError::NoMemory) => "no memory",
        Err(SessionError::NoKit) => "no kit",
        Err(SessionError::Mismatch(_)) => "worker mismatch",
        Err(SessionError::Read) => "failed input",
        Err(SessionError::Write) => "failed output",
        Err(SessionError::Notes) => "failed notes",
    }
}

// The read before the byte of that number fails. Nothing is written, though the writer would fail too.
fn fails_before(rt: &(impl Abort + Threads + Wait + Sync), alloc: Global, at: usize) {
    let mut reader = halting_reader(RUN, ErrorKind::ConnectionReset, at, 1);
    let mut writer = slow_writer(alloc, None, None, 7);
    let mut failures = Failures::none();
    let ended = ending(rt, alloc, &mut reader, &mut writer, &mut failures);
    same_bytes(rt, ended.as_bytes(), b"failed input");
    same_bytes(rt, &writer.taken, b"");
    have_failed(rt, &failures, (true, false));
}

#[test]
fn a_read_fails_in_mid_stream(rt: HostRuntime) {
    for at in 0..5 {
        fails_before(&rt, rt.alloc(), at);
    }
}

const LINES: &[u8] = b"here\nput t 1 2\nhere\n";

// What a live session has answered once so many bytes of its script are read.
fn answered_by(read: usize) -> &'static str {
    if read < 5 {
        return "";
    }
    if read < 15 {
        return "refused E19 1\n";
    }
    "refused E19 1\nok\n"
}

// Whether the read of a live session fails before the byte of that number. What it has answered by then is written.
fn fails_live(
    rt: &(impl Abort + Threads + Wait + Sync),
    alloc: Global,
    at: usize,
    failures: &mut Failures,
    written: &mut Vec<u8>,
) -> bool {
    let session = session(rt, alloc, RETURNS_4, NO_ROWS);
    let mut reader = halting_reader(LINES, ErrorKind::ConnectionReset, at, 1);
    let ended = ended_live(rt, alloc, session, &mut reader, written, failures);
    matches!(&ended, Err(SessionError::Read))
}

fn fails_live_before(rt: &(impl Abort + Threads + Wait + Sync), alloc: Global, at: usize) {
    let mut failures = Failures::none();
    let mut written = Vec::new(alloc);
    let fails = fails_live(rt, alloc, at, &mut failures, &mut written);
    assert!(rt; fails);
    have_failed(rt, &failures, (true, false));
    same_bytes(rt, &written, answered_by(at).as_bytes());
}

#[test]
fn a_read_of_a_live_session_fails(rt: HostRuntime) {
    for at in 0..LINES.len() {
        fails_live_before(&rt, rt.alloc(), at);
    }
}

const ANSWERS: &str = "run 1\nresult 4\n";

const INTERRUPTED: Option<ErrorKind> = Some(ErrorKind::Interrupted);

const BROKEN: Option<ErrorKind> = Some(ErrorKind::BrokenPipe);

const FULL: Option<ErrorKind> = Some(ErrorKind::OutOfMemory);

// The errors of the first write and the first flush, how the session ends, what is written, and which streams have failed.
type Ending = (
    Option<ErrorKind>,
    Option<ErrorKind>,
    &'static str,
    &'static str,
    (bool, bool),
);

const ENDINGS: [Ending; 6] = [
    (None, None, "done", ANSWERS, (false, false)),
    (INTERRUPTED, INTERRUPTED, "done", ANSWERS, (false, false)),
    (None, BROKEN, "failed output", ANSWERS, (false, true)),
    (None, FULL, "no memory", ANSWERS, (false, false)),
    (FULL, None, "no memory", "", (false, false)),
    (FULL, BROKEN, "no memory", "", (false, true)),
];

fn ends_so(rt: &(impl Abort + Threads + Wait + Sync), alloc: Global, row: Ending) {
    let (error, flush_error, wanted, taken, marks) = row;
    let mut writer = slow_writer(alloc, error, flush_error, 100);
    let mut reader = halting_reader(RUN, ErrorKind::Interrupted, 0, 0);
    let mut failures = Failures::none();
    let ended = ending(rt, alloc, &mut reader, &mut writer, &mut failures);
    let is_written = writer.taken.as_slice() == taken.as_bytes();
    let as_said = ended == wanted && is_written && failures.noted() == marks;
    assert!(rt; as_said, "{error:?} {flush_error:?}: {ended} {is_written}");
}

#[test]
fn endings_by_the_writer(rt: HostRuntime) {
    for row in &ENDINGS {
        ends_so(&rt, rt.alloc(), *row);
    }
}

const REFUSED: &[u8] = b"put stock 1 2
put t 1 2 3
put t 2147483648 1
del t 9
hello
define
proc main() { x = spawn line(1); return x; }
end
run
";

const REFUSED_ANSWERS: &[u8] = b"refused E4
refused E5
refused E6
refused E7
refused E19 5
refused E9 C1 main 1
run 1
result 4
";

// The answers to refused edits, to a writer that takes so many bytes; how the session ends, and what was written.
fn answers_into(
    rt: &(impl Abort + Threads + Wait + Sync),
    alloc: Global,
    room: usize,
) -> (&'static str, Vec<u8>) {
    let mut reader = halting_reader(REFUSED, ErrorKind::Interrupted, 0, 0);
    let mut writer = slow_writer(alloc, None, None, room);
    let failures = &mut Failures::none();
    let ended = ending(rt, alloc, &mut reader, &mut writer, failures);
    (ended, writer.taken)
}

// That beginning of the answers is written where there is room for no more.
fn is_written(
    rt: &(impl Abort + Threads + Wait + Sync),
    alloc: Global,
    beginning: &[u8],
    wanted: &str,
) {
    let (ended, taken) = answers_into(rt, alloc, beginning.len());
    same_bytes(rt, ended.as_bytes(), wanted.as_bytes());
    same_bytes(rt, &taken, beginning);
}

#[test]
fn each_failed_write(rt: HostRuntime) {
    for room in 0..REFUSED_ANSWERS.len() {
        is_written(&rt, rt.alloc(), &REFUSED_ANSWERS[..room], "failed output");
    }
    is_written(&rt, rt.alloc(), REFUSED_ANSWERS, "done");
}

// Whether a session whose kits are taken out ends for want of a kit.
fn lacks_kits(
    rt: &(impl Abort + Threads + Wait + Sync),
    alloc: Global,
    written: &mut Vec<u8>,
) -> bool {
    let mut session = session(rt, alloc, RETURNS_4, "");
    drop(session.take_pool(alloc));
    let mut reader = b"here\nrun\n".as_slice();
    let failures = &mut Failures::none();
    let ended = ended(rt, alloc, session, &mut reader, written, failures);
    matches!(&ended, Err(SessionError::NoKit))
}

#[test]
fn no_kit(rt: HostRuntime) {
    let mut written = Vec::new(rt.alloc());
    assert!(&rt; lacks_kits(&rt, rt.alloc(), &mut written));
    same_bytes(&rt, &written, b"refused E19 1\n");
}
