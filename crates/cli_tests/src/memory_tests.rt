// Where memory is refused, a report ends by want of memory after a beginning of its answers, or is as it should be; and a report whose
// trace finds no room, or isn't flushed.
use crate::running::prepare_error;
use cli::files::FileSource;
use cli::program::{Setting, Told, report_on};
use cli::sorts::Sort;
use command_line::line::options;
use command_line::options::{Options, OptionsError, Views};
use monoid_laws::Kind;
use prepared_program::prepare::PrepareError;
use program_endings::program_error::{ProgramError, status};
use program_endings::streams::Failures;
use program_reasons::script::Explainer;
use std::alloc::{AllocError, Global};
use std::cell::Cell;
use std::io;
use std::io::{ErrorKind, Write};
use std::process::Abort;
use std::sync::Wait;
use std::thread::Threads;
use view_pool::PlainView;

const FIRST: &[u8] = b"reducer total : add;
proc leaf(v) { update total v; return v; }
proc main() { x = spawn leaf(1); y = spawn leaf(2); update total 9; sync; return x + y; }
";

const DEEP: &[u8] = b"proc f() { call f(); } proc main() { call f(); }";

const ASKED: Options<'static> = Options {
    program: "p",
    tables: "t",
    workers: 1,
    kits: 2,
    views: Views::Plain,
    trace: Some("T"),
    stats: true,
    explain: true,
    live: false,
    why: true,
};

// What was written into a place that takes no memory.
#[derive(Clone, Copy)]
struct Page {
    bytes: [u8; 128],
    len: usize,
}

impl Page {
    fn text(&self) -> &[u8] {
        &self.bytes[..self.len.min(128)]
    }
}

const EMPTY: Page = Page {
    bytes: [0; 128],
    len: 0,
};

// Writes so many bytes on a page, and flushes them or can't.
#[derive(Clone, Copy)]
struct Pen<'a> {
    page: &'a Cell<Page>,
    room: usize,
    flushes: bool,
}

impl<'a> Pen<'a> {
    fn on(page: &'a Cell<Page>) -> Pen<'a> {
        Pen {
            page,
            room: 128,
            flushes: true,
        }
    }
}

impl<'a> Write for Pen<'a> {
    fn write(&mut self, buf: &[u8]) -> io::Result<usize> {
        let mut page = self.page.get();
        if page.len >= self.room.min(128) || buf.is_empty() {
            return Err(io::Error::from(ErrorKind::WriteZero));
        }
        page.bytes[page.len] = buf[0];
        page.len += 1;
        self.page.set(page);
        Ok(1)
    }

    fn flush(&mut self) -> io::Result<()> {
        if self.flushes {
            return Ok(());
        }
        Err(io::Error::from(ErrorKind::BrokenPipe))
    }
}

// A program's file; that of the tables is empty. The trace has room for so many bytes, and is flushed or not.
#[derive(Clone, Copy)]
struct Program<'a> {
    text: &'a [u8],
    trace: &'a Cell<Page>,
    room: usize,
    flushes: bool,
}

impl<'a> FileSource for Program<'a> {
    type Made = Pen<'a>;

    fn read(&self, alloc: Global, path: &str) -> io::Result<Vec<u8>> {
        let text = if path == "p" { self.text } else { b"" };
        Ok(Vec::from_slice(alloc, text)?)
    }

    fn make(&self, _path: &str) -> io::Result<Pen<'a>> {
        Ok(Pen {
            page: self.trace,
            room: self.room,
            flushes: self.flushes,
        })
    }
}

// What a report has written, and its status.
#[derive(Clone, Copy)]
struct Report {
    answers: Page,
    trace: Page,
    counts: Page,
    status: u8,
}

// The status of a report that has ended so.
fn status_of(ended: &Result<(), ProgramError>) -> u8 {
    match ended {
        Ok(()) => 0,
        Err(error) => status(error),
    }
}

// Does a report of these files, and gives the status that it ends by.
fn ended_by(
    rt: &(impl Abort + Threads + Wait + Sync),
    alloc: Global,
    program: &Program<'_>,
    script: &[u8],
    answers: &Cell<Page>,
    counts: &Cell<Page>,
) -> u8 {
    let make = |_sort: Sort, kind: Kind| -> Result<PlainView, AllocError> {
        Ok(PlainView::new(alloc, kind))
    };
    let mut reader = script;
    let setting = Setting {
        rt,
        alloc,
        options: ASKED,
    };
    let told = Told {
        errors: Pen::on(counts),
        explain: Explainer::new(alloc, io::sink()),
    };
    status_of(&report_on(
        &setting,
        &make,
        program,
        &mut reader,
        &mut Pen::on(answers),
        told,
        &mut Failures::none(),
    ))
}

// Does a report whose trace has room for so many bytes, and is flushed or not.
fn reported(
    rt: &(impl Abort + Threads + Wait + Sync),
    alloc: Global,
    text: &[u8],
    script: &[u8],
    room: usize,
    flushes: bool,
) -> Report {
    let (answers, trace, counts) = (Cell::new(EMPTY), Cell::new(EMPTY), Cell::new(EMPTY));
    let program = Program {
        text,
        trace: &trace,
        room,
        flushes,
    };
    let status = ended_by(rt, alloc, &program, script, &answers, &counts);
    Report {
        answers: answers.get(),
        trace: trace.get(),
        counts: counts.get(),
        status,
    }
}

// Whether all of these answers are written, or a beginning of them and then memory was refused. The script's one run has a trace and
// counts, or neither.
fn is_written(
    rt: &(impl Abort + Threads + Wait + Sync),
    alloc: Global,
    text: &[u8],
    script: &[u8],
    answers: &[u8],
) -> bool {
    let report = reported(rt, alloc, text, script, 128, true);
    let written = report.answers.text();
    if (report.trace.len == 0) != (report.counts.len == 0) {
        return false;
    }
    match report.status {
        0 => written == answers,
        3 => answers.starts_with(written),
        _ => false,
    }
}

// Programs, scripts and their answers: a report, one of a fault, and edits.
const REPORTS: [(&[u8], &[u8], &[u8]); 3] = [
    (
        FIRST,
        b"run\nhere\n",
        b"run 1\nresult 3\ntotal 12\nrefused E19 2\n",
    ),
    (
        DEEP,
        b"run\nhere\n",
        b"run 1\nfault too deep in f at 1\nrefused E19 2\n",
    ),
    (
        FIRST,
        b"define\nproc leaf(v) { return v; }\nend\nrun\nput t 1 2\n",
        b"ok\nrun 1\nresult 3\ntotal 9\nrefused E4\n",
    ),
];

#[test]
fn of_reports(rt: HostRuntime) {
    for row in &REPORTS {
        assert!(&rt; is_written(&rt, rt.alloc(), row.0, row.1, row.2));
    }
}

// Whether the answer to a run that couldn't be noted isn't written, nor are its counts, and the trace is this.
fn is_not_noted(
    rt: &(impl Abort + Threads + Wait + Sync),
    alloc: Global,
    room: usize,
    flushes: bool,
    trace: &[u8],
) -> bool {
    let report = reported(rt, alloc, FIRST, b"here\nrun\n", room, flushes);
    report.answers.text() == b"refused E19 1\n".as_slice()
        && report.trace.text() == trace
        && report.counts.len == 0
        && report.status == 1
}

#[test]
fn a_trace_without_room_or_not_flushed(rt: HostRuntime) {
    assert!(&rt; is_not_noted(&rt, rt.alloc(), 7, true, b"run 1\nf"));
    assert!(&rt; is_not_noted(&rt, rt.alloc(), 128, false, b"run 1\nfinish root\n"));
}

// Whether memory was refused, or a program is refused for the first line of `main`.
fn is_of_main(error: &PrepareError) -> bool {
    match error {
        PrepareError::NoMemory => true,
        PrepareError::Check { name, line, .. } => name.as_str() == "main" && *line == 1,
        _ => false,
    }
}

#[test]
fn of_a_check(rt: HostRuntime) {
    let error = prepare_error(&rt, rt.alloc(), b"proc main() { return x; }", "");
    assert!(&rt; is_of_main(&error));
}

// Whether memory was refused, or the sales are no table.
fn is_of_sales(error: &PrepareError) -> bool {
    match error {
        PrepareError::NoMemory => true,
        PrepareError::Shape { table } => table.as_str() == "sales",
        _ => false,
    }
}

#[test]
fn of_tables(rt: HostRuntime) {
    let error = prepare_error(&rt, rt.alloc(), FIRST, "[sales]\nrows = 1\n");
    assert!(&rt; is_of_sales(&error));
}

// Whether memory was refused, or there are three workers and five kits.
fn are_three_and_five(given: &Result<Options<'_>, OptionsError>) -> bool {
    match given {
        Ok(given) => given.workers == 3 && given.kits == 5,
        Err(OptionsError::NoMemory) => true,
        Err(_) => false,
    }
}

#[test]
fn of_a_line(rt: HostRuntime) {
    let words = ["cilkreport", "p", "t", "--workers", "3", "--kits", "5"];
    assert!(&rt; are_three_and_five(&options(rt.alloc(), &words)));
}
