//! Answers the script on its input by runs of a program over tables; or prints a program in its normal form.
#![tactic(auto)]

use cli::files::StandardError;
use cli::program::{ending, report};
use cli::sorts::Sort;
use monoid_laws::Kind;
use program_reasons::script::Explainer;
use program_reasons::{reasons_of, show};
use std::alloc::AllocError;
use std::fs;
use std::io::IsTerminal;
use std::process::ExitCode;
use view_pool::{EitherView, FlatView, PlainView};

fn main(rt: HostRuntime) -> ExitCode {
    let alloc = rt.alloc();
    // Where standard output is closed, say, the next file that is opened gets its number, and a trace would take the answers. So
    // a folder takes these numbers first, of which nothing can be read, and to which nothing can be written.
    let _held = [fs::open(&rt, "/"), fs::open(&rt, "/"), fs::open(&rt, "/")];
    let make = |sort: Sort, kind: Kind| -> Result<EitherView, AllocError> {
        match sort {
            Sort::Plain => Ok(EitherView::Plain(Box::new(alloc, PlainView::new(alloc, kind))?)),
            Sort::Flat => Ok(EitherView::Flat(Box::new(alloc, FlatView::new(alloc, kind))?)),
        }
    };
    let explainer = Explainer::new(alloc, StandardError { rt: &rt });
    let reported = report(&rt, alloc, &make, explainer, rt.stdin().is_terminal());
    let reasons = reasons_of(&rt, alloc, &reported);
    let status = ending(&rt, reported);
    show(&rt, reasons.as_str());
    status
}
