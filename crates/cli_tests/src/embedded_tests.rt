// A report inside a program of one's own (docs/EMBEDDING.md): tables filled row by row, runs by threads, an edit, and values read by
// their names.
use anyhow::{Context, Result, bail};
use input_tables::Tables;
use kept_session::Session;
use monoid_laws::{Kind, Val};
use positions::answer::RunAnswer;
use report_session::opening::open;
use report_session::values::value;
use session_edits::Edit;
use std::alloc::{AllocError, Global};
use std::sync::Wait;
use std::thread::Threads;
use threaded_driver::{NoGate, run_threads};
use view_pool::{PlainView, View};

const REPORT: &[u8] = b"reducer total : add;
memo proc line(r) { v = sales[r].qty * sales[r].price; update total v; return v; }
proc main() { cilk_for r in 1 .. limit sales : line(r); return 0; }";

// Adds the table of sales, its rows counted from 1.
fn add_sales(alloc: Global, tables: &mut Tables) -> Result<()> {
    tables.add(alloc, "sales", &["qty", "price"])?;
    for (row, cells) in [(1, [2, 5]), (2, [3, 7]), (3, [1, 100])] {
        tables.put(alloc, "sales", row, &cells)?;
    }
    Ok(())
}

// Runs the report by four workers: its total, and how many lines were done anew.
fn run<V: View + Send>(
    rt: &(impl Threads + Wait + Sync),
    alloc: Global,
    session: &mut Session<V>,
) -> Result<(i64, u64)> {
    let Ok((answer, _)) = run_threads(rt, alloc, session, 4, &NoGate) else {
        bail!("the list of strands refused a worker");
    };
    let RunAnswer::Finished {
        values,
        executed,
        ..
    } = answer
    else {
        bail!("the run came to no result");
    };
    let Some(Val::Int(total)) = value(session.checked(), values.as_slice(), "total") else {
        bail!("the report has no total");
    };
    Ok((*total, executed))
}

// Runs the report, changes a row, and runs it again.
fn use_report<V: View + Send>(
    rt: &(impl Threads + Wait + Sync),
    alloc: Global,
    session: &mut Session<V>,
) -> Result<((i64, u64), (i64, u64))> {
    let first = run(rt, alloc, session)?;
    let edit = Edit::Put {
        table: "sales",
        row: 2,
        values: vec![in alloc; 4, 7]?,
    };
    session.apply(alloc, &edit)?;
    let again = run(rt, alloc, session)?;
    Ok((first, again))
}

// Makes the tables, opens the report over them, and runs it before and behind the edit.
fn two_totals(
    rt: &(impl Threads + Wait + Sync),
    alloc: Global,
) -> Result<((i64, u64), (i64, u64))> {
    let make = |kind: Kind| -> Result<PlainView, AllocError> { Ok(PlainView::new(alloc, kind)) };
    let mut tables = Tables::new(alloc);
    add_sales(alloc, &mut tables)?;
    let mut session = open(alloc, REPORT, tables, 64, &make).context("the report")?;
    let used = use_report(rt, alloc, &mut session);
    session.end();
    used
}

#[test]
fn a_report_runs_before_and_behind_an_edit(rt: HostRuntime) {
    let as_meant = match two_totals(&rt, rt.alloc()) {
        Ok((first, again)) => first == (131, 3) && again == (138, 1),
        Err(_) => false,
    };
    assert!(&rt; as_meant);
}
