//! Runs over lists that count their drops, to the end or given up in the middle, and runs that memory is refused for.
ghost use Rattle.std.specs.Prelude.{◌≡◌, All};

use super::playing::{Played, play_over, take_all};
use crate::tests::comparing::{counted, same_count};
use monoid_laws::Kind;
use reuse_planner::Session;
use session_kit::owners::in_session;
use std::alloc::{AllocError, Global};
use std::process::Abort;
use std::sync::Arc;
use std::sync::atomic::AtomicUsize;
use test_kit::beginnings::kits_by;
use test_kit::refusing::{Refuses, Stubborn};
use test_kit::texts::{FIRST_LIST, SALES};
use view_pool::{Kit, Pool, View};
use worker_core::run::Core;

const TO_THE_END: &str = "W0* P0 S10 W1* I1 W1* L1 W0* L0 F0@1 W0* L0";

fn boxed(
    alloc: Global,
    refuses: Refuses,
    drops: &Arc<AtomicUsize>,
) -> Result<Box<dyn View>, AllocError> {
    let view: Box<dyn View> = Box::new(alloc, Stubborn::new(alloc, refuses, drops)?)?;
    Ok(view)
}

/// Runs a session's program by a line of steps of two workers, over two kits of lists that are made so.
fn over_lists<V: View, W: View, F: Fn(Kind) -> Result<V, AllocError>>(
    rt: &impl Abort,
    alloc: Global,
    session: &Session<W>,
    line: &str,
    make: &F,
) -> Played
    requires { F.IsAlwaysCallable make.now }
{
    let kits = kits_by(alloc, session.checked().kinds(), 2, make).expect(rt, "kits");
    let (played, _pool) = play_over(rt, alloc, session, Pool::new(kits), 2, line);
    played
}

/// Compares what the line of a row led to.
fn led_to(rt: &impl Abort, played: &Played, row: Row) {
    assert!(rt; played.leads_to(row.3, row.6), "after {}", row.2);
    assert!(rt;
        played.strands.as_str() == row.4 && played.is_over == row.5,
        "after {}",
        row.2
    );
}

/// A row below, over two kits of boxed lists. Each box is dropped once.
fn over_boxes<W: View>(rt: &impl Abort, alloc: Global, session: &Session<W>, row: Row) {
    let drops = Arc::new(alloc, AtomicUsize::new(0)).expect(rt, "memory");
    let refuses = row.1;
    let make = |_kind: Kind| boxed(alloc, refuses, &drops);
    let played = over_lists(rt, alloc, session, row.2, &make);
    led_to(rt, &played, row);
    same_count(rt, counted(&drops), row.7);
}

/// Runs the row in a session of its own program, over kits in boxes.
fn over_boxes_in(rt: &impl Abort, alloc: Global, row: Row) {
    let done = in_session(
        alloc,
        row.0,
        SALES,
        1,
        |session| over_boxes(rt, alloc, session, row),
    );
    done.expect(rt, "a session");
}

/// A program and a line over lists that refuse so: what is refused, the strands, whether the run is over, the answer, and how many
/// boxes there are.
type Row = (
    &'static str,
    Refuses,
    &'static str,
    &'static str,
    &'static str,
    bool,
    &'static str,
    usize,
);

const ROWS: [Row; 8] = [
    (
        FIRST_LIST,
        Refuses::Nothing,
        "",
        "",
        "[] Held(0);",
        false,
        "unfinished\n",
        2,
    ),
    (
        FIRST_LIST,
        Refuses::Nothing,
        "W0* P0 S10",
        "",
        "[] Held(0);[1] Held(1);",
        false,
        "unfinished\n",
        2,
    ),
    (
        FIRST_LIST,
        Refuses::Nothing,
        "W0* P0 S10 W1* I1 W1* L1 W0* L0",
        "",
        "[] Ended;[1] Stalled;",
        false,
        "unfinished\n",
        2,
    ),
    (
        FIRST_LIST,
        Refuses::Nothing,
        TO_THE_END,
        "",
        "[] Finished;",
        true,
        "result 3\nseen 1 2 9\n",
        2,
    ),
    // A fold that is refused is done again.
    (
        FIRST_LIST,
        Refuses::Absorb,
        "W0* P0 S10 W1* I1 W1* L1 W0* L0 F0@1",
        "F0@1 out of memory;",
        "[] Ended;[1] Stalled;",
        false,
        "unfinished\n",
        2,
    ),
    (
        FIRST_LIST,
        Refuses::Absorb,
        "W0* P0 S10 W1* I1 W1* L1 W0* L0 F0@1 F0@1 W0* L0",
        "F0@1 out of memory;",
        "[] Finished;",
        true,
        "result 3\nseen 1 2 9\n",
        2,
    ),
    // An update that is refused memory makes the run fail: no step is taken any more.
    (
        FIRST_LIST,
        Refuses::Update,
        "W0* I0 W0 W0 W0 S00 S10 F0@1 L0",
        "W0 out of memory;W0 refused E16;S00 refused E16;S10 refused E16;F0@1 refused E16;L0 refused E16;",
        "[] Held(0);",
        true,
        "no memory\n",
        2,
    ),
    // The first list refuses, and then, when the first has moved to the left, the second one.
    (
        TWO_LISTS,
        Refuses::Absorb,
        "W0* P0 S10 W1* L1 W0* L0 F0@1 F0@1 F0@1 W0* L0",
        "F0@1 out of memory;F0@1 out of memory;",
        "[] Finished;",
        true,
        "result 1\none 1 2\ntwo 1 2\n",
        4,
    ),
];

/// Two lists, the same.
const TWO_LISTS: &str = "reducer one : list;
reducer two : list;
proc leaf(v) { update one v; update two v; return v; }
proc main() { x = spawn leaf(1); update one 2; update two 2; sync; return x; }
";

#[test]
fn refused_memory(rt: HostRuntime) {
    for row in &ROWS {
        over_boxes_in(&rt, rt.alloc(), *row);
    }
}

/// Takes the steps of a line in a run over these kits, and lets the run go.
fn let_go<V: View, W: View>(
    rt: &impl Abort,
    alloc: Global,
    session: &Session<W>,
    pool: Pool<Kit<V>>,
    line: &str,
)
    requires kits { All (λ k. k ≡ session.now.checked.kinds) pool.kits }
{
    session.upheld();
    let (program, tables, records) = (session.checked(), session.tables(), session.records());
    let Ok(mut core) = Core::start(alloc, program, tables, records, pool, 2) else {
        panic!(rt; "not started");
    };
    let _refused = take_all(rt, alloc, &mut core, line);
}

/// Gives a run up over two kits of lists, each of which is dropped once.
fn drops_each<W: View>(rt: &impl Abort, alloc: Global, session: &Session<W>, line: &str) {
    let drops = Arc::new(alloc, AtomicUsize::new(0)).expect(rt, "memory");
    let make = |_kind: Kind| Stubborn::new(alloc, Refuses::Nothing, &drops);
    let kits = kits_by(alloc, session.checked().kinds(), 2, &make).expect(rt, "kits");
    let_go(rt, alloc, session, Pool::new(kits), line);
    same_count(rt, counted(&drops), 2);
}

fn all_are_dropped<W: View>(rt: &impl Abort, alloc: Global, session: &Session<W>) {
    for line in ["", "W0* P0 S10 W1* I1 W1*", TO_THE_END] {
        drops_each(rt, alloc, session, line);
    }
}

#[test]
fn each_view_is_dropped_once_with_its_run(rt: HostRuntime) {
    let done = in_session(
        rt.alloc(),
        FIRST_LIST,
        SALES,
        1,
        |session| all_are_dropped(&rt, rt.alloc(), session),
    );
    done.expect(&rt, "a session");
}
