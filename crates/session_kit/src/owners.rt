//! Sessions that live as long as what is done in them.

use monoid_laws::Kind;
use report_session::opening::open;
use reuse_planner::Session;
use std::alloc::{AllocError, Global};
use std::sync::Arc;
use std::sync::atomic::AtomicUsize;
use test_kit::beginnings::tables;
use test_kit::refusing::{Refuses, Stubborn};
use view_pool::PlainView;

/// Does this in the session of the program that a text is, on the tables that another text is, with so many kits of plain views.
/// None where a text is none, there are no kits, or memory is refused.
pub fn in_session<T, F: FnOnce(&mut Session<PlainView>) -> T>(
    alloc: Global,
    text: &str,
    rows: &str,
    count: usize,
    act: F,
) -> Option<T>
    requires { F.IsAlwaysCallable act }
{
    let make = |kind: Kind| -> Result<PlainView, AllocError> { Ok(PlainView::new(alloc, kind)) };
    let tables = tables(alloc, rows)?;
    let mut session = open(alloc, text.as_bytes(), tables, count, &make).ok()?;
    let done = act(&mut session);
    session.end();
    Some(done)
}

/// Does something in a session whose views are lists that refuse so, and count their drops, for a program whose reducers are lists.
pub fn in_session_of_lists<T, F: FnOnce(&mut Session<Stubborn>) -> T>(
    alloc: Global,
    text: &str,
    rows: &str,
    count: usize,
    refuses: Refuses,
    drops: &Arc<AtomicUsize>,
    act: F,
) -> Option<T>
    requires { F.IsAlwaysCallable act }
{
    let make = |_kind: Kind| Stubborn::new(alloc, refuses, drops);
    let tables = tables(alloc, rows)?;
    let mut session = open(alloc, text.as_bytes(), tables, count, &make).ok()?;
    let done = act(&mut session);
    session.end();
    Some(done)
}
