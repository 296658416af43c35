//! A run by the calls that a run by threads is made of, which is given up before a worker has come.
ghost use Rattle.std.specs.Prelude.{◌≡◌, ◌<◌, ◌≤◌, [], All, length};
ghost use Rattle.linked_program.specs.Checked.{revised_of};
ghost use Rattle.linked_program.specs.TableNames.{columned_of};
ghost use Rattle.record_theory.specs.InStep.{IsInStep};
ghost use Rattle.record_theory.specs.Named.{HaveValues};
ghost use Rattle.positions.specs.Setting.{setting_with};
ghost use Rattle.numbered_runs.specs.News.{AreSound};

use input_tables::Tables;
use linked_program::checked::Checked;
use rerun_records::records::Records;
use reuse_planner::Session;
use session_kit::owners::in_session;
use std::alloc::Global;
use std::marker::Brand;
use std::process::Abort;
use std::sync::ledger::Ledger;
use test_kit::texts::{FIRST, SALES};
use threaded_driver::{Blanks, Deques, Floor, NewDeques, Run, Stocked, deques_of};
use view_pool::{Kit, PlainView, Pool};

/// What a run is lent: a program, its tables, and the records that may answer its memo instances.
#[derive(Clone, Copy)]
struct Borrowed<'a> {
    program: &'a Checked,
    tables: &'a Tables,
    records: &'a Records,
}

/// How many kits are home, where the run through these deques is given up at once; none where it isn't begun.
fn through<J, D>(
    alloc: Global,
    borrowed: Borrowed<'_>,
    pool: Pool<Kit<PlainView>>,
    deques: NewDeques<J>,
) -> Option<usize>
where
    J: Run + Ledger + Stocked + Send,
    D: Deques,
    requires same { setting_with borrowed.program.now borrowed.tables.now.tables [] borrowed.records.now ≡ J.setting }
    requires names { borrowed.program.now.tables ≡ columned_of borrowed.tables.now.tables }
    requires sound { AreSound (revised_of borrowed.program.now) borrowed.program.now.tables borrowed.program.now.kinds borrowed.records.now }
    requires values { HaveValues borrowed.program.now.kinds borrowed.records.now }
    requires in_step { IsInStep borrowed.tables.now.tables borrowed.records.now }
    requires kinds { All (λ k. k ≡ J.setting.kinds) pool.kits }
    requires total { pool.total ≡ J.total }
    requires begun { length pool.kits ≡ J.begun }
    requires named { D.deques ≡ deques }
{
    let Borrowed {
        program,
        tables,
        records,
    } = borrowed;
    match Floor::<J, D, PlainView>::new(alloc, program, tables, records, pool, deques) {
        Ok((floor, _seats)) => Some(floor.into_pool().free()),
        Err(_) => None,
    }
}

/// How many kits are home, where the run by so many workers is given up at once; none where it isn't begun.
fn by_workers<J>(
    rt: &impl Abort,
    alloc: Global,
    borrowed: Borrowed<'_>,
    pool: Pool<Kit<PlainView>>,
    blanks: Blanks,
    workers: usize,
) -> Option<usize>
where
    J: Run + Ledger + Stocked + Send,
    requires same { setting_with borrowed.program.now borrowed.tables.now.tables [] borrowed.records.now ≡ J.setting }
    requires names { borrowed.program.now.tables ≡ columned_of borrowed.tables.now.tables }
    requires sound { AreSound (revised_of borrowed.program.now) borrowed.program.now.tables borrowed.program.now.kinds borrowed.records.now }
    requires values { HaveValues borrowed.program.now.kinds borrowed.records.now }
    requires in_step { IsInStep borrowed.tables.now.tables borrowed.records.now }
    requires kinds { All (λ k. k ≡ J.setting.kinds) pool.kits }
    requires total { pool.total ≡ J.total }
    requires begun { length pool.kits ≡ J.begun }
    requires name { blanks.leavers.name ≡ J.name }
    requires parts { (blanks.leavers.parts ≡ J.parts) × (J.parts ≡ workers) }
    requires ledger { blanks.kits.name ≡ J.ledger }
    requires some { 0 < workers }
{
    let deques = deques_of::<J>(alloc, blanks, workers).expect(rt, "memory");
    through::<J, Brand>(alloc, borrowed, pool, deques)
}

/// How many kits are home, where a run of a session's program on its tables with its kits is given up at once. The session has no
/// kits behind it.
fn given_up(
    rt: &impl Abort,
    alloc: Global,
    session: &mut Session<PlainView>,
    workers: usize,
) -> Option<usize>
    requires workers { (0 < workers) × (workers ≤ 16) }
{
    session.upheld();
    let pool = session.take_pool(alloc);
    let borrowed = Borrowed {
        program: session.checked(),
        tables: session.tables(),
        records: session.records(),
    };
    by_workers::<Brand>(rt, alloc, borrowed, pool, Blanks::new(workers), workers)
}

/// The first strand has a kit.
#[test]
fn a_run_given_up_at_once(rt: HostRuntime) {
    let home = in_session(
        rt.alloc(),
        FIRST,
        SALES,
        8,
        |session| given_up(&rt, rt.alloc(), session, 2),
    );
    assert_eq!(&rt; home, Some(Some(7)));
}
