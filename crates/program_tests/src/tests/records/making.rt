//! Programs, tables and records that the tests speak of.
ghost use Rattle.std.specs.Prelude.{◌≡◌};
ghost use Rattle.meaning.specs.Every.{every};
ghost use Rattle.record_theory.specs.InStep.{IsInStep};
ghost use Rattle.record_theory.specs.Validity.{record_holds};

use evaluation::note::Note;
use evaluation::reading::readings;
use input_tables::Tables;
use instance_records::arguments::Arguments;
use instance_records::entries::Entries;
use instance_records::gift::Gift;
use instance_records::readings::Readings;
use instance_records::record::Record;
use instance_records::short_list::ShortList;
use linked_program::checked::Checked;
use monoid_laws::Val;
use rerun_records::records::Records;
use std::alloc::Global;
use std::process::Abort;

/// `line` is procedure 0, `down` is 1 and `main` is 2; `total` is reducer 0 and `top` is 1. Their revision numbers are 0, 1 and 2.
pub const LINES: &str = "reducer total : add;
reducer top : argmax;
memo proc line(r) { v = sales[r].qty * sales[r].price; update total v; update top v, r; return v; }
memo proc down(n) { if n > 0 { call down(n - 1); } return n; }
proc main() { cilk_for r in 1 .. limit sales : line(r); return 0; }";

/// A record of an instance with one argument in which its own procedure alone was entered: the procedure's number with its
/// revision number, the argument, the value, which `total` is given too, and the height.
fn record(
    rt: &impl Abort,
    alloc: Global,
    procedure: (usize, u64),
    argument: i64,
    value: i64,
    reads: &[Note],
    height: u32,
) -> Record {
    let arguments = Arguments::from_slice(alloc, &[argument]).expect(rt, "memory");
    let given = Gift::new(alloc, 0, Val::Int(value)).expect(rt, "memory");
    let reads = reads_of(rt, alloc, reads, Vec::new(alloc));
    let entered = Entries::from_slice(alloc, &[procedure]).expect(rt, "memory");
    Record::new(
        procedure.0,
        arguments,
        value,
        ShortList::One(given),
        reads,
        entered,
        height,
    )
}

/// What an instance has read that noted this, and that refers to what these parts have read.
pub fn reads_of(rt: &impl Abort, alloc: Global, notes: &[Note], parts: Vec<Readings>) -> Readings {
    let own = readings(alloc, notes).expect(rt, "memory");
    Readings::new(alloc, ShortList::new(own), parts).expect(rt, "memory")
}

/// The record of `line` at row 2, which holds 3 and 7.
pub fn second_line(rt: &impl Abort, alloc: Global) -> Record {
    let reads = [cell(2, 0, 3), cell(2, 1, 7)];
    record(rt, alloc, (0, 0), 2, 21, &reads, 1)
}

/// A cell of the sales that was read.
pub fn cell(row: i64, column: usize, value: i64) -> Note {
    Note::Cell {
        table: 0,
        row,
        column,
        value,
    }
}

/// Records of which this one was committed.
pub fn committed(
    rt: &impl Abort,
    alloc: Global,
    made: Record,
    tables: &Tables,
    program: &Checked,
) -> Records
    ensures in_step { IsInStep tables.now.tables result }
{
    let mut records = Records::new(alloc);
    let made = Vec::from_array(alloc, [made]).expect(rt, "memory");
    commit_all(rt, &mut records, made, tables, program);
    records
}

/// Whether all of the records hold now.
fn all_hold(records: &[Record], tables: &Tables, program: &Checked) -> bool
    ensures hold { result ≡ every (record_holds program.now.revisions tables.now.tables) records.now }
{
    for record in records {
        if !record.holds_now(tables, program) {
            return false;
        }
    }
    true
}

/// Commits records that hold now.
fn commit_all(
    rt: &impl Abort,
    records: &mut Records,
    made: Vec<Record>,
    tables: &Tables,
    program: &Checked,
)
    requires in_step { IsInStep tables.now.tables records.old }
    ensures in_step { IsInStep tables.now.tables records.new }
{
    if !all_hold(&made, tables, program) {
        panic!(rt; "a record that doesn't hold");
    }
    records.commit(made, tables, program).expect(rt, "memory");
}
