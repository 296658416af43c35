//! What a record gives back.
ghost use Rattle.record_theory.specs.InStep.{IsInStep};

use super::super::beginnings::{checked_on, sales};
use super::making::{LINES, cell, committed, reads_of, second_line};
use evaluation::note::Note;
use evaluation::reading::{Reading, readings};
use input_tables::Tables;
use instance_records::arguments::Arguments;
use instance_records::entries::Entries;
use instance_records::gift::Gift;
use instance_records::record::Record;
use instance_records::short_list::ShortList;
use linked_program::checked::Checked;
use monoid_laws::Val;
use rerun_records::records::Records;
use std::alloc::Global;
use std::mem::size_of;
use std::process::Abort;

fn adds(gift: &Gift, to: u16, value: i64) -> bool {
    match gift {
        Gift::Number { reducer, number } => *reducer == to && *number == value,
        _ => false,
    }
}

/// Whether the record is that of `line` at row 2.
fn is_second_line(record: &Record) -> bool {
    let numbers = record.procedure() == 0 && record.value() == 21 && record.height() == 1;
    let lists = record.arguments() == [2].as_slice() && record.entered() == [(0, 0)].as_slice();
    let given = record.contribution();
    numbers && lists && given.len() == 1 && adds(&given[0], 0, 21)
}

fn reads_second_line(alloc: Global, record: &Record) -> bool {
    match record.reads().notes(alloc) {
        Ok(notes) => notes.len() == 2 && notes[0] == cell(2, 0, 3) && notes[1] == cell(2, 1, 7),
        Err(_) => false,
    }
}

/// Whether the record of `line` at row 2 is found, by the procedure's number, as it was committed.
fn finds_second_line(alloc: Global, records: &Records, tables: &Tables, program: &Checked) -> bool
    requires in_step { IsInStep tables.now.tables records.now }
{
    match records.valid(0, &[2], 256, tables, program) {
        Some(record) => {
            is_second_line(record)
                && reads_second_line(alloc, record)
                && are_second_line(records.as_slice())
        }
        None => false,
    }
}

/// Whether a record comes back.
fn comes_back(rt: &impl Abort, alloc: Global) -> bool {
    let tables = sales(rt, alloc);
    let program = checked_on(rt, alloc, LINES, &tables);
    let records = committed(rt, alloc, second_line(rt, alloc), &tables, &program);
    finds_second_line(alloc, &records, &tables, &program)
}

/// Whether the record of `line` at row 2 is the only one.
fn are_second_line(records: &[Record]) -> bool {
    records.len() == 1 && is_second_line(&records[0])
}

/// Whether a record gives back the height and these procedures.
fn gives_back(rt: &impl Abort, alloc: Global, entered: &[(usize, u64)]) -> bool {
    let reads = reads_of(rt, alloc, &[], Vec::new(alloc));
    let listed = Entries::from_slice(alloc, entered).expect(rt, "memory");
    let made = Record::new(
        0,
        Arguments::Nothing,
        0,
        ShortList::new(Vec::new(alloc)),
        reads,
        listed,
        3,
    );
    made.height() == 3 && *made.entered() == *entered
}

#[test]
fn a_record_comes_back(rt: HostRuntime) {
    assert!(&rt; comes_back(&rt, rt.alloc()));
    assert!(&rt; gives_back(&rt, rt.alloc(), &[]));
    assert!(&rt; gives_back(&rt, rt.alloc(), &[(1, 7)]));
    assert!(&rt; gives_back(&rt, rt.alloc(), &[(1, 7), (0, 8)]));
}

/// Whether readings can be kept in a record: two bytes hold a table's number, one a column's, four a row's.
fn are_kept(alloc: Global, notes: &[(Note, bool)]) -> bool {
    for (note, kept) in notes {
        if readings(alloc, &[*note]).is_ok() != *kept {
            return false;
        }
    }
    true
}

const LARGEST: [(Note, bool); 5] = [
    (
        Note::Limit {
            table: 65535,
            value: 4,
        },
        true,
    ),
    (
        Note::Limit {
            table: 65536,
            value: 4,
        },
        false,
    ),
    (
        Note::Sum {
            table: 65535,
            column: 255,
            value: 4,
        },
        true,
    ),
    (
        Note::Sum {
            table: 65536,
            column: 0,
            value: 4,
        },
        false,
    ),
    (
        Note::Sum {
            table: 0,
            column: 256,
            value: 4,
        },
        false,
    ),
];

#[test]
fn readings_past_their_bytes_are_refused(rt: HostRuntime) {
    assert!(&rt; are_kept(rt.alloc(), &LARGEST));
    let cells = [
        (cell(4_294_967_295, 255, 4), true),
        (cell(4_294_967_296, 255, 4), false),
        (cell(-1, 255, 4), false),
        (cell(0, 256, 4), false),
    ];
    assert!(&rt; are_kept(rt.alloc(), &cells));
}

/// Whether what the reducer of that number was given is kept without memory of its own.
fn is_short(reducer: usize, value: Val) -> bool {
    Gift::short(reducer, &value).is_some()
}

/// What reducers were given that takes memory of its own, and what doesn't: a number, and a best pair whose second number takes four
/// bytes.
#[test]
fn what_is_given_is_short(rt: HostRuntime) {
    let pairs = [(7, 0), (7, 4_294_967_295), (7, 4_294_967_296), (7, -1)];
    let short = [true, true, false, false];
    assert!(&rt; is_short(65535, Val::Int(-1)) && !is_short(65536, Val::Int(-1)));
    for place in 0..4 {
        assert!(&rt; is_short(1, Val::Arg(Some(pairs[place]))) == short[place]);
    }
    assert!(&rt; !is_short(1, Val::Arg(None)) && !is_short(1, Val::Pair(1, 2)));
    assert!(&rt; size_of::<Gift>() == 16);
}

/// A record of one argument or two, two readings, two reducers and one procedure takes 144 bytes in the list and no memory of its own.
/// Readings that others share lie in a node of 64: a count, an instance's own readings, and where the parts lie, if there are any.
#[test]
fn a_record_is_small(rt: HostRuntime) {
    let shared = 8 + size_of::<ShortList<Reading>>() + size_of::<Option<Box<u64>>>();
    assert!(&rt; size_of::<Reading>() == 16 && size_of::<Note>() > 24);
    assert!(&rt; size_of::<Record>() == 144 && shared == 64);
}
