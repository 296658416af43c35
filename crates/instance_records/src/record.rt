//! The record of a memo instance that is over.
ghost use Rattle.std.specs.Prelude.{◌≡◌, ◌+◌, ◌&&◌, suc, map, nat_eq, nat_le, ◌++◌, true};
ghost use Rattle.std.specs.Cmp.Lexicographic.{pointwise};
ghost use Rattle.std.specs.Cmp.Rules.{comparing, hashing};
ghost use Rattle.std.specs.Hash as fed;
ghost use Rattle.std.specs.Ordering.{on, eq_of_both, int_eq};
ghost use Rattle.std.proofs.Common.{rules};
ghost use Rattle.meaning.specs.Elision.{depth_limit};
ghost use Rattle.meaning.specs.Every.{every};
ghost use Rattle.record_theory.specs.Record.{touched, made_of, as_made};
ghost use Rattle.instance_records.specs.ShortLists.{items_in};
ghost use Rattle.instance_records.specs.Parts.{arguments_in, entries_in};
ghost use Rattle.instance_records.specs.Gifts.{given_by};
ghost use Rattle.record_theory.specs.InStep.{reads_agree};
ghost use Rattle.record_theory.specs.Numbers.{is_counted, numbered_by};
ghost use Rattle.record_theory.specs.Validity.{has_revision, record_holds, record_valid};

use crate::arguments::Arguments;
use crate::called::Called;
use crate::entries::Entries;
use crate::gift::Gift;
use crate::readings::Readings;
use crate::short_list::ShortList;
use input_tables::Tables;
use linked_program::checked::Checked;
use record_numbers::stale::is_fresh;
use record_theory::validity::{are_current, is_allowed, is_valid};
use std::hash::{Hash, Hasher};
use std::marker::Model;

/// What a memo instance came to, and what that rests on. Records are equal where they are of one procedure with the same
/// arguments, whatever else they hold. What a look-up asks for stands together, since it lies in memory so.
#[derive(Drop)]
pub struct Record {
    procedure: usize,
    called: Called,
    entered: Entries,
    value: i64,
    contribution: ShortList<Gift>,
    reads: Readings,
}

impl Model for Record {
    ghost use Rattle.std.specs.Prelude.{map};
    ghost use Rattle.record_theory.specs.Record.{PlainRecord, touched};
    ghost use Rattle.instance_records.specs.ShortLists.{items_in};
    ghost use Rattle.instance_records.specs.Parts.{arguments_of, entries_in, height_of};
    ghost use Rattle.instance_records.specs.Gifts.{given_by};

    ghost Value = { PlainRecord };

    ghost view = { λ r. record {
      procedure = r.procedure;
      arguments = arguments_of r.called;
      value = r.value;
      contribution = map touched (map given_by (items_in r.contribution));
      reads = r.reads;
      entered = entries_in r.entered;
      height = height_of r.called;
      stale = 0;
    } };
}

impl Record {
    /// The record of an instance of that procedure with these arguments: its value, the value that it gave to each reducer that it
    /// touched, each reading once, each procedure entered once with its revision number, and how many instances were nested in
    /// it at most, itself counted. Reducers and procedures go by their numbers. It takes no memory, and keeps no spare room.
    pub fn new(
        procedure: usize,
        arguments: Arguments,
        value: i64,
        mut contribution: ShortList<Gift>,
        reads: Readings,
        mut entered: Entries,
        height: u32,
    ) -> Record
        ensures made { result ≡ made_of procedure (arguments_in arguments) value
            (map given_by (items_in contribution)) reads (entries_in entered) height }
    {
        contribution.shrink_to_fit();
        entered.shrink_to_fit();
        Record::of_values(
            procedure,
            arguments,
            value,
            contribution,
            reads,
            entered,
            height,
        )
    }

    /// The record of its parts as `new` makes it, where these have no spare room, and one or two values lie by themselves.
    #[inline(always)]
    pub fn of_values(
        procedure: usize,
        arguments: Arguments,
        value: i64,
        contribution: ShortList<Gift>,
        reads: Readings,
        entered: Entries,
        height: u32,
    ) -> Record
        ensures made { result ≡ made_of procedure (arguments_in arguments) value
            (map given_by (items_in contribution)) reads (entries_in entered) height }
    {
        Record {
            procedure,
            called: Called::new(arguments, height),
            value,
            contribution,
            reads,
            entered,
        }
    }

    /// What the type keeps: nothing is counted of a record on its own.
    pub fn as_made(&self)
        ensures as_made { as_made self.now ≡ self.now }
    {
        let _ = &self.value;
    }

    /// The number of the procedure.
    pub fn procedure(&self) -> usize
        ensures procedure { result ≡ self.now.procedure }
    {
        self.procedure
    }

    /// Lends the arguments.
    pub fn arguments(&self) -> &[i64]
        ensures arguments { result.now ≡ self.now.arguments }
    {
        self.called.arguments()
    }

    /// The instance's value.
    pub fn value(&self) -> i64
        ensures value { result ≡ self.now.value }
    {
        self.value
    }

    /// Lends the values that the instance gave to the reducers that it touched, each with the reducer's number.
    pub fn contribution(&self) -> &[Gift]
        ensures contribution { map touched (map given_by result.now) ≡ self.now.contribution }
    {
        self.contribution.as_slice()
    }

    /// Lends what was read.
    pub fn reads(&self) -> &Readings
        ensures reads { result.now ≡ self.now.reads }
    {
        &self.reads
    }

    /// Lends the numbers of the procedures entered, each with its revision number.
    pub fn entered(&self) -> &[(usize, u64)]
        ensures entered { result.now ≡ self.now.entered }
    {
        self.entered.as_slice()
    }

    /// How many instances were nested at most, this one counted.
    pub fn height(&self) -> u32
        ensures height { result ≡ self.now.height }
    {
        self.called.height()
    }

    /// Whether the tables hold what was read, and the procedures entered are as they were.
    pub fn holds_now(&self, tables: &Tables, program: &Checked) -> bool
        ensures holds { result ≡ record_holds program.now.revisions tables.now.tables self.now }
    {
        self.reads.agree(tables) && are_current(self.entered(), program)
    }

    /// Whether the tables hold what was read, as the number beside the record tells. One with more readings than can be counted may keep
    /// the greatest number when they hold again, so it is compared.
    #[inline(always)]
    pub fn agrees(&self, number: u32, tables: &Tables) -> bool
        requires counted { is_counted tables.now.tables (numbered_by number self.now) ≡ true }
        ensures agree { result ≡ reads_agree tables.now.tables self.now }
    {
        if number == u32::MAX {
            return self.reads.agree(tables);
        }
        is_fresh(number)
    }

    /// Whether the record is valid now for an instance at that depth, where that number stands beside it.
    #[inline(always)]
    pub fn is_valid(&self, number: u32, depth: u32, tables: &Tables, program: &Checked) -> bool
        requires counted { is_counted tables.now.tables (numbered_by number self.now) ≡ true }
        ensures valid { result ≡ record_valid program.now.revisions tables.now.tables depth self.now }
    {
        is_valid(
            self.agrees(number, tables),
            self.entered(),
            self.height(),
            depth,
            program,
        )
    }

    /// Whether the procedures entered are as they were, and an instance at that depth with as many nested in it stays within the
    /// limit.
    pub fn is_allowed(&self, depth: u32, program: &Checked) -> bool
        ensures allowed { result ≡ (every (has_revision program.now.revisions) self.now.entered
            && nat_le (depth + self.now.height) (suc depth_limit)) }
    {
        is_allowed(self.entered(), self.height(), depth, program)
    }
}

impl PartialEq for Record {
    ghost eq = { eq_of_both (on (λ r. r.procedure) nat_eq) (on (λ r. r.arguments) (pointwise int_eq)) };

    ghost laws = { Prim.search (comparing, rules) };

    fn eq(&self, other: &Record) -> bool {
        self.procedure == other.procedure && self.arguments() == other.arguments()
    }
}

impl Eq for Record {
    ghost laws = { Prim.search (comparing, rules) };
}

impl Hash for Record {
    ghost hash_input = { λ r. fed.usize r.procedure ++ fed.slice fed.i64 r.arguments };

    ghost respects_eq = { Prim.search (hashing, rules) };

    fn hash<H: Hasher>(&self, state: &mut H) {
        state.write_usize(self.procedure);
        self.arguments().hash(state);
    }
}
