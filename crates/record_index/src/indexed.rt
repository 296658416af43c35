//! Records with what was told of the program and of edits.
ghost use Rattle.std.specs.Prelude.{◌≡◌, ◌⊎◌, ◌<◌, ◌+◌, [], ℕ, List, All, Some};
ghost use Rattle.std.specs.Prelude.{map, length, take, slice_get, IfOk, IfSome, IfNone, OnOk, OnErr, option_copied};
ghost use Rattle.linked_program.specs.Checked.{PlainChecked};
ghost use Rattle.meaning.specs.Tables.{Tables as PlainTables};
ghost use Rattle.meaning.specs.Tree.{Name};
ghost use Rattle.meaning.specs.TreeView.{tree};
ghost use Rattle.monoid_laws.specs.declared.Kind.{Kind as PlainKind};
ghost use Rattle.monoid_laws.specs.Kinds.{IsMonoid};
ghost use Rattle.record_theory.specs.Record.{PlainRecord, as_made};
ghost use Rattle.record_theory.specs.Commits.{put_records};
ghost use Rattle.record_theory.specs.InStep.{ReadNow, IsSameBut};
ghost use Rattle.record_theory.specs.Named.{looked_up, FindsNamed, CommitsNamed, HaveValues, IsInOrder};
ghost use Rattle.input_tables.specs.Edited.{IsNoted};
ghost use Rattle.record_index.specs.Counts.{outdated_count};
ghost use Rattle.record_index.specs.Befores.{HasRoomFor};
ghost use Rattle.record_index.specs.Indexed.{nothing_indexed, IsIndexed, IsBeside, HaveSameColumns, IsLonger, EnteredNow, IsStale, record_for};

use crate::changes::Changes;
use crate::told::Told;
use gathered_records::gathering::gather;
use input_tables::Tables;
use instance_records::key::Key;
use instance_records::record::Record;
use linked_program::checked::Checked;
use rerun_records::records::Records;
use std::alloc::{AllocError, Global};
use std::marker::Model;

/// Records with what was told of the procedures: they are brought up to date behind each edit, and to ask takes no look at the tables.
#[derive(Drop)]
pub struct IndexedRecords {
    records: Records,
    told: Told,
    // What the edit of a row has changed that was told last.
    changes: Changes,
}

impl Model for IndexedRecords {
    ghost use Rattle.record_index.specs.Indexed.{PlainIndexed};

    ghost Value = { PlainIndexed };

    ghost view = { λ x. record {
      records = x.records;
      told = x.told;
      room = x.changes.room;
    } };
}

impl IndexedRecords {
    /// No records; it takes no memory.
    pub fn new(alloc: Global) -> IndexedRecords
        ensures none { result ≡ nothing_indexed }
    {
        IndexedRecords {
            records: Records::new(alloc),
            told: Told::new(alloc),
            changes: Changes::new(alloc),
        }
    }

    /// Lends the records, for runs.
    pub fn records(&self) -> &Records
        ensures records { result.now ≡ self.now.records }
    {
        &self.records
    }

    /// The record of a key that is valid now for an instance at that depth, where there is one. It takes no memory, and compares no
    /// readings unless the record has 4,294,967,295 of them or more.
    pub fn lookup(
        &self,
        key: &Key,
        depth: u32,
        tables: &Tables,
        program: &Checked,
    ) -> Option<&Record>
        requires indexed { IsIndexed program.now.revisions tables.now.tables self.now }
        ensures numbered { option_copied result
            ≡ looked_up program.now tables.now.tables depth self.now.records key.now }
        ensures named { FindsNamed program.now tables.now.tables depth self.now.records key.now
            (option_copied result) }
    {
        self.records.lookup(key, depth, tables, program)
    }

    /// How many different readings and revisions of a key's record don't hold now; none where there is no such record. It looks at no
    /// table, and takes no memory. Of a record with 4,294,967,295 readings or more it may tell another number.
    pub fn stale(&self, key: &Key) -> Option<usize>
        ensures stale { (program : PlainChecked) (tables : PlainTables)
            → IsIndexed program.revisions tables self.now
            → IsInOrder (tree program.program) program.revisions
            → IsStale program.revisions tables (record_for program (map as_made self.now.records) key.now) result }
    {
        self.records.single();
        match self.told.number(key.procedure()) {
            Some(procedure) => match self.records.place_of(procedure, key.arguments()) {
                Some((place, record)) => Some(self.stale_at(place, record)),
                None => None,
            },
            None => None,
        }
    }

    /// Puts records in, one after another, each in the place of the one of its procedure and arguments: of several the last counts. All
    /// that edits need later is made here: where memory is refused nothing has changed.
    pub fn commit(
        &mut self,
        made: Vec<Record>,
        tables: &Tables,
        program: &Checked,
    ) -> Result<(), AllocError>
        requires indexed { IsIndexed program.now.revisions tables.now.tables self.old }
        requires read_now { ReadNow tables.now.tables made.items }
        requires entered_now { EnteredNow program.now.revisions made.items }
        ensures committed { OnOk result
            (map as_made self.new.records ≡ put_records (map as_made self.old.records) made.items) }
        ensures indexed { OnOk result (IsIndexed program.now.revisions tables.now.tables self.new) }
        ensures named { OnOk result (CommitsNamed program.now self.old.records made.items self.new.records) }
        ensures values { OnOk result ((kinds : List PlainKind) → HaveValues kinds self.old.records
            → HaveValues kinds made.items → HaveValues kinds self.new.records) }
        ensures same { OnErr result (self.new ≡ self.old) }
    {
        let alloc = *made.allocator();
        let told = told_for(alloc, &self.told, program)?;
        let changes = changes_for(alloc, &self.changes, tables)?;
        self.records.commit(made, tables, program)?;
        learn(&mut self.told, told);
        make_room(&mut self.changes, changes);
        Ok(())
    }

    /// Makes the hulls that records lack by which edits find them, as far as memory isn't refused. Only edits ask for them, so records are
    /// put in without: a run behind which there is no edit doesn't pay for them.
    #[inline(always)]
    pub fn cover(&mut self)
        ensures same { self.new ≡ self.old }
    {
        self.records.cover();
    }

    /// Makes blocks of the records, as `gathered_records` does, and the hulls by which edits find them, and lets go of records that others have
    /// replaced.
    pub fn gather(&mut self, alloc: Global, program: &Checked)
        requires monoids { All IsMonoid program.now.kinds }
        requires values { HaveValues program.now.kinds self.old.records }
        ensures same { self.new ≡ self.old }
    {
        // First of all: what is let go then serves what is made behind it.
        self.records.let_go();
        gather(&mut self.records, alloc, program);
        self.records.cover();
    }

    /// Brings the records' numbers up to date after a row of the table of that number was changed, by the last edit of these tables that was
    /// accepted: they have noted what it was. It takes no memory, and is never refused.
    pub fn row_changed(&mut self, tables: &Tables, table: usize, row: i64)
        requires beside { (self.old.records ≡ [])
            ⊎ (IsBeside tables.now.tables table row tables.now.was × (length tables.now.was.sums < self.old.room)) }
        ensures indexed { (revisions : List (Name × ℕ)) (before : PlainTables)
            → ((self.old.records ≡ []) ⊎ IsNoted before table row tables.now.was)
            → IsSameBut table row before tables.now.tables → HaveSameColumns before tables.now.tables
            → IsIndexed revisions before self.old → IsIndexed revisions tables.now.tables self.new }
        ensures same { map as_made self.new.records ≡ map as_made self.old.records }
    {
        if self.records.is_empty() {
            return;
        }
        self.changes.compare(tables);
        let change = tables.before().place();
        self.records
            .tell(&change, self.changes.lost(), self.changes.won());
    }

    /// Brings what was told of the procedures up to date after some were defined: those that there were keep their places. It takes no
    /// memory.
    pub fn procedures_changed(&mut self, program: &Checked)
        requires longer { IsLonger self.old.told program.now.revisions }
        ensures indexed { (revisions : List (Name × ℕ)) (tables : PlainTables)
            → IsIndexed revisions tables self.old → IsIndexed program.now.revisions tables self.new }
        ensures same { self.new ≡ record self.old { told = self.new.told } }
    {
        self.told.tell(program);
    }

    // How many different readings and revisions of the record at that place don't hold.
    fn stale_at(&self, place: usize, record: &Record) -> usize
        ensures number { (r : PlainRecord) → slice_get self.now.records place ≡ Some r
            → result ≡ r.stale + outdated_count self.now.told record.now.entered }
    {
        self.records.number(place) + self.told.outdated(record.entered())
    }
}

// Takes over what was told of more procedures, where that was made.
fn learn(told: &mut Told, made: Option<Told>)
    ensures learnt { IfSome made (λ t. told.new ≡ t) }
    ensures same { IfNone made (told.new ≡ told.old) }
{
    match made {
        Some(made) => *told = made,
        None => {}
    }
}

// Takes over the room for rows of more columns, where that was made.
fn make_room(changes: &mut Changes, made: Option<Changes>)
    ensures made { IfSome made (λ c. changes.new ≡ c) }
    ensures same { IfNone made (changes.new ≡ changes.old) }
{
    match made {
        Some(made) => *changes = made,
        None => {}
    }
}

// What is told of the program's procedures, where there are some of which nothing was told yet: so it is told of all of them.
fn told_for(alloc: Global, told: &Told, program: &Checked) -> Result<Option<Told>, AllocError>
    requires first { told.now ≡ take (length told.now) program.now.revisions }
    ensures all { IfOk result (λ made. IfNone made (told.now ≡ program.now.revisions)) }
    ensures made { IfOk result (λ made. IfSome made (λ t. t ≡ program.now.revisions)) }
{
    if !told.lacks(program) {
        return Ok(None);
    }
    Ok(Some(Told::of(alloc, program)?))
}

// Room for what is told of a row of each table, where there isn't as much.
fn changes_for(
    alloc: Global,
    changes: &Changes,
    tables: &Tables,
) -> Result<Option<Changes>, AllocError>
    ensures room { IfOk result (λ made. IfNone made (HasRoomFor tables.now.tables changes.now.room)) }
    ensures made { IfOk result (λ made. IfSome made (λ c. HasRoomFor tables.now.tables c.room)) }
{
    let columns = tables.most_columns();
    if columns < changes.room() {
        return Ok(None);
    }
    Ok(Some(Changes::with_room(alloc, columns)?))
}
