//! The records of a session.
ghost use Rattle.std.specs.Prelude.{◌≡◌, ◌↔◌, IsTrue, List, [], ◌∷◌, ◌++◌, length, ◌<◌, ◌≤◌, Some, None, OnOk, OnErr, IfSome, IfNone};
ghost use Rattle.std.specs.Prelude.{option_copied, map, not, replicate, take, true, slice_get};
ghost use Rattle.std.specs.List.{find};
ghost use Rattle.meaning.specs.Every.{every};
ghost use Rattle.record_theory.specs.Record.{PlainRecord, is_of, instance_number, as_made};
ghost use Rattle.record_theory.specs.Validity.{record_valid, valid_at};
ghost use Rattle.record_theory.specs.InStep.{IsInStep, ReadNow, reads_agree, is_apart};
ghost use Rattle.record_theory.specs.OneTime.{AreOfOneTime};
ghost use Rattle.record_numbers.specs.Stale.{most_number};
ghost use Rattle.record_theory.specs.Numbers.{told_by};
ghost use Rattle.record_theory.specs.Commits.{put_records, AreSingle};
ghost use Rattle.rerun_records.specs.Put.{ArePut};
ghost use Rattle.record_theory.specs.Named.{looked_up, FindsNamed, CommitsNamed, HaveValues};
ghost use Rattle.rerun_records.specs.Blocks.{BlockFits, is_fresh_at};
ghost use Rattle.meaning.specs.Tables.{Tables as PlainTables};
ghost use Rattle.rerun_records.specs.Line.{AreBefore};
ghost use Rattle.rerun_records.specs.Sums.{IsBatchFor};
ghost use Rattle.monoid_laws.specs.declared.Kind.{Kind as PlainKind};

use crate::batch::Batch;
use crate::block::Block;
use crate::blocks::{Blocks, Width};
use crate::covers::Covers;
use crate::keeping::{keep_last, numbers_of};
use crate::listing::{found_in, is_of, make_way, put_all, record_at, renew};
use crate::series::Series;
use crate::telling::tell;
use evaluation::note::Note;
use input_tables::Tables;
use instance_records::key::Key;
use instance_records::record::Record;
use linked_program::checked::Checked;
use monoid_laws::Kind;
use place_chains::mixing::number_of;
use place_chains::places::Places;
use record_numbers::stale::is_fresh;
use std::alloc::{AllocError, Global};
use std::marker::Model;

/// Room for one more record is made for so many.
const RECORDS_A_SPARE: usize = 8;

/// Records, at most one of each procedure and arguments, in the order in which those were first recorded. Beside each stands how many
/// of its different readings the tables don't hold: to ask takes no look at them.
#[derive(Drop)]
pub struct Records {
    list: Vec<Record>,
    // Each record's place under the number of its procedure and arguments, by which it is found.
    places: Places,
    // For each record how many of its different readings the tables don't hold.
    numbers: Vec<u32>,
    // Records in a row of which all readings are held, so that what they have together answers them all.
    blocks: Blocks,
    // By which an edit finds the records that may have read its row.
    covers: Covers,
    // Some of the records that others have replaced, until there is time to let them go.
    replaced: Vec<Record>,
}

impl Model for Records {
    ghost use Rattle.std.specs.Prelude.{◌≡◌, List, map};
    ghost use Rattle.record_theory.specs.Record.{PlainRecord, instance_number};
    ghost use Rattle.record_theory.specs.Numbers.{with_numbers, HaveNumbers};
    ghost use Rattle.rerun_records.specs.Blocks.{BlocksFit};
    ghost use Rattle.rerun_records.specs.Covers.{AreKept};
    ghost use Rattle.record_theory.specs.OneTime.{AreOfOneTime};

    ghost Value = { List PlainRecord };

    ghost view = { λ r. with_numbers r.numbers.items r.list.items };

    ghost invariant = { λ r. HaveNumbers r.numbers.items r.list.items
        × BlocksFit (with_numbers r.numbers.items r.list.items) r.blocks
        × (r.places.numbers ≡ map instance_number r.list.items)
        × AreKept r.list.items r.covers
        × AreOfOneTime r.list.items };
}

impl Records {
    /// No records; it takes no memory.
    pub fn new(alloc: Global) -> Records
        ensures none { result ≡ [] }
    {
        Records {
            list: Vec::new(alloc),
            places: Places::new(alloc),
            numbers: Vec::new(alloc),
            blocks: Blocks::new(alloc),
            covers: Covers::new(alloc),
            replaced: Vec::new(alloc),
        }
    }

    /// How many records there are.
    pub fn len(&self) -> usize
        ensures count { result ≡ length self.now }
    {
        self.list.len()
    }

    /// Whether there are no records.
    pub fn is_empty(&self) -> bool
        ensures empty { IsTrue result ↔ (length self.now ≡ 0) }
    {
        self.list.is_empty()
    }

    /// Lends the records.
    pub fn as_slice(&self) -> &[Record]
        ensures records { result.now ≡ map as_made self.now }
    {
        &self.list
    }

    /// What the type keeps: no procedure and arguments have two records.
    pub fn single(&self)
        ensures single { AreSingle self.now }
    {
        let _ = &self.list;
    }

    /// The record of the procedure of that number with these arguments, where it is valid now for an instance at that depth. It
    /// takes no memory, hashes the number and the arguments once, and compares no readings unless the record has 4,294,967,295 of them
    /// or more.
    pub fn valid(
        &self,
        procedure: usize,
        arguments: &[i64],
        depth: u32,
        tables: &Tables,
        program: &Checked,
    ) -> Option<&Record>
        requires in_step { IsInStep tables.now.tables self.now }
        ensures valid { option_copied result ≡ valid_at program.now.revisions tables.now.tables depth
            self.now procedure arguments.now }
    {
        // A first run asks for each instance: without records there is nothing to hash for.
        if self.is_empty() {
            return None;
        }
        match self.place_of(procedure, arguments) {
            Some((place, record)) => self.valid_in(place, record, depth, tables, program),
            None => None,
        }
    }

    /// The record of the procedure of that number with these arguments, valid or not, and its place.
    #[inline(never)]
    pub fn place_of(&self, procedure: usize, arguments: &[i64]) -> Option<(usize, &Record)>
        ensures there { IfSome result (λ found.
            slice_get (map as_made self.now) found.0 ≡ Some found.1.now) }
        ensures procedure { IfSome result (λ found. found.1.now.procedure ≡ procedure) }
        ensures arguments { IfSome result (λ found. found.1.now.arguments ≡ arguments.now) }
        ensures none { IfNone result (find (is_of procedure arguments.now) self.now ≡ None) }
    {
        let number = number_of(procedure, arguments);
        match found_in(&self.list, &self.places, number, procedure, arguments) {
            Some((place, record)) => Some((place, record)),
            None => None,
        }
    }

    /// The record of the procedure of that number with these arguments, valid or not, and its place, looked for at the near place first.
    #[inline(always)]
    pub fn place_near(
        &self,
        near: usize,
        procedure: usize,
        arguments: &[i64],
    ) -> Option<(usize, &Record)>
        ensures there { IfSome result (λ found.
            slice_get (map as_made self.now) found.0 ≡ Some found.1.now) }
        ensures procedure { IfSome result (λ found. found.1.now.procedure ≡ procedure) }
        ensures arguments { IfSome result (λ found. found.1.now.arguments ≡ arguments.now) }
        ensures none { IfNone result (find (is_of procedure arguments.now) self.now ≡ None) }
    {
        match self.found_at(near, procedure, arguments) {
            Some(record) => Some((near, record)),
            None => self.place_of(procedure, arguments),
        }
    }

    // The record at that place, where it is that of the procedure of that number with these arguments.
    #[inline(always)]
    fn found_at(&self, place: usize, procedure: usize, arguments: &[i64]) -> Option<&Record>
        ensures there { IfSome result (λ r.
            slice_get (map as_made self.now) place ≡ Some r.now) }
        ensures procedure { IfSome result (λ r. r.now.procedure ≡ procedure) }
        ensures arguments { IfSome result (λ r. r.now.arguments ≡ arguments.now) }
    {
        match record_at(&self.list, place) {
            Some(record) => {
                if !is_of(record, procedure, arguments) {
                    return None;
                }
                Some(record)
            }
            None => None,
        }
    }

    // The record at that place, where it is valid now for an instance at that depth.
    #[inline(always)]
    fn valid_in<'a>(
        &self,
        place: usize,
        record: &'a Record,
        depth: u32,
        tables: &Tables,
        program: &Checked,
    ) -> Option<&'a Record>
        requires in_step { IsInStep tables.now.tables self.now }
        requires there { slice_get (map as_made self.now) place ≡ Some record.now }
        ensures valid { option_copied result ≡ valid_at program.now.revisions tables.now.tables depth
            self.now record.now.procedure record.now.arguments }
    {
        // What the type keeps: no other record is of these arguments.
        self.single();
        if !self.is_valid(place, record, depth, tables, program) {
            return None;
        }
        Some(record)
    }

    // Whether the record at that place is valid now for an instance at that depth.
    fn is_valid(
        &self,
        place: usize,
        record: &Record,
        depth: u32,
        tables: &Tables,
        program: &Checked,
    ) -> bool
        requires in_step { IsInStep tables.now.tables self.now }
        requires there { slice_get (map as_made self.now) place ≡ Some record.now }
        ensures valid { result ≡ record_valid program.now.revisions tables.now.tables depth record.now }
    {
        let number = self.numbers[place];
        record.is_valid(number, depth, tables, program)
    }

    /// Instances that records answer: that of the procedure of that number with these arguments, and those behind it in that
    /// series, in all as many as are known to go together, with what they have read where the series keeps that. None where the first
    /// has no valid record. It takes no memory.
    #[inline(always)]
    pub fn batch(
        &self,
        procedure: usize,
        arguments: &[i64],
        series: Series,
        tables: &Tables,
        program: &Checked,
    ) -> Option<Batch<'_>>
        requires in_step { IsInStep tables.now.tables self.now }
        requires values { HaveValues program.now.kinds self.now }
        requires counted { series.counted < length arguments.now }
        requires some { 0 < series.most }
        requires deep { 0 < series.depth }
        ensures batch { IfSome result (λ b. IsBatchFor series.keeps program.now tables.now.tables series.depth self.now
            procedure arguments.now series.counted series.most b.count b.sum.now) }
        ensures none { IfNone result (valid_at program.now.revisions tables.now.tables series.depth
            self.now procedure arguments.now ≡ None) }
    {
        match self.place_near(series.near, procedure, arguments) {
            Some((place, record)) => self.batch_at(place, record, series, tables, program),
            None => None,
        }
    }

    // What answers from the instance of the record at that place on: a block that begins there, or the record alone.
    #[inline(always)]
    fn batch_at<'a>(
        &'a self,
        place: usize,
        record: &'a Record,
        series: Series,
        tables: &Tables,
        program: &Checked,
    ) -> Option<Batch<'a>>
        requires in_step { IsInStep tables.now.tables self.now }
        requires values { HaveValues program.now.kinds self.now }
        requires there { slice_get (map as_made self.now) place ≡ Some record.now }
        requires counted { series.counted < length record.now.arguments }
        requires some { 0 < series.most }
        requires deep { 0 < series.depth }
        ensures batch { IfSome result (λ b. IsBatchFor series.keeps program.now tables.now.tables series.depth self.now
            record.now.procedure record.now.arguments series.counted series.most b.count b.sum.now) }
        ensures none { IfNone result (valid_at program.now.revisions tables.now.tables series.depth
            self.now record.now.procedure record.now.arguments ≡ None) }
    {
        match self.blocks.widest(place, series, program) {
            Some(block) => Some(Batch::whole(block, place)),
            None => self.batch_of_one(place, record, series, tables, program),
        }
    }

    // What the record alone answers.
    #[inline(always)]
    fn batch_of_one<'a>(
        &self,
        place: usize,
        record: &'a Record,
        series: Series,
        tables: &Tables,
        program: &Checked,
    ) -> Option<Batch<'a>>
        requires in_step { IsInStep tables.now.tables self.now }
        requires values { HaveValues program.now.kinds self.now }
        requires there { slice_get (map as_made self.now) place ≡ Some record.now }
        requires counted { series.counted < length record.now.arguments }
        requires some { 0 < series.most }
        requires deep { 0 < series.depth }
        ensures batch { IfSome result (λ b. IsBatchFor series.keeps program.now tables.now.tables series.depth self.now
            record.now.procedure record.now.arguments series.counted series.most b.count b.sum.now) }
        ensures none { IfNone result (valid_at program.now.revisions tables.now.tables series.depth
            self.now record.now.procedure record.now.arguments ≡ None) }
    {
        match self.valid_in(place, record, series.depth, tables, program) {
            Some(record) => Some(Batch::one(record, place)),
            None => None,
        }
    }

    /// How many of the different readings of the record at that place the tables don't hold; 0 where there is none.
    pub fn number(&self, place: usize) -> usize
        ensures number { (r : PlainRecord) → slice_get self.now place ≡ Some r → result ≡ r.stale }
        ensures few { result ≤ most_number }
    {
        match self.numbers.get(place) {
            Some(number) => *number as usize,
            None => 0,
        }
    }

    /// Whether there is a record at that place of which the tables hold all that was read.
    pub fn is_fresh(&self, place: usize) -> bool
        ensures fresh { result ≡ true → is_fresh_at self.now place ≡ true }
    {
        match self.numbers.get(place) {
            Some(number) => is_fresh(*number),
            None => false,
        }
    }

    /// Lends the block of that width that may have the record at that place as part, where one has, for reducers of these kinds.
    pub fn block_at(&self, width: Width, place: usize, kinds: &[Kind]) -> Option<&Block>
        ensures fits { IfSome result (λ b. BlockFits kinds.now self.now b.now) }
    {
        self.blocks.at(width, place, kinds)
    }

    /// Adds a block for reducers of these kinds, in the place of those of its width that have one of its records as part. Blocks for
    /// others are dropped. Where memory is refused it isn't added.
    pub fn add_block(
        &mut self,
        alloc: Global,
        width: Width,
        kinds: &[Kind],
        block: Block,
    ) -> Result<(), AllocError>
        requires fits { BlockFits kinds.now self.old block }
        ensures same { self.new ≡ self.old }
    {
        self.blocks.have_kinds(alloc, kinds)?;
        self.blocks.add(width, block)
    }

    /// Whether all records may be put into blocks, and not only those at the places that are due.
    pub fn are_all_due(&self) -> bool {
        self.blocks.are_all_due()
    }

    /// Whether edits seem to have made many records stale since blocks were made, without a look at them. Nothing rests on it.
    pub fn are_many_due(&self) -> bool {
        self.blocks.are_many_due()
    }

    /// About how many records a run may make, where these may be many: as many as there are instances where there are no records, else as
    /// edits have made stale since blocks were made. It takes no look at them, and nothing rests on it.
    pub fn expected(&self) -> Option<u32> {
        if self.is_empty() {
            return Some(u32::MAX);
        }
        let stale = self.blocks.many_stale()?;
        match u32::try_from(self.len()) {
            Ok(most) => Some(stale.min(most)),
            Err(_) => Some(stale),
        }
    }

    /// Takes out the places of records that may be put into blocks: those put in since that was done last, and those of which a
    /// block was dropped, by one of its records.
    pub fn take_due(&mut self, alloc: Global) -> Vec<u32>
        ensures same { self.new ≡ self.old }
    {
        self.blocks.take_due(alloc)
    }

    /// The record of a key that is valid now for an instance at that depth, where there is one. It takes no memory.
    pub fn lookup(
        &self,
        key: &Key,
        depth: u32,
        tables: &Tables,
        program: &Checked,
    ) -> Option<&Record>
        requires in_step { IsInStep tables.now.tables self.now }
        ensures numbered { option_copied result
            ≡ looked_up program.now tables.now.tables depth self.now key.now }
        ensures named { FindsNamed program.now tables.now.tables depth self.now key.now
            (option_copied result) }
    {
        program.revised();
        match program.procedure(key.procedure()) {
            Some(procedure) => self.valid(procedure, key.arguments(), depth, tables, program),
            None => None,
        }
    }

    /// Puts records in, one after another, each in the place of the one of its procedure and arguments: of several the last
    /// counts. Where memory is refused nothing has changed.
    pub fn commit(
        &mut self,
        records: Vec<Record>,
        tables: &Tables,
        program: &Checked,
    ) -> Result<(), AllocError>
        requires in_step { IsInStep tables.now.tables self.old }
        requires read_now { ReadNow tables.now.tables records.items }
        ensures committed { OnOk result
            (map as_made self.new ≡ put_records (map as_made self.old) records.items) }
        ensures in_step { OnOk result (IsInStep tables.now.tables self.new) }
        ensures named { OnOk result (CommitsNamed program.now self.old records.items self.new) }
        ensures values { OnOk result ((kinds : List PlainKind) → HaveValues kinds self.old
            → HaveValues kinds records.items → HaveValues kinds self.new) }
        ensures same { OnErr result (self.new ≡ self.old) }
    {
        self.put(records)?;
        Ok(())
    }

    // Puts records in. Where memory is refused nothing has changed.
    fn put(&mut self, records: Vec<Record>) -> Result<(), AllocError>
        requires once { AreOfOneTime records.items }
        ensures put { OnOk result (ArePut self.old records.items self.new) }
        ensures same { OnErr result (self.new ≡ self.old) }
    {
        if self.is_empty() {
            return self.take_whole(records);
        }
        self.put_each(records)
    }

    // Has the list that holds the records be that of the session, where there are none yet: a large one needn't be copied.
    fn take_whole(&mut self, mut records: Vec<Record>) -> Result<(), AllocError>
        requires none { length self.old ≡ 0 }
        requires once { AreOfOneTime records.items }
        ensures put { OnOk result (ArePut self.old records.items self.new) }
        ensures same { OnErr result (self.new ≡ self.old) }
    {
        let count = records.len();
        let room = with_spare(count);
        records.reserve(room - count)?;
        self.places.reserve(room)?;
        let numbers = numbers_of(*records.allocator(), &records)?;
        put_zeros(&mut self.numbers, room, &records)?;
        keep_last(&mut records, &numbers, &mut self.places);
        give_back(&mut records);
        self.blocks.begin_anew();
        self.list = records;
        cut(&mut self.numbers, &self.list);
        Ok(())
    }

    // Puts records in one by one.
    fn put_each(&mut self, records: Vec<Record>) -> Result<(), AllocError>
        requires once { AreOfOneTime records.items }
        ensures put { OnOk result (ArePut self.old records.items self.new) }
        ensures same { OnErr result (self.new ≡ self.old) }
    {
        let room = with_spare(records.len());
        self.list.reserve(room)?;
        self.places.reserve(room)?;
        self.numbers.reserve(room)?;
        self.blocks.make_room(records.len());
        self.covers.make_room(records.len(), self.list.len());
        make_way(&mut self.replaced, records.len());
        put_all(
            &mut self.list,
            &mut self.places,
            &mut self.numbers,
            &mut self.blocks,
            &mut self.covers,
            records,
            &mut self.replaced,
        );
        Ok(())
    }

    /// Lets go of the records that others have replaced. What they have read lies in memory that was used long ago, so that takes long, and
    /// who waits for an answer needn't wait for it.
    pub fn let_go(&mut self)
        ensures same { self.new ≡ self.old }
    {
        renew(&mut self.replaced);
    }

    /// Makes the hulls that records lack by which an edit finds them, and has the others hold what records have read that took another's
    /// place, as far as memory isn't refused. Only edits ask for them, so records are put in without: a run behind which there is no edit
    /// doesn't pay for them, and nobody waits for them behind another.
    pub fn cover(&mut self)
        ensures same { self.new ≡ self.old }
    {
        let alloc = *self.list.allocator();
        self.covers.grow(alloc, &self.list);
    }

    /// Tells the records that the row of the table of that number was changed, each given by its number: these readings the tables don't
    /// hold any more, and those they hold again. Before, the records were in step with the tables, which held the first of these readings
    /// and not the second. It takes no memory, goes by the hulls that there are, and passes over most of the records that haven't read
    /// the row. Where `cover` wasn't called since records were put in, hulls that don't hold what these have read are dropped.
    pub fn tell(&mut self, change: &(usize, i64), lost: &[Note], won: &[Note])
        requires rest { every (λ n. not (is_apart (change.now ∷ []) n)) (lost.now ++ won.now) ≡ true }
        ensures told { (before : PlainTables) → IsInStep before self.old → AreBefore before lost.now won.now
            → self.new ≡ map (told_by lost.now won.now) self.old }
        ensures same { map as_made self.new ≡ map as_made self.old }
    {
        self.covers.settle(&self.list, false);
        tell(
            &mut self.numbers,
            &mut self.blocks,
            &self.list,
            &self.covers,
            change,
            lost,
            won,
        );
    }
}

// Has a list of none have a 0 for each of these records, and room for so many.
fn put_zeros(numbers: &mut Vec<u32>, room: usize, records: &[Record]) -> Result<(), AllocError>
    requires none { numbers.old.items ≡ [] }
    ensures zeros { OnOk result (numbers.new.items ≡ replicate (length records.now) 0) }
    ensures same { OnErr result (numbers.new.items ≡ numbers.old.items) }
{
    numbers.reserve(room)?;
    numbers.resize(records.len(), 0)
}

// Drops the numbers behind those of these records.
fn cut(numbers: &mut Vec<u32>, records: &[Record])
    ensures cut { numbers.new.items ≡ take (length records.now) numbers.old.items }
{
    numbers.truncate(records.len());
}

// Gives back room of which a list takes less than half: it may have grown fourfold, and many records may have been of the same instances.
fn give_back(list: &mut Vec<Record>)
    ensures same { list.new.items ≡ list.old.items }
{
    if list.len() < list.capacity() / 2 {
        list.shrink_to(with_spare(list.len()));
    }
}

// Room for so many records, and for those of some runs behind: else the first put after a large run would move all of them.
fn with_spare(records: usize) -> usize
    ensures room { records ≤ result }
{
    records.saturating_add(records / RECORDS_A_SPARE)
}
