// A session: a checked program, its tables, its pool of kits, and the records that its runs have left.
ghost use Rattle.std.specs.Prelude.{◌≡◌, ◌<◌, [], true, false, All, Ok, length, map, option_copied, IfOk, IfErr, OnOk, OnErr};
ghost use Rattle.linked_program.specs.TableNames.{columned_of};
ghost use Rattle.record_theory.specs.Record.{as_made};
ghost use Rattle.record_theory.specs.InStep.{IsInStep};
ghost use Rattle.record_theory.specs.Commits.{put_records};
ghost use Rattle.record_theory.specs.Named.{looked_up, HaveValues};
ghost use Rattle.numbered_runs.specs.Sound.{AreSoundFor};
ghost use Rattle.record_index.specs.Indexed.{IsStale, record_for};
ghost use Rattle.session_edits.specs.Said.{said};
ghost use Rattle.kept_session.specs.Sessions.{AreKeptFor, AreNewFor, begun, stock_of, standing_of};
ghost use Rattle.kept_session.specs.Applied.{edited, IsApplyCause};

use crate::arguments::arguments_fit;
use crate::blocks::Blocks;
use crate::refusal::ApplyError;
use crate::settling::keep;
use input_tables::Tables;
use instance_records::key::Key;
use instance_records::record::Record;
use linked_program::checked::Checked;
use numbered_runs::refusal::StartError;
use record_index::indexed::IndexedRecords;
use rerun_records::records::Records;
use session_edits::Edit;
use small_steps::lists::WorkLists;
use std::alloc::{AllocError, Global};
use std::marker::Model;
use std::mem;
use view_pool::{Kit, Pool, View};

/// How many runs work with the same lists.
const LENDINGS: usize = 64;

/// A checked program with its tables, its kits and its records, which edits and runs change.
#[derive(Drop)]
pub struct Session<V: View = Box<dyn View>> {
    pub(crate) checked: Checked,
    pub(crate) tables: Tables,
    pub(crate) kits: Pool<Kit<V>>,
    pub(crate) records: IndexedRecords,
    pub(crate) inlined: usize,
    // When blocks are made of the records that runs leave.
    blocks: Blocks,
    // What the first worker of a run works with, so that the one of the next run needs no new lists, and how many runs have lent it.
    lists: WorkLists,
    lent: usize,
}

impl<V: View> Model for Session<V> {
    ghost use Rattle.kept_session.specs.Sessions.{PlainSession, KeepsSession};
    ghost use Rattle.record_index.specs.Indexed.{IsIndexed};
    ghost use Rattle.linked_program.specs.contracts.code.Expression as e;
    ghost use Rattle.meaning.specs.contracts.tree.Expr as t;
    ghost use Rattle.std.specs.Coded.{codes};

    ghost Value = { PlainSession };

    ghost coded = { Prim.hlevel (codes, e.the_row.coded, t.the_row.coded) };

    ghost view = { λ s. record { checked = s.checked; tables = s.tables; kits = s.kits; records = s.records.records; inlined = s.inlined } };

    ghost invariant = { λ s. KeepsSession (record { checked = s.checked; tables = s.tables; kits = s.kits; records = s.records.records; inlined = s.inlined })
        × IsIndexed s.checked.revisions s.tables.tables s.records };
}

impl<V: View> Session<V> {
    /// The session of a program, its tables and these kits, all free, without records. Refused where there are no kits.
    pub fn new(
        alloc: Global,
        checked: Checked,
        tables: Tables,
        kits: Vec<Kit<V>>,
    ) -> Result<Session<V>, StartError>
        requires kinds { All (λ k. k ≡ checked.kinds) kits.items }
        requires columns { checked.tables ≡ columned_of tables.tables }
        ensures begun { IfOk result (λ session. session ≡ begun checked tables kits.items) }
        ensures some { OnOk result (0 < length kits.items) }
        ensures no_kit { IfErr result (λ e. e ≡ StartError.NoKit) }
        ensures none { OnErr result (kits.items ≡ []) }
    {
        if kits.is_empty() {
            return Err(StartError::NoKit);
        }
        let records = IndexedRecords::new(alloc);
        Ok(Session {
            checked,
            tables,
            kits: Pool::new(kits),
            records,
            inlined: 0,
            blocks: Blocks::AtOnce,
            lists: WorkLists::new(alloc),
            lent: 0,
        })
    }

    /// Edits the tables or the program, as the definitions have it. A refused edit changes nothing, and no edit changes the
    /// records, each of which stays sound, but for how many of their readings don't hold.
    pub fn apply(&mut self, alloc: Global, edit: &Edit<'_>) -> Result<(), ApplyError>
        ensures applied { OnOk result
            (edited (standing_of self.old) (said edit.now) ≡ Ok (standing_of self.new)) }
        ensures refused { IfErr result
            (IsApplyCause (said edit.now) (edited (standing_of self.old) (said edit.now))) }
        ensures same { OnErr result (self.new ≡ self.old) }
        ensures others { self.new
            ≡ record self.old { checked = self.new.checked; tables = self.new.tables; records = self.new.records } }
        ensures records { map as_made self.new.records ≡ map as_made self.old.records }
    {
        match edit {
            Edit::Put { table, row, values } => self.put(alloc, table, *row, values),
            Edit::Delete { table, row } => self.delete(table, *row),
            Edit::Define(text) => self.define(alloc, text),
        }
    }

    /// Ends the session: all that it holds is given back. A crate that ends its sessions so needn't prove how one is dropped.
    pub fn end(self) {}

    /// Lends the program.
    pub fn checked(&self) -> &Checked
        ensures checked { result.now ≡ self.now.checked }
    {
        &self.checked
    }

    /// Lends the tables.
    pub fn tables(&self) -> &Tables
        ensures tables { result.now ≡ self.now.tables }
    {
        &self.tables
    }

    /// Lends the records.
    pub fn records(&self) -> &Records
        ensures records { result.now ≡ self.now.records }
    {
        self.records.records()
    }

    /// How many different readings and revision numbers of a key's record don't hold now; none where there is no such record. It looks
    /// at no table, and takes no memory. Of a record with 4,294,967,295 readings or more it may tell another number.
    pub fn stale(&self, key: &Key) -> Option<usize>
        ensures stale { IsStale self.now.checked.revisions self.now.tables.tables
            (record_for self.now.checked (map as_made self.now.records) key.now) result }
    {
        // What the program's type keeps: so the procedures' numbers are the places of their names.
        self.checked.revised();
        self.records.stale(key)
    }

    /// The record of a key that is valid now for an instance at that depth, where there is one: so what that came to is known without
    /// a run. It takes no memory.
    pub fn lookup(&self, key: &Key, depth: u32) -> Option<&Record>
        ensures found { option_copied result ≡ looked_up self.now.checked self.now.tables.tables depth self.now.records key.now }
    {
        self.records.lookup(key, depth, &self.tables, &self.checked)
    }

    /// How many kits are free, and how many there are.
    pub fn kits(&self) -> (usize, usize)
        ensures free { result.0 ≡ length self.now.kits.kits }
        ensures total { result.1 ≡ self.now.kits.total }
    {
        (self.kits.free(), self.kits.total())
    }

    /// Whether no kit is free.
    pub fn has_no_kit(&self) -> bool
        ensures none { result ≡ true → self.now.kits.kits ≡ [] }
        ensures some { result ≡ false → 0 < length self.now.kits.kits }
    {
        self.kits.free() == 0
    }

    /// How many pushes of the last run by steps were done as inlines, since memory was refused.
    pub fn last_inlined(&self) -> usize
        ensures inlined { result ≡ self.now.inlined }
    {
        self.inlined
    }

    /// Notes how many pushes of a run by steps were done as inlines, and changes nothing else.
    pub fn note_inlined(&mut self, inlined: usize)
        ensures noted { self.new ≡ record self.old { inlined = inlined } }
    {
        self.inlined = inlined;
    }

    /// What the type keeps: the tables have the names that the program was checked against, the kits are of its reducers' kinds,
    /// and the records are sound for it and in step with the tables.
    pub fn upheld(&self)
        ensures sound { AreSoundFor self.now.checked self.now.records }
        ensures values { HaveValues self.now.checked.kinds self.now.records }
        ensures columns { self.now.checked.tables ≡ columned_of self.now.tables.tables }
        ensures kinds { All (λ k. k ≡ self.now.checked.kinds) self.now.kits.kits }
        ensures in_step { IsInStep self.now.tables.tables self.now.records }
    {
        let _ = &self.checked;
    }

    /// What the type keeps beside that: the records stand for sound ones, and each procedure that one of these names is one of the
    /// program. So whatever is defined anew, what they name keeps its number.
    pub fn named(&self)
        ensures there { AreKeptFor self.now.checked self.now.records }
    {
        let _ = &self.checked;
    }

    /// Takes the whole pool out, and leaves one of no kits.
    pub fn take_pool(&mut self, alloc: Global) -> Pool<Kit<V>>
        ensures whole { result ≡ self.old.kits }
        ensures left { self.new ≡ record self.old { kits = stock_of [] } }
    {
        mem::replace(&mut self.kits, Pool::new(Vec::new(alloc)))
    }

    /// Takes out the lists that a run's first worker works with, and leaves new ones, which take no memory. After so many runs they are let
    /// go: what is left there beyond what a run took stays small.
    pub fn take_lists(&mut self, alloc: Global) -> WorkLists
        ensures same { self.new ≡ self.old }
    {
        let lists = mem::replace(&mut self.lists, WorkLists::new(alloc));
        if self.lent < LENDINGS {
            self.lent += 1;
            return lists;
        }
        self.lent = 0;
        WorkLists::new(alloc)
    }

    /// Keeps such lists for the next run.
    pub fn keep_lists(&mut self, lists: WorkLists)
        ensures same { self.new ≡ self.old }
    {
        self.lists = lists;
    }

    /// Puts a pool in the place of the one that is there, and changes nothing else.
    pub fn put_back(&mut self, pool: Pool<Kit<V>>)
        requires kinds { All (λ k. k ≡ self.old.checked.kinds) pool.kits }
        ensures put { self.new ≡ record self.old { kits = pool } }
    {
        self.kits = pool;
    }

    /// Puts a pool in the place of the one that is there, and then a run's new records among the others, all or none: where
    /// memory is refused the records are as they were.
    pub fn settle(&mut self, pool: Pool<Kit<V>>, made: Vec<Record>) -> Result<(), AllocError>
        requires kinds { All (λ k. k ≡ self.old.checked.kinds) pool.kits }
        requires new { AreNewFor self.old.checked self.old.tables made.items }
        ensures settled { OnOk result (self.new
            ≡ record self.old { kits = pool; records = self.new.records }) }
        ensures records { OnOk result (map as_made self.new.records
            ≡ put_records (map as_made self.old.records) made.items) }
        ensures refused { OnErr result (self.new ≡ record self.old { kits = pool }) }
    {
        // What the types of the program, the tables and the records keep: so the values are of the reducers' kinds.
        self.checked.clean();
        self.checked.linked();
        self.checked.revised();
        self.checked.fitting();
        self.tables.cells_fit();
        arguments_fit(&made);
        self.kits = pool;
        let at_once = self.blocks.are_at_once();
        keep(
            &mut self.records,
            made,
            &self.tables,
            &self.checked,
            at_once,
        )
    }

    /// Has blocks be made from now on as runs' records are put in, or by `gather` alone. A session begins with the first.
    pub fn make_blocks(&mut self, blocks: Blocks)
        ensures same { self.new ≡ self.old }
    {
        self.blocks = blocks;
    }

    /// Makes blocks of the records that runs have put in since that was done last, and of those whose blocks edits have dropped: a
    /// block answers for all its records in later runs. Nothing that can be told of the session changes; where memory is refused there
    /// are fewer blocks.
    pub fn gather(&mut self, alloc: Global)
        ensures same { self.new ≡ self.old }
    {
        // What the program's type keeps: so its reducers are monoids.
        self.checked.clean();
        self.checked.linked();
        self.checked.revised();
        self.records.gather(alloc, &self.checked);
    }
}
