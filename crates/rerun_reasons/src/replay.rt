// What a replay finds.
ghost use Rattle.std.specs.Prelude.{◌≡◌, [], None, IfOk};
ghost use Rattle.record_theory.specs.Validity.{valid_at};
ghost use Rattle.rerun_reasons.specs.Unanswered.{AreUnanswered};

use crate::reason::Count;
use crate::setting::Setting;
use evaluation::notes::Notes;
use std::alloc::{AllocError, Global};

/// A memo instance that is executed: its procedure's number, its arguments and its depth.
#[derive(Drop)]
pub(crate) struct Executed {
    pub procedure: usize,
    pub arguments: Vec<i64>,
    pub depth: u32,
}

/// What a replay finds.
#[derive(Drop)]
pub(crate) struct Found {
    /// What each procedure's instances came to.
    pub counts: Vec<Count>,
    /// The first instances that were executed.
    pub first: Vec<Executed>,
    /// How many of these are kept.
    most: usize,
    /// How many memo instances that are executed have a kit at once.
    kits: usize,
    /// How many are executed just now.
    open: usize,
    /// The values that were asked for last.
    pub numbers: Vec<i64>,
    /// What they have read, where that is noted.
    pub notes: Notes,
}

impl Found {
    /// Nothing yet: so many of the first instances that are executed are to be kept, and so many are recorded at once.
    pub(crate) fn new(
        alloc: Global,
        procedures: usize,
        most: usize,
        kits: usize,
    ) -> Result<Found, AllocError>
        ensures none { IfOk result (λ found. found.first.items ≡ []) }
    {
        let mut counts = Vec::new(alloc);
        counts.resize(procedures, Count::default())?;
        Ok(Found {
            counts,
            first: Vec::new(alloc),
            most,
            kits,
            open: 0,
            numbers: Vec::new(alloc),
            notes: Notes::new(alloc),
        })
    }

    /// Counts an instance that a record answers.
    pub(crate) fn reuse(&mut self, procedure: usize)
        ensures first { self.new.first ≡ self.old.first }
    {
        if procedure < self.counts.len() {
            let mut count = self.counts[procedure];
            count.reused = count.reused.saturating_add(1);
            self.counts[procedure] = count;
        }
    }

    /// Counts an instance that is executed from here on, whose arguments were asked for last, and keeps it if it is one of the first.
    pub(crate) fn execute(
        &mut self,
        setting: Setting<'_>,
        procedure: usize,
        depth: u32,
    ) -> Result<(), AllocError>
        requires none { valid_at setting.checked.now.revisions setting.tables.now.tables depth
            setting.records.now procedure self.old.numbers.items ≡ None }
        ensures unanswered { AreUnanswered setting.entry self.old.first.items
            → AreUnanswered setting.entry self.new.first.items }
    {
        self.count(procedure);
        self.open = self.open.saturating_add(1);
        if self.first.len() < self.most {
            let arguments = Vec::from_slice(setting.alloc, &self.numbers)?;
            self.first.push(Executed {
                procedure,
                arguments,
                depth,
            })?;
        }
        Ok(())
    }

    // Counts an instance that is executed, which isn't recorded where those around it have all kits.
    fn count(&mut self, procedure: usize)
        ensures first { self.new.first ≡ self.old.first }
        ensures numbers { self.new.numbers ≡ self.old.numbers }
    {
        if procedure < self.counts.len() {
            let mut count = self.counts[procedure];
            count.executed = count.executed.saturating_add(1);
            if self.open >= self.kits {
                count.unrecorded = count.unrecorded.saturating_add(1);
            }
            self.counts[procedure] = count;
        }
    }

    /// The instance that was executed last of those that aren't over yet is over.
    pub(crate) fn leave(&mut self)
        ensures first { self.new.first ≡ self.old.first }
    {
        self.open = self.open.saturating_sub(1);
    }
}
