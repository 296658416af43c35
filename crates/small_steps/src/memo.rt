// Memo instances: a record answers them, or they begin in a layer of their own, which becomes a record at their end.
ghost use Rattle.std.specs.Prelude.{◌≡◌, ◌<◌, ◌⊎◌, true, false, List, All, IfErr, IfOk, OnErr, OnOk, length, option_copied};
ghost use Rattle.monoid_laws.specs.declared.Kind.{Kind};
ghost use Rattle.monoid_laws.specs.Kinds.{IsMonoid};
ghost use Rattle.record_theory.specs.Named.{AreValuesFrom, HaveValues};
ghost use Rattle.positions.specs.Advance.{reused, passed, opened_of, answer_for, recalled, started, closed, synced};
ghost use Rattle.activations.specs.Given.{lent};
ghost use Rattle.small_steps.specs.Steps.{GivesNone, HoldsFor, IsAnsweredCall, IsSuppliedBy, IsValued, KeepsAllKits, opened_in, revalued};

use crate::machine::Machine;
use activations::setting::Setting;
use instance_records::record::Record;
use layers::closing::send_home;
use layers::layer::{DEEPEST, Layer};
use layers::recording::Opened;
use linked_program::checked::Checked;
use positions::phase::Phase;
use positions::work::Work;
use std::alloc::{AllocError, Global};
use std::mem;
use view_pool::{Kit, KitSource, View};

impl<V: View> Machine<V> {
    /// Enters the topmost instance. Where memory is refused, nothing has changed but the topmost layer's values.
    pub(crate) fn start<K: KitSource<Kit<V>>>(
        &mut self,
        alloc: Global,
        setting: Setting<'_>,
        kits: &mut K,
    ) -> Result<(), AllocError>
        requires entering { self.old.phase ≡ Phase.Entering }
        requires supplied { IsSuppliedBy K.KitSource setting kits.old self.old }
        ensures started { OnOk result (HoldsFor K.KitSource kits.old
            (λ kit. self.new ≡ started (lent setting.entry) kit self.old)) }
        ensures refused { OnErr result (IsValued self.old self.new) }
        ensures kits { KeepsAllKits K.KitSource setting.entry.program.now.kinds kits.old kits.new self.old self.new }
    {
        match self.top.work() {
            Work::Block(_) => {
                if setting.program.is_memo(self.top.procedure()) {
                    self.recall(alloc, setting, kits)
                } else {
                    self.begin();
                    Ok(())
                }
            }
            _ => {
                self.phase = Phase::Running;
                Ok(())
            }
        }
    }

    /// Answers the topmost instance, one of a memo procedure, by a record, or begins it.
    #[inline(always)]
    pub(crate) fn recall<K: KitSource<Kit<V>>>(
        &mut self,
        alloc: Global,
        setting: Setting<'_>,
        kits: &mut K,
    ) -> Result<(), AllocError>
        requires entering { self.old.phase ≡ Phase.Entering }
        requires supplied { IsSuppliedBy K.KitSource setting kits.old self.old }
        ensures recalled { OnOk result (HoldsFor K.KitSource kits.old
            (λ kit. self.new ≡ recalled (lent setting.entry) kit (answer_for (lent setting.entry) self.old) self.old)) }
        ensures refused { OnErr result (IsValued self.old self.new) }
        ensures kits { KeepsAllKits K.KitSource setting.entry.program.now.kinds kits.old kits.new self.old self.new }
    {
        match self.record_for(setting) {
            Some(record) => self.reuse(alloc, record),
            None => self.begin_anew(alloc, setting.program, kits),
        }
    }

    /// The record that answers the topmost instance.
    #[inline(always)]
    fn record_for<'a>(&self, setting: Setting<'a>) -> Option<&'a Record>
        ensures found { option_copied result ≡ answer_for (lent setting.entry) self.now }
    {
        let depth = DEEPEST.saturating_sub(self.top.left());
        if depth == 0 {
            return None;
        }
        // In a first run there are none, and each memo instance asks.
        if setting.records.is_empty() {
            return None;
        }
        setting.records.valid(
            self.top.procedure(),
            &self.arguments,
            depth,
            setting.tables,
            setting.program,
        )
    }

    /// At a spawn: has a record answer the child, as if that were called; whether one does. Where memory is refused nothing has changed
    /// but the topmost layer's values.
    pub fn answer_spawned(
        &mut self,
        alloc: Global,
        setting: Setting<'_>,
    ) -> Result<bool, AllocError>
        requires kinds { self.old.layer.kinds ≡ setting.program.now.kinds }
        requires monoids { All IsMonoid setting.program.now.kinds }
        requires values { HaveValues setting.program.now.kinds setting.records.now }
        ensures answered { IfOk result (λ answered. answered ≡ true → IsAnsweredCall (lent setting.entry) self.old self.new) }
        ensures same { IfOk result (λ answered. answered ≡ false → self.new ≡ self.old) }
        ensures refused { OnErr result (self.new ≡ record self.old { layer = revalued self.old.layer self.new.layer }) }
    {
        match self.top.work() {
            Work::Block(_) => {}
            _ => return Ok(false),
        }
        if !setting.program.is_memo(self.top.procedure()) {
            return Ok(false);
        }
        match self.record_for(setting) {
            Some(record) => {
                self.reuse(alloc, record)?;
                Ok(true)
            }
            None => Ok(false),
        }
    }

    /// Has a record answer the topmost instance.
    fn reuse(&mut self, alloc: Global, record: &Record) -> Result<(), AllocError>
        requires monoids { All IsMonoid self.old.layer.kinds }
        requires values { AreValuesFrom 0 self.old.layer.kinds record.now.contribution }
        ensures reused { OnOk result (self.new ≡ reused record.now self.old) }
        ensures refused { OnErr result (self.new ≡ record self.old { layer = revalued self.old.layer self.new.layer }) }
    {
        let depth = DEEPEST.saturating_sub(self.top.left());
        self.tally.reuse(alloc, &mut self.layer, record, depth)?;
        self.phase = Phase::Leaving(record.value());
        Ok(())
    }

    /// Begins the topmost instance, which no record answers: in a layer of its own where a kit is free.
    #[inline(always)]
    fn begin_anew<K: KitSource<Kit<V>>>(
        &mut self,
        alloc: Global,
        program: &Checked,
        kits: &mut K,
    ) -> Result<(), AllocError>
        requires given_kinds { (k : List Kind) → K.gives k kits.old → k ≡ program.now.kinds }
        requires fits { K.fits program.now.kinds kits.old }
        ensures with_kit { OnOk result ((K.lacks kits.old → ⊥) → self.new ≡ opened_in program.now.kinds (length program.now.codes) self.old) }
        ensures without_kit { OnOk result (GivesNone K.gives kits.old → self.new ≡ passed self.old) }
        ensures either { OnOk result ((self.new ≡ opened_in program.now.kinds (length program.now.codes) self.old) ⊎ (self.new ≡ passed self.old)) }
        ensures unchanged { OnErr result (self.new ≡ self.old) }
        ensures kits { KeepsAllKits K.KitSource program.now.kinds kits.old kits.new self.old self.new }
    {
        match kits.take() {
            Some(kit) => match self.open(alloc, program, kit) {
                Ok(()) => Ok(()),
                Err((error, kit)) => {
                    send_home(kits, kit);
                    Err(error)
                }
            },
            None => self.pass_by(),
        }
    }

    /// What is kept of the topmost instance while its layer is open.
    #[inline(always)]
    fn opened(&self, alloc: Global) -> Result<Opened, AllocError>
        ensures opened { IfOk result (λ opened. opened ≡ opened_of self.now) }
    {
        Opened::new(
            alloc,
            self.top.procedure(),
            &self.arguments,
            self.top.left(),
            self.path.len(),
        )
    }

    /// Begins the topmost instance in a layer of its own. Where memory is refused the kit is handed back.
    #[inline(always)]
    fn open(
        &mut self,
        alloc: Global,
        program: &Checked,
        kit: Kit<V>,
    ) -> Result<(), (AllocError, Kit<V>)>
        ensures opened { OnOk result (self.new ≡ opened_in kit (length program.now.codes) self.old) }
        ensures unchanged { OnErr result (self.new ≡ self.old) }
        ensures handed_back { IfErr result (λ e. e.1 ≡ kit) }
    {
        if self.lower.reserve(1).is_err() {
            return Err((AllocError, kit));
        }
        let opened = match self.opened(alloc) {
            Ok(opened) => opened,
            Err(error) => return Err((error, kit)),
        };
        let count = program.codes().len();
        let (notes, flags, used) = match self.lists.take(alloc, count) {
            Ok(lists) => lists,
            Err(error) => return Err((error, kit)),
        };
        if self.tally.open(opened).is_err() {
            return Err((AllocError, kit));
        }
        let layer = Layer::in_lists(alloc, kit, true, count, notes, flags, used);
        self.lower
            .push_reserved(mem::replace(&mut self.layer, layer));
        self.begin();
        Ok(())
    }

    /// Begins the topmost instance without a layer of its own.
    fn pass_by(&mut self) -> Result<(), AllocError>
        ensures passed { OnOk result (self.new ≡ passed self.old) }
        ensures unchanged { OnErr result (self.new ≡ self.old) }
    {
        self.tally.pass()?;
        self.begin();
        Ok(())
    }

    /// The implicit sync of the topmost instance, which isn't passed where the strand begins in it. Its own layer becomes a
    /// record, and is put into the one below it. Where memory is refused nothing has changed but the values of these two.
    pub(crate) fn last_sync<K: KitSource<Kit<V>>>(
        &mut self,
        alloc: Global,
        setting: Setting<'_>,
        value: i64,
        kits: &mut K,
    ) -> Result<(), AllocError>
        requires returning { self.old.phase ≡ Phase.Returning value }
        requires layered { length self.old.tally.opened ≡ length self.old.lower }
        requires supplied { IsSuppliedBy K.KitSource setting kits.old self.old }
        ensures synced { OnOk result (self.new ≡ synced (lent setting.entry) value self.old) }
        ensures made { HaveValues self.old.layer.kinds self.old.tally.made → HaveValues self.old.layer.kinds self.new.tally.made }
        ensures refused { OnErr result (IsValued self.old self.new) }
        ensures kits { KeepsAllKits K.KitSource setting.entry.program.now.kinds kits.old kits.new self.old self.new }
    {
        if self.is_entry() {
            return Ok(());
        }
        if !self.tally.is_own(self.path.len()) {
            self.phase = Phase::Leaving(value);
            return Ok(());
        }
        let kit = self.close_top(alloc, setting, value)?;
        send_home(kits, kit);
        Ok(())
    }

    /// The topmost layer becomes a record, and is put into the one below it; gives its kit.
    fn close_top(
        &mut self,
        alloc: Global,
        setting: Setting<'_>,
        value: i64,
    ) -> Result<Kit<V>, AllocError>
        requires more { 0 < length self.old.lower }
        requires kinds_are { self.old.layer.kinds ≡ setting.program.now.kinds }
        requires kinds { All (λ l. l.kinds ≡ setting.program.now.kinds) self.old.lower }
        requires monoids { All IsMonoid setting.program.now.kinds }
        ensures closed { OnOk result (self.new ≡ closed (lent setting.entry) value self.old) }
        ensures kit { IfOk result (λ kit. kit ≡ setting.entry.program.now.kinds) }
        ensures made { HaveValues self.old.layer.kinds self.old.tally.made → HaveValues self.old.layer.kinds self.new.tally.made }
        ensures refused { OnErr result (IsValued self.old self.new) }
    {
        let count = self.lower.len();
        if count == 0 {
            unreachable!();
        }
        let outer = &mut self.lower[count - 1];
        self.tally
            .close(alloc, &mut self.layer, outer, value, setting.program)?;
        let Some(outer) = self.lower.pop() else {
            unreachable!();
        };
        let upper = mem::replace(&mut self.layer, outer);
        self.phase = Phase::Leaving(value);
        Ok(upper.close_in(&mut self.lists))
    }
}
