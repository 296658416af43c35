// Loops: the loop's instance, its halves, and its iterations.
ghost use Rattle.std.specs.Prelude.{◌≡◌, ◌+◌, true, ◌<◌, ◌^◌, OnErr, OnOk, IfOk, map, slice_set};
ghost use Rattle.linked_program.specs.CodeView.{expression as plain, slots_of, memo_of};
ghost use Rattle.evaluation.specs.Values.{bounds_at, entry_at, values_at};
ghost use Rattle.evaluation.specs.declared.slot.Slot.TheVariants.{Has};
ghost use Rattle.positions.specs.Activations.{ShareFits};
ghost use Rattle.positions.specs.Advance.{evaluated, looping, split, halved, second_half, nested_memo, turned, turn_by, turn_slots, rest_of as later_of};
ghost use Rattle.activations.specs.Given.{lent, loop_of};
ghost use Rattle.small_steps.specs.Ends.{Evaluates, TakesNumber};
ghost use Rattle.layers.specs.Ends.{HasNoted};
ghost use Rattle.small_steps.specs.Steps.{HoldsFor, IsSuppliedBy, IsValued, KeepsAllKits, nested_plain};

use crate::machine::Machine;
use crate::remembering::Entrance;
use activations::activation::{Activation, next_of};
use activations::code::{LoopCode, loop_code};
use activations::setting::Setting;
use activations::shares::{Turns, left_of, number_of, rest_of, right_of};
use evaluation::ranges::LoopRange;
use evaluation::slot::Slot;
use evaluation::stop::Stop;
use input_tables::Tables;
use linked_program::checked::Checked;
use linked_program::code::Expression;
use meaning::tree::Way;
use positions::phase::Phase;
use positions::work::{Loop, Position, Share, Work};
use std::alloc::{AllocError, Global};
use std::mem;
use view_pool::{Kit, KitSource, View};

/// How many times a loop may be halved.
const HALVINGS: u32 = meaning::HALVINGS;

/// Whether the only argument of a loop's iterations is their number, which is in that slot.
#[inline(always)]
fn takes_number(arguments: &[Expression], variable: usize, slots: &[Slot]) -> bool
    ensures takes { result ≡ true → TakesNumber (map plain arguments.now) variable slots.now }
{
    if arguments.len() != 1 || variable >= slots.len() {
        return false;
    }
    match &arguments[0] {
        Expression::Slot(name) => *name == variable,
        _ => false,
    }
}

impl<V: View> Machine<V> {
    /// Enters a loop's instance over the numbers between two values.
    fn repeat(
        &mut self,
        alloc: Global,
        tables: &Tables,
        statement: u32,
        position: Position,
        low: &Expression,
        high: &Expression,
    ) -> Result<(), AllocError>
        requires room { position.index + 1 < 2 ^ 64 }
        ensures looped { OnOk result (self.new ≡ evaluated statement
            (bounds_at tables.now.tables self.old.top.slots (plain low.now) (plain high.now)) (looping position) self.old) }
        ensures unchanged { OnErr result (self.new ≡ self.old) }
    {
        let before = self.layer.readings();
        match self.bounds(tables, statement, low, high)? {
            Some(range) => match self.push_loop(alloc, position, range) {
                Ok(()) => Ok(()),
                Err(AllocError) => {
                    self.forget(before);
                    Err(AllocError)
                }
            },
            None => Ok(()),
        }
    }

    /// The same, and where many records may come of its iterations, room for all of them is made as they come.
    pub(crate) fn repeat_first(
        &mut self,
        alloc: Global,
        setting: Setting<'_>,
        statement: u32,
        position: Position,
        low: &Expression,
        high: &Expression,
    ) -> Result<(), AllocError>
        requires room { position.index + 1 < 2 ^ 64 }
        ensures looped { OnOk result (self.new ≡ evaluated statement
            (bounds_at setting.entry.tables.now.tables self.old.top.slots (plain low.now) (plain high.now)) (looping position) self.old) }
        ensures unchanged { OnErr result (self.new ≡ self.old) }
    {
        self.repeat(alloc, setting.tables, statement, position, low, high)?;
        self.expect_records(setting);
        Ok(())
    }

    /// Records may come of all iterations of the loop whose instance was entered, or of those whose records edits have made stale.
    fn expect_records(&mut self, setting: Setting<'_>)
        ensures same { self.new ≡ self.old }
    {
        match self.records_ahead(setting) {
            Some(records) => self.tally.expect(records),
            None => {}
        }
    }

    /// How many records may come of the topmost instance, if it is a loop's over a memo procedure and many are expected.
    fn records_ahead(&self, setting: Setting<'_>) -> Option<u32> {
        let most = setting.records.expected()?;
        match self.top.work() {
            Work::Halves(site, _, share) => {
                let code = loop_code(setting.program, self.top.procedure(), site);
                if setting.program.is_memo(code.callee) {
                    Some(share.count.min(most))
                } else {
                    None
                }
            }
            _ => None,
        }
    }

    /// Enters a loop's instance over that range.
    fn push_loop(
        &mut self,
        alloc: Global,
        position: Position,
        range: LoopRange,
    ) -> Result<(), AllocError>
        requires room { position.index + 1 < 2 ^ 64 }
        ensures looped { OnOk result (self.new ≡ looping position (range.low, range.count) self.old) }
        ensures unchanged { OnErr result (self.new ≡ self.old) }
    {
        let room = self.spares.slots(alloc);
        let slots = self.top.copied_slots(room)?;
        let site = Loop {
            block: position.block,
            index: position.index,
            low: range.low,
        };
        let whole = Share {
            first: 0,
            count: range.count,
        };
        let work = Work::Halves(site, HALVINGS, whole);
        let procedure = self.top.procedure();
        let places = self.spares.places(alloc);
        let child = Activation::new(procedure, slots, places, work, self.top.left());
        self.push_called(child, Work::Block(next_of(position)), None, Phase::Running)
    }

    /// Spawns the first half of the iterations, or goes over to iterations one by one.
    pub fn halve(
        &mut self,
        alloc: Global,
        program: &Checked,
        site: Loop,
        halvings: u32,
        share: Share,
    ) -> Result<(), AllocError>
        requires fits { ShareFits site share }
        requires running { self.old.phase ≡ Phase.Running }
        ensures halved { OnOk result (self.new ≡ halved program.now.codes site halvings share self.old) }
        ensures unchanged { OnErr result (self.new ≡ self.old) }
    {
        let code = loop_code(program, self.top.procedure(), site);
        if halvings == 0 || share.count <= code.grain {
            self.top.set_work(Work::Turns(site, share));
            return Ok(());
        }
        self.split(alloc, site, halvings - 1, share)
    }

    fn split(
        &mut self,
        alloc: Global,
        site: Loop,
        halvings: u32,
        share: Share,
    ) -> Result<(), AllocError>
        requires fits { ShareFits site share }
        requires running { self.old.phase ≡ Phase.Running }
        ensures split { OnOk result (self.new ≡ split site halvings share self.old) }
        ensures unchanged { OnErr result (self.new ≡ self.old) }
    {
        let room = self.spares.slots(alloc);
        let slots = self.top.copied_slots(room)?;
        let work = Work::Halves(site, halvings, left_of(site, share));
        let procedure = self.top.procedure();
        let places = self.spares.places(alloc);
        let child = Activation::new(procedure, slots, places, work, self.top.left());
        let later = Work::Second(site, halvings, right_of(site, share));
        self.push_spawned(child, later, None)
    }

    /// Calls the second half of the iterations. The instance gives its slots away.
    pub fn second_half(
        &mut self,
        alloc: Global,
        site: Loop,
        halvings: u32,
        share: Share,
    ) -> Result<(), AllocError>
        requires fits { ShareFits site share }
        ensures second { OnOk result (self.new ≡ second_half site halvings share self.old) }
        ensures unchanged { OnErr result (self.new ≡ self.old) }
    {
        let Some(number) = self.top.children().checked_add(1) else {
            return Err(AllocError);
        };
        self.path.reserve(1)?;
        self.below.reserve(1)?;
        let slots = self.top.take_slots(alloc);
        let work = Work::Halves(site, halvings, share);
        let procedure = self.top.procedure();
        let places = self.spares.places(alloc);
        let child = Activation::new(procedure, slots, places, work, self.top.left());
        self.path.push_reserved(number);
        let mut parent = mem::replace(&mut self.top, child);
        parent.wait(false, None, Work::Over);
        self.below.push_reserved(parent);
        self.phase = Phase::Running;
        Ok(())
    }

    /// Enters the next iteration, or ends the loop.
    pub(crate) fn turn<K: KitSource<Kit<V>>>(
        &mut self,
        alloc: Global,
        setting: Setting<'_>,
        site: Loop,
        share: Share,
        kits: &mut K,
    ) -> Result<(), AllocError>
        requires fits { ShareFits site share }
        requires running { self.old.phase ≡ Phase.Running }
        requires supplied { IsSuppliedBy K.KitSource setting kits.old self.old }
        ensures turned { OnOk result (HoldsFor K.KitSource kits.old
            (λ kit. self.new ≡ turned (lent setting.entry) kit site share self.old)) }
        ensures refused { OnErr result (IsValued self.old self.new) }
        ensures kits { KeepsAllKits K.KitSource setting.entry.program.now.kinds kits.old kits.new self.old self.new }
    {
        if share.count == 0 {
            self.phase = Phase::Returning(0);
            return Ok(());
        }
        let code = loop_code(setting.program, self.top.procedure(), site);
        let turns = Turns { site, share };
        self.iterate(alloc, setting, code, turns, kits)
    }

    /// Enters the next iteration of a loop that has more.
    fn iterate<K: KitSource<Kit<V>>>(
        &mut self,
        alloc: Global,
        setting: Setting<'_>,
        code: LoopCode,
        turns: Turns,
        kits: &mut K,
    ) -> Result<(), AllocError>
        requires fits { ShareFits turns.site turns.share }
        requires more { 0 < turns.share.count }
        requires running { self.old.phase ≡ Phase.Running }
        requires supplied { IsSuppliedBy K.KitSource setting kits.old self.old }
        ensures turned { OnOk result (HoldsFor K.KitSource kits.old
            (λ kit. self.new ≡ turn_by (lent setting.entry) kit (loop_of code.entry) turns.site turns.share self.old)) }
        ensures refused { OnErr result (IsValued self.old self.new) }
        ensures kits { KeepsAllKits K.KitSource setting.entry.program.now.kinds kits.old kits.new self.old self.new }
    {
        if setting.program.is_memo(code.callee) {
            self.iterate_memo(alloc, setting, code, turns, kits)
        } else {
            self.iterate_plain(alloc, setting, code, turns)
        }
    }

    /// Enters the next iteration, of a procedure that isn't marked memo.
    fn iterate_plain(
        &mut self,
        alloc: Global,
        setting: Setting<'_>,
        code: LoopCode,
        turns: Turns,
    ) -> Result<(), AllocError>
        requires fits { ShareFits turns.site turns.share }
        requires more { 0 < turns.share.count }
        requires running { self.old.phase ≡ Phase.Running }
        ensures turned { OnOk result (self.new ≡ evaluated code.entry.number
            (entry_at setting.entry.tables.now.tables (turn_slots (loop_of code.entry) turns.site turns.share self.old)
            (slots_of setting.entry.program.now.codes code.entry.callee) (map plain code.entry.arguments.now))
            (nested_plain code.entry.number Way.Call None (Work.Turns turns.site (later_of turns.share)) code.entry.callee) self.old) }
        ensures unchanged { OnErr result (self.new ≡ self.old) }
    {
        let before = self.layer.readings();
        let size = setting.program.slots(code.callee);
        match self.turn_entry(alloc, setting.tables, size, code, turns)? {
            Some(slots) => {
                let entrance = Entrance {
                    statement: code.number,
                    way: Way::Call,
                    into: None,
                    work: Work::Turns(turns.site, rest_of(turns.site, turns.share)),
                    callee: code.callee,
                };
                match self.nest(alloc, entrance, slots) {
                    Ok(()) => Ok(()),
                    Err(AllocError) => {
                        self.forget(before);
                        Err(AllocError)
                    }
                }
            }
            None => Ok(()),
        }
    }

    /// Enters the next iteration, of a memo procedure.
    fn iterate_memo<K: KitSource<Kit<V>>>(
        &mut self,
        alloc: Global,
        setting: Setting<'_>,
        code: LoopCode,
        turns: Turns,
        kits: &mut K,
    ) -> Result<(), AllocError>
        requires fits { ShareFits turns.site turns.share }
        requires more { 0 < turns.share.count }
        requires running { self.old.phase ≡ Phase.Running }
        requires memo { memo_of setting.program.now.codes code.callee ≡ true }
        requires supplied { IsSuppliedBy K.KitSource setting kits.old self.old }
        ensures turned { OnOk result (HoldsFor K.KitSource kits.old
            (λ kit. self.new ≡ evaluated code.entry.number
            (values_at setting.entry.tables.now.tables (turn_slots (loop_of code.entry) turns.site turns.share self.old)
            (map plain code.entry.arguments.now)) (nested_memo (lent setting.entry) kit code.entry.number Way.Call None
            (Work.Turns turns.site (later_of turns.share)) code.entry.callee) self.old)) }
        ensures refused { OnErr result (IsValued self.old self.new) }
        ensures kits { KeepsAllKits K.KitSource setting.entry.program.now.kinds kits.old kits.new self.old self.new }
    {
        let mut numbers = mem::replace(&mut self.numbers, Vec::new(alloc));
        let outcome = self.iterate_memo_by(alloc, setting, code, turns, &mut numbers, kits);
        self.numbers = numbers;
        outcome
    }

    /// Enters the next iteration by its arguments, which are put into `numbers`.
    fn iterate_memo_by<K: KitSource<Kit<V>>>(
        &mut self,
        alloc: Global,
        setting: Setting<'_>,
        code: LoopCode,
        turns: Turns,
        numbers: &mut Vec<i64>,
        kits: &mut K,
    ) -> Result<(), AllocError>
        requires fits { ShareFits turns.site turns.share }
        requires more { 0 < turns.share.count }
        requires running { self.old.phase ≡ Phase.Running }
        requires memo { memo_of setting.program.now.codes code.callee ≡ true }
        requires supplied { IsSuppliedBy K.KitSource setting kits.old self.old }
        ensures turned { OnOk result (HoldsFor K.KitSource kits.old
            (λ kit. self.new ≡ evaluated code.entry.number
            (values_at setting.entry.tables.now.tables (turn_slots (loop_of code.entry) turns.site turns.share self.old)
            (map plain code.entry.arguments.now)) (nested_memo (lent setting.entry) kit code.entry.number Way.Call None
            (Work.Turns turns.site (later_of turns.share)) code.entry.callee) self.old)) }
        ensures refused { OnErr result (IsValued self.old self.new) }
        ensures kits { KeepsAllKits K.KitSource setting.entry.program.now.kinds kits.old kits.new self.old self.new }
    {
        let before = self.layer.readings();
        match self.turn_values(setting.tables, code, turns, numbers)? {
            Some(()) => {
                let entrance = Entrance {
                    statement: code.number,
                    way: Way::Call,
                    into: None,
                    work: Work::Turns(turns.site, rest_of(turns.site, turns.share)),
                    callee: code.callee,
                };
                match self.nest_memo(alloc, setting, entrance, numbers, kits) {
                    Ok(()) => Ok(()),
                    Err(AllocError) => {
                        self.forget(before);
                        Err(AllocError)
                    }
                }
            }
            None => Ok(()),
        }
    }

    /// The arguments of the next iteration, in place of what `numbers` held; none where the strand is faulted by one. Where the
    /// iteration's number is the only one, nothing is evaluated.
    #[inline(always)]
    fn turn_values(
        &mut self,
        tables: &Tables,
        code: LoopCode,
        turns: Turns,
        numbers: &mut Vec<i64>,
    ) -> Result<Option<()>, AllocError>
        requires fits { ShareFits turns.site turns.share }
        ensures evaluated { IfOk result (Evaluates (λ u. numbers.new.items) code.entry.number
            (values_at tables.now.tables (turn_slots (loop_of code.entry) turns.site turns.share self.old)
            (map plain code.entry.arguments.now)) self.old self.new) }
        ensures unchanged { OnErr result (self.new ≡ self.old) }
    {
        if takes_number(code.arguments, code.variable, self.top.slots()) {
            numbers.clear();
            numbers.push(number_of(turns.site, turns.share))?;
            return Ok(Some(()));
        }
        self.turn_values_by(tables, code, turns, numbers)
    }

    /// The arguments of the next iteration, by the values of the expressions.
    #[inline(never)]
    fn turn_values_by(
        &mut self,
        tables: &Tables,
        code: LoopCode,
        turns: Turns,
        numbers: &mut Vec<i64>,
    ) -> Result<Option<()>, AllocError>
        requires fits { ShareFits turns.site turns.share }
        ensures evaluated { IfOk result (Evaluates (λ u. numbers.new.items) code.entry.number
            (values_at tables.now.tables (turn_slots (loop_of code.entry) turns.site turns.share self.old)
            (map plain code.entry.arguments.now)) self.old self.new) }
        ensures unchanged { OnErr result (self.new ≡ self.old) }
    {
        let number = Slot::Has(number_of(turns.site, turns.share));
        match self.values_with(tables, code.arguments, code.variable, number, numbers) {
            Ok(()) => Ok(Some(())),
            Err(Stop::Fault(kind)) => {
                self.fault(code.number, kind);
                Ok(None)
            }
            Err(Stop::NoMemory) => Err(AllocError),
        }
    }

    /// The values of expressions, with that in a slot meanwhile.
    #[tactic(auto, using(activations::proofs::Slots::put_back))]
    fn values_with(
        &mut self,
        tables: &Tables,
        arguments: &[Expression],
        variable: usize,
        number: Slot,
        numbers: &mut Vec<i64>,
    ) -> Result<(), Stop>
        ensures notes { HasNoted (λ u. numbers.new.items)
            (values_at tables.now.tables (slice_set self.old.top.slots variable number) (map plain arguments.now))
            self.old.layer self.new.layer result }
        ensures others { self.new ≡ record self.old { layer = self.new.layer } }
    {
        let held = self.top.exchange(variable, number);
        let outcome = self
            .layer
            .values(arguments, self.top.slots(), tables, numbers);
        self.top.restore(variable, held);
        outcome
    }

    /// The slots of the next iteration; none where the strand is faulted by an argument.
    fn turn_entry(
        &mut self,
        alloc: Global,
        tables: &Tables,
        size: usize,
        code: LoopCode,
        turns: Turns,
    ) -> Result<Option<Vec<Slot>>, AllocError>
        requires fits { ShareFits turns.site turns.share }
        ensures evaluated { IfOk result (Evaluates (λ v. v.items) code.entry.number
            (entry_at tables.now.tables (turn_slots (loop_of code.entry) turns.site turns.share self.old) size
            (map plain code.entry.arguments.now)) self.old self.new) }
        ensures unchanged { OnErr result (self.new ≡ self.old) }
    {
        let number = Slot::Has(number_of(turns.site, turns.share));
        match self.entry_with(alloc, tables, size, code.arguments, code.variable, number) {
            Ok(slots) => Ok(Some(slots)),
            Err(Stop::Fault(kind)) => {
                self.fault(code.number, kind);
                Ok(None)
            }
            Err(Stop::NoMemory) => Err(AllocError),
        }
    }

    /// The slots of an instance that is entered with these arguments, with that in a slot meanwhile.
    #[tactic(auto, using(activations::proofs::Slots::put_back))]
    pub(crate) fn entry_with(
        &mut self,
        alloc: Global,
        tables: &Tables,
        size: usize,
        arguments: &[Expression],
        variable: usize,
        number: Slot,
    ) -> Result<Vec<Slot>, Stop>
        ensures notes { HasNoted (λ v. v.items) (entry_at tables.now.tables (slice_set self.old.top.slots variable number) size
            (map plain arguments.now)) self.old.layer self.new.layer result }
        ensures others { self.new ≡ record self.old { layer = self.new.layer } }
    {
        let room = self.spares.slots(alloc);
        let held = self.top.exchange(variable, number);
        let outcome = self
            .layer
            .entry(room, size, arguments, self.top.slots(), tables);
        self.top.restore(variable, held);
        outcome
    }
}
