//! A layer of a strand: the views of a kit, and what was read and entered since they were opened.
ghost use Rattle.std.specs.Prelude.{◌≡◌, ◌∷◌, [], ◌<◌, IfOk, IfErr, OnOk, Some, true, false, length, map, replicate, take, slice_get};
ghost use Rattle.monoid_laws.specs.declared.Kind.{Kind};
ghost use Rattle.monoid_laws.specs.Kinds.{AreWorths, identities, meaning};
ghost use Rattle.linked_program.specs.CodeView.{expression as plain};
ghost use Rattle.meaning.specs.Statements.{number_of};
ghost use Rattle.evaluation.specs.Values.{value_at, values_at, entry_at, bounds_at};
ghost use Rattle.positions.specs.Layers.{blank, entering};
ghost use Rattle.layers.specs.Ends.{HasNoted, without_unkept};

use crate::lowering::put_all_down;
use crate::spares::SpareLists;
use evaluation::entry::entry_slots;
use evaluation::notes::Notes;
use evaluation::ranges::{LoopRange, bounds};
use evaluation::slot::Slot;
use evaluation::stop::Stop;
use evaluation::unnoted;
use evaluation::values::{two_values, value, values};
use hypermaps::Hypermap;
use input_tables::Tables;
use instance_records::readings::Readings;
use linked_program::code::Expression;
use monoid_laws::{Kind, Val};
use std::alloc::{AllocError, Global};
use std::marker::Model;
use view_pool::{Kit, View};

/// The greatest depth of an instance.
pub const DEEPEST: u32 = meaning::DEPTH_LIMIT;

/// Whether readings are kept, the greatest depth of an instance, the reducers' views, what was read, what the instances have read
/// that were recorded or answered meanwhile, and for each procedure whether it was entered. The two small ones stand together: it
/// is then moved without a call.
#[derive(Drop)]
pub struct Layer<V: View = Box<dyn View>> {
    pub keeps: bool,
    pub(crate) deepest: u32,
    pub(crate) hypermap: Hypermap<V>,
    pub notes: Notes,
    pub(crate) shared: Vec<Readings>,
    pub(crate) entered: Vec<bool>,
}

impl<V: View> Model for Layer<V> {
    ghost use Rattle.instance_records.specs.Readings.{all_of};
    ghost use Rattle.positions.specs.Layers.{PlainLayer};

    ghost Value = { PlainLayer };

    ghost view = { λ l. record {
      keeps = l.keeps;
      kinds = l.hypermap.kinds;
      worths = l.hypermap.worths;
      notes = l.notes;
      shared = all_of l.shared.items;
      entered = l.entered.items;
      deepest = l.deepest;
    } };
}

impl<V: View> Layer<V> {
    /// A layer that has noted nothing, and keeps readings or not, for a program of so many procedures; refused for want of memory
    /// alone, and then the kit is handed back.
    pub fn open(
        alloc: Global,
        kit: Kit<V>,
        keeps: bool,
        procedures: usize,
    ) -> Result<Layer<V>, (AllocError, Kit<V>)>
        ensures open { IfOk result (λ layer. layer ≡ blank keeps kit procedures) }
        ensures handed_back { IfErr result (λ e. e.1 ≡ kit) }
    {
        let mut entered = Vec::new(alloc);
        if entered.resize(procedures, false).is_err() {
            return Err((AllocError, kit));
        }
        let notes = Notes::new(alloc);
        let used = Vec::new(alloc);
        Ok(Layer::in_lists(alloc, kit, keeps, procedures, notes, entered, used))
    }

    /// A layer that has noted nothing, in those lists: the flags are one for each of so many procedures, and the last list is for the
    /// reducers that will be used. It takes no memory.
    #[inline(always)]
    pub fn in_lists(
        alloc: Global,
        kit: Kit<V>,
        keeps: bool,
        _procedures: usize,
        notes: Notes,
        entered: Vec<bool>,
        used: Vec<usize>,
    ) -> Layer<V>
        requires no_notes { notes ≡ [] }
        requires flags_down { entered.items ≡ replicate _procedures false }
        requires none_used { used.items ≡ [] }
        ensures open { result ≡ blank keeps kit _procedures }
    {
        Layer {
            keeps,
            deepest: 0,
            hypermap: Hypermap::open_in(kit, used),
            notes,
            shared: Vec::new(alloc),
            entered,
        }
    }

    /// The kit, each view at its identity again.
    pub fn close(self) -> Kit<V>
        ensures kit { result ≡ self.kinds }
    {
        self.hypermap.close()
    }

    /// The kit, each view at its identity again; the lists of notes, of flags and of used reducers are kept.
    pub fn close_in(self, spares: &mut SpareLists) -> Kit<V>
        ensures kit { result ≡ self.kinds }
    {
        let Layer {
            hypermap,
            notes,
            entered,
            ..
        } = self;
        let (kit, used) = hypermap.close_in();
        spares.keep_layer(notes, entered, used);
        kit
    }

    /// The layer as if it were opened anew, where its views are at the identities: it has noted nothing, and keeps readings or not, for a
    /// program of so many procedures. Want of memory is the only error.
    #[inline(always)]
    pub fn renew(&mut self, keeps: bool, procedures: usize) -> Result<(), AllocError>
        requires emptied { self.old.worths ≡ identities self.old.kinds }
        ensures open { OnOk result (self.new ≡ blank keeps self.old.kinds procedures) }
        ensures kinds { self.new.kinds ≡ self.old.kinds }
    {
        self.keeps = keeps;
        self.deepest = 0;
        self.notes.clear();
        if !self.shared.is_empty() {
            self.shared.clear();
        }
        put_all_down(&mut self.entered, procedures)
    }

    /// What the type keeps: each reducer's value is of its kind.
    pub fn of_kinds(&self)
        ensures worths { AreWorths self.now.kinds self.now.worths }
    {
        let _ = self.hypermap.len();
    }

    /// How many readings it has noted.
    pub fn readings(&self) -> usize
        ensures count { result ≡ length self.now.notes }
    {
        self.notes.len()
    }

    /// Forgets all readings but so many first ones.
    pub fn forget(&mut self, readings: usize)
        ensures forgotten { self.new ≡ record self.old { notes = take readings self.old.notes } }
    {
        self.notes.truncate(readings);
    }

    /// Forgets the readings behind so many first ones, unless readings are kept.
    #[inline(always)]
    fn forget_unkept(&mut self, before: usize)
        ensures without_unkept { self.new ≡ without_unkept before self.old }
    {
        if !self.keeps {
            self.notes.truncate(before);
        }
    }

    /// The value of an expression.
    #[inline(always)]
    #[tactic(auto, using(crate::proofs::Kept::noted_is, crate::proofs::Kept::unnoted_is))]
    pub fn value(
        &mut self,
        expression: &Expression,
        slots: &[Slot],
        tables: &Tables,
    ) -> Result<i64, Stop>
        ensures notes { HasNoted (λ v. v) (value_at tables.now.tables slots.now (plain expression.now)) self.old self.new result }
    {
        if self.keeps {
            return value(expression, slots, tables, &mut self.notes);
        }
        unnoted::value(expression, slots, tables)
    }

    /// The values of two expressions.
    #[inline(always)]
    #[tactic(auto, using(crate::proofs::Kept::noted_is, crate::proofs::Kept::unnoted_is))]
    pub fn pair(
        &mut self,
        first: &Expression,
        second: &Expression,
        slots: &[Slot],
        tables: &Tables,
    ) -> Result<(i64, i64), Stop>
        ensures notes { HasNoted (λ p. p.0 ∷ p.1 ∷ [])
            (values_at tables.now.tables slots.now (plain first.now ∷ plain second.now ∷ [])) self.old self.new result }
    {
        if self.keeps {
            return two_values(first, second, slots, tables, &mut self.notes);
        }
        unnoted::two_values(first, second, slots, tables)
    }

    /// The values of expressions, in place of what `numbers` held.
    #[tactic(auto, using(crate::proofs::Kept::noted_without_unkept))]
    pub fn values(
        &mut self,
        expressions: &[Expression],
        slots: &[Slot],
        tables: &Tables,
        numbers: &mut Vec<i64>,
    ) -> Result<(), Stop>
        ensures notes { HasNoted (λ u. numbers.new.items) (values_at tables.now.tables slots.now (map plain expressions.now)) self.old self.new result }
    {
        let before = self.notes.len();
        let outcome = values(expressions, slots, tables, numbers, &mut self.notes);
        self.forget_unkept(before);
        outcome
    }

    /// The slots of an instance that is entered with these arguments, in that empty list.
    #[inline(always)]
    #[tactic(auto, using(crate::proofs::Kept::noted_without_unkept))]
    pub fn entry(
        &mut self,
        room: Vec<Slot>,
        size: usize,
        arguments: &[Expression],
        slots: &[Slot],
        tables: &Tables,
    ) -> Result<Vec<Slot>, Stop>
        requires empty { room.items ≡ [] }
        ensures notes { HasNoted (λ v. v.items) (entry_at tables.now.tables slots.now size (map plain arguments.now)) self.old self.new result }
    {
        let before = self.notes.len();
        let outcome = entry_slots(room, size, arguments, slots, tables, &mut self.notes);
        self.forget_unkept(before);
        outcome
    }

    /// A loop's range.
    #[tactic(auto, using(crate::proofs::Kept::noted_without_unkept))]
    pub fn bounds(
        &mut self,
        low: &Expression,
        high: &Expression,
        slots: &[Slot],
        tables: &Tables,
    ) -> Result<LoopRange, Stop>
        ensures notes { HasNoted (λ r. (r.low, r.count)) (bounds_at tables.now.tables slots.now (plain low.now) (plain high.now)) self.old self.new result }
    {
        let before = self.notes.len();
        let outcome = bounds(low, high, slots, tables, &mut self.notes);
        self.forget_unkept(before);
        outcome
    }

    /// An instance of that procedure is entered at that depth.
    pub fn enter(&mut self, procedure: usize, depth: u32)
        ensures entered { self.new ≡ entering procedure depth self.old }
    {
        if procedure < self.entered.len() {
            self.entered[procedure] = true;
        }
        self.deepest = self.deepest.max(depth);
    }

    /// The number that a reducer's value gives to `read`; 0 where there is no such reducer.
    pub fn number(&self, reducer: usize) -> Result<i64, AllocError>
        ensures number { IfOk result (λ v. v ≡ number_of (slice_get self.now.worths reducer)) }
    {
        if reducer >= self.hypermap.len() {
            return Ok(0);
        }
        let value = self.hypermap.value(reducer)?;
        Ok(number_of(&value))
    }
}

/// The number that a value gives to `read`.
fn number_of(value: &Val) -> i64
    ensures number { result ≡ number_of (Some (meaning value.now)) }
{
    match value {
        Val::Int(number) => *number,
        Val::Elem(element) => i64::from(*element),
        _ => 0,
    }
}
