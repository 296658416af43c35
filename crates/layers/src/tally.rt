//! What a strand has counted and recorded of memo instances.
ghost use Rattle.std.specs.Prelude.{◌≡◌, ◌∷◌, [], suc, ◌+◌, ◌≤◌, ℕ, true, false, IfOk, OnErr, OnOk, All, length};
ghost use Rattle.monoid_laws.specs.Kinds.{IsMonoid, identities, meaning};
ghost use Rattle.record_theory.specs.Named.{AreValuesFrom, HaveValues};
ghost use Rattle.positions.specs.Layers.{multiplied, covered, absorbing, kept_reads};
ghost use Rattle.positions.specs.Tallies.{no_tally, passing, answering, opening, is_own, closing, tallies_joined, touched_from};
ghost use Rattle.layers.specs.Folds.{IsSameButWorths, HasSameProduct, BothHaveValues};
ghost use Rattle.layers.specs.Owners.{owner_of};
ghost use Rattle.view_pool.specs.Short.{value_in};

use crate::counts::{counts_of, one_more, sum};
use crate::few_values::let_go;
use crate::layer::Layer;
use crate::leaves::{Leaf, record_of_two};
use crate::lone::{Lone, record_of_one};
use crate::recording::Opened;
use instance_records::entries::Entries;
use instance_records::record::Record;
use linked_program::checked::Checked;
use list_pieces::pieces::Pieces;
use std::alloc::{AllocError, Global};
use std::marker::Model;
use view_pool::View;

/// The memo instances whose layers are open, the topmost last; the records made; the last list of two procedures that was made for one, which
/// those behind it share; and how many instances were executed, answered by a record, and executed without a layer.
#[derive(Drop)]
pub struct Tally {
    opened: Vec<Opened>,
    made: Pieces<Record>,
    last: Entries,
    executed: u64,
    reused: u64,
    unrecorded: u64,
}

impl Model for Tally {
    ghost use Rattle.std.specs.Prelude.{reverse};
    ghost use Rattle.positions.specs.Tallies.{PlainTally};
    ghost use Rattle.list_pieces.specs.Pieces.{items_in, IsRoomy};

    ghost Value = { PlainTally };

    ghost view = { λ t. record {
      opened = reverse t.opened.items;
      made = items_in t.made;
      executed = t.executed;
      reused = t.reused;
      unrecorded = t.unrecorded;
    } };

    ghost invariant = { λ t. IsRoomy t.made };
}

impl Tally {
    /// Nothing counted, and no records. It takes no memory.
    pub fn new(alloc: Global) -> Tally
        ensures none { result ≡ no_tally }
    {
        Tally {
            opened: Vec::new(alloc),
            made: Pieces::new(alloc),
            last: Entries::Nothing,
            executed: 0,
            reused: 0,
            unrecorded: 0,
        }
    }

    /// So many more records may come: a long list of them grows by it. It takes no memory.
    pub fn expect(&mut self, records: u32)
        ensures same { self.new ≡ self.old }
    {
        self.made.expect(records as usize);
    }

    /// An instance is executed in the layer below; refused where a count is at its limit.
    pub fn pass(&mut self) -> Result<(), AllocError>
        ensures passed { OnOk result (self.new ≡ passing self.old) }
        ensures unchanged { OnErr result (self.new ≡ self.old) }
    {
        let executed = one_more(self.executed)?;
        self.unrecorded = one_more(self.unrecorded)?;
        self.executed = executed;
        Ok(())
    }

    /// A record answers an instance at that depth: what the record has goes behind the layer. Where memory is refused, or the
    /// count is at its limit, nothing has changed but the layer's values.
    #[inline(always)]
    pub fn reuse<V: View>(
        &mut self,
        alloc: Global,
        layer: &mut Layer<V>,
        record: &Record,
        depth: u32,
    ) -> Result<(), AllocError>
        requires monoids { All IsMonoid layer.old.kinds }
        requires values { AreValuesFrom 0 layer.old.kinds record.now.contribution }
        ensures answered { OnOk result (self.new ≡ answering self.old) }
        ensures absorbed { OnOk result (layer.new ≡ absorbing record.now depth layer.old) }
        ensures unchanged { OnErr result (self.new ≡ self.old) }
        ensures partly { OnErr result (IsSameButWorths layer.old layer.new) }
    {
        let reused = one_more(self.reused)?;
        layer.absorb(alloc, record, depth)?;
        self.reused = reused;
        Ok(())
    }

    /// One record answers so many instances at that depth: what it has goes behind the layer, once. Where memory is refused, or
    /// the count is past its limit, nothing has changed but the layer's values.
    pub fn reuse_for<V: View>(
        &mut self,
        alloc: Global,
        layer: &mut Layer<V>,
        record: &Record,
        instances: u32,
        depth: u32,
    ) -> Result<(), AllocError>
        requires monoids { All IsMonoid layer.old.kinds }
        requires values { AreValuesFrom 0 layer.old.kinds record.now.contribution }
        ensures answered { OnOk result
            (self.new ≡ record self.old { reused = self.old.reused + instances }) }
        ensures absorbed { OnOk result (layer.new ≡ absorbing record.now depth layer.old) }
        ensures unchanged { OnErr result (self.new ≡ self.old) }
        ensures partly { OnErr result (IsSameButWorths layer.old layer.new) }
    {
        let reused = sum(self.reused, u64::from(instances))?;
        layer.absorb(alloc, record, depth)?;
        self.reused = reused;
        Ok(())
    }

    /// An instance is executed in a layer of its own; refused for want of memory, or where the count is at its limit.
    #[inline(always)]
    pub fn open(&mut self, opened: Opened) -> Result<(), AllocError>
        ensures opened { OnOk result (self.new ≡ opening opened self.old) }
        ensures unchanged { OnErr result (self.new ≡ self.old) }
    {
        let executed = one_more(self.executed)?;
        self.opened.reserve(1)?;
        self.opened.push_reserved(opened);
        self.executed = executed;
        Ok(())
    }

    /// Whether the topmost open layer is that of the instance whose name is so long.
    pub fn is_own(&self, depth: usize) -> bool
        ensures own { result ≡ is_own self.now.opened depth }
    {
        match self.opened.last() {
            Some(opened) => opened.depth() == depth,
            None => false,
        }
    }

    /// How long the name is of the instance whose layer is the topmost open one, if there is one.
    fn owner(&self) -> Option<usize>
        ensures owner { result ≡ owner_of self.now.opened }
    {
        match self.opened.last() {
            Some(opened) => Some(opened.depth()),
            None => None,
        }
    }

    /// Whether the topmost open layer is that of an instance whose name is so long or longer.
    pub fn owns_from(&self, depth: usize) -> bool
        ensures none { result ≡ false → (n : ℕ) → depth ≤ n → is_own self.now.opened n ≡ false }
    {
        match self.owner() {
            Some(owner) => depth <= owner,
            None => false,
        }
    }

    /// The topmost layer, whose instance is over with that value, becomes a record and goes behind the layer below it. Where
    /// memory is refused, some reducers have moved to the lower layer and the others have not, and nothing else has changed.
    #[inline(always)]
    pub fn close<V: View>(
        &mut self,
        alloc: Global,
        top: &mut Layer<V>,
        below: &mut Layer<V>,
        value: i64,
        program: &Checked,
    ) -> Result<(), AllocError>
        requires kinds { top.old.kinds ≡ program.now.kinds }
        requires same_kinds { below.old.kinds ≡ top.old.kinds }
        requires monoids { All IsMonoid below.old.kinds }
        ensures closed { OnOk result
            (self.new ≡ closing program.now.revisions top.old value self.old) }
        ensures covered { OnOk result (below.new ≡ covered below.old top.old) }
        ensures emptied { OnOk result (top.new.worths ≡ identities top.old.kinds) }
        ensures top_kinds { top.new.kinds ≡ top.old.kinds }
        ensures below_kinds { below.new.kinds ≡ below.old.kinds }
        ensures values { HaveValues top.old.kinds self.old.made
            → HaveValues top.old.kinds self.new.made }
        ensures unchanged { OnErr result (self.new ≡ self.old) }
        ensures top_kept { OnErr result (IsSameButWorths top.old top.new) }
        ensures below_kept { OnErr result (IsSameButWorths below.old below.new) }
        ensures product { OnErr result (HasSameProduct below.old top.old below.new top.new) }
    {
        match top.leaf(program, value) {
            Some(leaf) => self.close_leaf(alloc, top, below, program, leaf),
            None => self.close_any(alloc, top, below, value, program),
        }
    }

    /// The instance that was executed in the topmost layer is over with that value: it is counted, its layer becomes a record and goes
    /// behind the layer below it, as if it were opened and closed at once. Whether that was done; where it wasn't, nothing has changed. Where
    /// memory is refused meanwhile, the instance is opened alone, and some reducers have moved to the lower layer.
    #[inline(always)]
    pub fn record<V: View>(
        &mut self,
        alloc: Global,
        opened: Opened,
        top: &mut Layer<V>,
        below: &mut Layer<V>,
        value: i64,
        program: &Checked,
    ) -> Result<bool, AllocError>
        requires kinds { top.old.kinds ≡ program.now.kinds }
        requires same_kinds { below.old.kinds ≡ top.old.kinds }
        requires monoids { All IsMonoid below.old.kinds }
        ensures closed { IfOk result (λ done. done ≡ true
            → self.new ≡ closing program.now.revisions top.old value (opening opened self.old)) }
        ensures covered { IfOk result (λ done. done ≡ true → below.new ≡ covered below.old top.old) }
        ensures emptied { IfOk result (λ done. done ≡ true → top.new.worths ≡ identities top.old.kinds) }
        ensures same { IfOk result (λ done. done ≡ false → self.new ≡ self.old) }
        ensures same_below { IfOk result (λ done. done ≡ false → below.new ≡ below.old) }
        ensures opened { OnErr result (self.new ≡ opening opened self.old) }
        ensures top_kinds { top.new.kinds ≡ top.old.kinds }
        ensures below_kinds { below.new.kinds ≡ below.old.kinds }
        ensures values { HaveValues top.old.kinds self.old.made
            → HaveValues top.old.kinds self.new.made }
    {
        match top.leaf(program, value) {
            Some(leaf) => self.record_leaf(alloc, opened, top, below, program, leaf),
            None => self.record_other(alloc, opened, top, below, value, program),
        }
    }

    /// The same of a layer that isn't one of most leaves of a program with two reducers.
    #[inline(always)]
    fn record_other<V: View>(
        &mut self,
        alloc: Global,
        opened: Opened,
        top: &mut Layer<V>,
        below: &mut Layer<V>,
        value: i64,
        program: &Checked,
    ) -> Result<bool, AllocError>
        requires kinds { top.old.kinds ≡ program.now.kinds }
        requires same_kinds { below.old.kinds ≡ top.old.kinds }
        requires monoids { All IsMonoid below.old.kinds }
        ensures closed { IfOk result (λ done. done ≡ true
            → self.new ≡ closing program.now.revisions top.old value (opening opened self.old)) }
        ensures covered { IfOk result (λ done. done ≡ true → below.new ≡ covered below.old top.old) }
        ensures emptied { IfOk result (λ done. done ≡ true → top.new.worths ≡ identities top.old.kinds) }
        ensures same { IfOk result (λ done. done ≡ false → self.new ≡ self.old) }
        ensures same_below { IfOk result (λ done. done ≡ false → below.new ≡ below.old) }
        ensures opened { OnErr result (self.new ≡ opening opened self.old) }
        ensures top_kinds { top.new.kinds ≡ top.old.kinds }
        ensures below_kinds { below.new.kinds ≡ below.old.kinds }
        ensures values { HaveValues top.old.kinds self.old.made
            → HaveValues top.old.kinds self.new.made }
    {
        match top.lone(program, value) {
            Some(lone) => self.record_lone(alloc, opened, top, below, program, lone),
            None => self.record_any(alloc, opened, top, below, value, program),
        }
    }

    /// The same of whatever layer.
    #[inline(never)]
    fn record_any<V: View>(
        &mut self,
        alloc: Global,
        opened: Opened,
        top: &mut Layer<V>,
        below: &mut Layer<V>,
        value: i64,
        program: &Checked,
    ) -> Result<bool, AllocError>
        requires kinds { top.old.kinds ≡ program.now.kinds }
        requires same_kinds { below.old.kinds ≡ top.old.kinds }
        requires monoids { All IsMonoid below.old.kinds }
        ensures closed { IfOk result (λ done. done ≡ true
            → self.new ≡ closing program.now.revisions top.old value (opening opened self.old)) }
        ensures covered { IfOk result (λ done. done ≡ true → below.new ≡ covered below.old top.old) }
        ensures emptied { IfOk result (λ done. done ≡ true → top.new.worths ≡ identities top.old.kinds) }
        ensures same { IfOk result (λ done. done ≡ false → self.new ≡ self.old) }
        ensures same_below { IfOk result (λ done. done ≡ false → below.new ≡ below.old) }
        ensures opened { OnErr result (self.new ≡ opening opened self.old) }
        ensures top_kinds { top.new.kinds ≡ top.old.kinds }
        ensures below_kinds { below.new.kinds ≡ below.old.kinds }
        ensures values { HaveValues top.old.kinds self.old.made
            → HaveValues top.old.kinds self.new.made }
    {
        if self.open(opened).is_err() {
            return Ok(false);
        }
        match self.close_any(alloc, top, below, value, program) {
            Ok(()) => Ok(true),
            Err(error) => Err(error),
        }
    }

    /// The same of whatever layer.
    #[inline(never)]
    fn close_any<V: View>(
        &mut self,
        alloc: Global,
        top: &mut Layer<V>,
        below: &mut Layer<V>,
        value: i64,
        program: &Checked,
    ) -> Result<(), AllocError>
        requires kinds { top.old.kinds ≡ program.now.kinds }
        requires same_kinds { below.old.kinds ≡ top.old.kinds }
        requires monoids { All IsMonoid below.old.kinds }
        ensures closed { OnOk result
            (self.new ≡ closing program.now.revisions top.old value self.old) }
        ensures covered { OnOk result (below.new ≡ covered below.old top.old) }
        ensures emptied { OnOk result (top.new.worths ≡ identities top.old.kinds) }
        ensures top_kinds { top.new.kinds ≡ top.old.kinds }
        ensures below_kinds { below.new.kinds ≡ below.old.kinds }
        ensures values { HaveValues top.old.kinds self.old.made
            → HaveValues top.old.kinds self.new.made }
        ensures unchanged { OnErr result (self.new ≡ self.old) }
        ensures top_kept { OnErr result (IsSameButWorths top.old top.new) }
        ensures below_kept { OnErr result (IsSameButWorths below.old below.new) }
        ensures product { OnErr result (HasSameProduct below.old top.old below.new top.new) }
    {
        self.made.make_room()?;
        let recording = top.recording(alloc, program, &mut self.last)?;
        if below.cover(top, recording.reads()).is_err() {
            let_go(recording);
            return Err(AllocError);
        }
        match self.opened.pop() {
            Some(opened) => self.made.push(recording.record(opened, value)),
            None => let_go(recording),
        }
        Ok(())
    }

    /// The same of a layer whose record is made of that.
    #[inline(always)]
    fn close_leaf<V: View>(
        &mut self,
        alloc: Global,
        top: &mut Layer<V>,
        below: &mut Layer<V>,
        program: &Checked,
        leaf: Leaf,
    ) -> Result<(), AllocError>
        requires few { length top.old.notes ≤ 2 }
        requires kept { kept_reads top.old ≡ top.old.notes }
        requires levels { leaf.levels ≡ suc top.old.deepest }
        requires worths { top.old.worths ≡ meaning (value_in leaf.first) ∷ meaning (value_in leaf.second) ∷ [] }
        requires touched { touched_from 0 top.old.kinds top.old.worths
            ≡ (0, meaning (value_in leaf.first)) ∷ (1, meaning (value_in leaf.second)) ∷ [] }
        requires kinds { top.old.kinds ≡ program.now.kinds }
        requires same_kinds { below.old.kinds ≡ top.old.kinds }
        requires monoids { All IsMonoid below.old.kinds }
        ensures closed { OnOk result
            (self.new ≡ closing program.now.revisions top.old leaf.value self.old) }
        ensures covered { OnOk result (below.new ≡ covered below.old top.old) }
        ensures emptied { OnOk result (top.new.worths ≡ identities top.old.kinds) }
        ensures top_kinds { top.new.kinds ≡ top.old.kinds }
        ensures below_kinds { below.new.kinds ≡ below.old.kinds }
        ensures values { HaveValues top.old.kinds self.old.made
            → HaveValues top.old.kinds self.new.made }
        ensures unchanged { OnErr result (self.new ≡ self.old) }
        ensures top_kept { OnErr result (IsSameButWorths top.old top.new) }
        ensures below_kept { OnErr result (IsSameButWorths below.old below.new) }
        ensures product { OnErr result (HasSameProduct below.old top.old below.new top.new) }
    {
        top.of_kinds();
        self.made.make_room()?;
        let entered = top.entries(alloc, program, &mut self.last)?;
        if below.cover_of_few(top, leaf.first, leaf.second).is_err() {
            let_go(entered);
            return Err(AllocError);
        }
        match self.opened.pop() {
            Some(opened) => {
                let found = top.notes.readings();
                self.made.push(record_of_two(opened, found, entered, leaf));
            }
            None => let_go(entered),
        }
        Ok(())
    }

    /// The same of an instance that isn't opened: it is recorded without that.
    #[inline(always)]
    fn record_leaf<V: View>(
        &mut self,
        alloc: Global,
        opened: Opened,
        top: &mut Layer<V>,
        below: &mut Layer<V>,
        program: &Checked,
        leaf: Leaf,
    ) -> Result<bool, AllocError>
        requires few { length top.old.notes ≤ 2 }
        requires kept { kept_reads top.old ≡ top.old.notes }
        requires levels { leaf.levels ≡ suc top.old.deepest }
        requires worths { top.old.worths ≡ meaning (value_in leaf.first) ∷ meaning (value_in leaf.second) ∷ [] }
        requires touched { touched_from 0 top.old.kinds top.old.worths
            ≡ (0, meaning (value_in leaf.first)) ∷ (1, meaning (value_in leaf.second)) ∷ [] }
        requires kinds { top.old.kinds ≡ program.now.kinds }
        requires same_kinds { below.old.kinds ≡ top.old.kinds }
        requires monoids { All IsMonoid below.old.kinds }
        ensures closed { IfOk result (λ done. done ≡ true
            → self.new ≡ closing program.now.revisions top.old leaf.value (opening opened self.old)) }
        ensures covered { IfOk result (λ done. done ≡ true → below.new ≡ covered below.old top.old) }
        ensures emptied { IfOk result (λ done. done ≡ true → top.new.worths ≡ identities top.old.kinds) }
        ensures same { IfOk result (λ done. done ≡ false → self.new ≡ self.old) }
        ensures same_below { IfOk result (λ done. done ≡ false → below.new ≡ below.old) }
        ensures opened { OnErr result (self.new ≡ opening opened self.old) }
        ensures top_kinds { top.new.kinds ≡ top.old.kinds }
        ensures below_kinds { below.new.kinds ≡ below.old.kinds }
        ensures values { HaveValues top.old.kinds self.old.made
            → HaveValues top.old.kinds self.new.made }
    {
        top.of_kinds();
        let Ok(executed) = one_more(self.executed) else {
            let_go(opened);
            return Ok(false);
        };
        if self.opened.reserve(1).is_err() {
            let_go(opened);
            return Ok(false);
        }
        if self.made.make_room().is_err() {
            let_go(opened);
            return Ok(false);
        }
        let Ok(entered) = top.entries(alloc, program, &mut self.last) else {
            let_go(opened);
            return Ok(false);
        };
        self.executed = executed;
        if below.cover_of_few(top, leaf.first, leaf.second).is_err() {
            let_go(entered);
            self.opened.push_reserved(opened);
            return Err(AllocError);
        }
        let found = top.notes.readings();
        self.made.push(record_of_two(opened, found, entered, leaf));
        Ok(true)
    }

    /// The same where the program has one reducer.
    #[inline(always)]
    fn record_lone<V: View>(
        &mut self,
        alloc: Global,
        opened: Opened,
        top: &mut Layer<V>,
        below: &mut Layer<V>,
        program: &Checked,
        lone: Lone,
    ) -> Result<bool, AllocError>
        requires few { length top.old.notes ≤ 2 }
        requires kept { kept_reads top.old ≡ top.old.notes }
        requires levels { lone.levels ≡ suc top.old.deepest }
        requires worths { top.old.worths ≡ meaning (value_in lone.gift) ∷ [] }
        requires touched { touched_from 0 top.old.kinds top.old.worths
            ≡ (0, meaning (value_in lone.gift)) ∷ [] }
        requires kinds { top.old.kinds ≡ program.now.kinds }
        requires same_kinds { below.old.kinds ≡ top.old.kinds }
        requires monoids { All IsMonoid below.old.kinds }
        ensures closed { IfOk result (λ done. done ≡ true
            → self.new ≡ closing program.now.revisions top.old lone.value (opening opened self.old)) }
        ensures covered { IfOk result (λ done. done ≡ true → below.new ≡ covered below.old top.old) }
        ensures emptied { IfOk result (λ done. done ≡ true → top.new.worths ≡ identities top.old.kinds) }
        ensures same { IfOk result (λ done. done ≡ false → self.new ≡ self.old) }
        ensures same_below { IfOk result (λ done. done ≡ false → below.new ≡ below.old) }
        ensures opened { OnErr result (self.new ≡ opening opened self.old) }
        ensures top_kinds { top.new.kinds ≡ top.old.kinds }
        ensures below_kinds { below.new.kinds ≡ below.old.kinds }
        ensures values { HaveValues top.old.kinds self.old.made
            → HaveValues top.old.kinds self.new.made }
    {
        top.of_kinds();
        let Ok(executed) = one_more(self.executed) else {
            let_go(opened);
            return Ok(false);
        };
        if self.opened.reserve(1).is_err() {
            let_go(opened);
            return Ok(false);
        }
        if self.made.make_room().is_err() {
            let_go(opened);
            return Ok(false);
        }
        let Ok(entered) = top.entries(alloc, program, &mut self.last) else {
            let_go(opened);
            return Ok(false);
        };
        self.executed = executed;
        if below.cover_of_one(top, lone.gift).is_err() {
            let_go(entered);
            self.opened.push_reserved(opened);
            return Err(AllocError);
        }
        let found = top.notes.readings();
        self.made.push(record_of_one(opened, found, entered, lone));
        Ok(true)
    }

    /// Puts the right strand's tally behind this one, and its layer behind this one's. Where memory is refused, some reducers
    /// have moved to the left and the others have not, and nothing else has changed.
    pub fn join<V: View>(
        &mut self,
        right: &mut Tally,
        layer: &mut Layer<V>,
        behind: &mut Layer<V>,
    ) -> Result<(), AllocError>
        requires kinds { layer.old.kinds ≡ behind.old.kinds }
        requires monoids { All IsMonoid layer.old.kinds }
        ensures joined { OnOk result (self.new ≡ tallies_joined self.old right.old) }
        ensures multiplied { OnOk result (layer.new ≡ multiplied layer.old behind.old) }
        ensures left_kinds { layer.new.kinds ≡ layer.old.kinds }
        ensures right_kinds { behind.new.kinds ≡ behind.old.kinds }
        ensures values { BothHaveValues self.old.made right.old.made self.new.made }
        ensures left_unchanged { OnErr result (self.new ≡ self.old) }
        ensures right_unchanged { OnErr result (right.new ≡ right.old) }
        ensures left_kept { OnErr result (IsSameButWorths layer.old layer.new) }
        ensures right_kept { OnErr result (IsSameButWorths behind.old behind.new) }
        ensures product { OnErr result (HasSameProduct layer.old behind.old layer.new behind.new) }
    {
        let counts = counts_of(self, right)?;
        let come = self.made.make_room_for(&right.made)?;
        layer.multiply(behind)?;
        self.made.append(&mut right.made, come);
        self.executed = counts.executed;
        self.reused = counts.reused;
        self.unrecorded = counts.unrecorded;
        Ok(())
    }

    /// Puts the right strand's tally behind this one, where no views are folded; refused for want of memory, or where a count
    /// is past its limit.
    pub fn take_over(&mut self, right: &mut Tally) -> Result<(), AllocError>
        ensures joined { OnOk result (self.new ≡ tallies_joined self.old right.old) }
        ensures values { BothHaveValues self.old.made right.old.made self.new.made }
        ensures left_unchanged { OnErr result (self.new ≡ self.old) }
        ensures right_unchanged { OnErr result (right.new ≡ right.old) }
    {
        let counts = counts_of(self, right)?;
        let come = self.made.make_room_for(&right.made)?;
        self.made.append(&mut right.made, come);
        self.executed = counts.executed;
        self.reused = counts.reused;
        self.unrecorded = counts.unrecorded;
        Ok(())
    }

    /// How many instances were executed.
    pub fn executed(&self) -> u64
        ensures executed { result ≡ self.now.executed }
    {
        self.executed
    }

    /// How many instances a record answered.
    pub fn reused(&self) -> u64
        ensures reused { result ≡ self.now.reused }
    {
        self.reused
    }

    /// How many instances were executed without a layer.
    pub fn unrecorded(&self) -> u64
        ensures unrecorded { result ≡ self.now.unrecorded }
    {
        self.unrecorded
    }

    /// The records made. It takes no memory.
    pub fn into_records(self) -> Vec<Record>
        ensures made { result.items ≡ self.made }
    {
        self.made.into_list()
    }
}
