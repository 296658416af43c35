//! What lies in the box of a strand.
ghost use Rattle.std.specs.Prelude.{◌≡◌, [], false, true, List, All, IfOk, IfErr, OnOk, OnErr};
ghost use Rattle.monoid_laws.specs.Kinds.{IsMonoid, operate_all};
ghost use Rattle.meaning.specs.Tables.{Tables};
ghost use Rattle.meaning.specs.Records.{Kept};
ghost use Rattle.record_theory.specs.Record.{PlainRecord};
ghost use Rattle.positions.specs.Moves.{stolen, joined};
ghost use Rattle.positions.specs.Setting.{setting_with};
ghost use Rattle.positions.specs.Simulation.{IsStolen};
ghost use Rattle.positions.specs.Tallies.{no_tally};
ghost use Rattle.strand_moves.specs.Bare.{IsBare};
ghost use Rattle.strand_moves.specs.Joins.{IsDone, with_worths};

use frames::strand::Strand;
use linked_program::checked::Checked;
use positions::start::Start;
use std::alloc::{AllocError, Global};
use strand_moves::task::Task;
use view_pool::{Kit, View};

/// What lies in the box of a strand: the strand, where it begins, and whether memory was refused within one of its small steps.
#[derive(Drop)]
pub(crate) struct Body<V: View> {
    pub(crate) strand: Strand<V>,
    pub(crate) start: Start,
    pub(crate) failed: bool,
}

impl<V: View> Body<V> {
    /// A strand in a box of its own, or its kit where memory is refused for that.
    pub(crate) fn boxed(
        alloc: Global,
        strand: Strand<V>,
        start: Start,
    ) -> Result<Box<Body<V>>, (AllocError, Kit<V>)>
        ensures strand { IfOk result (λ body. body.value.strand ≡ strand) }
        ensures start { IfOk result (λ body. body.value.start ≡ start) }
        ensures going { IfOk result (λ body. body.value.failed ≡ false) }
        ensures kit { IfErr result (λ e. e.1 ≡ strand.layer.kinds) }
    {
        let body = Body {
            strand,
            start,
            failed: false,
        };
        match Box::new(alloc, body) {
            Ok(body) => Ok(body),
            Err(refused) => {
                let Body { strand, .. } = refused.value;
                Err((AllocError, strand.close()))
            }
        }
    }

    /// Where a strand lies that holds nothing that of a stolen continuation begins. Want of memory is the only error; it hands the
    /// continuation and the kit back.
    #[inline(always)]
    pub(crate) fn begin_stolen(
        &mut self,
        program: &Checked,
        start: Start,
        task: Task,
        kit: Kit<V>,
    ) -> Result<(), (AllocError, Task, Kit<V>)>
        requires bare { IsBare self.old.strand }
        requires kinds { kit ≡ program.now.kinds }
        ensures stolen { OnOk result (self.new.strand ≡ stolen program.now.codes kit task) }
        ensures definition { (tables : Tables) (kept : List Kept) (records : List PlainRecord)
            → OnOk result (IsStolen (setting_with program.now tables kept records) task self.new.strand) }
        ensures start { OnOk result (self.new.start ≡ start) }
        ensures going { OnOk result (self.new.failed ≡ false) }
        ensures task_back { IfErr result (λ e. e.1 ≡ task) }
        ensures kit_back { IfErr result (λ e. e.2 ≡ kit) }
    {
        match self.strand.begin_stolen(program, task, kit) {
            Ok(()) => {
                self.start = start;
                self.failed = false;
                Ok(())
            }
            Err(refused) => Err(refused),
        }
    }

    /// Puts the right neighbour behind the strand, which begins there; the right one is to be let go. Where memory is refused both have
    /// failed.
    pub(crate) fn join_there(&mut self, start: Start, over: &mut Body<V>) -> Result<(), AllocError>
        requires done { IsDone self.old.strand.phase }
        requires one_layer { over.old.strand.lower ≡ [] }
        requires kinds { self.old.strand.layer.kinds ≡ over.old.strand.layer.kinds }
        requires monoids { All IsMonoid self.old.strand.layer.kinds }
        ensures joined { OnOk result (self.new.strand ≡ joined self.old.strand over.old.strand) }
        ensures begins { OnOk result (self.new.start ≡ start) }
        ensures going { OnOk result (self.new.failed ≡ false) }
        ensures failed { OnErr result (self.new.failed ≡ true) }
        ensures over { over.new.failed ≡ true }
        ensures kinds { over.new.strand.layer.kinds ≡ over.old.strand.layer.kinds }
        ensures bare { OnOk result (over.new.strand.lower ≡ []) }
        ensures uncounted { OnOk result (over.new.strand.tally ≡ no_tally) }
        ensures left_kept { OnErr result
            (self.new.strand ≡ with_worths self.new.strand.layer.worths self.old.strand) }
        ensures right_kept { OnErr result
            (over.new.strand ≡ with_worths over.new.strand.layer.worths over.old.strand) }
        ensures product { OnErr result
            (operate_all self.old.strand.layer.kinds self.new.strand.layer.worths over.new.strand.layer.worths
            ≡ operate_all self.old.strand.layer.kinds self.old.strand.layer.worths over.old.strand.layer.worths) }
    {
        over.failed = true;
        match self.strand.join_there(&mut over.strand) {
            Ok(()) => {
                self.start = start;
                self.failed = false;
                Ok(())
            }
            Err(error) => {
                self.failed = true;
                Err(error)
            }
        }
    }
}
