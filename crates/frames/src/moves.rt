// Strands that begin, and what is taken out of a strand and put back.
ghost use Rattle.std.specs.Prelude.{◌≡◌, ◌∷◌, [], List, IfOk, IfErr, OnOk, OnErr};
ghost use Rattle.meaning.specs.Tables.{Tables};
ghost use Rattle.meaning.specs.Records.{Kept};
ghost use Rattle.record_theory.specs.Record.{PlainRecord};
ghost use Rattle.positions.specs.Setting.{Setting, setting_with};
ghost use Rattle.positions.specs.Simulation.{IsFirst, IsStolen, IsInlined, IsDetached, IsAttached, IsResumed, IsUpdateNext};
ghost use Rattle.positions.specs.Moves.{first_strand, stolen, inlined, detached, attached, returned_of, resumed, at_update};
ghost use Rattle.strand_moves.specs.Bare.{IsBare};

use crate::strand::Strand;
use linked_program::checked::Checked;
use positions::phase::Phase;
use std::alloc::{AllocError, Global};
use strand_moves::bare::bare;
use strand_moves::moves;
use strand_moves::moves::{
    call_child, expect_records, go_on_with, put_back, take_out, updates_next,
};
use strand_moves::task::Task;
use view_pool::{Kit, View};

impl<V: View> Strand<V> {
    /// The strand of a run's beginning, in which `main` is to be entered. Want of memory is the only error; it hands the kit
    /// back.
    pub fn first(
        alloc: Global,
        program: &Checked,
        kit: Kit<V>,
    ) -> Result<Strand<V>, (AllocError, Kit<V>)>
        requires kinds { kit ≡ program.now.kinds }
        ensures first { IfOk result (λ strand.
            strand ≡ first_strand program.now.codes kit program.now.initials program.now.main) }
        ensures kinds { IfOk result (λ strand. strand.layer.kinds ≡ kit) }
        ensures beginning { (tables : Tables) (kept : List Kept) (records : List PlainRecord)
            → IfOk result (λ strand.
            IsFirst (setting_with program.now tables kept records) strand) }
        ensures handed_back { IfErr result (λ e. e.1 ≡ kit) }
    {
        // What the program's type keeps: so the strand is the one that its tree begins with.
        program.linked();
        program.beginning();
        match moves::first(alloc, program, kit) {
            Ok(machine) => Ok(Strand { machine }),
            Err(refused) => Err(refused),
        }
    }

    /// A strand that holds nothing, in which that of a stolen continuation may begin. It takes no memory.
    pub fn bare(alloc: Global) -> Strand<V>
        ensures bare { IsBare result }
    {
        let machine = bare(alloc);
        Strand { machine }
    }

    /// In a strand that holds nothing that of a stolen continuation begins, behind the spawned child. Want of memory is the only error;
    /// it hands the continuation and the kit back, and the strand holds nothing still.
    #[inline(always)]
    pub fn begin_stolen(
        &mut self,
        program: &Checked,
        task: Task,
        kit: Kit<V>,
    ) -> Result<(), (AllocError, Task, Kit<V>)>
        requires bare { IsBare self.old }
        requires kinds { kit ≡ program.now.kinds }
        ensures stolen { OnOk result (self.new ≡ stolen program.now.codes kit task) }
        ensures definition { (tables : Tables) (kept : List Kept) (records : List PlainRecord)
            → OnOk result (IsStolen (setting_with program.now tables kept records) task self.new) }
        ensures bare { OnErr result (IsBare self.new) }
        ensures task_back { IfErr result (λ e. e.1 ≡ task) }
        ensures kit_back { IfErr result (λ e. e.2 ≡ kit) }
    {
        // What the program's type keeps: so the strand is the one that a theft gives by its tree.
        program.linked();
        moves::begin_stolen(&mut self.machine, program, task, kit)
    }

    /// The strand of a stolen continuation, which begins behind the spawned child. Want of memory is the only error; it hands the
    /// continuation and the kit back.
    pub fn stolen(
        alloc: Global,
        program: &Checked,
        task: Task,
        kit: Kit<V>,
    ) -> Result<Strand<V>, (AllocError, Task, Kit<V>)>
        requires kinds { kit ≡ program.now.kinds }
        ensures stolen { IfOk result (λ strand. strand ≡ stolen program.now.codes kit task) }
        ensures definition { (tables : Tables) (kept : List Kept) (records : List PlainRecord)
            → IfOk result (λ strand.
            IsStolen (setting_with program.now tables kept records) task strand) }
        ensures task_back { IfErr result (λ e. e.1 ≡ task) }
        ensures kit_back { IfErr result (λ e. e.2 ≡ kit) }
    {
        let mut strand = Strand::bare(alloc);
        match strand.begin_stolen(program, task, kit) {
            Ok(()) => Ok(strand),
            Err(refused) => Err(refused),
        }
    }

    /// Records may come of each iteration of a loop's second half with which a stolen strand begins, but no more than `most`: room for all
    /// of them is made as they come. It takes no memory.
    pub fn expect_records(&mut self, program: &Checked, most: u32)
        ensures same { self.new ≡ self.old }
    {
        expect_records(&mut self.machine, program, most);
    }

    /// At a spawn: takes out the parent and what waits below it, and goes on with the child alone, which is to be entered. It
    /// takes no memory.
    pub fn detach(&mut self, alloc: Global) -> Task
        requires at_spawn { self.old.phase ≡ Phase.AtSpawn }
        ensures task { self.old.below ≡ result.top ∷ result.below }
        ensures place { result.place ≡ self.old.path }
        ensures child { self.new ≡ detached self.old }
        ensures definition { (setting : Setting) → IsDetached setting self.old self.new result }
    {
        take_out(&mut self.machine, alloc)
    }

    /// Puts a continuation back, so that the child is a call. It takes no memory.
    pub fn attach(&mut self, task: Task)
        requires bare { self.old.below ≡ [] }
        requires entering { self.old.phase ≡ Phase.Entering }
        ensures called { self.new ≡ attached task self.old }
        ensures definition { (setting : Setting) → IsAttached setting task self.old self.new }
    {
        put_back(&mut self.machine, task);
    }

    /// At a spawn: makes the child a call, which is to be entered. It takes no memory.
    pub fn inline(&mut self)
        requires at_spawn { self.old.phase ≡ Phase.AtSpawn }
        ensures called { self.new ≡ inlined self.old }
        ensures definition { (setting : Setting) → IsInlined setting self.old self.new }
    {
        call_child(&mut self.machine);
    }

    /// The value of the spawned child, where it has returned.
    pub fn returned(&self) -> Option<i64>
        ensures returned { result ≡ returned_of self.now }
    {
        moves::returned(&self.machine)
    }

    /// Where the spawned child has returned: goes on with a continuation; elsewhere nothing changes. It takes no memory.
    pub fn resume(&mut self, task: Task)
        ensures resumed { self.new ≡ resumed task self.old }
        ensures definition { (setting : Setting) → IsResumed setting task self.old self.new }
    {
        go_on_with(&mut self.machine, task);
    }

    /// Whether the next small step is that of an update.
    pub fn at_update(&self, program: &Checked) -> bool
        ensures update { result ≡ at_update program.now.codes self.now }
        ensures next { (tables : Tables) (kept : List Kept) (records : List PlainRecord)
            → IsUpdateNext (setting_with program.now tables kept records) self.now result }
    {
        updates_next(&self.machine, program)
    }
}
