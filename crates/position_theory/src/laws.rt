//! What the definitions of this crate are for those of `meaning`, each as the contract of a function that does nothing.
ghost use Rattle.std.specs.Prelude.{◌≡◌, ◌∷◌, ℕ, Bool, List};
ghost use Rattle.meaning.specs.Statements.{beginning};
ghost use Rattle.linked_program.specs.Initials.{PlainInitial, AreUpdatesBy};
ghost use Rattle.linked_program.specs.Linked.{main_number};
ghost use Rattle.positions.specs.Setting.{Setting, IsLinked, HasItsTables, HasItsRecords};
ghost use Rattle.positions.specs.Strands.{PlainStrand, PlainTask};
ghost use Rattle.positions.specs.Nesting.{KeepsNesting};
ghost use Rattle.positions.specs.Advance.{advanced, pause_of};
ghost use Rattle.positions.specs.Moves.{inlined, detached, attached, resumed, first_strand, stolen, joined, lowest_alone, at_update};
ghost use Rattle.positions.specs.Simulation.{IsSmallStep, KitsFollow, KeepsLayers, IsPause, IsStepTaken, IsFirst, IsInlined, IsDetached};
ghost use Rattle.positions.specs.Simulation.{IsAttached, IsResumed, IsStolen, IsJoined, IsAlone, IsUpdateNext};

use positions::phase::Paused;

/// A small step by numbers is that of the definitions, where the codes and kinds are those of the program, the tables have
/// the names that it was linked by, the records stand for those kept by name, and those made by then hold now; and it takes and
/// gives back as many kits. At the point at which a strand is said to be there is no small step, and where it is said to go on
/// there is one. The next step is said to be an update where it is one.
pub fn steps_are_the_definitions()
    ensures step { (setting : Setting) → HasItsTables setting → IsLinked setting
        → HasItsRecords setting
        → (kit : Bool) (s : PlainStrand) → IsSmallStep setting kit s (advanced setting kit s) }
    ensures kits { (setting : Setting) → HasItsTables setting → IsLinked setting
        → HasItsRecords setting
        → (kit : Bool) (s : PlainStrand) → KitsFollow setting kit s (advanced setting kit s) }
    ensures pause { (setting : Setting) (s : PlainStrand)
        → IsPause setting (pause_of setting.codes s) s }
    ensures working { (setting : Setting) (s : PlainStrand)
        → pause_of setting.codes s ≡ Paused.Working → IsStepTaken setting s }
    ensures update { (setting : Setting) (s : PlainStrand)
        → IsUpdateNext setting s (at_update setting.codes s) }
{}

/// Each small step keeps one layer more than there are open memo instances, as long as there is no fault; and it keeps that all of
/// these but one that has just been entered have other instances inside, so that some memo procedure enters others.
pub fn steps_keep_layers()
    ensures layers { (setting : Setting) (kit : Bool) (s : PlainStrand)
        → KeepsLayers s (advanced setting kit s) }
    ensures nesting { (setting : Setting) (kit : Bool) (s : PlainStrand)
        → KeepsNesting setting.codes s (advanced setting kit s) }
{}

/// The strands that begin are those of the definitions: main's, for the initial values of the program, and that of a continuation
/// which was stolen.
pub fn beginnings_are_the_definitions()
    ensures first { (setting : Setting) → IsLinked setting
        → (initials : List PlainInitial)
        → AreUpdatesBy setting.kinds initials (beginning setting.program.tree)
        → (main : ℕ) → main ≡ main_number setting.program.tree
        → IsFirst setting (first_strand setting.codes setting.kinds initials main) }
    ensures stolen { (setting : Setting) → IsLinked setting
        → (task : PlainTask) → IsStolen setting task (stolen setting.codes setting.kinds task) }
{}

/// What is taken out of a strand and put back is what the definitions take and put, and two neighbours become the strand that
/// they say.
pub fn moves_are_the_definitions()
    ensures inlined { (setting : Setting) (s : PlainStrand) → IsInlined setting s (inlined s) }
    ensures detached { (setting : Setting) (s : PlainStrand) (task : PlainTask)
        → task.place ≡ s.path → s.below ≡ task.top ∷ task.below
        → IsDetached setting s (detached s) task }
    ensures attached { (setting : Setting) (task : PlainTask) (s : PlainStrand)
        → IsAttached setting task s (attached task s) }
    ensures resumed { (setting : Setting) (task : PlainTask) (s : PlainStrand)
        → IsResumed setting task s (resumed task s) }
    ensures joined { (setting : Setting) (l r : PlainStrand) → IsJoined setting l r (joined l r) }
    ensures alone { (setting : Setting) (s : PlainStrand) → IsAlone setting s (lowest_alone s) }
{}
