//! The theory of runs on several workers: what follows from the definitions alone.
#![tactic(auto)]

ghost use Rattle.meaning.specs.Records.{Revised};
ghost use Rattle.meaning.specs.Schedules.{Memory};
ghost use Rattle.meaning.specs.Tables.{Tables};
ghost use Rattle.strand_theory.specs.Ready.{IsReady};
ghost use Rattle.run_theory.specs.Theorems.{StepsStayRight, PathsAreRight, RightRunsAnswer, PathsAnswer, StepsKeepKits, PathsKeepKits};
ghost use Rattle.run_theory.specs.Theorems.{EndsFreeKits, PathsKeepHistory, NeighboursFold, PathsMakeNews, PathsOwnLayers};
ghost use Rattle.run_theory.specs.Theorems.{PathsCountNeeded, PathsLeaveNothing, RestBegins, PathsKeepRest, RestEnds, OverRunsAnswer};
ghost use Rattle.run_theory.specs.Theorems.{FrontRunsAnswer};
ghost use Rattle.trail_theory.specs.OpenLayers.{IsNumbered};
ghost use Rattle.run_theory.specs.Recorded.{PathsRecordExecutions};
ghost use Rattle.run_theory.specs.Progress.{HoldersGoOn, LaidRunsGoOn, SomeStepIsThere};
ghost use Rattle.run_theory.specs.UnflaggedRuns.{FlagsAreTold, PathsReadByOne, RunsBy};
ghost use Rattle.trail_theory.specs.OwnLayers.{is_top, is_top_by_length};

/// Each step of a run on several workers keeps it right.
pub fn steps_stay_right()
    ensures right { (program : Revised) (tables : Tables) (memory : Memory)
        → IsReady program tables memory → StepsStayRight program tables memory }
{}

/// A run on several workers is right after any steps, whoever takes them, in whatever order.
pub fn paths_are_right()
    ensures right { (program : Revised) (tables : Tables) (memory : Memory)
        → IsReady program tables memory → PathsAreRight program tables memory }
{}

/// A right run that has come to its end has the elision's answer from scratch: its value and every reducer's, or its first fault.
pub fn right_runs_answer()
    ensures answer { (program : Revised) (tables : Tables) (memory : Memory)
        → IsReady program tables memory → RightRunsAnswer program tables memory }
{}

/// Whatever steps several workers take, a run that comes to its end answers the elision from scratch.
pub fn paths_answer()
    ensures answer { (program : Revised) (tables : Tables) (memory : Memory)
        → IsReady program tables memory → PathsAnswer program tables memory }
{}

/// Each step of a right run keeps the number of kits: the free ones, and one for each layer of each strand.
pub fn steps_keep_kits()
    ensures kept { (program : Revised) (tables : Tables) (memory : Memory)
        → IsReady program tables memory → StepsKeepKits program tables memory }
{}

/// After any steps the free kits and those of the strands' layers are as many as the run began with.
pub fn paths_keep_kits()
    ensures kept { (program : Revised) (tables : Tables) (memory : Memory)
        → IsReady program tables memory → PathsKeepKits program tables memory }
{}

/// Where a run has come to its end, all kits are free again but the one that has the answer.
pub fn ends_free_kits()
    ensures free { (program : Revised) (tables : Tables) (memory : Memory)
        → IsReady program tables memory → EndsFreeKits program tables memory }
{}

/// After any steps the history that was kept is legal, and gives the list of the strands with their states.
pub fn paths_keep_history()
    ensures kept { (program : Revised) (tables : Tables) (memory : Memory)
        → IsReady program tables memory → PathsKeepHistory program tables memory }
{}

/// After any steps, neighbours of which the left one is over or has a fault and the right one waits may be folded by any worker
/// that holds nothing: no name that waits stands against it.
pub fn neighbours_fold()
    ensures folds { (program : Revised) (tables : Tables) (memory : Memory)
        → IsReady program tables memory → NeighboursFold program tables memory }
{}

/// After any steps each record that a strand has made is sound, holds now, and fits at the least depth.
pub fn paths_make_news()
    ensures news { (program : Revised) (tables : Tables) (memory : Memory)
        → IsReady program tables memory → IsNumbered program → PathsMakeNews program tables memory }
{}

/// After any steps the open layers of each strand without a fault are those of instances on the way to its topmost one, each inside the next.
pub fn paths_own_layers()
    ensures own { (program : Revised) (tables : Tables) (memory : Memory)
        → IsReady program tables memory → IsNumbered program
        → PathsOwnLayers program tables memory }
{}

/// Where a run has come to its end without a fault, its tally has counted the needed instances: as executed those that no valid
/// record answers, as reused the others.
pub fn paths_count_needed()
    ensures counted { (program : Revised) (tables : Tables) (memory : Memory)
        → IsReady program tables memory → IsNumbered program
        → PathsCountNeeded program tables memory }
{}

/// Where a run has come to its end without a fault, its new records have the names and arguments of the executed instances,
/// each as often, but for as many as its tally counts as unrecorded.
pub fn paths_record_executions()
    ensures recorded { (program : Revised) (tables : Tables) (memory : Memory)
        → IsReady program tables memory → IsNumbered program
        → PathsRecordExecutions program tables memory }
{}

/// Where such a run left no execution unrecorded, the next one, with the new records put in and no edit between, has nothing to execute.
pub fn paths_leave_nothing()
    ensures none { (program : Revised) (tables : Tables) (memory : Memory)
        → IsReady program tables memory → IsNumbered program
        → PathsLeaveNothing program tables memory }
{}

/// Before the first step the elision from scratch is left to do.
pub fn rest_begins()
    ensures begins { (program : Revised) (tables : Tables) (memory : Memory)
        → IsReady program tables memory → RestBegins program tables memory }
{}

/// After any steps of several workers, what is left to do of the run, done serially, is the elision from scratch.
pub fn paths_keep_rest()
    ensures kept { (program : Revised) (tables : Tables) (memory : Memory)
        → IsReady program tables memory → PathsKeepRest program tables memory }
{}

/// Of a right run that has come to its end nothing is left but its answer.
pub fn rest_ends()
    ensures ends { (program : Revised) (tables : Tables) (memory : Memory)
        → IsReady program tables memory → RestEnds program tables memory }
{}

/// Of a right run whose strands are over, up to the first that has a fault, the elision's answer from scratch is left.
pub fn over_runs_answer()
    ensures answer { (program : Revised) (tables : Tables) (memory : Memory)
        → IsReady program tables memory → OverRunsAnswer program tables memory }
{}

/// Of a right run whose first strand is at work, with no reducer to read in what is left of it, and whose other strands are
/// over, up to the first that has a fault, the elision's answer from scratch is left.
pub fn front_runs_answer()
    ensures answer { (program : Revised) (tables : Tables) (memory : Memory)
        → IsReady program tables memory → FrontRunsAnswer program tables memory }
{}

/// After any steps a worker that holds a strand can go on with it, by work, a push, a pop or by laying it down.
pub fn holders_go_on()
    ensures goes { (program : Revised) (tables : Tables) (memory : Memory)
        → IsReady program tables memory → HoldersGoOn program tables memory }
{}

/// After any steps, where no strand is held, a run has come to its end, or each worker may fold two neighbours.
pub fn laid_runs_go_on()
    ensures goes { (program : Revised) (tables : Tables) (memory : Memory)
        → IsReady program tables memory → LaidRunsGoOn program tables memory }
{}

/// No run gets stuck: after any steps it has come to its end, or a worker that holds a strand goes on with it, or one that
/// holds nothing folds, whichever that is.
pub fn some_step_is_there()
    ensures there { (program : Revised) (tables : Tables) (memory : Memory)
        → IsReady program tables memory → SomeStepIsThere program tables memory }
{}

/// After any steps, an instance that returns, and is not at its strand's entry, has the flag that says whether the top layer has its name.
pub fn flags_are_told()
    ensures told { (program : Revised) (tables : Tables) (memory : Memory)
        → IsReady program tables memory → IsNumbered program → FlagsAreTold program tables memory }
{}

/// After any steps, a strand that stands at a read of a reducer has one layer: what it reads is the bottom layer's value.
pub fn paths_read_by_one_layer()
    ensures one { (program : Revised) (tables : Tables) (memory : Memory)
        → IsReady program tables memory → IsNumbered program
        → PathsReadByOne program tables memory }
{}

/// A run whose instances carry no flag, and whose layers close where the top one has the name of the instance that returns, or
/// a name as long, takes the same steps and comes to the same states, flags aside, and to the same end.
pub fn runs_need_no_flags()
    ensures by_name { (program : Revised) (tables : Tables) (memory : Memory)
        → IsReady program tables memory → IsNumbered program → RunsBy program tables memory is_top }
    ensures by_length { (program : Revised) (tables : Tables) (memory : Memory)
        → IsReady program tables memory → IsNumbered program
        → RunsBy program tables memory is_top_by_length }
{}
