//! The theory of the serial trail and of strands: what follows from the definitions alone.
#![tactic(auto)]

ghost use Rattle.std.specs.Prelude.{ℕ, List};
ghost use Rattle.meaning.specs.Tree.{Tree};
ghost use Rattle.meaning.specs.Outcome.{Accumulators};
ghost use Rattle.meaning.specs.Records.{IsSound, Kept, Revised};
ghost use Rattle.meaning.specs.SmallStep.{Lookup};
ghost use Rattle.meaning.specs.Tables.{Tables};
ghost use Rattle.meaning.specs.Trail.{Look, sight_of, trail_at};
ghost use Rattle.trail_theory.specs.AddingUp.{TalliesAddUp};
ghost use Rattle.trail_theory.specs.Calm.{CalmStays};
ghost use Rattle.trail_theory.specs.Counts.{MarksAreNeeded, NothingNeeded};
ghost use Rattle.trail_theory.specs.Defines.{DefinesKeep};
ghost use Rattle.trail_theory.specs.KeptRecords.{ActsByContribution, CommitsStaySound, RecordsStaySound, ValidAnswers};
ghost use Rattle.trail_theory.specs.MadeRecords.{AnswersBySound, IsLater, IsMade, RecordedBySound};
ghost use Rattle.trail_theory.specs.OpenLayers.{IsNumbered};
ghost use Rattle.trail_theory.specs.Order.{Every, LeavesInOrder};
ghost use Rattle.trail_theory.specs.OwnLayers.{LayersStayOwn, OpenHasNotLeft, OwnClosesItsOwn, OwnEntryHasOneLayer, OwnMainHasOneLayer};
ghost use Rattle.trail_theory.specs.OwnLayers.{OwnReadHasOneLayer, OwnFolds, OwnLayersCount, FlagsAreNames};
ghost use Rattle.trail_theory.specs.ReadsAtEnd.{KeepsRules, MainIsAlone, ReadsAtMainsEnd};
ghost use Rattle.trail_theory.specs.Ready.{StepsReady};
ghost use Rattle.trail_theory.specs.Right.{LookupIsSound, RecordedAreSound, StretchesMultiply};
ghost use Rattle.trail_theory.specs.TalliedTheorems.{ClosesItsOwn, EndCountsNeeded, EndLeavesNone, EntryHasOneLayer, LayersStayOwed};
ghost use Rattle.trail_theory.specs.TalliedTheorems.{NoneAfterEach, ReadHasOneLayer, RerunExecutesNone, TalliedStays};
ghost use Rattle.trail_theory.specs.Theorems.{ElisionIsTrail, OthersAreTrail, MainIsTrail, RecordsAreSound, RecordedRecordsAreSound};
ghost use Rattle.trail_theory.specs.Theorems.{FirstIsRight, AdvanceStaysRight, AdvanceReadingStaysRight, AdvanceByProductStaysRight};
ghost use Rattle.trail_theory.specs.Theorems.{ReadsStandAtRoot, ReadsSeeTheEnd, InlineStaysRight, DetachStaysRight, ContinuationIsRight};
ghost use Rattle.trail_theory.specs.Theorems.{StolenIsRight, PopStaysRight, JoinStaysRight, EndsWithElision, FaultsWithElision};
ghost use Rattle.meaning.specs.Fitting.{ProgramFits};
ghost use Rattle.trail_theory.specs.Typed.{HasMonoids, IsTyped, SightFits, TablesFit, kinds_of};
ghost use Rattle.trail_theory.specs.Unflagged.{FlagsAreNoMatter, UnflaggedStaysOwn};
ghost use Rattle.trail_theory.specs.Waiting.{UsesNoWaitingName, HasNoReads};

/// On the trail each instance is left before those whose names come later: children before their parent, earlier children before later ones.
pub fn trail_is_in_order()
    ensures order { (program : Tree) (tables : Tables) (sight : Accumulators) (look : Look)
        → LeavesInOrder (trail_at program tables sight look) }
{}

/// Where no procedure reads a reducer, an instance's elision is its stretch of the trail: the same number and events, or the same fault.
pub fn elision_is_trail()
    ensures same { (program : Tree) (tables : Tables) (sight : Accumulators) → HasNoReads program
        → ElisionIsTrail program tables sight }
{}

/// A program that reads no reducer, whose main nothing enters and nothing records, keeps the rule on reads.
pub fn programs_without_reads_keep_the_rule()
    ensures kept { (program : Tree) → HasNoReads program → MainIsAlone program
        → ReadsAtMainsEnd program }
{}

/// Where main alone reads reducers, at its end, the elision of every other procedure is its stretch of the trail, whatever a read sees.
pub fn others_are_trail()
    ensures same { (program : Tree) (tables : Tables) (sight : Accumulators)
        → ReadsAtMainsEnd program → OthersAreTrail program tables sight }
{}

/// Where main alone reads reducers, at its end, main's elision from scratch is the trail behind the updates by the initial
/// values, on which a read sees what the elision has in the end.
pub fn main_is_trail()
    ensures same { (program : Tree) (tables : Tables) → ReadsAtMainsEnd program
        → MainIsTrail program tables (sight_of program tables) }
{}

/// Where main alone reads reducers, at its end, records of recorded procedures that say what the elision of their keys gives
/// answer only with the runs that they stand for.
pub fn recorded_records_are_sound()
    ensures sound { (program : Tree) (tables : Tables) (sight : Accumulators) (lookup : Lookup)
        → ReadsAtMainsEnd program → RecordedRecordsAreSound program tables sight lookup }
{}

/// Where main alone reads reducers, at its end, records of recorded procedures that are sound, hold now and fit below their
/// depth answer only with the runs that they stand for.
pub fn valid_recorded_are_sound()
    ensures sound { (program : Revised) (tables : Tables) (sight : Accumulators) (lookup : Lookup)
        → ReadsAtMainsEnd program.tree → RecordedBySound program tables lookup
        → RecordedAreSound program.tree tables sight lookup }
{}

/// Where main alone reads reducers, at its end, and sees there what the elision has in the end, a right strand of main that is
/// over has the elision's answer from scratch.
pub fn ends_with_reads()
    ensures answer { (program : Tree) (tables : Tables) (lookup : Lookup) → ReadsAtMainsEnd program
        → EndsWithElision program tables (sight_of program tables) lookup }
{}

/// Where main alone reads reducers, at its end, and sees there what the elision has in the end, a right strand at the trail's
/// beginning that has a fault has the elision's fault from scratch.
pub fn faults_with_reads()
    ensures answer { (program : Tree) (tables : Tables) (lookup : Lookup) → ReadsAtMainsEnd program
        → FaultsWithElision program tables (sight_of program tables) lookup }
{}

/// Where no procedure reads a reducer, records that say what the elision of their keys gives answer only with the runs that they stand for.
pub fn records_are_sound()
    ensures sound { (program : Tree) (tables : Tables) (sight : Accumulators) (lookup : Lookup)
        → HasNoReads program → RecordsAreSound program tables sight lookup }
{}

/// A record of what the elision notes of an instance at one depth, with one moment's tables, is sound: at every depth that
/// fits, and with all tables that agree with its reads.
pub fn made_record_is_sound()
    ensures sound { (program : Revised) (tables : Tables) (depth : ℕ) (k : Kept)
        → IsMade program tables depth k → IsSound program k }
{}

/// A sound record stays sound as procedures are defined anew, where a procedure whose revision number is as it was is the same.
pub fn sound_record_stays_sound()
    ensures sound { (program : Revised) (later : Revised) (k : Kept) → IsLater program later
        → IsSound program k → IsSound later k }
{}

/// Where no procedure reads a reducer, records that are sound, hold now and fit below their depth answer only with the runs that they stand for.
pub fn valid_records_are_sound()
    ensures sound { (program : Revised) (tables : Tables) (sight : Accumulators) (lookup : Lookup)
        → HasNoReads program.tree → AnswersBySound program tables lookup
        → LookupIsSound program.tree tables sight lookup }
{}

/// Each update on the trail is of its reducer's kind, where the numbers of the program and of the tables fit 64 bits.
pub fn trail_is_typed()
    ensures typed { (program : Tree) (tables : Tables) (sight : Accumulators) (look : Look)
        → ProgramFits program → TablesFit tables → SightFits program sight
        → Every (IsTyped (kinds_of program)) (trail_at program tables sight look) }
{}

/// The layers of neighbouring stretches of the trail multiply to the layer of both, where each kind is a monoid and numbers fit 64 bits.
pub fn stretches_multiply()
    ensures multiply { (program : Tree) (tables : Tables) (sight : Accumulators) (lookup : Lookup)
        → HasMonoids program → ProgramFits program → TablesFit tables → SightFits program sight
        → StretchesMultiply program tables sight lookup }
{}

/// Each update on the trail is of its reducer's kind, whatever a read sees, where main alone reads reducers, at its end, and
/// the numbers of the program and of the tables fit 64 bits.
pub fn trail_with_reads_is_typed()
    ensures typed { (program : Tree) (tables : Tables) (sight : Accumulators) (look : Look)
        → ReadsAtMainsEnd program → ProgramFits program → TablesFit tables
        → Every (IsTyped (kinds_of program)) (trail_at program tables sight look) }
{}

/// The layers of neighbouring stretches of the trail multiply to the layer of both, whatever a read sees, where main alone
/// reads reducers, at its end, each kind is a monoid and numbers fit 64 bits.
pub fn stretches_with_reads_multiply()
    ensures multiply { (program : Tree) (tables : Tables) (sight : Accumulators) (lookup : Lookup)
        → ReadsAtMainsEnd program → HasMonoids program → ProgramFits program → TablesFit tables
        → StretchesMultiply program tables sight lookup }
{}

/// The strand of main is right before it begins.
pub fn first_is_right()
    ensures right { (program : Tree) (tables : Tables) (sight : Accumulators) (lookup : Lookup)
        → FirstIsRight program tables sight lookup }
{}

/// A small step keeps a right strand right.
pub fn advance_stays_right()
    ensures right { (program : Tree) (tables : Tables) (sight : Accumulators) (lookup : Lookup)
        → StretchesMultiply program tables sight lookup → UsesNoWaitingName program
        → LookupIsSound program tables sight lookup
        → AdvanceStaysRight program tables sight lookup }
{}

/// Where main alone reads reducers, at its end, a right strand that stands at a read begins at the trail's beginning, is main's, and has nothing below it.
pub fn reads_stand_at_root()
    ensures root { (program : Tree) (tables : Tables) (sight : Accumulators) (lookup : Lookup)
        → ReadsAtMainsEnd program → ReadsStandAtRoot program tables sight lookup }
{}

/// Where main alone reads reducers, at its end, a right strand of one layer has at a read what the elision has in the end.
pub fn reads_see_the_end()
    ensures sees { (program : Tree) (tables : Tables) (lookup : Lookup) → ReadsAtMainsEnd program
        → ReadsSeeTheEnd program tables (sight_of program tables) lookup }
{}

/// In a program that keeps the rules, a small step keeps a right strand right, where a read gives the product of the strand's layers.
pub fn advance_by_product_stays_right()
    ensures right { (program : Tree) (tables : Tables) (lookup : Lookup)
        → StretchesMultiply program tables (sight_of program tables) lookup → KeepsRules program
        → RecordedAreSound program tables (sight_of program tables) lookup
        → AdvanceByProductStaysRight program tables (sight_of program tables) lookup }
{}

/// In a program that keeps the rules, a small step keeps a right strand right, where a read gives the bottom layer's values and
/// the strand has no other layer there.
pub fn advance_reading_stays_right()
    ensures right { (program : Tree) (tables : Tables) (lookup : Lookup)
        → StretchesMultiply program tables (sight_of program tables) lookup → KeepsRules program
        → RecordedAreSound program tables (sight_of program tables) lookup
        → AdvanceReadingStaysRight program tables (sight_of program tables) lookup }
{}

/// At a spawn, a right strand that enters the child as a call stays right.
pub fn inline_stays_right()
    ensures right { (program : Tree) (tables : Tables) (sight : Accumulators) (lookup : Lookup)
        → InlineStaysRight program tables sight lookup }
{}

/// At a spawn, the child alone is a right strand.
pub fn detach_stays_right()
    ensures right { (program : Tree) (tables : Tables) (sight : Accumulators) (lookup : Lookup)
        → DetachStaysRight program tables sight lookup }
{}

/// At a spawn, what a right strand leaves behind the child is a right continuation.
pub fn continuation_is_right()
    ensures right { (program : Tree) (tables : Tables) (sight : Accumulators) (lookup : Lookup)
        → ContinuationIsRight program tables sight lookup }
{}

/// A strand that a steal makes of a right continuation is right.
pub fn stolen_is_right()
    ensures right { (program : Tree) (tables : Tables) (sight : Accumulators) (lookup : Lookup)
        → StolenIsRight program tables sight lookup }
{}

/// A right strand whose child has returned and that goes on with the right continuation behind it stays right.
pub fn pop_stays_right()
    ensures right { (program : Tree) (tables : Tables) (sight : Accumulators) (lookup : Lookup)
        → PopStaysRight program tables sight lookup }
{}

/// Two right strands, neighbours on the trail, joined where no name would wait for a child that ends later, are a right strand.
pub fn join_stays_right()
    ensures right { (program : Tree) (tables : Tables) (sight : Accumulators) (lookup : Lookup)
        → StretchesMultiply program tables sight lookup
        → JoinStaysRight program tables sight lookup }
{}

/// Where no procedure reads a reducer, a right strand of main that is over has the elision's answer from scratch.
pub fn ends_with_elision()
    ensures answer { (program : Tree) (tables : Tables) (sight : Accumulators) (lookup : Lookup)
        → HasNoReads program → EndsWithElision program tables sight lookup }
{}

/// Where no procedure reads a reducer, a right strand at the trail's beginning that has a fault has the elision's fault from scratch.
pub fn faults_with_elision()
    ensures answer { (program : Tree) (tables : Tables) (sight : Accumulators) (lookup : Lookup)
        → HasNoReads program → FaultsWithElision program tables sight lookup }
{}

/// Where no procedure reads a reducer, a strand stands at no read at any time of its life, so that a small step needs no premise of what a read sees.
pub fn calm_stays()
    ensures calm { (program : Tree) (tables : Tables) (lookup : Lookup) → HasNoReads program
        → CalmStays program tables lookup }
{}

/// In a program whose statements use no name that waits, as the checker sees them, a right strand's next statement uses none
/// either: each name has its value or was never bound.
pub fn steps_are_ready()
    ensures ready { (program : Tree) (tables : Tables) (sight : Accumulators) (lookup : Lookup)
        → StepsReady program tables sight lookup }
{}

/// Where all records are sound, the one of a name and arguments that is valid at a depth answers by a sound record that holds now and fits there.
pub fn valid_record_answers()
    ensures answers { (program : Revised) (tables : Tables) (records : List Kept)
        → ValidAnswers program tables records }
{}

/// In a program that keeps the rules, whose procedures have numbers that were used before, each move of a strand keeps it
/// right, with its open layers those of the instances that it opened, each beginning with its instance's run on the trail; and
/// the record of each layer that it closes is sound and holds now; and its tally counts the marks of its stretch.
pub fn new_records_are_sound()
    ensures tallied { (program : Revised) (tables : Tables) (lookup : Lookup)
        → StretchesMultiply program.tree tables (sight_of program.tree tables) lookup
        → KeepsRules program.tree → IsNumbered program
        → RecordedAreSound program.tree tables (sight_of program.tree tables) lookup
        → TalliedStays program tables lookup }
{}

/// Each move of a strand keeps the layers that strands owe each other: those of the instances that it has and those that
/// strands to the right have of it are those that it opened and those that it has of strands to the left.
pub fn layers_stay_owed()
    ensures owed { (program : Revised) (tables : Tables) (lookup : Lookup)
        → ReadsAtMainsEnd program.tree → LayersStayOwed program tables lookup }
{}

/// So the layer that an instance closes is its own.
pub fn instances_close_their_own()
    ensures own { (program : Revised) (tables : Tables) (lookup : Lookup)
        → ClosesItsOwn program tables lookup }
{}

/// A strand that stands at its entry's sync, with nothing behind it, has one layer.
pub fn entry_has_one_layer()
    ensures one { (program : Revised) (tables : Tables) (lookup : Lookup)
        → EntryHasOneLayer program tables lookup }
{}

/// Where main alone reads reducers, at its end, a strand that stands at a read, with nothing behind it and no layer owed, has one layer.
pub fn read_has_one_layer()
    ensures one { (program : Revised) (tables : Tables) (lookup : Lookup)
        → ReadsAtMainsEnd program.tree → ReadHasOneLayer program tables lookup }
{}

/// Each move of a strand leaves it the owner of its open layers: they are those of instances on the way to its topmost one,
/// each inside the next. Nothing is asked of other strands, nor of the flags of continuations.
pub fn layers_stay_own()
    ensures own { (program : Revised) (tables : Tables) (lookup : Lookup)
        → StretchesMultiply program.tree tables (sight_of program.tree tables) lookup
        → KeepsRules program.tree → IsNumbered program
        → RecordedAreSound program.tree tables (sight_of program.tree tables) lookup
        → LayersStayOwn program tables lookup }
{}

/// So no instance with an open layer has left in the strand's stretch.
pub fn open_layers_have_not_left()
    ensures still { (program : Revised) (tables : Tables) (lookup : Lookup)
        → OpenHasNotLeft program tables lookup }
{}

/// The layer that an instance closes by its name is its own, and an instance that has one closes it.
pub fn owners_close_their_own()
    ensures own { (program : Revised) (tables : Tables) (lookup : Lookup)
        → OwnClosesItsOwn program tables lookup }
{}

/// A strand that stands at its entry has one layer.
pub fn own_entry_has_one_layer()
    ensures one { (program : Revised) (tables : Tables) (lookup : Lookup)
        → OwnEntryHasOneLayer program tables lookup }
{}

/// A strand whose topmost instance is main has one layer.
pub fn own_main_has_one_layer()
    ensures one { (program : Revised) (tables : Tables) (lookup : Lookup)
        → OwnMainHasOneLayer program tables lookup }
{}

/// Where main alone reads reducers, at its end, a strand that stands at a read has one layer.
pub fn own_read_has_one_layer()
    ensures one { (program : Revised) (tables : Tables) (lookup : Lookup)
        → ReadsAtMainsEnd program.tree → OwnReadHasOneLayer program tables lookup }
{}

/// A fold of a strand that is over with one that stands at its entry leaves the owner of its open layers.
pub fn folds_stay_own()
    ensures own { (program : Revised) (tables : Tables) (lookup : Lookup)
        → StretchesMultiply program.tree tables (sight_of program.tree tables) lookup
        → KeepsRules program.tree → IsNumbered program
        → RecordedAreSound program.tree tables (sight_of program.tree tables) lookup
        → OwnFolds program tables lookup }
{}

/// A strand has one layer more than open ones.
pub fn own_layers_count()
    ensures count { (program : Revised) (tables : Tables) (lookup : Lookup)
        → OwnLayersCount program tables lookup }
{}

/// Where strands owe each other their layers, an instance's flag says whether the top layer has its name.
pub fn flags_are_names()
    ensures names { (program : Revised) (tables : Tables) (lookup : Lookup)
        → FlagsAreNames program tables lookup }
{}

/// Strands and continuations are as right without their instances' flags, and a move of one without flags is the move without flags.
pub fn flags_are_no_matter()
    ensures matter { (program : Revised) (tables : Tables) (lookup : Lookup)
        → FlagsAreNoMatter program tables lookup }
{}

/// A small step by names, of strands whose instances have no flags, leaves the owner of its open layers.
pub fn unflagged_steps_stay_own()
    ensures own { (program : Revised) (tables : Tables) (lookup : Lookup)
        → StretchesMultiply program.tree tables (sight_of program.tree tables) lookup
        → KeepsRules program.tree → IsNumbered program
        → RecordedAreSound program.tree tables (sight_of program.tree tables) lookup
        → UnflaggedStaysOwn program tables lookup }
{}

/// Sound records stay sound as new ones are put in.
pub fn commits_stay_sound()
    ensures sound { (program : Revised) → CommitsStaySound program }
{}

/// All sound records stay sound as procedures are defined anew, where a procedure whose revision number is as it was is the same.
pub fn records_stay_sound()
    ensures sound { (program : Revised) (later : Revised) → IsLater program later
        → RecordsStaySound program later }
{}

/// Where main alone reads reducers, at its end, each kind is a monoid and numbers fit 64 bits, an instance of another procedure
/// that ends without a fault leaves the values that it found, times its contribution.
pub fn instances_act_by_contribution()
    ensures acts { (program : Tree) (tables : Tables) → ReadsAtMainsEnd program → HasMonoids program
        → ProgramFits program → TablesFit tables → ActsByContribution program tables }
{}

/// Where main alone reads reducers, at its end, and all records are sound, the trail marks up to its first fault the needed
/// instances: as executed those that no valid record answers, as answered the others, in the order of the elision.
pub fn marks_are_needed()
    ensures needed { (program : Revised) (tables : Tables) (sight : Accumulators)
        (records : List Kept) → ReadsAtMainsEnd program.tree → Every (IsSound program) records
        → MarksAreNeeded program tables records sight }
{}

/// Where main alone reads reducers, at its end, and all records are sound, the tally of main's strand that is over has counted
/// the needed instances: as executed those that no valid record answers, as reused the others.
pub fn end_counts_needed()
    ensures counted { (program : Revised) (tables : Tables) (records : List Kept)
        → ReadsAtMainsEnd program.tree → Every (IsSound program) records
        → EndCountsNeeded program tables records }
{}

/// Where main alone reads reducers, at its end, each procedure has a number that was used before and all records are sound:
/// after a run that finishes and records each instance that it executes, all records are sound, and the same program on the
/// same tables needs to execute no recorded procedure.
pub fn nothing_is_needed_again()
    ensures needed { (program : Revised) (tables : Tables) (records : List Kept)
        → ReadsAtMainsEnd program.tree → IsNumbered program → Every (IsSound program) records
        → NothingNeeded program tables records }
{}

/// Under the same premises, in a run of the same program on the same tables by the records after that run, the tally of main's
/// strand that is over has counted no execution.
pub fn rerun_executes_nothing()
    ensures none { (program : Revised) (tables : Tables) (records : List Kept)
        → ReadsAtMainsEnd program.tree → IsNumbered program → Every (IsSound program) records
        → RerunExecutesNone program tables records }
{}

/// Under the same premises, the same program on the same tables needs to execute no recorded procedure by any records into
/// which a finished run has put new ones, where each needed execution has one of its name and arguments.
pub fn new_records_suffice()
    ensures suffice { (program : Revised) (tables : Tables) (records : List Kept)
        → ReadsAtMainsEnd program.tree → IsNumbered program → Every (IsSound program) records
        → NoneAfterEach program tables records }
{}

/// Under the same premises, where main's strand that is over has as many new records as it has counted executions, the same
/// program on the same tables needs to execute no recorded procedure by the records with these put in.
pub fn end_leaves_nothing()
    ensures none { (program : Revised) (tables : Tables) (records : List Kept)
        → ReadsAtMainsEnd program.tree → IsNumbered program → Every (IsSound program) records
        → EndLeavesNone program tables records }
{}

/// Tallies add up through steps and folds: each execution has a new record, an open layer, or is counted as unrecorded; with
/// nothing open and nothing unrecorded there are as many new records as executions.
pub fn tallies_add_up()
    ensures sums { (program : Revised) → TalliesAddUp program }
{}

/// Where a program's procedures are defined anew and its reducers stay, it is a later program, in which a procedure whose
/// number is as it was is the same; and its procedures have numbers that were used before, if each that is entered is there.
pub fn defines_keep_numbers()
    ensures kept { (old : Revised) (tree : Tree) → IsNumbered old → DefinesKeep old tree }
{}
