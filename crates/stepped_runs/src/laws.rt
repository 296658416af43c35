//! What the steps by numbers are for the runs of the definitions, each as the contract of a function that does nothing.
ghost use Rattle.std.specs.Prelude.{◌≡◌, ◌⊎◌, ◌∷◌, ◌<◌, [], ℕ, ℤ, true, List, Ok, Err, Some, All};
ghost use Rattle.monoid_laws.specs.declared.Kind.{Kind};
ghost use Rattle.monoid_laws.specs.Worth.{Worth};
ghost use Rattle.meaning.specs.Tables.{Tables};
ghost use Rattle.meaning.specs.Elision.{Answer, Finished, from_scratch};
ghost use Rattle.meaning.specs.Records.{Revised};
ghost use Rattle.meaning.specs.Schedules.{RunStep, RunState, end_of};
ghost use Rattle.meaning.specs.Statements.{beginning};
ghost use Rattle.trail_theory.specs.Typed.{TablesFit};
ghost use Rattle.strand_theory.specs.Ready.{IsReady};
ghost use Rattle.linked_program.specs.declared.code.Code.{Code};
ghost use Rattle.linked_program.specs.TableNames.{Columned, columned_of};
ghost use Rattle.linked_program.specs.Linked.{main_number};
ghost use Rattle.linked_program.specs.Initials.{PlainInitial, AreUpdatesBy};
ghost use Rattle.record_theory.specs.Commits.{put_records};
ghost use Rattle.positions.specs.Setting.{Setting, IsLinked};
ghost use Rattle.positions.specs.Tallies.{PlainTally};
ghost use Rattle.numbered_runs.specs.declared.refusal.Refusal.{Refusal};
ghost use Rattle.stepped_runs.specs.Pieces.{PlainPiece};
ghost use Rattle.stepped_runs.specs.Runs.{PlainRun, first_run, stepped, are_workers};
ghost use Rattle.stepped_runs.specs.Stands.{StandsForUnflagged};
ghost use Rattle.stepped_runs.specs.Layered.{HasOneLayer};
ghost use Rattle.stepped_runs.specs.Halves.{IsHalfFoldedRun};
ghost use Rattle.stepped_runs.specs.Ends.{answer_in, HistoryGives};
ghost use Rattle.stepped_runs.specs.Progress.{AreByWorkers, HasAnswer, HasStep};
ghost use Rattle.numbered_runs.specs.News.{HasCounted, HaveNews, AreSound, AreSoundIn, next_setting};
ghost use Rattle.stepped_runs.specs.Simulation.{IsPrepared, IsReached, IsStepOf, IsNoStepOf, IsFirstOf};

/// A step that is taken by numbers is the definitions' step, a refused one is none of theirs, and the run begins as theirs does:
/// for a program and tables that were checked, the program's codes, kinds and initial values, and records that stand for sound
/// ones.
pub fn steps_are_the_definitions()
    ensures step { (setting : Setting) → IsPrepared setting → (s t : PlainRun) (e : RunStep)
        → stepped setting s e ≡ Ok t → IsStepOf setting e s t }
    ensures refusal { (setting : Setting) → IsPrepared setting
        → (s : PlainRun) (e : RunStep) (f : Refusal)
        → stepped setting s e ≡ Err f → IsNoStepOf setting e s }
    ensures first { (setting : Setting) → IsLinked setting
        → (initials : List PlainInitial)
        → AreUpdatesBy setting.kinds initials (beginning setting.program.tree)
        → (main kits : ℕ) → main ≡ main_number setting.program.tree
        → IsFirstOf setting kits
        (first_run setting.codes setting.kinds initials main kits) }
{}

/// A run stands for the same run of the definitions after a fold that memory was refused for.
pub fn refused_folds_keep_runs()
    ensures kept { (setting : Setting) (r s : PlainRun) → IsHalfFoldedRun r s → (x : RunState)
        → StandsForUnflagged setting r x → StandsForUnflagged setting s x }
{}

/// Each strand that has stalled, has a fault or has finished has one layer: its layers aren't folded one by one.
pub fn strands_are_layered()
    ensures one { (setting : Setting) → IsPrepared setting → (s : PlainRun) (x : RunState)
        → IsReached setting x → StandsForUnflagged setting s x → All HasOneLayer s.pieces }
{}

/// A run by numbers that has come to its end has the answer of what it stands for, which is the elision's from scratch.
pub fn ends_answer()
    ensures same { (setting : Setting) → IsPrepared setting → (s : PlainRun) (x : RunState)
        → IsReached setting x → StandsForUnflagged setting s x
        → end_of x ≡ answer_in setting s.pieces }
    ensures elision { (setting : Setting) → IsPrepared setting
        → (s : PlainRun) (x : RunState) (a : Answer) → IsReached setting x
        → StandsForUnflagged setting s x → answer_in setting s.pieces ≡ Some a
        → a ≡ from_scratch setting.program.tree setting.tables }
{}

/// The history of a run by numbers is legal, and gives the list of its strands.
pub fn histories_are_legal()
    ensures legal { (setting : Setting) → IsReady setting.program setting.tables setting.memory
        → (s : PlainRun) (x : RunState) → IsReached setting x → StandsForUnflagged setting s x
        → HistoryGives s }
{}

/// The strands of a run are held by its workers, after each step by them and after a fold that memory was refused for.
pub fn strands_stay_with_workers()
    ensures first { (codes : List Code) (kinds : List Kind) (initials : List PlainInitial)
        (main kits n : ℕ) → 0 < n
        → AreByWorkers n (first_run codes kinds initials main kits).pieces }
    ensures step { (setting : Setting) (n : ℕ) (s t : PlainRun) (e : RunStep)
        → are_workers n e ≡ true → stepped setting s e ≡ Ok t → AreByWorkers n s.pieces
        → AreByWorkers n t.pieces }
    ensures refused { (n : ℕ) (r s : PlainRun)
        → IsHalfFoldedRun r s → AreByWorkers n r.pieces → AreByWorkers n s.pieces }
{}

/// No run by numbers gets stuck: where its strands are held by its workers, it has an answer or one of them has a step.
pub fn some_step_is_there()
    ensures there { (setting : Setting) → IsPrepared setting
        → (n : ℕ) → 0 < n → (s : PlainRun) (x : RunState) → IsReached setting x
        → StandsForUnflagged setting s x → AreByWorkers n s.pieces
        → HasAnswer setting s ⊎ HasStep setting n s }
{}

/// Where a run has come to its end without a fault, the one strand has counted the needed instances, and its new records are sound
/// and hold now. They are of the executed instances, each as often, but for as many as were left unrecorded: with them put in
/// nothing is executed, unless one was.
pub fn runs_count_and_record()
    ensures counted { (setting : Setting) → IsPrepared setting → (s : PlainRun) (x : RunState)
        → IsReached setting x → StandsForUnflagged setting s x
        → (p : PlainPiece) (v : ℤ) (worths : List Worth) → s.pieces ≡ p ∷ []
        → answer_in setting s.pieces ≡ Some (Finished v worths)
        → HasCounted setting p.strand.tally }
    ensures recorded { (setting : Setting) → IsPrepared setting → (s : PlainRun) (x : RunState)
        → IsReached setting x → StandsForUnflagged setting s x
        → (p : PlainPiece) (v : ℤ) (worths : List Worth) → s.pieces ≡ p ∷ []
        → answer_in setting s.pieces ≡ Some (Finished v worths)
        → HaveNews setting p.strand.tally }
{}

/// Records stay sound from one run to the next, whatever the tables are then: the next run on a session's records with the new ones
/// put in is prepared as this one was.
pub fn next_runs_are_prepared()
    ensures begins { (program : Revised) (names : List Columned) (kinds : List Kind)
        → AreSound program names kinds [] }
    ensures held { (setting : Setting) → IsPrepared setting → AreSoundIn setting setting.records }
    ensures put { (setting : Setting) → IsPrepared setting
        → (t : PlainTally) → HaveNews setting t
        → AreSoundIn setting (put_records setting.records t.made) }
    ensures next { (setting : Setting) → IsPrepared setting
        → (t : PlainTally) (news : HaveNews setting t) (tables : Tables)
        → setting.names ≡ columned_of tables → TablesFit tables
        → IsPrepared (next_setting setting tables news.kept t.made) }
{}
