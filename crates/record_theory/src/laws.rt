//! What follows from the definitions alone, each as the contract of a function that does nothing.
ghost use Rattle.std.specs.Prelude.{◌≡◌, ℕ, ℤ, List};
ghost use Rattle.meaning.specs.Tree.{Name};
ghost use Rattle.monoid_laws.specs.declared.Kind.{Kind};
ghost use Rattle.meaning.specs.Tables.{Tables};
ghost use Rattle.meaning.specs.Records.{Revised};
ghost use Rattle.linked_program.specs.TableNames.{Columned};
ghost use Rattle.linked_program.specs.Checked.{PlainChecked};
ghost use Rattle.record_theory.specs.Record.{PlainRecord};
ghost use Rattle.record_theory.specs.Commits.{put_records};
ghost use Rattle.record_theory.specs.Named.{LooksUp, CommitsNamed};

/// What is looked up by number stands for what the definitions look up by name, and records put in by number stand for those that
/// the definitions put in by name.
pub fn records_are_the_definitions()
    ensures lookup { (program : Revised) (names : List Columned) (kinds : List Kind)
        → (tables : Tables) (depth : ℕ) (f : Name) (args : List ℤ)
        → LooksUp program names kinds tables depth f args }
    ensures commit { (program : PlainChecked) (rs ss : List PlainRecord)
        → CommitsNamed program rs ss (put_records rs ss) }
{}
