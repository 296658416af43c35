//! The theory of one strand among several: its fault, its fold with the next one, what it has recorded, and steps without flags.
#![tactic(auto)]

ghost use Rattle.std.specs.Prelude.{◌≡◌};
ghost use Rattle.meaning.specs.Tree.{Tree};
ghost use Rattle.meaning.specs.Tables.{Tables};
ghost use Rattle.meaning.specs.Outcome.{Fault};
ghost use Rattle.meaning.specs.Trail.{sight_of};
ghost use Rattle.meaning.specs.SmallStep.{Lookup, root};
ghost use Rattle.meaning.specs.Elision.{Faulted, from_scratch};
ghost use Rattle.trail_theory.specs.ReadsAtEnd.{ReadsAtMainsEnd};
ghost use Rattle.strand_theory.specs.Faults.{BrokenAt};

/// The fault of a strand that began with the trail is the elision's from scratch.
pub fn faults_are_the_elisions()
    ensures faulted { (program : Tree) (tables : Tables) (lookup : Lookup)
        → ReadsAtMainsEnd program → (fault : Fault)
        → BrokenAt program tables (sight_of program tables) lookup root fault
        → from_scratch program tables ≡ Faulted fault }
{}
