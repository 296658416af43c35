//! What follows from the definitions alone, each as the contract of a function that does nothing.
ghost use Rattle.std.specs.Prelude.{ℕ, ℤ, List};
ghost use Rattle.meaning.specs.Tree.{Name, Term};
ghost use Rattle.meaning.specs.Outcome.{Out};
ghost use Rattle.meaning.specs.Statements.{Job, bounds, turn_values};
ghost use Rattle.meaning.specs.Tables.{Tables};
ghost use Rattle.meaning.specs.Values.{Env, value, values};
ghost use Rattle.evaluation.specs.declared.slot.Slot.{Slot};
ghost use Rattle.evaluation.specs.Numbers.{ValueIs, ValuesAre, BoundsAre, PutIs, FreshIs, OnlyReads};

/// Linked expressions have the values of the program's expressions, and read the same, table and column by number; so do lists
/// of them and the bounds of loops.
pub fn values_are_the_definitions()
    ensures value { (tables : Tables) (slots : List Slot) (e : Term) → ValueIs tables slots e }
    ensures values { (tables : Tables) (slots : List Slot) (es : List Term)
        → ValuesAre tables slots es }
    ensures bounds { (tables : Tables) (slots : List Slot) (e f : Term)
        → BoundsAre tables slots e f }
{}

/// A slot that is given a value is a name that is given it, and the slots of a new instance are its names' values.
pub fn slots_are_names()
    ensures put { (slots : List Slot) (x : ℕ) (v : ℤ) → PutIs slots x v }
    ensures fresh { (names : List Name) (vs : List ℤ) → FreshIs names vs }
{}

/// An evaluation of the definitions does nothing but read.
pub fn evaluations_only_read()
    ensures value { (tables : Tables) (env : Env) (e : Term) → OnlyReads (value tables env e).log }
    ensures values { (tables : Tables) (env : Env) (es : List Term)
        → OnlyReads (values tables env es).log }
    ensures bounds { (tables : Tables) (env : Env) (e f : Term)
        → OnlyReads (bounds tables env e f).log }
    ensures turn { (tables : Tables) (job : Job) (i : ℕ)
        → OnlyReads (turn_values tables job i).log }
{}
