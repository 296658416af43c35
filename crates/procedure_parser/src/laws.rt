//! A text has one meaning, and defines one program.

ghost use Rattle.std.specs.Prelude.{◌≡◌, ℕ, List};
ghost use Rattle.meaning.specs.Tree.{Tree};
ghost use Rattle.meaning.specs.TreeView.{Lined};
ghost use Rattle.source_tree.specs.Source.{Source};
ghost use Rattle.procedure_parser.specs.Correct.{IsSource, IsText};
ghost use Rattle.procedure_parser.specs.Defined.{IsDefined};

/// A text has at most one source tree, and so one tree of a program, with one list of lines.
pub fn laws_of_texts()
    ensures source { (text : List ℕ) (s r : Source) → IsSource s text → IsSource r text → s ≡ r }
    ensures tree { (text : List ℕ) (t u : Tree) (l m : List Lined) → IsText text t l
        → IsText text u m → t ≡ u }
    ensures lines { (text : List ℕ) (t u : Tree) (l m : List Lined) → IsText text t l
        → IsText text u m → l ≡ m }
{}

/// A text defines at most one program, with one list of lines, from another.
pub fn laws_of_defined_programs()
    ensures defined { (text : List ℕ) (before after other : Tree × List Lined)
        → IsDefined before text after → IsDefined before text other → after ≡ other }
{}
