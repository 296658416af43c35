//! What is known of a program's tree from its declarations as they are lowered: all of it.

ghost use Rattle.std.specs.Prelude.{◌≡◌};
ghost use Rattle.monoid_laws.specs.declared.Kind.{Kind};
ghost use Rattle.meaning.specs.Tree.{Tree};
ghost use Rattle.source_tree.specs.Kinds.{written};
ghost use Rattle.source_tree.specs.Lowering.{lowered_tree};

/// Kinds that are written the same are equal, and so are trees whose declarations, with kinds as they are written, are the same.
pub fn laws_of_lowered_trees()
    ensures kind { (k j : Kind) → written k ≡ written j → k ≡ j }
    ensures tree { (t u : Tree) → lowered_tree t ≡ lowered_tree u → t ≡ u }
{}
