//! What the reader and the checker of the definitions' edits are, each as the contract of a function that does nothing.
ghost use Rattle.std.specs.Prelude.{◌≡◌, List, []};
ghost use Rattle.meaning.specs.TreeView.{Lined};
ghost use Rattle.meaning.specs.Statements.{reducers};
ghost use Rattle.meaning.specs.Tree.{Tree};
ghost use Rattle.source_tree.specs.Source.{Source};
ghost use Rattle.program_edits.specs.Putting.{put_all};
ghost use Rattle.linked_program.specs.Checked.{PlainChecked, IsChecked};
ghost use Rattle.checked_defines.specs.Readers.{reads_text, checks_rules, ReadsGrammar, ChecksRules};
ghost use Rattle.checked_defines.specs.Standings.{KeepsPlaces, KeepsNumbers, CurrentAreThere};

/// The reader gives the program with the procedures of a text put in exactly where the text is one of the grammar, and the line
/// of its first fault exactly where it is none.
pub fn reader_is_grammar()
    ensures grammar { ReadsGrammar reads_text }
{}

/// The checker finds nothing exactly where no rule is broken, and else the first violation.
pub fn checker_is_rules()
    ensures rules { ChecksRules checks_rules }
{}

/// Procedures that are put in leave the reducers as they are, in their order.
pub fn reducers_stay()
    ensures reducers { (source : Source) (before : Tree × List Lined)
        → reducers (put_all [] source before).0 ≡ reducers before.0 }
{}

/// Procedures that keep their places keep their numbers.
pub fn places_are_numbers()
    ensures numbers { (old new : Tree) → KeepsPlaces old new → KeepsNumbers old new }
{}

/// A procedure whose revision number is current is there: so those that a record names, which held once, are there, and stay there with their numbers.
pub fn current_ones_are_there()
    ensures there { (checked : PlainChecked) → IsChecked checked → CurrentAreThere checked }
{}
