//! Definitions: a program of texts, with a text's procedures put in, is one of texts, so what is printed of it is read again.

ghost use Rattle.std.specs.Prelude.{◌≤◌, ℕ, List, length};
ghost use Rattle.meaning.specs.Tree.{Tree};
ghost use Rattle.meaning.specs.TreeView.{Lined};
ghost use Rattle.procedure_parser.specs.Defined.{IsDefined};
ghost use Rattle.program_printer.specs.Printing.{printed};
ghost use Rattle.printing_theory.specs.Again.{IsOfText, IsOfTexts, PrintsAgain};
ghost use Rattle.token_scanner.specs.Scanning.{longest_text};

/// A text's tree is one of texts, and stays one when the procedures of texts are put into it.
pub fn laws_of_definitions()
    ensures text { (t : Tree) → IsOfText t → IsOfTexts t }
    // A program of texts stays one of texts with a text's procedures put in.
    ensures defined { (t : Tree) (l : List Lined) (text : List ℕ) (after : Tree × List Lined)
        → IsOfTexts t → IsDefined (t, l) text after → IsOfTexts after.0 }
    // Its tree is then that of its printed text, where this is within the length limit.
    ensures printed { (t : Tree) (l : List Lined) (text : List ℕ) (after : Tree × List Lined)
        → IsOfTexts t → IsDefined (t, l) text after → length (printed after.0) ≤ longest_text
        → PrintsAgain after.0 }
{}
