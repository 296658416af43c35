//! What holds of printed texts.

ghost use Rattle.std.specs.Prelude.{◌≡◌};
ghost use Rattle.meaning.specs.Tree.{Tree};
ghost use Rattle.token_scanner.specs.Scanning.{tokens_of};
ghost use Rattle.program_printer.specs.Printing.{printed_words, printed};
ghost use Rattle.program_printer.specs.Tokens.{AllTokens, bare};

/// The tokens of a printed program are those that it was printed from, where each of them can stand in a text (`AllTokens`):
/// names are of the language's form and no keywords, numbers are not negative and fit 63 bits.
pub fn laws_of_printing()
    ensures tokens { (t : Tree) → AllTokens (printed_words t)
        → bare (tokens_of (printed t)) ≡ printed_words t }
{}
