//! Puts marks that stand alike in many places.

ghost use Rattle.std.specs.Prelude.{◌≡◌, ◌++◌, ◌∷◌, OnOk, string_bytes};
ghost use Rattle.token_scanner.specs.Words.{Word, Sign};
ghost use Rattle.token_scanner.specs.declared.token.Mark.TheVariants as mark;
ghost use Rattle.token_spelling.specs.Spelling.{Puts, Grows};

use std::alloc::AllocError;

/// Puts the beginning of an expression in parentheses at the end of the text.
#[tactic(auto, unfolding(crate::specs::Spelling::written))]
pub fn put_open(text: &mut String) -> Result<(), AllocError>
    ensures { OnOk result (Grows text.old text.new (λ us. Sign mark.OpenParen ∷ us)) }
{
    text.push_str("( ")
}

/// Puts the end of an expression in parentheses at the end of the text.
#[tactic(auto, unfolding(crate::specs::Spelling::written))]
pub fn put_close(text: &mut String) -> Result<(), AllocError>
    ensures { OnOk result (Grows text.old text.new (λ us. Sign mark.CloseParen ∷ us)) }
{
    text.push_str(") ")
}

/// Puts the end of a statement at the end of the text.
#[tactic(auto, unfolding(crate::specs::Spelling::written))]
pub fn put_end(text: &mut String) -> Result<(), AllocError>
    ensures { OnOk result (Grows text.old text.new (λ us. Sign mark.Semicolon ∷ us)) }
{
    text.push_str(";\n")
}
