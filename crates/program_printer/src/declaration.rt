//! Prints reducers and procedures.

ghost use Rattle.std.specs.Prelude.{◌≡◌, ◌++◌, ◌∷◌, ◌*◌, OnOk, map, take, string_bytes, pos, codes};
ghost use Rattle.monoid_laws.specs.declared.Table.{Table};
ghost use Rattle.meaning.specs.TreeView.{proc, red, decl};
ghost use Rattle.meaning.specs.Tree as plain;
ghost use Rattle.token_scanner.specs.Words.{Word, Sign, Number};
ghost use Rattle.token_scanner.specs.Words as word;
ghost use Rattle.token_scanner.specs.declared.token.Mark.TheVariants as mark;
ghost use Rattle.token_spelling.specs.Spelling.{Puts, Grows, GrowsByBlock};
ghost use Rattle.program_printer.specs.Printing.{more_numbers, numbers_words, table_words, kind_words, signed_words, more_signed_words};
ghost use Rattle.program_printer.specs.Printing.{initial_words, more_names, names_words, memo_words, decl_words, names_of, opening_words};

use crate::block::{put_block, put_close};
use meaning::tree::{Declaration, Procedure, Reducer};
use monoid_laws::{Kind, Table};
use std::alloc::AllocError;
use std::fmt::Write;

/// Puts numbers, each behind a comma, at the end of the text.
fn put_more_numbers(text: &mut String, numbers: &[u8]) -> Result<(), AllocError>
    ensures { OnOk result (Grows text.old text.new (more_numbers numbers.now)) }
{
    for number in numbers {
        put_next_number(text, *number)?;
    }
    Ok(())
}

/// Puts a comma and a number at the end of the text.
#[tactic(auto, unfolding(token_spelling::specs::Spelling::written))]
fn put_next_number(text: &mut String, number: u8) -> Result<(), AllocError>
    ensures { OnOk result (Grows text.old text.new (λ us. Sign mark.Comma ∷ Number (pos number) ∷ us)) }
{
    write!(text, ", {number} ")
}

/// Puts a number at the end of the text.
#[tactic(auto, unfolding(token_spelling::specs::Spelling::written))]
fn put_number(text: &mut String, number: u8) -> Result<(), AllocError>
    ensures { OnOk result (Grows text.old text.new (λ us. Number (pos number) ∷ us)) }
{
    write!(text, "{number} ")
}

/// Puts numbers, parted by commas, at the end of the text.
fn put_numbers(text: &mut String, numbers: &[u8]) -> Result<(), AllocError>
    ensures { OnOk result (Grows text.old text.new (numbers_words numbers.now)) }
{
    match numbers {
        [] => Ok(()),
        [first, rest @ ..] => {
            put_number(text, *first)?;
            put_more_numbers(text, rest)
        }
    }
}

/// Puts what a table is at the end of the text: its size, its unit and its numbers, row by row.
#[tactic(auto, unfolding(token_spelling::specs::Spelling::written))]
fn put_table(text: &mut String, table: &Table) -> Result<(), AllocError>
    ensures { OnOk result (Grows text.old text.new (table_words table.now)) }
{
    let size = table.size;
    let unit = table.unit;
    write!(text, "table {size} unit {unit} [ ")?;
    put_numbers(text, &table.cells[..size as usize * size as usize])?;
    text.push_str("] ")
}

/// Puts a kind at the end of the text.
#[tactic(auto, unfolding(token_spelling::specs::Spelling::written))]
fn put_kind(text: &mut String, kind: &Kind) -> Result<(), AllocError>
    ensures { OnOk result (Grows text.old text.new (kind_words kind.now)) }
{
    match kind {
        Kind::Add => text.push_str("add "),
        Kind::Mul => text.push_str("mul "),
        Kind::Min => text.push_str("min "),
        Kind::Max => text.push_str("max "),
        Kind::And => text.push_str("and "),
        Kind::Or => text.push_str("or "),
        Kind::Xor => text.push_str("xor "),
        Kind::List => text.push_str("list "),
        Kind::First(count) => write!(text, "first {count} "),
        Kind::Last(count) => write!(text, "last {count} "),
        Kind::Argmax => text.push_str("argmax "),
        Kind::Affine => text.push_str("affine "),
        Kind::Hist => text.push_str("hist "),
        Kind::Table(table) => put_table(text, table),
    }
}

/// Puts a minus and a number at the end of the text.
#[tactic(auto, unfolding(token_spelling::specs::Spelling::written))]
fn put_below_zero(text: &mut String, magnitude: u64) -> Result<(), AllocError>
    ensures { OnOk result (Grows text.old text.new (λ us. Sign mark.Minus ∷ Number (pos magnitude) ∷ us)) }
{
    write!(text, "- {magnitude} ")
}

/// Puts a number at the end of the text.
#[tactic(auto, unfolding(token_spelling::specs::Spelling::written))]
fn put_above_zero(text: &mut String, magnitude: u64) -> Result<(), AllocError>
    ensures { OnOk result (Grows text.old text.new (λ us. Number (pos magnitude) ∷ us)) }
{
    write!(text, "{magnitude} ")
}

/// Puts a number, behind a minus where it is below zero, at the end of the text.
#[tactic(auto, using(crate::proofs::Parts::signed_below, crate::proofs::Parts::signed_above))]
fn put_signed(text: &mut String, number: i64) -> Result<(), AllocError>
    ensures { OnOk result (Grows text.old text.new (signed_words number)) }
{
    let magnitude = number.unsigned_abs();
    if number < 0 {
        put_below_zero(text, magnitude)
    } else {
        put_above_zero(text, magnitude)
    }
}

/// Puts a comma at the end of the text.
#[tactic(auto, unfolding(token_spelling::specs::Spelling::written))]
fn put_comma(text: &mut String) -> Result<(), AllocError>
    ensures { OnOk result (Grows text.old text.new (λ us. Sign mark.Comma ∷ us)) }
{
    text.push_str(", ")
}

/// Puts the word in front of an initial value at the end of the text.
#[tactic(auto, unfolding(token_spelling::specs::Spelling::written))]
fn put_from(text: &mut String) -> Result<(), AllocError>
    ensures { OnOk result (Grows text.old text.new (λ us. word.Name (codes "from") ∷ us)) }
{
    text.push_str("from ")
}

/// Puts a comma and such a number at the end of the text.
fn put_next_signed(text: &mut String, number: i64) -> Result<(), AllocError>
    ensures { OnOk result (Grows text.old text.new (λ us. Sign mark.Comma ∷ signed_words number us)) }
{
    put_comma(text)?;
    put_signed(text, number)
}

/// Puts such numbers, each behind a comma, at the end of the text.
fn put_more_signed(text: &mut String, numbers: &[i64]) -> Result<(), AllocError>
    ensures { OnOk result (Grows text.old text.new (more_signed_words numbers.now)) }
{
    for number in numbers {
        put_next_signed(text, *number)?;
    }
    Ok(())
}

/// Puts the first number of an initial value at the end of the text.
fn put_first_signed(text: &mut String, number: i64) -> Result<(), AllocError>
    ensures { OnOk result (Grows text.old text.new (λ us. word.Name (codes "from") ∷ signed_words number us)) }
{
    put_from(text)?;
    put_signed(text, number)
}

/// Puts the numbers of an initial value at the end of the text.
fn put_initial(text: &mut String, numbers: &[i64]) -> Result<(), AllocError>
    ensures { OnOk result (Grows text.old text.new (initial_words numbers.now)) }
{
    match numbers {
        [] => Ok(()),
        [first, rest @ ..] => {
            put_first_signed(text, *first)?;
            put_more_signed(text, rest)
        }
    }
}

/// Puts a reducer at the end of the text.
#[tactic(auto, unfolding(token_spelling::specs::Spelling::written))]
fn put_reducer(text: &mut String, reducer: &Reducer) -> Result<(), AllocError>
    ensures { OnOk result (Grows text.old text.new (decl_words (plain.reducer (red reducer.now)))) }
{
    let name = reducer.name.as_str();
    write!(text, "reducer {name} : ")?;
    put_kind(text, &reducer.kind)?;
    put_initial(text, &reducer.initial)?;
    text.push_str(";\n")
}

/// Puts a comma and a name at the end of the text.
#[tactic(auto, unfolding(token_spelling::specs::Spelling::written))]
fn put_next_name(text: &mut String, name: &str) -> Result<(), AllocError>
    ensures { OnOk result (Grows text.old text.new (λ us. Sign mark.Comma ∷ word.Name name.now ∷ us)) }
{
    write!(text, ", {name} ")
}

/// Puts names, each behind a comma, at the end of the text.
fn put_more_names(text: &mut String, names: &[String]) -> Result<(), AllocError>
    ensures { OnOk result (Grows text.old text.new (more_names (map string_bytes names.now))) }
{
    for name in names {
        put_next_name(text, name.as_str())?;
    }
    Ok(())
}

/// Puts a name at the end of the text.
#[tactic(auto, unfolding(token_spelling::specs::Spelling::written))]
fn put_name(text: &mut String, name: &str) -> Result<(), AllocError>
    ensures { OnOk result (Grows text.old text.new (λ us. word.Name name.now ∷ us)) }
{
    write!(text, "{name} ")
}

/// Puts names, parted by commas, at the end of the text.
fn put_names(text: &mut String, names: &[String]) -> Result<(), AllocError>
    ensures { OnOk result (Grows text.old text.new (names_words (map string_bytes names.now))) }
{
    match names {
        [] => Ok(()),
        [first, rest @ ..] => {
            put_name(text, first.as_str())?;
            put_more_names(text, rest)
        }
    }
}

/// A procedure's parameters.
fn parameters(procedure: &Procedure) -> &[String]
    ensures { map string_bytes result.now ≡ take procedure.now.parameters (names_of procedure.now) }
{
    let names: &[String] = &procedure.names;
    &names[..procedure.parameters.min(names.len())]
}

/// Puts the mark of a procedure that is recorded at the end of the text.
#[tactic(auto, unfolding(token_spelling::specs::Spelling::written))]
fn put_memo(text: &mut String, memo: bool) -> Result<(), AllocError>
    ensures { OnOk result (Grows text.old text.new (memo_words memo)) }
{
    if memo { text.push_str("memo ") } else { Ok(()) }
}

/// Puts the name of a procedure, its parameters and the mark that opens its block at the end of the text.
#[tactic(auto, unfolding(token_spelling::specs::Spelling::written))]
fn put_head(text: &mut String, procedure: &Procedure) -> Result<(), AllocError>
    ensures { OnOk result (Grows text.old text.new (opening_words procedure.now)) }
{
    let name = procedure.name.as_str();
    write!(text, "proc {name} ( ")?;
    put_names(text, parameters(procedure))?;
    text.push_str(") {\n")
}

/// Puts a procedure at the end of the text.
fn put_procedure(text: &mut String, procedure: &Procedure) -> Result<(), AllocError>
    ensures { OnOk result (GrowsByBlock text.old text.new (decl_words (plain.procedure (proc procedure.now)))) }
{
    put_memo(text, procedure.memo)?;
    put_head(text, procedure)?;
    put_block(text, procedure, procedure.blocks.len(), 0)?;
    put_close(text)
}

/// Puts a declaration at the end of the text.
pub(crate) fn put_declaration(
    text: &mut String,
    declaration: &Declaration,
) -> Result<(), AllocError>
    ensures { OnOk result (GrowsByBlock text.old text.new (decl_words (decl declaration.now))) }
{
    match declaration {
        Declaration::Reducer(reducer) => put_reducer(text, reducer),
        Declaration::Procedure(procedure) => put_procedure(text, procedure),
    }
}
