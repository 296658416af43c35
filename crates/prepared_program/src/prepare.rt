// What is done before a session: the program's text is read, then its tables, then it is checked.
ghost use Rattle.std.specs.Prelude.{◌≡◌, ◌≢◌, ℕ, List, IfOk, IfErr};
ghost use Rattle.meaning.specs.Tree.{Tree};
ghost use Rattle.meaning.specs.TreeView.{Lined};
ghost use Rattle.source_tree.specs.Source.{Source};
ghost use Rattle.meaning.specs.Tables.{Tables as TableModel};
ghost use Rattle.input_tables.specs.Document.{reading, HasCause};
ghost use Rattle.procedure_parser.specs.Correct.{IsText, IsSource, IsFault, Answers};
ghost use Rattle.linked_program.specs.TableNames.{columned_of};
ghost use Rattle.spawn_checker.specs.Refused.{IsRefused as IsRefusedBy};
ghost use Rattle.prepared_program.specs.Preparing.{IsPrepared, IsProgram, IsRefused};

use input_tables::{Tables, TablesError};
use linked_program::checked::Checked;
use linked_program::violation::Rule;
use procedure_parser::{TextError, parse};
use spawn_checker::{CheckError, check};
use std::alloc::Global;
use thiserror::Error;

/// Why a program or its tables are refused.
#[derive(Debug, Drop, Error)]
pub enum PrepareError {
    #[error("out of memory")]
    NoMemory,
    #[error("refused E8 {line}")]
    Text { line: u32 },
    #[error("refused E2")]
    NotToml,
    #[error("refused E3 {table}")]
    Shape { table: String },
    #[error("refused E9 {rule} {name} {line}")]
    Check { rule: Rule, name: String, line: u32 },
}

/// The checked program of a text, and the tables of another. A refusal is that of the program's text, else that of the
/// tables, else that of the check; or want of memory.
pub fn prepare(
    alloc: Global,
    program: &[u8],
    tables: &str,
) -> Result<(Checked, Tables), PrepareError>
    ensures prepared { IfOk result (λ pair.
        IsPrepared program.now tables.now pair.0 pair.1.tables) }
    ensures unedited { IfOk result (λ pair. pair.1.edits ≡ 0) }
    ensures refused { IfErr result (IsRefused program.now tables.now) }
{
    let tree = match parse(alloc, program) {
        Ok(tree) => tree,
        Err(error) => return Err(text_refusal(error)),
    };
    let tables = match Tables::from_toml(alloc, tables) {
        Ok(tables) => tables,
        Err(error) => return Err(tables_refusal(error)),
    };
    match check(alloc, tree, &tables) {
        Ok(checked) => Ok((checked, tables)),
        Err(error) => Err(check_refusal(error)),
    }
}

// The refusal of a program's text.
fn text_refusal(error: TextError) -> PrepareError
    ensures { (text tables : List ℕ) → IsFault text error → ((s : Source) → IsSource s text → Answers (Err error) s) → IsRefused text tables result }
{
    match error {
        TextError::NoMemory => PrepareError::NoMemory,
        TextError::Text { line } => PrepareError::Text { line },
    }
}

// The refusal of tables.
fn tables_refusal(error: TablesError) -> PrepareError
    ensures { (text tables : List ℕ) → IsProgram text → HasCause tables error → IsRefused text tables result }
{
    match error {
        TablesError::NoMemory => PrepareError::NoMemory,
        TablesError::NotToml => PrepareError::NotToml,
        TablesError::Shape { table } => PrepareError::Shape { table },
    }
}

// The refusal of a check; a first check never wants for revision numbers.
fn check_refusal(error: CheckError) -> PrepareError
    requires numbers { error ≢ CheckError.Exhausted }
    ensures refused { (text tables_text : List ℕ) (tables : TableModel) (t : Tree) (l : List Lined)
        → reading tables_text ≡ Ok tables → IsText text t l → IsRefusedBy (columned_of tables) t l error → IsRefused text tables_text result }
{
    match error {
        CheckError::NoMemory => PrepareError::NoMemory,
        CheckError::Check { rule, name, line } => PrepareError::Check { rule, name, line },
        CheckError::Exhausted => unreachable!(),
    }
}
