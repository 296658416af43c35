// A session of a program's text over tables that the caller has made.
ghost use Rattle.std.specs.Prelude.{◌≡◌, ◌≢◌, ℕ, List, Err, IfOk, IfErr, [], length};
ghost use Rattle.meaning.specs.Tree.{Tree};
ghost use Rattle.meaning.specs.TreeView.{Lined};
ghost use Rattle.source_tree.specs.Source.{Source};
ghost use Rattle.meaning.specs.Tables.{Tables as TableModel};
ghost use Rattle.procedure_parser.specs.Correct.{IsText, IsSource, IsFault, Answers};
ghost use Rattle.linked_program.specs.TableNames.{columned_of};
ghost use Rattle.spawn_checker.specs.Refused.{IsRefused};
ghost use Rattle.report_session.specs.Opened.{IsNoSession, IsProgramOver, IsUnopened};

use crate::kits::kits_for;
use input_tables::Tables;
use kept_session::Session;
use linked_program::checked::Checked;
use linked_program::violation::Rule;
use monoid_laws::Kind;
use procedure_parser::{TextError, parse};
use spawn_checker::{CheckError, check};
use std::alloc::{AllocError, Global};
use thiserror::Error;
use view_pool::View;

/// Why a session isn't opened.
#[derive(Debug, Drop, Error)]
pub enum OpenError {
    #[error("out of memory")]
    NoMemory,
    /// The text isn't one of a program: the line of its first fault, or 0 where it is too long.
    #[error("refused E8 {line}")]
    Text { line: u32 },
    /// The program breaks a rule: by which reducer or procedure, and on which line.
    #[error("refused E9 {rule} {name} {line}")]
    Check { rule: Rule, name: String, line: u32 },
    /// There were to be no kits.
    #[error("no kit")]
    NoKit,
}

/// Opens a session of a program's text over these tables, with so many kits of views that the caller makes. It has run
/// nothing. Refused for the text, else by the check, for want of memory, also where a view is of another kind, and where
/// there are to be no kits.
pub fn open<V: View, M: Fn(Kind) -> Result<V, AllocError>>(
    alloc: Global,
    program: &[u8],
    tables: Tables,
    kits: usize,
    make: &M,
) -> Result<Session<V>, OpenError>
    requires callable { M.IsAlwaysCallable make.now }
    ensures program { IfOk result (λ session. IsProgramOver program.now tables.tables session.checked) }
    ensures tables { IfOk result (λ session. session.tables ≡ tables) }
    ensures free { IfOk result (λ session. length session.kits.kits ≡ kits) }
    ensures records { IfOk result (λ session. session.records ≡ []) }
    ensures refused { IfErr result (IsUnopened program.now tables.tables kits) }
{
    match checked_over(alloc, program, &tables) {
        Ok(checked) => begun(alloc, checked, tables, kits, make),
        Err(error) => {
            drop(tables);
            Err(error)
        }
    }
}

// A session of a checked program over these tables, with so many kits. What is refused has been handed on all the same, so
// that nothing of it is dropped here.
fn begun<V: View, M: Fn(Kind) -> Result<V, AllocError>>(
    alloc: Global,
    checked: Checked,
    tables: Tables,
    count: usize,
    make: &M,
) -> Result<Session<V>, OpenError>
    requires callable { M.IsAlwaysCallable make.now }
    requires columns { checked.tables ≡ columned_of tables.tables }
    ensures program { IfOk result (λ session. session.checked ≡ checked) }
    ensures tables { IfOk result (λ session. session.tables ≡ tables) }
    ensures free { IfOk result (λ session. length session.kits.kits ≡ count) }
    ensures records { IfOk result (λ session. session.records ≡ []) }
    ensures refused { IfErr result (IsNoSession count) }
{
    match kits_for(alloc, checked.kinds(), count, make) {
        Ok(kits) => match Session::new(alloc, checked, tables, kits) {
            Ok(session) => Ok(session),
            Err(_) => Err(OpenError::NoKit),
        },
        Err(_) => {
            unbegun::<V>(alloc, checked, tables);
            Err(OpenError::NoMemory)
        }
    }
}

/// Gives a program and tables back by a session that is refused, since it would have no kits: so who has no kits for them needn't
/// prove how they are dropped.
pub fn unbegun<V: View>(alloc: Global, checked: Checked, tables: Tables)
    requires columns { checked.tables ≡ columned_of tables.tables }
{
    match Session::<V>::new(alloc, checked, tables, Vec::new(alloc)) {
        Ok(session) => session.end(),
        Err(_) => {}
    }
}

// The program of a text, checked against tables.
fn checked_over(alloc: Global, program: &[u8], tables: &Tables) -> Result<Checked, OpenError>
    ensures program { IfOk result (λ checked. IsProgramOver program.now tables.now.tables checked) }
    ensures refused { IfErr result (λ e. (kits : ℕ) → IsUnopened program.now tables.now.tables kits e) }
{
    let tree = match parse(alloc, program) {
        Ok(tree) => tree,
        Err(error) => return Err(text_refusal(error)),
    };
    match check(alloc, tree, tables) {
        Ok(checked) => Ok(checked),
        Err(error) => Err(check_refusal(error)),
    }
}

// The refusal of a program's text.
fn text_refusal(error: TextError) -> OpenError
    ensures { (text : List ℕ) (tables : TableModel) (kits : ℕ) → IsFault text error
        → ((s : Source) → IsSource s text → Answers (Err error) s) → IsUnopened text tables kits result }
{
    match error {
        TextError::NoMemory => OpenError::NoMemory,
        TextError::Text { line } => OpenError::Text { line },
    }
}

// The refusal of a check; a first check never wants for revision numbers.
fn check_refusal(error: CheckError) -> OpenError
    requires numbers { error ≢ CheckError.Exhausted }
    ensures refused { (text : List ℕ) (tables : TableModel) (kits : ℕ) (t : Tree) (l : List Lined)
        → IsText text t l → IsRefused (columned_of tables) t l error → IsUnopened text tables kits result }
{
    match error {
        CheckError::NoMemory => OpenError::NoMemory,
        CheckError::Check { rule, name, line } => OpenError::Check { rule, name, line },
        CheckError::Exhausted => unreachable!(),
    }
}
