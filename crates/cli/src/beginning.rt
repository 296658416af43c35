// The beginning of a session: its program and tables, and its kits.
ghost use Rattle.std.specs.Prelude.{◌≡◌, IfOk, IfErr, length};
ghost use Rattle.prepared_program.specs.Preparing.{IsPrepared};
ghost use Rattle.cli.specs.Begun.{IsUnbegun};

use crate::sorts::{Sort, kits_of};
use command_line::options::Views;
use kept_session::Session;
use monoid_laws::Kind;
use prepared_program::prepare::{PrepareError, prepare};
use report_session::opening::unbegun;
use std::alloc::{AllocError, Global};
use thiserror::Error;
use view_pool::View;

/// Why a session isn't begun.
#[derive(Debug, Drop, Error)]
pub enum BeginError {
    /// Its program or its tables are refused, or memory is.
    #[error("{0}")]
    Prepare(PrepareError),
    /// There are no kits.
    #[error("no kit")]
    NoKit,
}

/// The session of a program's text and tables' text, with so many kits of views that the caller makes, of the sorts that are
/// asked for; refused as by
/// `prepare`, for want of memory where a view is of another kind, and where there are to be no kits.
pub fn begin<V: View, M: Fn(Sort, Kind) -> Result<V, AllocError>>(
    alloc: Global,
    program: &[u8],
    tables: &str,
    kits: usize,
    views: Views,
    make: &M,
) -> Result<Session<V>, BeginError>
    requires callable { M.IsAlwaysCallable make.now }
    ensures prepared { IfOk result (λ session.
        IsPrepared program.now tables.now session.checked session.tables.tables) }
    ensures unedited { IfOk result (λ session. session.tables.edits ≡ 0) }
    ensures count { IfOk result (λ session. length session.kits.kits ≡ kits) }
    ensures refused { IfErr result (IsUnbegun program.now tables.now kits) }
{
    match prepare(alloc, program, tables) {
        Ok((checked, tables)) => match kits_of(alloc, checked.kinds(), kits, views, make) {
            Ok(kits) => match Session::new(alloc, checked, tables, kits) {
                Ok(session) => Ok(session),
                Err(_) => Err(BeginError::NoKit),
            },
            Err(_) => {
                unbegun::<V>(alloc, checked, tables);
                Err(BeginError::Prepare(PrepareError::NoMemory))
            }
        },
        Err(error) => Err(BeginError::Prepare(error)),
    }
}
