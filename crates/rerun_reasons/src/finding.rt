// Why a run's memo instances are executed, by a replay of the program.
ghost use Rattle.std.specs.Prelude.{IfOk};
ghost use Rattle.record_theory.specs.InStep.{IsInStep};
ghost use Rattle.rerun_reasons.specs.Unanswered.{AreExplained, AreUnanswered, IsExplained, IsUnanswered};

use crate::reason::{Explained, Reasons};
use crate::replay::{Executed, Found};
use crate::setting::Setting;
use crate::stale::reason_of;
use crate::walk::replay;
use input_tables::Tables;
use linked_program::checked::Checked;
use rerun_records::records::Records;
use std::alloc::{AllocError, Global};

/// For so many of the instances that are executed it is said why.
const MOST_EXPLAINED: usize = 10;

/// What the memo instances of a run come to that begins with these tables and records, and why: whatever the workers do, the same
/// instances are executed. It takes the time of the serial run. By so many kits one worker records what it records. Want of memory is
/// the only error.
pub fn reasons(
    alloc: Global,
    checked: &Checked,
    tables: &Tables,
    records: &Records,
    kits: usize,
) -> Result<Reasons, AllocError>
    requires in_step { IsInStep tables.now.tables records.now }
    ensures explained { IfOk result (λ reasons.
        AreExplained checked.now.revisions tables.now.tables records.now reasons.first.items) }
{
    let setting = Setting {
        alloc,
        checked,
        tables,
        records,
    };
    let has_records = !records.is_empty();
    let most = if has_records { MOST_EXPLAINED } else { 0 };
    let procedures = checked.codes().len();
    let mut found = Found::new(alloc, procedures, most, kits.saturating_sub(1))?;
    let ending = replay(setting, &mut found)?;
    let first = with_reasons(setting, found.first)?;
    Ok(Reasons {
        counts: found.counts,
        first,
        has_records,
        ending,
    })
}

// These instances with why each is executed.
fn with_reasons(setting: Setting<'_>, first: Vec<Executed>) -> Result<Vec<Explained>, AllocError>
    requires unanswered { AreUnanswered setting first.items }
    ensures explained { IfOk result (λ es. AreExplained setting.entry.checked.now.revisions
        setting.entry.tables.now.tables setting.entry.records.now es.items) }
{
    let mut explained = Vec::new(setting.alloc);
    for executed in first {
        explained.push(with_reason(setting, executed)?)?;
    }
    Ok(explained)
}

// An instance with why it is executed.
fn with_reason(setting: Setting<'_>, executed: Executed) -> Result<Explained, AllocError>
    requires unanswered { IsUnanswered setting executed }
    ensures explained { IfOk result (IsExplained setting.entry.checked.now.revisions
        setting.entry.tables.now.tables setting.entry.records.now) }
{
    let reason = reason_of(setting, &executed)?;
    Ok(Explained {
        procedure: executed.procedure,
        arguments: executed.arguments,
        depth: executed.depth,
        reason,
    })
}
