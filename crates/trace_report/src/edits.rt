// The text of what an edit came to.
ghost use Rattle.std.specs.Prelude.{◌≡◌, OnOk, codes};
ghost use Rattle.meaning.specs.Edits as edits;
ghost use Rattle.meaning.specs.Text.{refusal_text, violation_text};
ghost use Rattle.input_tables.specs.Edited.{row_refusal};
ghost use Rattle.trace_report.specs.Outcomes.{Extends, accepted_text};
ghost use Rattle.session_edits.specs.Said.{violation, refusal};

use input_tables::RowError;
use linked_program::violation::Rule;
use session_edits::EditError;
use std::alloc::AllocError;
use std::fmt::Write;

/// Puts the answer to an edit that was accepted at the end of the text. Want of memory is the only error.
pub fn push_accepted(text: &mut String) -> Result<(), AllocError>
    ensures { OnOk result (Extends text.old text.new accepted_text) }
{
    writeln!(text, "ok")
}

// Puts the answer to a row that may not be put or deleted at the end of the text.
fn push_row_refusal(text: &mut String, error: &RowError) -> Result<(), AllocError>
    ensures { OnOk result (Extends text.old text.new (refusal_text (row_refusal error.now))) }
{
    match error {
        RowError::UnknownTable => writeln!(text, "refused E4"),
        RowError::WrongColumns => writeln!(text, "refused E5"),
        RowError::RowRange => writeln!(text, "refused E6"),
        RowError::NoRow => writeln!(text, "refused E7"),
        RowError::Exhausted => writeln!(text, "refused E18"),
    }
}

// Puts the answer to a text that isn't one of procedures at the end of the text.
fn push_bad_text(text: &mut String, line: u32) -> Result<(), AllocError>
    ensures { OnOk result (Extends text.old text.new (refusal_text (edits.BadText line))) }
{
    writeln!(text, "refused E8 {line}")
}

// Puts the answer to an edit by which a rule would be broken at the end of the text.
fn push_broken(text: &mut String, rule: Rule, holder: &str, line: u32) -> Result<(), AllocError>
    ensures { OnOk result (Extends text.old text.new (violation_text (violation rule holder.now line))) }
{
    let number = rule.number();
    writeln!(text, "refused E9 C{number} {holder} {line}")
}

/// Puts the answer to an edit that was refused at the end of the text. Want of memory is the only error.
pub fn push_edit_refusal(text: &mut String, error: &EditError) -> Result<(), AllocError>
    ensures { OnOk result (Extends text.old text.new (refusal_text (refusal error.now))) }
{
    match error {
        EditError::Row(error) => push_row_refusal(text, error),
        EditError::BadText { line } => push_bad_text(text, *line),
        EditError::Broken { rule, holder, line } => push_broken(
            text,
            *rule,
            holder.as_str(),
            *line,
        ),
        EditError::Exhausted => writeln!(text, "refused E18"),
    }
}
