// The text of answers, line by line.
ghost use Rattle.std.specs.Prelude.{◌≡◌, ℤ, ◌++◌, ◌∷◌, Option, IfOk, OnOk, drop, flat_map, map, slice_get, string_bytes};
ghost use Rattle.monoid_laws.specs.Kinds.{meaning, joined};
ghost use Rattle.meaning.specs.Statements.{reducers, found};
ghost use Rattle.linked_program.specs.Procedures.{procedures};
ghost use Rattle.meaning.specs.Tree.{Tree};
ghost use Rattle.meaning.specs.TreeView.{tree, decl, red};
ghost use Rattle.trace_report.specs.Outcomes.{Extends, IsRunText, Shows, named_fault_text, fault_line};
ghost use Rattle.meaning.specs.Text.{unknown_text, run_line, result_text, fault_name, spaced, spaced_amount, best_text, worth_text, worth_line, worths_text};

use crate::amounts::merged;
use linked_program::checked::Checked;
use meaning::FaultKind;
use meaning::tree::{Declaration, Program, Reducer};
use monoid_laws::Val;
use plain_rules::trace_lines::place_behind;
use positions::answer::RunAnswer;
use positions::phase::Fault;
use std::alloc::{AllocError, Global};
use std::fmt::Write;

/// Puts the answer to a line that is no command at the end of the text. Want of memory is the only error.
pub fn push_unknown(text: &mut String, line: usize) -> Result<(), AllocError>
    ensures { OnOk result (Extends text.old text.new (unknown_text line)) }
{
    writeln!(text, "refused E19 {line}")
}

/// Puts the line of a run's number at the end of the text. Want of memory is the only error.
pub fn push_run(text: &mut String, number: usize) -> Result<(), AllocError>
    ensures { OnOk result (Extends text.old text.new (run_line number)) }
{
    writeln!(text, "run {number}")
}

/// Puts the line of a run's result at the end of the text. Want of memory is the only error.
pub fn push_result(text: &mut String, result_value: i64) -> Result<(), AllocError>
    ensures { OnOk result (Extends text.old text.new (result_text result_value)) }
{
    writeln!(text, "result {result_value}")
}

/// What a fault is called.
pub fn kind_name(kind: FaultKind) -> &'static str
    ensures { result.now ≡ fault_name kind }
{
    match kind {
        FaultKind::DivideByZero => "divide by zero",
        FaultKind::MissingRow => "missing row",
        FaultKind::RangeTooLong => "range too long",
        FaultKind::TooDeep => "too deep",
        FaultKind::BadElement => "bad element",
    }
}

/// Puts the line of a fault at the end of the text. Want of memory is the only error.
pub fn push_fault(
    text: &mut String,
    kind: FaultKind,
    procedure: &str,
    statement: u32,
) -> Result<(), AllocError>
    ensures { OnOk result (Extends text.old text.new
        (fault_line kind procedure.now statement)) }
{
    let name = kind_name(kind);
    writeln!(text, "fault {name} in {procedure} at {statement}")
}

// Puts numbers at the end of the text, each after a space.
fn push_numbers(text: &mut String, numbers: &[i64]) -> Result<(), AllocError>
    ensures { OnOk result (Extends text.old text.new (flat_map spaced numbers.now)) }
{
    for number in numbers {
        write!(text, " {number}")?;
    }
    Ok(())
}

// Puts the numbers of all pieces at the end of the text.
fn push_pieces(text: &mut String, pieces: &[Vec<i64>]) -> Result<(), AllocError>
    ensures { OnOk result (Extends text.old text.new
        (flat_map spaced (joined (map (λ p. p.items) pieces.now)))) }
{
    for piece in pieces {
        push_numbers(text, piece)?;
    }
    Ok(())
}

// Puts amounts at the end of the text, each with its key.
fn push_amounts(text: &mut String, amounts: &[(i64, i64)]) -> Result<(), AllocError>
    ensures { OnOk result (Extends text.old text.new (flat_map spaced_amount amounts.now)) }
{
    for (key, amount) in amounts {
        write!(text, " {key}:{amount}")?;
    }
    Ok(())
}

// Puts the best pair at the end of the text.
fn push_best(text: &mut String, best: Option<(i64, i64)>) -> Result<(), AllocError>
    ensures { OnOk result (Extends text.old text.new (best_text best)) }
{
    match best {
        None => write!(text, " none"),
        Some((value, row)) => write!(text, " {value} {row}"),
    }
}

/// Puts a reducer's value at the end of the text, a space before each of its parts. Want of memory is the only error.
pub fn push_value(alloc: Global, text: &mut String, value: &Val) -> Result<(), AllocError>
    ensures { OnOk result (Extends text.old text.new (worth_text (meaning value.now))) }
{
    match value {
        Val::Int(number) => write!(text, " {number}"),
        Val::List(numbers) => push_numbers(text, numbers),
        Val::Pieces(pieces) => push_pieces(text, pieces),
        Val::Arg(best) => push_best(text, *best),
        Val::Pair(factor, term) => write!(text, " {factor} {term}"),
        Val::Hist(amounts) => push_amounts(text, amounts),
        Val::HistPieces(pieces) => {
            let amounts = merged(alloc, pieces)?;
            push_amounts(text, &amounts)
        }
        Val::Elem(element) => write!(text, " {element}"),
    }
}

/// Puts the line of a reducer at the end of the text. Want of memory is the only error.
pub fn push_reducer(
    alloc: Global,
    text: &mut String,
    reducer: &Reducer,
    value: &Val,
) -> Result<(), AllocError>
    ensures { OnOk result (Extends text.old text.new
        (worth_line (red reducer.now) (meaning value.now))) }
{
    text.push_str(reducer.name.as_str())?;
    push_value(alloc, text, value)?;
    writeln!(text)
}

// Puts the line of a declared reducer at the end of the text, and gives the place of the next value.
fn push_declared(
    alloc: Global,
    text: &mut String,
    declaration: &Declaration,
    values: &[Val],
    at: usize,
) -> Result<usize, AllocError>
    ensures { IfOk result (λ next. (rest : Tree)
        → string_bytes text.old ++ worths_text (reducers (decl declaration.now ∷ rest)) (map meaning (drop at values.now))
        ≡ string_bytes text.new ++ worths_text (reducers rest) (map meaning (drop next values.now))) }
{
    match declaration {
        Declaration::Procedure(_) => Ok(at),
        Declaration::Reducer(reducer) => match values.get(at) {
            None => Ok(at),
            Some(value) => {
                push_reducer(alloc, text, reducer, value)?;
                Ok(place_behind(values, at))
            }
        },
    }
}

/// Puts the lines of a program's reducers at the end of the text. Want of memory is the only error.
pub fn push_values(
    alloc: Global,
    text: &mut String,
    program: &Program,
    values: &[Val],
) -> Result<(), AllocError>
    ensures { OnOk result (Extends text.old text.new
        (worths_text (reducers (tree program.now)) (map meaning values.now))) }
{
    let mut at = 0;
    for declaration in program.declarations.iter() {
        at = push_declared(alloc, text, declaration, values, at)?;
    }
    Ok(())
}

// The name of the procedure of that number, counted from 0; empty where there is no such procedure.
fn procedure_name(declarations: &[Declaration], number: usize) -> &str
    ensures { result.now ≡ (found (slice_get (procedures (map decl declarations.now)) number)).called }
{
    let mut left = number;
    for declaration in declarations {
        if let Declaration::Procedure(procedure) = declaration {
            if left == 0 {
                return procedure.name.as_str();
            }
            left -= 1;
        }
    }
    ""
}

// Puts the line of a run's fault at the end of the text.
fn push_fault_of(text: &mut String, checked: &Checked, fault: Fault) -> Result<(), AllocError>
    ensures { OnOk result (Extends text.old text.new (named_fault_text checked.now fault)) }
{
    let name = procedure_name(&checked.program().declarations, fault.procedure);
    push_fault(text, fault.kind, name, fault.statement)
}

/// Puts what a run came to at the end of the text; a run that came to no end is refused as want of memory.
pub fn push_outcome(
    alloc: Global,
    text: &mut String,
    checked: &Checked,
    answer: &RunAnswer,
) -> Result<(), AllocError>
    ensures { OnOk result (Shows checked.now answer.now text.old text.new) }
{
    match answer {
        RunAnswer::Finished { result, values, .. } => {
            push_result(text, *result)?;
            push_values(alloc, text, checked.program(), values.as_slice())
        }
        RunAnswer::Fault(fault) => push_fault_of(text, checked, *fault),
        RunAnswer::Unfinished | RunAnswer::NoMemory | RunAnswer::NoKit => Err(AllocError),
    }
}

/// The answer to a run of that number, counted from 1: its line, and what it came to. A run that came to no end is refused as want of
/// memory.
pub fn answer_text(
    alloc: Global,
    number: usize,
    checked: &Checked,
    answer: &RunAnswer,
) -> Result<String, AllocError>
    ensures { IfOk result (λ text.
        IsRunText number checked.now answer.now (string_bytes text)) }
{
    let mut text = String::new(alloc);
    push_run(&mut text, number)?;
    push_outcome(alloc, &mut text, checked, answer)?;
    Ok(text)
}
