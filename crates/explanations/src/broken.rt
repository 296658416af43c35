//! Which name breaks a rule, as the program's tree tells.

use crate::absent::absent_of;
use crate::expressions::variable;
use crate::known::{bound_by, known_at, line_of_bind, tell, unknown_among, unknown_in};
use crate::statements::procedure_called;
use input_tables::Tables;
use linked_program::violation::Rule;
use meaning::tree::{Action, Declaration, Procedure, Program, Reducer, Statement};
use monoid_laws::Kind;
use std::alloc::{AllocError, Global};

/// What breaks a rule, with the names at fault: of a declaration or a bind with the line of the earlier one, of arguments and values with
/// how many are taken and how many are given.
#[derive(Clone, Copy)]
pub(crate) enum Broken<'a> {
    NoTable(&'a str),
    NoColumn(&'a str, &'a str),
    Unknown(&'a str),
    NoProcedure(&'a str),
    Arguments(&'a str, usize, usize),
    NoReducer(&'a str),
    Values(&'a str, usize, usize),
    Bound(&'a str, u32),
    Parameter(&'a str),
    Declared(&'a str, u32),
}

impl<'a> Broken<'a> {
    /// The name at fault.
    pub(crate) fn name(self) -> &'a str {
        match self {
            Broken::NoTable(name)
            | Broken::NoColumn(_, name)
            | Broken::Unknown(name)
            | Broken::NoProcedure(name)
            | Broken::Arguments(name, _, _)
            | Broken::NoReducer(name)
            | Broken::Values(name, _, _)
            | Broken::Bound(name, _)
            | Broken::Parameter(name)
            | Broken::Declared(name, _) => name,
        }
    }
}

// At how many statements of the line it is looked for at most: each look goes through the procedure once, and a line may have thousands.
const MOST_LOOKS: u32 = 64;

/// A program and its tables, and the rule that is broken at a line of it.
#[derive(Clone, Copy)]
pub(crate) struct Place<'a> {
    pub program: &'a Program,
    pub tables: &'a Tables,
    pub rule: Rule,
    pub line: u32,
}

/// What breaks the rule, in the procedure or reducer of that name; nothing where that isn't found among the first statements of the line.
/// Want of memory is the only error.
pub(crate) fn broken_by<'a>(
    alloc: Global,
    place: Place<'a>,
    holder: &str,
) -> Result<Option<Broken<'a>>, AllocError> {
    if let Some(broken) = declared_twice(place, holder) {
        return Ok(Some(broken));
    }
    let mut looks = MOST_LOOKS;
    for declaration in &place.program.declarations {
        if let Declaration::Procedure(procedure) = declaration {
            if procedure.name.as_str() == holder {
                let found = broken_in(alloc, place, procedure, &mut looks)?;
                if found.is_some() {
                    return Ok(found);
                }
            }
        }
    }
    Ok(None)
}

// That a declaration on the line has the name of an earlier one of its sort.
fn declared_twice<'a>(place: Place<'a>, holder: &str) -> Option<Broken<'a>> {
    if !matches!(place.rule, Rule::Twice) {
        return None;
    }
    let mut procedure = None;
    let mut reducer = None;
    for declaration in &place.program.declarations {
        let (name, line, earlier) = match declaration {
            Declaration::Procedure(found) => (found.name.as_str(), found.line, &mut procedure),
            Declaration::Reducer(found) => (found.name.as_str(), found.line, &mut reducer),
        };
        if name == holder {
            match *earlier {
                Some(before) if line == place.line => return Some(Broken::Declared(name, before)),
                Some(_) => {}
                None => *earlier = Some(line),
            }
        }
    }
    None
}

// What breaks the rule in a procedure, by so many looks at most.
fn broken_in<'a>(
    alloc: Global,
    place: Place<'a>,
    procedure: &'a Procedure,
    looks: &mut u32,
) -> Result<Option<Broken<'a>>, AllocError> {
    if let Some(broken) = parameter_twice(place, procedure) {
        return Ok(Some(broken));
    }
    for (block, inside) in procedure.blocks.iter().enumerate() {
        for statement in &inside.statements {
            if statement.line == place.line && *looks > 0 {
                *looks -= 1;
                let found = broken_at(alloc, place, procedure, block, statement)?;
                if found.is_some() {
                    return Ok(found);
                }
            }
        }
    }
    Ok(None)
}

// That two parameters on the line have one name.
fn parameter_twice<'a>(place: Place<'_>, procedure: &'a Procedure) -> Option<Broken<'a>> {
    if !matches!(place.rule, Rule::Twice) || procedure.line != place.line {
        return None;
    }
    for (number, name) in procedure
        .names
        .iter()
        .enumerate()
        .take(procedure.parameters)
    {
        for other in procedure.names.iter().take(number) {
            if other.as_str() == name.as_str() {
                return Some(Broken::Parameter(name));
            }
        }
    }
    None
}

// What breaks the rule at a statement of the block of that number.
fn broken_at<'a>(
    alloc: Global,
    place: Place<'a>,
    procedure: &'a Procedure,
    block: usize,
    statement: &'a Statement,
) -> Result<Option<Broken<'a>>, AllocError> {
    match place.rule {
        Rule::Table => Ok(absent_of(&statement.action, place.tables)),
        Rule::Arguments => Ok(wrong_arguments(place.program, &statement.action)),
        Rule::Update => Ok(wrong_update(place.program, &statement.action)),
        Rule::Twice => Ok(bound_twice(procedure, statement)),
        Rule::Unknown => {
            let known = known_at(alloc, procedure, block, statement.number)?;
            match unknown_of(&statement.action, known) {
                Some(name) => Ok(Some(Broken::Unknown(variable(procedure, name)))),
                None => Ok(absent_procedure(place.program, &statement.action)),
            }
        }
        _ => Ok(None),
    }
}

// The first name of a statement that isn't known there; a loop's arguments know its variable.
fn unknown_of(action: &Action, mut known: Vec<bool>) -> Option<usize> {
    match action {
        Action::Bind(_, value) => unknown_in(value, &known),
        Action::If(condition, _, _) => unknown_in(condition, &known),
        Action::Return(value) => unknown_in(value, &known),
        Action::Enter(_, _, _, arguments) => unknown_among(arguments, &known),
        Action::Update(_, numbers) => unknown_among(numbers, &known),
        Action::Loop(name, low, high, _, _, arguments) => {
            if let Some(name) = unknown_in(low, &known) {
                return Some(name);
            }
            if let Some(name) = unknown_in(high, &known) {
                return Some(name);
            }
            tell(&mut known, *name);
            unknown_among(arguments, &known)
        }
        Action::Read(_, _) | Action::Sync => None,
    }
}

// The procedure that a statement enters, and how many arguments it gives.
fn entered_by(action: &Action) -> Option<(&str, usize)> {
    match action {
        Action::Enter(_, _, callee, arguments) => Some((callee.as_str(), arguments.len())),
        Action::Loop(_, _, _, _, callee, arguments) => Some((callee.as_str(), arguments.len())),
        _ => None,
    }
}

fn absent_procedure<'a>(program: &Program, action: &'a Action) -> Option<Broken<'a>> {
    let (callee, _) = entered_by(action)?;
    match procedure_called(program, callee) {
        Some(_) => None,
        None => Some(Broken::NoProcedure(callee)),
    }
}

fn wrong_arguments<'a>(program: &Program, action: &'a Action) -> Option<Broken<'a>> {
    let (callee, given) = entered_by(action)?;
    let taken = procedure_called(program, callee)?.parameters;
    if taken == given {
        return None;
    }
    Some(Broken::Arguments(callee, taken, given))
}

// The reducer that a statement names and there isn't, or that it gives too many or too few values.
fn wrong_update<'a>(program: &Program, action: &'a Action) -> Option<Broken<'a>> {
    match action {
        Action::Update(name, values) => match reducer_called(program, name.as_str()) {
            None => Some(Broken::NoReducer(name.as_str())),
            Some(reducer) => {
                let taken = values_of(&reducer.kind);
                if taken == values.len() {
                    return None;
                }
                Some(Broken::Values(name.as_str(), taken, values.len()))
            }
        },
        Action::Read(_, name) => match reducer_called(program, name.as_str()) {
            None => Some(Broken::NoReducer(name.as_str())),
            Some(_) => None,
        },
        _ => None,
    }
}

/// The reducer of that name.
pub(crate) fn reducer_called<'a>(program: &'a Program, name: &str) -> Option<&'a Reducer> {
    for declaration in &program.declarations {
        if let Declaration::Reducer(reducer) = declaration {
            if reducer.name.as_str() == name {
                return Some(reducer);
            }
        }
    }
    None
}

// How many values an update of that kind takes.
fn values_of(kind: &Kind) -> usize {
    match kind {
        Kind::Argmax | Kind::Affine | Kind::Hist => 2,
        _ => 1,
    }
}

// The name that a statement binds, where it is a parameter's or bound before.
fn bound_twice<'a>(procedure: &'a Procedure, statement: &Statement) -> Option<Broken<'a>> {
    let number = bound_by(&statement.action)?;
    let name = variable(procedure, number);
    if number < procedure.parameters {
        return Some(Broken::Parameter(name));
    }
    let line = line_of_bind(procedure, number, statement.number)?;
    Some(Broken::Bound(name, line))
}
