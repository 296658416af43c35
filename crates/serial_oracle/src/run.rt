//! A run of a program, statement by statement, in the order of a run on one worker.
ghost use Rattle.std.specs.Prelude.{◌≡◌, ℕ, ◌<◌, map, slice_get, string_bytes, Some};
ghost use Rattle.meaning.specs.TreeView.{term, proc};
ghost use Rattle.meaning.specs.TreeView.{deed as deed_plain, statements as statements_plain, block as block_plain};
ghost use Rattle.meaning.specs.Outcome.{Site};
ghost use Rattle.meaning.specs.Statements.{job_of};
ghost use Rattle.meaning.specs.Statements.{turn_values as turn_values_of};
ghost use Rattle.meaning.specs.Elision.{deed, body, all_turns};
ghost use Rattle.meaning.specs.Tree.{Tree};
ghost use Rattle.serial_oracle.specs.Listing.{tables_plain};
ghost use Rattle.serial_oracle.specs.Results.{Gives, Does, GivesNext, EvaluatesAll, Summary, results, site_at, with_executed, with_reused};
ghost use Rattle.serial_oracle.specs.Keeping.{kept, tree_in, tables_in, records_in, enters_in};
ghost use Rattle.serial_oracle.specs.Worths.{AreFit, summary};
ghost use Rattle.serial_oracle.specs.Pieces.{site_of, job_in, bound, back, told, updates_here, entered, looped, inside, turn, by_record};
ghost use Rattle.serial_oracle.specs.Scoped.{results_in, inside_in, memo_results, chosen_in};

use crate::expressions::{all_values, evaluate};
use crate::journal::{Journal, note_executed, note_reused};
use crate::names::{find_procedure, fresh, put, put_into, with_name};
use crate::ranges::range_of;
use crate::scope::{Choice, Counted, Entry, Scope, Turns};
use crate::stops::{Stop, Trouble, stopped};
use crate::tables::TableRows;
use crate::updates;
use crate::validity::{Found, valid_record};
use meaning::tree::{Action, Expr, Procedure, Statement};
use meaning::{DEPTH_LIMIT, FaultKind};

/// Binds a name to the value of an expression.
fn run_bind<'p>(
    tables: &[TableRows],
    here: &'p str,
    number: u32,
    x: usize,
    e: &Expr,
    env: &mut Vec<Option<i64>>,
) -> Result<Option<i64>, Stop<'p>>
    ensures { (program : Tree) (s : Summary)
        → GivesNext result env.new.items s (results program
        (bound (tables_plain tables.now) (site_at here.now number) env.old.items x (term e.now)) s) }
{
    match evaluate(tables, env, e) {
        Err(kind) => Err(stopped(kind, here, number)),
        Ok(v) => {
            put(env, x, v);
            Ok(None)
        }
    }
}

/// Gives the value of an expression back.
fn run_return<'p>(
    tables: &[TableRows],
    here: &'p str,
    number: u32,
    e: &Expr,
    env: &[Option<i64>],
) -> Result<Option<i64>, Stop<'p>>
    ensures { (program : Tree) (s : Summary)
        → GivesNext result env.now s (results program (back (tables_plain tables.now) (site_at here.now number) env.now (term e.now)) s) }
{
    match evaluate(tables, env, e) {
        Err(kind) => Err(stopped(kind, here, number)),
        Ok(v) => Ok(Some(v)),
    }
}

/// Binds a name to the number of a reducer.
fn run_read<'p, 's>(
    scope: &Scope<'p, 's>,
    x: usize,
    r: &str,
    env: &mut Vec<Option<i64>>,
    journal: &Journal<'p>,
) -> Result<Option<i64>, Stop<'p>>
    requires fit { AreFit (tree_in scope.now) (records_in scope.now) }
    ensures { GivesNext result env.new.items (summary scope.now journal.now)
        (results (tree_in scope.now) (told (tree_in scope.now) env.old.items x r.now) (summary scope.now journal.now)) }
{
    match updates::read(scope, r, &journal.changes) {
        Err(_) => Err(Stop::NoMemory),
        Ok(v) => {
            put(env, x, v);
            Ok(None)
        }
    }
}

/// Updates a reducer.
fn run_update<'p, 's>(
    scope: &Scope<'p, 's>,
    here: &'p str,
    number: u32,
    r: &str,
    es: &[Expr],
    env: &[Option<i64>],
    journal: &mut Journal<'p>,
) -> Result<Option<i64>, Stop<'p>>
    ensures { GivesNext result env.now (summary scope.now journal.new)
        (results (tree_in scope.now) (updates_here (tree_in scope.now) (tables_in scope.now) (site_at here.now number) env.now r.now
        (map term es.now)) (summary scope.now journal.old)) }
{
    match updates::update_reducer(scope, env, r, es, &mut journal.changes) {
        Err(trouble) => Err(trouble.at(here, number)),
        Ok(()) => Ok(None),
    }
}

/// The arguments of the i-th iteration of a loop.
fn turn_values(
    scope: &Scope,
    entry: &Entry,
    turns: Turns,
    i: u64,
    env: &[Option<i64>],
) -> Result<Vec<i64>, Trouble>
    requires { i < turns.range.count }
    ensures { (site : Site) (grain : ℕ) → EvaluatesAll result
        (turn_values_of (tables_in scope.now) (job_of site env.now turns.x entry.now.callee.now
        (map term entry.now.arguments.now) grain turns.range.low) i).answer }
{
    match with_name(scope.alloc, env, turns.x, turns.range.at(i)) {
        Err(_) => Err(Trouble::NoMemory),
        Ok(inner) => all_values(scope.alloc, scope.tables, &inner, entry.arguments),
    }
}

/// Answers a memo instance by a record.
fn answer_by<'p, 's>(
    scope: &Scope<'p, 's>,
    found: Found<'s>,
    name: &'p str,
    args: &[i64],
    journal: &mut Journal<'p>,
) -> Result<i64, Stop<'p>>
    requires place { slice_get (records_in scope.now) found.place ≡ Some (kept found.known.now) }
    ensures { Gives result (summary scope.now journal.new)
        (by_record (tree_in scope.now) (kept found.entry.known.now) (name.now, args.now) (summary scope.now journal.old)) }
{
    match note_reused(scope.alloc, journal, found.place, name, args) {
        Err(_) => Err(Stop::NoMemory),
        Ok(()) => Ok(found.known.value),
    }
}

/// Enters an instance at a statement, where so many levels are left.
#[cycle(run)]
pub(crate) fn enter<'p, 's>(
    scope: &Scope<'p, 's>,
    left: u32,
    here: &'p str,
    statement: u32,
    name: &'p str,
    args: &[i64],
    journal: &mut Journal<'p>,
) -> Result<i64, Stop<'p>>
    requires fit { AreFit (tree_in scope.now) (records_in scope.now) }
    ensures { Gives result (summary scope.now journal.new)
        (results (tree_in scope.now) (enters_in scope.now left (site_at here.now statement) name.now
        args.now) (summary scope.now journal.old)) }
{
    if left == 0 {
        return Err(stopped(FaultKind::TooDeep, here, statement));
    }
    match find_procedure(scope.program, name) {
        None => Ok(0),
        Some(p) => {
            if p.memo {
                run_memo(scope, left - 1, p, name, args, journal)
            } else {
                run_instance(scope, left - 1, p, args, journal)
            }
        }
    }
}

/// Answers a memo instance by its valid record, or runs it.
#[cycle(run)]
fn run_memo<'p, 's>(
    scope: &Scope<'p, 's>,
    left: u32,
    p: &'p Procedure,
    name: &'p str,
    args: &[i64],
    journal: &mut Journal<'p>,
) -> Result<i64, Stop<'p>>
    requires fit { AreFit (tree_in scope.now) (records_in scope.now) }
    ensures { Gives result (summary scope.now journal.new) (memo_results scope.now left p.now name.now args.now journal.old) }
{
    match valid_record(scope, DEPTH_LIMIT.saturating_sub(left), name, args) {
        Some(found) => answer_by(scope, found, name, args, journal),
        None => run_new(scope, left, p, name, args, journal),
    }
}

/// Runs a memo instance that no record answers.
#[cycle(run)]
fn run_new<'p, 's>(
    scope: &Scope<'p, 's>,
    left: u32,
    p: &'p Procedure,
    name: &'p str,
    args: &[i64],
    journal: &mut Journal<'p>,
) -> Result<i64, Stop<'p>>
    requires fit { AreFit (tree_in scope.now) (records_in scope.now) }
    ensures { Gives result (summary scope.now journal.new)
        (results (tree_in scope.now) (inside (tree_in scope.now) (tables_in scope.now) (enters_in scope.now left) (proc p.now) args.now)
        (with_executed (summary scope.now journal.old) (name.now, args.now))) }
{
    match note_executed(scope.alloc, journal, name, args) {
        Err(_) => Err(Stop::NoMemory),
        Ok(()) => run_instance(scope, left, p, args, journal),
    }
}

/// Runs an instance of a procedure.
#[cycle(run)]
fn run_instance<'p, 's>(
    scope: &Scope<'p, 's>,
    left: u32,
    p: &'p Procedure,
    args: &[i64],
    journal: &mut Journal<'p>,
) -> Result<i64, Stop<'p>>
    requires fit { AreFit (tree_in scope.now) (records_in scope.now) }
    ensures { Gives result (summary scope.now journal.new) (results_in scope.now journal.old (inside_in scope.now left p.now args.now)) }
{
    match fresh(scope.alloc, &p.names, args) {
        Err(_) => Err(Stop::NoMemory),
        Ok(mut env) => match run_block(scope, left, p, p.blocks.len(), 0, &mut env, journal) {
            Err(stop) => Err(stop),
            Ok(None) => Ok(0),
            Ok(Some(v)) => Ok(v),
        },
    }
}

/// Runs a block, where blocks nest so many levels below it.
#[cycle(run)]
fn run_block<'p, 's>(
    scope: &Scope<'p, 's>,
    left: u32,
    p: &'p Procedure,
    levels: usize,
    n: usize,
    env: &mut Vec<Option<i64>>,
    journal: &mut Journal<'p>,
) -> Result<Option<i64>, Stop<'p>>
    requires fit { AreFit (tree_in scope.now) (records_in scope.now) }
    ensures { GivesNext result env.new.items (summary scope.now journal.new)
        (results (tree_in scope.now) (body (tree_in scope.now) (tables_in scope.now) (enters_in scope.now left)
        (string_bytes p.now.name) env.old.items (block_plain p.now.blocks.items levels n)) (summary scope.now journal.old)) }
{
    if levels == 0 {
        return Ok(None);
    }
    match p.blocks.get(n) {
        None => Ok(None),
        Some(b) => run_statements(scope, left, p, levels - 1, &b.statements, env, journal),
    }
}

/// Runs statements.
#[cycle(run)]
fn run_statements<'p, 's>(
    scope: &Scope<'p, 's>,
    left: u32,
    p: &'p Procedure,
    levels: usize,
    statements: &'p [Statement],
    env: &mut Vec<Option<i64>>,
    journal: &mut Journal<'p>,
) -> Result<Option<i64>, Stop<'p>>
    requires fit { AreFit (tree_in scope.now) (records_in scope.now) }
    ensures { GivesNext result env.new.items (summary scope.now journal.new)
        (results (tree_in scope.now) (body (tree_in scope.now) (tables_in scope.now) (enters_in scope.now left)
        (string_bytes p.now.name) env.old.items (statements_plain (block_plain p.now.blocks.items levels) statements.now))
        (summary scope.now journal.old)) }
{
    for s in statements {
        match run_statement(scope, left, p, levels, s, env, journal) {
            Err(stop) => return Err(stop),
            Ok(Some(v)) => return Ok(Some(v)),
            Ok(None) => {}
        }
    }
    Ok(None)
}

/// Runs one statement.
#[cycle(run)]
fn run_statement<'p, 's>(
    scope: &Scope<'p, 's>,
    left: u32,
    p: &'p Procedure,
    levels: usize,
    s: &'p Statement,
    env: &mut Vec<Option<i64>>,
    journal: &mut Journal<'p>,
) -> Result<Option<i64>, Stop<'p>>
    requires fit { AreFit (tree_in scope.now) (records_in scope.now) }
    ensures { GivesNext result env.new.items (summary scope.now journal.new)
        (results (tree_in scope.now) (deed (tree_in scope.now) (tables_in scope.now) (enters_in scope.now left)
        (site_at (string_bytes p.now.name) s.now.number) env.old.items (deed_plain (block_plain p.now.blocks.items levels) s.now.action))
        (summary scope.now journal.old)) }
{
    let here = &p.name;
    match &s.action {
        Action::Bind(x, e) => run_bind(scope.tables, here, s.number, *x, e, env),
        Action::Enter(x, _, callee, arguments) => {
            let entry = Entry {
                here,
                number: s.number,
                callee,
                arguments,
            };
            run_entry(scope, left, &entry, *x, env, journal)
        }
        Action::Read(x, r) => run_read(scope, *x, r, env, journal),
        Action::Sync => Ok(None),
        Action::Update(r, es) => run_update(scope, here, s.number, r, es, env, journal),
        Action::If(condition, first, second) => {
            let choice = Choice {
                number: s.number,
                condition,
                first: *first,
                second: *second,
            };
            run_if(scope, left, p, levels, &choice, env, journal)
        }
        Action::Loop(x, low, high, _, callee, arguments) => {
            let entry = Entry {
                here,
                number: s.number,
                callee,
                arguments,
            };
            let counted = Counted { x: *x, low, high };
            run_loop(scope, left, &entry, &counted, env, journal)
        }
        Action::Return(e) => run_return(scope.tables, here, s.number, e, env),
    }
}

/// Enters a procedure with the values of the arguments.
#[cycle(run)]
fn run_entry<'p, 's>(
    scope: &Scope<'p, 's>,
    left: u32,
    entry: &Entry<'p>,
    x: Option<usize>,
    env: &mut Vec<Option<i64>>,
    journal: &mut Journal<'p>,
) -> Result<Option<i64>, Stop<'p>>
    requires fit { AreFit (tree_in scope.now) (records_in scope.now) }
    ensures { GivesNext result env.new.items (summary scope.now journal.new)
        (results (tree_in scope.now) (entered (tables_in scope.now) (enters_in scope.now left)
        (site_of entry.now) env.old.items x entry.now.callee.now (map term entry.now.arguments.now)) (summary scope.now journal.old)) }
{
    let Entry {
        here,
        number,
        callee,
        arguments,
    } = *entry;
    match all_values(scope.alloc, scope.tables, env, arguments) {
        Err(trouble) => Err(trouble.at(here, number)),
        Ok(vs) => match enter(scope, left, here, number, callee, &vs, journal) {
            Err(stop) => Err(stop),
            Ok(v) => {
                put_into(env, x, v);
                Ok(None)
            }
        },
    }
}

/// Runs one of two blocks.
#[cycle(run)]
fn run_if<'p, 's>(
    scope: &Scope<'p, 's>,
    left: u32,
    p: &'p Procedure,
    levels: usize,
    choice: &Choice,
    env: &mut Vec<Option<i64>>,
    journal: &mut Journal<'p>,
) -> Result<Option<i64>, Stop<'p>>
    requires fit { AreFit (tree_in scope.now) (records_in scope.now) }
    ensures { GivesNext result env.new.items (summary scope.now journal.new)
        (results_in scope.now journal.old (chosen_in scope.now left p.now levels choice.now env.old.items)) }
{
    match evaluate(scope.tables, env, choice.condition) {
        Err(kind) => Err(stopped(kind, &p.name, choice.number)),
        Ok(v) => {
            let n = if v == 0 { choice.second } else { choice.first };
            run_block(scope, left, p, levels, n, env, journal)
        }
    }
}

/// Runs a loop.
#[cycle(run)]
fn run_loop<'p, 's>(
    scope: &Scope<'p, 's>,
    left: u32,
    entry: &Entry<'p>,
    counted: &Counted,
    env: &[Option<i64>],
    journal: &mut Journal<'p>,
) -> Result<Option<i64>, Stop<'p>>
    requires fit { AreFit (tree_in scope.now) (records_in scope.now) }
    ensures { (grain : ℕ) → GivesNext result env.now (summary scope.now journal.new)
        (results (tree_in scope.now) (looped (tree_in scope.now) (tables_in scope.now) (enters_in scope.now left)
        (site_of entry.now) env.now counted.now.x (term counted.now.low.now) (term counted.now.high.now) grain entry.now.callee.now
        (map term entry.now.arguments.now)) (summary scope.now journal.old)) }
{
    match range_of(scope.tables, env, counted.low, counted.high) {
        Err(kind) => Err(stopped(kind, entry.here, entry.number)),
        Ok(range) => {
            let turns = Turns {
                x: counted.x,
                range,
            };
            match run_turns(scope, left, entry, turns, env, journal) {
                Err(stop) => Err(stop),
                Ok(()) => Ok(None),
            }
        }
    }
}

/// Runs the iterations of a loop.
#[cycle(run)]
fn run_turns<'p, 's>(
    scope: &Scope<'p, 's>,
    left: u32,
    entry: &Entry<'p>,
    turns: Turns,
    env: &[Option<i64>],
    journal: &mut Journal<'p>,
) -> Result<(), Stop<'p>>
    requires fit { AreFit (tree_in scope.now) (records_in scope.now) }
    ensures { (grain : ℕ) → Does result (summary scope.now journal.new)
        (results (tree_in scope.now) (all_turns (tree_in scope.now) (tables_in scope.now) (enters_in scope.now left)
        (job_in entry.now env.now turns.x grain turns.range.low) turns.range.count) (summary scope.now journal.old)) }
{
    let mut i = 0;
    while i < turns.range.count {
        match run_turn(scope, left, entry, turns, i, env, journal) {
            Err(stop) => return Err(stop),
            Ok(()) => i += 1,
        }
    }
    Ok(())
}

/// Runs the i-th iteration of a loop.
#[cycle(run)]
fn run_turn<'p, 's>(
    scope: &Scope<'p, 's>,
    left: u32,
    entry: &Entry<'p>,
    turns: Turns,
    i: u64,
    env: &[Option<i64>],
    journal: &mut Journal<'p>,
) -> Result<(), Stop<'p>>
    requires within { i < turns.range.count }
    requires fit { AreFit (tree_in scope.now) (records_in scope.now) }
    ensures { (grain : ℕ) → Does result (summary scope.now journal.new)
        (results (tree_in scope.now) (turn (tables_in scope.now) (enters_in scope.now left) (job_in entry.now env.now turns.x grain turns.range.low) i)
        (summary scope.now journal.old)) }
{
    let Entry {
        here,
        number,
        callee,
        ..
    } = *entry;
    match turn_values(scope, entry, turns, i, env) {
        Err(trouble) => Err(trouble.at(here, number)),
        Ok(vs) => match enter(scope, left, here, number, callee, &vs, journal) {
            Err(stop) => Err(stop),
            Ok(_) => Ok(()),
        },
    }
}
