//! The walk through a procedure's body: the first violation, and what is known after each statement.
ghost use Rattle.std.specs.Prelude.{◌≡◌, ℕ, ◌+◌, ◌<◌, ◌^◌, ◌==◌, ◌&&◌};
ghost use Rattle.meaning.specs.Tree.{Body};
ghost use Rattle.meaning.specs.TreeView.{block, deed, statements as body_of};
ghost use Rattle.linked_program.specs.Scope.{after_deed, after_body, after_block, after_branches, closed, closed_deed};
ghost use Rattle.linked_program.specs.Rules.{late_rules, deed_rules};
ghost use Rattle.linked_program.specs.Bodies.{line_of, body_violations, branch_violations, step_violations};
ghost use Rattle.linked_program.specs.Violations.{noted, at, when};
ghost use Rattle.single_rules.specs.Settings.{plain};
ghost use Rattle.single_rules.specs.Own.{after_own};

use crate::quiet::is_quiet;
use linked_program::knowledge::Moment;
use linked_program::violation::{Rule, Violation};
use meaning::tree::{Action, Block, Statement};
use single_rules::location::{Location, note_if};
use single_rules::scope::Scope;
use single_rules::setting::Setting;
use single_rules::statements::note_own;

// The two branches of an `if`, by their blocks' numbers.
#[derive(Clone, Copy)]
struct Branches {
    one: usize,
    two: usize,
}

// The block of that depth has ended: what this statement bound isn't seen any more.
fn close_statement(scope: &mut Scope, depth: usize, action: &Action)
    ensures closed { (inner : ℕ → Body) → scope.new ≡ closed_deed depth scope.old (deed inner action.now) }
{
    match action {
        Action::Bind(name, _) | Action::Read(name, _) | Action::Enter(Some(name), _, _, _) =>
            scope.forget(depth, *name),
        _ => {}
    }
}

// The block of that depth has ended, with these statements.
fn close_statements(scope: &mut Scope, depth: usize, statements: &[Statement])
    ensures closed { (inner : ℕ → Body) → scope.new ≡ closed depth scope.old (body_of inner statements.now) }
{
    for statement in statements {
        close_statement(scope, depth, &statement.action);
    }
}

// The block of that depth and number has ended.
fn close_block(scope: &mut Scope, depth: usize, blocks: &[Block], levels: usize, number: usize)
    ensures closed { scope.new ≡ closed depth scope.old (block blocks.now levels number) }
{
    if levels > 0 {
        match blocks.get(number) {
            None => {}
            Some(inner) => close_statements(scope, depth, &inner.statements),
        }
    }
}

// Whether a statement may not stand there because it comes after a read.
fn is_late(
    setting: &Setting,
    scope: &Scope,
    now: Moment,
    blocks: &[Block],
    levels: usize,
    action: &Action,
) -> bool
    ensures late { when result Rule.Read
        ≡ late_rules (setting.now.in_main && (now.depth == 0)) scope.now (deed (block blocks.now levels) action.now) }
{
    let late = setting.in_main && now.depth == 0 && scope.has_read();
    late && !is_quiet(blocks, levels, action)
}

// The first violation so far or that of a statement by itself; what is known after it, its blocks aside.
fn note_here(
    setting: &Setting,
    first: Option<Violation>,
    scope: &mut Scope,
    now: Moment,
    blocks: &[Block],
    levels: usize,
    statement: &Statement,
) -> Option<Violation>
    ensures noted { result ≡ noted first (at setting.now.declaration (line_of setting.now.lines statement.now.number)
        (deed_rules (plain setting.now) now scope.old (deed (block blocks.now levels) statement.now.action))) }
    ensures after { scope.new ≡ after_own now scope.old (deed (block blocks.now levels) statement.now.action) }
{
    let location = Location {
        declaration: setting.declaration,
        line: setting.lines.line_of(statement.number),
    };
    let action = &statement.action;
    let late = is_late(setting, scope, now, blocks, levels, action);
    let first = note_if(first, late, location, Rule::Read);
    note_own(setting, first, location, scope, now, action)
}

// The first violation so far or that of a branch, a block of this depth; what is known after it.
#[cycle(walk)]
fn note_branch(
    setting: &Setting,
    first: Option<Violation>,
    scope: &mut Scope,
    depth: usize,
    blocks: &[Block],
    levels: usize,
    number: usize,
) -> Option<Violation>
    requires { depth + levels < 2 ^ 64 }
    ensures noted { result ≡ noted first (body_violations (plain setting.now) depth 1 scope.old (block blocks.now levels number)) }
    ensures after { scope.new ≡ after_block depth scope.old (block blocks.now levels number) }
{
    let found = note_block(setting, first, scope, depth, blocks, levels, number);
    close_block(scope, depth, blocks, levels, number);
    found
}

/// The first violation so far or that of a block of this depth; what is known after its statements.
#[cycle(walk)]
pub(crate) fn note_block(
    setting: &Setting,
    first: Option<Violation>,
    scope: &mut Scope,
    depth: usize,
    blocks: &[Block],
    levels: usize,
    number: usize,
) -> Option<Violation>
    requires { depth + levels < 2 ^ 64 }
    ensures noted { result ≡ noted first (body_violations (plain setting.now) depth 1 scope.old
        (block blocks.now levels number)) }
    ensures after { scope.new ≡ after_body depth 1 scope.old (block blocks.now levels number) }
{
    if levels == 0 {
        return first;
    }
    match blocks.get(number) {
        None => first,
        Some(inner) => note_statements(
            setting,
            first,
            scope,
            depth,
            blocks,
            levels - 1,
            &inner.statements,
        ),
    }
}

// The first violation so far, or that of a block's statements, in which blocks nest at most so many levels.
#[cycle(walk)]
fn note_statements(
    setting: &Setting,
    first: Option<Violation>,
    scope: &mut Scope,
    depth: usize,
    blocks: &[Block],
    levels: usize,
    statements: &[Statement],
) -> Option<Violation>
    requires { depth + levels + 1 < 2 ^ 64 }
    ensures noted { result ≡ noted first (body_violations (plain setting.now) depth 1 scope.old (body_of (block blocks.now levels) statements.now)) }
    ensures after { scope.new ≡ after_body depth 1 scope.old (body_of (block blocks.now levels) statements.now) }
{
    let mut found = first;
    for (i, statement) in statements.iter().enumerate() {
        let now = Moment {
            depth,
            place: i + 1,
        };
        found = note_statement(setting, found, scope, now, blocks, levels, statement);
    }
    found
}

// The first violation so far, or that of a statement.
#[cycle(walk)]
fn note_statement(
    setting: &Setting,
    first: Option<Violation>,
    scope: &mut Scope,
    now: Moment,
    blocks: &[Block],
    levels: usize,
    statement: &Statement,
) -> Option<Violation>
    requires { now.depth + levels + 1 < 2 ^ 64 }
    ensures noted { result ≡ noted first (step_violations (plain setting.now) now scope.old statement.now.number
        (deed (block blocks.now levels) statement.now.action)) }
    ensures after { scope.new ≡ after_deed now scope.old (deed (block blocks.now levels) statement.now.action) }
{
    let first_here = note_here(setting, first, scope, now, blocks, levels, statement);
    match &statement.action {
        Action::If(_, one, two) => {
            let branches = Branches {
                one: *one,
                two: *two,
            };
            note_branches(setting, first_here, scope, now, blocks, levels, branches)
        }
        _ => first_here,
    }
}

// The first violation so far, or that of the two branches of an `if`.
#[cycle(walk)]
fn note_branches(
    setting: &Setting,
    first: Option<Violation>,
    scope: &mut Scope,
    now: Moment,
    blocks: &[Block],
    levels: usize,
    branches: Branches,
) -> Option<Violation>
    requires { now.depth + levels + 1 < 2 ^ 64 }
    ensures noted { result ≡ noted first (branch_violations (plain setting.now) now scope.old (block blocks.now levels branches.one)
        (block blocks.now levels branches.two)) }
    ensures after { scope.new ≡ after_branches now scope.old (block blocks.now levels branches.one) (block blocks.now levels branches.two) }
{
    let Branches { one, two } = branches;
    let before = scope.synced();
    let found = note_branch(setting, first, scope, now.depth + 1, blocks, levels, one);
    let after_one = scope.synced();
    scope.return_to(before);
    let found = note_branch(setting, found, scope, now.depth + 1, blocks, levels, two);
    scope.join(now, before, after_one);
    found
}
