//! Whether two statements do the same.
ghost use Rattle.std.specs.Prelude.{◌≡◌, ◌-◌, ℕ, map};
ghost use Rattle.meaning.specs.Tree.{Body, bind, enter, read, sync, update, loop, give};
ghost use Rattle.meaning.specs.TreeView.{term, block, deed, statements as body_of};
ghost use Rattle.meaning.specs.Edits.{same_way as same_ways, same_into, same_deed, same_body};

use crate::blocks::block_at;
use crate::expressions::{same_expression, same_expressions};
use meaning::tree::{Action, Block, Expr, Statement, Way};

fn same_way(left: Way, right: Way) -> bool
    ensures { result ≡ same_ways left right }
{
    left == right
}

// Whether two statements put their value into the same name.
fn same_target(left: Option<usize>, right: Option<usize>) -> bool
    ensures { result ≡ same_into left right }
{
    match left {
        None => right.is_none(),
        Some(name) => match right {
            None => false,
            Some(other) => name == other,
        },
    }
}

// Whether a statement binds this name to this value.
fn is_bind(name: usize, value: &Expr, other: &Action) -> bool
    ensures { (inner : ℕ → Body) → result ≡ same_deed (bind name (term value.now)) (deed inner other.now) }
{
    match other {
        Action::Bind(target, given) => name == *target && same_expression(value, given),
        _ => false,
    }
}

// Whether a statement enters this procedure so, with these arguments.
fn is_enter(name: Option<usize>, way: Way, callee: &str, arguments: &[Expr], other: &Action) -> bool
    ensures { (inner : ℕ → Body) → result ≡ same_deed (enter name way callee.now (map term arguments.now)) (deed inner other.now) }
{
    match other {
        Action::Enter(target, manner, entered, given) => same_target(name, *target)
            && same_way(way, *manner)
            && callee == entered.as_str()
            && same_expressions(arguments, given),
        _ => false,
    }
}

// Whether a statement reads this reducer into this name.
fn is_read(name: usize, reducer: &str, other: &Action) -> bool
    ensures { (inner : ℕ → Body) → result ≡ same_deed (read name reducer.now) (deed inner other.now) }
{
    match other {
        Action::Read(target, found) => name == *target && reducer == found.as_str(),
        _ => false,
    }
}

// Whether a statement is a sync.
fn is_sync(other: &Action) -> bool
    ensures { (inner : ℕ → Body) → result ≡ same_deed sync (deed inner other.now) }
{
    match other {
        Action::Sync => true,
        _ => false,
    }
}

// Whether a statement updates this reducer with these values.
fn is_update(reducer: &str, values: &[Expr], other: &Action) -> bool
    ensures { (inner : ℕ → Body) → result ≡ same_deed (update reducer.now (map term values.now)) (deed inner other.now) }
{
    match other {
        Action::Update(found, given) => reducer == found.as_str()
            && same_expressions(values, given),
        _ => false,
    }
}

// Whether a statement is a loop of this name, these bounds and this grain, that spawns this procedure with these arguments.
fn is_loop(
    name: usize,
    low: &Expr,
    high: &Expr,
    grain: u32,
    callee: &str,
    arguments: &[Expr],
    other: &Action,
) -> bool
    ensures { (inner : ℕ → Body) → result ≡ same_deed (loop name (term low.now) (term high.now) grain callee.now (map term arguments.now))
        (deed inner other.now) }
{
    match other {
        Action::Loop(target, first, last, size, entered, given) => name == *target
            && same_expression(low, first)
            && same_expression(high, last)
            && grain == *size
            && callee == entered.as_str()
            && same_expressions(arguments, given),
        _ => false,
    }
}

// Whether a statement returns this value.
fn is_return(value: &Expr, other: &Action) -> bool
    ensures { (inner : ℕ → Body) → result ≡ same_deed (give (term value.now)) (deed inner other.now) }
{
    match other {
        Action::Return(given) => same_expression(value, given),
        _ => false,
    }
}

// Whether two statements do the same, where the blocks of each procedure nest at most so many levels.
#[cycle(same)]
fn same_action(
    ours: &[Block],
    our_levels: usize,
    theirs: &[Block],
    their_levels: usize,
    left: &Action,
    right: &Action,
) -> bool
    ensures same { result ≡ same_deed (deed (block ours.now our_levels) left.now) (deed (block theirs.now their_levels) right.now) }
{
    match left {
        Action::Bind(name, value) => is_bind(*name, value, right),
        Action::Enter(name, way, callee, arguments) => {
            is_enter(*name, *way, callee.as_str(), arguments, right)
        }
        Action::Read(name, reducer) => is_read(*name, reducer.as_str(), right),
        Action::Sync => is_sync(right),
        Action::Update(reducer, values) => is_update(reducer.as_str(), values, right),
        Action::If(condition, first, second) => match right {
            Action::If(other, other_first, other_second) => same_expression(condition, other)
                && same_block(ours, our_levels, *first, theirs, their_levels, *other_first)
                && same_block(
                    ours,
                    our_levels,
                    *second,
                    theirs,
                    their_levels,
                    *other_second,
                ),
            _ => false,
        },
        Action::Loop(name, low, high, grain, callee, arguments) => {
            is_loop(*name, low, high, *grain, callee.as_str(), arguments, right)
        }
        Action::Return(value) => is_return(value, right),
    }
}

// Whether two lists of statements are the same, lines aside.
#[cycle(same)]
fn same_statements(
    ours: &[Block],
    our_levels: usize,
    theirs: &[Block],
    their_levels: usize,
    left: &[Statement],
    right: &[Statement],
) -> bool
    ensures same { result ≡ same_body (body_of (block ours.now our_levels) left.now) (body_of (block theirs.now their_levels) right.now) }
{
    if left.len() != right.len() {
        return false;
    }
    for i in 0..left.len() {
        let first = &left[i];
        let second = &right[i];
        if first.number != second.number {
            return false;
        }
        if !same_action(
            ours,
            our_levels,
            theirs,
            their_levels,
            &first.action,
            &second.action,
        ) {
            return false;
        }
    }
    true
}

/// Whether two blocks are the same, lines aside, each by its number among the blocks of its procedure, which nest at most so many levels.
#[cycle(same)]
pub(crate) fn same_block(
    ours: &[Block],
    our_levels: usize,
    one: usize,
    theirs: &[Block],
    their_levels: usize,
    other: usize,
) -> bool
    ensures same { result ≡ same_body (block ours.now our_levels one)
        (block theirs.now their_levels other) }
{
    match block_at(ours, our_levels, one) {
        None => match block_at(theirs, their_levels, other) {
            None => true,
            Some(second) => second.statements.is_empty(),
        },
        Some(first) => match block_at(theirs, their_levels, other) {
            None => first.statements.is_empty(),
            Some(second) => same_statements(
                ours,
                our_levels - 1,
                theirs,
                their_levels - 1,
                &first.statements,
                &second.statements,
            ),
        },
    }
}
