//! Lists of strands: what stands in them, and what a step makes of them.
ghost use Rattle.std.specs.Prelude.{◌≡◌, ◌<◌, length, Some, None, MatchOption, vec_len, vec_capacity};
ghost use Rattle.meaning.specs.Strands.{Held, done, waits, is_free, is_root, is_alone, may_fold, becomes, splits};
ghost use Rattle.numbered_runs.specs.Named.{named_state, line};
ghost use Rattle.strand_list.specs.Pages.{shown, position, removes, is_pair, begins_pair};
ghost use Rattle.strand_list.specs.Pages.{are_neighbours, held_place};

use numbered_runs::step::{Place, State, StrandLine};
use strand_lines::places::{begins_with, is_same};
use strand_lines::states::is_held_by;

/// Whether a place is that of the first strand.
pub fn is_root(place: &[usize]) -> bool
    ensures root { result ≡ is_root place.now }
{
    match place {
        [] => true,
        _ => false,
    }
}

/// Whether a strand of that state may be the left one of two.
pub fn is_done(state: State) -> bool
    ensures done { result ≡ done (named_state state) }
{
    match state {
        State::Ended | State::Faulted => true,
        State::Held(_) | State::Stalled | State::Finished => false,
    }
}

/// Whether a strand of that state may be the right one of two.
pub fn is_waiting(state: State) -> bool
    ensures waits { result ≡ waits (named_state state) }
{
    match state {
        State::Stalled | State::Faulted => true,
        State::Held(_) | State::Ended | State::Finished => false,
    }
}

/// The number of the line of a place.
pub fn find(lines: &[StrandLine], place: &[usize]) -> Option<usize>
    ensures { MatchOption result (position place.now (shown lines.now) ≡ length lines.now)
        (λ k. (k ≡ position place.now (shown lines.now)) × (k < length lines.now)) }
{
    for (k, line) in lines.iter().enumerate() {
        if is_same(&line.place, place) {
            return Some(k);
        }
    }
    None
}

/// Whether the worker holds no strand.
pub fn is_free(lines: &[StrandLine], worker: usize) -> bool
    ensures free { result ≡ is_free (shown lines.now) worker }
{
    for line in lines.iter() {
        if is_held_by(line.state, worker) {
            return false;
        }
    }
    true
}

/// The place of the strand that the worker holds.
pub fn held_place(lines: &[StrandLine], worker: usize) -> Option<&[usize]>
    ensures { MatchOption result (held_place worker (shown lines.now) ≡ None) (λ place. held_place worker (shown lines.now) ≡ Some place.now) }
{
    for line in lines.iter() {
        if is_held_by(line.state, worker) {
            return Some(&line.place);
        }
    }
    None
}

/// Whether one strand is left.
pub fn is_alone(lines: &[StrandLine]) -> bool
    ensures alone { result ≡ is_alone (shown lines.now) }
{
    match lines {
        [_] => true,
        _ => false,
    }
}

/// Whether these two lines are at those places, and in states in which they may be folded.
fn is_pair(before: &StrandLine, after: &StrandLine, left: &[usize], right: &[usize]) -> bool
    ensures pair { result ≡ is_pair left.now right.now (line before.now) (line after.now) }
{
    is_same(&before.place, left)
        && is_same(&after.place, right)
        && is_done(before.state)
        && is_waiting(after.state)
}

/// Whether a list begins with two lines at those places that may be folded.
fn begins_pair(lines: &[StrandLine], left: &[usize], right: &[usize]) -> bool
    ensures pair { result ≡ begins_pair left.now right.now (shown lines.now) }
{
    match lines {
        [before, after, ..] => is_pair(before, after, left, right),
        _ => false,
    }
}

/// Whether strands of these places are neighbours that may be folded.
pub fn may_fold(lines: &[StrandLine], left: &[usize], right: &[usize]) -> bool
    ensures may { result ≡ may_fold (shown lines.now) left.now right.now }
{
    for k in 0..lines.len() {
        if begins_pair(&lines[k..], left, right) {
            return true;
        }
    }
    false
}

/// Whether a strand of the right place stands directly behind one of the left place.
pub fn are_neighbours(lines: &[StrandLine], left: &[usize], right: &[usize]) -> bool
    ensures next { result ≡ are_neighbours left.now right.now (shown lines.now) }
{
    for k in 0..lines.len() {
        if begins_with(&lines[k..], left, right) {
            return true;
        }
    }
    false
}

/// The strand of that place is of that state from then on.
pub fn set_state(lines: &mut Vec<StrandLine>, place: &[usize], state: State)
    ensures becomes { shown lines.new.items ≡ becomes (named_state state) (shown lines.old.items) place.now }
{
    match find(lines, place) {
        Some(k) => lines[k].state = state,
        None => {}
    }
}

/// A thief's strand stands behind the victim's. It takes no memory.
pub(crate) fn put_behind(lines: &mut Vec<StrandLine>, victim: &[usize], new: Place, thief: usize)
    requires room { vec_len lines.old < vec_capacity lines.old }
    ensures splits { shown lines.new.items ≡ splits (shown lines.old.items) victim.now new.items thief }
{
    let line = StrandLine {
        place: new,
        state: State::Held(thief),
    };
    match find(lines, victim) {
        Some(k) => {
            if lines.insert(k + 1, line).is_err() {
                unreachable!()
            }
        }
        None => {}
    }
}

/// The strand of that place is no more in the list; what its place lay in.
pub(crate) fn take_out(lines: &mut Vec<StrandLine>, place: &[usize]) -> Option<Place>
    ensures removes { shown lines.new.items ≡ removes (shown lines.old.items) place.now }
{
    match find(lines, place) {
        Some(k) => {
            let StrandLine { place, .. } = lines.remove(k);
            Some(place)
        }
        None => None,
    }
}
