//! Strands by their places.
ghost use Rattle.std.specs.Prelude.{◌≡◌, map, not};
ghost use Rattle.std.specs.Str.{bytes_eq};
ghost use Rattle.meaning.specs.Strands.{is_held_at};
ghost use Rattle.numbered_runs.specs.Named.{line};
ghost use Rattle.strand_lines.specs.Lines.{begins_with, has_strand};

use crate::states::is_held;
use numbered_runs::step::StrandLine;

/// Whether two places are the same.
pub fn is_same(left: &[usize], right: &[usize]) -> bool
    ensures same { result ≡ bytes_eq left.now right.now }
{
    left == right
}

/// Whether a worker holds the strand of that place.
pub fn is_held_at(lines: &[StrandLine], place: &[usize]) -> bool
    ensures held { result ≡ is_held_at (map line lines.now) place.now }
{
    for line in lines.iter() {
        if is_same(&line.place, place) {
            return is_held(line.state);
        }
    }
    false
}

/// Whether a list begins with lines at those places.
pub fn begins_with(lines: &[StrandLine], left: &[usize], right: &[usize]) -> bool
    ensures next { result ≡ begins_with left.now right.now (map line lines.now) }
{
    match lines {
        [before, after, ..] => is_same(&before.place, left) && is_same(&after.place, right),
        _ => false,
    }
}

/// Whether there is a strand of that place.
pub fn has_strand(lines: &[StrandLine], place: &[usize]) -> bool
    ensures has_strand { result ≡ has_strand place.now (map line lines.now) }
{
    for line in lines.iter() {
        if is_same(&line.place, place) {
            return true;
        }
    }
    false
}

/// Whether there is no strand of that place.
pub fn lacks_strand(lines: &[StrandLine], place: &[usize]) -> bool
    ensures lacks { result ≡ not (has_strand place.now (map line lines.now)) }
{
    !has_strand(lines, place)
}
