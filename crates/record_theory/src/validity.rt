//! Whether a record answers an instance now.
ghost use Rattle.std.specs.Prelude.{◌≡◌, ◌+◌, ◌&&◌, suc, nat_le, slice_get, IfSome};
ghost use Rattle.meaning.specs.Elision.{depth_limit};
ghost use Rattle.meaning.specs.Every.{every};
ghost use Rattle.record_theory.specs.Validity.{has_revision};

use linked_program::checked::Checked;
use record_numbers::depths::fits;

/// Whether a record answers an instance at that depth: by whether the tables hold what was read, by the procedures entered, each with
/// its revision number, and by how many instances were nested in it.
#[inline(always)]
pub fn is_valid(
    agrees: bool,
    entered: &[(usize, u64)],
    height: u32,
    depth: u32,
    program: &Checked,
) -> bool
    ensures valid { result ≡ (agrees && (every (has_revision program.now.revisions) entered.now
        && nat_le (depth + height) (suc depth_limit))) }
{
    agrees && is_allowed(entered, height, depth, program)
}

/// Whether the procedures entered are as they were, and an instance at that depth with as many nested in it stays within the limit.
#[inline(always)]
pub fn is_allowed(entered: &[(usize, u64)], height: u32, depth: u32, program: &Checked) -> bool
    ensures allowed { result ≡ (every (has_revision program.now.revisions) entered.now
        && nat_le (depth + height) (suc depth_limit)) }
{
    are_current(entered, program) && fits(depth, height)
}

/// Whether these procedures have these revision numbers.
pub fn are_current(entered: &[(usize, u64)], program: &Checked) -> bool
    ensures current { result ≡ every (has_revision program.now.revisions) entered.now }
{
    for entry in entered {
        if !is_current(entry.0, entry.1, program) {
            return false;
        }
    }
    true
}

/// The revision number that the procedure of that number has now; 0 where there is none.
pub fn revision_of(program: &Checked, number: usize) -> u64
    ensures revision { IfSome (slice_get program.now.revisions number) (λ entry. result ≡ entry.1) }
{
    match program.revision_at(number) {
        Some(revision) => revision,
        None => 0,
    }
}

fn is_current(procedure: usize, revision: u64, program: &Checked) -> bool
    ensures current { result ≡ has_revision program.now.revisions (procedure, revision) }
{
    match program.revision_at(procedure) {
        Some(now) => now == revision,
        None => false,
    }
}
