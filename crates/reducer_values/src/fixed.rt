//! Values of the kinds that take no memory, combined.
ghost use Rattle.std.specs.Prelude.{◌≡◌, true};
ghost use Rattle.monoid_laws.specs.Kinds.{operate, meaning, IsWorth};
ghost use Rattle.reducer_values.specs.Forms.{is_fixed};

use crate::{Kind, Val};
use reducer_kinds::fixed::{
    best_of, better, combine_lines, combine_numbers, element_in, number_of, put_best, put_number,
};
use reducer_kinds::table_check::entry;

/// Whether the values of a kind take no memory.
#[inline(always)]
pub(crate) fn is_fixed(kind: &Kind) -> bool
    ensures { result ≡ is_fixed kind.now }
{
    match kind {
        Kind::List => false,
        Kind::First(_) => false,
        Kind::Last(_) => false,
        Kind::Hist => false,
        _ => true,
    }
}

/// Combines a value of a kind that takes no memory on the right of another, in its place.
#[inline(always)]
pub(crate) fn put_fixed(kind: &Kind, held: &mut Val, right: &Val)
    requires fixed { is_fixed kind.now ≡ true }
    requires left_value { IsWorth kind.now (meaning held.old) }
    requires right_value { IsWorth kind.now (meaning right.now) }
    ensures { meaning held.new ≡ operate kind.now (meaning held.old) (meaning right.now) }
{
    match kind {
        Kind::Argmax => put_best(held, best_of(right)),
        Kind::Affine | Kind::Table(_) => *held = combine_fixed(kind, held, right),
        _ => put_number(kind, held, number_of(right)),
    }
}

/// Combines two values of a kind that takes no memory.
pub(crate) fn combine_fixed(kind: &Kind, left: &Val, right: &Val) -> Val
    requires fixed { is_fixed kind.now ≡ true }
    requires left_value { IsWorth kind.now (meaning left.now) }
    requires right_value { IsWorth kind.now (meaning right.now) }
    ensures { meaning result ≡ operate kind.now (meaning left.now) (meaning right.now) }
{
    match kind {
        Kind::Argmax => Val::Arg(better(best_of(left), best_of(right))),
        Kind::Affine => combine_lines(left, right),
        Kind::Table(table) => Val::Elem(entry(table, element_in(left), element_in(right))),
        _ => Val::Int(combine_numbers(kind, number_of(left), number_of(right))),
    }
}
