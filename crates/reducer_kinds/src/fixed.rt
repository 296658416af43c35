//! Values that take no memory, whatever their kind: numbers, best pairs, affine maps and elements of tables.
ghost use Rattle.std.specs.Prelude.{◌≡◌, ◌+ℤ◌, ◌*ℤ◌};
ghost use Rattle.monoid_laws.specs.Worth.{Worth, number, best, the_number, the_best, the_factor, the_term, the_element};
ghost use Rattle.monoid_laws.specs.Kinds.{wrap, operate, meaning, better, IsNumberKind};
ghost use Rattle.monoid_laws.specs.declared.Kind.TheVariants as kinds;

use monoid_laws::{Kind, Val};

/// The sum, wrapped to 64 bits.
pub fn sum_of(a: i64, b: i64) -> i64
    ensures { result ≡ wrap (a +ℤ b) }
{
    a.wrapping_add(b)
}

/// The product, wrapped to 64 bits.
pub fn product_of(a: i64, b: i64) -> i64
    ensures { result ≡ wrap (a *ℤ b) }
{
    a.wrapping_mul(b)
}

/// The number, or 0 at a value of another form.
pub fn number_of(value: &Val) -> i64
    ensures { result ≡ the_number (meaning value.now) }
{
    match value {
        Val::Int(number) => *number,
        _ => 0,
    }
}

/// The best pair, or none at a value of another form.
pub fn best_of(value: &Val) -> Option<(i64, i64)>
    ensures { result ≡ the_best (meaning value.now) }
{
    match value {
        Val::Arg(best) => *best,
        _ => None,
    }
}

/// The factor, or 0 at a value of another form.
fn factor_of(value: &Val) -> i64
    ensures { result ≡ the_factor (meaning value.now) }
{
    match value {
        Val::Pair(factor, _) => *factor,
        _ => 0,
    }
}

/// The term, or 0 at a value of another form.
fn term_of(value: &Val) -> i64
    ensures { result ≡ the_term (meaning value.now) }
{
    match value {
        Val::Pair(_, term) => *term,
        _ => 0,
    }
}

/// The element, or 0 at a value of another form.
pub fn element_in(value: &Val) -> u8
    ensures { result ≡ the_element (meaning value.now) }
{
    match value {
        Val::Elem(element) => *element,
        _ => 0,
    }
}

/// The pair with the greater first number, the left one on ties.
pub fn better(left: Option<(i64, i64)>, right: Option<(i64, i64)>) -> Option<(i64, i64)>
    ensures { result ≡ better left right }
{
    match (left, right) {
        (None, _) => right,
        (Some(_), None) => left,
        (Some(held), Some(more)) => {
            if held.0 < more.0 {
                Some(more)
            } else {
                Some(held)
            }
        }
    }
}

/// Combines two numbers by a kind of numbers.
pub fn combine_numbers(kind: &Kind, left: i64, right: i64) -> i64
    ensures { (x y : Worth) → left ≡ the_number x → right ≡ the_number y → IsNumberKind kind.now → operate kind.now x y ≡ number result }
{
    match kind {
        Kind::Add => sum_of(left, right),
        Kind::Mul => product_of(left, right),
        Kind::Min => left.min(right),
        Kind::Max => left.max(right),
        Kind::And => left & right,
        Kind::Or => left | right,
        Kind::Xor => left ^ right,
        _ => left,
    }
}

/// The second map after the first.
pub fn combine_lines(left: &Val, right: &Val) -> Val
    ensures { meaning result ≡ operate kinds.Affine (meaning left.now) (meaning right.now) }
{
    let factor = factor_of(right);
    let moved = product_of(factor, term_of(left));
    Val::Pair(
        product_of(factor_of(left), factor),
        sum_of(moved, term_of(right)),
    )
}

/// Puts a value in place of one of another form.
#[inline(never)]
pub fn put(value: &mut Val, new: Val)
    ensures { meaning value.new ≡ meaning new }
{
    *value = new;
}

/// Combines a number on the right of a value of a kind of numbers, in its place.
#[inline(always)]
pub fn put_number(kind: &Kind, held: &mut Val, number: i64)
    ensures { (y : Worth) → number ≡ the_number y → IsNumberKind kind.now → meaning held.new ≡ operate kind.now (meaning held.old) y }
{
    match held {
        Val::Int(value) => *value = combine_numbers(kind, *value, number),
        other => put(
            other,
            Val::Int(combine_numbers(kind, number_of(other), number)),
        ),
    }
}

/// Combines a pair on the right of a value, in its place: the better one stays.
#[inline(always)]
pub fn put_best(held: &mut Val, more: Option<(i64, i64)>)
    ensures { meaning held.new ≡ best (better (the_best (meaning held.old)) more) }
{
    match held {
        Val::Arg(held) => *held = better(*held, more),
        other => put(other, Val::Arg(better(best_of(other), more))),
    }
}
