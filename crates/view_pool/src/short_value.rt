//! A number, or a best pair, that is copied as it is.
ghost use Rattle.std.specs.Prelude.{◌≡◌, IfSome, Some, pos};
ghost use Rattle.monoid_laws.specs.declared.Val.TheVariants.{Arg};
ghost use Rattle.view_pool.specs.Short.{value_in};

use monoid_laws::Val;

/// A value that takes no memory and few bytes: a number, or a best pair whose second number takes four bytes.
#[derive(Clone, Copy)]
pub enum ShortValue {
    Number(i64),
    Best { second: u32, first: i64 },
}

// The second number of a best pair in four bytes, where it fits.
#[inline(always)]
fn short_second(number: i64) -> Option<u32>
    ensures same { IfSome result (λ n. pos n ≡ number) }
{
    if 0 <= number && number <= 4_294_967_295 {
        Some(number as u32)
    } else {
        None
    }
}

// That best pair, where it is short.
#[inline(always)]
fn short_best(first: i64, second: i64) -> Option<ShortValue>
    ensures same { IfSome result (λ s. value_in s ≡ Arg (Some (first, second))) }
{
    Some(ShortValue::Best {
        second: short_second(second)?,
        first,
    })
}

impl ShortValue {
    /// That value, where it is short.
    #[inline(always)]
    pub fn of(value: &Val) -> Option<ShortValue>
        ensures same { IfSome result (λ s. value_in s ≡ value.now) }
    {
        match value {
            Val::Int(number) => Some(ShortValue::Number(*number)),
            Val::Arg(Some((first, second))) => short_best(*first, *second),
            _ => None,
        }
    }

    /// The value. It takes no memory.
    #[inline(always)]
    pub fn value(self) -> Val
        ensures same { result ≡ value_in self }
    {
        match self {
            ShortValue::Number(number) => Val::Int(number),
            ShortValue::Best { second, first } => Val::Arg(Some((first, i64::from(second)))),
        }
    }
}

/// Lets a value go that most often takes no memory: where it is known that it takes none, nothing is left of this.
#[inline(always)]
pub fn let_go_short(value: Val) {
    match value {
        Val::Int(_) | Val::Arg(_) => {}
        other => let_go(other),
    }
}

// Lets any value go.
#[inline(never)]
fn let_go(_value: Val) {}
