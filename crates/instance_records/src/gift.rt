//! What an instance gave to one reducer, in few bytes.
ghost use Rattle.std.specs.Prelude.{◌≡◌, IfOk, IfSome, pos, map};
ghost use Rattle.monoid_laws.specs.declared.Val.TheVariants.{Arg};
ghost use Rattle.instance_records.specs.Gifts.{given_by};
ghost use Rattle.instance_records.specs.ShortLists.{items_in};

use crate::short_list::ShortList;
use monoid_laws::Val;
use std::alloc::{AllocError, Global};

/// A reducer's number with its value. A number, and a best pair whose second number takes four bytes, lie by themselves where two bytes
/// hold the reducer's number; all else takes memory of its own.
#[derive(Drop)]
pub enum Gift {
    Number {
        reducer: u16,
        number: i64,
    },
    Best {
        reducer: u16,
        second: u32,
        first: i64,
    },
    Other(Box<(usize, Val)>),
}

// A reducer's number in two bytes, where it fits.
#[inline(always)]
fn short_reducer(number: usize) -> Option<u16>
    ensures same { IfSome result (λ n. n ≡ number) }
{
    if number <= 65535 {
        Some(number as u16)
    } else {
        None
    }
}

// The second number of a best pair in four bytes, where it fits.
#[inline(always)]
fn short_second(number: i64) -> Option<u32>
    ensures same { IfSome result (λ n. pos n ≡ number) }
{
    if 0 <= number && number <= 4_294_967_295 {
        Some(number as u32)
    } else {
        None
    }
}

// The best pair that a reducer was given; none where it would take memory.
#[inline(always)]
fn short_best(reducer: u16, best: Option<(i64, i64)>) -> Option<Gift>
    ensures same { IfSome result (λ g. given_by g ≡ (reducer, Arg best)) }
{
    let pair = best?;
    Some(Gift::Best {
        reducer,
        second: short_second(pair.1)?,
        first: pair.0,
    })
}

impl Gift {
    /// What a reducer was given, where it takes no memory.
    #[inline(always)]
    pub fn short(reducer: usize, value: &Val) -> Option<Gift>
        ensures same { IfSome result (λ g. given_by g ≡ (reducer, value.now)) }
    {
        let reducer = short_reducer(reducer)?;
        match value {
            Val::Int(number) => Some(Gift::Number {
                reducer,
                number: *number,
            }),
            Val::Arg(best) => short_best(reducer, *best),
            _ => None,
        }
    }

    /// What a reducer was given. Want of memory is the only error.
    #[inline(always)]
    pub fn new(alloc: Global, reducer: usize, value: Val) -> Result<Gift, AllocError>
        ensures same { IfOk result (λ g. given_by g ≡ (reducer, value)) }
    {
        match Gift::short(reducer, &value) {
            Some(gift) => Ok(gift),
            None => Gift::long(alloc, reducer, value),
        }
    }

    // What a reducer was given, in memory of its own.
    #[inline(never)]
    fn long(alloc: Global, reducer: usize, value: Val) -> Result<Gift, AllocError>
        ensures same { IfOk result (λ g. given_by g ≡ (reducer, value)) }
    {
        Ok(Gift::Other(Box::new(alloc, (reducer, value))?))
    }
}

/// What reducers were given, each value behind its reducer's number. Want of memory is the only error.
pub fn gifts(alloc: Global, values: Vec<(usize, Val)>) -> Result<ShortList<Gift>, AllocError>
    ensures same { IfOk result (λ gifts. map given_by (items_in gifts) ≡ values.items) }
{
    let mut made = Vec::with_capacity(alloc, values.len())?;
    for value in values {
        made.push(Gift::new(alloc, value.0, value.1)?)?;
    }
    Ok(ShortList::new(made))
}
