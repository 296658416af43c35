//! The product's own view: it keeps a list, and amounts by key, in pieces.
ghost use Rattle.std.specs.Prelude.{◌≡◌, true, false};
ghost use Rattle.monoid_laws.specs.Kinds.{identity_of, meaning};

use crate::{ShortValue, View};
use monoid_laws::{InjectError, Kind, Val};
use reducer_values::{
    add_in_pieces, combine_at_once, combine_in_pieces, copied_in_pieces, identity,
};
use std::alloc::{AllocError, Global};
use std::marker::Model;
use std::mem;

/// A view that keeps a value of its kind: a list in pieces of 64 numbers, and amounts in pieces of 64 keys, so that a fold moves
/// pieces and copies few numbers.
#[derive(Drop)]
pub struct PlainView {
    alloc: Global,
    kind: Kind,
    value: Val,
}

impl Model for PlainView {
    ghost use Rattle.monoid_laws.specs.Kinds.{meaning, IsWorth};
    ghost use Rattle.view_pool.specs.Seen.{Seen};

    ghost Value = { Seen };

    ghost view = { λ s. record { kind = s.kind; worth = meaning s.value } };

    ghost invariant = { λ s. IsWorth s.kind (meaning s.value) };
}

impl PlainView {
    /// A view at the identity. It takes no memory.
    pub fn new(alloc: Global, kind: Kind) -> Self
        ensures { result ≡ record { kind = kind; worth = identity_of kind } }
    {
        PlainView {
            alloc,
            kind,
            value: identity(alloc, kind),
        }
    }
}

impl View for PlainView {
    ghost kind_of = { λ s. s.kind };

    ghost worth_of = { λ s. s.worth };

    fn kind(&self) -> Kind {
        self.kind
    }

    fn update(&mut self, numbers: &[i64]) -> Result<(), InjectError> {
        add_in_pieces(self.alloc, &self.kind, &mut self.value, numbers)
    }

    fn absorb(&mut self, value: Val) -> Result<(), Val> {
        if combine_at_once(&self.kind, &mut self.value, &value) {
            return Ok(());
        }
        combine_in_pieces(self.alloc, &self.kind, &mut self.value, value)
    }

    #[inline(always)]
    fn absorb_at_once(&mut self, value: &Val) -> bool {
        combine_at_once(&self.kind, &mut self.value, value)
    }

    fn take(&mut self) -> Val {
        mem::replace(&mut self.value, identity(self.alloc, self.kind))
    }

    #[inline(always)]
    fn reset(&mut self) {
        if reset_at_once(&self.kind, &mut self.value) {
            return;
        }
        self.value = identity(self.alloc, self.kind);
    }

    #[inline(always)]
    fn export(&self) -> Result<Val, AllocError> {
        match &self.value {
            Val::Int(number) => Ok(Val::Int(*number)),
            Val::Arg(best) => Ok(Val::Arg(*best)),
            other => copied_in_pieces(self.alloc, other),
        }
    }

    #[inline(always)]
    fn short(&self) -> Option<ShortValue> {
        ShortValue::of(&self.value)
    }
}

// Puts a sum or a best pair back to its identity; whether that was done.
#[inline(always)]
fn reset_at_once(kind: &Kind, value: &mut Val) -> bool
    ensures left { result ≡ true → meaning value.new ≡ identity_of kind.now }
    ensures same { result ≡ false → meaning value.new ≡ meaning value.old }
{
    match kind {
        Kind::Add => match value {
            Val::Int(number) => {
                *number = 0;
                true
            }
            _ => false,
        },
        Kind::Argmax => match value {
            Val::Arg(best) => {
                *best = None;
                true
            }
            _ => false,
        },
        _ => false,
    }
}
