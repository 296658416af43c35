//! The view that keeps a value whole.
ghost use Rattle.std.specs.Prelude.{◌≡◌};
ghost use Rattle.monoid_laws.specs.Kinds.{identity_of};

use crate::{ShortValue, View};
use monoid_laws::{InjectError, Kind, Val};
use reducer_values::{add_element, combine, combine_at_once, copy_of, identity};
use std::alloc::{AllocError, Global};
use std::marker::Model;
use std::mem;

/// A view that keeps a value of its kind, a list or amounts as long as they get.
#[derive(Drop)]
pub struct FlatView {
    alloc: Global,
    kind: Kind,
    value: Val,
}

impl Model for FlatView {
    ghost use Rattle.monoid_laws.specs.Kinds.{meaning, IsWorth};
    ghost use Rattle.view_pool.specs.Seen.{Seen};

    ghost Value = { Seen };

    ghost view = { λ s. record { kind = s.kind; worth = meaning s.value } };

    ghost invariant = { λ s. IsWorth s.kind (meaning s.value) };
}

impl FlatView {
    /// A view at the identity. It takes no memory.
    pub fn new(alloc: Global, kind: Kind) -> Self
        ensures { result ≡ record { kind = kind; worth = identity_of kind } }
    {
        FlatView {
            alloc,
            kind,
            value: identity(alloc, kind),
        }
    }
}

impl View for FlatView {
    ghost kind_of = { λ s. s.kind };

    ghost worth_of = { λ s. s.worth };

    fn kind(&self) -> Kind {
        self.kind
    }

    fn update(&mut self, numbers: &[i64]) -> Result<(), InjectError> {
        add_element(self.alloc, &self.kind, &mut self.value, numbers)
    }

    fn absorb(&mut self, value: Val) -> Result<(), Val> {
        combine(self.alloc, &self.kind, &mut self.value, value)
    }

    #[inline(always)]
    fn absorb_at_once(&mut self, value: &Val) -> bool {
        combine_at_once(&self.kind, &mut self.value, value)
    }

    fn take(&mut self) -> Val {
        mem::replace(&mut self.value, identity(self.alloc, self.kind))
    }

    fn reset(&mut self) {
        self.value = identity(self.alloc, self.kind);
    }

    fn export(&self) -> Result<Val, AllocError> {
        copy_of(self.alloc, &self.value)
    }

    fn short(&self) -> Option<ShortValue> {
        ShortValue::of(&self.value)
    }
}
