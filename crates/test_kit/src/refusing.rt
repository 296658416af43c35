//! A view that refuses: a list that hands values back, or has no memory for an update, and that counts its drops.
ghost use Rattle.std.specs.Prelude.{◌≡◌, [], IsTrue};
ghost use Rattle.monoid_laws.specs.Worth.{items};
ghost use Rattle.monoid_laws.specs.Kinds.{meaning, IsWorth};
ghost use Rattle.monoid_laws.specs.declared.Kind.TheVariants.{List as ListKind};

use monoid_laws::{InjectError, Kind, Val};
use reducer_values::{add_element, combine, copy_of, identity};
use std::alloc::{AllocError, Global};
use std::marker::Model;
use std::mem;
use std::sync::Arc;
use std::sync::atomic::{AtomicUsize, Ordering};
use view_pool::View;

/// What a list refuses.
#[derive(Clone, Copy, PartialEq, Eq)]
pub enum Refuses {
    Nothing,
    /// The first update.
    Update,
    /// The first value that it is to absorb while it holds numbers.
    Absorb,
    /// Each such value.
    EachAbsorb,
}

/// A list that refuses so, and counts its drops.
pub struct Stubborn {
    alloc: Global,
    list: Val,
    refuses: Refuses,
    drops: Arc<AtomicUsize>,
}

impl Model for Stubborn {
    ghost use Rattle.monoid_laws.specs.Kinds.{meaning, IsWorth};
    ghost use Rattle.monoid_laws.specs.Worth.{Worth};
    ghost use Rattle.monoid_laws.specs.declared.Kind.TheVariants.{List as ListKind};

    ghost Value = { Worth };

    ghost view = { λ s. meaning s.list };

    ghost invariant = { λ s. IsWorth ListKind (meaning s.list) };
}

impl Stubborn {
    /// An empty list that refuses so, with this count of drops.
    pub fn new(
        alloc: Global,
        refuses: Refuses,
        drops: &Arc<AtomicUsize>,
    ) -> Result<Stubborn, AllocError> {
        Ok(Stubborn {
            alloc,
            list: identity(alloc, Kind::List),
            refuses,
            drops: drops.clone()?,
        })
    }
}

impl Drop for Stubborn {
    fn drop(self) {
        self.drops.fetch_add(1, Ordering::SeqCst);
        let Stubborn {
            alloc: _,
            list: _,
            refuses: _,
            drops: _,
        } = self;
    }
}

/// Whether a value is a whole list that holds numbers.
fn holds_numbers(value: &Val) -> bool
    ensures { IsTrue result → ¬ (meaning value.now ≡ items []) }
{
    match value {
        Val::List(list) => !list.is_empty(),
        _ => false,
    }
}

impl View for Stubborn {
    ghost kind_of = { λ s. ListKind };

    ghost worth_of = { λ s. s };

    fn kind(&self) -> Kind {
        Kind::List
    }

    fn update(&mut self, numbers: &[i64]) -> Result<(), InjectError> {
        if self.refuses == Refuses::Update {
            self.refuses = Refuses::Nothing;
            return Err(InjectError::NoMemory);
        }
        add_element(self.alloc, &Kind::List, &mut self.list, numbers)
    }

    fn absorb(&mut self, value: Val) -> Result<(), Val> {
        if holds_numbers(&self.list) {
            match self.refuses {
                Refuses::EachAbsorb => return Err(value),
                Refuses::Absorb => {
                    self.refuses = Refuses::Nothing;
                    return Err(value);
                }
                Refuses::Nothing | Refuses::Update => {}
            }
        }
        combine(self.alloc, &Kind::List, &mut self.list, value)
    }

    fn take(&mut self) -> Val {
        mem::replace(&mut self.list, identity(self.alloc, Kind::List))
    }

    fn reset(&mut self) {
        self.list = identity(self.alloc, Kind::List);
    }

    fn export(&self) -> Result<Val, AllocError> {
        copy_of(self.alloc, &self.list)
    }
}
