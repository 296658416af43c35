//! The view that is one of two.
ghost use Rattle.view_pool.specs.Either.{kind_in, worth_in};

use crate::{FlatView, PlainView, ShortValue, View};
use monoid_laws::{InjectError, Kind, Val};
use std::alloc::AllocError;

/// A view of one of two sorts. Its methods are found by a look at which it is, and not through a table as those of a boxed view:
/// no flag is tested behind them. It lies in a box, so that a fold moves a reference.
#[derive(Drop)]
pub enum EitherView {
    Plain(Box<PlainView>),
    Flat(Box<FlatView>),
}

impl View for EitherView {
    ghost kind_of = { kind_in };

    ghost worth_of = { worth_in };

    fn kind(&self) -> Kind {
        match self {
            EitherView::Plain(view) => (**view).kind(),
            EitherView::Flat(view) => (**view).kind(),
        }
    }

    fn update(&mut self, numbers: &[i64]) -> Result<(), InjectError> {
        match self {
            EitherView::Plain(view) => (**view).update(numbers),
            EitherView::Flat(view) => (**view).update(numbers),
        }
    }

    #[inline(always)]
    fn absorb(&mut self, value: Val) -> Result<(), Val> {
        match self {
            EitherView::Plain(view) => (**view).absorb(value),
            EitherView::Flat(view) => (**view).absorb(value),
        }
    }

    #[inline(always)]
    fn absorb_at_once(&mut self, value: &Val) -> bool {
        match self {
            EitherView::Plain(view) => (**view).absorb_at_once(value),
            EitherView::Flat(view) => (**view).absorb_at_once(value),
        }
    }

    #[inline(always)]
    fn take(&mut self) -> Val {
        match self {
            EitherView::Plain(view) => (**view).take(),
            EitherView::Flat(view) => (**view).take(),
        }
    }

    #[inline(always)]
    fn reset(&mut self) {
        match self {
            EitherView::Plain(view) => (**view).reset(),
            EitherView::Flat(view) => (**view).reset(),
        }
    }

    #[inline(always)]
    fn export(&self) -> Result<Val, AllocError> {
        match self {
            EitherView::Plain(view) => (**view).export(),
            EitherView::Flat(view) => (**view).export(),
        }
    }

    #[inline(always)]
    fn short(&self) -> Option<ShortValue> {
        match self {
            EitherView::Plain(view) => (**view).short(),
            EitherView::Flat(view) => (**view).short(),
        }
    }
}
