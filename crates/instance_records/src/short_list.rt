//! Lists of which most are short: one or two items lie by themselves, and take no memory of their own.
ghost use Rattle.std.specs.Prelude.{◌≡◌, ◌++◌, ◌∷◌, [], IfOk, OnOk};
ghost use Rattle.instance_records.specs.ShortLists.{items_in};

use std::alloc::{AllocError, Global};
use std::slice;

/// Items in order. No more than two, but for none, lie by themselves.
#[derive(Drop)]
pub enum ShortList<T> {
    One(T),
    Two([T; 2]),
    Several(Vec<T>),
}

impl<T> ShortList<T> {
    /// The list of these items.
    pub fn new(items: Vec<T>) -> ShortList<T>
        ensures same { items_in result ≡ items.items }
    {
        ShortList::Several(items)
    }

    /// Lends the items.
    pub fn as_slice(&self) -> &[T]
        ensures items { result.now ≡ items_in self.now }
    {
        match self {
            ShortList::One(item) => slice::from_ref(item),
            ShortList::Two(pair) => pair,
            ShortList::Several(items) => items,
        }
    }

    /// Gives spare room back. It takes no memory.
    pub fn shrink_to_fit(&mut self)
        ensures same { items_in self.new ≡ items_in self.old }
    {
        match self {
            ShortList::Several(items) => items.shrink_to_fit(),
            _ => {}
        }
    }
}

impl<T: Drop> ShortList<T> {
    /// The list of these items, where two lie by themselves.
    pub(crate) fn packed(items: Vec<T>) -> ShortList<T>
        ensures same { items_in result ≡ items.items }
    {
        let mut items = items;
        if items.len() != 2 {
            return ShortList::Several(items);
        }
        let second = items.pop();
        let first = items.pop();
        match (first, second) {
            (Some(first), Some(second)) => ShortList::Two([first, second]),
            _ => unreachable!(),
        }
    }
}

impl<T: Copy> ShortList<T> {
    /// Copies of these items, without spare room. Want of memory is the only error.
    #[inline(always)]
    pub fn from_slice(alloc: Global, items: &[T]) -> Result<ShortList<T>, AllocError>
        ensures same { IfOk result (λ list. items_in list ≡ items.now) }
    {
        match items.len() {
            1 => Ok(ShortList::One(items[0])),
            2 => Ok(ShortList::Two([items[0], items[1]])),
            _ => Ok(ShortList::Several(Vec::from_slice(alloc, items)?)),
        }
    }

    /// Puts an item behind the others. Want of memory is the only error.
    pub fn push(&mut self, alloc: Global, item: T) -> Result<(), AllocError>
        ensures pushed { OnOk result (items_in self.new ≡ items_in self.old ++ item ∷ []) }
    {
        match self {
            ShortList::One(first) => {
                *self = ShortList::Two([*first, item]);
                Ok(())
            }
            ShortList::Two(pair) => {
                let mut items = Vec::from_slice(alloc, pair)?;
                items.push(item)?;
                *self = ShortList::Several(items);
                Ok(())
            }
            ShortList::Several(items) => {
                if items.is_empty() {
                    *self = ShortList::One(item);
                    return Ok(());
                }
                items.push(item)?;
                Ok(())
            }
        }
    }
}
