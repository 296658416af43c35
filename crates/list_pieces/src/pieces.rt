//! Lists in pieces: two are put together without copying long ones, and all pieces become one list without memory.
ghost use Rattle.std.specs.Prelude.{◌≡◌, ◌+◌, ◌<◌, ◌≤◌, ◌++◌, ◌∷◌, [], IfOk, OnOk, vec_len, vec_capacity, length};
ghost use Rattle.list_pieces.specs.Pieces.{all_in, items_in, IsRoomy, HasRoom, IsReadyFor};

use std::alloc::{AllocError, Global};
use std::mem;

// No more items than so many are copied behind others; of more the list stays as it is.
const FEW: usize = 64;
// Room for one more item is expected for so many.
const ITEMS_A_SPARE: usize = 8;

/// Items in order: those of lists that were put together, `count` in all, and behind them the last list, which takes `limit` items.
/// Where there are several lists, the first one takes all their items: so they become one list without memory, the items of that one
/// are never copied, and those of a long list behind it once, however often it is put behind another. A list that grows long takes no
/// more room than for as many items as are `expected`.
#[derive(Drop)]
pub struct Pieces<T> {
    first: Vec<T>,
    earlier: Vec<Vec<T>>,
    count: usize,
    last: Vec<T>,
    limit: usize,
    expected: usize,
    alloc: Global,
}

/// How items come behind others: they are copied into the last list, their lists are kept, or there are no others and all is taken over.
#[derive(Clone, Copy)]
pub enum Behind {
    Copied,
    Kept,
    Taken,
}

impl<T: Drop> Pieces<T> {
    /// None. It takes no memory.
    pub fn new(alloc: Global) -> Pieces<T>
        ensures none { items_in result ≡ [] }
        ensures roomy { IsRoomy result }
    {
        Pieces {
            first: Vec::new(alloc),
            earlier: Vec::new(alloc),
            count: 0,
            last: Vec::new(alloc),
            limit: 0,
            expected: 0,
            alloc,
        }
    }

    /// So many items may come, and some more later. It takes no memory: lists that grow go by it, so that one of many items takes no more
    /// room than they want, and may stay where it is.
    pub fn expect(&mut self, more: usize)
        requires roomy { IsRoomy self.old }
        ensures items { items_in self.new ≡ items_in self.old }
        ensures roomy { IsRoomy self.new }
    {
        let count = self.last.len().saturating_add(more);
        self.expected = self
            .expected
            .max(count.saturating_add(more / ITEMS_A_SPARE));
    }

    /// Makes room for one more item.
    #[inline(always)]
    pub fn make_room(&mut self) -> Result<(), AllocError>
        requires roomy { IsRoomy self.old }
        ensures items { items_in self.new ≡ items_in self.old }
        ensures roomy { IsRoomy self.new }
        ensures room { OnOk result (HasRoom self.new) }
    {
        if self.last.len() < self.limit {
            return Ok(());
        }
        self.grow(1)
    }

    /// Makes room for so many more items in the last list.
    #[inline(never)]
    fn grow(&mut self, more: usize) -> Result<(), AllocError>
        requires roomy { IsRoomy self.old }
        ensures items { items_in self.new ≡ items_in self.old }
        ensures roomy { IsRoomy self.new }
        ensures room { OnOk result (vec_len self.new.last + more ≤ self.new.limit) }
        ensures count { self.new.count ≡ self.old.count }
    {
        let spare = self.spare(more);
        lengthen(&mut self.last, more, spare)?;
        self.raise(more)
    }

    /// How much room the last list takes where it wants that for so many more items: all that it holds may be copied then, so it grows
    /// fourfold, or at once to what is expected where it isn't short any more and that is no little more.
    fn spare(&self, more: usize) -> usize {
        let count = self.last.len();
        let left = self.expected.saturating_sub(count);
        if count >= FEW && more <= left && count / 4 <= left {
            return left;
        }
        count.saturating_mul(3)
    }

    /// The last list may take as many items as it has room for, of which there is so much, as far as the first list takes them too.
    fn raise(&mut self, more: usize) -> Result<(), AllocError>
        requires roomy { IsRoomy self.old }
        requires there { vec_len self.old.last + more ≤ vec_capacity self.old.last }
        ensures items { items_in self.new ≡ items_in self.old }
        ensures roomy { IsRoomy self.new }
        ensures room { OnOk result (vec_len self.new.last + more ≤ self.new.limit) }
        ensures count { self.new.count ≡ self.old.count }
    {
        let limit = self.last.capacity();
        if self.count == 0 {
            self.limit = limit;
            return Ok(());
        }
        let room = self.first.capacity().saturating_sub(self.count);
        if more <= room.saturating_sub(self.last.len()) {
            self.limit = limit.min(room);
            return Ok(());
        }
        widen(&mut self.first, self.count, limit)?;
        self.limit = limit;
        Ok(())
    }

    /// Puts an item behind the others.
    #[inline(always)]
    pub fn push(&mut self, item: T)
        requires roomy { IsRoomy self.old }
        requires room { HasRoom self.old }
        ensures items { items_in self.new ≡ items_in self.old ++ item ∷ [] }
        ensures roomy { IsRoomy self.new }
    {
        self.last.push_reserved(item);
    }

    /// Makes room for the items of `right`, and says how they come behind these.
    pub fn make_room_for(&mut self, right: &Pieces<T>) -> Result<Behind, AllocError>
        requires roomy { IsRoomy self.old }
        ensures items { items_in self.new ≡ items_in self.old }
        ensures roomy { IsRoomy self.new }
        ensures ready { IfOk result (λ behind. IsReadyFor behind self.new right.now) }
    {
        if right.count == 0 && right.last.len() <= FEW {
            self.grow_for(right.last.len())?;
            return Ok(Behind::Copied);
        }
        if self.count == 0 && self.last.is_empty() {
            return Ok(Behind::Taken);
        }
        self.keep_room_for(right)?;
        Ok(Behind::Kept)
    }

    /// Makes room for so many more items in the last list, where it hasn't that.
    fn grow_for(&mut self, more: usize) -> Result<(), AllocError>
        requires roomy { IsRoomy self.old }
        ensures items { items_in self.new ≡ items_in self.old }
        ensures roomy { IsRoomy self.new }
        ensures room { OnOk result (vec_len self.new.last + more ≤ self.new.limit) }
    {
        if more <= self.limit.saturating_sub(self.last.len()) {
            return Ok(());
        }
        self.grow(more)
    }

    /// Makes room for the lists of `right`, and for all items together in the first list.
    fn keep_room_for(&mut self, right: &Pieces<T>) -> Result<(), AllocError>
        requires roomy { IsRoomy self.old }
        ensures items { items_in self.new ≡ items_in self.old }
        ensures roomy { IsRoomy self.new }
        ensures ready { OnOk result (IsReadyFor Behind.Kept self.new right.now) }
    {
        let lists = right.earlier.len().saturating_add(2);
        self.earlier.reserve(lists)?;
        let Some(there) = right.count.checked_add(right.last.len()) else {
            return Err(AllocError);
        };
        if self.count == 0 {
            return self.begin_with(there);
        }
        let Some(behind) = self.last.len().checked_add(there) else {
            return Err(AllocError);
        };
        widen(&mut self.first, self.count, behind)
    }

    /// Has a single list be the first of several, with room for so many items behind its own.
    fn begin_with(&mut self, there: usize) -> Result<(), AllocError>
        requires one { self.old.count ≡ 0 }
        requires roomy { IsRoomy self.old }
        ensures items { items_in self.new ≡ items_in self.old }
        ensures roomy { IsRoomy self.new }
        ensures room { OnOk result (self.new.count + (vec_len self.new.last + there) ≤ vec_capacity self.new.first) }
        ensures lists { self.new.earlier ≡ self.old.earlier }
    {
        let count = self.last.len();
        lengthen(&mut self.last, there, self.expected.saturating_sub(count))?;
        let last = Vec::new(self.alloc);
        self.first = mem::replace(&mut self.last, last);
        self.count = count;
        self.limit = 0;
        Ok(())
    }

    /// Puts the items of `right` behind these, for which room was made so.
    pub fn append(&mut self, right: &mut Pieces<T>, behind: Behind)
        requires roomy { IsRoomy self.old }
        requires right_roomy { IsRoomy right.old }
        requires ready { IsReadyFor behind self.old right.old }
        ensures items { items_in self.new ≡ items_in self.old ++ items_in right.old }
        ensures roomy { IsRoomy self.new }
        ensures right_roomy { IsRoomy right.new }
    {
        match behind {
            Behind::Copied => {
                let _ = self.last.append(&mut right.last);
            }
            Behind::Kept => self.append_lists(right),
            Behind::Taken => self.take_lists(right),
        }
    }

    /// Puts the lists of `right` behind these, for which there is room.
    fn append_lists(&mut self, right: &mut Pieces<T>)
        requires roomy { IsRoomy self.old }
        requires right_roomy { IsRoomy right.old }
        requires ready { IsReadyFor Behind.Kept self.old right.old }
        ensures items { items_in self.new ≡ items_in self.old ++ items_in right.old }
        ensures roomy { IsRoomy self.new }
        ensures right_roomy { IsRoomy right.new }
    {
        let count = self.count + self.last.len() + right.count;
        let limit = right.limit.min(self.first.capacity() - count);
        let last = mem::replace(&mut right.last, Vec::new(self.alloc));
        let last = mem::replace(&mut self.last, last);
        let first = mem::replace(&mut right.first, Vec::new(self.alloc));
        self.earlier.push_reserved(last);
        self.earlier.push_reserved(first);
        let _ = self.earlier.append(&mut right.earlier);
        self.count = count;
        self.limit = limit;
        right.count = 0;
        right.limit = 0;
    }

    /// Takes over all of `right`, where there are no items.
    fn take_lists(&mut self, right: &mut Pieces<T>)
        requires none { items_in self.old ≡ [] }
        requires right_roomy { IsRoomy right.old }
        ensures items { items_in self.new ≡ items_in right.old }
        ensures roomy { IsRoomy self.new }
        ensures right_roomy { IsRoomy right.new }
    {
        let none = Pieces::new(self.alloc);
        *self = mem::replace(right, none);
    }

    /// One list of all. It takes no memory.
    pub fn into_list(self) -> Vec<T>
        requires roomy { IsRoomy self }
        ensures same { result.items ≡ items_in self }
    {
        let Pieces {
            first,
            earlier,
            count,
            last,
            limit: _,
            expected: _,
            alloc: _,
        } = self;
        if count == 0 {
            return last;
        }
        put_together(first, earlier, last)
    }
}

/// Has a list take so many items more: where it hasn't room for them, it gets so much spare room if memory for that is given.
fn lengthen<T: Drop>(list: &mut Vec<T>, more: usize, spare: usize) -> Result<(), AllocError>
    ensures same { list.new.items ≡ list.old.items }
    ensures room { OnOk result (vec_len list.new + more ≤ vec_capacity list.new) }
    ensures kept { vec_capacity list.old ≤ vec_capacity list.new }
{
    if more <= list.capacity().saturating_sub(list.len()) {
        return Ok(());
    }
    let _ = list.reserve_exact(spare);
    list.reserve(more)
}

/// Has a list take so many items and so many more.
fn widen<T: Drop>(list: &mut Vec<T>, count: usize, more: usize) -> Result<(), AllocError>
    requires there { vec_len list.old ≤ count }
    ensures same { list.new.items ≡ list.old.items }
    ensures room { OnOk result (count + more ≤ vec_capacity list.new) }
    ensures kept { vec_capacity list.old ≤ vec_capacity list.new }
{
    let Some(all) = count.checked_add(more) else {
        return Err(AllocError);
    };
    list.reserve(all - list.len())
}

/// All these lists in the first, which has room for them.
fn put_together<T: Drop>(first: Vec<T>, lists: Vec<Vec<T>>, last: Vec<T>) -> Vec<T>
    requires room { vec_len first + length (all_in lists.items) + vec_len last ≤ vec_capacity first }
    ensures all { result.items ≡ first.items ++ all_in lists.items ++ last.items }
{
    let mut all = first;
    let mut last = last;
    for list in lists {
        let mut list = list;
        let _ = all.append(&mut list);
    }
    let _ = all.append(&mut last);
    all
}
