//! A list whose front goes without a move of what stays.
ghost use Rattle.std.specs.Prelude.{◌≡◌, ◌+◌, ◌≤◌, ◌<◌, ◌++◌, ◌∷◌, [], length, take, drop, slice_set, IfOk, OnOk, OnErr};

use std::alloc::{AllocError, Global};
use std::marker::Model;

/// A `Vec` whose first `gone` items are dropped in sense but still in memory (own). Contracts see the
/// list without them. To drop a front counts up `gone`; only where more are gone than stay, the rest
/// moves down, once. So the moves of all calls together are at most twice the items dropped, whatever
/// stays, and never are more gone items held than kept ones. A gone item lives until such a move.
#[derive(Drop)]
pub struct KeptVec<T> {
    items: Vec<T>,
    gone: usize,
}

impl<T> Model for KeptVec<T> {
    ghost use Rattle.std.specs.Prelude.{List, ◌+◌, ◌≤◌, length, drop};

    ghost Value = { List T };

    ghost view = { λ s. drop s.gone s.items.items };

    ghost invariant = { λ s. s.gone + s.gone ≤ length s.items.items };
}

// Moves the rest down where more are gone than stay. How many are gone, yet held, from now on.
fn settle<T: Drop>(items: &mut Vec<T>, gone: usize) -> usize
    requires { gone ≤ length items.old.items }
    ensures rest { drop result items.new.items ≡ drop gone items.old.items }
    ensures few { result + result ≤ length items.new.items }
{
    let kept = items.len() - gone;
    if gone <= kept {
        return gone;
    }
    items.rotate_left(gone);
    items.truncate(kept);
    0
}

impl<T: Drop> KeptVec<T> {
    /// No items. Takes no memory.
    pub fn new(alloc: Global) -> KeptVec<T>
        ensures { result ≡ [] }
    {
        KeptVec {
            items: Vec::new(alloc),
            gone: 0,
        }
    }

    /// A copy of these items.
    pub fn from_slice(alloc: Global, items: &[T]) -> Result<KeptVec<T>, AllocError>
    where
        T: Copy,
        ensures { IfOk result (λ kept. kept ≡ items.now) }
    {
        let items = Vec::from_slice(alloc, items)?;
        Ok(KeptVec { items, gone: 0 })
    }

    /// The allocator that gives the list its memory.
    pub fn allocator(&self) -> &Global {
        self.items.allocator()
    }

    /// How many items there are.
    pub fn len(&self) -> usize
        ensures { result ≡ length self.now }
    {
        self.items.len() - self.gone
    }

    /// The items.
    pub fn as_slice(&self) -> &[T]
        ensures { result.now ≡ self.now }
    {
        let (_, kept) = self.items.as_slice().split_at(self.gone);
        kept
    }

    /// The items alone, in a `Vec`: what is gone is dropped, and the others move down. Takes no memory.
    pub fn into_vec(self) -> Vec<T>
        ensures { result.items ≡ self }
    {
        let mut items = self.items;
        let count = items.len() - self.gone;
        items.rotate_left(self.gone);
        items.truncate(count);
        items
    }

    /// Puts the item behind the others. Without memory the list stays.
    pub fn push(&mut self, item: T) -> Result<(), AllocError>
        ensures ok { OnOk result (self.new ≡ self.old ++ item ∷ []) }
        ensures err { OnErr result (self.new ≡ self.old) }
    {
        self.items.push(item)?;
        Ok(())
    }

    /// Puts the item in place of the one at the index.
    pub fn set(&mut self, at: usize, item: T)
        requires { at < length self.old }
        ensures { self.new ≡ slice_set self.old at item }
    {
        self.items[self.gone + at] = item;
    }

    /// Leaves the first items, so many of them, or all where there are no more.
    pub fn truncate(&mut self, count: usize)
        ensures { self.new ≡ take count self.old }
    {
        if count >= self.items.len() - self.gone {
            return;
        }
        self.items.truncate(self.gone + count);
        self.gone = settle(&mut self.items, self.gone);
    }

    /// Leaves no items.
    pub fn clear(&mut self)
        ensures { self.new ≡ [] }
    {
        self.items.clear();
        self.gone = 0;
    }

    /// Drops the first items, so many of them.
    pub fn drop_front(&mut self, count: usize)
        requires { count ≤ length self.old }
        ensures { self.new ≡ drop count self.old }
    {
        self.gone = settle(&mut self.items, self.gone + count);
    }
}
