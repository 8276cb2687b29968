//! Entries in their order.
ghost use Rattle.std.specs.Prelude.{◌≡◌, ◌≤◌, ◌++◌, ◌∷◌, [], length, drop, OnOk, OnErr, IfErr, IsTrue, ◌↔◌};

use raft_state::{Entry, Node, NodeId};
use std::alloc::{AllocFailed, Global};
use std::marker::Model;

/// Entries in their order (own). Contracts see them as a list.
#[derive(Drop)]
pub struct Entries<NID: NodeId, N: Node, D> {
    items: Vec<Entry<NID, N, D>>,
}

impl<NID: NodeId, N: Node, D> Model for Entries<NID, N, D> {
    ghost use Rattle.std.specs.Prelude.{List};
    ghost use Rattle.raft_state.specs.declared.entry.Entry.{Entry};

    ghost Value = { List (Entry NID N D) };

    ghost view = { λ s. s.items.items };
}

impl<NID: NodeId, N: Node, D> Entries<NID, N, D> {
    /// No entries. Takes no memory.
    pub fn new(alloc: Global) -> Entries<NID, N, D>
        ensures { result ≡ [] }
    {
        Entries {
            items: Vec::new(alloc),
        }
    }

    /// The entries of a vector, which isn't copied.
    pub fn from_vec(items: Vec<Entry<NID, N, D>>) -> Entries<NID, N, D>
        ensures { result ≡ items.items }
    {
        Entries { items }
    }

    /// How many entries there are.
    pub fn len(&self) -> usize
        ensures { result ≡ length self.now }
    {
        self.items.len()
    }

    /// Whether there is no entry.
    pub fn is_empty(&self) -> bool
        ensures { IsTrue result ↔ (self.now ≡ []) }
    {
        self.items.is_empty()
    }

    /// The entries, lent.
    pub fn as_slice(&self) -> &[Entry<NID, N, D>]
        ensures { result.now ≡ self.now }
    {
        self.items.as_slice()
    }

    /// Adds an entry behind the others. Without memory the entries stay, and it comes back.
    pub fn push(&mut self, entry: Entry<NID, N, D>) -> Result<(), AllocFailed<Entry<NID, N, D>>>
        ensures ok { OnOk result (self.new ≡ self.old ++ entry ∷ []) }
        ensures err { OnErr result (self.new ≡ self.old) }
        ensures value_returned { IfErr result (λ e. e.value ≡ entry) }
    {
        self.items.push(entry)
    }
}

impl<NID: NodeId, N: Node, D: Drop> Entries<NID, N, D> {
    /// Drops so many of the first entries; the rest isn't copied.
    pub fn drop_first(&mut self, count: usize)
        requires { count ≤ length self.old }
        ensures { self.new ≡ drop count self.old }
    {
        self.items.rotate_left(count);
        let left = self.items.len() - count;
        self.items.truncate(left);
    }
}
