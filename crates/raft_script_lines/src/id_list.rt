//! Lists of ids, as a line has them.
ghost use Rattle.std.specs.Prelude.{◌≡◌, ◌++◌, ◌∷◌, [], OnOk};
ghost use Rattle.raft_script_lines.specs.Words.{has_twice};

use std::alloc::{AllocError, Global};
use std::marker::Model;

/// Ids in the order in which a line names them (own). Contracts see their list.
#[derive(Drop)]
pub struct IdList {
    items: Vec<u64>,
}

impl Model for IdList {
    ghost use Rattle.std.specs.Prelude.{List, ℕ};

    ghost Value = { List ℕ };

    ghost view = { λ l. l.items.items };
}

impl IdList {
    /// No id.
    pub fn new(alloc: Global) -> IdList
        ensures { result ≡ [] }
    {
        IdList {
            items: Vec::new(alloc),
        }
    }

    /// One id more, behind the others. An `Err` is want of memory.
    pub fn push(&mut self, id: u64) -> Result<(), AllocError>
        ensures { OnOk result (self.new ≡ self.old ++ id ∷ []) }
    {
        self.items.push(id)?;
        Ok(())
    }

    /// The ids, lent.
    pub fn as_slice(&self) -> &[u64]
        ensures { result.now ≡ self.now }
    {
        self.items.as_slice()
    }

    /// Whether an id stands twice.
    pub fn has_twice(&self) -> bool
        ensures { result ≡ has_twice self.now }
    {
        has_twice(self.as_slice())
    }
}

fn has_twice(ids: &[u64]) -> bool
    ensures { result ≡ has_twice ids.now }
{
    for (place, id) in ids.iter().enumerate() {
        if ids[place + 1..].contains(id) {
            return true;
        }
    }
    false
}
