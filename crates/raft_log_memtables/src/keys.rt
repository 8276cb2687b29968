//! The keys of a group in their order.

ghost use Rattle.std.specs.Prelude.{◌≡◌, map, IfOk};
ghost use Rattle.std.specs.Option.{option_copied};
ghost use Rattle.std.specs.Map.Iter.{deref_pair};
ghost use Rattle.raft_log_memtables.specs.KeyRange.{IsStart, IsEnd, is_backwards};
ghost use Rattle.raft_log_memtables.specs.MemTable.{group_in, value_of};
ghost use Rattle.raft_log_memtables.specs.MemTables.{content_in};
ghost use Rattle.raft_log_memtables.specs.Scan.{AreKeysBetween, Scans};

use crate::memtable::MemTable;
use crate::memtables::MemTables;
use std::alloc::{AllocError, Global};
use std::collections::BTreeMap;
use std::ops::Bound;

/// Values by their keys.
pub type KeyMap = BTreeMap<Vec<u8>, Vec<u8>>;

fn start_bound(alloc: Global, start: Option<&[u8]>) -> Result<Bound<Vec<u8>>, AllocError>
    ensures { IfOk result (λ bound. IsStart bound (option_copied start.entry)) }
{
    match start {
        Some(key) => Ok(Bound::Included(Vec::from_slice(alloc, key)?)),
        None => Ok(Bound::Unbounded),
    }
}

fn end_bound(alloc: Global, end: Option<&[u8]>) -> Result<Bound<Vec<u8>>, AllocError>
    ensures { IfOk result (λ bound. IsEnd bound (option_copied end.entry)) }
{
    match end {
        Some(key) => Ok(Bound::Excluded(Vec::from_slice(alloc, key)?)),
        None => Ok(Bound::Unbounded),
    }
}

/// Whether the start of a range comes after its end.
fn is_backwards(start: Option<&[u8]>, end: Option<&[u8]>) -> bool
    ensures { result ≡ is_backwards (option_copied start.entry) (option_copied end.entry) }
{
    match (start, end) {
        (Some(start), Some(end)) => start.cmp(end).is_gt(),
        _ => false,
    }
}

/// The keys from one on, up to another one, rising, with their values.
fn pairs_between<'a>(
    alloc: Global,
    keys: &'a KeyMap,
    start: Option<&[u8]>,
    end: Option<&[u8]>,
) -> Result<Vec<(&'a [u8], &'a [u8])>, AllocError>
    ensures { IfOk result (λ pairs. AreKeysBetween (value_of keys.now) (option_copied start.entry) (option_copied end.entry) (map deref_pair pairs.items)) }
{
    let mut pairs = Vec::new(alloc);
    if is_backwards(start, end) {
        return Ok(pairs);
    }
    let first = start_bound(alloc, start)?;
    let limit = end_bound(alloc, end)?;
    for (key, value) in keys.range((first, limit)) {
        pairs.push((key.as_slice(), value.as_slice()))?;
    }
    Ok(pairs)
}

impl MemTable {
    /// The keys from one on, up to another one, which is left out, with their values (raft-engine's
    /// `scan`, which hands each to a callback). Without a start they begin with the least key, and
    /// without an end they go on to the greatest. They rise, or fall where `reverse` is asked for.
    #[tactic(auto, unfolding(crate::specs::MemTable::group_in))]
    pub fn scan(
        &self,
        alloc: Global,
        start: Option<&[u8]>,
        end: Option<&[u8]>,
        reverse: bool,
    ) -> Result<Vec<(&[u8], &[u8])>, AllocError>
        ensures { IfOk result (λ found. Scans (group_in self.now).value (option_copied start.entry) (option_copied end.entry) reverse (map deref_pair found.items)) }
    {
        let mut found = pairs_between(alloc, &self.keys, start, end)?;
        if reverse {
            found.reverse();
        }
        Ok(found)
    }
}

impl MemTables {
    /// The keys of a group from one on, up to another one, which is left out, with their values
    /// (raft-engine's `scan_raw_messages`, which hands each to a callback). Without a start they
    /// begin with the least key, and without an end they go on to the greatest. They rise, or fall
    /// where `reverse` is asked for.
    pub fn scan(
        &self,
        raft_group_id: u64,
        start: Option<&[u8]>,
        end: Option<&[u8]>,
        reverse: bool,
    ) -> Result<Vec<(&[u8], &[u8])>, AllocError>
        ensures { IfOk result (λ found. Scans (content_in self.now raft_group_id).value (option_copied start.entry) (option_copied end.entry) reverse (map deref_pair found.items)) }
    {
        match self.get_table(raft_group_id) {
            Some(table) => table.scan(self.alloc, start, end, reverse),
            None => Ok(Vec::new(self.alloc)),
        }
    }
}
