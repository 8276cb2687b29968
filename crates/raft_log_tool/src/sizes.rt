//! Bytes of entries and of keys by group.
ghost use Rattle.std.specs.Prelude.{◌≡◌, ℕ, List, [], ◌∷◌, ◌++◌, ◌==◌, if◌then◌else◌, IfOk, OnOk, Some, string_bytes};
ghost use Rattle.std.specs.BTreeMap.{get};
ghost use Rattle.std.specs.List.{flat_map};
ghost use Rattle.std.specs.Ordering.{nat_cmp};
ghost use Rattle.raft_log_records.specs.Item.{Item, change_of, item_of, items_of};
ghost use Rattle.raft_log_records.specs.declared.item.EntryIndex.{EntryIndex};
ghost use Rattle.raft_log_tool.specs.Sizes.{HasSizes, bytes_in, group_text, plus, with_bytes};

use crate::lines::entries_len;
use raft_log_contents::push_named;
use raft_log_records::{LogItem, LogItemContent};
use std::alloc::{AllocError, Global};
use std::collections::BTreeMap;

/// The bytes that items write of a group; 2^64 - 1 where they are more (own).
#[derive(Clone, Copy)]
pub struct GroupBytes {
    /// Those of entries.
    pub entries: u64,
    /// Those of keys that are set, with their values, and of keys that are removed.
    pub keys: u64,
}

/// The bytes of all groups (own).
#[derive(Drop)]
pub struct GroupSizes {
    groups: BTreeMap<u64, GroupBytes>,
}

// The bytes that an item writes, if it writes entries or names a key.
fn bytes_of(content: &LogItemContent) -> Option<GroupBytes>
    ensures { result ≡ bytes_in (change_of content.now) }
{
    match content {
        LogItemContent::EntryIndexes(entries) => Some(GroupBytes {
            entries: entries_len(entries),
            keys: 0,
        }),
        LogItemContent::Put { key, value } => Some(GroupBytes {
            entries: 0,
            keys: (key.len() as u64).saturating_add(value.len() as u64),
        }),
        LogItemContent::Delete { key } => Some(GroupBytes {
            entries: 0,
            keys: key.len() as u64,
        }),
        LogItemContent::Command(_) | LogItemContent::AtomicGroup { .. } => None,
    }
}

impl GroupBytes {
    // Both together.
    fn plus(self, more: GroupBytes) -> GroupBytes
        ensures { result ≡ plus self more }
    {
        GroupBytes {
            entries: self.entries.saturating_add(more.entries),
            keys: self.keys.saturating_add(more.keys),
        }
    }
}

impl GroupSizes {
    /// No items yet.
    pub fn new(alloc: Global) -> GroupSizes
        ensures { HasSizes result [] }
    {
        GroupSizes {
            groups: BTreeMap::new(alloc),
        }
    }

    // Adds bytes of a group.
    fn add(&mut self, group: u64, more: GroupBytes) -> Result<(), AllocError>
        ensures { OnOk result ((n : ℕ) → get nat_cmp self.new.groups n
            ≡ (if group == n then Some (with_bytes (get nat_cmp self.old.groups group) more) else get nat_cmp self.old.groups n)) }
    {
        let sum = match self.groups.get(&group) {
            Some(before) => before.plus(more),
            None => more,
        };
        self.groups.insert(group, sum)?;
        Ok(())
    }

    // Adds what an item writes.
    fn add_item(&mut self, item: &LogItem) -> Result<(), AllocError>
        ensures { OnOk result ((items : List (Item EntryIndex)) → HasSizes self.old items → HasSizes self.new (items ++ item_of item.now ∷ [])) }
    {
        match bytes_of(&item.content) {
            Some(more) => {
                self.add(item.raft_group_id, more)?;
                Ok(())
            }
            None => Ok(()),
        }
    }

    /// Adds what the items of a file write. The only error is want of memory.
    pub fn add_items(&mut self, items: &[LogItem]) -> Result<(), AllocError>
        ensures { OnOk result ((before : List (Item EntryIndex)) → HasSizes self.old before → HasSizes self.new (before ++ items_of items.now)) }
    {
        for item in items {
            self.add_item(item)?;
        }
        Ok(())
    }

    /// A line for each group, rising (own). The only error is want of memory.
    pub fn into_text(self, alloc: Global) -> Result<String, AllocError>
        ensures { IfOk result (λ text. string_bytes text ≡ flat_map group_text self.groups.entries) }
    {
        let mut text = String::new(alloc);
        for (group, bytes) in self.groups {
            push_group(&mut text, group, bytes)?;
        }
        Ok(text)
    }
}

// The text, and behind it the line of a group.
fn push_group(text: &mut String, group: u64, bytes: GroupBytes) -> Result<(), AllocError>
    ensures { OnOk result (string_bytes text.new ≡ string_bytes text.old ++ group_text (group, bytes)) }
{
    push_named(text, "group ", group)?;
    push_named(text, " entries ", bytes.entries)?;
    push_named(text, " keys ", bytes.keys)?;
    text.push_str("\n")
}
