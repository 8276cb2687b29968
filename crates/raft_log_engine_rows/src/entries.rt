//! Entries that are written each in a batch of its own, with its index under a key.

use crate::batches::{add_entries, key_of, put, write};
use crate::session::{Desk, MemoryEngine};
use raft_log_engine::EngineFault;
use raft_log_records::RecordError;
use raft_rows::number;
use std::alloc::AllocError;

/// Entries of so many bytes, each its group's number, of groups and with indexes from a first one
/// up to before a last one.
#[derive(Clone, Copy)]
struct Entries {
    groups: (u64, u64),
    indexes: (u64, u64),
    len: u64,
}

/// The desk's entries are so many, of so many bytes of this one.
pub fn set_entries(desk: &mut Desk, count: u64, byte: u8, len: u64) -> Result<(), AllocError> {
    desk.entries.clear();
    for _ in 0..count {
        desk.entries
            .push(Vec::from_elem(desk.alloc, byte, len as usize)?)?;
    }
    Ok(())
}

/// The desk's batch has one entry, and its index under a key.
fn add_entry(desk: &mut Desk, group: u64, index: u64, len: u64) -> Result<(), RecordError> {
    let alloc = desk.alloc;
    set_entries(desk, 1, (group & 0xff) as u8, len)?;
    add_entries(desk, group, index)?;
    let value = Vec::from_slice(alloc, index.to_be_bytes().as_slice());
    put(&mut desk.batch, group, key_of(alloc, "last_index"), value)
}

fn write_entry(
    engine: &mut MemoryEngine,
    desk: &mut Desk,
    group: u64,
    index: u64,
    len: u64,
) -> Result<(), EngineFault> {
    let made = add_entry(desk, group, index, len);
    match write(engine, desk, made, true) {
        Ok(_) => Ok(()),
        Err(fault) => Err(fault),
    }
}

/// Writes entries, each in a batch of its own.
fn fill(engine: &mut MemoryEngine, desk: &mut Desk, entries: Entries) -> Result<(), EngineFault> {
    for group in entries.groups.0..entries.groups.1 {
        for index in entries.indexes.0..entries.indexes.1 {
            write_entry(engine, desk, group, index, entries.len)?;
        }
    }
    Ok(())
}

/// Compacts each group to its last entry, and writes that one again.
fn renew(engine: &mut MemoryEngine, desk: &mut Desk, entries: Entries) -> Result<(), EngineFault> {
    for group in entries.groups.0..entries.groups.1 {
        if let Some(last) = engine.last_index(group)? {
            engine.compact_to(group, last)?;
            write_entry(engine, desk, group, last, entries.len)?;
        }
    }
    Ok(())
}

/// Whether an entry has so many bytes, each the group's number.
fn is_of(entry: &[u8], group: u64, len: u64) -> bool {
    entry.len() as u64 == len && entry.iter().all(|byte| u64::from(*byte) == group & 0xff)
}

/// Whether these are so many entries of so many bytes.
fn are_of(read: &[Vec<u8>], count: u64, group: u64, len: u64) -> bool {
    for entry in read {
        if !is_of(entry, group, len) {
            return false;
        }
    }
    read.len() as u64 == count
}

/// Whether a group has these entries, each with its bytes.
fn has_entries(
    engine: &mut MemoryEngine,
    group: u64,
    entries: Entries,
) -> Result<bool, EngineFault> {
    let (first, end) = entries.indexes;
    match engine.fetch_entries_to(group, first, end, None) {
        Ok(read) => Ok(are_of(&read, end.saturating_sub(first), group, entries.len)),
        Err(fault) => Err(fault),
    }
}

/// Whether a group's list begins and ends with the first and the last of these entries.
fn has_ends(engine: &MemoryEngine, group: u64, entries: Entries) -> Result<bool, EngineFault> {
    let (first, end) = entries.indexes;
    let is_first = engine.first_index(group)? == Some(first);
    Ok(is_first && engine.last_index(group)? == end.checked_sub(1))
}

/// Whether each group has these entries, and no others.
fn have_entries(engine: &mut MemoryEngine, entries: Entries) -> Result<bool, EngineFault> {
    let mut all = true;
    for group in entries.groups.0..entries.groups.1 {
        all = all && has_entries(engine, group, entries)? && has_ends(engine, group, entries)?;
    }
    Ok(all)
}

/// `fill`, `renew` or `read`, with groups, indexes and bytes.
pub fn write_or_read(engine: &mut MemoryEngine, desk: &mut Desk, parts: &[&str]) -> bool {
    let [name, group, groups_end, first, end, len] = parts else {
        return false;
    };
    let entries = Entries {
        groups: (number(group), number(groups_end)),
        indexes: (number(first), number(end)),
        len: number(len),
    };
    match *name {
        "fill" => {
            let filled = fill(engine, desk, entries);
            desk.told.done("Written", filled)
        }
        "renew" => {
            let renewed = renew(engine, desk, entries);
            desk.told.done("Written", renewed)
        }
        "read" => desk.told.value("There", have_entries(engine, entries)),
        _ => false,
    }
}
