//! Writing the items of a record, and the record.

ghost use Rattle.std.specs.Prelude.{◌≡◌, ◌≤◌, ◌<◌, ◌+◌, ◌^◌, ◌-◌, ◌++◌, ◌∷◌, [], take, length, map, All, OnOk, IfOk, None, if◌then◌else◌};
ghost use Rattle.std.specs.List.{flat_map};
ghost use Rattle.std.specs.Int.{w32, to_be_bytes};
ghost use Rattle.raft_log_records.specs.Item.{change_of, item_of, items_of, change_map, item_map, with_lengths};
ghost use Rattle.raft_log_records.specs.Spelling.{spell_string, spell_entry, spell_change, spell_item, spell_items, status_byte, spell_parts, spell_run, sealed, block_part, FitsBytes};
ghost use Rattle.raft_log_records.specs.Checksum.{crc32_of};

use crate::checksum::crc32;
use crate::command::Command;
use crate::item::{AtomicGroupStatus, EntryIndex, LogItem, LogItemContent};
use std::alloc::AllocError;

fn put_string(out: &mut Vec<u8>, bytes: &[u8]) -> Result<(), AllocError>
    requires { length bytes.now < 2 ^ 32 }
    ensures { OnOk result (out.new.items ≡ out.old.items ++ spell_string bytes.now) }
{
    out.extend_from_slice(&(bytes.len() as u32).to_be_bytes())?;
    out.extend_from_slice(bytes)
}

fn put_entry(out: &mut Vec<u8>, entry: &EntryIndex) -> Result<(), AllocError>
    ensures { OnOk result (out.new.items ≡ out.old.items ++ spell_entry (entry.now.index, entry.now.entry_len)) }
{
    out.extend_from_slice(&entry.index.to_be_bytes())?;
    out.extend_from_slice(&entry.entry_len.to_be_bytes())
}

fn put_entries(out: &mut Vec<u8>, entries: &[EntryIndex]) -> Result<(), AllocError>
    ensures { OnOk result (out.new.items ≡ out.old.items ++ flat_map spell_entry (map (λ e. (e.index, e.entry_len)) entries.now)) }
{
    for entry in entries {
        put_entry(out, entry)?;
    }
    Ok(())
}

/// The item's tag, and how many entries it has with which lengths.
fn put_run(out: &mut Vec<u8>, entries: &[EntryIndex]) -> Result<(), AllocError>
    requires { length entries.now < 2 ^ 32 }
    ensures { OnOk result (out.new.items ≡ out.old.items ++ spell_run entries.now) }
{
    out.push(1)?;
    out.extend_from_slice(&(entries.len() as u32).to_be_bytes())?;
    put_entries(out, entries)
}

fn byte_of(status: AtomicGroupStatus) -> u8
    ensures { result ≡ status_byte status }
{
    match status {
        AtomicGroupStatus::Begin => 0,
        AtomicGroupStatus::Middle => 1,
        AtomicGroupStatus::End => 2,
    }
}

fn put_content(out: &mut Vec<u8>, content: &LogItemContent) -> Result<(), AllocError>
    requires { FitsBytes (change_of content.now) }
    ensures { OnOk result (out.new.items ≡ out.old.items ++ spell_change (change_map (λ e. e.entry_len) (change_of content.now))) }
{
    match content {
        LogItemContent::EntryIndexes(entries) => put_run(out, entries),
        LogItemContent::Command(Command::Clean) => Ok(out.push(2)?),
        LogItemContent::Command(Command::Compact { index }) => {
            out.push(3)?;
            out.extend_from_slice(&index.to_be_bytes())
        }
        LogItemContent::Put { key, value } => {
            out.push(4)?;
            put_string(out, key)?;
            put_string(out, value)
        }
        LogItemContent::Delete { key } => {
            out.push(5)?;
            put_string(out, key)
        }
        LogItemContent::AtomicGroup { id, status } => {
            out.push(6)?;
            out.extend_from_slice(&id.to_be_bytes())?;
            Ok(out.push(byte_of(*status))?)
        }
    }
}

fn put_item(out: &mut Vec<u8>, item: &LogItem) -> Result<(), AllocError>
    requires { FitsBytes (item_of item.now).change }
    ensures { OnOk result (out.new.items ≡ out.old.items ++ spell_item (item_map (λ e. e.entry_len) (item_of item.now))) }
{
    out.extend_from_slice(&item.raft_group_id.to_be_bytes())?;
    put_content(out, &item.content)
}

fn put_items(out: &mut Vec<u8>, items: &[LogItem]) -> Result<(), AllocError>
    requires { All (λ item. FitsBytes (item_of item).change) items.now }
    ensures { OnOk result (out.new.items ≡ out.old.items ++ flat_map spell_item (with_lengths (items_of items.now))) }
{
    for item in items {
        put_item(out, item)?;
    }
    Ok(())
}

/// The items of a record from their count on.
fn put_body(out: &mut Vec<u8>, items: &[LogItem]) -> Result<(), AllocError>
    requires count { length items.now < 2 ^ 32 }
    requires each { All (λ item. FitsBytes (item_of item).change) items.now }
    ensures { OnOk result (out.new.items ≡ out.old.items ++ spell_items (with_lengths (items_of items.now))) }
{
    out.extend_from_slice(&(items.len() as u32).to_be_bytes())?;
    put_items(out, items)
}

fn put_block(out: &mut Vec<u8>, entries: &[u8]) -> Result<(), AllocError>
    ensures { OnOk result (out.new.items ≡ out.old.items ++ sealed None entries.now) }
{
    out.extend_from_slice(entries)?;
    out.extend_from_slice(&crc32(entries).to_be_bytes())
}

/// The items from their count on, and their checksum, which is not signed yet. Answers the checksum.
fn put_sealed(out: &mut Vec<u8>, items: &[LogItem]) -> Result<u32, AllocError>
    requires count { length items.now < 2 ^ 32 }
    requires each { All (λ item. FitsBytes (item_of item).change) items.now }
    ensures sum { IfOk result (λ sum. sum ≡ crc32_of (spell_items (with_lengths (items_of items.now)))) }
    ensures bytes { OnOk result (out.new.items ≡ out.old.items ++ sealed None (spell_items (with_lengths (items_of items.now)))) }
{
    let start = out.len();
    put_body(out, items)?;
    let checksum = crc32(&out[start..]);
    out.extend_from_slice(&checksum.to_be_bytes())?;
    Ok(checksum)
}

fn put_header(out: &mut Vec<u8>, len: u32, offset: u32) -> Result<(), AllocError>
    ensures { OnOk result (out.new.items ≡ out.old.items ++ to_be_bytes w32 len ++ to_be_bytes w32 offset) }
{
    out.extend_from_slice(&len.to_be_bytes())?;
    out.extend_from_slice(&offset.to_be_bytes())
}

/// What stands before the items of a record of `len` bytes.
fn put_front(
    out: &mut Vec<u8>,
    len: u32,
    holds_entries: bool,
    entries: &[u8],
) -> Result<(), AllocError>
    requires { 12 + length entries.now < 2 ^ 32 }
    ensures { let block = block_part holds_entries entries.now in
        OnOk result (out.new.items ≡ out.old.items ++ (to_be_bytes w32 len ++ (to_be_bytes w32 (8 + length block) ++ block))) }
{
    if !holds_entries {
        return put_header(out, len, 8);
    }
    put_header(out, len, 12 + entries.len() as u32)?;
    put_block(out, entries)
}

/// Writes the record of `len` bytes, not signed, into the memory of an empty list, and answers it
/// with the checksum of its items. Room for it is made once, and each byte is copied once.
pub fn write_record(
    mut out: Vec<u8>,
    items: &[LogItem],
    holds_entries: bool,
    entries: &[u8],
    len: u32,
) -> Result<(Vec<u8>, u32), AllocError>
    requires empty { out.items ≡ [] }
    requires count { length items.now < 2 ^ 32 }
    requires each { All (λ item. FitsBytes (item_of item).change) items.now }
    requires room { 12 + length entries.now < 2 ^ 32 }
    requires len { len ≡ 12 + length (block_part holds_entries entries.now) + length (spell_items (with_lengths (items_of items.now))) }
    ensures bytes { IfOk result (λ x. x.0.items ≡ spell_parts None (block_part holds_entries entries.now) (spell_items (with_lengths (items_of items.now)))) }
    ensures sum { IfOk result (λ x. x.1 ≡ crc32_of (spell_items (with_lengths (items_of items.now)))) }
{
    out.reserve(len as usize)?;
    put_front(&mut out, len, holds_entries, entries)?;
    let checksum = put_sealed(&mut out, items)?;
    Ok((out, checksum))
}

/// Puts another checksum at the end of a record.
pub fn sign_again(bytes: &mut [u8], sum: u32)
    requires { 4 ≤ length bytes.old }
    ensures { bytes.new ≡ take (length bytes.old - 4) bytes.old ++ to_be_bytes w32 sum }
{
    let body = bytes.len() - 4;
    bytes[body..].copy_from_slice(&sum.to_be_bytes());
}
