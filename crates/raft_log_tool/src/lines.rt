//! The text of an item.
ghost use Rattle.std.specs.Prelude.{◌≡◌, ◌++◌, OnOk, map, string_bytes};
ghost use Rattle.std.specs.List.{flat_map};
ghost use Rattle.raft_log_records.specs.Item.{change_of, command_change, item_of, items_of};
ghost use Rattle.hex.specs.Hex.{encode_lower};
ghost use Rattle.raft_log_tool.specs.Lines.{change_text, entries_text, item_text, mark_text, sum_of};

use raft_log_contents::{push_file, push_named};
use raft_log_records::{AtomicGroupStatus, Command, EntryIndex, FileId, LogItem, LogItemContent};
use std::alloc::{AllocError, Global};

/// The bytes of all these entries; 2^64 - 1 where they are more.
pub fn entries_len(entries: &[EntryIndex]) -> u64
    ensures { result ≡ sum_of (map (λ e. e.entry_len) entries.now) }
{
    let mut total: u64 = 0;
    for entry in entries {
        total = total.saturating_add(u64::from(entry.entry_len));
    }
    total
}

// The text, and entries behind it: the first one's index, the last one's, and their bytes.
fn push_entries(text: &mut String, entries: &[EntryIndex]) -> Result<(), AllocError>
    ensures { OnOk result (string_bytes text.new ≡ string_bytes text.old ++ entries_text entries.now) }
{
    match (entries.first(), entries.last()) {
        (Some(first), Some(last)) => {
            push_named(text, "entries ", first.index)?;
            push_named(text, " to ", last.index)?;
            push_named(text, " bytes ", entries_len(entries))?;
            Ok(())
        }
        _ => text.push_str("no entries"),
    }
}

// The text, and a command behind it.
fn push_command(text: &mut String, command: Command) -> Result<(), AllocError>
    ensures { OnOk result (string_bytes text.new ≡ string_bytes text.old ++ change_text (command_change command)) }
{
    match command {
        Command::Clean => text.push_str("clean"),
        Command::Compact { index } => push_named(text, "compact before ", index),
    }
}

fn status_name(status: AtomicGroupStatus) -> &'static str
    ensures { result.now ≡ mark_text status }
{
    match status {
        AtomicGroupStatus::Begin => " begin",
        AtomicGroupStatus::Middle => " middle",
        AtomicGroupStatus::End => " end",
    }
}

// The text, and behind it a word and a key in hex.
fn push_key(alloc: Global, text: &mut String, word: &str, key: &[u8]) -> Result<(), AllocError>
    ensures { OnOk result (string_bytes text.new ≡ string_bytes text.old ++ (word.now ++ encode_lower key.now)) }
{
    let digits = hex::encode(alloc, key)?;
    text.push_str(word)?;
    text.push_str(digits.as_str())
}

// The text, and behind it what an item does.
fn push_change(alloc: Global, text: &mut String, content: &LogItemContent) -> Result<(), AllocError>
    ensures { OnOk result (string_bytes text.new ≡ string_bytes text.old ++ change_text (change_of content.now)) }
{
    match content {
        LogItemContent::EntryIndexes(entries) => push_entries(text, entries),
        LogItemContent::Command(command) => push_command(text, *command),
        LogItemContent::Put { key, value } => {
            push_key(alloc, text, "put ", key)?;
            push_named(text, " bytes ", value.len() as u64)
        }
        LogItemContent::Delete { key } => push_key(alloc, text, "delete ", key),
        LogItemContent::AtomicGroup { id, status } => {
            push_named(text, "mark ", *id)?;
            text.push_str(status_name(*status))
        }
    }
}

// The text, and behind it the line of an item.
fn push_item(alloc: Global, text: &mut String, id: FileId, item: &LogItem) -> Result<(), AllocError>
    ensures { OnOk result (string_bytes text.new ≡ string_bytes text.old ++ item_text id (item_of item.now)) }
{
    push_file(text, id)?;
    push_named(text, " group ", item.raft_group_id)?;
    text.push_str(" ")?;
    push_change(alloc, text, &item.content)?;
    text.push_str("\n")
}

/// The text, and behind it a line for each item of a file (own). The only error is want of memory.
pub fn push_items(
    alloc: Global,
    text: &mut String,
    id: FileId,
    items: &[LogItem],
) -> Result<(), AllocError>
    ensures { OnOk result (string_bytes text.new ≡ string_bytes text.old ++ flat_map (item_text id) (items_of items.now)) }
{
    for item in items {
        push_item(alloc, text, id, item)?;
    }
    Ok(())
}
