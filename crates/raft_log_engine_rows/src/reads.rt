//! Reads of an engine.

use crate::files::tell_names;
use crate::messages::Text;
use crate::session::{Desk, MemoryEngine};
use crate::told::Told;
use raft_log_engine::EngineFault;
use raft_log_records::LogQueue;
use raft_rows::number;

/// A key that bounds a scan; `-` is none.
fn bound(word: &str) -> Option<&[u8]> {
    if word == "-" {
        return None;
    }
    Some(word.as_bytes())
}

/// Tells one more pair, and whether more are to come.
fn tell_pair(told: &mut Told, left: &mut u64, key: &[u8], value: &[u8]) -> bool {
    told.show("", &(key, value));
    *left = left.saturating_sub(1);
    *left > 0
}

/// The keys of a range with their values: `GROUP:START:END:up:MOST` or `down`.
fn scan(engine: &MemoryEngine, told: &mut Told, words: &[&str]) -> bool {
    let [group, start, end, direction, most] = words else {
        return false;
    };
    told.word("Pairs");
    let mut left = number(most);
    let scanned = engine.scan_raw_messages(
        number(group),
        bound(start),
        bound(end),
        *direction == "down",
        |key, value| tell_pair(told, &mut left, key, value),
    );
    told.done("", scanned)
}

/// The keys of a range whose values are texts, with them.
fn scan_texts(engine: &MemoryEngine, told: &mut Told, words: &[&str]) -> bool {
    let [group, start, end, direction, most] = words else {
        return false;
    };
    told.word("Texts");
    let mut left = number(most);
    let scanned = engine.scan_messages(
        number(group),
        bound(start),
        bound(end),
        *direction == "down",
        |key, text: Text| tell_pair(told, &mut left, key, &text.bytes),
    );
    told.done("", scanned)
}

/// The text under a key.
fn tell_text(told: &mut Told, text: Result<Option<Text>, EngineFault>) -> bool {
    match text {
        Ok(Some(text)) => told.show("Text", &text.bytes),
        Ok(None) => told.word("Text None"),
        Err(fault) => told.refuse(fault),
    }
}

/// What a step asks of a group's keys: `get:GROUP:KEY`, `text:GROUP:KEY`, `there:GROUP`, `scan` or
/// `texts`.
fn read_keys(engine: &MemoryEngine, told: &mut Told, parts: &[&str]) -> bool {
    match parts {
        ["get", group, key] => told.value("Value", engine.get(number(group), key.as_bytes())),
        ["text", group, key] => {
            tell_text(told, engine.get_message(number(group), key.as_bytes()))
        }
        ["there", group] => told.value("There", engine.is_there(number(group))),
        ["scan", words @ ..] => scan(engine, told, words),
        ["texts", words @ ..] => scan_texts(engine, told, words),
        _ => false,
    }
}

/// The entries of a range, up to a size in bytes.
fn fetch(
    engine: &mut MemoryEngine,
    told: &mut Told,
    range: (&str, &str, &str),
    size: Option<u64>,
) -> bool {
    let (group, begin, end) = (number(range.0), number(range.1), number(range.2));
    told.value("Entries", engine.fetch_entries_to(group, begin, end, size))
}

/// What a step asks of a group's list: `entry:GROUP:INDEX`, `fetch:GROUP:BEGIN:END`, with `:SIZE`
/// behind it or without, `first:GROUP`, `last:GROUP`, or `compact_to:GROUP:INDEX`.
fn read_list(engine: &mut MemoryEngine, told: &mut Told, parts: &[&str]) -> bool {
    match parts {
        ["entry", group, index] => {
            told.value("Entry", engine.get_entry(number(group), number(index)))
        }
        ["fetch", group, begin, end] => fetch(engine, told, (*group, *begin, *end), None),
        ["fetch", group, begin, end, size] => {
            fetch(engine, told, (*group, *begin, *end), Some(number(size)))
        }
        ["first", group] => told.value("Index", engine.first_index(number(group))),
        ["last", group] => told.value("Index", engine.last_index(number(group))),
        ["compact_to", group, index] => {
            told.value("Removed", engine.compact_to(number(group), number(index)))
        }
        _ => false,
    }
}

/// What a step asks of the whole engine: `groups`, `empty`, `span`, `rewrites`, the span of the
/// rewrite queue, `used` or `blocks`.
fn read_all(engine: &MemoryEngine, told: &mut Told, word: &str) -> bool {
    match word {
        "groups" => told.value("Groups", engine.raft_groups()),
        "empty" => told.value("Empty", engine.is_empty()),
        "span" => told.show("Files", &engine.file_span(LogQueue::Append)),
        "rewrites" => told.show("Files", &engine.file_span(LogQueue::Rewrite)),
        "used" => told.show("Bytes", &engine.get_used_size()),
        "blocks" => told.show("Blocks", &engine.block_reads()),
        _ => false,
    }
}

/// What a step asks, or `fuse:CALL`, from which call on the files refuse, or `names:DIRECTORY`.
pub fn read(engine: &mut MemoryEngine, desk: &mut Desk, parts: &[&str]) -> bool {
    match parts {
        ["fuse", call] => {
            engine.set_fuse(Some(desk.number(call)));
            true
        }
        ["names", directory] => tell_names(engine.files(), desk, directory),
        [word] => read_all(engine, &mut desk.told, word),
        _ => {
            read_keys(engine, &mut desk.told, parts) || read_list(engine, &mut desk.told, parts)
        }
    }
}
