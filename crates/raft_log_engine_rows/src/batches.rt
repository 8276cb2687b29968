//! Batches as the words of a row say them.

ghost use Rattle.std.specs.Prelude.{◌<◌, length, IfOk};

use crate::session::{Desk, MemoryEngine};
use raft_log_engine::EngineFault;
use raft_log_files::Error;
use raft_log_records::{AtomicGroupBuilder, Command, LogBatch, RecordError};
use raft_rows::{bytes, number};
use std::alloc::{AllocError, Global};

/// The bytes of a key; an empty word is the key `-`.
pub fn key_of(alloc: Global, word: &str) -> Result<Vec<u8>, AllocError>
    ensures { IfOk result (λ v. 0 < length v.items) }
{
    if word.is_empty() {
        return Vec::from_slice(alloc, b"-".as_slice());
    }
    Vec::from_slice(alloc, word.as_bytes())
}

/// Puts the desk's entries into its batch, from an index on. Past the greatest index there are
/// none.
pub fn add_entries(desk: &mut Desk, group: u64, first: u64) -> Result<(), RecordError> {
    if u64::MAX - first < desk.entries.len() as u64 {
        return Ok(());
    }
    desk.batch.add_raw_entries(group, first, &desk.entries)
}

/// The desk's entries are the texts between commas.
fn set_entries(alloc: Global, entries: &mut Vec<Vec<u8>>, texts: &str) -> Result<(), AllocError> {
    entries.clear();
    for text in texts.split(',') {
        entries.push(bytes(alloc, text)?)?;
    }
    Ok(())
}

/// Puts a value under a key.
pub fn put(
    batch: &mut LogBatch,
    group: u64,
    key: Result<Vec<u8>, AllocError>,
    value: Result<Vec<u8>, AllocError>,
) -> Result<(), RecordError>
    requires { IfOk key (λ v. 0 < length v.items) }
{
    match (key, value) {
        (Ok(key), Ok(value)) => batch.put(group, key, value),
        _ => Err(RecordError::Memory),
    }
}

/// Adds what a word says: `put:GROUP:KEY:VALUE`, `delete:GROUP:KEY`, `add:GROUP:FIRST:TEXT,TEXT`,
/// `compact:GROUP:INDEX`, `clean:GROUP` or `mark`. Other words add nothing.
fn add(desk: &mut Desk, parts: &[&str]) -> Result<(), RecordError> {
    let alloc = desk.alloc;
    match parts {
        ["put", group, key, value] => put(
            &mut desk.batch,
            number(group),
            key_of(alloc, key),
            bytes(alloc, value),
        ),
        ["delete", group, key] => {
            let key = key_of(alloc, key)?;
            desk.batch.delete(number(group), key)
        }
        ["add", group, first, texts] => {
            set_entries(alloc, &mut desk.entries, texts)?;
            add_entries(desk, number(group), number(first))
        }
        ["compact", group, index] => {
            let index = number(index);
            desk.batch
                .add_command(number(group), Command::Compact { index })
        }
        ["clean", group] => desk.batch.add_command(number(group), Command::Clean),
        ["mark"] => AtomicGroupBuilder::with_id(1).begin(&mut desk.batch),
        _ => Ok(()),
    }
}

/// Adds an item.
fn add_item(desk: &mut Desk, item: &str) -> Result<(), RecordError> {
    let parts: Result<Vec<&str>, _> = item.split(':').collect(desk.alloc);
    match parts {
        Ok(parts) => add(desk, &parts),
        Err(_) => Err(RecordError::Memory),
    }
}

/// Adds the items that a word joins by `+`.
fn add_items(desk: &mut Desk, word: &str) -> Result<(), RecordError> {
    for item in word.split('+') {
        add_item(desk, item)?;
    }
    Ok(())
}

/// Writes the desk's batch, if it could be made. It is empty then.
pub fn write(
    engine: &mut MemoryEngine,
    desk: &mut Desk,
    made: Result<(), RecordError>,
    sync: bool,
) -> Result<usize, EngineFault> {
    let written = match made {
        Ok(()) => engine.write_with(&mut desk.batch, sync, &mut desk.hooks),
        Err(_) => Err(EngineFault::Log(Error::Memory)),
    };
    if written.is_err() {
        desk.drop_batch();
    }
    written
}

/// Writes the batch that a word says, and syncs it but where `unsynced` stands before its items.
/// Behind `sized` the length of its record is told.
pub fn write_words(engine: &mut MemoryEngine, desk: &mut Desk, word: &str) -> bool {
    let made = add_items(desk, word);
    let written = write(engine, desk, made, !word.starts_with("unsynced+"));
    if word.starts_with("sized+") {
        return desk.told.value("Sized", written);
    }
    desk.told.done("Written", written)
}
