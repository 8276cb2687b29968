//! Numbered batches, each of a group of its own, with a key and an entry.

use crate::batches::{add_entries, key_of, put, write};
use crate::entries::set_entries;
use crate::session::{Desk, MemoryEngine};
use raft_log_engine::EngineFault;
use raft_log_records::RecordError;
use raft_rows::number;

/// What is there of a batch.
#[derive(Clone, Copy)]
enum Seen {
    Whole,
    Nothing,
    /// Something that isn't a batch as it was written.
    Other,
}

/// The byte that stands for a batch.
fn byte_of(number: u64) -> u8 {
    (number & 0x7f) as u8
}

/// The desk's batch is the one of this number.
fn add_numbered(desk: &mut Desk, number: u64) -> Result<(), RecordError> {
    let (alloc, byte) = (desk.alloc, byte_of(number));
    set_entries(desk, 1, byte, 2)?;
    put(
        &mut desk.batch,
        number,
        key_of(alloc, "a"),
        Vec::from_elem(alloc, byte, 1),
    )?;
    add_entries(desk, number, 1)
}

/// Writes batches from the first one on until one is refused, and notes how many were told.
fn write_numbered(
    engine: &mut MemoryEngine,
    desk: &mut Desk,
    count: u64,
) -> Result<(), EngineFault> {
    for at in 0..count {
        let number = at.saturating_add(1);
        let made = add_numbered(desk, number);
        write(engine, desk, made, true)?;
        desk.written = number;
    }
    Ok(())
}

/// Whether these are the bytes that were read.
fn is_read(read: Result<Option<Vec<u8>>, EngineFault>, bytes: &[u8]) -> Result<bool, EngineFault> {
    match read {
        Ok(Some(read)) => Ok(read.as_slice() == bytes),
        Ok(None) => Ok(false),
        Err(fault) => Err(fault),
    }
}

/// What is there of a batch.
fn look(engine: &mut MemoryEngine, number: u64) -> Result<Seen, EngineFault> {
    if !engine.is_there(number)? {
        return Ok(Seen::Nothing);
    }
    let byte = byte_of(number);
    let has_value = is_read(engine.get(number, b"a".as_slice()), &[byte])?;
    let has_entry = is_read(engine.get_entry(number, 1), &[byte, byte])?;
    let is_last = engine.last_index(number)? == Some(1);
    Ok(if has_value && has_entry && is_last {
        Seen::Whole
    } else {
        Seen::Other
    })
}

/// Tells which of the batches are there, if each is there whole or not at all.
fn find(engine: &mut MemoryEngine, desk: &mut Desk, count: u64) -> bool {
    desk.told.word("Found");
    for at in 0..count {
        let number = at.saturating_add(1);
        match look(engine, number) {
            Ok(Seen::Whole) => desk.told.show("", &number),
            Ok(Seen::Nothing) => true,
            Ok(Seen::Other) => desk.told.word(" other"),
            Err(fault) => return desk.told.refuse(fault),
        };
    }
    true
}

/// Whether each batch that was told is there, and none in part.
fn keeps_told(engine: &mut MemoryEngine, desk: &Desk, count: u64) -> Result<bool, EngineFault> {
    for at in 0..count {
        let number = at.saturating_add(1);
        match look(engine, number)? {
            Seen::Whole => {}
            Seen::Nothing if desk.written < number => {}
            _ => return Ok(false),
        }
    }
    Ok(true)
}

/// Takes a step: `numbered:COUNT` writes so many batches, `found:COUNT` and `kept:COUNT` look for
/// them.
pub fn count(engine: &mut MemoryEngine, desk: &mut Desk, parts: &[&str]) -> bool {
    match parts {
        ["numbered", count] => {
            let written = write_numbered(engine, desk, number(count));
            desk.told.done("Written", written)
        }
        ["found", count] => find(engine, desk, number(count)),
        ["kept", count] => {
            let kept = keeps_told(engine, desk, number(count));
            desk.told.value("Kept", kept)
        }
        _ => false,
    }
}
