//! Work that is done so often that the instructions of each can be counted.

use crate::batches::{add_entries, key_of, put, write};
use crate::cleaning::expire;
use crate::entries::set_entries;
use crate::session::{Desk, MemoryEngine};
use raft_log_engine::EngineFault;
use raft_rows::number;

/// How many puts come between two looks at whether the log is to be cleaned.
const PUTS_BETWEEN: u64 = 64;

/// Reads so many entries from this one on, each by a call of its own.
fn read_each(
    engine: &mut MemoryEngine,
    group: u64,
    first: u64,
    count: u64,
) -> Result<(), EngineFault> {
    for place in 0..count {
        let _ = engine.get_entry(group, first.saturating_add(place))?;
    }
    Ok(())
}

/// Reads a batch of a group, or each of its entries, where that is asked for.
fn read_back(
    engine: &mut MemoryEngine,
    how: &str,
    group: u64,
    first: u64,
    count: u64,
) -> Result<(), EngineFault> {
    match how {
        "fetch" => {
            let end = first.saturating_add(count);
            let _ = engine.fetch_entries_to(group, first, end, None)?;
            Ok(())
        }
        "get" => read_each(engine, group, first, count),
        _ => Ok(()),
    }
}

/// Writes the desk's entries so often, in so many groups in turn, and reads them where that is
/// asked for.
fn turns(
    engine: &mut MemoryEngine,
    desk: &mut Desk,
    how: &str,
    groups: u64,
    rounds: u64,
) -> Result<(), EngineFault> {
    let count = desk.entries.len() as u64;
    let groups = groups.max(1);
    for round in 0..rounds {
        let group = round % groups;
        let first = (round / groups).saturating_mul(count).saturating_add(1);
        let made = add_entries(desk, group, first);
        write(engine, desk, made, true)?;
        read_back(engine, how, group, first, count)?;
    }
    Ok(())
}

/// Puts a value of so many bytes under a group's key, and answers the bytes of its record.
fn put_key(
    engine: &mut MemoryEngine,
    desk: &mut Desk,
    group: u64,
    len: u64,
) -> Result<u64, EngineFault> {
    let alloc = desk.alloc;
    let value = Vec::from_elem(alloc, 7u8, len as usize);
    let made = put(&mut desk.batch, group, key_of(alloc, "key"), value);
    match write(engine, desk, made, true) {
        Ok(record) => Ok(record as u64),
        Err(fault) => Err(fault),
    }
}

/// Puts a value in each of so many groups, then so many in a group of its own, and cleans the log
/// between these where it is time for that: how many bytes the puts wrote.
fn steady(
    engine: &mut MemoryEngine,
    desk: &mut Desk,
    len: u64,
    groups: u64,
    rounds: u64,
) -> Result<u64, EngineFault> {
    let mut written = 0u64;
    for group in 0..groups {
        let record = put_key(engine, desk, group.saturating_add(1), len)?;
        written = written.saturating_add(record);
    }
    for round in 0..rounds {
        written = written.saturating_add(put_key(engine, desk, 0, len)?);
        if round % PUTS_BETWEEN == 0 {
            let _ = expire(engine, desk)?;
        }
    }
    Ok(written)
}

/// Takes a step: `bench:write:LEN:BATCH:GROUPS:ROUNDS`, `fetch` or `get` with the same words, or
/// `bench:steady:LEN:GROUPS:ROUNDS`.
pub fn work(engine: &mut MemoryEngine, desk: &mut Desk, parts: &[&str]) -> bool {
    match parts {
        ["bench", "steady", len, groups, rounds] => {
            let put = steady(engine, desk, number(len), number(groups), number(rounds));
            desk.told.value("Put", put)
        }
        ["bench", how, len, batch, groups, rounds] => {
            if set_entries(desk, number(batch), 7, number(len)).is_err() {
                return desk.told.lack_memory();
            }
            let done = turns(engine, desk, how, number(groups), number(rounds));
            desk.told.done("Done", done)
        }
        _ => false,
    }
}
