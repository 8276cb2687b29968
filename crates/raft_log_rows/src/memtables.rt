//! Memtables, and records that are replayed into them or looked through for holes.

use raft_log_files::Error;
use raft_log_items::ConsistencyChecker;
use raft_log_memtables::{MemTables, PlacedBatch, replay_all};
use raft_log_records::{FileBlockHandle, FileId, LogBatch, LogQueue};
use raft_log_recovery::{MergeMachine, NewMachine, ReplayMachine};
use raft_rows::{Answer, bytes, number};
use std::alloc::{AllocError, Global};
use std::mem;

/// Where each record lies.
fn handle() -> FileBlockHandle {
    FileBlockHandle {
        id: FileId::new(LogQueue::Append, 3),
        offset: 8,
        len: 40,
    }
}

fn apply(tables: &mut MemTables, batch: &mut LogBatch) -> Result<(), AllocError> {
    tables.apply(batch.drain(), handle())
}

fn place(records: &mut Vec<PlacedBatch>, batch: &mut LogBatch) -> Result<(), AllocError> {
    let placed = PlacedBatch {
        batch: batch.drain(),
        handle: handle(),
    };
    records.push(placed)?;
    Ok(())
}

fn replay(
    tables: &mut MemTables,
    alloc: Global,
    records: Vec<PlacedBatch>,
) -> Result<(), AllocError> {
    *tables = replay_all(alloc, records)?;
    Ok(())
}

/// The groups of records that have a hole, each with the last index before its first one. A record
/// without items parts machines, which are merged.
fn holes(alloc: Global, records: Vec<PlacedBatch>) -> Result<Vec<(u64, u64)>, Error> {
    let mut whole = ConsistencyChecker::new_machine(alloc);
    let mut part = ConsistencyChecker::new_machine(alloc);
    for placed in records {
        if placed.batch.items.is_empty() {
            let next = ConsistencyChecker::new_machine(alloc);
            whole.merge(mem::replace(&mut part, next))?;
        }
        part.replay(placed.batch, placed.handle)?;
    }
    whole.merge(part)?;
    Ok(whole.finish(alloc)?)
}

fn value(
    tables: &MemTables,
    alloc: Global,
    group: u64,
    key: &str,
) -> Result<Option<Vec<u8>>, AllocError> {
    match tables.get(group, &bytes(alloc, key)?) {
        Some(value) => Ok(Some(Vec::from_slice(alloc, value)?)),
        None => Ok(None),
    }
}

/// The answer to a row about the memtables.
pub fn replayed(
    tables: &mut MemTables,
    records: &mut Vec<PlacedBatch>,
    batch: &mut LogBatch,
    alloc: Global,
    words: &[&str],
) -> Option<Answer> {
    let told = match *words {
        ["apply"] => apply(tables, batch),
        ["place"] => place(records, batch),
        ["replay"] => replay(tables, alloc, mem::replace(records, Vec::new(alloc))),
        ["holes"] => {
            let found = holes(alloc, mem::replace(records, Vec::new(alloc)));
            return Some(Answer::shown(alloc, &found));
        }
        ["get", group, key] => {
            return Some(Answer::found(alloc, value(tables, alloc, number(group), key)));
        }
        _ => return None,
    };
    Some(Answer::shown(alloc, &told))
}
