//! The calls of any storage with such snapshots, each behind a function without clauses.

use raft_group_step::{Entries, LoggedMembership, SnapshotMeta};
use raft_group_storage::{GroupStorage, LoadedGroup};
use raft_messages::SnapshotBytes;
use raft_row_values::{entries, log_id, log_id_if_any, membership, vote};
use raft_rows::{bytes, number};
use raft_state::{BasicNode, Bytes, LogId};
use std::alloc::{AllocError, Global};

// Entries of one leader from this log id on.
fn put<S: GroupStorage>(
    storage: &mut S,
    alloc: Global,
    group: u64,
    first: LogId<u64>,
    words: &[&str],
) -> Result<(), S::Fault> {
    let entries = entries(alloc, first, words)?;
    storage.put_entries(group, first.index, &entries)
}

// A membership with its log id, as `1-1-0=1,2/1=a,2=b`, or `-`.
fn logged(
    alloc: Global,
    word: &str,
) -> Result<Option<LoggedMembership<u64, BasicNode>>, AllocError> {
    match word.split_once('=') {
        Some((id, members)) => Ok(Some(LoggedMembership {
            log_id: log_id(id),
            membership: membership(alloc, members)?,
        })),
        None => Ok(None),
    }
}

// A snapshot up to a log id, with the machine's bytes.
fn snapshot(
    alloc: Global,
    last_log_id: LogId<u64>,
    members: &str,
    state: &str,
) -> Result<SnapshotBytes, AllocError> {
    let state = bytes(alloc, state)?;
    let bytes = Bytes::from_slice(alloc, state.as_slice())?;
    let last_membership = logged(alloc, members)?;
    let meta = SnapshotMeta {
        last_log_id,
        last_membership,
    };
    Ok(SnapshotBytes { meta, bytes })
}

fn set_snapshot<S: GroupStorage<Snapshot = SnapshotBytes>>(
    storage: &mut S,
    alloc: Global,
    group: u64,
    [last, members, state]: [&str; 3],
) -> Result<(), S::Fault> {
    let snapshot = snapshot(alloc, log_id(last), members, state)?;
    storage.set_snapshot(group, &snapshot)
}

// A call with one value.
fn set<S: GroupStorage>(
    storage: &mut S,
    group: u64,
    verb: &str,
    word: &str,
) -> Option<Result<(), S::Fault>> {
    match verb {
        "vote" => Some(storage.set_vote(group, vote(word))),
        "cut-from" => Some(storage.cut_from(group, number(word))),
        "remove-up-to" => Some(storage.remove_up_to(group, log_id(word))),
        "start-after" => Some(storage.start_after(group, log_id(word))),
        _ => None,
    }
}

/// What the call of a row that stores was told.
pub fn store<S: GroupStorage<Snapshot = SnapshotBytes>>(
    storage: &mut S,
    alloc: Global,
    group: u64,
    words: &[&str],
) -> Option<Result<(), S::Fault>> {
    match *words {
        ["make"] => Some(storage.make_group(group)),
        ["put", first, ref texts @ ..] => Some(put(storage, alloc, group, log_id(first), texts)),
        ["set-snapshot", last, members, state] => {
            Some(set_snapshot(storage, alloc, group, [last, members, state]))
        }
        [verb, word] => set(storage, group, verb, word),
        _ => None,
    }
}

/// The ids of the groups.
pub fn ids<S: GroupStorage>(storage: &mut S, alloc: Global) -> Result<Vec<u64>, S::Fault> {
    storage.groups(alloc)
}

pub fn loaded<S: GroupStorage>(
    storage: &mut S,
    alloc: Global,
    group: u64,
) -> Result<LoadedGroup, S::Fault> {
    storage.load(alloc, group)
}

/// The log's entries above a log id, up to another.
pub fn between<S: GroupStorage>(
    storage: &mut S,
    alloc: Global,
    group: u64,
    prev: &str,
    last: &str,
) -> Result<Entries<u64, BasicNode, Bytes>, S::Fault> {
    storage.entries_between(alloc, group, log_id_if_any(prev), log_id_if_any(last))
}

pub fn kept<S: GroupStorage>(
    storage: &mut S,
    alloc: Global,
    group: u64,
) -> Result<Option<S::Snapshot>, S::Fault> {
    storage.snapshot(alloc, group)
}
