//! Storages in memory, by their trait: of groups by their ids, or of a stored group alone.

use crate::engines::text;
use raft_executor::stored_meta;
use raft_group_storage::uses::vote_and_cut;
use raft_group_storage::{GroupStorage, PlainGroups};
use raft_row_values::{IdText, VoteText, entries, log_id, log_id_if_any, vote};
use raft_rows::{Answer, number};
use raft_state::LogId;
use raft_stored_group::{GroupSnapshot, StoredGroup};
use std::alloc::{AllocError, Global};

// ---- what is stored

fn puts<S: GroupStorage>(
    storage: &mut S,
    alloc: Global,
    group: u64,
    first: &str,
    words: &[&str],
) -> Result<(), S::Fault> {
    let first = log_id(first);
    let entries = entries(alloc, first, words)?;
    storage.put_entries(group, first.index, entries.as_slice())
}

// A snapshot without entries and membership.
fn sets_snapshot<S: GroupStorage<Snapshot = GroupSnapshot>>(
    storage: &mut S,
    alloc: Global,
    group: u64,
    last: LogId<u64>,
) -> Result<(), S::Fault> {
    storage.set_snapshot(group, &GroupSnapshot::new(last, None, Vec::new(alloc)))
}

// The answer to a row that stores what it names.
fn stored<S: GroupStorage<Snapshot = GroupSnapshot>>(
    storage: &mut S,
    alloc: Global,
    group: u64,
    words: &[&str],
) -> Option<Answer> {
    let told = match *words {
        ["make"] => storage.make_group(group),
        ["vote", word] => storage.set_vote(group, vote(word)),
        ["cut-from", place] => storage.cut_from(group, number(place)),
        ["remove-up-to", word] => storage.remove_up_to(group, log_id(word)),
        ["start-after", word] => storage.start_after(group, log_id(word)),
        ["snapshot", word] => sets_snapshot(storage, alloc, group, log_id(word)),
        ["vote-and-cut", word, place] => vote_and_cut(storage, group, vote(word), number(place)),
        ["put", first, ref words @ ..] => puts(storage, alloc, group, first, words),
        _ => return None,
    };
    Some(Answer::Word(if told.is_ok() { "ok" } else { "refused" }))
}

// ---- what is read

// Whether there is the group, its vote, the purge point, the snapshot's end, and how many entries there
// are.
fn loaded<S: GroupStorage>(storage: &mut S, alloc: Global, group: u64) -> Option<Answer> {
    let loaded = storage.load(alloc, group).ok()?;
    let (present, vote) = (loaded.present, VoteText(loaded.vote));
    let purged = IdText(loaded.purged);
    let covered = IdText(loaded.snapshot.as_ref().map(|head| head.last_log_id));
    let length = loaded.log.len();
    Some(text(format!(in alloc;
        "{present} vote {vote} purged {purged} snapshot {covered} entries {length}"
    )))
}

// The end of the snapshot's copy.
fn end<S: GroupStorage<Snapshot = GroupSnapshot>>(
    storage: &mut S,
    alloc: Global,
    group: u64,
) -> Option<Answer> {
    let snapshot = storage.snapshot(alloc, group).ok()?;
    Some(Answer::told(alloc, &IdText(snapshot.map(|snapshot| snapshot.last()))))
}

// How many entries are copied of those up to the log id.
fn count_to<S: GroupStorage>(
    storage: &mut S,
    alloc: Global,
    group: u64,
    last: &str,
) -> Option<Answer> {
    let last = log_id_if_any(last);
    let copies = storage.entries_between(alloc, group, None, last).ok()?;
    Some(Answer::shown(alloc, &copies.len()))
}

fn read<S: GroupStorage<Snapshot = GroupSnapshot>>(
    storage: &mut S,
    alloc: Global,
    group: u64,
    words: &[&str],
) -> Option<Answer> {
    match *words {
        ["load"] => loaded(storage, alloc, group),
        ["end"] => end(storage, alloc, group),
        ["count-to", last] => count_to(storage, alloc, group, last),
        _ => stored(storage, alloc, group, words),
    }
}

/// The answer to a row about a storage.
pub fn kept<S: GroupStorage<Snapshot = GroupSnapshot>>(
    storage: &mut S,
    alloc: Global,
    words: &[&str],
) -> Option<Answer> {
    match *words {
        ["groups"] => Some(Answer::shown(alloc, &storage.groups(alloc).ok()?)),
        [group, ref words @ ..] => read(storage, alloc, number(group), words),
        _ => None,
    }
}

// How many entries a copy holds, in its snapshot and its log.
fn count_held(stored: &StoredGroup) -> Result<usize, AllocError> {
    Ok(stored.clone()?.held()?.len())
}

// The last log id of the snapshot that an engine is told of.
fn told_last(stored: &StoredGroup, alloc: Global) -> Result<Option<LogId<u64>>, AllocError> {
    Ok(stored_meta(alloc, stored)?.last_log_id)
}

/// The answer to a row about a stored group alone.
pub fn known_of(stored: &StoredGroup, alloc: Global, words: &[&str]) -> Option<Answer> {
    Some(match *words {
        ["held"] => Answer::shown(alloc, &count_held(stored).ok()?),
        ["meta"] => Answer::told(alloc, &IdText(told_last(stored, alloc).ok()?)),
        _ => return None,
    })
}
