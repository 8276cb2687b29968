//! What the nodes of a counted run begin with.
ghost use Rattle.std.specs.Prelude.{◌<◌};

use raft_engine::KnownState;
use raft_messages::{GroupEntry, GroupPayload, all_go_on};
use raft_row_values::id;
use raft_rows::number;
use raft_state::{BasicNode, Entry, EntryPayload, LeaderId, LogId, Membership, SnapshotMeta, Vote};
use raft_stored_group::StoredGroup;
use std::alloc::{AllocError, Global};

/// What is counted, as `main` has it.
#[derive(Clone, Copy)]
pub struct Task {
    pub voters: u64,
    pub learners: u64,
    pub entries: u64,
    pub commands: u64,
    pub leaders: u64,
    pub memberships: u64,
    pub beats: u64,
    pub elections: u64,
    pub purges: u64,
}

// The number that the word at this place is, or the other one where there is no word.
fn at(words: &[&str], place: usize, other: u64) -> u64 {
    words.get(place).map_or(other, |word| number(*word))
}

impl Task {
    /// The task that the words of a row say.
    pub fn of(words: &[&str]) -> Task {
        Task {
            voters: at(words, 0, 1),
            learners: at(words, 1, 0),
            entries: at(words, 2, 1),
            commands: at(words, 3, 0),
            leaders: at(words, 4, 1),
            memberships: at(words, 5, 1),
            beats: at(words, 6, 0),
            elections: at(words, 7, 0),
            purges: at(words, 8, 0),
        }
    }

    /// How many members the group has.
    pub fn members(&self) -> u64 {
        self.voters.saturating_add(self.learners)
    }
}

// The same membership each time.
fn membership(alloc: Global, task: &Task) -> Result<Membership<u64, BasicNode>, AllocError> {
    let mut nodes: Vec<(u64, &str)> = Vec::new(alloc);
    for at in 0..task.members() {
        nodes.push((at + 1, "host"))?;
    }
    let voters = nodes.get(..task.voters as usize).unwrap_or(&[]);
    Membership::of_one_group(alloc, voters, &nodes).map_err(|_| AllocError)
}

// How many entries go by until the next one of so many begins.
fn stretch(entries: u64, count: u64) -> u64
    ensures { 0 < result }
{
    if count == 0 {
        return 1;
    }
    (entries / count).max(1)
}

// The leader that wrote the entry.
fn leader(task: &Task, index: u64) -> LeaderId<u64> {
    let run = stretch(task.entries, task.leaders);
    LeaderId::new((index / run).saturating_add(1), 2)
}

// What the entry has: nothing, or a membership.
fn payload(alloc: Global, task: &Task, index: u64) -> Result<GroupPayload, AllocError> {
    if index % stretch(task.entries, task.memberships) == 0 {
        return Ok(EntryPayload::Membership(membership(alloc, task)?));
    }
    Ok(EntryPayload::Blank)
}

// The set-up's entry, and behind it blank ones and memberships of other leaders' terms.
fn entries(alloc: Global, task: &Task) -> Result<Vec<GroupEntry>, AllocError> {
    let mut entries = Vec::new(alloc);
    entries.push(Entry {
        log_id: id(0, 0, 0),
        payload: EntryPayload::Membership(membership(alloc, task)?),
    })?;
    for index in 1..task.entries {
        entries.push(Entry {
            log_id: LogId::new(leader(task, index), index),
            payload: payload(alloc, task, index)?,
        })?;
    }
    Ok(entries)
}

/// What each node of the group has stored.
pub fn stored(alloc: Global, task: &Task) -> Result<StoredGroup, AllocError> {
    let mut stored = StoredGroup::new(alloc);
    stored.make_group();
    let last = leader(task, task.entries.saturating_sub(1));
    stored.set_vote(Vote::new(last.term, 2));
    stored.put_entries(0, entries(alloc, task)?.as_slice())?;
    Ok(stored)
}

/// What a node knows of a vote and these entries, where they are a log from place 0 on.
pub fn known(
    alloc: Global,
    vote: Vote<u64>,
    log: &[GroupEntry],
) -> Result<Option<KnownState<u64, BasicNode>>, AllocError> {
    if !all_go_on(None, log) {
        return Ok(None);
    }
    let meta = SnapshotMeta::default(alloc);
    let known = KnownState::load(alloc, vote, None, meta, log)?;
    Ok(Some(known))
}

/// How many places are purged, one after the other, of what a node knows of its stored group.
pub fn purge_each(alloc: Global, task: &Task) -> Result<u64, AllocError> {
    let stored = stored(alloc, task)?;
    let Some(mut known) = known(alloc, stored.vote(), stored.log())? else {
        return Ok(0);
    };
    for place in 0..task.purges {
        let Some(log_id) = known.get_log_id(place) else {
            break;
        };
        if log_id.index >= u64::MAX - 1 {
            break;
        }
        known.purge(&log_id)?;
    }
    Ok(known.first_place())
}
