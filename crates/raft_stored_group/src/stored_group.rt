//! What a node keeps of a group, and what changes it.
ghost use Rattle.std.specs.Prelude.{◌≡◌, ◌+◌, ◌≤◌, max, vec_len, vec_capacity, OnOk, OnErr};
ghost use Rattle.raft_group_step.specs.GroupState.{no_group};
ghost use Rattle.raft_group_step.specs.StoredGroup.{after_storing, CutFrom, MakeGroup, PutEntries, RemoveUpTo, SetSnapshot, SetVote, StartAfter};

use crate::group_snapshot::GroupSnapshot;
use crate::places::{count_up_to, places_below};
use raft_messages::{GroupEntry, push_copies};
use raft_state::{LogId, Vote};
use std::alloc::{AllocError, Global};
use std::marker::Model;

/// What a node keeps of a group (own): whether it has the group, the vote, the snapshot, the log id
/// up to which the log is purged, and the entries above it.
#[derive(Drop)]
pub struct StoredGroup {
    pub(crate) present: bool,
    pub(crate) vote: Vote<u64>,
    pub(crate) snapshot: Option<GroupSnapshot>,
    pub(crate) purged: Option<LogId<u64>>,
    pub(crate) log: Vec<GroupEntry>,
}

impl Model for StoredGroup {
    ghost use Rattle.raft_group_step.specs.StoredGroup.{StoredGroup as Stored};

    ghost Value = { Stored };

    ghost view = { λ s. record { present = s.present; vote = s.vote; snapshot = s.snapshot; purged = s.purged; log = s.log.items } };
}

// Makes room for so many more entries, and at most for as many again as there are.
fn make_room(log: &mut Vec<GroupEntry>, more: usize) -> Result<(), AllocError>
    ensures items { log.new.items ≡ log.old.items }
    ensures room { OnOk result (vec_len log.new + more ≤ vec_capacity log.new) }
    ensures within { vec_capacity log.new ≤ max (vec_capacity log.old) (vec_len log.old + max (vec_len log.old) more) }
{
    if more <= log.capacity() - log.len() {
        return Ok(());
    }
    log.reserve_exact(more.max(log.len()))
}

impl StoredGroup {
    /// Nothing of a group. Takes no memory (own).
    pub fn new(alloc: Global) -> StoredGroup
        ensures { result ≡ no_group }
    {
        StoredGroup {
            present: false,
            vote: Vote::new(0, 0),
            snapshot: None,
            purged: None,
            log: Vec::new(alloc),
        }
    }

    /// The node has the group from now on (own).
    pub fn make_group(&mut self)
        ensures { self.new ≡ after_storing MakeGroup self.old }
    {
        self.present = true;
    }

    /// The vote takes the place of the one before (own).
    pub fn set_vote(&mut self, vote: Vote<u64>)
        ensures { self.new ≡ after_storing (SetVote vote) self.old }
    {
        self.vote = vote;
    }

    /// The entries stand from the place on, and whatever stood there before is gone. They are
    /// copied. Without memory the group stays as it was (own).
    pub fn put_entries(&mut self, place: u64, entries: &[GroupEntry]) -> Result<(), AllocError>
        ensures ok { OnOk result (self.new ≡ after_storing (PutEntries place entries.now) self.old) }
        ensures err { OnErr result (self.new ≡ self.old) }
    {
        let mut copies = Vec::new(*self.log.allocator());
        push_copies(&mut copies, entries)?;
        make_room(&mut self.log, copies.len())?;
        let kept = places_below(&self.purged, place) as usize;
        self.log.truncate(kept);
        self.log.append(&mut copies).unwrap();
        Ok(())
    }

    /// The log ends below the place (own).
    pub fn cut_from(&mut self, place: u64)
        ensures { self.new ≡ after_storing (CutFrom place) self.old }
    {
        let below = places_below(&self.purged, place) as usize;
        self.log.truncate(below);
    }

    /// The log is purged up to and with the log id's place (own).
    pub fn remove_up_to(&mut self, id: LogId<u64>)
        ensures { self.new ≡ after_storing (RemoveUpTo id) self.old }
    {
        let upto = Some(id);
        let gone = count_up_to(self.log.as_slice(), &self.purged, &upto);
        self.log.rotate_left(gone);
        let left = self.log.len() - gone;
        self.log.truncate(left);
        self.purged = upto;
    }

    /// The snapshot takes the place of the one before (own).
    pub fn set_snapshot(&mut self, snapshot: GroupSnapshot)
        ensures { self.new ≡ after_storing (SetSnapshot snapshot) self.old }
    {
        self.snapshot = Some(snapshot);
    }

    /// The log is empty, and goes on right behind the log id (own).
    pub fn start_after(&mut self, id: LogId<u64>)
        ensures { self.new ≡ after_storing (StartAfter id) self.old }
    {
        self.purged = Some(id);
        self.log.clear();
    }
}

impl Clone for StoredGroup {
    ghost is_clone = { λ x y. y ≡ x };

    fn clone(&self) -> Result<StoredGroup, AllocError> {
        let mut log = Vec::new(*self.log.allocator());
        push_copies(&mut log, self.log.as_slice())?;
        Ok(StoredGroup {
            present: self.present,
            vote: self.vote,
            snapshot: self.snapshot.clone()?,
            purged: self.purged,
            log,
        })
    }
}
