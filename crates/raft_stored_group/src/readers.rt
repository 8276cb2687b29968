//! What a stored group tells of itself.
ghost use Rattle.std.specs.Prelude.{◌≡◌, ◌<◌, ◌-◌, ◌^◌, IfOk, drop, take};
ghost use Rattle.std.specs.Option.{option_copied, option_map};
ghost use Rattle.raft_values.specs.LogId.{next_place};
ghost use Rattle.raft_group_step.specs.Initialize.{is_new};
ghost use Rattle.raft_group_step.specs.Opening.{is_joined_to};
ghost use Rattle.raft_group_step.specs.SnapshotTrigger.{snapshot_at};
ghost use Rattle.raft_group_step.specs.StoredGroup.{end_place, entry_at, first_place, has_id_in_log, held, id_of};
ghost use Rattle.raft_group_step.specs.StoredGroup.{last_id, membership_in_force, prefix_of, snapshot_last};
ghost use Rattle.raft_messages.specs.Memberships.{logged_or_none};

use crate::copies::push_up_to;
use crate::group_snapshot::GroupSnapshot;
use crate::places::{behind, is_purged, places_below, up_to};
use crate::stored_group::StoredGroup;
use raft_messages::{GroupEntry, LoggedPair, copy_of_pair, last_membership, push_copies};
use raft_state::{LogId, LogIdOptionExt, Vote};
use std::alloc::AllocError;

impl StoredGroup {
    /// Whether the node has the group (own).
    pub fn is_present(&self) -> bool
        ensures { result ≡ self.now.present }
    {
        self.present
    }

    /// The vote (own).
    pub fn vote(&self) -> Vote<u64>
        ensures { result ≡ self.now.vote }
    {
        self.vote
    }

    /// The snapshot, lent, if there is one (own).
    pub fn snapshot(&self) -> Option<&GroupSnapshot>
        ensures { option_copied result ≡ self.now.snapshot }
    {
        self.snapshot.as_ref()
    }

    /// The log id up to which the log is purged, if it is (own).
    pub fn purged(&self) -> Option<LogId<u64>>
        ensures { result ≡ self.now.purged }
    {
        self.purged
    }

    /// The entries above the purge point, lent (own).
    pub fn log(&self) -> &[GroupEntry]
        ensures { result.now ≡ self.now.log }
    {
        self.log.as_slice()
    }

    /// The place of the log's first entry, right behind the purge point (own).
    pub fn first_place(&self) -> u64
        requires { first_place self.now < 2 ^ 64 }
        ensures { result ≡ first_place self.now }
    {
        self.purged.next_index()
    }

    /// The place behind the log's last entry (own).
    pub fn end_place(&self) -> u64
        requires { end_place self.now < 2 ^ 64 }
        ensures { result ≡ end_place self.now }
    {
        self.first_place() + self.log.len() as u64
    }

    /// The entry of the log at the place, lent, if one stands there (own).
    pub fn entry_at(&self, place: u64) -> Option<&GroupEntry>
        ensures { option_copied result ≡ entry_at self.now place }
    {
        if is_purged(&self.purged, place) {
            return None;
        }
        self.log.get(places_below(&self.purged, place) as usize)
    }

    /// The log id of the log's last entry, or that of the purge point where the log is empty (own).
    pub fn last_id(&self) -> Option<LogId<u64>>
        ensures { result ≡ last_id self.now }
    {
        match self.log.last() {
            Some(entry) => Some(entry.log_id),
            None => self.purged,
        }
    }

    /// Whether the log has the entry of this log id (own).
    pub fn has_log_id(&self, id: &LogId<u64>) -> bool
        ensures { result ≡ has_id_in_log self.now id.now }
    {
        match self.entry_at(id.index) {
            Some(entry) => entry.log_id == *id,
            None => false,
        }
    }

    /// The last log id of the snapshot, if there is one (own).
    pub fn snapshot_last(&self) -> Option<LogId<u64>>
        ensures { result ≡ snapshot_last self.now }
    {
        match self.snapshot() {
            Some(snapshot) => Some(snapshot.last()),
            None => None,
        }
    }

    /// The last membership of the log, or else of the snapshot, lent, with the log id of its entry
    /// (own).
    pub fn membership_in_force(&self) -> Option<LoggedPair<'_>>
        ensures { logged_or_none result ≡ membership_in_force self.now }
    {
        let before = match self.snapshot() {
            Some(snapshot) => snapshot.logged_pair(),
            None => None,
        };
        last_membership(before, self.log.as_slice())
    }

    /// Whether the group has neither a vote nor entries nor a snapshot yet (own).
    pub fn is_new(&self) -> bool
        ensures { result ≡ is_new self.now }
    {
        self.vote == Vote::new(0, 0)
            && self.purged.is_none()
            && self.log.is_empty()
            && self.snapshot.is_none()
    }

    /// The entries of the log above the first log id, up to the second, lent (own). Where the first
    /// is below the purge point, they are as many of the log's first entries.
    pub fn between(&self, prev: Option<LogId<u64>>, last: Option<LogId<u64>>) -> &[GroupEntry]
        ensures { result.now ≡ take (next_place last - next_place prev) (drop (next_place prev - first_place self.now) self.now.log) }
    {
        let rest = behind(self.log.as_slice(), &self.purged, &prev);
        up_to(rest, &prev, &last)
    }

    /// Whether the log has the entry of this log id, or has purged its place (own).
    pub fn is_joined_to(&self, last: &LogId<u64>) -> bool
        ensures { result ≡ is_joined_to self.now last.now }
    {
        is_purged(&self.purged, last.index) || self.has_log_id(last)
    }

    // The entries of the snapshot, lent: none where there is no snapshot.
    fn snapshot_entries(&self) -> &[GroupEntry]
        ensures { result.now ≡ prefix_of self.now.snapshot }
    {
        match self.snapshot() {
            Some(snapshot) => snapshot.prefix(),
            None => &[],
        }
    }

    // The entries of the log from the place on, lent.
    fn log_from(&self, place: usize) -> &[GroupEntry]
        ensures { result.now ≡ drop (place - first_place self.now) self.now.log }
    {
        let below = places_below(&self.purged, place as u64) as usize;
        &self.log[below.min(self.log.len())..]
    }

    /// The list that the snapshot and the log have together (own). It is a copy, and fails for want
    /// of memory alone.
    pub fn held(&self) -> Result<Vec<GroupEntry>, AllocError>
        ensures { IfOk result (λ list. list.items ≡ held self.now) }
    {
        let start = self.snapshot_entries();
        let mut list = Vec::new(*self.log.allocator());
        push_copies(&mut list, start)?;
        push_copies(&mut list, self.log_from(start.len()))?;
        Ok(list)
    }

    // The snapshot of the list up to this log id.
    fn snapshot_up_to(&self, id: LogId<u64>) -> Result<GroupSnapshot, AllocError>
        ensures { IfOk result (λ snapshot. snapshot ≡ snapshot_at self.now id) }
    {
        let start = self.snapshot_entries();
        let mut entries = Vec::new(*self.log.allocator());
        push_up_to(&mut entries, start, id.index)?;
        push_up_to(&mut entries, self.log_from(start.len()), id.index)?;
        let membership = copy_of_pair(last_membership(None, entries.as_slice()))?;
        Ok(GroupSnapshot::new(id, membership, entries))
    }

    /// A snapshot of the list up to and with the log's entry at the place, if one stands there. It
    /// is a copy, and fails for want of memory alone (own).
    pub fn snapshot_at(&self, place: u64) -> Result<Option<GroupSnapshot>, AllocError>
        ensures { IfOk result (λ snapshot. snapshot ≡ option_map (snapshot_at self.now) (id_of (entry_at self.now place))) }
    {
        match self.entry_at(place) {
            Some(entry) => Ok(Some(self.snapshot_up_to(entry.log_id)?)),
            None => Ok(None),
        }
    }
}
