//! A snapshot of a group.
ghost use Rattle.std.specs.Prelude.{◌≡◌, IfOk};
ghost use Rattle.std.specs.Option.{option_copied};
ghost use Rattle.raft_messages.specs.Memberships.{logged_or_none, snapshot_of};

use raft_group_step::LoggedMembership;
use raft_messages::{GroupEntry, LoggedPair, SnapshotHead, copy_of_pair, lent_pair, push_copies};
use raft_state::{BasicNode, LogId};
use std::alloc::AllocError;
use std::marker::Model;

/// A snapshot (own): the list of entries up to and with the one of a log id, and the last membership
/// among them, with the log id of its entry.
#[derive(Drop)]
pub struct GroupSnapshot {
    last: LogId<u64>,
    membership: Option<LoggedMembership<u64, BasicNode>>,
    prefix: Vec<GroupEntry>,
}

impl Model for GroupSnapshot {
    ghost use Rattle.raft_group_step.specs.StoredGroup.{Snapshot};

    ghost Value = { Snapshot };

    ghost view = { λ x. record { last = x.last; membership = x.membership; «prefix» = x.prefix.items } };
}

impl GroupSnapshot {
    /// The snapshot with this last log id, this membership as its last, and these entries (own).
    pub fn new(
        last: LogId<u64>,
        membership: Option<LoggedMembership<u64, BasicNode>>,
        prefix: Vec<GroupEntry>,
    ) -> GroupSnapshot
        ensures { result ≡ record { last = last; membership = membership; «prefix» = «prefix».items } }
    {
        GroupSnapshot {
            last,
            membership,
            prefix,
        }
    }

    /// The log id of the last entry (own).
    pub fn last(&self) -> LogId<u64>
        ensures { result ≡ self.now.last }
    {
        self.last
    }

    /// The last membership among the entries, with its log id, if there is one (own).
    pub fn membership(&self) -> Option<&LoggedMembership<u64, BasicNode>>
        ensures { option_copied result ≡ self.now.membership }
    {
        self.membership.as_ref()
    }

    /// That membership as a pair with its log id, lent (own).
    pub fn logged_pair(&self) -> Option<LoggedPair<'_>>
        ensures { logged_or_none result ≡ self.now.membership }
    {
        lent_pair(&self.membership)
    }

    /// What the snapshot covers, lent (own).
    pub fn head(&self) -> SnapshotHead<'_>
        ensures { snapshot_of result self.now.«prefix» ≡ self.now }
    {
        SnapshotHead {
            last: self.last,
            membership: self.logged_pair(),
        }
    }

    /// The entries, lent (own).
    pub fn prefix(&self) -> &[GroupEntry]
        ensures { result.now ≡ self.now.«prefix» }
    {
        self.prefix.as_slice()
    }
}

impl Clone for GroupSnapshot {
    ghost is_clone = { λ x y. y ≡ x };

    fn clone(&self) -> Result<GroupSnapshot, AllocError> {
        let mut prefix = Vec::new(*self.prefix.allocator());
        push_copies(&mut prefix, self.prefix.as_slice())?;
        Ok(GroupSnapshot {
            last: self.last,
            membership: copy_of_pair(self.logged_pair())?,
            prefix,
        })
    }
}
