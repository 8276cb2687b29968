//! Memberships that are lent with the log ids of their entries, and what snapshots are.
ghost use Rattle.std.specs.Prelude.{◌≡◌, IfOk};
ghost use Rattle.raft_group_step.specs.Values.{last_membership, membership_after};
ghost use Rattle.raft_messages.specs.Memberships.{in_force, logged_or_none};

use crate::entries::GroupEntry;
use raft_group_step::{LoggedMembership, SnapshotMeta};
use raft_state::{BasicNode, Bytes, EffectiveMembership, EntryPayload, LogId, Membership};
use std::alloc::AllocError;

/// A lent membership, with the log id of the entry that has it (own).
pub type LoggedPair<'a> = (LogId<u64>, &'a Membership<u64, BasicNode>);

/// What a snapshot covers, lent (own).
#[derive(Clone, Copy)]
pub struct SnapshotHead<'a> {
    /// The log id of the last entry.
    pub last: LogId<u64>,
    /// The last membership among the entries, if there is one.
    pub membership: Option<LoggedPair<'a>>,
}

/// A snapshot as it is sent and stored: what it covers, and the machine's state as bytes (own).
#[derive(Drop)]
pub struct SnapshotBytes {
    /// The log id of the last entry, and the last membership among the entries.
    pub meta: SnapshotMeta<u64, BasicNode>,
    /// The machine's state behind the last entry.
    pub bytes: Bytes,
}

/// A membership and the log id of its entry, lent together (own).
pub fn lent_pair(logged: &Option<LoggedMembership<u64, BasicNode>>) -> Option<LoggedPair<'_>>
    ensures { logged_or_none result ≡ logged.now }
{
    match logged {
        Some(logged) => Some((logged.log_id, &logged.membership)),
        None => None,
    }
}

/// A membership that an engine has in force, lent with the log id of its entry, if an entry has it
/// (own).
pub fn pair_in_force(effective: &EffectiveMembership<u64, BasicNode>) -> Option<LoggedPair<'_>>
    ensures { logged_or_none result ≡ in_force effective.now }
{
    match effective.log_id() {
        Some(log_id) => Some((*log_id, effective.membership())),
        None => None,
    }
}

/// What a snapshot covers, lent as its head (own).
pub fn head_of(meta: &SnapshotMeta<u64, BasicNode>) -> SnapshotHead<'_>
    ensures last { result.last ≡ meta.now.last_log_id }
    ensures membership { logged_or_none result.membership ≡ meta.now.last_membership }
{
    SnapshotHead {
        last: meta.last_log_id,
        membership: lent_pair(&meta.last_membership),
    }
}

/// The membership of the entry, or else the one before (own).
pub fn membership_after<'a>(
    before: Option<LoggedPair<'a>>,
    entry: &'a GroupEntry,
) -> Option<LoggedPair<'a>>
    ensures { logged_or_none result ≡ membership_after (logged_or_none before.entry) entry.now.log_id entry.now.payload }
{
    match &entry.payload {
        EntryPayload::Membership(membership) => Some((entry.log_id, membership)),
        _ => before,
    }
}

/// The last membership of the entries, or else the one before them (own).
pub fn last_membership<'a>(
    before: Option<LoggedPair<'a>>,
    entries: &'a [GroupEntry],
) -> Option<LoggedPair<'a>>
    ensures { logged_or_none result ≡ last_membership (logged_or_none before.entry) entries.now }
{
    let mut last = before;
    for entry in entries {
        last = membership_after(last, entry);
    }
    last
}

/// A copy of a membership that is lent, with its log id (own). It fails for want of memory alone.
pub fn copy_of_pair(
    pair: Option<LoggedPair>,
) -> Result<Option<LoggedMembership<u64, BasicNode>>, AllocError>
    ensures { IfOk result (λ copy. copy ≡ logged_or_none pair.entry) }
{
    match pair {
        None => Ok(None),
        Some((log_id, membership)) => Ok(Some(LoggedMembership {
            log_id,
            membership: membership.clone()?,
        })),
    }
}
