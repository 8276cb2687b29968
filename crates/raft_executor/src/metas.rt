//! What snapshots cover, as an engine is told of it.
ghost use Rattle.std.specs.Prelude.{◌≡◌, IfOk, Some};
ghost use Rattle.raft_group_step.specs.StoredGroup.{Snapshot};
ghost use Rattle.raft_messages.specs.Memberships.{logged_or_none, snapshot_of};
ghost use Rattle.raft_known_state.specs.KnownState.{last_membership_of, meta_of};

use raft_messages::{LoggedPair, SnapshotHead};
use raft_state::{BasicNode, SnapshotMeta, StoredMembership};
use raft_stored_group::StoredGroup;
use std::alloc::{AllocError, Global};

// A copy of the membership, or the one without voter groups, nodes and log id.
fn stored_membership(
    alloc: Global,
    pair: Option<LoggedPair>,
) -> Result<StoredMembership<u64, BasicNode>, AllocError>
    ensures { IfOk result (λ m. m ≡ last_membership_of (logged_or_none pair.entry)) }
{
    match pair {
        None => Ok(StoredMembership::default(alloc)),
        Some((log_id, membership)) => {
            Ok(StoredMembership::new(Some(log_id), membership.clone()?))
        }
    }
}

/// What a snapshot with this head covers, as an engine is told of it (own). It is a copy, and fails
/// for want of memory alone.
pub fn meta_of(
    alloc: Global,
    head: SnapshotHead,
) -> Result<SnapshotMeta<u64, BasicNode>, AllocError>
    ensures { (x : Snapshot) → snapshot_of head.entry x.«prefix» ≡ x → IfOk result (λ meta. meta ≡ meta_of (Some x)) }
{
    Ok(SnapshotMeta {
        last_log_id: Some(head.last),
        last_membership: stored_membership(alloc, head.membership)?,
    })
}

/// What the stored snapshot covers; nothing where there is none (own). It is a copy, and fails for
/// want of memory alone.
pub fn stored_meta(
    alloc: Global,
    stored: &StoredGroup,
) -> Result<SnapshotMeta<u64, BasicNode>, AllocError>
    ensures { IfOk result (λ meta. meta ≡ meta_of stored.now.snapshot) }
{
    match stored.snapshot() {
        Some(snapshot) => meta_of(alloc, snapshot.head()),
        None => Ok(SnapshotMeta::default(alloc)),
    }
}
