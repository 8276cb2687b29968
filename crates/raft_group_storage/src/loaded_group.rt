//! What a node is opened with.
ghost use Rattle.std.specs.Prelude.{IfOk};
ghost use Rattle.std.specs.Option.{option_copied};
ghost use Rattle.raft_group_storage.specs.Loaded.{IsHead, IsLoaded};

use raft_group_step::SnapshotMeta;
use raft_messages::{GroupEntry, copy_of_pair, push_copies};
use raft_state::{BasicNode, LogId, Vote};
use raft_stored_group::{GroupSnapshot, StoredGroup};
use std::alloc::{AllocError, Global};

/// What is stored of a group, but for what its snapshot has (own).
#[derive(Drop)]
pub struct LoadedGroup {
    /// Whether the node has the group.
    pub present: bool,
    /// The vote.
    pub vote: Vote<u64>,
    /// What the snapshot covers, if there is one.
    pub snapshot: Option<SnapshotMeta<u64, BasicNode>>,
    /// The log id up to which the log is purged, if it is.
    pub purged: Option<LogId<u64>>,
    /// The entries above the purge point.
    pub log: Vec<GroupEntry>,
}

// What the snapshot covers, if there is one.
fn head_of(
    snapshot: Option<&GroupSnapshot>,
) -> Result<Option<SnapshotMeta<u64, BasicNode>>, AllocError>
    ensures { IfOk result (λ head. IsHead head (option_copied snapshot.entry)) }
{
    match snapshot {
        Some(snapshot) => Ok(Some(SnapshotMeta {
            last_log_id: snapshot.last(),
            last_membership: copy_of_pair(snapshot.logged_pair())?,
        })),
        None => Ok(None),
    }
}

/// A copy of what is stored, but for what the snapshot has (own). It fails for want of memory
/// alone.
pub fn loaded(alloc: Global, stored: &StoredGroup) -> Result<LoadedGroup, AllocError>
    ensures { IfOk result (λ loaded. IsLoaded loaded stored.now) }
{
    let mut log = Vec::new(alloc);
    push_copies(&mut log, stored.log())?;
    Ok(LoadedGroup {
        present: stored.is_present(),
        vote: stored.vote(),
        snapshot: head_of(stored.snapshot())?,
        purged: stored.purged(),
        log,
    })
}
