//! What a snapshot holds.
ghost use Rattle.std.specs.Prelude.{◌≡◌, None, [], IfOk};

use crate::stored_membership::StoredMembership;
use raft_values::log_id::LogId;
use raft_values::node::{Node, NodeId};
use std::alloc::{AllocError, Global};

/// What a snapshot holds (openraft; here a group has one snapshot at a node, so its last log id
/// tells it from the one before, and there is no id beside that).
#[derive(Drop, PartialEq, Eq)]
pub struct SnapshotMeta<NID: NodeId, N: Node> {
    /// The last log id that it has taken in; none of an empty machine.
    pub last_log_id: Option<LogId<NID>>,
    /// The last membership among the log ids up to there.
    pub last_membership: StoredMembership<NID, N>,
}

impl<NID: NodeId, N: Node> SnapshotMeta<NID, N> {
    /// No snapshot.
    pub fn default(alloc: Global) -> SnapshotMeta<NID, N>
        ensures { result ≡ record { last_log_id = None; last_membership = record { log_id = None; membership = record { configs = []; nodes = [] } } } }
    {
        SnapshotMeta {
            last_log_id: None,
            last_membership: StoredMembership::default(alloc),
        }
    }
}

impl<NID: NodeId, N: Node> Clone for SnapshotMeta<NID, N> {
    ghost is_clone = { λ x y. y ≡ x };

    fn clone(&self) -> Result<SnapshotMeta<NID, N>, AllocError> {
        Ok(SnapshotMeta {
            last_log_id: self.last_log_id,
            last_membership: self.last_membership.clone()?,
        })
    }
}
