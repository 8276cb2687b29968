//! What the senders of requests tell the engine's runtime.
use crate::replication_result::ReplicationResult;
use crate::session_id::ReplicationSessionId;
use crate::shown::Shown;
use crate::type_config::RaftTypeConfig;
use raft_group_step::RequestId;
use raft_state::{MessageSummary, Vote};
use std::alloc::{AllocError, Global};

/// What the senders of requests tell the engine's runtime (openraft, without errors of the
/// storage: those are the runtime's own).
#[derive(Drop)]
pub enum Response<C: RaftTypeConfig> {
    /// A peer has answered, or the request failed.
    Progress {
        /// The peer.
        target: C::NodeId,
        /// The request.
        request_id: RequestId,
        /// What came of it, or none where it is lost.
        result: Option<ReplicationResult<C::NodeId>>,
        /// For which lead and which membership it was sent.
        session_id: ReplicationSessionId<C::NodeId>,
    },
    /// A peer has a greater vote.
    HigherVote {
        /// The peer.
        target: C::NodeId,
        /// The peer's vote.
        higher: Vote<C::NodeId>,
        /// The vote of the request.
        vote: Vote<C::NodeId>,
    },
}

impl<C: RaftTypeConfig> MessageSummary<Response<C>> for Response<C> {
    fn summary(&self, alloc: Global) -> Result<String, AllocError> {
        match self {
            Response::Progress {
                target,
                request_id,
                result,
                session_id,
            } => {
                let result = Shown(*result);
                format!(in alloc;
                    "UpdateReplicationProgress: target: {target}, request_id: {request_id}, result: {result}, session_id: {session_id}"
                )
            }
            Response::HigherVote {
                target,
                higher,
                vote,
            } => format!(in alloc;
                "Seen a higher vote: target: {target}, vote: {higher}, server_state_vote: {vote}"
            ),
        }
    }
}
