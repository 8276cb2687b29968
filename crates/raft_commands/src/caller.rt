//! Who waits for an answer.
ghost use Rattle.std.specs.Prelude.{◌≡◌, None};
ghost use Rattle.raft_group_step.specs.declared.request_id.RequestId.TheVariants.{HeartBeat};

use raft_group_step::RequestId;
use raft_state::{LogId, NodeId, Vote};

/// Who waits for an answer, and what the answer repeats of the request (own). It stands where
/// openraft has one end of a channel.
#[derive(Clone, Copy, PartialEq, Eq)]
pub struct Caller<NID: NodeId> {
    /// The node that sent the request; the own id for a call of this node.
    pub peer: NID,
    /// The vote in the request.
    pub vote: Vote<NID>,
    /// Which of the peer's requests it was.
    pub id: RequestId,
    /// The log id before the entries of the request, if there is one.
    pub previous: Option<LogId<NID>>,
    /// The last log id of the request, if there is one.
    pub last: Option<LogId<NID>>,
}

impl<NID: NodeId> Caller<NID> {
    /// Who sent a request without entries and without a number: a vote request, or a call.
    pub fn new(peer: NID, vote: Vote<NID>) -> Caller<NID>
        ensures { result ≡ record { peer = peer; vote = vote; id = HeartBeat; previous = None; last = None } }
    {
        Caller {
            peer,
            vote,
            id: RequestId::HeartBeat,
            previous: None,
            last: None,
        }
    }
}
