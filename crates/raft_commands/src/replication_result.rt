//! What came of a request to a peer.
ghost use Rattle.std.specs.Prelude.{◌≡◌};

use crate::shown::Shown;
use raft_state::{LogId, NodeId};
use std::fmt::{self, Display};

/// What came of a request to a peer (openraft; moments are ticks).
#[derive(Clone, Copy, PartialEq, Eq)]
pub struct ReplicationResult<NID: NodeId> {
    /// The moment when the request was sent.
    pub sending_time: u64,
    /// The last log id that the peer has accepted, if there is one, or the one that it lacks.
    pub result: Result<Option<LogId<NID>>, LogId<NID>>,
}

impl<NID: NodeId> ReplicationResult<NID> {
    /// What came of the request that was sent at this moment.
    pub fn new(
        sending_time: u64,
        outcome: Result<Option<LogId<NID>>, LogId<NID>>,
    ) -> ReplicationResult<NID>
        ensures { result ≡ record { sending_time = sending_time; result = outcome } }
    {
        ReplicationResult {
            sending_time,
            result: outcome,
        }
    }
}

impl<NID: NodeId> Display for ReplicationResult<NID> {
    fn fmt<W: fmt::Write>(&self, f: &mut fmt::Formatter<W>) -> fmt::Result {
        let sent = self.sending_time;
        match &self.result {
            Ok(matching) => {
                let matching = Shown(*matching);
                write!(f, "{{sending_time:{sent}, result:Match:{matching}}}")
            }
            Err(conflict) => write!(f, "{{sending_time:{sent}, result:Conflict:{conflict}}}"),
        }
    }
}
