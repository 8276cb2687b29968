//! What a leader's requests are sent for.
ghost use Rattle.std.specs.Prelude.{◌≡◌};

use crate::shown::Shown;
use raft_state::{LogId, NodeId, Vote};
use std::fmt::{self, Display};

/// For which lead and which membership requests are sent: an answer to others' requests isn't
/// counted (openraft).
#[derive(Clone, Copy, PartialEq, Eq)]
pub struct ReplicationSessionId<NID: NodeId> {
    /// The leader's vote.
    pub vote: Vote<NID>,
    /// The log id of the membership, if it has one.
    pub membership_log_id: Option<LogId<NID>>,
}

impl<NID: NodeId> ReplicationSessionId<NID> {
    /// For this lead and this membership.
    pub fn new(vote: Vote<NID>, membership_log_id: Option<LogId<NID>>) -> ReplicationSessionId<NID>
        ensures { result ≡ record { vote = vote; membership_log_id = membership_log_id } }
    {
        ReplicationSessionId {
            vote,
            membership_log_id,
        }
    }

    /// The leader's vote, lent.
    pub fn vote_ref(&self) -> &Vote<NID>
        ensures { result.now ≡ self.now.vote }
    {
        &self.vote
    }
}

impl<NID: NodeId> Display for ReplicationSessionId<NID> {
    fn fmt<W: fmt::Write>(&self, f: &mut fmt::Formatter<W>) -> fmt::Result {
        let vote = &self.vote;
        let membership = Shown(self.membership_log_id);
        write!(f, "(leader_vote:{vote}, membership_log_id:{membership})")
    }
}
