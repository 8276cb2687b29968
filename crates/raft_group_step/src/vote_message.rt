//! A candidate's request for a vote, and the answer.
ghost use Rattle.std.specs.Prelude.{◌≡◌, ◌↔◌, true, IsTrue};

use crate::shown::Shown;
use raft_state::{LogId, NodeId, Vote};
use std::fmt::{self, Display};

/// A candidate asks for a vote (openraft).
#[derive(Clone, Copy, PartialEq, Eq)]
pub struct VoteRequest<NID: NodeId> {
    /// The vote that is asked for.
    pub vote: Vote<NID>,
    /// The last log id of the candidate, if it has an entry.
    pub last_log_id: Option<LogId<NID>>,
}

impl<NID: NodeId> VoteRequest<NID> {
    /// The request for this vote, by a candidate with this last log id.
    pub fn new(vote: Vote<NID>, last_log_id: Option<LogId<NID>>) -> VoteRequest<NID>
        ensures { result ≡ record { vote = vote; last_log_id = last_log_id } }
    {
        VoteRequest { vote, last_log_id }
    }
}

impl<NID: NodeId> Display for VoteRequest<NID> {
    fn fmt<W: fmt::Write>(&self, f: &mut fmt::Formatter<W>) -> fmt::Result {
        let vote = &self.vote;
        let last = Shown(self.last_log_id);
        write!(f, "{{vote:{vote}, last_log:{last}}}")
    }
}

/// A node answers a candidate (openraft).
#[derive(Clone, Copy, PartialEq, Eq)]
pub struct VoteResponse<NID: NodeId> {
    /// The vote that the node has then.
    pub vote: Vote<NID>,
    /// Whether the node granted the vote that was asked for.
    pub vote_granted: bool,
    /// The last log id of the node, if it has an entry.
    pub last_log_id: Option<LogId<NID>>,
}

impl<NID: NodeId> VoteResponse<NID> {
    /// The answer of a node with this vote and this last log id.
    pub fn new(
        vote: &Vote<NID>,
        last_log_id: Option<LogId<NID>>,
        granted: bool,
    ) -> VoteResponse<NID>
        ensures { result ≡ record { vote = vote.now; vote_granted = granted; last_log_id = last_log_id } }
    {
        VoteResponse {
            vote: *vote,
            vote_granted: granted,
            last_log_id,
        }
    }

    /// Whether the answer grants just this vote.
    pub fn is_granted_to(&self, candidate_vote: &Vote<NID>) -> bool
        ensures { IsTrue result ↔ ((self.now.vote_granted ≡ true) × (self.now.vote ≡ candidate_vote.now)) }
    {
        self.vote_granted && self.vote == *candidate_vote
    }
}

impl<NID: NodeId> Display for VoteResponse<NID> {
    fn fmt<W: fmt::Write>(&self, f: &mut fmt::Formatter<W>) -> fmt::Result {
        let vote = &self.vote;
        let granted = self.vote_granted;
        let last = Shown(self.last_log_id);
        write!(f, "{{{vote}, granted:{granted}, last_log:{last}}}")
    }
}
