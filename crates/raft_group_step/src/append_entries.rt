//! A leader's request to append entries, and the answer.
ghost use Rattle.std.specs.Prelude.{◌≡◌, ◌↔◌, IsTrue};
ghost use Rattle.raft_group_step.specs.declared.append_entries.AppendEntriesResponse.TheVariants.{Success, Conflict};

use crate::entries::Entries;
use crate::shown::Shown;
use raft_state::{LogId, Node, NodeId, Vote};
use std::fmt::{self, Display};

/// A leader sends entries, or says what is committed (openraft).
#[derive(Drop)]
pub struct AppendEntriesRequest<NID: NodeId, N: Node, D> {
    /// The leader's vote.
    pub vote: Vote<NID>,
    /// The log id before the entries, if there is one.
    pub prev_log_id: Option<LogId<NID>>,
    /// The entries that follow it.
    pub entries: Entries<NID, N, D>,
    /// The last log id that the leader has committed, if there is one.
    pub leader_commit: Option<LogId<NID>>,
}

impl<NID: NodeId, N: Node, D> Display for AppendEntriesRequest<NID, N, D> {
    fn fmt<W: fmt::Write>(&self, f: &mut fmt::Formatter<W>) -> fmt::Result {
        let vote = &self.vote;
        let previous = Shown(self.prev_log_id);
        let committed = Shown(self.leader_commit);
        let count = self.entries.len();
        write!(
            f,
            "vote={vote}, prev_log_id={previous}, leader_commit={committed}, entries={count}"
        )
    }
}

/// What came of an append request (openraft). The frame of an answer repeats the request.
#[derive(Clone, Copy, PartialEq, Eq)]
pub enum AppendEntriesResponse<NID: NodeId> {
    /// All entries of the request are in the log.
    Success,
    /// The log has the request's entries up to this log id. It is read, and never sent.
    PartialSuccess(Option<LogId<NID>>),
    /// The log doesn't have the entry before the request's.
    Conflict,
    /// The node has this vote, which is greater than the request's.
    HigherVote(Vote<NID>),
}

impl<NID: NodeId> AppendEntriesResponse<NID> {
    /// Whether all entries of the request are in the log.
    pub fn is_success(&self) -> bool
        ensures { IsTrue result ↔ (self.now ≡ Success) }
    {
        matches!(self, AppendEntriesResponse::Success)
    }

    /// Whether the log lacks the entry before the request's.
    pub fn is_conflict(&self) -> bool
        ensures { IsTrue result ↔ (self.now ≡ Conflict) }
    {
        matches!(self, AppendEntriesResponse::Conflict)
    }
}

impl<NID: NodeId> Display for AppendEntriesResponse<NID> {
    fn fmt<W: fmt::Write>(&self, f: &mut fmt::Formatter<W>) -> fmt::Result {
        match self {
            AppendEntriesResponse::Success => write!(f, "Success"),
            AppendEntriesResponse::PartialSuccess(last) => {
                let last = Shown(*last);
                write!(f, "PartialSuccess({last})")
            }
            AppendEntriesResponse::Conflict => write!(f, "Conflict"),
            AppendEntriesResponse::HigherVote(vote) => write!(f, "Higher vote, {vote}"),
        }
    }
}
