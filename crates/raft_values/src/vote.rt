//! Votes, and the leaders that they are for.
ghost use Rattle.std.specs.Prelude.{◌≡◌, true, false};
ghost use Rattle.raft_values.specs.Vote.{leader_cmp, vote_cmp};

use crate::node::NodeId;
use std::cmp::Ordering;
use std::fmt::{self, Display};

/// Who leads: a term, and the node that was voted for in it (openraft).
#[derive(Clone, Copy, Debug, Default, PartialEq, Eq, PartialOrd, Ord)]
pub struct LeaderId<NID> {
    pub term: u64,
    pub node_id: NID,
}

/// A leader that a quorum has granted; here it is told by the whole leader id (openraft).
pub type CommittedLeaderId<NID> = LeaderId<NID>;

impl<NID: NodeId> LeaderId<NID> {
    /// The leader of this term at this node.
    pub fn new(term: u64, node_id: NID) -> LeaderId<NID>
        ensures term { result.term ≡ term }
        ensures node { result.node_id ≡ node_id }
    {
        LeaderId { term, node_id }
    }

    /// The term.
    pub fn get_term(&self) -> u64
        ensures { result ≡ self.now.term }
    {
        self.term
    }

    /// The node that was voted for.
    pub fn voted_for(&self) -> Option<NID>
        ensures { result ≡ Some self.now.node_id }
    {
        Some(self.node_id)
    }
}

impl<NID: NodeId> Display for LeaderId<NID> {
    fn fmt<W: fmt::Write>(&self, f: &mut fmt::Formatter<W>) -> fmt::Result {
        let term = self.get_term();
        let node_id = self.node_id;
        write!(f, "T{term}-N{node_id}")
    }
}

/// A vote for a leader, and whether a quorum has granted it (openraft).
/// Votes are in the order of their leaders, and the one not yet granted comes first.
#[derive(Clone, Copy, Debug, Default, PartialEq, Eq, PartialOrd, Ord)]
pub struct Vote<NID> {
    pub leader_id: LeaderId<NID>,
    pub committed: bool,
}

impl<NID: NodeId> Vote<NID> {
    /// The vote for this node in this term, not yet granted.
    pub fn new(term: u64, node_id: NID) -> Vote<NID>
        ensures { result ≡ record { leader_id = record { term = term; node_id = node_id }; committed = false } }
    {
        Vote {
            leader_id: LeaderId::new(term, node_id),
            committed: false,
        }
    }

    /// The vote for this node in this term, granted.
    pub fn new_committed(term: u64, node_id: NID) -> Vote<NID>
        ensures { result ≡ record { leader_id = record { term = term; node_id = node_id }; committed = true } }
    {
        Vote {
            leader_id: LeaderId::new(term, node_id),
            committed: true,
        }
    }

    /// Notes that a quorum has granted the vote.
    pub fn commit(&mut self)
        ensures { self.new ≡ record self.old { committed = true } }
    {
        self.committed = true;
    }

    /// Whether a quorum has granted the vote.
    pub fn is_committed(&self) -> bool
        ensures { result ≡ self.now.committed }
    {
        self.committed
    }

    /// The leader that the vote is for.
    pub fn leader_id(&self) -> &LeaderId<NID>
        ensures { result.now ≡ self.now.leader_id }
    {
        &self.leader_id
    }
}

impl<NID: NodeId> Display for Vote<NID> {
    fn fmt<W: fmt::Write>(&self, f: &mut fmt::Formatter<W>) -> fmt::Result {
        let leader_id = &self.leader_id;
        let state = if self.committed {
            "committed"
        } else {
            "uncommitted"
        };
        write!(f, "<{leader_id}:{state}>")
    }
}

/// Leader ids are ordered by term, then by node.
pub fn leader_ids_by_term_and_node<NID: NodeId>(a: &LeaderId<NID>, b: &LeaderId<NID>) -> Ordering
    ensures order { ⟦<LeaderId<NID> as Ord>⟧.cmp a.now b.now ≡ leader_cmp NID.cmp a.now b.now }
    ensures value { result ≡ leader_cmp NID.cmp a.now b.now }
{
    a.cmp(b)
}

/// Votes are ordered by term, then by node, then committed last.
pub fn votes_by_term_node_committed<NID: NodeId>(vote: &Vote<NID>, other: &Vote<NID>) -> Ordering
    ensures order { ⟦<Vote<NID> as Ord>⟧.cmp vote.now other.now ≡ vote_cmp NID.cmp vote.now other.now }
    ensures value { result ≡ vote_cmp NID.cmp vote.now other.now }
{
    vote.cmp(other)
}
