//! What a quorum has accepted.
ghost use Rattle.std.specs.Prelude.{◌≡◌};
ghost use Rattle.raft_group_lists.specs.Notes.{has_reached, is_now_reached, passes, reaches};

use crate::notes::Reached;
use raft_quorums::has_id::HasId;
use raft_quorums::joint::all_accept;
use raft_quorums::voter_groups::VoterGroups;
use raft_state::{BasicNode, Bytes, Entry, LeaderId};

// Whether a node that has accepted so far has accepted this place.
fn reaches(reached: Option<u64>, place: u64) -> bool
    ensures { result ≡ reaches reached place }
{
    match reached {
        Some(last) => place <= last,
        None => false,
    }
}

// Whether the node has accepted the place.
fn has_reached(reached: &[Reached], place: u64, node: u64) -> bool
    ensures { result ≡ has_reached reached.now place node }
{
    reached
        .iter()
        .any(|one| one.node == node && reaches(one.place, place))
}

// What is settled once a node has accepted up to a place: the voters, the leader, who accepted what
// before, and that node.
#[derive(Drop)]
pub(crate) struct Judge<'a> {
    pub(crate) voters: &'a VoterGroups<u64>,
    pub(crate) leader: LeaderId<u64>,
    pub(crate) reached: &'a [Reached],
    pub(crate) node: u64,
    pub(crate) place: Option<u64>,
}

// Who has accepted the place then.
#[derive(Drop)]
struct Acceptors<'a> {
    reached: &'a [Reached],
    node: u64,
    last: Option<u64>,
    place: u64,
}

impl<'a> HasId<u64> for Acceptors<'a> {
    ghost has = { λ a. is_now_reached a.reached.now a.node a.last a.place };

    fn has_id(&self, id: &u64) -> bool {
        has_reached(self.reached, self.place, *id)
            || (self.node == *id && reaches(self.last, self.place))
    }
}

impl<'a> Judge<'a> {
    // Whether the entry is the leader's own, and a quorum has accepted it.
    pub(crate) fn passes(&self, entry: &Entry<u64, BasicNode, Bytes>) -> bool
        ensures { result ≡ passes self.now.voters.now self.now.leader self.now.reached.now self.now.node self.now.place entry.now }
    {
        let acceptors = Acceptors {
            reached: self.reached,
            node: self.node,
            last: self.place,
            place: entry.log_id.index,
        };
        entry.log_id.leader_id == self.leader && all_accept(self.voters.as_slice(), &acceptors)
    }
}
