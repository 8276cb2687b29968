//! Reading the vote of a state.
ghost use Rattle.std.specs.Prelude.{◌≡◌};
ghost use Rattle.raft_values.specs.declared.vote.Vote.{Vote as Ballot};

use crate::node::NodeId;
use crate::vote::Vote;

/// What has a vote (openraft).
pub trait VoteStateReader<NID: NodeId> {
    // Its vote.
    ghost vote_of: { Self → Ballot NID };

    /// Its vote.
    fn vote_ref(&self) -> &Vote<NID>
        ensures { result.now ≡ vote_of self.now };
}
