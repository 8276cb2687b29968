//! When a leader has heard of its peers, and of a quorum of them.
ghost use Rattle.std.specs.Prelude.{◌≡◌, ℕ, nat_eq, None, Some};
ghost use Rattle.raft_group_step.specs.GroupState.{GroupState};
ghost use Rattle.raft_leaders.specs.Leader.{LeaderValue};
ghost use Rattle.raft_engine.specs.Clock.{HearsAfter, IsHeardOf, IsQuorumHeardAt, is_taken, moment_shown, shows_following};
ghost use Rattle.raft_messages.specs.Messages.{outcome_of};
ghost use Rattle.raft_engine.specs.Sending.{reply_of};
ghost use Rattle.raft_engine.specs.Standing.{EffectiveMembership as Members, IsStateOf};

use crate::engine::Engine;
use crate::replication_handler::{ReplicationHandler, is_answer_to};
use raft_commands::{Caller, RaftTypeConfig};
use raft_group_step::AppendEntriesResponse;
use raft_state::{BasicNode, Bytes};

// Whether a peer that says so has taken the vote of the request for the one in force.
fn is_taken(outcome: &AppendEntriesResponse<u64>) -> bool
    ensures { result ≡ is_taken (outcome_of outcome.now) }
{
    match outcome {
        AppendEntriesResponse::Success
        | AppendEntriesResponse::PartialSuccess(_)
        | AppendEntriesResponse::Conflict => true,
        AppendEntriesResponse::HigherVote(_) => false,
    }
}

impl<'x, C: RaftTypeConfig<NodeId = u64, Node = BasicNode, D = Bytes>> ReplicationHandler<'x, C> {
    /// The peer has followed this leader at or after the moment, in ticks (openraft): a request that
    /// was sent then has come back as a success or a conflict. It never is the moment of the answer,
    /// which may come late. `Engine::handle_replication_resp` does the same at each such answer. Says
    /// whether the leader has a clock for the peer.
    pub fn update_leader_clock(&mut self, peer: u64, sending_time: u64) -> bool
        ensures same_engine { self.new.engine.ghost_name ≡ self.old.engine.ghost_name }
        ensures heard { IsHeardOf peer sending_time self.old.engine.now.leader self.new.engine.now.leader }
        ensures rest { self.new.engine.now ≡ record self.old.engine.now { leader = self.new.engine.now.leader } }
        ensures stands { (own : ℕ) (s : GroupState) → IsStateOf own self.old.engine.now s → IsStateOf own self.new.engine.now s }
    {
        self.engine.hear(peer, sending_time)
    }
}

impl<C: RaftTypeConfig<NodeId = u64, Node = BasicNode, D = Bytes>> Engine<C> {
    // The peer has followed this leader at the moment or behind it. Answers whether the leader has a
    // clock for the peer.
    fn hear(&mut self, peer: u64, sending_time: u64) -> bool
        ensures heard { IsHeardOf peer sending_time self.old.leader self.new.leader }
        ensures rest { self.new ≡ record self.old { leader = self.new.leader } }
        ensures stands { (own : ℕ) (s : GroupState) → IsStateOf own self.old s → IsStateOf own self.new s }
    {
        let Some(leader) = &mut self.leader else {
            return false;
        };
        leader.update_clock(&peer, sending_time)
    }

    // Whether the answer shows that the peer has followed this leader: it is one to the request on
    // its way, under the leader's vote, and the peer took that for the vote in force.
    fn shows_following(
        &self,
        peer: u64,
        reply: &Caller<u64>,
        outcome: &AppendEntriesResponse<u64>,
    ) -> bool
        ensures { result ≡ shows_following peer (reply_of reply.now outcome.now) self.now.leader }
    {
        let Some(leader) = &self.leader else {
            return false;
        };
        reply.vote == *leader.vote_ref()
            && is_answer_to(&leader.peer(&peer).inflight, reply)
            && is_taken(outcome)
    }

    // The moment at which the answer shows that the peer has followed this leader, or later: the one
    // at which the request left, if that is known.
    fn moment_shown(
        &self,
        peer: u64,
        reply: &Caller<u64>,
        outcome: &AppendEntriesResponse<u64>,
        sending_time: Option<u64>,
    ) -> Option<u64>
        ensures { result ≡ moment_shown peer (reply_of reply.now outcome.now) sending_time self.now.leader }
    {
        if self.shows_following(peer, reply, outcome) {
            sending_time
        } else {
            None
        }
    }

    // The leader hears of a peer by its answer to a request that left at this moment, if that is
    // known.
    pub(crate) fn hear_answer(
        &mut self,
        peer: u64,
        reply: &Caller<u64>,
        outcome: &AppendEntriesResponse<u64>,
        sending_time: Option<u64>,
    )
        ensures heard { HearsAfter peer (moment_shown peer (reply_of reply.now outcome.now) sending_time self.old.leader) self.old.leader self.new.leader }
        ensures rest { self.new ≡ record self.old { leader = self.new.leader } }
        ensures stands { (own : ℕ) (s : GroupState) → IsStateOf own self.old s → IsStateOf own self.new s }
    {
        let Some(moment) = self.moment_shown(peer, reply, outcome, sending_time) else {
            return;
        };
        self.hear(peer, moment);
    }

    /// The latest moment, in ticks, at or after which a quorum of the voters is known to have followed
    /// this leader, which itself does so now (openraft's leader): none where it has heard of no
    /// quorum, or doesn't lead. A lease that reads are answered under is counted from there.
    pub fn last_quorum_acked_time(&mut self, now: u64) -> Option<u64>
        ensures none { self.old.leader ≡ None → (result ≡ None) × (self.new ≡ self.old) }
        ensures heard { (l : LeaderValue ℕ Members) → self.old.leader ≡ Some l → IsHeardOf l.vote.leader_id.node_id now self.old.leader self.new.leader }
        ensures granted { (l : LeaderValue ℕ Members) → self.new.leader ≡ Some l → IsQuorumHeardAt result l }
        ensures rest { self.new ≡ record self.old { leader = self.new.leader } }
        ensures stands { (own : ℕ) (s : GroupState) → IsStateOf own self.old s → IsStateOf own self.new s }
    {
        let Some(leader) = &mut self.leader else {
            return None;
        };
        leader.last_quorum_acked_time(now)
    }
}
