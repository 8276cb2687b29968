//! The facts of the group at a member, by which its events are judged.
ghost use Rattle.std.specs.Prelude.{◌≡◌, ◌<◌, ◌+◌, ◌^◌, ◌++◌, ℕ, nat_eq, nat_lt, true};
ghost use Rattle.std.specs.List.{list_all};
ghost use Rattle.raft_values.specs.LogId.{next_place};
ghost use Rattle.raft_progress.specs.Parts.{ids_of};
ghost use Rattle.raft_leaders.specs.Leader.{peer_at};
ghost use Rattle.raft_group_step.specs.StoredGroup.{StoredGroup, end_place, membership_in_force};
ghost use Rattle.raft_group_step.specs.GroupState.{GroupState};
ghost use Rattle.raft_conditions.specs.Facts.{IsFactsOf};
ghost use Rattle.raft_engine.specs.Standing.{IsStateOf};
ghost use Rattle.raft_known_state.specs.KnownState.{Knows};
ghost use Rattle.raft_messages.specs.Memberships.{logged_or_none};

use crate::member::ByteGroup;
use raft_conditions::{GroupFacts, LoggedPair};
use raft_engine::{Engine, KnownState, Leader};
use raft_messages::pair_in_force;
use raft_state::{BasicNode, EffectiveMembership, LogId, LogIdOptionExt};

type GroupLeader = Leader<u64, EffectiveMembership<u64, BasicNode>>;

// The greatest number of a next request to a peer, 2^64 - 1 in place of 2^64; 0 where there is none.
fn greatest_next_id(leader: &GroupLeader) -> u64
    ensures { (limit : ℕ) → 0 < limit → limit < 2 ^ 64
        → nat_lt result limit ≡ list_all (λ id. nat_lt ((peer_at nat_eq leader.now id).curr_inflight_id + 1) limit) (ids_of (leader.now.progress.voters ++ leader.now.progress.learners)) }
{
    let mut greatest = 0;
    for entry in leader.progress().iter() {
        let next = leader.peer(&entry.0).curr_inflight_id.saturating_add(1);
        greatest = next.max(greatest);
    }
    greatest
}

// The place behind a last log id.
fn place_behind(last: Option<LogId<u64>>) -> u64
    ensures { next_place last < 2 ^ 64 → result ≡ next_place last }
{
    match last {
        None => 0,
        Some(id) => id.index.saturating_add(1),
    }
}

// The membership in force, lent, with the log id of its entry, if an entry has one.
pub(crate) fn membership_in_force(known: &KnownState<u64, BasicNode>) -> Option<LoggedPair<'_>>
    ensures { (s : StoredGroup) → Knows known.now s → logged_or_none result ≡ membership_in_force s }
{
    pair_in_force(known.effective_membership())
}

/// The facts of a group that the node `own` has, by which its events are judged (own): what its
/// engine knows of it, so that no log is walked and nothing is read. They are lent from the engine.
pub fn facts_of(own: u64, engine: &Engine<ByteGroup>) -> GroupFacts<'_>
    ensures { (s : GroupState) → IsStateOf own engine.now s → s.stored.present ≡ true → end_place s.stored < 2 ^ 64 → IsFactsOf own result s }
{
    let known = &engine.state;
    GroupFacts {
        own,
        present: true,
        vote: *known.state.vote.get(),
        membership: membership_in_force(known),
        is_new: known.is_new(),
        is_leader: engine.leader.is_some(),
        is_candidate: engine.candidate.is_some(),
        end: place_behind(known.last_log_id()),
        committed: known.state.committed.index(),
        greatest_next_id: match &engine.leader {
            Some(leader) => greatest_next_id(leader),
            None => 0,
        },
    }
}
