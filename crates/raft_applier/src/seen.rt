//! What a member's engine knows of how far its group has come.
ghost use Rattle.std.specs.Prelude.{◌≡◌, ◌<◌, ◌^◌, ℕ, Some};
ghost use Rattle.raft_values.specs.LogId.{next_place};
ghost use Rattle.raft_group_step.specs.StoredGroup.{end_place};
ghost use Rattle.raft_group_step.specs.GroupState.{GroupState};
ghost use Rattle.raft_engine.specs.Standing.{IsStateOf};
ghost use Rattle.raft_member.specs.Member.{IsIdle};
ghost use Rattle.raft_applier.specs.Seen.{IsSeen};

use raft_engine::Engine;
use raft_member::{ByteGroup, Member};
use raft_state::{LogId, Vote};

/// How far a group has come at its member.
#[derive(Clone, Copy)]
pub(crate) struct Seen {
    /// The last committed log id.
    pub committed: Option<LogId<u64>>,
    /// The last log id of the stored snapshot.
    pub snapshot: Option<LogId<u64>>,
    /// The vote under which the node leads, if it does.
    pub lead: Option<Vote<u64>>,
}

// How far the engine knows the group to have come.
pub(crate) fn seen_of(engine: &Engine<ByteGroup>) -> Seen
    ensures { (own : ℕ) (s : GroupState) → IsStateOf own engine.now s → IsSeen result s }
{
    let known = &engine.state.state;
    let vote = *known.vote.get();
    Seen {
        committed: known.committed,
        snapshot: known.snapshot_meta.last_log_id,
        lead: engine.leader.is_some().then_some(vote),
    }
}

// The place behind the log id, as far as 64 bits go.
fn place_behind(last: Option<LogId<u64>>) -> u64
    ensures { next_place last < 2 ^ 64 → result ≡ next_place last }
{
    match last {
        None => 0,
        Some(id) => id.index.saturating_add(1),
    }
}

// The group's next place at the member.
pub(crate) fn next_place_of(member: &Member) -> u64
    ensures { (e : _) (s : GroupState) → member.now.engine ≡ Some e → IsIdle member.now.id e s → end_place s.stored < 2 ^ 64 → result ≡ end_place s.stored }
{
    match member.engine() {
        Some(engine) => place_behind(engine.state.last_log_id()),
        None => 0,
    }
}
