//! What a group's clock is shown of a node.
ghost use Rattle.std.specs.Prelude.{◌≡◌, false, IfOk, OnOk};
ghost use Rattle.raft_group_step.specs.GroupState.{GroupState};
ghost use Rattle.raft_group_step.specs.Lead.{configs_in_force};
ghost use Rattle.raft_laws.specs.GroupWorld.{Up};
ghost use Rattle.raft_framed_groups.specs.Answers.{Stands};
ghost use Rattle.raft_node.specs.Reading.{place_in};
ghost use Rattle.raft_node.specs.Standing.{running_in, value_of};
ghost use Rattle.raft_node_clock.specs.Heard.{heard_at};
ghost use Rattle.raft_node_clock.specs.Quorum.{IsLatestQuorum};
ghost use Rattle.raft_node_clock.specs.View.{joined_if, place_of, view_in, waiting_in};

use crate::heard::Heard;
use crate::quorum::latest_quorum;
use raft_group_storage::GroupStorage;
use raft_machines::StateMachine;
use raft_messages::SnapshotBytes;
use raft_node::Node;
use raft_state::{LogId, ServerState};
use raft_timers::GroupView;
use std::alloc::{AllocError, Global};

fn place_of(id: Option<LogId<u64>>) -> Option<u64>
    ensures { result ≡ place_of id }
{
    match id {
        Some(id) => Some(id.index),
        None => None,
    }
}

/// The latest moment at or after which a quorum of the membership in force was heard of, the node
/// itself now.
pub(crate) fn quorum_heard<M: StateMachine, S: GroupStorage<Snapshot = SnapshotBytes>>(
    alloc: Global,
    node: &Node<M, S>,
    group: u64,
    heards: &[Heard],
    now: u64,
) -> Result<Option<u64>, AllocError>
    ensures { (s : GroupState) → node.now.groups.has_failed ≡ false
        → Stands (value_of M.state S.is_well S.shows S.fails node.now).groups group (Up s)
        → IfOk result (IsLatestQuorum (configs_in_force s.stored) (heard_at node.now.groups.id now heards.now)) }
{
    match node.membership(group) {
        Some(membership) => {
            latest_quorum(alloc, node.id(), now, heards, membership.get_joint_config())
        }
        None => Ok(None),
    }
}

// The peers, and this one behind them if it is waited for.
fn push_if(waiting: &mut Vec<u64>, peer: u64, is_waiting: bool) -> Result<(), AllocError>
    ensures { OnOk result (waiting.new.items ≡ joined_if is_waiting peer waiting.old.items) }
{
    if is_waiting {
        waiting.push(peer)?;
    }
    Ok(())
}

/// The peers whose answer the node waits for.
pub(crate) fn waiting_for<M: StateMachine, S: GroupStorage<Snapshot = SnapshotBytes>>(
    alloc: Global,
    node: &Node<M, S>,
    group: u64,
    peers: &[u64],
) -> Result<Vec<u64>, AllocError>
    ensures { (s : GroupState) → node.now.groups.has_failed ≡ false
        → Stands (value_of M.state S.is_well S.shows S.fails node.now).groups group (Up s)
        → IfOk result (λ waiting. waiting.items ≡ waiting_in s peers.now) }
{
    let mut waiting = Vec::new(alloc);
    for peer in peers {
        push_if(&mut waiting, *peer, node.is_waiting_for(group, *peer))?;
    }
    Ok(waiting)
}

/// What the node that plays this part tells of the group, behind what was heard of its quorum.
pub(crate) fn view_of<M: StateMachine, S: GroupStorage<Snapshot = SnapshotBytes>>(
    node: &Node<M, S>,
    group: u64,
    role: ServerState,
    quorum_heard: Option<u64>,
) -> GroupView
    ensures { (s : GroupState) → node.now.groups.has_failed ≡ false
        → Stands (value_of M.state S.is_well S.shows S.fails node.now).groups group (Up s)
        → result ≡ view_in role (place_in (running_in M.state node.now.machines group)) quorum_heard s }
{
    GroupView {
        role,
        renewed: node.renewed(group),
        quorum_heard,
        applied: node.applied(group),
        snapshot: place_of(node.snapshot_last(group)),
        purged: place_of(node.last_purged_log_id(group)),
    }
}
