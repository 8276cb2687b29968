//! A group's status at a node.
ghost use Rattle.std.specs.Prelude.{◌≡◌, ℕ, None, IfOk, map, true, false};
ghost use Rattle.std.specs.BTreeMap.{get};
ghost use Rattle.std.specs.Ordering.{nat_cmp};
ghost use Rattle.raft_group_step.specs.GroupState.{GroupState};
ghost use Rattle.raft_group_step.specs.Lead.{other_ids};
ghost use Rattle.raft_known_state.specs.KnownState.{others};
ghost use Rattle.raft_laws.specs.GroupWorld.{Up};
ghost use Rattle.raft_framed_groups.specs.Answers.{Stands};
ghost use Rattle.raft_node.specs.Reading.{place_in};
ghost use Rattle.raft_node.specs.Standing.{running_in, value_of};
ghost use Rattle.raft_node_status.specs.Status.{IsToldOf, peer_status, peers_in};

use raft_group_storage::GroupStorage;
use raft_machines::StateMachine;
use raft_messages::SnapshotBytes;
use raft_node::Node;
use raft_state::{BasicNode, LogId, ServerState, Vote};
use std::alloc::{AllocError, Global};

/// A peer, as a group's leader knows it (own).
#[derive(Clone, Copy, PartialEq, Eq)]
pub struct PeerStatus {
    /// The peer's id.
    pub id: u64,
    /// The last log id that the peer is known to have (openraft's `matching`).
    pub matched: Option<LogId<u64>>,
    /// Whether a request to the peer waits for its answer.
    pub is_waiting: bool,
}

/// A group at a node (own; openraft's `RaftMetrics` has most of it).
#[derive(Drop)]
pub struct GroupStatus {
    /// What part the node plays.
    pub role: ServerState,
    /// The stored vote: its term, whose it is, and whether a quorum granted it.
    pub vote: Vote<u64>,
    /// Who leads, as far as the node knows.
    pub leader: Option<u64>,
    /// The log id of the log's last entry, purged or not.
    pub last: Option<LogId<u64>>,
    /// The last log id that the node knows to be committed.
    pub committed: Option<LogId<u64>>,
    /// The last place that the machine has run.
    pub applied: Option<u64>,
    /// The last log id that is purged of the log.
    pub purged: Option<LogId<u64>>,
    /// The last log id that the snapshot covers.
    pub snapshot: Option<LogId<u64>>,
    /// All other nodes of the membership in force by rising id; at a node that doesn't lead, none.
    pub peers: Vec<PeerStatus>,
}

// What the leader knows of a peer.
fn peer_status<M: StateMachine, S: GroupStorage<Snapshot = SnapshotBytes>>(
    node: &Node<M, S>,
    group: u64,
    peer: u64,
) -> PeerStatus
    ensures { (s : GroupState) → node.now.groups.has_failed ≡ false
        → Stands (value_of M.state S.is_well S.shows S.fails node.now).groups group (Up s) → result ≡ peer_status s peer }
{
    PeerStatus {
        id: peer,
        matched: node.matched(group, peer),
        is_waiting: node.is_waiting_for(group, peer),
    }
}

// The ids of all these nodes but the own one.
fn ids_but(alloc: Global, own: u64, nodes: &[(u64, BasicNode)]) -> Result<Vec<u64>, AllocError>
    ensures { IfOk result (λ ids. ids.items ≡ others own (map {B = ℕ} (λ x. x.0) nodes.now)) }
{
    let mut ids = Vec::new(alloc);
    for one in nodes {
        if one.0 != own {
            ids.push(one.0)?;
        }
    }
    Ok(ids)
}

/// The ids of all other nodes of the membership in force, by rising id (own); none where the group
/// isn't there. An `Err` is want of memory.
pub fn other_ids<M: StateMachine, S: GroupStorage<Snapshot = SnapshotBytes>>(
    alloc: Global,
    node: &Node<M, S>,
    group: u64,
) -> Result<Vec<u64>, AllocError>
    ensures { (s : GroupState) → node.now.groups.has_failed ≡ false
        → Stands (value_of M.state S.is_well S.shows S.fails node.now).groups group (Up s)
        → IfOk result (λ ids. ids.items ≡ other_ids node.now.groups.id s.stored) }
{
    match node.membership(group) {
        Some(membership) => ids_but(alloc, node.id(), membership.nodes()),
        None => Ok(Vec::new(alloc)),
    }
}

// What the leader knows of each of these.
fn statuses_of<M: StateMachine, S: GroupStorage<Snapshot = SnapshotBytes>>(
    alloc: Global,
    node: &Node<M, S>,
    group: u64,
    ids: &[u64],
) -> Result<Vec<PeerStatus>, AllocError>
    ensures { (s : GroupState) → node.now.groups.has_failed ≡ false
        → Stands (value_of M.state S.is_well S.shows S.fails node.now).groups group (Up s)
        → IfOk result (λ peers. peers.items ≡ map (peer_status s) ids.now) }
{
    let mut peers = Vec::new(alloc);
    for id in ids {
        peers.push(peer_status(node, group, *id))?;
    }
    Ok(peers)
}

// What a node that leads the group knows of the others.
fn peers_of<M: StateMachine, S: GroupStorage<Snapshot = SnapshotBytes>>(
    alloc: Global,
    node: &Node<M, S>,
    group: u64,
) -> Result<Vec<PeerStatus>, AllocError>
    ensures { (s : GroupState) → node.now.groups.has_failed ≡ false
        → Stands (value_of M.state S.is_well S.shows S.fails node.now).groups group (Up s)
        → IfOk result (λ peers. peers.items ≡ peers_in node.now.groups.id s) }
{
    if node.leading(group).is_none() {
        return Ok(Vec::new(alloc));
    }
    let ids = other_ids(alloc, node, group)?;
    statuses_of(alloc, node, group, ids.as_slice())
}

/// What the node knows of the group (own): `Ok(None)` where the group isn't there, and once the node has
/// failed. An `Err` is want of memory; nothing has changed then.
pub fn group_status<M: StateMachine, S: GroupStorage<Snapshot = SnapshotBytes>>(
    alloc: Global,
    node: &Node<M, S>,
    group: u64,
) -> Result<Option<GroupStatus>, AllocError>
    ensures failed { node.now.groups.has_failed ≡ true → IfOk result (λ told. told ≡ None) }
    ensures absent { get nat_cmp node.now.groups.members group ≡ None → IfOk result (λ told. told ≡ None) }
    ensures up { (s : GroupState) → node.now.groups.has_failed ≡ false
        → Stands (value_of M.state S.is_well S.shows S.fails node.now).groups group (Up s)
        → IfOk result (IsToldOf node.now.groups.id (place_in (running_in M.state node.now.machines group)) s) }
{
    let (Some(role), Some(vote)) = (node.role(group), node.vote(group)) else {
        return Ok(None);
    };
    let peers = peers_of(alloc, node, group)?;
    Ok(Some(GroupStatus {
        role,
        vote,
        leader: node.leader(group),
        last: node.last_log_id(group),
        committed: node.committed(group),
        applied: node.applied(group),
        purged: node.last_purged_log_id(group),
        snapshot: node.snapshot_last(group),
        peers,
    }))
}
