//! What an event brings to the list of its group, copied before it.
ghost use Rattle.std.specs.Prelude.{◌≡◌, ◌↔◌, None, IfOk, IsTrue, MatchOption};
ghost use Rattle.raft_group_lists.specs.Notes.{accounts_of, membership_in};
ghost use Rattle.raft_list_reports.specs.Calls.{IsWrittenBy};
ghost use Rattle.raft_cluster_lists.specs.Brought.{Brings, IsAskedBy, IsChangedBy, IsNothing};
ghost use Rattle.raft_cluster_lists.specs.Hearing.{IsOpening, group_of};

use raft_cluster_events::{ClusterEvent, GroupCommand, Leading};
use raft_conditions::changed_membership;
use raft_group_lists::GroupList;
use raft_group_step::GroupCall;
use raft_list_steps::SetUp;
use raft_state::{
    BasicNode, Bytes, ChangeMembers, EntryPayload, IdSet, Membership, Vote, VoterGroups,
};
use std::alloc::{AllocError, Global};

/// What an event brings (own).
#[derive(Drop)]
pub struct Brought {
    /// The set-up that it asks for, if it would be the first one of its group.
    pub set_up: Option<SetUp>,
    /// What its call writes, if its node leads the group.
    pub written: Option<EntryPayload<u64, BasicNode, Bytes>>,
}

/// The group that an event is of, if it is of one.
pub fn group_of(event: &ClusterEvent) -> Option<u64>
    ensures { result ≡ group_of event.now }
{
    match event {
        ClusterEvent::AddGroup { group, .. }
        | ClusterEvent::Ask { group, .. }
        | ClusterEvent::Deliver { group, .. } => Some(*group),
        ClusterEvent::ResetPeer { .. }
        | ClusterEvent::Clean { .. }
        | ClusterEvent::Fuse { .. }
        | ClusterEvent::Crash { .. }
        | ClusterEvent::Reopen { .. } => None,
    }
}

// Whether the event opens its node.
pub(crate) fn is_opening(event: &ClusterEvent) -> bool
    ensures { IsTrue result ↔ IsOpening event.now }
{
    matches!(event, ClusterEvent::Reopen { .. })
}

// The same voter groups.
fn copied_groups(alloc: Global, groups: &[IdSet<u64>]) -> Result<VoterGroups<u64>, AllocError>
    ensures { IfOk result (λ copy. copy ≡ groups.now) }
{
    let mut copy = VoterGroups::new(alloc);
    for group in groups {
        copy.push(group.clone()?)?;
    }
    Ok(copy)
}

// The set-up that the call asks for.
fn asked_by(alloc: Global, call: &GroupCommand) -> Result<Option<SetUp>, AllocError>
    ensures { IfOk result (IsAskedBy call.now) }
{
    let GroupCall::Initialize { membership } = call else {
        return Ok(None);
    };
    let voters = copied_groups(alloc, membership.get_joint_config())?;
    Ok(Some(SetUp {
        membership: membership.clone()?,
        voters,
    }))
}

// The membership behind the change of the one that the leader's list has.
fn changed_by(
    alloc: Global,
    list: &GroupList,
    vote: &Vote<u64>,
    change: &ChangeMembers<u64, BasicNode>,
) -> Result<Option<Membership<u64, BasicNode>>, AllocError>
    ensures { IfOk result (IsChangedBy (membership_in ((accounts_of list.now.notes).latest vote.now)) change.now) }
{
    let Some(at) = list.last_of(vote) else {
        return Ok(None);
    };
    match list.membership_at(at) {
        Some(old) => changed_membership(alloc, old, change),
        None => Ok(None),
    }
}

// What the call writes at the leader of the vote: a command, or the membership behind a change.
fn written_by(
    alloc: Global,
    list: &GroupList,
    vote: &Vote<u64>,
    call: &GroupCommand,
) -> Result<Option<EntryPayload<u64, BasicNode, Bytes>>, AllocError>
    ensures { IfOk result (IsWrittenBy list.now.notes vote.now call.now) }
{
    match call {
        GroupCall::Propose { command, .. } => Ok(Some(EntryPayload::Normal(command.clone()?))),
        GroupCall::ChangeMembership { change, .. } => {
            let changed = changed_by(alloc, list, vote, change)?;
            Ok(changed.map(|new| EntryPayload::Membership(new)))
        }
        GroupCall::Initialize { .. }
        | GroupCall::Elect
        | GroupCall::Heartbeat
        | GroupCall::Lost { .. }
        | GroupCall::TriggerSnapshot
        | GroupCall::TriggerPurge { .. } => Ok(None),
    }
}

// Nothing.
pub(crate) fn nothing() -> Brought
    ensures { IsNothing result }
{
    Brought {
        set_up: None,
        written: None,
    }
}

// What the call writes, where its node leads the group with this.
fn written_if(
    alloc: Global,
    list: &GroupList,
    leading: &Option<Leading>,
    call: &GroupCommand,
) -> Result<Option<EntryPayload<u64, BasicNode, Bytes>>, AllocError>
    ensures { IfOk result (λ written. MatchOption leading.now (written ≡ None) (λ lead. IsWrittenBy list.now.notes lead.vote call.now written)) }
{
    match leading {
        Some(leading) => written_by(alloc, list, &leading.vote, call),
        None => Ok(None),
    }
}

/// What the event brings to its group's list, where its node leads the group with this. An `Err` is want of memory.
pub fn brought_by(
    alloc: Global,
    list: &GroupList,
    leading: &Option<Leading>,
    event: &ClusterEvent,
) -> Result<Brought, AllocError>
    ensures { IfOk result (Brings list.now.notes leading.now event.now) }
{
    let ClusterEvent::Ask { call, .. } = event else {
        return Ok(nothing());
    };
    let written = written_if(alloc, list, leading, call)?;
    let set_up = asked_by(alloc, call)?;
    Ok(Brought { set_up, written })
}
