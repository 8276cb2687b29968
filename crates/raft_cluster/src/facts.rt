//! What of an event decides whether the cluster turns it away.
ghost use Rattle.std.specs.Prelude.{◌≡◌, ◌==◌, Some};
ghost use Rattle.std.specs.Option.{option_copied, option_map};
ghost use Rattle.raft_group_step.specs.Values.{membership_eq};
ghost use Rattle.raft_sent_frames.specs.Frames.{frames_of};
ghost use Rattle.raft_cluster_conditions.specs.declared.reasons.NodeStanding.TheVariants.{Missing};
ghost use Rattle.raft_cluster_conditions.specs.Refusal.{refusal_of};
ghost use Rattle.raft_cluster.specs.Facts.{asked_of, cuts_of, delivered, differs, is_taken, membership_in, node_of, set_up_asked, set_up_by, standing_of};
ghost use Rattle.raft_cluster.specs.Turn.{refusal_for};

use raft_cluster_conditions::{Asked, ClusterRefusal, NodeStanding, refusal};
use raft_cluster_events::{ClusterEvent, ClusterNode, EventOutcome, GroupCommand, Recorded};
use raft_group_step::GroupCall;
use raft_sent_frames::{SentFrame, SentFrames};
use raft_state::{BasicNode, Membership};

/// The frame that an event delivers, if it was sent.
pub fn delivered<'a>(sent: &'a SentFrames, event: &ClusterEvent) -> Option<&'a SentFrame>
    ensures { option_copied result ≡ delivered (frames_of sent.now) event.now }
{
    match event {
        ClusterEvent::Deliver { group, number, .. } => sent.get(*group, *number),
        _ => None,
    }
}

/// The node that an event is for; none where it delivers a frame that wasn't sent.
pub fn node_of(sent: &SentFrames, event: &ClusterEvent) -> Option<u64>
    ensures { result ≡ node_of (frames_of sent.now) event.now }
{
    match event {
        ClusterEvent::AddGroup { node, .. }
        | ClusterEvent::Ask { node, .. }
        | ClusterEvent::ResetPeer { node, .. }
        | ClusterEvent::Fuse { node, .. }
        | ClusterEvent::Crash { node, .. }
        | ClusterEvent::Reopen { node, .. }
        | ClusterEvent::Clean { node } => Some(*node),
        ClusterEvent::Deliver { group, number, .. } => {
            sent.get(*group, *number).map(|frame| frame.peer)
        }
    }
}

/// Where an event's frame is cut.
pub fn cuts_of(event: &ClusterEvent) -> &[u64]
    ensures { result.now ≡ cuts_of event.now }
{
    match event {
        ClusterEvent::Deliver { cuts, .. } => cuts.as_slice(),
        _ => &[],
    }
}

// Whether it was neither refused nor turned away.
fn is_taken(outcome: &EventOutcome) -> bool
    ensures { result ≡ is_taken outcome.now }
{
    match outcome {
        EventOutcome::Done(_) | EventOutcome::Cleaned(_) | EventOutcome::Stopped(_) => true,
        EventOutcome::Refused(_) | EventOutcome::TurnedAway(_) => false,
    }
}

// The membership with which a record set up the group, if it did.
fn set_up_by(recorded: &Recorded, set_up: u64) -> Option<&Membership<u64, BasicNode>>
    ensures { option_copied result ≡ set_up_by set_up recorded.now }
{
    match &recorded.event {
        ClusterEvent::Ask {
            group,
            call: GroupCall::Initialize { membership },
            ..
        } if *group == set_up && is_taken(&recorded.outcome) => Some(membership),
        _ => None,
    }
}

// Whether both are the same.
fn is_same(first: &Membership<u64, BasicNode>, other: &Membership<u64, BasicNode>) -> bool
    ensures { result ≡ membership_eq first.now other.now }
{
    first == other
}

// Whether a group was set up with another membership.
fn differs(history: &[Recorded], group: u64, membership: &Membership<u64, BasicNode>) -> bool
    ensures { result ≡ differs history.now group membership.now }
{
    for recorded in history {
        if let Some(first) = set_up_by(recorded, group) {
            return !is_same(first, membership);
        }
    }
    false
}

// What a call of a node asks for.
fn asked_by(history: &[Recorded], group: u64, call: &GroupCommand) -> Asked
    ensures { result ≡ set_up_asked history.now group (membership_in call.now) }
{
    match call {
        GroupCall::Initialize { membership } => Asked::SetUp {
            differs: differs(history, group, membership),
        },
        _ => Asked::Call,
    }
}

/// What an event asks for.
pub fn asked_of(history: &[Recorded], sent: &SentFrames, event: &ClusterEvent) -> Asked
    ensures { result ≡ asked_of history.now (frames_of sent.now) event.now }
{
    match event {
        ClusterEvent::AddGroup { .. }
        | ClusterEvent::ResetPeer { .. }
        | ClusterEvent::Clean { .. } => Asked::Call,
        ClusterEvent::Ask { group, call, .. } => asked_by(history, *group, call),
        ClusterEvent::Deliver { group, number, .. } => Asked::Delivery {
            length: sent
                .get(*group, *number)
                .map(|frame| frame.bytes.len() as u64),
        },
        ClusterEvent::Fuse { .. } => Asked::Fuse,
        ClusterEvent::Crash { .. } => Asked::Crash,
        ClusterEvent::Reopen { .. } => Asked::Reopen,
    }
}

// What is known of this node.
fn standing_of<N: ClusterNode>(node: &N) -> NodeStanding
    ensures { result ≡ standing_of N.acts (Some node.now) }
{
    if node.is_up() {
        NodeStanding::Up
    } else {
        NodeStanding::Down
    }
}

/// Why an event for this node is turned away behind a history, if it is.
pub fn refusal_at<N: ClusterNode>(
    node: &N,
    sent: &SentFrames,
    history: &[Recorded],
    event: &ClusterEvent,
) -> Option<ClusterRefusal>
    ensures { result ≡ refusal_for N.acts node.now (frames_of sent.now) history.now event.now }
{
    let asked = asked_of(history, sent, event);
    refusal(standing_of(node), asked, cuts_of(event))
}

/// Why an event is turned away for which there is no node.
pub fn refusal_nowhere(
    sent: &SentFrames,
    history: &[Recorded],
    event: &ClusterEvent,
) -> ClusterRefusal
    ensures { Some result ≡ refusal_of Missing (asked_of history.now (frames_of sent.now) event.now) (cuts_of event.now) }
{
    let asked = asked_of(history, sent, event);
    match asked {
        Asked::Delivery { length: None } => ClusterRefusal::NoFrame,
        _ => ClusterRefusal::NoNode,
    }
}
