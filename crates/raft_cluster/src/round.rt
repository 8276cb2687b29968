//! The events of a round, each for another node, come to their nodes at once.
ghost use Rattle.std.specs.Prelude.{◌≡◌, ◌==◌, ℕ, List, Some, None, length, map, position, slice_get, true, IfOk, IfSome, OnErr, OnOk};
ghost use Rattle.std.specs.Bool.{OnTrue};
ghost use Rattle.std.specs.List.{list_any};
ghost use Rattle.raft_sent_frames.specs.Frames.{frames_of};
ghost use Rattle.raft_cluster_events.specs.declared.event.ClusterEvent.{ClusterEvent as Event};
ghost use Rattle.raft_cluster_events.specs.declared.outcome.CrashRefusal.TheVariants.{Memory};
ghost use Rattle.raft_cluster.specs.Facts.{node_of};
ghost use Rattle.raft_cluster.specs.Happening.{RefusesFor};
ghost use Rattle.raft_cluster.specs.Round.{AreAhead, HasPart, IsFree, IsIn, has_to_wait, is_apart_from, is_for, is_round, is_set_up, place_by, sets_up, sets_up_elsewhere};
ghost use Rattle.raft_cluster.specs.Worked.{IsWorked};

use crate::facts::{node_of, refusal_at};
use crate::happening::ask_node;
use crate::slot::Slot;
use raft_cluster_events::{ClusterEvent, ClusterNode, GroupCommand, Recorded};
use raft_group_step::GroupCall;
use raft_sent_frames::SentFrames;
use std::alloc::{AllocError, Global};
use std::thread::{Threads, for_each_mut};
use thiserror::Error;

/// Why a cluster refuses a round (own). Nothing changes, and the history has none of its events.
#[derive(Clone, Copy, Debug, PartialEq, Eq, Error)]
pub enum RoundRefusal {
    /// C8
    #[error("two events of a round are for one node, or a frame wasn't sent before it")]
    SameNode,
    /// C10
    #[error("want of memory before a round")]
    Memory,
}

// Whether an event is for the node of this id.
fn is_for(sent: &SentFrames, id: u64, event: &ClusterEvent) -> bool
    ensures { result ≡ is_for (frames_of sent.now) id event.now }
{
    match node_of(sent, event) {
        Some(other) => other == id,
        None => false,
    }
}

// Whether one of these events is for the node of this id.
fn has_one_for(sent: &SentFrames, id: u64, events: &[ClusterEvent]) -> bool
    ensures { result ≡ list_any (is_for (frames_of sent.now) id) events.now }
{
    events.iter().any(|event| is_for(sent, id, event))
}

// Whether there is a node that an event is for, and none of the others is for it.
fn is_apart(sent: &SentFrames, event: &ClusterEvent, others: &[ClusterEvent]) -> bool
    ensures { result ≡ is_apart_from (frames_of sent.now) (node_of (frames_of sent.now) event.now) others.now }
{
    match node_of(sent, event) {
        Some(id) => !has_one_for(sent, id, others),
        None => false,
    }
}

/// Whether each of these events is for another node. A frame that wasn't sent yet has none.
pub fn is_round(sent: &SentFrames, events: &[ClusterEvent]) -> bool
    ensures { result ≡ is_round (frames_of sent.now) events.now }
{
    let mut left = events;
    while let Some((event, others)) = left.split_first() {
        if !is_apart(sent, event, others) {
            return false;
        }
        left = others;
    }
    true
}

// Whether a call sets up its group.
fn is_set_up(call: &GroupCommand) -> bool
    ensures { result ≡ is_set_up call.now }
{
    matches!(call, GroupCall::Initialize { .. })
}

// Whether an event sets up the group.
fn sets_up(group: u64, event: &ClusterEvent) -> bool
    ensures { result ≡ sets_up group event.now }
{
    match event {
        ClusterEvent::Ask {
            group: other,
            call,
            ..
        } => is_set_up(call) && *other == group,
        _ => false,
    }
}

// Whether an event sets up the group at another node than this one.
fn sets_up_elsewhere(sent: &SentFrames, group: u64, node: u64, event: &ClusterEvent) -> bool
    ensures { result ≡ sets_up_elsewhere (frames_of sent.now) group node event.now }
{
    sets_up(group, event) && !is_for(sent, node, event)
}

// Whether one of these events sets up the group at another node than this one.
fn has_one_elsewhere(sent: &SentFrames, group: u64, node: u64, events: &[ClusterEvent]) -> bool
    ensures { result ≡ list_any (sets_up_elsewhere (frames_of sent.now) group node) events.now }
{
    events
        .iter()
        .any(|event| sets_up_elsewhere(sent, group, node, event))
}

// Whether an event of a round has to wait for its turn: whether a set-up is turned away depends on the
// other ones of its group.
fn has_to_wait(sent: &SentFrames, events: &[ClusterEvent], event: &ClusterEvent) -> bool
    ensures { result ≡ has_to_wait (frames_of sent.now) events.now event.now }
{
    match event {
        ClusterEvent::Ask {
            node,
            group,
            call,
            ..
        } => is_set_up(call) && has_one_elsewhere(sent, *group, *node, events),
        _ => false,
    }
}

// Whether an event may come to its node before its turn.
fn is_free<N: ClusterNode>(
    node: &N,
    sent: &SentFrames,
    history: &[Recorded],
    events: &[ClusterEvent],
    event: &ClusterEvent,
) -> bool
    ensures free { OnTrue result (IsFree N.acts (frames_of sent.now) history.now events.now node.now event.now) }
    ensures waits { IsFree N.acts (frames_of sent.now) history.now events.now node.now event.now → result ≡ true }
{
    match refusal_at(node, sent, history, event) {
        Some(_) => false,
        None => !has_to_wait(sent, events, event),
    }
}

/// A node is asked for an event, unless it has answered one, or the event has to wait for its turn. An
/// `Err` is the node's want of memory for a crash, and changes nothing.
pub fn ask_ahead<N: ClusterNode, R: Threads + Sync>(
    rt: &R,
    slot: &mut Slot<N>,
    sent: &SentFrames,
    history: &[Recorded],
    events: &[ClusterEvent],
    event: &ClusterEvent,
) -> Result<(), AllocError>
    ensures id { N.acts.id slot.new.node ≡ N.acts.id slot.old.node }
    ensures part { (ids : List ℕ) (left : List Event) (place : ℕ) (before : _) → IsIn left event.now → place_by ids (node_of (frames_of sent.now) event.now) ≡ Some place
        → HasPart N.acts ids (frames_of sent.now) history.now events.now left place before slot.old.node slot.old.answer
        → HasPart N.acts ids (frames_of sent.now) history.now events.now left place before slot.new.node slot.new.answer }
    ensures kept { slot.new.answer ≡ None → slot.old.answer ≡ None }
    ensures waits { OnOk result (slot.new.answer ≡ None → IsFree N.acts (frames_of sent.now) history.now events.now slot.old.node event.now → ⊥) }
    ensures memory { OnErr result ((slot.old.answer ≡ None) × RefusesFor N.acts event.now slot.old.node Memory) }
    ensures node { OnErr result (slot.new.node ≡ slot.old.node) }
    ensures answer { OnErr result (slot.new.answer ≡ slot.old.answer) }
{
    if slot.answer.is_some() {
        return Ok(());
    }
    if !is_free(&slot.node, sent, history, events, event) {
        return Ok(());
    }
    slot.answer = Some(ask_node(rt, &mut slot.node, sent, event)?);
    Ok(())
}

// Where the first of these ids stands that is this one, if one does.
fn position_of(ids: &[u64], id: u64) -> Option<usize>
    ensures { result ≡ position (λ other. other == id) ids.now }
{
    ids.iter().position(|other| *other == id)
}

// The place of the first of these ids, if it is one of them.
fn place_by(ids: &[u64], id: Option<u64>) -> Option<usize>
    ensures { result ≡ place_by ids.now id }
{
    match id {
        Some(id) => position_of(ids, id),
        None => None,
    }
}

// Whether an event is for the node at this place.
fn is_at(sent: &SentFrames, ids: &[u64], place: usize, event: &ClusterEvent) -> bool
    ensures { OnTrue result (place_by ids.now (node_of (frames_of sent.now) event.now) ≡ Some place) }
{
    match place_by(ids, node_of(sent, event)) {
        Some(found) => found == place,
        None => false,
    }
}

// The event for the node at this place, if there is one.
fn event_at<'a>(
    sent: &SentFrames,
    ids: &[u64],
    place: usize,
    events: &'a [ClusterEvent],
) -> Option<&'a ClusterEvent>
    ensures among { IfSome result (λ event. IsIn events.now event.now) }
    ensures here { IfSome result (λ event. place_by ids.now (node_of (frames_of sent.now) event.now) ≡ Some place) }
{
    for event in events {
        if is_at(sent, ids, place, event) {
            return Some(event);
        }
    }
    None
}

// The node at this place is asked for its event, if there is one that may come before its turn, and
// that wasn't asked for yet.
fn work<N: ClusterNode, R: Threads + Sync>(
    rt: &R,
    slot: &mut Slot<N>,
    place: usize,
    ids: &[u64],
    sent: &SentFrames,
    history: &[Recorded],
    events: &[ClusterEvent],
)
    ensures { IsWorked N.acts ids.now (frames_of sent.now) history.now events.now place slot.old.node slot.old.answer slot.new.node slot.new.answer }
{
    if let Some(event) = event_at(sent, ids, place, events) {
        let _ = ask_ahead(rt, slot, sent, history, events, event);
    }
}

/// The ids of these nodes.
pub fn ids_of<N: ClusterNode>(alloc: Global, slots: &[Slot<N>]) -> Result<Vec<u64>, AllocError>
    ensures { IfOk result (λ ids. ids.items ≡ map (λ slot. N.acts.id slot.node) slots.now) }
{
    let mut ids = Vec::new(alloc);
    for slot in slots {
        ids.push(slot.node.id())?;
    }
    Ok(ids)
}

// The same for each place, on threads.
fn work_each<N: ClusterNode + Send, R: Threads + Sync>(
    rt: &R,
    slots: &mut [Slot<N>],
    ids: &[u64],
    sent: &SentFrames,
    history: &[Recorded],
    events: &[ClusterEvent],
)
where
    N::Machine: Send,
    N::Settings: Send,
    ensures length { length slots.new ≡ length slots.old }
    ensures worked { (place : ℕ) (old : _) (new : _) → slice_get slots.old place ≡ Some old → slice_get slots.new place ≡ Some new
        → IsWorked N.acts ids.now (frames_of sent.now) history.now events.now place old.node old.answer new.node new.answer }
{
    let threads = slots.len().max(1);
    for_each_mut(
        rt,
        slots,
        threads,
        &|place, slot: &mut Slot<N>|
            ensures { IsWorked N.acts ids.entry.now (frames_of sent.entry.now) history.entry.now events.entry.now place slot.old.node slot.old.answer slot.new.node slot.new.answer }
        { work(rt, slot, place, ids, sent, history, events) },
    );
}

/// The events that may come before their turns come to their nodes, each on a thread of its own where
/// one can be made. The nodes are lent in place; one that has an answer keeps it.
pub fn work_all<N: ClusterNode + Send, R: Threads + Sync>(
    rt: &R,
    slots: &mut [Slot<N>],
    ids: &[u64],
    sent: &SentFrames,
    history: &[Recorded],
    events: &[ClusterEvent],
)
where
    N::Machine: Send,
    N::Settings: Send,
    ensures ahead { (before : List _) → AreAhead N.acts ids.now (frames_of sent.now) history.now events.now events.now
        before (map (λ slot. slot.node) slots.old) (map (λ slot. slot.answer) slots.old)
        → AreAhead N.acts ids.now (frames_of sent.now) history.now events.now events.now
        before (map (λ slot. slot.node) slots.new) (map (λ slot. slot.answer) slots.new) }
    ensures kept { (place : ℕ) → slice_get (map (λ slot. slot.answer) slots.new) place ≡ Some None → slice_get (map (λ slot. slot.answer) slots.old) place ≡ Some None }
{
    work_each(rt, slots, ids, sent, history, events);
}
