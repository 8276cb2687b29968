//! A node's place in a cluster.
ghost use Rattle.std.specs.Prelude.{◌≡◌, ◌<◌, ◌==◌, None, length, map, position, IfOk, IfSome, OnErr};
ghost use Rattle.std.specs.List.{find};
ghost use Rattle.std.specs.Option.{option_copied};
ghost use Rattle.raft_sent_frames.specs.Frames.{frames_of};
ghost use Rattle.raft_cluster_events.specs.declared.outcome.CrashRefusal.TheVariants.{Memory};
ghost use Rattle.raft_cluster.specs.Facts.{place_in, node_of};
ghost use Rattle.raft_cluster.specs.Happening.{RefusesFor};
ghost use Rattle.raft_cluster.specs.Round.{IsTurned, WantsMemory};
ghost use Rattle.raft_cluster.specs.Turn.{HappensAt, IsAtTurn, refusal_for};

use crate::answer::Answer;
use crate::facts::{node_of, refusal_nowhere};
use crate::happening::{happen_at, settle};
use raft_cluster_events::{ClusterEvent, ClusterNode, EventOutcome, Recorded};
use raft_sent_frames::SentFrames;
use std::alloc::{AllocError, Global};
use std::thread::Threads;

/// A node. In a round it has what it answered to its event, until the turn of that comes.
#[derive(Drop)]
pub struct Slot<N: ClusterNode> {
    pub node: N,
    pub answer: Option<Answer>,
}

impl<N: ClusterNode> Slot<N> {
    /// A node outside of rounds.
    pub fn new(node: N) -> Slot<N>
        ensures node { result.node ≡ node }
        ensures answer { result.answer ≡ None }
    {
        Slot { node, answer: None }
    }

    // The turn of the node's event comes, behind this history: what it answered is settled, or the event
    // happens now. An `Err` is the node's want of memory for a crash, and changes nothing.
    fn turn<R: Threads + Sync>(
        &mut self,
        rt: &R,
        alloc: Global,
        sent: &mut SentFrames,
        history: &[Recorded],
        event: &ClusterEvent,
    ) -> Result<EventOutcome, AllocError>
        ensures left { self.new.answer ≡ None }
        ensures ok { IfOk result (λ o. (before : _)
            → IsAtTurn N.acts (frames_of sent.old) history.now event.now before self.old.node self.old.answer
            → HappensAt N.acts before (frames_of sent.old) history.now event.now o (frames_of sent.new) self.new.node) }
        ensures admitted { OnErr result (refusal_for N.acts self.old.node (frames_of sent.old) history.now event.now ≡ None) }
        ensures memory { OnErr result ((self.old.answer ≡ None) × RefusesFor N.acts event.now self.old.node Memory) }
        ensures node { OnErr result (self.new.node ≡ self.old.node) }
        ensures frames { OnErr result (sent.new ≡ sent.old) }
    {
        match self.answer.take() {
            Some(answer) => Ok(settle(alloc, sent, &mut self.node, answer)),
            None => happen_at(rt, alloc, sent, history, &mut self.node, event),
        }
    }
}

/// The first one of these whose node has this id, lent, if there is one.
pub fn slot_of<N: ClusterNode>(slots: &[Slot<N>], id: u64) -> Option<&Slot<N>>
    ensures { option_copied result ≡ find (λ slot. N.acts.id slot.node == id) slots.now }
{
    slots.iter().find(|slot| slot.node.id() == id)
}

// Where the first node of this id stands among these, if one does.
fn position_of<N: ClusterNode>(slots: &[Slot<N>], id: u64) -> Option<usize>
    ensures first { result ≡ position (λ slot. N.acts.id slot.node == id) slots.now }
    ensures within { IfSome result (λ place. place < length slots.now) }
{
    slots.iter().position(|slot| slot.node.id() == id)
}

/// Where the node of this id stands among these, if it does.
pub fn place_of<N: ClusterNode>(slots: &[Slot<N>], id: Option<u64>) -> Option<usize>
    ensures within { IfSome result (λ place. place < length slots.now) }
    ensures first { result ≡ place_in N.acts (map (λ slot. slot.node) slots.now) id }
{
    match id {
        Some(id) => position_of(slots, id),
        None => None,
    }
}

/// The turn of an event comes, behind this history: it is turned away, or happens at its node, which
/// may have answered it before. An `Err` is the want of memory of a node that is to crash, and changes
/// nothing.
pub fn take_turn<N: ClusterNode, R: Threads + Sync>(
    rt: &R,
    alloc: Global,
    slots: &mut Vec<Slot<N>>,
    sent: &mut SentFrames,
    history: &[Recorded],
    event: &ClusterEvent,
) -> Result<EventOutcome, AllocError>
    ensures ok { IfOk result (λ o. IsTurned N.acts (frames_of sent.old) history.now event.now
        (map (λ slot. slot.node) slots.old.items) (map (λ slot. slot.answer) slots.old.items)
        o (map (λ slot. slot.node) slots.new.items) (map (λ slot. slot.answer) slots.new.items) (frames_of sent.new)) }
    ensures memory { OnErr result (WantsMemory N.acts (frames_of sent.old) history.now event.now (map (λ slot. slot.node) slots.old.items) (map (λ slot. slot.answer) slots.old.items)) }
    ensures nodes { OnErr result (map (λ slot. slot.node) slots.new.items ≡ map (λ slot. slot.node) slots.old.items) }
    ensures answers { OnErr result (map (λ slot. slot.answer) slots.new.items ≡ map (λ slot. slot.answer) slots.old.items) }
    ensures frames { OnErr result (sent.new ≡ sent.old) }
{
    match place_of(slots.as_slice(), node_of(sent, event)) {
        Some(place) => slots[place].turn(rt, alloc, sent, history, event),
        None => Ok(EventOutcome::TurnedAway(refusal_nowhere(sent, history, event))),
    }
}
