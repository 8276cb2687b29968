//! The nodes of a round's crashes are asked before all others.
ghost use Rattle.std.specs.Prelude.{◌≡◌, ◌<◌, ◌≤◌, ℕ, List, Some, None, length, map, slice_get, take, OnErr, OnOk};
ghost use Rattle.raft_sent_frames.specs.Frames.{frames_of};
ghost use Rattle.raft_cluster_events.specs.declared.event.ClusterEvent.{ClusterEvent as Event};
ghost use Rattle.raft_cluster_events.specs.declared.outcome.CrashRefusal.TheVariants.{Memory};
ghost use Rattle.raft_cluster.specs.Cluster.{IsRefusedFor};
ghost use Rattle.raft_cluster.specs.Round.{AreAhead, AreAsked, IsAsked, IsIn, LacksMemoryAt, are_idle, is_crash};

use crate::facts::node_of;
use crate::round::ask_ahead;
use crate::slot::{Slot, place_of};
use raft_cluster_events::{ClusterEvent, ClusterNode, Recorded};
use raft_sent_frames::SentFrames;
use std::alloc::AllocError;
use std::thread::Threads;

// Whether an event is a crash.
fn is_crash(event: &ClusterEvent) -> bool
    ensures { result ≡ is_crash event.now }
{
    matches!(event, ClusterEvent::Crash { .. })
}

// If an event is a crash that isn't turned away, its node is asked for it. An `Err` is the node's want
// of memory, and changes nothing.
fn ask_if_crash<N: ClusterNode, R: Threads + Sync>(
    rt: &R,
    slots: &mut Vec<Slot<N>>,
    sent: &SentFrames,
    history: &[Recorded],
    events: &[ClusterEvent],
    event: &ClusterEvent,
) -> Result<(), AllocError>
    ensures ahead { (ids : List ℕ) (left : List Event) (before : List _) → IsIn left event.now
        → AreAhead N.acts ids (frames_of sent.now) history.now events.now left before (map (λ slot. slot.node) slots.old.items) (map (λ slot. slot.answer) slots.old.items)
        → AreAhead N.acts ids (frames_of sent.now) history.now events.now left before (map (λ slot. slot.node) slots.new.items) (map (λ slot. slot.answer) slots.new.items) }
    ensures kept { (place : ℕ) → slice_get (map (λ slot. slot.answer) slots.new.items) place ≡ Some None → slice_get (map (λ slot. slot.answer) slots.old.items) place ≡ Some None }
    ensures asked { OnOk result ((ids : List ℕ) (left : List Event) (before : List _)
        → AreAhead N.acts ids (frames_of sent.now) history.now events.now left before (map (λ slot. slot.node) slots.old.items) (map (λ slot. slot.answer) slots.old.items)
        → IsAsked N.acts ids (frames_of sent.now) history.now event.now before (map (λ slot. slot.answer) slots.new.items)) }
    ensures memory { OnErr result ((ids : List ℕ) (left : List Event) (before : List _)
        → AreAhead N.acts ids (frames_of sent.now) history.now events.now left before (map (λ slot. slot.node) slots.old.items) (map (λ slot. slot.answer) slots.old.items)
        → IsRefusedFor N.acts before (frames_of sent.now) event.now Memory) }
    ensures nodes { OnErr result (map (λ slot. slot.node) slots.new.items ≡ map (λ slot. slot.node) slots.old.items) }
    ensures answers { OnErr result (map (λ slot. slot.answer) slots.new.items ≡ map (λ slot. slot.answer) slots.old.items) }
{
    if !is_crash(event) {
        return Ok(());
    }
    match place_of(slots.as_slice(), node_of(sent, event)) {
        Some(place) => ask_ahead(rt, &mut slots[place], sent, history, events, event),
        None => Ok(()),
    }
}

/// The nodes of these events' crashes are asked, one after another, up to the first one that lacks
/// memory. Says how many events come before that, or how many there are.
pub fn ask_crashes<N: ClusterNode, R: Threads + Sync>(
    rt: &R,
    slots: &mut Vec<Slot<N>>,
    sent: &SentFrames,
    history: &[Recorded],
    events: &[ClusterEvent],
) -> usize
    requires idle { are_idle (map (λ slot. slot.answer) slots.old.items) }
    ensures within { result ≤ length events.now }
    ensures ahead { (ids : List ℕ) → ids ≡ map (λ slot. N.acts.id slot.node) slots.old.items
        → AreAhead N.acts ids (frames_of sent.now) history.now events.now (take result events.now)
        (map (λ slot. slot.node) slots.old.items) (map (λ slot. slot.node) slots.new.items) (map (λ slot. slot.answer) slots.new.items) }
    ensures asked { (ids : List ℕ) → ids ≡ map (λ slot. N.acts.id slot.node) slots.old.items
        → AreAsked N.acts ids (frames_of sent.now) history.now (take result events.now)
        (map (λ slot. slot.node) slots.old.items) (map (λ slot. slot.answer) slots.new.items) }
    ensures ends { result < length events.now → LacksMemoryAt N.acts (map (λ slot. slot.node) slots.old.items) (frames_of sent.now) events.now result }
{
    for (count, event) in events.iter().enumerate() {
        let Ok(()) = ask_if_crash(rt, slots, sent, history, events, event) else {
            return count;
        };
    }
    events.len()
}
