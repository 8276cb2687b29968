//! A round: crashes are asked for, other events are worked on threads, then the turns of all come.
ghost use Rattle.std.specs.Prelude.{◌≡◌, ◌≤◌, ◌+◌, ℕ, List, map, true, vec_capacity, vec_len};
ghost use Rattle.raft_sent_frames.specs.Frames.{frames_of};
ghost use Rattle.raft_cluster.specs.Round.{AreAhead, AreAsked, RunsFront, TakesTurns, are_idle, is_round};

use crate::crashes::ask_crashes;
use crate::round::work_all;
use crate::slot::{Slot, take_turn};
use raft_cluster_events::{ClusterEvent, ClusterNode, Recorded};
use raft_sent_frames::SentFrames;
use std::alloc::Global;
use std::thread::Threads;

// The turns of the events come, one after another. Each crash among them was asked for, unless it is
// turned away, so no node lacks memory for one now.
fn settle_all<N: ClusterNode, R: Threads + Sync>(
    rt: &R,
    alloc: Global,
    slots: &mut Vec<Slot<N>>,
    sent: &mut SentFrames,
    history: &mut Vec<Recorded>,
    events: Vec<ClusterEvent>,
)
    requires room { vec_len history.old + vec_len events ≤ vec_capacity history.old }
    ensures { (ids : List ℕ) (before : List _)
        → is_round (frames_of sent.old) events.items ≡ true
        → AreAhead N.acts ids (frames_of sent.old) history.old.items events.items events.items before
        (map (λ slot. slot.node) slots.old.items) (map (λ slot. slot.answer) slots.old.items)
        → AreAsked N.acts ids (frames_of sent.old) history.old.items events.items before (map (λ slot. slot.answer) slots.old.items)
        → TakesTurns N.acts (frames_of sent.old) history.old.items before events.items
        (map (λ slot. slot.node) slots.new.items) (map (λ slot. slot.answer) slots.new.items) (frames_of sent.new) history.new.items }
{
    for event in events {
        let Ok(outcome) = take_turn(rt, alloc, slots, sent, history.as_slice(), &event) else {
            return;
        };
        history.push_reserved(Recorded { event, outcome });
    }
}

/// Runs the events of a round, and says how many: those before the first crash for which its node lacks
/// memory, or all. Crashes are asked for first, since what stands behind such a one mustn't come to its
/// node. The others are worked on threads, and then the turns of all come. Nothing else lacks memory.
pub fn run_front<N: ClusterNode + Send, R: Threads + Sync>(
    rt: &R,
    alloc: Global,
    slots: &mut Vec<Slot<N>>,
    ids: &[u64],
    sent: &mut SentFrames,
    history: &mut Vec<Recorded>,
    mut events: Vec<ClusterEvent>,
) -> usize
where
    N::Machine: Send,
    N::Settings: Send,
    requires ids { ids.now ≡ map (λ slot. N.acts.id slot.node) slots.old.items }
    requires idle { are_idle (map (λ slot. slot.answer) slots.old.items) }
    requires round { is_round (frames_of sent.old) events.items ≡ true }
    requires room { vec_len history.old + vec_len events ≤ vec_capacity history.old }
    ensures { RunsFront N.acts (frames_of sent.old) history.old.items (map (λ slot. slot.node) slots.old.items) events.items result
        (map (λ slot. slot.node) slots.new.items) (map (λ slot. slot.answer) slots.new.items) (frames_of sent.new) history.new.items }
{
    let count = ask_crashes(rt, slots, sent, history.as_slice(), events.as_slice());
    events.truncate(count);
    work_all(
        rt,
        slots.as_mut_slice(),
        ids,
        sent,
        history.as_slice(),
        events.as_slice(),
    );
    settle_all(rt, alloc, slots, sent, history, events);
    count
}
