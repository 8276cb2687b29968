//! A cluster.
ghost use Rattle.std.specs.Prelude.{◌≡◌, ◌≤◌, [], not, true, take, IfErr, IfOk, OnOk, OnErr, vec_len};
ghost use Rattle.std.specs.Option.{option_copied};
ghost use Rattle.raft_sent_frames.specs.Frames.{frames_of};
ghost use Rattle.raft_cluster.specs.Facts.{node_in, node_of};
ghost use Rattle.raft_node_laws.specs.Law.{KeepsLaw};
ghost use Rattle.raft_cluster.specs.Cluster.{IsReached, Runs, Steps};
ghost use Rattle.raft_cluster.specs.Joined.{HasHeadline, ids_of};
ghost use Rattle.raft_cluster.specs.Round.{Rounds, is_for_nodes, is_round};
ghost use Rattle.raft_cluster.specs.Told.{told_at};

use crate::facts::node_of;
use crate::front::run_front;
use crate::round::{RoundRefusal, ids_of, is_round};
use crate::slot::{Slot, slot_of, take_turn};
use crate::told::told_of;
use raft_cluster_events::{ClusterEvent, ClusterNode, Recorded};
use raft_machines::Told;
use raft_sent_frames::{SentFrame, SentFrames};
use std::alloc::{AllocError, Global};
use std::marker::Model;
use std::thread::Threads;

/// Nodes, the frames that they sent, and all that happened (own). Frames are numbered for each group,
/// from 0 in the order of sending, and none is ever taken away: one may come late, twice or never.
#[derive(Drop)]
pub struct Cluster<N: ClusterNode> {
    alloc: Global,
    slots: Vec<Slot<N>>,
    sent: SentFrames,
    history: Vec<Recorded>,
}

impl<N: ClusterNode> Model for Cluster<N> {
    ghost use Rattle.raft_sent_frames.specs.Frames.{frames_of};
    ghost use Rattle.std.specs.Prelude.{map};
    ghost use Rattle.raft_cluster.specs.Cluster.{ClusterValue, IsReached};
    ghost use Rattle.raft_cluster.specs.Round.{are_idle};

    ghost Value = { ClusterValue N };

    ghost view = { λ c. record { nodes = map (λ slot. slot.node) c.slots.items; sent = c.sent; history = c.history.items } };

    ghost invariant = { λ c. IsReached N.acts (map (λ slot. slot.node) c.slots.items) (frames_of c.sent) c.history.items × are_idle (map (λ slot. slot.answer) c.slots.items) };
}

impl<N: ClusterNode> Cluster<N> {
    /// A cluster of nodes of these ids that have nothing. A node whose files can't be opened is down.
    /// Where an id stands twice its first node gets the events.
    pub fn new<R: Threads + Sync>(
        rt: &R,
        alloc: Global,
        ids: &[u64],
        settings: &N::Settings,
    ) -> Result<Cluster<N>, AllocError>
        ensures ids { IfOk result (λ c. ids_of N.acts c.nodes ≡ ids.now) }
        ensures sent { IfOk result (λ c. c.sent ≡ []) }
        ensures history { IfOk result (λ c. c.history ≡ []) }
    {
        let mut slots = Vec::new(alloc);
        for id in ids {
            slots.push(Slot::new(N::begin(rt, alloc, *id, settings)?))?;
        }
        Ok(Cluster {
            alloc,
            slots,
            sent: SentFrames::new(alloc),
            history: Vec::new(alloc),
        })
    }

    /// One event. An `Err` is want of memory before it, and changes nothing.
    pub fn step<R: Threads + Sync>(&mut self, rt: &R, event: ClusterEvent) -> Result<(), AllocError>
        ensures ok { OnOk result (Steps N.acts self.old event self.new) }
        ensures err { OnErr result (self.new ≡ self.old) }
        ensures headline { KeepsLaw N.Machine.rules N.acts N.states → HasHeadline N.Machine.rules N.acts N.states self.new.nodes (frames_of self.new.sent) self.new.history }
    {
        self.replays();
        self.history.reserve(1)?;
        let outcome = take_turn(
            rt,
            self.alloc,
            &mut self.slots,
            &mut self.sent,
            self.history.as_slice(),
            &event,
        )?;
        self.history.push(Recorded { event, outcome }).unwrap();
        self.replays();
        Ok(())
    }

    /// Runs events in order, and says how many (own). Fewer than all only for want of memory before
    /// one. Where the nodes keep their law, all that happened keeps the headline of each group.
    pub fn run<R: Threads + Sync>(&mut self, rt: &R, events: Vec<ClusterEvent>) -> usize
        ensures within { result ≤ vec_len events }
        ensures runs { Runs N.acts self.old (take result events.items) self.new }
        ensures headline { KeepsLaw N.Machine.rules N.acts N.states → HasHeadline N.Machine.rules N.acts N.states self.new.nodes (frames_of self.new.sent) self.new.history }
    {
        let mut count = 0;
        for event in events {
            let Ok(()) = self.step(rt, event) else {
                self.replays();
                return count;
            };
            count += 1;
        }
        self.replays();
        count
    }

    /// The history leads to the nodes and frames that there are, from nodes that had nothing. Where the
    /// nodes keep their law, it keeps the headline of each group.
    pub fn replays(&self)
        ensures reached { IsReached N.acts self.now.nodes (frames_of self.now.sent) self.now.history }
        ensures headline { KeepsLaw N.Machine.rules N.acts N.states → HasHeadline N.Machine.rules N.acts N.states self.now.nodes (frames_of self.now.sent) self.now.history }
    {
        let _ = &self.history;
    }

    /// The node of this id, lent, if there is one.
    pub fn node(&self, id: u64) -> Option<&N>
        ensures { option_copied result ≡ node_in N.acts self.now.nodes id }
    {
        match slot_of(self.slots.as_slice(), id) {
            Some(slot) => Some(&slot.node),
            None => None,
        }
    }

    /// The id of the node that an event is for; none where it delivers a frame that wasn't sent.
    pub fn node_of(&self, event: &ClusterEvent) -> Option<u64>
        ensures { result ≡ node_of (frames_of self.now.sent) event.now }
    {
        node_of(&self.sent, event)
    }

    /// Whether these events make a round: each is for another node, and delivers no frame that wasn't
    /// sent yet. A round that isn't one is refused (C8).
    pub fn is_round(&self, events: &[ClusterEvent]) -> bool
        ensures { result ≡ is_round (frames_of self.now.sent) events.now }
    {
        is_round(&self.sent, events)
    }

    /// The group's frames, lent, in the order of sending.
    pub fn frames(&self, group: u64) -> &[SentFrame]
        ensures { result.now ≡ frames_of self.now.sent group }
    {
        self.sent.frames(group)
    }

    /// What the event of this number told for a group, lent: tokens with their places and the machine's
    /// answers, by rising place. Nothing where there is no such event. Events count from 0.
    pub fn told(&self, number: usize, group: u64) -> &[Told]
        ensures { result.now ≡ told_at self.now.history number group }
    {
        match self.history.get(number) {
            Some(recorded) => told_of(&recorded.outcome, group),
            None => &[],
        }
    }

    /// All events with their outcomes, in order, lent.
    pub fn history(&self) -> &[Recorded]
        ensures { result.now ≡ self.now.history }
    {
        self.history.as_slice()
    }
}

impl<N: ClusterNode + Send> Cluster<N>
where
    N::Machine: Send,
    N::Settings: Send,
{
    /// Runs the events of a round, each for another node, at once, and says how many happened (own): the
    /// round ends before the first crash for which its node lacks memory, as `run` does. The nodes are
    /// lent to threads in place. What comes of it is what `run` gives on these events in their order:
    /// outcomes, numbers of frames, nodes, history. Crashes are asked of their nodes before the threads,
    /// set-ups of one group behind them. An `Err` changes nothing: C8 where two events are for one node,
    /// or a frame wasn't sent before the round, else C10.
    pub fn run_round<R: Threads + Sync>(
        &mut self,
        rt: &R,
        events: Vec<ClusterEvent>,
    ) -> Result<usize, RoundRefusal>
        ensures runs { IfOk result (λ count. Rounds N.acts self.old events.items count self.new) }
        ensures round { OnOk result (is_round (frames_of self.old.sent) events.items ≡ true) }
        ensures why { IfErr result (λ why. is_for_nodes why ≡ not (is_round (frames_of self.old.sent) events.items)) }
        ensures err { OnErr result (self.new ≡ self.old) }
        ensures headline { KeepsLaw N.Machine.rules N.acts N.states → HasHeadline N.Machine.rules N.acts N.states self.new.nodes (frames_of self.new.sent) self.new.history }
    {
        self.replays();
        if !is_round(&self.sent, events.as_slice()) {
            return Err(RoundRefusal::SameNode);
        }
        let Ok(ids) = ids_of(self.alloc, self.slots.as_slice()) else {
            return Err(RoundRefusal::Memory);
        };
        let Ok(()) = self.history.reserve(events.len()) else {
            self.replays();
            return Err(RoundRefusal::Memory);
        };
        let count = run_front(
            rt,
            self.alloc,
            &mut self.slots,
            ids.as_slice(),
            &mut self.sent,
            &mut self.history,
            events,
        );
        self.replays();
        Ok(count)
    }
}
