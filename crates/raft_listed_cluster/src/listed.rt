//! A cluster with the list of each group.
ghost use Rattle.std.specs.Prelude.{◌≡◌, ◌≤◌, ℕ, [], not, true, length, slice_get, take, IfErr, IfOk, MatchOption, OnOk, OnErr, vec_len};
ghost use Rattle.std.specs.Option.{option_copied};
ghost use Rattle.raft_sent_frames.specs.Frames.{frames_of};
ghost use Rattle.raft_group_lists.specs.Notes.{accounts_of};
ghost use Rattle.raft_node_laws.specs.Law.{KeepsLaw};
ghost use Rattle.raft_cluster.specs.Cluster.{IsReached, Runs, Steps};
ghost use Rattle.raft_cluster.specs.Facts.{node_in, node_of};
ghost use Rattle.raft_cluster.specs.Joined.{ids_of};
ghost use Rattle.raft_cluster.specs.Round.{Rounds, is_for_nodes, is_round};
ghost use Rattle.raft_cluster.specs.Told.{told_at};
ghost use Rattle.raft_listed_cluster.specs.Listed.{HasLists, OnlyGrow, lists_of};

use crate::hearing::{hear_step, leading_at, sent_in};
use crate::round::{hear_round, prepare_round};
use raft_cluster::{Cluster, RoundRefusal};
use raft_cluster_events::{ClusterEvent, ClusterNode, Recorded};
use raft_cluster_lists::{ClusterLists, group_of};
use raft_group_lists::GroupList;
use raft_machines::Told;
use raft_sent_frames::SentFrame;
use raft_state::{BasicNode, Bytes, Entry};
use std::alloc::{AllocError, Global};
use std::marker::Model;
use std::thread::Threads;

/// A cluster, and the list of each group: all entries that were chosen there (own). It is used in place
/// of a `Cluster`.
#[derive(Drop)]
pub struct ListedCluster<N: ClusterNode> {
    alloc: Global,
    cluster: Cluster<N>,
    lists: ClusterLists,
}

impl<N: ClusterNode> Model for ListedCluster<N> {
    ghost use Rattle.raft_sent_frames.specs.Frames.{frames_of};
    ghost use Rattle.raft_node_laws.specs.Law.{KeepsLaw};
    ghost use Rattle.raft_listed_cluster.specs.Listed.{ListedValue};
    ghost use Rattle.raft_listed_cluster.specs.Keeping.{KeepsLists};

    ghost Value = { ListedValue N };

    ghost view = { λ c. record { cluster = c.cluster; groups = c.lists } };

    ghost invariant = { λ c. KeepsLaw N.Machine.rules N.acts N.states → KeepsLists N.Machine.rules N.acts N.states c.cluster.nodes (frames_of c.cluster.sent) c.cluster.history c.lists };
}

impl<N: ClusterNode> ListedCluster<N> {
    /// A cluster of nodes of these ids that have nothing. A node whose files can't be opened is down.
    /// Where an id stands twice its first node gets the events. Each group's list is empty.
    pub fn new<R: Threads + Sync>(
        rt: &R,
        alloc: Global,
        ids: &[u64],
        settings: &N::Settings,
    ) -> Result<ListedCluster<N>, AllocError>
        ensures ids { IfOk result (λ c. ids_of N.acts c.cluster.nodes ≡ ids.now) }
        ensures sent { IfOk result (λ c. c.cluster.sent ≡ []) }
        ensures history { IfOk result (λ c. c.cluster.history ≡ []) }
        ensures lists { IfOk result (λ c. (group : ℕ) → lists_of c.groups group ≡ []) }
    {
        let cluster = Cluster::new(rt, alloc, ids, settings)?;
        cluster.replays();
        Ok(ListedCluster {
            alloc,
            cluster,
            lists: ClusterLists::new(alloc),
        })
    }

    /// One event. An `Err` is want of memory before it, and changes nothing.
    pub fn step<R: Threads + Sync>(&mut self, rt: &R, event: ClusterEvent) -> Result<(), AllocError>
        ensures ok { OnOk result (Steps N.acts self.old.cluster event self.new.cluster) }
        ensures err { OnErr result (self.new.cluster ≡ self.old.cluster) }
        ensures err_lists { OnErr result ((group : ℕ) → lists_of self.new.groups group ≡ lists_of self.old.groups group) }
        ensures lists { KeepsLaw N.Machine.rules N.acts N.states → HasLists N.Machine.rules N.acts N.states self.new }
        ensures grow { KeepsLaw N.Machine.rules N.acts N.states → OnlyGrow (lists_of self.old.groups) (lists_of self.new.groups) }
    {
        let id = self.cluster.node_of(&event);
        let group = group_of(&event);
        let leading = leading_at(&self.cluster, id, group);
        let brought = self.lists.prepare(&leading, &event, 1)?;
        let count = sent_in(&self.cluster, group);
        self.cluster.step(rt, event)?;
        if let Some(recorded) = self.cluster.history().last() {
            hear_step(&self.cluster, &mut self.lists, id, count, recorded, brought);
        }
        Ok(())
    }

    /// Runs events in order, and says how many (own). Fewer than all only for want of memory before
    /// one. Where the nodes keep their law, the lists are those of which the headline speaks, and each
    /// only grows.
    pub fn run<R: Threads + Sync>(&mut self, rt: &R, events: Vec<ClusterEvent>) -> usize
        ensures within { result ≤ vec_len events }
        ensures runs { Runs N.acts self.old.cluster (take result events.items) self.new.cluster }
        ensures lists { KeepsLaw N.Machine.rules N.acts N.states → HasLists N.Machine.rules N.acts N.states self.new }
        ensures grow { KeepsLaw N.Machine.rules N.acts N.states → OnlyGrow (lists_of self.old.groups) (lists_of self.new.groups) }
    {
        let mut count = 0;
        for event in events {
            let Ok(()) = self.step(rt, event) else {
                self.replays();
                return count;
            };
            count += 1;
        }
        self.replays();
        count
    }

    /// The history leads to the nodes and frames that there are, from nodes that had nothing. Where the
    /// nodes keep their law, the lists are those of which the headline speaks.
    pub fn replays(&self)
        ensures reached { IsReached N.acts self.now.cluster.nodes (frames_of self.now.cluster.sent) self.now.cluster.history }
        ensures lists { KeepsLaw N.Machine.rules N.acts N.states → HasLists N.Machine.rules N.acts N.states self.now }
    {
        self.cluster.replays();
    }

    /// The group's list, lent: its entries by their places. None where no event of the group came yet.
    pub fn list(&self, group: u64) -> Option<&GroupList>
        ensures list { MatchOption (option_copied result) (lists_of self.now.groups group ≡ []) (λ kept. lists_of self.now.groups group ≡ (accounts_of kept.notes).list) }
        ensures lists { KeepsLaw N.Machine.rules N.acts N.states → HasLists N.Machine.rules N.acts N.states self.now }
    {
        let kept = self.lists.get(group)?;
        Some(&kept.list)
    }

    /// How many entries the group's list has.
    pub fn list_len(&self, group: u64) -> usize
        ensures length { result ≡ length (lists_of self.now.groups group) }
        ensures lists { KeepsLaw N.Machine.rules N.acts N.states → HasLists N.Machine.rules N.acts N.states self.now }
    {
        self.lists.list_len(group)
    }

    /// The entry at this place of the group's list, lent; none past its end. The first stands at 0.
    pub fn entry(&self, group: u64, place: usize) -> Option<&Entry<u64, BasicNode, Bytes>>
        ensures entry { option_copied result ≡ slice_get (lists_of self.now.groups group) place }
        ensures lists { KeepsLaw N.Machine.rules N.acts N.states → HasLists N.Machine.rules N.acts N.states self.now }
    {
        self.lists.entry(group, place)
    }

    /// The node of this id, lent, if there is one.
    pub fn node(&self, id: u64) -> Option<&N>
        ensures { option_copied result ≡ node_in N.acts self.now.cluster.nodes id }
    {
        self.cluster.node(id)
    }

    /// The id of the node that an event is for; none where it delivers a frame that wasn't sent.
    pub fn node_of(&self, event: &ClusterEvent) -> Option<u64>
        ensures { result ≡ node_of (frames_of self.now.cluster.sent) event.now }
    {
        self.cluster.node_of(event)
    }

    /// The group's frames, lent, in the order of sending.
    pub fn frames(&self, group: u64) -> &[SentFrame]
        ensures { result.now ≡ frames_of self.now.cluster.sent group }
    {
        self.cluster.frames(group)
    }

    /// What the event of this number told for a group, lent: tokens with their places and the machine's
    /// answers, by rising place. Nothing where there is no such event. Events count from 0.
    pub fn told(&self, number: usize, group: u64) -> &[Told]
        ensures { result.now ≡ told_at self.now.cluster.history number group }
    {
        self.cluster.told(number, group)
    }

    /// All events with their outcomes, in order, lent.
    pub fn history(&self) -> &[Recorded]
        ensures { result.now ≡ self.now.cluster.history }
    {
        self.cluster.history()
    }
}

impl<N: ClusterNode + Send> ListedCluster<N>
where
    N::Machine: Send,
    N::Settings: Send,
{
    /// Runs the events of a round, each for another node, at once, and says how many happened (own): the
    /// round ends before the first crash for which its node lacks memory, as `run` does. What comes of it
    /// is what `run` gives on these events in their order: outcomes, numbers of frames, nodes, history,
    /// and the list of each group, which only grows. The lists hear of the round once it is over; memory
    /// for that is found before it. An `Err` changes nothing: C8 where two events are for one node, or a
    /// frame wasn't sent before the round, else C10.
    pub fn run_round<R: Threads + Sync>(
        &mut self,
        rt: &R,
        events: Vec<ClusterEvent>,
    ) -> Result<usize, RoundRefusal>
        ensures runs { IfOk result (λ count. Rounds N.acts self.old.cluster events.items count self.new.cluster) }
        ensures round { OnOk result (is_round (frames_of self.old.cluster.sent) events.items ≡ true) }
        ensures why { IfErr result (λ why. is_for_nodes why ≡ not (is_round (frames_of self.old.cluster.sent) events.items)) }
        ensures err { OnErr result (self.new.cluster ≡ self.old.cluster) }
        ensures err_lists { OnErr result ((group : ℕ) → lists_of self.new.groups group ≡ lists_of self.old.groups group) }
        ensures lists { KeepsLaw N.Machine.rules N.acts N.states → HasLists N.Machine.rules N.acts N.states self.new }
        ensures grow { KeepsLaw N.Machine.rules N.acts N.states → OnlyGrow (lists_of self.old.groups) (lists_of self.new.groups) }
    {
        if !self.cluster.is_round(events.as_slice()) {
            self.replays();
            return Err(RoundRefusal::SameNode);
        }
        let prepared = prepare_round(
            self.alloc,
            &self.cluster,
            &mut self.lists,
            events.as_slice(),
        );
        let Ok(broughts) = prepared else {
            self.replays();
            return Err(RoundRefusal::Memory);
        };
        let before = self.cluster.history().len();
        let count = self.cluster.run_round(rt, events)?;
        let records = &self.cluster.history()[before..];
        hear_round(&self.cluster, &mut self.lists, records, broughts);
        self.replays();
        Ok(count)
    }
}
