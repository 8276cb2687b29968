//! Two clusters that are to stay the same.

use crate::kind::{RoundKind, cluster_of};
use crate::lines::{Lines, outcomes_from};
use raft_cluster_events::ClusterNode;
use raft_listed_cluster::{ListedCluster, RoundRefusal};
use raft_machines::AddingMachine;
use raft_sent_frames::SentFrame;
use raft_state::{BasicNode, Bytes, Entry, EntryPayload};
use std::alloc::{AllocError, Global};
use std::thread::Threads;

type GroupEntry = Entry<u64, BasicNode, Bytes>;

/// The first group that lines name, and the one behind the last.
const FIRST: u64 = 7;

const END: u64 = 10;

/// One cluster runs rounds, and the other one the same events one after another.
#[derive(Drop)]
pub struct Pair<K: RoundKind> {
    alloc: Global,
    rounds: ListedCluster<K::Node>,
    alone: ListedCluster<K::Node>,
    lines: Lines,
}

// Whether both entries are the same.
fn is_same_entry(first: &GroupEntry, other: &GroupEntry) -> bool {
    let is_same = match (&first.payload, &other.payload) {
        (EntryPayload::Blank, EntryPayload::Blank) => true,
        (EntryPayload::Normal(first), EntryPayload::Normal(other)) => {
            first.as_slice() == other.as_slice()
        }
        (EntryPayload::Membership(first), EntryPayload::Membership(other)) => first == other,
        _ => false,
    };
    is_same && first.log_id == other.log_id
}

// Whether both lists have the same at a place.
fn has_same_place<N: ClusterNode>(
    first: &ListedCluster<N>,
    other: &ListedCluster<N>,
    group: u64,
    place: usize,
) -> bool {
    match (first.entry(group, place), other.entry(group, place)) {
        (Some(first), Some(other)) => is_same_entry(first, other),
        _ => false,
    }
}

// Whether both clusters have the same list of a group.
fn has_same_list<N: ClusterNode>(
    first: &ListedCluster<N>,
    other: &ListedCluster<N>,
    group: u64,
) -> bool {
    let count = first.list_len(group);
    (0..count).all(|place| has_same_place(first, other, group, place))
        && count == other.list_len(group)
}

// Whether both frames are the same.
fn is_same_frame(first: &SentFrame, other: &SentFrame) -> bool {
    first.sender == other.sender
        && first.peer == other.peer
        && first.bytes.as_slice() == other.bytes.as_slice()
        && first.accepts == other.accepts
}

// Whether both clusters have the same frames of a group.
fn has_same_frames<N: ClusterNode>(
    first: &ListedCluster<N>,
    other: &ListedCluster<N>,
    group: u64,
) -> bool {
    let (first, other) = (first.frames(group), other.frames(group));
    for (one, another) in first.iter().zip(other) {
        if !is_same_frame(one, another) {
            return false;
        }
    }
    first.len() == other.len()
}

// The total of a group at a node.
fn total<N: ClusterNode<Machine = AddingMachine>>(
    cluster: &ListedCluster<N>,
    node: u64,
    group: u64,
) -> Option<u64> {
    let machine = cluster.node(node)?.machine(group)?;
    Some(machine.total())
}

// Whether both clusters have the same of a group.
fn is_same_group<N: ClusterNode<Machine = AddingMachine>>(
    first: &ListedCluster<N>,
    other: &ListedCluster<N>,
    group: u64,
) -> bool {
    for node in 1..4 {
        if total(first, node, group) != total(other, node, group) {
            return false;
        }
    }
    has_same_list(first, other, group) && has_same_frames(first, other, group)
}

impl<K: RoundKind> Pair<K> {
    /// Three nodes each that have nothing.
    pub fn new<R: Threads + Sync>(rt: &R, alloc: Global) -> Result<Pair<K>, AllocError> {
        let rounds = cluster_of::<K, R>(rt, alloc, 3, 64)?;
        let alone = cluster_of::<K, R>(rt, alloc, 3, 64)?;
        Ok(Pair {
            alloc,
            rounds,
            alone,
            lines: Lines::new(alloc),
        })
    }

    // How many entries the lists have, all together.
    fn entries(&self) -> usize {
        let mut count: usize = 0;
        for group in FIRST..END {
            count = count.saturating_add(self.rounds.list_len(group));
        }
        count
    }

    // Whether both clusters have the same frames, totals and lists.
    fn is_same(&self) -> bool {
        for group in FIRST..END {
            if !is_same_group(&self.rounds, &self.alone, group) {
                return false;
            }
        }
        true
    }

    // The same events happen on the other cluster, with the same tokens. They give so many in a round, and
    // this came of them.
    fn is_same_alone<R: Threads + Sync>(
        &mut self,
        rt: &R,
        line: &str,
        count: usize,
        outcomes: &str,
    ) -> Result<bool, AllocError> {
        let at = self.alone.history().len();
        let events = self.lines.events(&self.alone, line)?;
        let ran = K::run(rt, &mut self.alone, events);
        let alone = outcomes_from(self.alloc, &self.alone, at)?;
        Ok(ran == count && alone.as_str() == outcomes && self.is_same())
    }

    // What came of a round that wasn't refused, how many entries the lists have where that is another
    // number than before, and whether the other cluster isn't the same behind the events.
    fn behind<R: Threads + Sync>(
        &mut self,
        rt: &R,
        line: &str,
        count: usize,
        at: usize,
        entries: usize,
    ) -> Result<String, AllocError> {
        let mut text = outcomes_from(self.alloc, &self.rounds, at)?;
        let is_same = self.is_same_alone(rt, line, count, text.as_str())?;
        if self.entries() != entries {
            text.push_str(format!(in self.alloc; ", {} entries", self.entries())?.as_str())?;
        }
        text.push_str(if is_same { "" } else { " differs" })?;
        Ok(text)
    }

    /// A line is a round on the one cluster, and events on the other one. What came of them is answered.
    pub fn line<R: Threads + Sync>(&mut self, rt: &R, line: &str) -> Result<String, AllocError> {
        let (at, tokens) = (self.rounds.history().len(), self.lines.tokens);
        let entries = self.entries();
        let events = self.lines.events(&self.rounds, line)?;
        self.lines.tokens = tokens;
        match K::run_round(rt, &mut self.rounds, events) {
            Ok(count) => self.behind(rt, line, count, at, entries),
            Err(RoundRefusal::SameNode) => String::from_str(self.alloc, "C8 SameNode"),
            Err(RoundRefusal::Memory) => String::from_str(self.alloc, "C10"),
        }
    }
}
