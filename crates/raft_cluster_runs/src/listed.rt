//! A script on a cluster that keeps the list of each group. Behind a line's answer stand the entries by
//! which it made a list of groups 7 to 9 longer: log ids of term, node and place, with their kinds.

use crate::kind::{NodeKind, cluster_of};
use crate::lines::{Lines, outcomes_from, outcomes_text};
use raft_cluster_events::{ClusterEvent, CrashChoice, EventOutcome, Recorded};
use raft_listed_cluster::ListedCluster;
use raft_script_lines::number_of;
use raft_state::{BasicNode, Bytes, Entry, EntryPayload};
use std::alloc::{AllocError, Global};
use std::thread::Threads;

/// The first group whose list is shown, and the one behind the last.
const FIRST: u64 = 7;

const END: u64 = 10;

/// A cluster, and how long each list was.
#[derive(Drop)]
pub struct Listed<K: NodeKind> {
    alloc: Global,
    cluster: ListedCluster<K::Node>,
    counts: [usize; 3],
    lines: Lines,
}

fn kind(entry: &Entry<u64, BasicNode, Bytes>) -> &'static str {
    match &entry.payload {
        EntryPayload::Blank => "blank",
        EntryPayload::Normal(_) => "command",
        EntryPayload::Membership(_) => "membership",
    }
}

// An entry of a group's list, behind the text.
fn push_entry(
    alloc: Global,
    text: &mut String,
    group: u64,
    entry: &Entry<u64, BasicNode, Bytes>,
) -> Result<(), AllocError> {
    let (id, kind) = (&entry.log_id, kind(entry));
    let (term, node) = (id.leader_id.term, id.leader_id.node_id);
    let part = format!(in alloc; " {group}:{term}-{node}-{}={kind}", id.index)?;
    text.push_str(part.as_str())
}

impl<K: NodeKind> Listed<K> {
    /// No nodes.
    pub fn new<R: Threads + Sync>(rt: &R, alloc: Global) -> Result<Listed<K>, AllocError> {
        let cluster = cluster_of::<K, R>(rt, alloc, 0, 64)?;
        Ok(Listed {
            alloc,
            cluster,
            counts: [0; 3],
            lines: Lines::new(alloc),
        })
    }

    // Nodes from 1 to that number begin.
    fn begin<R: Threads + Sync>(&mut self, rt: &R, count: u64) -> Result<String, AllocError> {
        self.cluster = cluster_of::<K, R>(rt, self.alloc, count, 64)?;
        String::from_str(self.alloc, "ok")
    }

    // The events of a line happen, and are answered by what came of them.
    fn happen<R: Threads + Sync>(&mut self, rt: &R, line: &str) -> Result<String, AllocError> {
        let at = self.cluster.history().len();
        let events = self.lines.events(&self.cluster, line)?;
        let has_events = !events.is_empty();
        K::run(rt, &mut self.cluster, events);
        if has_events {
            outcomes_from(self.alloc, &self.cluster, at)
        } else {
            String::from_str(self.alloc, "ok")
        }
    }

    // The record of this number, if there is one.
    fn record(&self, at: usize) -> &[Recorded] {
        self.cluster
            .history()
            .get(at..at.saturating_add(1))
            .unwrap_or(&[])
    }

    // The node whose machine stopped in the event of this number, if one did.
    fn stopped(&self, at: usize) -> Option<u64> {
        match self.record(at) {
            [recorded] if matches!(recorded.outcome, EventOutcome::Stopped(_)) => {
                self.cluster.node_of(&recorded.event)
            }
            _ => None,
        }
    }

    // The event of a line happens behind its fuse. A node that stopped in it crashes, and leaves what the
    // choice says.
    fn happen_fused<R: Threads + Sync>(
        &mut self,
        rt: &R,
        line: &str,
        choice: CrashChoice,
    ) -> Result<String, AllocError> {
        let at = self.cluster.history().len().saturating_add(1);
        let events = self.lines.events(&self.cluster, line)?;
        K::run(rt, &mut self.cluster, events);
        let Some(node) = self.stopped(at) else {
            return outcomes_text(self.alloc, self.record(at));
        };
        let mut crash = Vec::new(self.alloc);
        crash.push(ClusterEvent::Crash { node, choice })?;
        K::run(rt, &mut self.cluster, crash);
        String::from_str(self.alloc, "stopped")
    }

    // The entries by which the group's list is longer than it was, behind the text.
    fn push_entries(&mut self, text: &mut String, group: u64) -> Result<(), AllocError> {
        let Some(list) = self.cluster.list(group) else {
            return Ok(());
        };
        let count = &mut self.counts[(group.saturating_sub(FIRST) as usize).min(2)];
        for place in *count..list.len() {
            if let Some(entry) = list.get(place) {
                push_entry(self.alloc, text, group, entry)?;
            }
        }
        *count = list.len();
        Ok(())
    }

    // A line of events; one with `most` before a fuse leaves what reads see.
    fn events_line<R: Threads + Sync>(&mut self, rt: &R, line: &str) -> Result<String, AllocError> {
        match line.strip_prefix("most ") {
            Some(fused) => self.happen_fused(rt, fused, CrashChoice::Most),
            None if line.starts_with("fuse ") => self.happen_fused(rt, line, CrashChoice::Least),
            None => self.happen(rt, line),
        }
    }

    /// What a line is answered by. It may have several events, with `; ` between them.
    pub fn line<R: Threads + Sync>(&mut self, rt: &R, line: &str) -> Result<String, AllocError> {
        let mut text = match line.strip_prefix("nodes ") {
            Some(count) => self.begin(rt, number_of(count).unwrap_or(0))?,
            None => self.events_line(rt, line)?,
        };
        for group in FIRST..END {
            self.push_entries(&mut text, group)?;
        }
        Ok(text)
    }
}
