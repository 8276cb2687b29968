//! Nodes take so many commands that rounds on threads can be timed. A task is a line such as
//! `round 8 50 1000`: how it is done, how many nodes there are, how many rounds, and how many bytes a
//! command has. Each node is the only voter of a group of its own, and takes a command a round.

use crate::kind::{RoundKind, cluster_of};
use crate::lines::Lines;
use raft_cluster_events::{ClusterEvent, EventOutcome};
use raft_group_step::GroupCall;
use raft_listed_cluster::ListedCluster;
use raft_script_lines::number_of;
use raft_state::Bytes;
use std::alloc::{AllocError, Global};
use std::thread::Threads;

/// Whether a round's events come to their nodes at once, how many nodes take how many commands each, and
/// of how many bytes.
#[derive(Clone, Copy)]
struct Task {
    at_once: bool,
    nodes: u64,
    rounds: u64,
    length: u64,
}

// The task of a line, if it is one.
fn task_of(line: &str) -> Option<Task> {
    let (how, rest) = line.split_once(' ')?;
    let (nodes, rest) = rest.split_once(' ')?;
    let (rounds, length) = rest.split_once(' ')?;
    Some(Task {
        at_once: how == "round",
        nodes: number_of(nodes)?,
        rounds: number_of(rounds)?,
        length: number_of(length)?,
    })
}

// A command for each node.
fn round_of(alloc: Global, task: Task, now: u64) -> Result<Vec<ClusterEvent>, AllocError> {
    let bytes = Vec::from_elem(alloc, 7u8, task.length as usize)?;
    let mut events = Vec::new(alloc);
    for node in 1..task.nodes.saturating_add(1) {
        let command = Bytes::from_slice(alloc, bytes.as_slice())?;
        events.push(ClusterEvent::Ask {
            node,
            group: node,
            call: GroupCall::Propose {
                command,
                token: now,
            },
            now,
        })?;
    }
    Ok(events)
}

// Each node leads its group, and all rounds come to their nodes.
fn work<K: RoundKind, R: Threads + Sync>(
    rt: &R,
    alloc: Global,
    cluster: &mut ListedCluster<K::Node>,
    task: Task,
) -> Result<(), AllocError> {
    let mut lines = Lines::new(alloc);
    for node in 1..task.nodes.saturating_add(1) {
        let line = format!(in alloc; "add {node} {node}; init {node} {node} {node}")?;
        K::run(rt, cluster, lines.events(cluster, line.as_str())?);
    }
    for now in 0..task.rounds {
        let events = round_of(alloc, task, now)?;
        if task.at_once {
            let _ = K::run_round(rt, cluster, events);
        } else {
            K::run(rt, cluster, events);
        }
    }
    Ok(())
}

// How many events were done.
fn done<K: RoundKind>(cluster: &ListedCluster<K::Node>) -> usize {
    cluster
        .history()
        .iter()
        .filter(|recorded| matches!(recorded.outcome, EventOutcome::Done(_)))
        .count()
}

/// The line, and how many events of its task were done, behind all rounds, with the two that set a
/// node's group up.
pub fn run_task<K: RoundKind, R: Threads + Sync>(
    rt: &R,
    alloc: Global,
    line: &str,
) -> Result<String, AllocError> {
    let Some(task) = task_of(line) else {
        return format!(in alloc; "{line}: no task");
    };
    let mut cluster = cluster_of::<K, R>(rt, alloc, task.nodes, 131_072)?;
    work::<K, R>(rt, alloc, &mut cluster, task)?;
    format!(in alloc; "{line}: {}", done::<K>(&cluster))
}
