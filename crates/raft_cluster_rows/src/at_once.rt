//! Events that a cluster runs, one after another or in a round.

use crate::toy_node::ToyNode;
use raft_cluster::{Cluster, ClusterEvent, ClusterRefusal, EventOutcome, Recorded};
use raft_cluster_script::event_of;
use raft_machines::AddingMachine;
use raft_rows::number;
use raft_script_lines::{ScriptLine, read_line};
use std::alloc::{AllocError, Global};
use std::thread::Threads;

fn fuse(node: &str, first_refused: Option<u64>) -> ClusterEvent {
    ClusterEvent::Fuse {
        node: number(node),
        first_refused,
    }
}

// The event of a line, if it has one.
fn event(alloc: Global, line: &str) -> Result<Option<ClusterEvent>, AllocError> {
    match line.split_once(' ') {
        Some(("fuse", node)) => Ok(Some(fuse(node, Some(1)))),
        Some(("lift", node)) => Ok(Some(fuse(node, None))),
        _ => match read_line(alloc, line.as_bytes()) {
            Ok(ScriptLine::Happens(event)) => event_of::<AddingMachine>(alloc, 0, 0, event),
            _ => Ok(None),
        },
    }
}

fn events(alloc: Global, lines: &str) -> Result<Vec<ClusterEvent>, AllocError> {
    let mut events = Vec::new(alloc);
    for line in lines.split(';') {
        if let Some(event) = event(alloc, line)? {
            events.push(event)?;
        }
    }
    Ok(events)
}

// A run behind a function without clauses: a proof that carries them takes long. In a round the events
// come to their nodes at once.
fn run<R: Threads + Sync>(
    rt: &R,
    cluster: &mut Cluster<ToyNode>,
    is_round: bool,
    events: Vec<ClusterEvent>,
) -> usize {
    if is_round {
        cluster.run_round(rt, events).unwrap_or(9)
    } else {
        cluster.run(rt, events)
    }
}

fn word(recorded: &Recorded) -> &'static str {
    match &recorded.outcome {
        EventOutcome::Done(_) => " done",
        EventOutcome::Cleaned(_) => " cleaned",
        EventOutcome::Refused(_) => " refused",
        EventOutcome::Stopped(_) => " stopped",
        EventOutcome::TurnedAway(ClusterRefusal::NoNode) => " no-node",
        EventOutcome::TurnedAway(_) => " turned-away",
    }
}

/// How many of these events the cluster runs, what comes of each, and how many frames are sent.
/// What came of earlier events of the cluster stands before.
pub fn push_run<R: Threads + Sync>(
    rt: &R,
    alloc: Global,
    cluster: &mut Cluster<ToyNode>,
    is_round: bool,
    lines: &str,
    text: &mut String,
) -> Result<(), AllocError> {
    let events = events(alloc, lines)?;
    let asked = events.len();
    let count = run(rt, cluster, is_round, events);
    write!(text, "ran {count} of {asked}:")?;
    for recorded in cluster.history() {
        text.push_str(word(recorded))?;
    }
    write!(text, ", frames {}", cluster.frames(7).len())
}
