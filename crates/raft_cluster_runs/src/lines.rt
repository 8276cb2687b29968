//! Events by the lines of a script, and what came of them.

use raft_cluster_events::{ClusterEvent, ClusterNode, Recorded};
use raft_cluster_script::{event_of, outcome_text, tokens_after};
use raft_listed_cluster::ListedCluster;
use raft_machines::AddingMachine;
use raft_script_lines::{ReadLineError, ScriptEvent, ScriptLine, read_line};
use std::alloc::{AllocError, Global};

/// What was counted of a script's lines.
#[derive(Drop)]
pub struct Lines {
    alloc: Global,
    pub tokens: u64,
    tick: u64,
}

// The node's files refuse that changing call and those behind it; with none they refuse no call.
fn fuse(node: u64, first_refused: Option<u64>) -> ClusterEvent {
    ClusterEvent::Fuse {
        node,
        first_refused,
    }
}

// The event behind the others, with the fuse of its node before it and none behind it.
fn push_fused<N: ClusterNode>(
    cluster: &ListedCluster<N>,
    events: &mut Vec<ClusterEvent>,
    calls: u64,
    event: ClusterEvent,
) -> Result<(), AllocError> {
    let Some(node) = cluster.node_of(&event) else {
        return Ok(());
    };
    events.push(fuse(node, Some(calls)))?;
    events.push(event)?;
    events.push(fuse(node, None))?;
    Ok(())
}

impl Lines {
    /// Before the first line.
    pub fn new(alloc: Global) -> Lines {
        Lines {
            alloc,
            tokens: 0,
            tick: 0,
        }
    }

    // The event that a line names, behind the others; with a number behind a fuse.
    fn push_event<N: ClusterNode>(
        &mut self,
        cluster: &ListedCluster<N>,
        events: &mut Vec<ClusterEvent>,
        calls: Option<u64>,
        event: ScriptEvent,
    ) -> Result<(), AllocError> {
        self.tokens = tokens_after(self.tokens, &event);
        let event = event_of::<AddingMachine>(self.alloc, self.tick, self.tokens, event)?;
        match (event, calls) {
            (Some(event), Some(calls)) => push_fused(cluster, events, calls, event),
            (Some(event), None) => {
                events.push(event)?;
                Ok(())
            }
            (None, _) => Ok(()),
        }
    }

    // The events that a line asks for, behind the others: three where it has a fuse. Behind `now` it is
    // that tick.
    fn push_line<N: ClusterNode>(
        &mut self,
        cluster: &ListedCluster<N>,
        events: &mut Vec<ClusterEvent>,
        line: ScriptLine,
    ) -> Result<(), AllocError> {
        match line {
            ScriptLine::Happens(event) => self.push_event(cluster, events, None, event),
            ScriptLine::Fuse { calls, event } => {
                self.push_event(cluster, events, Some(calls), event)
            }
            ScriptLine::Now { tick } => {
                self.tick = tick;
                Ok(())
            }
            _ => Ok(()),
        }
    }

    /// The events of lines with `; ` between them.
    pub fn events<N: ClusterNode>(
        &mut self,
        cluster: &ListedCluster<N>,
        lines: &str,
    ) -> Result<Vec<ClusterEvent>, AllocError> {
        let mut events = Vec::new(self.alloc);
        for text in lines.split("; ") {
            match read_line(self.alloc, text.as_bytes()) {
                Ok(line) => self.push_line(cluster, &mut events, line)?,
                Err(ReadLineError::Memory) => return Err(AllocError),
                Err(ReadLineError::NoEvent(_)) => {}
            }
        }
        Ok(events)
    }
}

/// What came of these events, with `; ` between them.
pub fn outcomes_text(alloc: Global, records: &[Recorded]) -> Result<String, AllocError> {
    let mut text = String::new(alloc);
    for recorded in records {
        text.push_str(if text.is_empty() { "" } else { "; " })?;
        let outcome = outcome_text::<AddingMachine>(alloc, &recorded.outcome)?;
        text.push_str(outcome.trim_end())?;
    }
    Ok(text)
}

/// What came of a cluster's events from this one on.
pub fn outcomes_from<N: ClusterNode>(
    alloc: Global,
    cluster: &ListedCluster<N>,
    at: usize,
) -> Result<String, AllocError> {
    outcomes_text(alloc, cluster.history().get(at..).unwrap_or(&[]))
}
