//! What is due at a node as time passes, and the line that asks the node for all of it.

use crate::home::NodeHome;
use crate::script::NodeScript;
use raft_group_step::GroupCall;
use raft_group_storage::GroupStorage;
use raft_machines::StateMachine;
use raft_messages::SnapshotBytes;
use raft_node::{Node, Outcome};
use raft_node_clock::GroupClock;
use raft_timers::{Interval, TimerConfig, Wanted};
use std::alloc::{AllocError, Global};
use std::collections::BTreeMap;
use std::fmt::{self, Display};

/// What is due at a node: the line by which it is asked for that, or that a group has no quorum.
#[derive(Clone, Copy)]
pub(crate) enum Due {
    Elect { group: u64 },
    Heartbeat { group: u64 },
    Lost { group: u64, peer: u64 },
    Snapshot { group: u64 },
    Purge { group: u64, place: u64 },
    NoQuorum { group: u64 },
    Clean,
}

impl Display for Due {
    fn fmt<W: fmt::Write>(&self, f: &mut fmt::Formatter<W>) -> fmt::Result {
        match self {
            Due::Elect { group } => write!(f, "elect {group}"),
            Due::Heartbeat { group } => write!(f, "heartbeat {group}"),
            Due::Lost { group, peer } => write!(f, "lost {group} {peer}"),
            Due::Snapshot { group } => write!(f, "snapshot {group}"),
            Due::Purge { group, place } => write!(f, "purge {group} {place}"),
            Due::NoQuorum { group } => write!(f, "no quorum {group}"),
            Due::Clean => write!(f, "clean"),
        }
    }
}

// What the group's clock asks for comes behind the others.
fn push_wanted(due: &mut Vec<Due>, group: u64, wanted: &Wanted) -> Result<(), AllocError> {
    if wanted.elect {
        due.push(Due::Elect { group })?;
    }
    if wanted.heartbeat {
        due.push(Due::Heartbeat { group })?;
    }
    for peer in &wanted.lost {
        due.push(Due::Lost { group, peer: *peer })?;
    }
    if wanted.snapshot {
        due.push(Due::Snapshot { group })?;
    }
    if let Some(place) = wanted.purge {
        due.push(Due::Purge { group, place })?;
    }
    if wanted.no_quorum {
        due.push(Due::NoQuorum { group })?;
    }
    Ok(())
}

/// The clocks of a node's groups, and when its log is cleaned (own).
#[derive(Drop)]
pub(crate) struct NodeClocks {
    alloc: Global,
    config: TimerConfig,
    seed: u64,
    cleaning: Interval,
    groups: BTreeMap<u64, GroupClock>,
}

impl NodeClocks {
    /// No group is there yet. The seed is another one for each node.
    pub(crate) fn new(alloc: Global, config: TimerConfig, seed: u64, now: u64) -> NodeClocks {
        NodeClocks {
            alloc,
            config,
            seed,
            cleaning: config.cleaning(now),
            groups: BTreeMap::new(alloc),
        }
    }

    /// The clock of this group begins.
    pub(crate) fn add(&mut self, group: u64, now: u64) -> Result<(), AllocError> {
        let clock = GroupClock::new(self.alloc, self.config, self.seed, group, now)?;
        self.groups.insert(group, clock)?;
        Ok(())
    }

    /// The node was opened: the clock of each of its groups begins anew.
    pub(crate) fn restart<M: StateMachine, S: GroupStorage<Snapshot = SnapshotBytes>>(
        &mut self,
        node: &Node<M, S>,
        now: u64,
    ) -> Result<(), AllocError> {
        self.cleaning = self.config.cleaning(now);
        self.groups = BTreeMap::new(self.alloc);
        let groups = node.groups()?;
        for group in &groups {
            self.add(*group, now)?;
        }
        Ok(())
    }

    /// Frames of the peer were taken, each in the group of an outcome.
    pub(crate) fn hear<M: StateMachine, S: GroupStorage<Snapshot = SnapshotBytes>>(
        &mut self,
        node: &Node<M, S>,
        peer: u64,
        outcomes: &[Outcome],
        now: u64,
    ) {
        for outcome in outcomes {
            if let Some(clock) = self.groups.get_mut(&outcome.group) {
                clock.hear(node, peer, now);
            }
        }
    }

    // What is due of the group comes behind the others.
    fn push_due<M: StateMachine, S: GroupStorage<Snapshot = SnapshotBytes>>(
        &mut self,
        due: &mut Vec<Due>,
        node: &Node<M, S>,
        group: u64,
        now: u64,
    ) -> Result<(), AllocError> {
        let Some(clock) = self.groups.get_mut(&group) else {
            return Ok(());
        };
        let wanted = clock.due(node, now)?;
        push_wanted(due, group, &wanted)
    }

    /// What is due of each group, by rising group, and of the log behind them.
    pub(crate) fn due<M: StateMachine, S: GroupStorage<Snapshot = SnapshotBytes>>(
        &mut self,
        node: &Node<M, S>,
        now: u64,
    ) -> Result<Vec<Due>, AllocError> {
        let mut due = Vec::new(self.alloc);
        let groups = node.groups()?;
        for group in &groups {
            self.push_due(&mut due, node, *group, now)?;
        }
        if self.cleaning.tick(now) {
            due.push(Due::Clean)?;
        }
        Ok(due)
    }
}

impl<H: NodeHome> NodeScript<H> {
    // What the node's clocks ask for at this moment; nothing of a node that is down.
    fn due(&mut self, now: u64) -> Result<Vec<Due>, AllocError> {
        match &self.node {
            Some(node) => self.clocks.due(node, now),
            None => Ok(Vec::new(self.alloc)),
        }
    }

    // What the line of it answers; nothing is asked where a group has no quorum.
    fn ask_due(&mut self, due: Due) -> Result<Option<String>, AllocError> {
        let answer = match due {
            Due::Elect { group } => self.ask(group, &GroupCall::Elect)?,
            Due::Heartbeat { group } => self.ask(group, &GroupCall::Heartbeat)?,
            Due::Lost { group, peer } => self.ask(group, &GroupCall::Lost { peer })?,
            Due::Snapshot { group } => self.ask(group, &GroupCall::TriggerSnapshot)?,
            Due::Purge { group, place } => self.ask(group, &GroupCall::TriggerPurge { place })?,
            Due::Clean => self.clean()?,
            Due::NoQuorum { .. } => return Ok(None),
        };
        Ok(Some(answer))
    }

    // What is due, and behind it what the node answers to that, on the line that has begun.
    fn push_asked(&mut self, text: &mut String, due: Due) -> Result<(), AllocError> {
        write!(text, "; {due}")?;
        let Some(answer) = self.ask_due(due)? else {
            return Ok(());
        };
        text.push_str(": ")?;
        text.push_str(answer.trim_end())
    }

    /// The moment rises by one, and all that is due then is asked of the node.
    pub(crate) fn pass_tick(&mut self) -> Result<String, AllocError> {
        let now = self.tick.saturating_add(1);
        let due = self.due(now)?;
        self.tick = now;
        let mut text = format!(in self.alloc; "tick {now}")?;
        for one in &due {
            self.push_asked(&mut text, *one)?;
        }
        text.push_str("\n")?;
        Ok(text)
    }
}
