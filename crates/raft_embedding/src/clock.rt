//! The clock of a group at a node: what is due is asked of the node.

use crate::calls::{elect, heartbeat, lost, purge, snapshot};
use crate::node::{Answered, CountersNode};
use raft_node_clock::GroupClock;
use raft_timers::{TimerConfig, TimerSettings};
use std::alloc::{AllocError, Global};

/// The clock of a group at a node.
#[derive(Drop)]
pub struct Clock {
    alloc: Global,
    /// The group.
    pub group: u64,
    /// What is due of it.
    pub timers: GroupClock,
}

impl Clock {
    /// The clock starts, with the usual settings; the node's id is the seed.
    pub fn start(alloc: Global, id: u64, group: u64, now: u64) -> Option<Clock> {
        let config = TimerConfig::new(TimerSettings::default()).ok()?;
        let timers = GroupClock::new(alloc, config, id, group, now).ok()?;
        Some(Clock {
            alloc,
            group,
            timers,
        })
    }

    /// All that is due of the group is asked of the node: what it answers, in order.
    pub fn tick(&mut self, node: &mut CountersNode, now: u64) -> Result<Vec<Answered>, AllocError> {
        let group = self.group;
        let mut answers = Vec::new(self.alloc);
        let wanted = self.timers.due(node, now)?;
        if wanted.elect {
            answers.push(elect(node, group, now))?;
        }
        if wanted.heartbeat {
            answers.push(heartbeat(node, group, now))?;
        }
        for peer in &wanted.lost {
            answers.push(lost(node, group, *peer, now))?;
        }
        if wanted.snapshot {
            answers.push(snapshot(node, group, now))?;
        }
        if let Some(place) = wanted.purge {
            answers.push(purge(node, group, place, now))?;
        }
        Ok(answers)
    }
}
