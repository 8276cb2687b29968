//! The clock of one group at a node.
ghost use Rattle.std.specs.Prelude.{◌≡◌, [], ℕ, IfOk, None, OnErr, OnOk, false, true};
ghost use Rattle.std.specs.BTreeMap.{get};
ghost use Rattle.std.specs.Ordering.{nat_cmp};
ghost use Rattle.raft_group_step.specs.GroupState.{GroupState};
ghost use Rattle.raft_group_step.specs.Lead.{other_ids};
ghost use Rattle.raft_laws.specs.GroupWorld.{Up};
ghost use Rattle.raft_framed_groups.specs.Answers.{Stands};
ghost use Rattle.raft_node.specs.Reading.{matched_by, place_in};
ghost use Rattle.raft_node.specs.Standing.{running_in, value_of};
ghost use Rattle.raft_timers.specs.Timers.{new_clock};
ghost use Rattle.raft_node_clock.specs.Clock.{IsDue, IsKept, IsNothing, heard_from, with_members};

use crate::heard::{Heard, has_moved, heard_of, note_frame};
use crate::view::{quorum_heard, view_of, waiting_for};
use raft_group_storage::GroupStorage;
use raft_machines::StateMachine;
use raft_messages::SnapshotBytes;
use raft_node::Node;
use raft_node_status::other_ids;
use raft_timers::{TimerConfig, Timers, Wanted};
use std::alloc::{AllocError, Global};
use std::marker::Model;

/// The clock of one group at a node (own): it shows the group's `Timers` what the node tells, and
/// notes what was heard of the other members. It asks the node for nothing.
#[derive(Drop)]
pub struct GroupClock {
    alloc: Global,
    group: u64,
    heard: Vec<Heard>,
    timers: Timers,
}

impl Model for GroupClock {
    ghost use Rattle.raft_node_clock.specs.Clock.{ClockOfGroup};

    ghost Value = { ClockOfGroup };

    ghost view = { λ c. record { group = c.group; heard = c.heard.items; timers = c.timers } };
}

// Nothing is due.
fn nothing(alloc: Global) -> Wanted
    ensures { IsNothing result }
{
    Wanted {
        elect: false,
        heartbeat: false,
        lost: Vec::new(alloc),
        snapshot: false,
        purge: None,
        no_quorum: false,
    }
}

impl GroupClock {
    /// The clock of this group starts now, in ticks. Give each node another seed, so that their
    /// election timeouts differ. An `Err` is want of memory.
    pub fn new(
        alloc: Global,
        config: TimerConfig,
        seed: u64,
        group: u64,
        now: u64,
    ) -> Result<GroupClock, AllocError>
        ensures { IfOk result (λ c. c ≡ record { group = group; heard = []; timers = new_clock config seed [] now }) }
    {
        let timers = Timers::new(alloc, config, seed, &[], now)?;
        Ok(GroupClock {
            alloc,
            group,
            heard: Vec::new(alloc),
            timers,
        })
    }

    // The group's other members are these from now on. What is noted of those that stay is kept.
    fn set_members(&mut self, peers: &[u64]) -> Result<(), AllocError>
        ensures ok { OnOk result (self.new ≡ with_members peers.now self.old) }
        ensures err { OnErr result (self.new ≡ self.old) }
    {
        let heard = heard_of(self.alloc, self.heard.as_slice(), peers)?;
        self.timers.set_peers(peers)?;
        self.heard = heard;
        Ok(())
    }

    /// The node has taken a frame of the peer in this group at this moment, in ticks. It ends the wait
    /// for the peer's answer only where it moved what the peer is known to have: answers to heartbeats
    /// come while a request is lost, too, and would hide that.
    pub fn hear<M: StateMachine, S: GroupStorage<Snapshot = SnapshotBytes>>(
        &mut self,
        node: &Node<M, S>,
        peer: u64,
        now: u64,
    )
        ensures failed { node.now.groups.has_failed ≡ true → self.new ≡ heard_from peer None now self.old }
        ensures absent { get nat_cmp node.now.groups.members self.old.group ≡ None → self.new ≡ heard_from peer None now self.old }
        ensures up { (s : GroupState) → node.now.groups.has_failed ≡ false
            → Stands (value_of M.state S.is_well S.shows S.fails node.now).groups self.old.group (Up s)
            → self.new ≡ heard_from peer (matched_by peer s.role) now self.old }
    {
        let matched = node.matched(self.group, peer);
        if has_moved(self.heard.as_slice(), peer, matched) {
            self.timers.answered(peer);
        }
        note_frame(self.heard.as_mut_slice(), peer, matched, now);
    }

    /// What is due of the group at this moment, in ticks, by what the node tells of it. The peers are
    /// the other nodes of the membership in force, and what was heard of those that stay is kept. A
    /// quorum is more than half of each voter group; the node hears of itself now. Where the group isn't
    /// there, nothing is due. An `Err` is want of memory: members may have been noted then.
    pub fn due<M: StateMachine, S: GroupStorage<Snapshot = SnapshotBytes>>(
        &mut self,
        node: &Node<M, S>,
        now: u64,
    ) -> Result<Wanted, AllocError>
        ensures failed { node.now.groups.has_failed ≡ true → IfOk result IsNothing × (self.new ≡ self.old) }
        ensures absent { get nat_cmp node.now.groups.members self.old.group ≡ None → IfOk result IsNothing × (self.new ≡ self.old) }
        ensures up { (s : GroupState) → node.now.groups.has_failed ≡ false
            → Stands (value_of M.state S.is_well S.shows S.fails node.now).groups self.old.group (Up s)
            → IfOk result (IsDue node.now.groups.id (place_in (running_in M.state node.now.machines self.old.group)) s now self.old self.new) }
        ensures err { (s : GroupState) → node.now.groups.has_failed ≡ false
            → Stands (value_of M.state S.is_well S.shows S.fails node.now).groups self.old.group (Up s)
            → OnErr result (IsKept (other_ids node.now.groups.id s.stored) self.old self.new) }
    {
        let (alloc, group) = (self.alloc, self.group);
        let Some(role) = node.role(group) else {
            return Ok(nothing(alloc));
        };
        let peers = other_ids(alloc, node, group)?;
        self.set_members(peers.as_slice())?;
        let quorum = quorum_heard(alloc, node, group, self.heard.as_slice(), now)?;
        let waiting = waiting_for(alloc, node, group, peers.as_slice())?;
        let view = view_of(node, group, role, quorum);
        self.timers.tick(now, &view, waiting.as_slice())
    }
}
