//! What is kept of one group.
ghost use Rattle.std.specs.Prelude.{◌≡◌, ◌<◌, ◌==◌, ℕ, suc, [], Some, None, length, if◌then◌else◌, IfSome, OnOk};
ghost use Rattle.std.specs.Option.{option_or};
ghost use Rattle.raft_group_lists.specs.Notes.{no_notes};
ghost use Rattle.raft_group_lists.specs.Room.{HasSpace};
ghost use Rattle.raft_cluster_lists.specs.Hearing.{HearsOf, IsCallHeard, IsFirst, IsOpeningHeard, unless_failed};
ghost use Rattle.raft_cluster_lists.specs.Lists.{AreSame, IsReady, TakesOne, first_at, stopped_at};

use crate::brought::Brought;
use raft_cluster_events::{Acceptance, EventOutcome, Leading, NodeRefusal};
use raft_group_lists::GroupList;
use raft_list_steps::{GroupReport, SetUp, hear};
use raft_state::{BasicNode, Bytes, EntryPayload, LeaderId, LogId};
use std::alloc::{AllocError, Global};

/// What the call writes that stopped at a node last (own).
#[derive(Drop)]
pub struct StoppedCall {
    /// The node.
    pub node: u64,
    /// What its call writes.
    pub payload: EntryPayload<u64, BasicNode, Bytes>,
}

/// What is kept of a group (own).
#[derive(Drop)]
pub struct KeptGroup {
    /// The group.
    pub group: u64,
    /// Its list.
    pub list: GroupList,
    /// For each node at which a call stopped, what the last such call writes.
    pub stopped: Vec<StoppedCall>,
}

// Where what is kept of the node stands, if anything is.
fn place_of(stopped: &[StoppedCall], node: u64) -> Option<usize>
    ensures place { result ≡ first_at stopped.now node }
    ensures within { IfSome result (λ at. at < length stopped.now) }
{
    stopped.iter().position(|call| call.node == node)
}

// What the call writes that stopped at the node now is kept of it.
fn keep_stopped(
    stopped: &mut Vec<StoppedCall>,
    node: u64,
    payload: EntryPayload<u64, BasicNode, Bytes>,
)
    requires { HasSpace stopped.old 1 }
    ensures kept { stopped_at stopped.new.items node ≡ Some payload }
    ensures room { (n : ℕ) → HasSpace stopped.old (suc n) → HasSpace stopped.new n }
    ensures others { (other : ℕ) → (other ≡ node → ⊥) → stopped_at stopped.new.items other ≡ stopped_at stopped.old.items other }
{
    match place_of(stopped.as_slice(), node) {
        Some(at) => stopped[at] = StoppedCall { node, payload },
        None => stopped.push_reserved(StoppedCall { node, payload }),
    }
}

// What is kept of the node goes.
fn take_stopped(
    stopped: &mut Vec<StoppedCall>,
    node: u64,
) -> Option<EntryPayload<u64, BasicNode, Bytes>>
    ensures taken { result ≡ stopped_at stopped.old.items node }
    ensures room { (n : ℕ) → HasSpace stopped.old n → HasSpace stopped.new n }
    ensures others { (other : ℕ) → (other ≡ node → ⊥) → stopped_at stopped.new.items other ≡ stopped_at stopped.old.items other }
{
    match place_of(stopped.as_slice(), node) {
        Some(at) => {
            let call = stopped.remove(at);
            Some(call.payload)
        }
        None => None,
    }
}

// The set-up that a call asks for, unless one is noted.
fn first_of(list: &GroupList, set_up: Option<SetUp>) -> Option<SetUp>
    ensures { IsFirst list.now.notes set_up result }
{
    let set_up = set_up?;
    let first = LogId {
        leader_id: LeaderId {
            term: 0,
            node_id: 0,
        },
        index: 0,
    };
    match list.find(&first) {
        Some(_) => None,
        None => Some(set_up),
    }
}

// A node that has failed leads nothing.
fn unless_failed(why: &NodeRefusal, leading: Option<Leading>) -> Option<Leading>
    ensures { result ≡ unless_failed why.now leading }
{
    match why {
        NodeRefusal::Failed => None,
        _ => leading,
    }
}

// What is heard of a node's lead and of what it wrote.
fn of_leader(
    node: u64,
    leading: Option<Leading>,
    written: Option<EntryPayload<u64, BasicNode, Bytes>>,
) -> GroupReport
    ensures { result ≡ record { node = node; set_up = None; leading = leading; written = written; accepted = None } }
{
    GroupReport {
        node,
        set_up: None,
        leading,
        written,
        accepted: None,
    }
}

impl KeptGroup {
    /// Nothing is noted of the group yet. Takes no memory.
    pub fn new(alloc: Global, group: u64) -> KeptGroup
        ensures group { result.group ≡ group }
        ensures notes { result.list.notes ≡ no_notes }
        ensures stopped { result.stopped.items ≡ [] }
    {
        KeptGroup {
            group,
            list: GroupList::new(alloc),
            stopped: Vec::new(alloc),
        }
    }

    /// Finds memory for so many events of the group. An `Err` is want of memory. Whatever the result, the same is noted, and no
    /// room is lost.
    pub fn make_room(&mut self, events: usize) -> Result<(), AllocError>
        ensures ok { OnOk result (IsReady self.new events) }
        ensures keeps { (n : ℕ) → IsReady self.old n → IsReady self.new n }
        ensures group { self.new.group ≡ self.old.group }
        ensures same { AreSame self.old.list.notes self.new.list.notes }
        ensures stopped { self.new.stopped.items ≡ self.old.stopped.items }
    {
        let Some(count) = events.checked_add(events) else {
            return Err(AllocError);
        };
        self.list.make_room(count)?;
        self.stopped.reserve(events)?;
        Ok(())
    }

    /// The list goes on with a call or message that came to the node, which leads the group with this behind it. If it stopped,
    /// what its call writes is kept.
    pub fn hear_call(
        &mut self,
        node: u64,
        leading: Option<Leading>,
        outcome: &EventOutcome,
        accepted: Option<Acceptance>,
        brought: Brought,
    )
        requires { IsReady self.old 1 }
        ensures group { self.new.group ≡ self.old.group }
        ensures heard { IsCallHeard node leading outcome.now accepted brought self.old self.new }
        ensures room { TakesOne self.old self.new }
    {
        let Brought { set_up, written } = brought;
        let set_up = first_of(&self.list, set_up);
        match outcome {
            EventOutcome::Done(_) => {
                let report = GroupReport {
                    node,
                    set_up,
                    leading,
                    written,
                    accepted,
                };
                hear(&mut self.list, report);
            }
            EventOutcome::Refused(why) => {
                let leading = unless_failed(why, leading);
                hear(&mut self.list, of_leader(node, leading, None));
            }
            EventOutcome::Stopped(_) => self.hear_stop(node, set_up, written),
            EventOutcome::Cleaned(_) => {}
            EventOutcome::TurnedAway(_) => {}
        }
    }

    // So it is where it stopped.
    fn hear_stop(
        &mut self,
        node: u64,
        set_up: Option<SetUp>,
        written: Option<EntryPayload<u64, BasicNode, Bytes>>,
    )
        requires { IsReady self.old 1 }
        ensures group { self.new.group ≡ self.old.group }
        ensures list { HearsOf (Some (record { node = node; set_up = set_up; leading = None; written = None; accepted = None })) self.old.list.notes self.new.list.notes }
        ensures stopped { (other : ℕ) → stopped_at self.new.stopped.items other
            ≡ (if other == node then option_or written (stopped_at self.old.stopped.items other) else stopped_at self.old.stopped.items other) }
        ensures room { TakesOne self.old self.new }
    {
        let report = GroupReport {
            node,
            set_up,
            leading: None,
            written: None,
            accepted: None,
        };
        hear(&mut self.list, report);
        if let Some(payload) = written {
            keep_stopped(&mut self.stopped, node, payload);
        }
    }

    /// The list goes on with an opening of the node, which leads the group with this behind it: it may do so with what its last
    /// call wrote, which stopped. Nothing is heard of an opening that wasn't done.
    pub fn hear_opening(&mut self, node: u64, leading: Option<Leading>, outcome: &EventOutcome)
        requires { IsReady self.old 1 }
        ensures group { self.new.group ≡ self.old.group }
        ensures heard { IsOpeningHeard node leading outcome.now self.old self.new }
        ensures room { TakesOne self.old self.new }
    {
        if let EventOutcome::Done(_) = outcome {
            let written = take_stopped(&mut self.stopped, node);
            hear(&mut self.list, of_leader(node, leading, written));
        }
    }
}
