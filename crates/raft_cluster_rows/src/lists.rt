//! Events of a cluster, and the lists of its groups behind them.

use crate::toy_node::ToyNode;
use raft_cluster_events::{
    ClusterEvent, ClusterNode, EventOutcome, GroupCommand, Leading, NodeRefusal, Sequence,
};
use raft_cluster_lists::ClusterLists;
use raft_group_step::GroupCall;
use raft_list_facts::{Acceptance, Base};
use raft_row_values::{IdText, log_id, membership};
use raft_rows::number;
use raft_state::{BasicNode, Bytes, Entry, EntryPayload, LogId, Vote};
use std::alloc::{AllocError, Global};

/// The lists of a cluster's groups, the node to which an event comes, and what else is heard of it.
#[derive(Drop)]
pub struct Lists {
    alloc: Global,
    lists: ClusterLists,
    node: ToyNode,
    call: Option<GroupCommand>,
    accepted: Option<Acceptance>,
}

// ---- words

fn vote_of(log_id: LogId<u64>) -> Vote<u64> {
    let leader = log_id.leader_id;
    Vote::new_committed(leader.term, leader.node_id)
}

// A leader's last log id, and that of its base, as `1-1-2:0-0-0`.
fn leading(word: &str) -> Leading {
    let (last, base) = word.split_once(':').unwrap_or((word, word));
    let last = log_id(last);
    Leading {
        vote: vote_of(last),
        last: Some(last),
        base: Base::UpTo(log_id(base)),
    }
}

fn acceptance(word: &str) -> Acceptance {
    let last = log_id(word);
    Acceptance {
        vote: vote_of(last),
        last,
    }
}

fn set_up(alloc: Global, word: &str) -> Result<GroupCommand, AllocError> {
    let membership = membership(alloc, word)?;
    Ok(GroupCall::Initialize { membership })
}

fn proposal(alloc: Global, word: &str) -> Result<GroupCommand, AllocError> {
    let command = Bytes::from_slice(alloc, word.as_bytes())?;
    Ok(GroupCall::Propose { command, token: 0 })
}

// An opening of the node, a set-up or a proposal that it is asked for, or a frame that comes.
fn event_of(
    alloc: Global,
    node: u64,
    group: u64,
    opens: bool,
    call: Option<GroupCommand>,
) -> ClusterEvent {
    let now = 0;
    match call {
        _ if opens => ClusterEvent::Reopen { node, workers: 1 },
        Some(call) => ClusterEvent::Ask {
            node,
            group,
            call,
            now,
        },
        None => ClusterEvent::Deliver {
            group,
            number: 0,
            cuts: Sequence::new(alloc),
            now,
        },
    }
}

// ---- texts

fn push_entry(text: &mut String, entry: &Entry<u64, BasicNode, Bytes>) -> Result<(), AllocError> {
    write!(text, " {}:", IdText(Some(entry.log_id)))?;
    match &entry.payload {
        EntryPayload::Blank => text.push_str("blank"),
        EntryPayload::Normal(command) => write!(text, "{}", command.len()),
        EntryPayload::Membership(_) => text.push_str("membership"),
    }
}

impl Lists {
    pub fn new(alloc: Global) -> Lists {
        Lists {
            alloc,
            lists: ClusterLists::new(alloc),
            node: ToyNode::new(alloc, 0),
            call: None,
            accepted: None,
        }
    }

    // What this word says is heard.
    fn take(&mut self, word: &str) -> Result<(), AllocError> {
        let (name, value) = word.split_once('=').unwrap_or((word, ""));
        match name {
            "voters" => self.call = Some(set_up(self.alloc, value)?),
            "writes" => self.call = Some(proposal(self.alloc, value)?),
            "leads" => self.node.leading = Some(leading(value)),
            _ => self.accepted = Some(acceptance(value)),
        }
        Ok(())
    }

    fn outcome(&mut self, word: &str) -> EventOutcome {
        match word {
            "done" => EventOutcome::Done(Sequence::new(self.alloc)),
            "stops" => EventOutcome::Stopped(self.node.fail()),
            _ => EventOutcome::Refused(NodeRefusal::InProgress),
        }
    }

    // What is heard of an event at the node.
    fn hear(&mut self, event: &ClusterEvent, outcome: &EventOutcome) -> Result<(), AllocError> {
        let brought = self.lists.prepare(&self.node.leading, event, 1)?;
        self.lists
            .hear_event(&self.node, event, outcome, self.accepted, brought);
        Ok(())
    }

    // An event comes to the node, or the node is opened, and these words say what is heard of it.
    fn take_event(
        &mut self,
        opens: bool,
        [group, outcome, id]: [&str; 3],
        words: &[&str],
    ) -> Result<(), AllocError> {
        self.node.leading = None;
        self.node.group = number(group);
        self.node.id = number(id);
        self.call = None;
        self.accepted = None;
        for word in words {
            self.take(word)?;
        }
        let (id, group, call) = (self.node.id, self.node.group, self.call.take());
        let event = event_of(self.alloc, id, group, opens, call);
        let outcome = self.outcome(outcome);
        self.hear(&event, &outcome)
    }

    fn push_list(&self, text: &mut String, group: u64) -> Result<(), AllocError> {
        for place in 0..self.lists.list_len(group) {
            if let Some(entry) = self.lists.entry(group, place) {
                push_entry(text, entry)?;
            }
        }
        Ok(())
    }

    fn push_both(&self, text: &mut String) -> Result<(), AllocError> {
        text.push_str("5:")?;
        self.push_list(text, 5)?;
        text.push_str(" 6:")?;
        self.push_list(text, 6)
    }

    /// The lists of groups 5 and 6 behind an event, or behind an opening of the node. These words say
    /// the group, the outcome, the node and what is heard of it.
    pub fn push_behind(
        &mut self,
        opens: bool,
        words: &str,
        text: &mut String,
    ) -> Result<(), AllocError> {
        let words: Vec<&str> = words.split(' ').collect(self.alloc)?;
        if let [group, outcome, id, heard @ ..] = words.as_slice() {
            self.take_event(opens, [*group, *outcome, *id], heard)?;
        }
        self.push_both(text)
    }
}
