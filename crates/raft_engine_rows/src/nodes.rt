//! A node of a counted run, and what comes to it.

use crate::engines::NumberedEngine;
use crate::setup::{Task, known, stored};
use raft_engine::{AppendEntriesRequest, Caller, Engine};
use raft_executor::{GroupMessage, Sender, caller_and_answer, caller_id, messages, store_first};
use raft_group_storage::ONLY_GROUP;
use raft_messages::{AppendFields, MessageBody, last_sent};
use raft_state::Bytes;
use raft_stored_group::StoredGroup;
use std::alloc::{AllocError, Global};
use std::collections::VecDeque;

/// Messages that haven't come yet, and how many were sent.
#[derive(Drop)]
pub struct Mail {
    pub waiting: VecDeque<GroupMessage>,
    pub sent: u64,
}

/// A node of the group: its engine, and what it has stored.
#[derive(Drop)]
pub struct GroupNode {
    id: u64,
    stored: StoredGroup,
    engine: NumberedEngine,
    /// The moment, in ticks: each message that comes is a tick later.
    now: u64,
}

// A leader's request.
fn take_request(
    engine: &mut NumberedEngine,
    peer: u64,
    request: AppendFields,
    now: u64,
) -> Result<(), AllocError> {
    let caller = Caller {
        peer,
        vote: request.vote,
        id: caller_id(&request.id),
        previous: request.previous,
        last: last_sent(request.previous, request.entries.as_slice()),
    };
    let req = AppendEntriesRequest {
        vote: request.vote,
        prev_log_id: request.previous,
        entries: request.entries,
        leader_commit: request.committed,
    };
    // (a leader's entries follow one another)
    let _answer = engine.handle_append_entries(req, caller, now)?;
    Ok(())
}

// A message is handed to the engine.
fn take(engine: &mut NumberedEngine, message: GroupMessage, now: u64) -> Result<(), AllocError> {
    let peer = message.sender;
    match message.body {
        MessageBody::VoteRequest(asked) => {
            let caller = Caller::new(peer, asked.vote);
            engine.handle_vote_req(&asked, caller, now)
        }
        MessageBody::VoteReply(answer) => engine.handle_vote_resp(peer, &answer, now),
        MessageBody::AppendRequest(request) => take_request(engine, peer, request, now),
        MessageBody::AppendReply(reply) => {
            let (caller, answer) = caller_and_answer(peer, &reply);
            engine.handle_replication_resp(peer, &caller, &answer, Some(now), now)
        }
        MessageBody::SnapshotReply(_) | MessageBody::SnapshotRequest { .. } => Ok(()),
    }
}

impl GroupNode {
    /// The node with what each one has stored, where that is a log.
    pub fn new(alloc: Global, id: u64, task: &Task) -> Result<Option<GroupNode>, AllocError> {
        let stored = stored(alloc, task)?;
        match known(alloc, stored.vote(), stored.log())? {
            None => Ok(None),
            Some(known) => Ok(Some(GroupNode {
                id,
                stored,
                engine: Engine::of_node(alloc, known, id),
                now: 5,
            })),
        }
    }

    // The queue is stored, and what it sends goes on its way.
    fn end(&mut self, alloc: Global, mail: &mut Mail) -> Result<(), AllocError> {
        let queue = &self.engine.output;
        store_first(queue, None, None, &mut self.stored, ONLY_GROUP)?;
        let sender = Sender {
            own: self.id,
            vote: self.stored.vote(),
            committed: self.engine.state.state.committed,
        };
        let sent = messages(alloc, &sender, queue, &mut self.stored, ONLY_GROUP)?;
        self.engine.end_event();
        for message in sent {
            mail.sent = mail.sent.saturating_add(1);
            mail.waiting.push_back(message)?;
        }
        Ok(())
    }

    /// The node stands for election.
    pub fn elect(&mut self, alloc: Global, mail: &mut Mail) -> Result<(), AllocError> {
        self.engine.elect(self.now)?;
        self.end(alloc, mail)
    }

    /// The node says that it leads on, if it leads.
    pub fn beat(&mut self, alloc: Global, mail: &mut Mail) -> Result<(), AllocError> {
        // (a node that doesn't lead sends nothing)
        let _answer = self.engine.send_heartbeat()?;
        self.end(alloc, mail)
    }

    /// The node takes a command of eight bytes.
    pub fn propose(&mut self, alloc: Global, mail: &mut Mail) -> Result<(), AllocError> {
        let command = Bytes::from_slice(alloc, &[7u8; 8])?;
        if self.engine.has_room() {
            // (a node that doesn't lead takes nothing)
            let _answer = self.engine.propose(command)?;
        }
        self.end(alloc, mail)
    }

    /// The message comes to the node.
    pub fn receive(
        &mut self,
        alloc: Global,
        message: GroupMessage,
        mail: &mut Mail,
    ) -> Result<(), AllocError> {
        self.now = self.now.saturating_add(1);
        take(&mut self.engine, message, self.now)?;
        self.end(alloc, mail)
    }

    /// How many entries are committed, as far as the node knows.
    pub fn count_committed(&self) -> u64 {
        match self.engine.state.state.committed {
            None => 0,
            Some(committed) => committed.index.saturating_add(1),
        }
    }
}
