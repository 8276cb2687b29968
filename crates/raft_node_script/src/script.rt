//! How far a node's script has come, and what its next line does.

use crate::answers::{cleaned_text, done_text, fault_text, fed_text, known_text, unopened_text};
use crate::clock::NodeClocks;
use crate::home::NodeHome;
use crate::lines::{NodeLine, NodeLineError, ReadNodeLine, read_node_line};
use raft_conditions::GroupCommand;
use raft_group_storage::GroupStorage;
use raft_node::{Fault, Fed, Node, NotOpened, Opened, Outcome};
use raft_node_status::group_status;
use raft_script_answers::{AppliedTotal, Refusal, refused_text, total_text};
use raft_script_machines::ScriptMachine;
use raft_script_session::LineRunner;
use raft_timers::TimerConfig;
use std::alloc::{AllocError, Global};
use std::thread::Threads;

/// A node, and what was counted of its script (own).
#[derive(Drop)]
pub struct NodeScript<H: NodeHome> {
    pub(crate) alloc: Global,
    id: u64,
    home: H,
    pub(crate) node: Option<Node<H::Machine, H::Storage>>,
    pub(crate) clocks: NodeClocks,
    tokens: u64,
    pub(crate) tick: u64,
}

impl<H: NodeHome> NodeScript<H> {
    /// Before the first line the node is down. Its groups' clocks have these settings, and its id for
    /// a seed.
    pub fn new(alloc: Global, id: u64, home: H, timers: TimerConfig) -> NodeScript<H> {
        NodeScript {
            alloc,
            id,
            home,
            node: None,
            clocks: NodeClocks::new(alloc, timers, id, 0),
            tokens: 0,
            tick: 0,
        }
    }

    /// The node is opened with what is stored at its home; one that is up is closed before.
    pub fn reopen<R: Threads + Sync>(&mut self, rt: &R) -> Result<String, AllocError> {
        self.node = None;
        let storage = match self.home.open(rt) {
            Ok(storage) => storage,
            Err(why) => return unopened_text(self.alloc, why),
        };
        match Node::open(self.alloc, self.id, storage) {
            Ok(Opened { node, outcomes }) => {
                self.clocks.restart(&node, self.tick)?;
                self.node = Some(node);
                done_text::<H::Machine>(self.alloc, outcomes)
            }
            Err(NotOpened { fault, storage }) => {
                self.home.complain(&storage);
                fault_text(self.alloc, fault)
            }
        }
    }

    // What an event did, or why it isn't done.
    fn answered(
        &mut self,
        answer: Result<Outcome, Fault<<H::Storage as GroupStorage>::Fault>>,
    ) -> Result<String, AllocError> {
        match answer {
            Ok(outcome) => {
                let mut outcomes = Vec::new(self.alloc);
                outcomes.push(outcome)?;
                done_text::<H::Machine>(self.alloc, outcomes)
            }
            Err(fault) => self.refused(fault),
        }
    }

    // A node that has stopped may say more than its number.
    fn complain_of(&self, fault: &Fault<<H::Storage as GroupStorage>::Fault>) {
        if let (Fault::Stopped { .. }, Some(node)) = (fault, &self.node) {
            self.home.complain(node.storage());
        }
    }

    // Why a call isn't done.
    fn refused(
        &mut self,
        fault: Fault<<H::Storage as GroupStorage>::Fault>,
    ) -> Result<String, AllocError> {
        self.complain_of(&fault);
        fault_text(self.alloc, fault)
    }

    // A node that isn't up takes no event.
    fn down(&self) -> Result<String, AllocError> {
        refused_text(self.alloc, Refusal::NodeDown, &[])
    }

    fn add(&mut self, group: u64) -> Result<String, AllocError> {
        let Some(node) = &mut self.node else {
            return self.down();
        };
        let answer = node.add_group(group);
        if answer.is_ok() {
            self.clocks.add(group, self.tick)?;
        }
        self.answered(answer)
    }

    pub(crate) fn ask(&mut self, group: u64, call: &GroupCommand) -> Result<String, AllocError> {
        let Some(node) = &mut self.node else {
            return self.down();
        };
        let answer = node.call(group, call, self.tick);
        self.answered(answer)
    }

    // A piece of a peer's stream comes. What its frames did is told before why the next one is refused.
    // Behind one that is no frame the stream begins anew.
    fn feed(&mut self, peer: u64, piece: &[u8]) -> Result<String, AllocError> {
        let Some(node) = &mut self.node else {
            return self.down();
        };
        let Fed {
            outcomes,
            fault,
            used: _,
        } = node.feed(peer, piece, self.tick);
        if let Some(Fault::Frame(_)) = &fault {
            let _ = node.reset_peer(peer);
        }
        self.clocks.hear(node, peer, outcomes.as_slice(), self.tick);
        let Some(fault) = fault else {
            return done_text::<H::Machine>(self.alloc, outcomes);
        };
        self.complain_of(&fault);
        fed_text::<H::Machine, _>(self.alloc, outcomes, fault)
    }

    // The log is cleaned, where it is time for that.
    pub(crate) fn clean(&mut self) -> Result<String, AllocError> {
        let Some(node) = &mut self.node else {
            return self.down();
        };
        match node.clean_files() {
            Ok(groups) => cleaned_text(self.alloc, groups),
            Err(fault) => self.refused(fault),
        }
    }

    fn total(&self, group: u64) -> Result<String, AllocError> {
        total_text(self.alloc, self.applied(group))
    }

    // What the group's machine has added up, if the node is up and has the group.
    fn applied(&self, group: u64) -> Option<AppliedTotal> {
        let node = self.node.as_ref()?;
        let total = node.machine(group)?.total_of()?;
        let place = node.applied(group);
        Some(AppliedTotal { total, place })
    }

    // What the node knows of the group, and the files of its storage.
    fn status(&self, group: u64) -> Result<String, AllocError> {
        let Some(node) = &self.node else {
            return self.down();
        };
        match group_status(self.alloc, node, group)? {
            Some(told) => {
                let log = self.home.log_status(node.storage());
                known_text(self.alloc, &told, &log)
            }
            None if node.has_failed() => refused_text(self.alloc, Refusal::Failed, &[]),
            None => refused_text(self.alloc, Refusal::UnknownGroup, &[]),
        }
    }

    fn set_now(&mut self, tick: u64) -> Result<String, AllocError> {
        let text = String::from_str(self.alloc, "ok\n")?;
        self.tick = tick;
        Ok(text)
    }

    // Runs a line.
    fn take<R: Threads + Sync>(&mut self, rt: &R, line: NodeLine) -> Result<String, AllocError> {
        match line {
            NodeLine::Skipped => Ok(String::new(self.alloc)),
            NodeLine::Now { tick } => self.set_now(tick),
            NodeLine::Tick => self.pass_tick(),
            NodeLine::Total { group } => self.total(group),
            NodeLine::Status { group } => self.status(group),
            NodeLine::Add { group } => self.add(group),
            NodeLine::Ask { group, call } => self.ask(group, &call),
            NodeLine::Feed { peer, piece } => self.feed(peer, piece.as_slice()),
            NodeLine::Clean => self.clean(),
            NodeLine::Reopen => self.reopen(rt),
        }
    }
}

impl<H: NodeHome> LineRunner for NodeScript<H> {
    ghost runs = { λ _ _ _ _. Unit {0} };

    fn run_line<R: Threads + Sync>(
        &mut self,
        rt: &R,
        line: &[u8],
    ) -> Result<Option<String>, AllocError> {
        match read_node_line::<H::Machine>(self.alloc, self.id, self.tick, self.tokens, line) {
            Ok(ReadNodeLine { line, tokens }) => {
                let text = self.take(rt, line)?;
                self.tokens = tokens;
                Ok(Some(text))
            }
            Err(NodeLineError::Memory) => Err(AllocError),
            Err(_) => Ok(None),
        }
    }
}
