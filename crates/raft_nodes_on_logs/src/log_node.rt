//! A node over a log of its own.
ghost use Rattle.std.specs.Prelude.{◌≡◌, ℕ, List, None, Some, is_some, IfErr, IfOk, IfSome, OnErr, OnOk, map};
ghost use Rattle.raft_cluster_events.specs.declared.outcome.NodeError.TheVariants.{Stopped};
ghost use Rattle.raft_nodes_on_logs.specs.Acts.{AreHandedBack, IsFedOn, IsPassed, refused, some_outcome};
ghost use Rattle.raft_nodes_on_logs.specs.Answering.{node_outcome};
ghost use Rattle.raft_node_logs.specs.Stopping.{quiet_stop};
ghost use Rattle.raft_nodes_on_logs.specs.Kinds.{kind_of};
ghost use Rattle.raft_log_memtables.specs.Content.{Content};
ghost use Rattle.raft_cluster_events.specs.declared.outcome.StopCause.TheVariants.{Memory};

use crate::faults::{NodeFault, as_stop, error_of};
use crate::outcomes::{outcome_of, outcomes_of};
use crate::over_log::{files_back, open_over_log};
use crate::readers::{machine_of, place_of};
use raft_cluster_events::{
    ClusterNode, CrashChoice, CrashRefusal, GroupCommand, Leading, NodeError, NodeOutcome,
    NodeRefusal, Sequence, Stop, StopCause, Unsaid,
};
use raft_machines::StateMachine;
use raft_node::{Fed, Node, Opened, Outcome};
use raft_node_logs::{NodeLog, Unopened, quiet_stop};
use raft_store::{Store, StoreFault};
use std::alloc::{AllocError, Global};
use std::mem;
use std::thread::Threads;

/// A node of a cluster, over a log of its own (own).
#[derive(Drop)]
pub struct LogNode<M: StateMachine, L: NodeLog> {
    alloc: Global,
    id: u64,
    // The node where it is up, which has the log then.
    up: Option<Node<M, Store<M, L>>>,
    // The log's files where it is down.
    files: L::Files,
}

// What a node that is down answers.
fn down<T>() -> Result<T, NodeError>
    ensures { result ≡ refused }
{
    Err(NodeError::Refused(NodeRefusal::Failed))
}

// There is an outcome, where the event is done.
fn some_of(one: Result<NodeOutcome, NodeError>) -> Result<Option<NodeOutcome>, NodeError>
    ensures { result ≡ some_outcome one }
{
    match one {
        Ok(outcome) => Ok(Some(outcome)),
        Err(why) => Err(why),
    }
}

// A stop behind an event that was done, whose tokens are named with the others.
fn stopped_behind(stop: Stop, unsaid: Unsaid) -> NodeError
    ensures { result ≡ Stopped (record stop { unsaid = Some unsaid }) }
{
    NodeError::Stopped(Stop {
        cause: stop.cause,
        unsaid: Some(unsaid),
        unknown: stop.unknown,
    })
}

impl<M: StateMachine, L: NodeLog> LogNode<M, L> {
    // What the node did, as a cluster takes it. Without memory for that the node stops, and the event's
    // own tokens stay unknown with the others.
    fn taken(
        &mut self,
        answered: Result<Outcome, NodeFault<L::Fault>>,
    ) -> Result<NodeOutcome, NodeError>
        ensures id { self.new.id ≡ self.old.id }
        ensures up { is_some self.new.up ≡ is_some self.old.up }
        ensures passed { IfSome self.old.up (λ mid. IsPassed (kind_of M.StateMachine.own L.ContentLog.own L.CrashLog.own L.NodeLog.own) self.old mid answered result self.new) }
    {
        match answered {
            Ok(outcome) => match outcome_of(self.alloc, outcome) {
                Ok(outcome) => Ok(outcome),
                Err(unsaid) => {
                    let stop = self.fail();
                    Err(stopped_behind(stop, unsaid))
                }
            },
            Err(fault) => Err(error_of::<L>(fault)),
        }
    }

    // What a piece did: a frame got whole, or none, or it was refused.
    fn fed(&mut self, fed: Fed<StoreFault<L::Fault>>) -> Result<Option<NodeOutcome>, NodeError>
        ensures id { self.new.id ≡ self.old.id }
        ensures up { is_some self.new.up ≡ is_some self.old.up }
        ensures passed { IfSome self.old.up (λ mid. IsFedOn (kind_of M.StateMachine.own L.ContentLog.own L.CrashLog.own L.NodeLog.own) self.old mid fed.outcomes.items fed.fault result self.new) }
    {
        let Fed {
            mut outcomes,
            fault,
            used: _,
        } = fed;
        if let Some(fault) = fault {
            return Err(error_of::<L>(fault));
        }
        match outcomes.pop() {
            Some(outcome) => {
                let one = self.taken(Ok(outcome));
                some_of(one)
            }
            None => Ok(None),
        }
    }

    // The node is up from now on, and its opening did this. Without memory for that it stays down.
    fn opened(&mut self, opened: Opened<M, Store<M, L>>) -> Result<Sequence<NodeOutcome>, Stop>
        ensures id { self.new.id ≡ self.old.id }
        ensures ok { IfOk result (λ outcomes. outcomes ≡ map node_outcome opened.outcomes.items) }
        ensures up { OnOk result (self.new.up ≡ Some opened.node) }
        ensures err { IfErr result (λ stop. stop ≡ quiet_stop Memory) }
        ensures down { OnErr result (self.new.up ≡ self.old.up) }
        ensures files { OnErr result (AreHandedBack (kind_of M.StateMachine.own L.ContentLog.own L.CrashLog.own L.NodeLog.own) opened.node self.new.files) }
        ensures hands_back { OnErr result (L.hands_back opened.node.groups.storage.log self.new.files) }
    {
        let Opened { node, outcomes } = opened;
        match outcomes_of(self.alloc, outcomes) {
            Ok(outcomes) => {
                self.up = Some(node);
                Ok(outcomes)
            }
            Err(_) => {
                self.files = files_back(node);
                Err(quiet_stop(self.alloc, StopCause::Memory))
            }
        }
    }
}

impl<M: StateMachine, L: NodeLog> LogNode<M, L> {
    // The node goes down, with its files as they are.
    fn go_down(&mut self)
        ensures id { self.new.id ≡ self.old.id }
        ensures down { self.new.up ≡ None }
        ensures same { self.old.up ≡ None → self.new ≡ self.old }
        ensures hands_back { IfSome self.old.up (λ n. L.hands_back n.groups.storage.log self.new.files) }
        ensures finds { IfSome self.old.up (λ n. (content : Content (List ℕ)) → L.found self.new.files content → L.finds n.groups.storage.log content) }
        ensures shown { IfSome self.old.up (λ n. AreHandedBack (kind_of M.StateMachine.own L.ContentLog.own L.CrashLog.own L.NodeLog.own) n self.new.files) }
    {
        if let Some(node) = self.up.take() {
            self.files = files_back(node);
        }
    }
}

impl<M: StateMachine, L: NodeLog> ClusterNode for LogNode<M, L> {
    ghost use Rattle.raft_nodes_on_logs.specs.Acts.{log_node_acts, log_node_states};

    type Machine = M;

    type Settings = L::Settings;

    ghost acts = { log_node_acts (kind_of M.StateMachine.own L.ContentLog.own L.CrashLog.own L.NodeLog.own) };

    ghost states = { log_node_states (kind_of M.StateMachine.own L.ContentLog.own L.CrashLog.own L.NodeLog.own) };

    fn begin<R: Threads + Sync>(
        rt: &R,
        alloc: Global,
        id: u64,
        settings: &L::Settings,
    ) -> Result<Self, AllocError> {
        let files = L::new_files(alloc, settings)?;
        let mut node = LogNode {
            alloc,
            id,
            up: None,
            files,
        };
        // Where its files can't be opened it is down.
        let _ = node.reopen(rt, 1);
        Ok(node)
    }

    fn id(&self) -> u64 {
        self.id
    }

    fn is_up(&self) -> bool {
        self.up.is_some()
    }

    fn add_group(&mut self, group: u64) -> Result<NodeOutcome, NodeError> {
        match &mut self.up {
            Some(node) => {
                let answered = node.add_group(group);
                self.taken(answered)
            }
            None => down(),
        }
    }

    fn ask(&mut self, group: u64, call: &GroupCommand, now: u64) -> Result<NodeOutcome, NodeError> {
        match &mut self.up {
            Some(node) => {
                let answered = node.call(group, call, now);
                self.taken(answered)
            }
            None => down(),
        }
    }

    fn feed(
        &mut self,
        peer: u64,
        piece: &[u8],
        now: u64,
    ) -> Result<Option<NodeOutcome>, NodeError> {
        match &mut self.up {
            Some(node) => {
                let fed = node.feed(peer, piece, now);
                self.fed(fed)
            }
            None => down(),
        }
    }

    fn reset_peer(&mut self, peer: u64) -> Result<(), NodeError> {
        match &mut self.up {
            Some(node) => match node.reset_peer(peer) {
                Ok(()) => Ok(()),
                Err(fault) => Err(error_of::<L>(fault)),
            },
            None => down(),
        }
    }

    fn clean_files(&mut self) -> Result<Sequence<u64>, NodeError> {
        match &mut self.up {
            Some(node) => match node.clean_files() {
                Ok(groups) => Ok(Sequence::from_vec(groups)),
                Err(why) => Err(error_of::<L>(why)),
            },
            None => down(),
        }
    }

    fn fail(&mut self) -> Stop {
        match &mut self.up {
            Some(node) => as_stop::<L>(self.alloc, node.fail()),
            None => quiet_stop(self.alloc, StopCause::Memory),
        }
    }

    fn fuse(&mut self, first_refused: Option<u64>) {
        match &mut self.up {
            Some(node) => node.fuse(first_refused),
            None => L::fuse_files(&mut self.files, first_refused),
        }
    }

    fn crash(&mut self, choice: &CrashChoice) -> Result<(), CrashRefusal> {
        let Some(node) = &mut self.up else {
            return Ok(());
        };
        let Ok(chosen) = L::choice_of(self.alloc, choice) else {
            return Err(CrashRefusal::Memory);
        };
        match node.crash(&chosen) {
            Ok(()) => {
                self.go_down();
                Ok(())
            }
            Err(why) => Err(L::refusal_of(why)),
        }
    }

    fn close(&mut self) {
        self.go_down();
    }

    fn reopen<R: Threads + Sync>(
        &mut self,
        rt: &R,
        workers: u64,
    ) -> Result<Sequence<NodeOutcome>, Stop> {
        if self.up.is_some() {
            return Ok(Sequence::new(self.alloc));
        }
        let none = L::no_files(self.alloc);
        let files = mem::replace(&mut self.files, none);
        match open_over_log(rt, self.alloc, self.id, files, workers) {
            Ok(opened) => self.opened(opened),
            Err(Unopened { stop, files }) => {
                self.files = files;
                Err(stop)
            }
        }
    }

    fn machine(&self, group: u64) -> Option<&M> {
        match &self.up {
            Some(node) => machine_of(node, group),
            None => None,
        }
    }

    fn applied(&self, group: u64) -> Option<u64> {
        match &self.up {
            Some(node) => place_of(node, group),
            None => None,
        }
    }

    fn leading(&self, group: u64) -> Option<Leading> {
        match &self.up {
            Some(node) => node.leading(group),
            None => None,
        }
    }
}
