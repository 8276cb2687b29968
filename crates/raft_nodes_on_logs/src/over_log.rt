//! A node over a log: its opening, and the log's files handed back.
ghost use Rattle.std.specs.Prelude.{◌⊎◌, ℕ, List, IfErr, IfOk};
ghost use Rattle.raft_log_memtables.specs.Content.{Content};
ghost use Rattle.raft_nodes_on_logs.specs.Acts.{AreHandedBack, IsLeftOpening, IsOpened};
ghost use Rattle.raft_nodes_on_logs.specs.Kinds.{kind_of};
ghost use Rattle.raft_node_logs.specs.Opening.{IsRefusedOpening};

use crate::faults::as_stop;
use raft_machines::StateMachine;
use raft_node::{Node, NotOpened, Opened};
use raft_node_logs::{NodeLog, Unopened};
use raft_store::Store;
use std::alloc::Global;
use std::thread::Threads;

/// A node with all groups that its log's files have (own), opened by so many workers. Where its groups
/// aren't opened the files are handed back.
pub fn open_over_log<M: StateMachine, L: NodeLog, R: Threads + Sync>(
    rt: &R,
    alloc: Global,
    id: u64,
    files: L::Files,
    workers: u64,
) -> Result<Opened<M, Store<M, L>>, Unopened<L::Files>>
    ensures ok { IfOk result (λ o. IsOpened (kind_of M.StateMachine.own L.ContentLog.own L.CrashLog.own L.NodeLog.own) files id o.node o.outcomes.items) }
    ensures err { IfErr result (λ u. IsRefusedOpening L.found L.unopened files u.stop u.files
        ⊎ IsLeftOpening (kind_of M.StateMachine.own L.ContentLog.own L.CrashLog.own L.NodeLog.own) files id u.stop u.files) }
{
    let log = L::open(rt, alloc, files, workers)?;
    match Node::open(alloc, id, Store::new(alloc, log)) {
        Ok(opened) => Ok(opened),
        Err(NotOpened { fault, storage }) => Err(Unopened {
            stop: as_stop::<L>(alloc, fault),
            files: storage.into_log().into_files(),
        }),
    }
}

/// The files of the node's log, handed back as they are, with no call on them (own), as where its
/// machine stops.
pub fn files_back<M: StateMachine, L: NodeLog>(node: Node<M, Store<M, L>>) -> L::Files
    ensures hands_back { L.hands_back node.groups.storage.log result }
    ensures finds { (content : Content (List ℕ)) → L.found result content → L.finds node.groups.storage.log content }
    ensures shown { AreHandedBack (kind_of M.StateMachine.own L.ContentLog.own L.CrashLog.own L.NodeLog.own) node result }
{
    node.into_storage().into_log().into_files()
}
