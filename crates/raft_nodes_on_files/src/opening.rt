//! Nodes on files: their opening, and files that are lent and handed back.
ghost use Rattle.std.specs.Prelude.{◌≡◌, ◌⊎◌, IfErr, IfOk, false};
ghost use Rattle.raft_log_disk.specs.MemorySystem.{meter_in};
ghost use Rattle.raft_log_engine.specs.Caused.{IsSyncFault};
ghost use Rattle.raft_log_engine.specs.Closing.{handed_back};
ghost use Rattle.raft_node_logs.specs.Files.{AreNotOpened};
ghost use Rattle.raft_nodes_on_files.specs.OnFiles.{AreHandedBack, IsLeftOpening, IsOpened};

use raft_log_engine::{LogFiles, MemoryLog, NotClosed};
use raft_log_files::MemoryFileSystem;
use raft_machines::StateMachine;
use raft_node::{Node, Opened};
use raft_node_logs::Unopened;
use raft_nodes_on_logs::open_over_log;
use raft_store::Store;
use std::alloc::Global;
use std::thread::Threads;

/// Where a node on files keeps its groups.
pub type Kept<M> = Store<M, MemoryLog>;

/// A node with all groups that its files have, which so many workers read: 0 counts as 1, and there
/// are no more than files or than 64.
pub fn open_node<M: StateMachine, R: Threads + Sync>(
    rt: &R,
    alloc: Global,
    id: u64,
    files: LogFiles,
    workers: u64,
) -> Result<Opened<M, Kept<M>>, Unopened<LogFiles>>
    ensures ok { IfOk result (λ o. IsOpened M.rules M.state files id o.node o.outcomes.items) }
    ensures err { IfErr result (λ u. AreNotOpened files u.stop u.files ⊎ IsLeftOpening M.StateMachine.own M.rules M.state files id u.stop u.files) }
{
    open_over_log::<M, MemoryLog, R>(rt, alloc, id, files, workers)
}

/// The node's files, handed back in any case, once its log is closed (own: `close`): the last one is
/// cut and synced. A refusal is told, also where a write failed. What an opening finds of the files is
/// what the node showed of each group.
pub fn close_node<M: StateMachine>(node: Node<M, Kept<M>>) -> Result<LogFiles, NotClosed<LogFiles>>
    ensures settings { (handed_back result).settings ≡ node.groups.storage.log.settings }
    ensures shown { AreHandedBack M.rules M.state node (handed_back result) }
    ensures cause { IfErr result (λ refused. node.groups.storage.log.has_failed ≡ false
        → IsSyncFault node.groups.storage.log.engine (meter_in node.groups.storage.log.engine.files) (meter_in refused.files.files) refused.fault) }
{
    node.into_storage().into_log().close()
}

/// The node's files, lent for reading (own: `files`).
pub fn files_of<M: StateMachine>(node: &Node<M, Kept<M>>) -> &MemoryFileSystem
    ensures { result.now ≡ node.now.groups.storage.log.engine.files }
{
    node.storage().log().files()
}

/// The node's files, handed back as they are, with no call on them (own: `abandon`), as where its
/// machine stops.
pub fn abandon_node<M: StateMachine>(node: Node<M, Kept<M>>) -> LogFiles
    ensures files { result.files ≡ node.groups.storage.log.engine.files }
    ensures settings { result.settings ≡ node.groups.storage.log.settings }
    ensures shown { AreHandedBack M.rules M.state node result }
{
    node.into_storage().into_log().into_files()
}
