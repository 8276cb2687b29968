//! A node on the files of a directory.
ghost use Rattle.std.specs.Prelude.{◌≡◌, ℕ, false, is_some, string_bytes, IfErr, IfOk};
ghost use Rattle.std.specs.BTreeMap.{get};
ghost use Rattle.std.specs.Ordering.{nat_cmp};
ghost use Rattle.raft_disk_node.specs.Refusals.{IsOfLog, IsRefusal};
ghost use Rattle.raft_node.specs.Standing.{feeding_of};
ghost use Rattle.raft_wire.specs.Stream.{fresh};

use crate::fault::{NotOpenedDisk, SystemCause};
use raft_host_log::{HostFiles, HostLog};
use raft_log_engine::{MemoryLog, NotOpened as LogNotOpened};
use raft_log_files::Config;
use raft_log_host::HostFileSystem;
use raft_machines::StateMachine;
use raft_node::{Node, NotOpened, Opened};
use raft_store::Store;
use std::alloc::Global;
use std::thread::Threads;

/// Where a node on a directory keeps its groups.
pub type DiskStore<M> = Store<M, HostLog>;

/// A node on a directory, of which each group has such a machine.
pub type DiskNode<M> = Node<M, DiskStore<M>>;

/// Where a node over files in memory keeps its groups.
pub type MemoryStore<M> = Store<M, MemoryLog>;

/// A node over files in memory, as tests have: its faults are those of a node on a directory.
pub type MemoryNode<M> = Node<M, MemoryStore<M>>;

// Why the system refused a call of the files, if it did.
fn cause_of(files: &HostFileSystem) -> SystemCause
    ensures { is_some result.0 ≡ files.now.has_failed }
{
    match files.cause() {
        Some(why) => SystemCause(Some(*why)),
        None => SystemCause(None),
    }
}

// The log over the files of a directory.
fn log_on<R: Threads + Sync>(
    threads: &R,
    alloc: Global,
    files: HostFiles,
) -> Result<HostLog, NotOpenedDisk>
    ensures sound { IfOk result (λ log. log.has_failed ≡ false) }
    ensures settings { IfOk result (λ log. log.settings ≡ files.settings) }
    ensures refused { IfErr result (IsOfLog files.settings files.files) }
{
    match HostLog::open_by_workers(threads, alloc, files) {
        Ok(log) => Ok(log),
        Err(LogNotOpened { fault, files }) => {
            let cause = cause_of(&files.files);
            Err(NotOpenedDisk::Log { fault, cause })
        }
    }
}

// The log of a directory, which belongs to this node.
fn log_in<R: Threads + Sync>(
    rt: HostRuntime,
    threads: &R,
    directory: &str,
    id: u64,
    settings: Config,
) -> Result<HostLog, NotOpenedDisk>
    ensures sound { IfOk result (λ log. log.has_failed ≡ false) }
    ensures inside { IfOk result (λ log. string_bytes log.settings.dir ≡ directory.now) }
    ensures refused { IfErr result (IsRefusal directory.now) }
{
    let mut settings = settings;
    settings.dir = String::from_str(rt.alloc(), directory)?;
    let files = HostFileSystem::open(rt, directory, id)?;
    log_on(threads, rt.alloc(), HostFiles { settings, files })
}

/// Opens the node of this id on a directory (own), which is made if it isn't there, and from then on
/// belongs to this node alone. `settings` are those of its log; their `dir` becomes the directory. The
/// handle `threads` makes the workers that read the log. A refusal names the layer: nothing stays open
/// then, and the call may be tried again.
pub fn open_disk_node<M: StateMachine, R: Threads + Sync>(
    rt: HostRuntime,
    threads: &R,
    directory: &str,
    id: u64,
    settings: Config,
) -> Result<Opened<M, DiskStore<M>>, NotOpenedDisk>
    ensures id { IfOk result (λ o. o.node.groups.id ≡ id) }
    ensures going { IfOk result (λ o. o.node.groups.has_failed ≡ false) }
    ensures streams { (peer : ℕ) → IfOk result (λ o. feeding_of (get nat_cmp o.node.feeders peer) ≡ fresh) }
    ensures refused { IfErr result (IsRefusal directory.now) }
{
    let log = log_in(rt, threads, directory, id, settings)?;
    let store: DiskStore<M> = Store::new(rt.alloc(), log);
    match Node::open(rt.alloc(), id, store) {
        Ok(opened) => Ok(opened),
        Err(NotOpened { fault, storage }) => {
            let cause = cause_of(storage.log().files());
            Err(NotOpenedDisk::Node { fault, cause })
        }
    }
}
