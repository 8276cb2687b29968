//! Where a node has its storage.
ghost use Rattle.std.specs.Prelude.{◌≡◌};
ghost use Rattle.std.specs.Thread.{IsSync};
ghost use Rattle.raft_node_script.specs.Home.{label_of};

use raft_group_storage::GroupStorage;
use raft_messages::SnapshotBytes;
use raft_node_status::LogStatus;
use raft_script_machines::ScriptMachine;
use raft_storage_cleaning::CleanStorage;
use std::thread::Threads;

/// Why a node's storage isn't opened (own).
#[derive(Clone, Copy, Debug, PartialEq, Eq)]
pub enum HomeRefusal {
    /// S1: the system refused a call.
    System,
    /// S2: another process has it open.
    InUse,
    /// S3: it belongs to another node.
    OtherNode,
    /// S4: what lies there is no log that was written so.
    Damaged,
    /// S5: want of memory.
    Memory,
}

impl HomeRefusal {
    /// Its number and its name.
    pub fn label(&self) -> &'static str
        ensures { result.now ≡ label_of self.now }
    {
        match self {
            HomeRefusal::System => "S1 System",
            HomeRefusal::InUse => "S2 InUse",
            HomeRefusal::OtherNode => "S3 OtherNode",
            HomeRefusal::Damaged => "S4 Damaged",
            HomeRefusal::Memory => "S5 Memory",
        }
    }
}

/// Where a node has its storage (own): a process, or the next one, opens it there again.
pub trait NodeHome: Drop {
    /// What its groups' commands run on.
    type Machine: ScriptMachine;

    /// The node's groups, stored.
    type Storage: GroupStorage<Snapshot = SnapshotBytes> + CleanStorage;

    /// Opens what is stored, as after a crash, on threads that the handle makes: they share it.
    fn open<R: Threads + Sync>(&mut self, rt: &R) -> Result<Self::Storage, HomeRefusal>
        requires shared { IsSync R.row };

    /// The node has stopped: why its storage failed may be said somewhere.
    fn complain(&self, storage: &Self::Storage);

    /// How many files the storage has, and how many bytes they take.
    fn log_status(&self, storage: &Self::Storage) -> LogStatus;
}
