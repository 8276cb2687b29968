//! A node's files are made to refuse calls, for simulations.
ghost use Rattle.std.specs.Prelude.{◌≡◌};
ghost use Rattle.raft_group_storage.specs.Keeping.{KeepsAll};

use crate::node::Node;
use raft_group_storage::GroupStorage;
use raft_machines::StateMachine;
use raft_messages::SnapshotBytes;
use raft_storage_fuse::FuseStorage;

impl<M: StateMachine, S: GroupStorage<Snapshot = SnapshotBytes> + FuseStorage> Node<M, S> {
    /// Its storage's files refuse each changing call from this one on, the first one counted as 1;
    /// with none they refuse no call any more (own). Nothing else changes.
    pub fn fuse(&mut self, first_refused: Option<u64>)
        ensures same { self.new ≡ record self.old { groups = record self.old.groups { storage = self.new.groups.storage } } }
        ensures fused { S.FuseStorage.fused self.old.groups.storage first_refused self.new.groups.storage }
        ensures well { S.GroupStorage.is_well self.old.groups.storage → S.GroupStorage.is_well self.new.groups.storage }
        ensures kept { KeepsAll (S.GroupStorage.shows self.old.groups.storage) (S.GroupStorage.shows self.new.groups.storage) }
    {
        self.groups.storage.fuse(first_refused);
    }
}
