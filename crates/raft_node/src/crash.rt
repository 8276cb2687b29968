//! A node's machine is made to stop, for simulations.
ghost use Rattle.std.specs.Prelude.{◌≡◌, IfErr, OnErr, OnOk};

use crate::node::Node;
use raft_group_storage::{CrashStorage, GroupStorage};
use raft_machines::StateMachine;
use raft_messages::SnapshotBytes;

impl<M: StateMachine, S: GroupStorage<Snapshot = SnapshotBytes> + CrashStorage> Node<M, S> {
    /// Leaves of what is stored what the choice says (own). The node is only to give its storage back
    /// then. A refusal, want of memory too, leaves it as it was.
    pub fn crash(&mut self, choice: &S::Choice) -> Result<(), S::Refusal>
        ensures crashed { OnOk result (S.CrashStorage.crashed self.old.groups.storage choice.now self.new.groups.storage) }
        ensures why { IfErr result (λ why. S.CrashStorage.refuses self.old.groups.storage choice.now why) }
        ensures err { OnErr result (self.new ≡ self.old) }
    {
        self.groups.storage.crash(choice)
    }
}
