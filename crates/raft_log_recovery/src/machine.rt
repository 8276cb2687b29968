//! What batches are replayed into at an opening.

ghost use Rattle.std.specs.Prelude.{◌≡◌, ◌++◌, ◌∷◌, [], List, IfErr, OnOk};
ghost use Rattle.raft_log_files.specs.declared.error.Error.TheVariants.{Memory};
ghost use Rattle.raft_log_records.specs.Item.{items_of};
ghost use Rattle.raft_log_recovery.specs.Replay.{Placed};

use raft_log_files::Error;
use raft_log_records::{FileBlockHandle, LogItemBatch};
use std::alloc::Global;

/// A machine into which batches of log files are replayed in their order (raft-engine's
/// `ReplayMachine`).
pub trait ReplayMachine {
    /// The machine has replayed just these batches.
    ghost has_replayed: { Self → List Placed → Type 0 };

    /// Replays the next batch, whose entries lie in this block. After an `Err` the machine is given
    /// up. The only error is want of memory.
    fn replay(&mut self, batch: LogItemBatch, handle: FileBlockHandle) -> Result<(), Error>
        ensures replayed { OnOk result ((placed : List Placed) → has_replayed self.old placed
            → has_replayed self.new (placed ++ record { handle = handle; items = items_of batch.items.items } ∷ [])) }
        ensures err { IfErr result (λ e. e ≡ Memory) };
}

/// A machine whose parts can be replayed each by itself (own; raft-engine has this in
/// `ReplayMachine`): merged in the order of their files they are as one replay of all.
pub trait MergeMachine: ReplayMachine {
    /// Adds what a machine has replayed that was given the batches behind those of this one. After
    /// an `Err` the machine is given up. The only error is want of memory.
    fn merge(&mut self, behind: Self) -> Result<(), Error>
        ensures replayed { OnOk result ((placed : List Placed) (more : List Placed) → Self.ReplayMachine.has_replayed self.old placed → Self.ReplayMachine.has_replayed behind more
            → Self.ReplayMachine.has_replayed self.new (placed ++ more)) }
        ensures err { IfErr result (λ e. e ≡ Memory) };
}

/// A machine that can be made new (own).
pub trait NewMachine: ReplayMachine {
    /// A machine that has replayed nothing.
    fn new_machine(alloc: Global) -> Self
        ensures { Self.ReplayMachine.has_replayed result [] };
}

/// Makes machines for a replay (raft-engine's `Factory`).
pub trait Factory<M: ReplayMachine> {
    /// A machine that has replayed nothing.
    fn new_target(&self) -> M
        ensures { M.has_replayed result [] };
}

/// Makes new machines (raft-engine's `DefaultMachineFactory`).
#[derive(Drop)]
pub struct DefaultMachineFactory {
    pub(crate) alloc: Global,
}

impl DefaultMachineFactory {
    /// A factory whose machines take their memory here.
    pub fn new(alloc: Global) -> DefaultMachineFactory {
        DefaultMachineFactory { alloc }
    }
}

impl<M: NewMachine> Factory<M> for DefaultMachineFactory {
    fn new_target(&self) -> M {
        M::new_machine(self.alloc)
    }
}
