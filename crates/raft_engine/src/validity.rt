//! What is wrong with what an engine knows.
ghost use Rattle.std.specs.Prelude.{◌≡◌, ℕ, OnOk, IfErr, Ok, None, Some};
ghost use Rattle.std.specs.Ordering.{nat_cmp};
ghost use Rattle.raft_state.specs.State.{state_fault};
ghost use Rattle.raft_group_step.specs.GroupState.{GroupState};
ghost use Rattle.raft_engine.specs.Standing.{IsStateOf};
ghost use Rattle.raft_engine.specs.Valid.{IsRising, MayWish};

use crate::engine::Engine;
use raft_commands::RaftTypeConfig;
use raft_state::{BasicNode, Bytes, Invalid, Validate};

impl<C: RaftTypeConfig<NodeId = u64, Node = BasicNode, D = Bytes>> Engine<C> {
    /// What is wrong with what the engine knows of its group, the first fault of `RaftState`'s fixed
    /// order (own; openraft asserts the same of its state). Nothing is where the log's leaders never
    /// fall, as a log is that no lying peer wrote, and what is still to be purged is an entry of
    /// the log that the snapshot has.
    pub fn validate(&self) -> Result<(), Invalid>
        ensures ok { OnOk result (state_fault nat_cmp self.now.state.state ≡ None) }
        ensures err { IfErr result (λ e. state_fault nat_cmp self.now.state.state ≡ Some e) }
        ensures valid { (own : ℕ) (s : GroupState) → IsStateOf own self.now s → IsRising s.stored → MayWish s.stored self.now.state.wish → result ≡ Ok tt }
    {
        self.state.state.validate()
    }
}
