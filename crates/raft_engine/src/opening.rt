//! A node starts with what it has stored.
ghost use Rattle.std.specs.Prelude.{IfOk, None};
ghost use Rattle.raft_group_step.specs.StoredGroup.{Snapshot};
ghost use Rattle.raft_group_step.specs.GroupState.{GroupState};
ghost use Rattle.raft_group_step.specs.GroupStep.{finished};
ghost use Rattle.raft_group_step.specs.Opening.{resume_lead};
ghost use Rattle.raft_group_step.specs.StepResult.{unchanged};
ghost use Rattle.raft_engine.specs.Clock.{HasHeardOfNobody};
ghost use Rattle.raft_engine.specs.Opening.{OpensAs, given_at_opening};
ghost use Rattle.raft_engine.specs.Standing.{IsWholeStepOf};

use crate::engine::Engine;
use raft_commands::RaftTypeConfig;
use raft_known_state::KnownState;
use raft_state::{BasicNode, Bytes};
use std::alloc::{AllocError, Global};

impl<C: RaftTypeConfig<NodeId = u64, Node = BasicNode, D = Bytes>> Engine<C> {
    /// The engine of a node that starts with what it knows of its stored group (own; openraft's `new`
    /// and `startup`). What is known may have been read entry by entry (`KnownState::begin`,
    /// `append`). What the stored snapshot covers is committed, and the node leads on under a
    /// committed vote of its own, and else follows. What the runtime is to do then is queued. It
    /// fails for want of memory alone.
    pub fn open(
        alloc: Global,
        known: KnownState<u64, BasicNode>,
        id: u64,
    ) -> Result<Engine<C>, AllocError>
        ensures heard { IfOk result (λ e. HasHeardOfNobody e.leader) }
        ensures opened { (x : Snapshot) (s : GroupState) → OpensAs id known s
            → IfOk result (λ e. IsWholeStepOf (given_at_opening x s) id e (finished id None (resume_lead id (unchanged s)))) }
    {
        let covered = known.state.snapshot_meta.last_log_id;
        let mut engine = Engine::of_node(alloc, known, id);
        engine.state.commit(covered)?;
        engine.startup()?;
        Ok(engine)
    }
}
