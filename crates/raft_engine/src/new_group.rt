//! The engine of a group that a node was just added to.
ghost use Rattle.std.specs.Prelude.{◌≡◌, IfOk, None, true};
ghost use Rattle.raft_group_step.specs.GroupState.{no_group, state_of};
ghost use Rattle.raft_group_step.specs.GroupEvent.{GroupEvent};
ghost use Rattle.raft_group_step.specs.Refusal.{refusal_of};
ghost use Rattle.raft_engine.specs.Events.{MayTake};

use crate::engine::Engine;
use raft_commands::RaftTypeConfig;
use raft_known_state::KnownState;
use raft_state::{BasicNode, Bytes, SnapshotMeta, Vote};
use std::alloc::{AllocError, Global};

impl<C: RaftTypeConfig<NodeId = u64, Node = BasicNode, D = Bytes>> Engine<C> {
    /// The engine of a node that has the group, and nothing in it (own): it may take each event
    /// that isn't refused. It fails for want of memory alone.
    pub fn for_new_group(alloc: Global, id: u64) -> Result<Engine<C>, AllocError>
        ensures { IfOk result (λ e. (event : GroupEvent) → refusal_of id (state_of (record no_group { present = true })) event ≡ None
            → MayTake id e (state_of (record no_group { present = true })) event) }
    {
        let meta = SnapshotMeta::default(alloc);
        let known = KnownState::load(alloc, Vote::new(0, 0), None, meta, &[])?;
        Ok(Engine::of_node(alloc, known, id))
    }
}
