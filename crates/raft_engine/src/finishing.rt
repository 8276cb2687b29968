//! The end of an event: a leader commits, purges as wished, and sends; the node's part is noted.
ghost use Rattle.std.specs.Prelude.{◌≡◌, OnOk, ℕ, [], false};
ghost use Rattle.raft_values.specs.LogId.{place_of};
ghost use Rattle.raft_group_step.specs.GroupState.{GroupState};
ghost use Rattle.raft_group_step.specs.StepResult.{StepResult};
ghost use Rattle.raft_group_step.specs.GroupStep.{finished};
ghost use Rattle.raft_engine.specs.Building.{with_building};
ghost use Rattle.raft_engine.specs.Clock.{KeepsHeard};
ghost use Rattle.raft_engine.specs.Events.{CanFinish};
ghost use Rattle.raft_engine.specs.Standing.{Given, IsStateOf, IsStepOf, IsWholeStepOf};

use crate::engine::Engine;
use raft_commands::RaftTypeConfig;
use raft_state::{BasicNode, Bytes, LogId, LogIdOptionExt};
use std::alloc::AllocError;

impl<C: RaftTypeConfig<NodeId = u64, Node = BasicNode, D = Bytes>> Engine<C> {
    // The part that the node plays is noted: the step is whole then, but for what a leader sends.
    fn note_part(&mut self)
        ensures leader { self.new.leader ≡ self.old.leader }
        ensures step { (x : Given) (own : _) (r : StepResult) → IsStepOf x own self.old r → IsWholeStepOf x own self.new r }
    {
        self.server_state_handler().update_server_state_if_changed();
    }

    // Then a leader commits, purges as wished, and sends; before: what was committed as the event
    // began.
    pub(crate) fn finish(&mut self, before: Option<LogId<u64>>) -> Result<(), AllocError>
        ensures heard { OnOk result (KeepsHeard self.old.leader self.new.leader) }
        ensures step { (x : Given) (own : _) (r : StepResult) → IsStepOf x own self.old r → CanFinish own r.state r.state.role
            → OnOk result (IsWholeStepOf x own self.new (finished own (place_of before) r)) }
    {
        if self.leader.is_none() {
            self.note_part();
            return Ok(());
        }
        if !self.has_room() {
            return Ok(());
        }
        self.commit_as_leader()?;
        self.purge_as_wished()?;
        self.note_part();
        self.with_frames(before.index())
    }

    /// The runtime has done what the queue asks for, or has given it up (own): nothing is queued
    /// any more, and no snapshot is being built. Then the engine may take the next event.
    pub fn end_event(&mut self)
        ensures ends { self.new ≡ record (with_building false self.old) { output = record self.old.output { queue = [] } } }
        ensures stands { (own : ℕ) (s : GroupState) → IsStateOf own self.old s → IsStateOf own self.new s }
    {
        self.output.clear();
        self.state.state.io_state.set_building_snapshot(false);
    }
}
