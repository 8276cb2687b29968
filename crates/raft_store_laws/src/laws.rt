//! What a step stores in any history a store takes.
ghost use Rattle.raft_machines.specs.Adding.{adding};
ghost use Rattle.raft_store_laws.specs.Storable.{CommandsAreStorable, HasShortSnapshots, OpeningsAreStorable};

use raft_machines::StateMachine;

/// Where the machine's snapshots have no more bytes than one may have, a store takes whatever comes to
/// be stored in any history of its group, by an event or by an opening (own): it refuses none of that
/// but for want of memory.
pub fn stored_commands_are_storable<M: StateMachine>()
    ensures commands { HasShortSnapshots M.rules → CommandsAreStorable M.rules }
    ensures openings { HasShortSnapshots M.rules → OpeningsAreStorable M.rules }
{}

/// The adding machine is such a machine: its snapshot has eight bytes (own).
pub fn adding_machines_have_short_snapshots()
    ensures { HasShortSnapshots adding }
{}
