//! Where an opening, a crash, a cleaning and a stream that begins anew lead the groups of their node.
ghost use Rattle.std.specs.Prelude.{ℕ};
ghost use Rattle.raft_machines.specs.Machine.{MachineRules};
ghost use Rattle.raft_node.specs.Standing.{value_of};
ghost use Rattle.raft_node_joint.specs.Reopening.{AbsentGroupsStoreNothing, DownFusesLead, DownNodesAreReopened, FusesLead};
ghost use Rattle.raft_node_joint.specs.Reopening.{ClosedOpeningsLead, LeftOpeningsLead, OpeningsLead};
ghost use Rattle.raft_node_joint.specs.Reopening.{CrashesLead, OwnMessages, RefusedOpeningsLead};
ghost use Rattle.raft_node_joint.specs.Reopening.{CleaningsLead, ResetsLead, StoppedCleaningsLead, StopsNameNobody};

use raft_group_storage::GroupStorage;
use raft_machines::StateMachine;
use raft_messages::SnapshotBytes;
use raft_node::{Fault, Node, Outcome};

/// What a history leads to at a node that is down can be opened, and nothing is stored there of a
/// group that isn't there.
pub fn down_nodes_are_reopened()
    ensures reopened { DownNodesAreReopened }
    ensures absent { AbsentGroupsStoreNothing }
{}

/// Each message that an event sent names its node as the sender.
pub fn nodes_send_their_own()
    ensures { OwnMessages }
{}

/// A node that was opened over what a history leads to: the opening leads each of its groups on, by
/// one outcome with a part for each group that is there. Where the node goes down again, that leads
/// on as a stop behind the last storing command of each group's opening.
pub fn openings_lead_on<M: StateMachine, S: GroupStorage<Snapshot = SnapshotBytes>>(
    node: &Node<M, S>,
    outcomes: &[Outcome],
)
    ensures opened { OpeningsLead M.rules S.stands (value_of M.state S.is_well S.shows S.fails node.now) outcomes.now }
    ensures closed { ClosedOpeningsLead M.rules S.stands (value_of M.state S.is_well S.shows S.fails node.now) outcomes.now }
{}

/// An opening that stopped leads each group to what the storage shows of it, and names no token. One
/// before which nothing was begun leaves the node in the states in which it may have been.
pub fn stopped_openings_lead_on<S: GroupStorage<Snapshot = SnapshotBytes>>(
    storage: &S,
    fault: &Fault<S::Fault>,
)
    ensures left { (rules : MachineRules) (own : ℕ) → LeftOpeningsLead rules own (S.shows storage.now) (S.fails storage.now) fault.now }
    ensures names { StopsNameNobody fault.now }
    ensures refused { RefusedOpeningsLead }
{}

/// A crash leads each group of its node to what the storage shows of it.
pub fn crashes_lead_on<M: StateMachine, S: GroupStorage<Snapshot = SnapshotBytes>>(
    node: &Node<M, S>,
)
    ensures { CrashesLead M.rules (value_of M.state S.is_well S.shows S.fails node.now) }
{}

/// A peer's stream that begins anew leaves each group in the states in which it may have been.
pub fn resets_lead_on<M: StateMachine, S: GroupStorage<Snapshot = SnapshotBytes>>(
    before: &Node<M, S>,
    behind: &Node<M, S>,
)
    ensures { ResetsLead M.rules (value_of M.state S.is_well S.shows S.fails before.now) (value_of M.state S.is_well S.shows S.fails behind.now) }
{}

/// A cleaning of a node's files leaves each group in the states in which it may have been, also where
/// the node has failed and passes it over. Where the storage fails in it each group sees that its node
/// halted, with no storing command done.
pub fn cleanings_lead_on<M: StateMachine, S: GroupStorage<Snapshot = SnapshotBytes>>(
    before: &Node<M, S>,
    behind: &Node<M, S>,
    fault: &Fault<S::Fault>,
)
    ensures done { CleaningsLead M.rules (value_of M.state S.is_well S.shows S.fails before.now) (value_of M.state S.is_well S.shows S.fails behind.now) }
    ensures stopped { StoppedCleaningsLead M.rules (value_of M.state S.is_well S.shows S.fails before.now) (value_of M.state S.is_well S.shows S.fails behind.now) fault.now }
{}

/// A fuse of a node's files leaves each group in the states in which it may have been, whether the node
/// is up or down.
pub fn fuses_lead_on<M: StateMachine, S: GroupStorage<Snapshot = SnapshotBytes>>(
    before: &Node<M, S>,
    behind: &Node<M, S>,
)
    ensures up { FusesLead M.rules (value_of M.state S.is_well S.shows S.fails before.now) (value_of M.state S.is_well S.shows S.fails behind.now) }
    ensures down { DownFusesLead }
{}
