//! What a node does with an event leads its groups on.
ghost use Rattle.std.specs.Prelude.{◌≡◌, ℕ};
ghost use Rattle.raft_group_step.specs.GroupEvent.{GroupEvent};
ghost use Rattle.raft_wire.specs.declared.frame.Frame.{Frame};
ghost use Rattle.raft_node.specs.Feeding.{StaysBut, fed_as};
ghost use Rattle.raft_node.specs.Standing.{value_of};
ghost use Rattle.raft_node_joint.specs.Leading.{AddingsLead, EventsLead, FailedNodesPass, FailuresLead, FramesLead};
ghost use Rattle.raft_node_joint.specs.Leading.{RefusedEventsDontStop, StaysInAll, StopsBehindLead};
ghost use Rattle.raft_node_joint.specs.Leading.{AnsweredAddingsWereDone, AnsweredEventsWereDone, AnsweredFramesWereDone};

use raft_group_storage::GroupStorage;
use raft_machines::StateMachine;
use raft_messages::SnapshotBytes;
use raft_node::{Fault, Node, Outcome};

/// Whatever a node that stands in a history answers to a call, an adding or a frame of a message that
/// was sent: one outcome says it, and leads each of the node's groups on as a cluster asks. The two
/// nodes are the one before the event and the one behind it.
pub fn events_lead_on<M: StateMachine, S: GroupStorage<Snapshot = SnapshotBytes>>(
    before: &Node<M, S>,
    behind: &Node<M, S>,
    answer: &Result<Outcome, Fault<S::Fault>>,
)
    ensures calls { (group : ℕ) (ge : GroupEvent) → EventsLead M.rules S.stands (behind.now ≡ before.now) (value_of M.state S.is_well S.shows S.fails before.now)
        (value_of M.state S.is_well S.shows S.fails behind.now) group ge answer.now }
    ensures addings { (group : ℕ) → AddingsLead M.rules S.stands (behind.now ≡ before.now) (value_of M.state S.is_well S.shows S.fails before.now)
        (value_of M.state S.is_well S.shows S.fails behind.now) group answer.now }
    ensures frames { (frame : Frame) (peer now : ℕ) → FramesLead M.rules S.stands
        (StaysBut (value_of M.state S.is_well S.shows S.fails before.now) (value_of M.state S.is_well S.shows S.fails behind.now) peer)
        (fed_as (value_of M.state S.is_well S.shows S.fails before.now) (value_of M.state S.is_well S.shows S.fails behind.now))
        (value_of M.state S.is_well S.shows S.fails behind.now) frame now answer.now }
{}

/// Memory is refused behind an event that was done: the node fails, and that leads on as a stop behind
/// the event's last storing command, which names the event's tokens, too. An event that is answered by
/// an outcome was done. The nodes are those before the event, behind it, and behind the failure.
pub fn stops_behind_events_lead_on<M: StateMachine, S: GroupStorage<Snapshot = SnapshotBytes>>(
    before: &Node<M, S>,
    middle: &Node<M, S>,
    behind: &Node<M, S>,
    outcome: &Outcome,
    fault: &Fault<S::Fault>,
)
    ensures stops { (group : ℕ) (ge : GroupEvent) → StopsBehindLead M.rules S.stands (value_of M.state S.is_well S.shows S.fails before.now)
        (value_of M.state S.is_well S.shows S.fails middle.now) (value_of M.state S.is_well S.shows S.fails behind.now) group ge outcome.now fault.now }
    ensures calls { (group : ℕ) (ge : GroupEvent) → AnsweredEventsWereDone S.Fault M.rules S.stands (middle.now ≡ before.now)
        (value_of M.state S.is_well S.shows S.fails before.now) (value_of M.state S.is_well S.shows S.fails middle.now) outcome.now group ge }
    ensures addings { (group : ℕ) → AnsweredAddingsWereDone S.Fault M.rules S.stands (middle.now ≡ before.now)
        (value_of M.state S.is_well S.shows S.fails before.now) (value_of M.state S.is_well S.shows S.fails middle.now) outcome.now group }
    ensures frames { (frame : Frame) (peer now : ℕ) → AnsweredFramesWereDone S.Fault M.rules S.stands
        (StaysBut (value_of M.state S.is_well S.shows S.fails before.now) (value_of M.state S.is_well S.shows S.fails middle.now) peer)
        (fed_as (value_of M.state S.is_well S.shows S.fails before.now) (value_of M.state S.is_well S.shows S.fails middle.now))
        (value_of M.state S.is_well S.shows S.fails middle.now) outcome.now frame now }
{}

/// A node that has failed passes events over. One that fails outside of any event, or that lacks room
/// for a peer's piece, halts.
pub fn failures_lead_on<M: StateMachine, S: GroupStorage<Snapshot = SnapshotBytes>>(
    before: &Node<M, S>,
    behind: &Node<M, S>,
    fault: &Fault<S::Fault>,
)
    ensures passes { (group : ℕ) (ge : GroupEvent) → FailedNodesPass S.Fault M.rules S.stands (value_of M.state S.is_well S.shows S.fails before.now)
        (value_of M.state S.is_well S.shows S.fails behind.now) group ge }
    ensures halts { FailuresLead M.rules (value_of M.state S.is_well S.shows S.fails before.now) (value_of M.state S.is_well S.shows S.fails behind.now) fault.now }
{}

/// A node that is as it was may be in the same states of its groups: also where only what is held of
/// streams is another.
pub fn states_stay<M: StateMachine, S: GroupStorage<Snapshot = SnapshotBytes>>(
    before: &Node<M, S>,
    behind: &Node<M, S>,
)
    ensures same { behind.now ≡ before.now → StaysInAll M.rules (value_of M.state S.is_well S.shows S.fails before.now) (value_of M.state S.is_well S.shows S.fails behind.now) }
    ensures but_streams { (peer : ℕ) → StaysBut (value_of M.state S.is_well S.shows S.fails before.now) (value_of M.state S.is_well S.shows S.fails behind.now) peer
        → StaysInAll M.rules (fed_as (value_of M.state S.is_well S.shows S.fails before.now) (value_of M.state S.is_well S.shows S.fails behind.now))
        (value_of M.state S.is_well S.shows S.fails behind.now) }
{}

/// An event that its group refuses doesn't stop: a stop before it was known whether it is refused is
/// a halt of the node.
pub fn refused_events_dont_stop()
    ensures { RefusedEventsDontStop }
{}
