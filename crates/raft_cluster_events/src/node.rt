//! What a cluster needs of a node.
ghost use Rattle.std.specs.Prelude.{◌≡◌, ℕ, true, false, IfErr, IfOk, OnOk, OnErr, option_map};
ghost use Rattle.std.specs.Option.{option_copied};
ghost use Rattle.std.specs.Thread.{IsSync};
ghost use Rattle.raft_cluster_events.specs.Node.{NodeActs};
ghost use Rattle.raft_cluster_events.specs.States.{NodeStates};

use crate::event::{CrashChoice, GroupCommand};
use crate::outcome::{CrashRefusal, NodeError, Stop};
use raft_list_facts::Leading;
use raft_machines::{StateMachine, Told};
use raft_sent_frames::{NodeFrame, Sequence};
use std::alloc::{AllocError, Global};
use std::thread::Threads;

/// What an event did in a group of a node (own): all that it stored is on the disk.
#[derive(Drop)]
pub struct NodeOutcome {
    /// The group.
    pub group: u64,
    /// The frames that leave, in order.
    pub frames: Sequence<NodeFrame>,
    /// The tokens that are told, by rising place, with the machine's answers.
    pub told: Sequence<Told>,
    /// The tokens of which it stays unknown what becomes of their commands.
    pub unknown: Sequence<u64>,
}

/// A node and its files, up or down (own). One that is down refuses each call as failed (11). A handle
/// of threads is shared with them: the clause says again what the bound `Sync` does, since an
/// implementor's proof has no bounds of a method.
pub trait ClusterNode: Drop {
    /// What its groups' commands run on.
    type Machine: StateMachine;

    /// What its files are to be like.
    type Settings: Drop;

    /// What each call makes of it, and is answered.
    ghost acts: { NodeActs Self };

    /// What it may be in each group, and what its frames say.
    ghost states: { NodeStates Self };

    /// A node of this id that has nothing: it is up, unless its files can't be opened.
    fn begin<R: Threads + Sync>(
        rt: &R,
        alloc: Global,
        id: u64,
        settings: &Self::Settings,
    ) -> Result<Self, AllocError>
    where
        Self: Sized,
        requires shared { IsSync R.row }
        ensures begins { IfOk result (λ node. acts.begins id node) }
        ensures id { IfOk result (λ node. acts.id node ≡ id) };

    /// Its id.
    fn id(&self) -> u64
        ensures { result ≡ acts.id self.now };

    /// Whether it is up. One that stopped in an event is up still, and refuses each call.
    fn is_up(&self) -> bool
        ensures { result ≡ acts.is_up self.now };

    /// The node gets the group, with nothing in it.
    fn add_group(&mut self, group: u64) -> Result<NodeOutcome, NodeError>
        ensures does { acts.adds self.old group result self.new }
        ensures id { acts.id self.new ≡ acts.id self.old }
        ensures up { acts.is_up self.new ≡ acts.is_up self.old };

    /// The node is asked for something of the group.
    fn ask(&mut self, group: u64, call: &GroupCommand, now: u64) -> Result<NodeOutcome, NodeError>
        ensures does { acts.asks self.old group call.now now result self.new }
        ensures id { acts.id self.new ≡ acts.id self.old }
        ensures up { acts.is_up self.new ≡ acts.is_up self.old };

    /// A piece of a peer's stream comes, with the end of one frame at most. There is an outcome once a
    /// frame is whole.
    fn feed(&mut self, peer: u64, piece: &[u8], now: u64) -> Result<Option<NodeOutcome>, NodeError>
        ensures does { acts.feeds self.old peer piece.now now result self.new }
        ensures id { acts.id self.new ≡ acts.id self.old }
        ensures up { acts.is_up self.new ≡ acts.is_up self.old };

    /// The peer's stream begins anew.
    fn reset_peer(&mut self, peer: u64) -> Result<(), NodeError>
        ensures does { acts.resets self.old peer result self.new }
        ensures id { acts.id self.new ≡ acts.id self.old }
        ensures up { acts.is_up self.new ≡ acts.is_up self.old };

    /// The node's log is cleaned, where it is time for that. Answers the groups that hold old files of
    /// it back, by rising group.
    fn clean_files(&mut self) -> Result<Sequence<u64>, NodeError>
        ensures does { acts.cleans self.old result self.new }
        ensures id { acts.id self.new ≡ acts.id self.old }
        ensures up { acts.is_up self.new ≡ acts.is_up self.old };

    /// The node stops for want of memory outside of it.
    fn fail(&mut self) -> Stop
        ensures does { acts.fails self.old result self.new }
        ensures id { acts.id self.new ≡ acts.id self.old }
        ensures up { acts.is_up self.new ≡ acts.is_up self.old };

    /// Its files refuse each changing call from this one on, the first one counted as 1; with none they
    /// refuse no call any more. Up or down, nothing else changes.
    fn fuse(&mut self, first_refused: Option<u64>)
        ensures does { acts.fuses self.old first_refused self.new }
        ensures id { acts.id self.new ≡ acts.id self.old }
        ensures up { acts.is_up self.new ≡ acts.is_up self.old };

    /// The node's machine stops, and leaves of its files what the choice says: the node is down. An
    /// `Err` says why its files can't be left so, and changes nothing.
    fn crash(&mut self, choice: &CrashChoice) -> Result<(), CrashRefusal>
        ensures does { OnOk result (acts.crashes self.old choice.now self.new) }
        ensures why { IfErr result (λ why. acts.refuses self.old choice.now why) }
        ensures refused { OnErr result (self.new ≡ self.old) }
        ensures id { acts.id self.new ≡ acts.id self.old }
        ensures down { OnOk result (acts.is_up self.new ≡ false) };

    /// The node is opened with its files, by so many workers, on threads that the handle makes. A stop
    /// leaves it down.
    fn reopen<R: Threads + Sync>(
        &mut self,
        rt: &R,
        workers: u64,
    ) -> Result<Sequence<NodeOutcome>, Stop>
        requires shared { IsSync R.row }
        ensures does { acts.reopens self.old workers result self.new }
        ensures id { acts.id self.new ≡ acts.id self.old }
        ensures up { OnOk result (acts.is_up self.new ≡ true) }
        ensures down { OnErr result (acts.is_up self.new ≡ false) };

    /// The node goes down, and its files stay as they are.
    fn close(&mut self)
        ensures does { acts.closes self.old self.new }
        ensures id { acts.id self.new ≡ acts.id self.old }
        ensures down { acts.is_up self.new ≡ false };

    /// The group's machine, lent; none where the group isn't there, or the node is down or stopped.
    fn machine(&self, group: u64) -> Option<&Self::Machine>
        ensures lends { option_map Self.Machine.state (option_copied result) ≡ acts.machine_of self.now group };

    /// The last place that the group's machine has run, if any.
    fn applied(&self, group: u64) -> Option<u64>
        ensures tells { result ≡ acts.applied_of self.now group };

    /// What the node has that leads the group; none where it doesn't lead it, or is down or stopped.
    fn leading(&self, group: u64) -> Option<Leading>
        ensures leads { acts.leads self.now group result };
}
