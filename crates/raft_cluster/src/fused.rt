//! An event behind a fuse of its node's files.
ghost use Rattle.std.specs.Prelude.{◌≡◌, None, Some, true, IfOk, OnOk, OnErr};
ghost use Rattle.raft_sent_frames.specs.Frames.{frames_of};
ghost use Rattle.raft_cluster.specs.Facts.{node_of};
ghost use Rattle.raft_node_laws.specs.Law.{KeepsLaw};
ghost use Rattle.raft_cluster.specs.Fused.{EndsCut, RunsShort, StepsCut, StepsFused, StepsFusedAt, StepsNowhere, fused_events, is_cut};
ghost use Rattle.raft_cluster.specs.Joined.{HasHeadline};

use crate::cluster::Cluster;
use raft_cluster_events::{ClusterEvent, ClusterNode, CrashChoice, EventOutcome, StopCause};
use std::alloc::AllocError;
use std::thread::Threads;

// Whether the event stopped at a call that its node's files refused.
fn is_cut(outcome: &EventOutcome) -> bool
    ensures { result ≡ is_cut outcome.now }
{
    match outcome {
        EventOutcome::Stopped(stop) => matches!(stop.cause, StopCause::Io),
        _ => false,
    }
}

impl<N: ClusterNode> Cluster<N> {
    // The event happens: whether it was cut off at a call of its node's files.
    fn step_cut<R: Threads + Sync>(
        &mut self,
        rt: &R,
        event: ClusterEvent,
    ) -> Result<bool, AllocError>
        ensures ok { IfOk result (λ cut. StepsCut N.acts self.old event cut self.new) }
        ensures err { OnErr result (self.new ≡ self.old) }
    {
        let at = self.history().len();
        self.step(rt, event)?;
        Ok(is_cut(&self.history()[at].outcome))
    }

    // An event for no node, which is turned away.
    fn step_nowhere<R: Threads + Sync>(
        &mut self,
        rt: &R,
        event: ClusterEvent,
    ) -> Result<bool, AllocError>
        requires { node_of (frames_of self.old.sent) event ≡ None }
        ensures ok { IfOk result (λ cut. StepsNowhere N.acts self.old event cut self.new) }
        ensures err { OnErr result (self.new ≡ self.old) }
    {
        self.step(rt, event)?;
        Ok(false)
    }

    // Where an event of the node was cut off, the node's machine stops.
    fn end_cut<R: Threads + Sync>(
        &mut self,
        rt: &R,
        cut: bool,
        node: u64,
        choice: CrashChoice,
    ) -> Result<(), AllocError>
        ensures ok { OnOk result (EndsCut N.acts cut node choice self.old self.new) }
        ensures err { OnErr result (self.new ≡ self.old) }
    {
        if cut {
            self.step(rt, ClusterEvent::Crash { node, choice })?;
        }
        Ok(())
    }

    // The event behind a fuse of this node's files.
    fn step_fused_at<R: Threads + Sync>(
        &mut self,
        rt: &R,
        node: u64,
        first_refused: u64,
        choice: CrashChoice,
        event: ClusterEvent,
    ) -> Result<bool, AllocError>
        ensures ok { IfOk result (λ cut. StepsFusedAt N.acts node first_refused choice self.old event cut self.new) }
        ensures err { OnErr result (RunsShort N.acts self.old (fused_events (Some node) first_refused choice event) self.new) }
    {
        let first_refused = Some(first_refused);
        self.step(
            rt,
            ClusterEvent::Fuse {
                node,
                first_refused,
            },
        )?;
        let cut = self.step_cut(rt, event)?;
        let first_refused = None;
        self.step(
            rt,
            ClusterEvent::Fuse {
                node,
                first_refused,
            },
        )?;
        self.end_cut(rt, cut, node, choice)?;
        Ok(cut)
    }

    // The event behind a fuse, if it is for a node.
    fn step_if_fused<R: Threads + Sync>(
        &mut self,
        rt: &R,
        first_refused: u64,
        choice: CrashChoice,
        event: ClusterEvent,
    ) -> Result<bool, AllocError>
        ensures ok { IfOk result (λ cut. StepsFused N.acts (node_of (frames_of self.old.sent) event) first_refused choice self.old event cut self.new) }
        ensures err { OnErr result (RunsShort N.acts self.old (fused_events (node_of (frames_of self.old.sent) event) first_refused choice event) self.new) }
    {
        match self.node_of(&event) {
            Some(node) => self.step_fused_at(rt, node, first_refused, choice, event),
            None => self.step_nowhere(rt, event),
        }
    }

    /// The event, in which its node's files refuse that changing call, the first one counted as 1,
    /// and each one behind it (own). Where it was cut off there (it stopped for a refused call), the
    /// node's machine stops, and leaves of its files what the choice says; where they can't be left
    /// so (C6, C7) the node stays stopped, and takes another crash. These are three or four events
    /// of the history: the fuse, the event, the fuse taken off, and the crash. An event for no node
    /// is an event alone. Answers whether it was cut off. An `Err` is want of memory before one of
    /// these events: those before it happened.
    pub fn step_fused<R: Threads + Sync>(
        &mut self,
        rt: &R,
        first_refused: u64,
        choice: CrashChoice,
        event: ClusterEvent,
    ) -> Result<bool, AllocError>
        ensures ok { IfOk result (λ cut. StepsFused N.acts (node_of (frames_of self.old.sent) event) first_refused choice self.old event cut self.new) }
        ensures err { OnErr result (RunsShort N.acts self.old (fused_events (node_of (frames_of self.old.sent) event) first_refused choice event) self.new) }
        ensures headline { KeepsLaw N.Machine.rules N.acts N.states → HasHeadline N.Machine.rules N.acts N.states self.new.nodes (frames_of self.new.sent) self.new.history }
    {
        let cut = self.step_if_fused(rt, first_refused, choice, event);
        self.replays();
        cut
    }
}
