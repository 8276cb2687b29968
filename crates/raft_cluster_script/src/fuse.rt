//! An event behind a fuse of its node's files.
ghost use Rattle.std.specs.Prelude.{◌≡◌, ◌≤◌, IfOk, string_bytes};
ghost use Rattle.raft_cluster.specs.Fused.{place_behind};
ghost use Rattle.raft_cluster_script.specs.Script.{FusedSo};

use crate::answers::outcome_text;
use raft_cluster::Cluster;
use raft_cluster_events::{ClusterEvent, ClusterNode, CrashChoice};
use raft_script_answers::stopped_text;
use raft_script_machines::ScriptMachine;
use std::alloc::{AllocError, Global};
use std::thread::Threads;

// The place of the event's record, where the history ended here before: behind that of the fuse.
fn place_behind(node: Option<u64>, before: usize) -> usize
    requires { place_behind node before ≤ usize.MAX }
    ensures { result ≡ place_behind node before }
{
    match node {
        Some(_) => before + 1,
        None => before,
    }
}

/// The node's files refuse each changing call from this one on until the event is over, and it is
/// answered by the text of its outcome. Where it was cut off the node's machine stops, and leaves
/// what was synced. An event for no node has no fuse.
pub fn happen_fused<N: ClusterNode, R: Threads + Sync>(
    rt: &R,
    alloc: Global,
    cluster: &mut Cluster<N>,
    first: u64,
    event: ClusterEvent,
) -> Result<String, AllocError>
where
    N::Machine: ScriptMachine,
    ensures { IfOk result (λ text. FusedSo N.acts N.Machine.speech first cluster.old event (string_bytes text) cluster.new) }
{
    let node = cluster.node_of(&event);
    let before = cluster.history().len();
    let cut = cluster.step_fused(rt, first, CrashChoice::Least, event)?;
    if cut {
        return stopped_text(alloc);
    }
    let history = cluster.history();
    let at = place_behind(node, before);
    outcome_text::<N::Machine>(alloc, &history[at].outcome)
}
