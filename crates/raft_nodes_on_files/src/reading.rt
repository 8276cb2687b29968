//! What is read of a cluster of nodes on files by its lists. They keep the law, so that nothing is asked.
ghost use Rattle.std.specs.Prelude.{◌≡◌, slice_get, option_map};
ghost use Rattle.std.specs.Option.{option_copied};
ghost use Rattle.raft_cluster.specs.Told.{told_at};
ghost use Rattle.raft_listed_cluster.specs.Listed.{lists_of};
ghost use Rattle.raft_listed_cluster.specs.Reading.{HasToldEntry, IsWithin, LendsFront, applied_at, machine_at};

use crate::file_node::FileNode;
use crate::law::nodes_on_files_keep_the_law;
use raft_cluster_events::ClusterNode;
use raft_listed_cluster::ListedCluster;
use raft_machines::StateMachine;
use raft_state::{BasicNode, Bytes, Entry};

/// The machine that a node on files lends of a group: the fold of the group's lent list up to the
/// place that `applied_on_files` tells. None where there is no such node, the group isn't there, or the
/// node is down or stopped.
pub fn machine_on_files<M: StateMachine>(
    cluster: &ListedCluster<FileNode<M>>,
    id: u64,
    group: u64,
) -> Option<&M>
    ensures lends { option_map M.state (option_copied result) ≡ machine_at ⟦<FileNode<M> as ClusterNode>⟧.acts cluster.now.cluster.nodes id group }
    ensures front { LendsFront M.rules (lists_of cluster.now.groups group) (option_map M.state (option_copied result))
        (applied_at ⟦<FileNode<M> as ClusterNode>⟧.acts cluster.now.cluster.nodes id group) }
{
    nodes_on_files_keep_the_law::<M>();
    cluster.replays();
    cluster.machine_of(id, group)
}

/// The last place of a group's lent list that a node on files has applied, if any.
pub fn applied_on_files<M: StateMachine>(
    cluster: &ListedCluster<FileNode<M>>,
    id: u64,
    group: u64,
) -> Option<u64>
    ensures tells { result ≡ applied_at ⟦<FileNode<M> as ClusterNode>⟧.acts cluster.now.cluster.nodes id group }
    ensures within { IsWithin (lists_of cluster.now.groups group) result }
{
    nodes_on_files_keep_the_law::<M>();
    cluster.replays();
    cluster.applied_of(id, group)
}

/// The entry of a group's lent list that stands where an event told its answer of this number, if it
/// told one: an event asked for it with the told token, and the told answer is the fold's there.
pub fn told_entry_on_files<M: StateMachine>(
    cluster: &ListedCluster<FileNode<M>>,
    number: usize,
    group: u64,
    at: usize,
) -> Option<&Entry<u64, BasicNode, Bytes>>
    ensures { HasToldEntry M.rules cluster.now.cluster.history group (lists_of cluster.now.groups group) (slice_get (told_at cluster.now.cluster.history number group) at) (option_copied result) }
{
    nodes_on_files_keep_the_law::<M>();
    cluster.replays();
    cluster.told_entry(number, group, at)
}
