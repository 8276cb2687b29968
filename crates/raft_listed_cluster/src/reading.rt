//! What is read of a cluster by its lists: machines that nodes lend, and entries behind told answers.
ghost use Rattle.std.specs.Prelude.{◌≡◌, slice_get, option_map};
ghost use Rattle.std.specs.Option.{option_copied};
ghost use Rattle.raft_cluster.specs.Told.{told_at};
ghost use Rattle.raft_listed_cluster.specs.Listed.{HasLists, lists_of};
ghost use Rattle.raft_listed_cluster.specs.Reading.{HasToldEntry, IsWithin, LendsFront, applied_at, machine_at};

use crate::listed::ListedCluster;
use raft_cluster_events::ClusterNode;
use raft_state::{BasicNode, Bytes, Entry};

impl<N: ClusterNode> ListedCluster<N> {
    /// The machine that the node of this id lends of a group; none where there is no such node, the
    /// group isn't there, or the node is down or stopped. It is the fold of a front of the group's list:
    /// of the entries up to the place that `applied_of` tells.
    pub fn machine_of(&self, id: u64, group: u64) -> Option<&N::Machine>
        ensures lends { option_map N.Machine.state (option_copied result) ≡ machine_at N.acts self.now.cluster.nodes id group }
        ensures front { HasLists N.Machine.rules N.acts N.states self.now
            → LendsFront N.Machine.rules (lists_of self.now.groups group) (option_map N.Machine.state (option_copied result)) (applied_at N.acts self.now.cluster.nodes id group) }
    {
        let node = self.node(id)?;
        node.machine(group)
    }

    /// The last place of a group's list that the node of this id has applied, if any.
    pub fn applied_of(&self, id: u64, group: u64) -> Option<u64>
        ensures tells { result ≡ applied_at N.acts self.now.cluster.nodes id group }
        ensures within { HasLists N.Machine.rules N.acts N.states self.now → IsWithin (lists_of self.now.groups group) result }
    {
        let node = self.node(id)?;
        node.applied(group)
    }

    /// The entry of the group's list that stands where the event of this number told its answer of this
    /// number, lent; none where it told no such answer. An event asked for the entry, and what was told
    /// is its token with the machine's answer, behind all entries before it. Both count from 0.
    pub fn told_entry(
        &self,
        number: usize,
        group: u64,
        at: usize,
    ) -> Option<&Entry<u64, BasicNode, Bytes>>
        ensures { HasLists N.Machine.rules N.acts N.states self.now
            → HasToldEntry N.Machine.rules self.now.cluster.history group (lists_of self.now.groups group) (slice_get (told_at self.now.cluster.history number group) at) (option_copied result) }
    {
        let told = self.told(number, group).get(at)?;
        self.entry(group, told.place as usize)
    }
}
