//! Changes of a membership.
ghost use Rattle.std.specs.Prelude.{◌≡◌, ◌<◌, not, ◌&&◌, ◌||◌, true, false, Bool, length, None, Some, IfOk, OnOk, OnErr, IfErr};
ghost use Rattle.std.specs.Cmp.Lexicographic.{pointwise};
ghost use Rattle.std.specs.List.{list_any};
ghost use Rattle.raft_quorums.specs.Nodes.{has_id, has_node, with_ids};
ghost use Rattle.raft_quorums.specs.Rising.{IsRising};
ghost use Rattle.raft_membership.specs.Membership.{is_voter};
ghost use Rattle.raft_membership.specs.MembershipChange.{changed, fault_after, next_coherent, retained_nodes};
ghost use Rattle.raft_quorums.specs.Quorum.{last_config, next_configs};
ghost use Rattle.raft_membership.specs.declared.change_members.ChangeMembers.TheVariants.{AddVoters};
ghost use Rattle.raft_membership.specs.Validity.{groups_fault, IsChangeFault};

use crate::change_members::ChangeMembers;
use crate::error::ChangeMembershipError;
use crate::goal::{Goal, Stayers};
use crate::membership::{Membership, fault_of, first_missing, is_voter, lesser};
use raft_quorums::has_id::HasId;
use raft_quorums::id_set::IdSet;
use raft_quorums::node_map::NodeMap;
use raft_quorums::voter_groups::VoterGroups;
use raft_values::node::{Node, NodeId};
use std::alloc::AllocError;

// The ids that aren't in the set.
#[derive(Drop)]
struct Others<'a, NID: NodeId> {
    ids: &'a IdSet<NID>,
}

impl<'a, NID: NodeId> HasId<NID> for Others<'a, NID> {
    ghost has = { λ s id. not (has_id NID.eq s.ids.now id) };

    fn has_id(&self, id: &NID) -> bool {
        !self.ids.contains(id)
    }
}

// The ids of either nodes.
#[derive(Drop)]
struct Either<'a, NID: NodeId, N: Node> {
    nodes: &'a NodeMap<NID, N>,
    more: &'a NodeMap<NID, N>,
}

impl<'a, NID: NodeId, N: Node> HasId<NID> for Either<'a, NID, N> {
    ghost has = { λ s id. has_node NID.eq s.nodes.now id || has_node NID.eq s.more.now id };

    fn has_id(&self, id: &NID) -> bool {
        self.nodes.contains(id) || self.more.contains(id)
    }
}

// The ids of the nodes that aren't in the set.
#[derive(Drop)]
struct But<'a, NID: NodeId, N: Node> {
    nodes: &'a NodeMap<NID, N>,
    ids: &'a IdSet<NID>,
}

impl<'a, NID: NodeId, N: Node> HasId<NID> for But<'a, NID, N> {
    ghost has = { λ s id. has_node NID.eq s.nodes.now id && not (has_id NID.eq s.ids.now id) };

    fn has_id(&self, id: &NID) -> bool {
        self.nodes.contains(id) && !self.ids.contains(id)
    }
}

// The ids that are in a new voter group, or weren't in an old one.
#[derive(Drop)]
struct Retained<'a, NID: NodeId> {
    old: &'a VoterGroups<NID>,
    new: &'a VoterGroups<NID>,
}

impl<'a, NID: NodeId> HasId<NID> for Retained<'a, NID> {
    ghost has = { λ s id. is_voter NID.eq s.new.now id || not (is_voter NID.eq s.old.now id) };

    fn has_id(&self, id: &NID) -> bool {
        is_voter(self.new, id) || !is_voter(self.old, id)
    }
}

impl<NID: NodeId, N: Node> Membership<NID, N> {
    // The nodes that stay where the voter groups change.
    fn retained(
        &self,
        retain: bool,
        configs: &VoterGroups<NID>,
    ) -> Result<NodeMap<NID, N>, AllocError>
        ensures { IfOk result (λ nodes. nodes ≡ retained_nodes NID.eq retain self.now.configs configs.now self.now.nodes) }
    {
        if retain {
            return self.nodes.clone();
        }
        let old = &self.configs;
        self.nodes.filtered(&Retained { old, new: configs })
    }

    /// The membership one coherent step nearer to the goal (openraft): the goal alone where it is
    /// a voter group already, else beside the last voter group. Unless they are retained, former
    /// voters that are in no new voter group leave the nodes.
    pub fn next_coherent(
        &self,
        goal: IdSet<NID>,
        retain: bool,
    ) -> Result<Membership<NID, N>, AllocError>
        requires { 0 < length self.now.configs }
        ensures { IfOk result (λ next. next ≡ next_coherent NID.eq NID.cmp self.now goal retain) }
    {
        let configs = self.configs.next_towards(goal)?;
        let nodes = self.retained(retain, &configs)?;
        Ok(Membership { configs, nodes })
    }

    // The membership with these nodes.
    fn with_nodes(&self, nodes: NodeMap<NID, N>) -> Result<Membership<NID, N>, AllocError>
        ensures { IfOk result (λ m. m ≡ record { configs = self.now.configs; nodes = nodes }) }
    {
        let configs = self.configs.clone()?;
        Ok(Membership { configs, nodes })
    }

    // The membership that adding voters with their nodes gives.
    fn with_voters(
        &self,
        voters: &NodeMap<NID, N>,
        retain: bool,
    ) -> Result<Membership<NID, N>, AllocError>
        requires { 0 < length self.now.configs }
        ensures { IfOk result (λ next. next ≡ changed NID.eq NID.cmp self.now (AddVoters voters.now) retain) }
    {
        let goal = self.configs.last().with(voters.ids()?.as_slice())?;
        let wider = self.with_nodes(self.nodes.with_new_nodes(voters.as_slice())?)?;
        wider.next_coherent(goal, retain)
    }

    // The membership that a change asks for, valid or not.
    fn changed(
        &self,
        change: ChangeMembers<NID, N>,
        retain: bool,
    ) -> Result<Membership<NID, N>, AllocError>
        requires { 0 < length self.now.configs }
        ensures { IfOk result (λ next. next ≡ changed NID.eq NID.cmp self.now change retain) }
    {
        match change {
            ChangeMembers::AddVoterIds(ids) => {
                let goal = self.configs.last().with(ids.as_slice())?;
                self.next_coherent(goal, retain)
            }
            ChangeMembers::AddVoters(voters) => self.with_voters(&voters, retain),
            ChangeMembers::RemoveVoters(ids) => {
                let goal = self.configs.last().filtered(&Others { ids: &ids })?;
                self.next_coherent(goal, retain)
            }
            ChangeMembers::ReplaceAllVoters(ids) => self.next_coherent(ids, retain),
            ChangeMembers::AddNodes(nodes) => {
                self.with_nodes(self.nodes.with_new_nodes(nodes.as_slice())?)
            }
            ChangeMembers::SetNodes(nodes) => {
                self.with_nodes(self.nodes.with_nodes(nodes.as_slice())?)
            }
            ChangeMembers::RemoveNodes(ids) => {
                self.with_nodes(self.nodes.filtered(&Others { ids: &ids })?)
            }
            ChangeMembers::ReplaceAllNodes(nodes) => self.with_nodes(nodes),
        }
    }

    // Whether the goal is a voter group already.
    fn has_group<G: Goal<NID>>(&self, goal: &G) -> bool
        ensures { result ≡ list_any (λ group. pointwise NID.eq group (G.ids goal.now)) self.now.configs }
    {
        self.configs
            .as_slice()
            .iter()
            .any(|group| goal.is_group(group))
    }

    // The fault of a step to the goal where the nodes are these.
    fn step_fault<G: Goal<NID>, S: HasId<NID>>(
        &self,
        goal: &G,
        nodes: &S,
    ) -> Option<ChangeMembershipError<NID>>
        requires { 0 < length self.now.configs }
        ensures { result ≡ groups_fault NID.cmp (S.has nodes.now) (next_configs (pointwise NID.eq) self.now.configs (G.ids goal.now)) }
    {
        let missing = goal.first_missing(nodes);
        if self.has_group(goal) {
            return fault_of(goal.has_nobody(), missing);
        }
        let last = self.configs.last();
        let least = lesser(first_missing(last, nodes), missing);
        fault_of(last.is_empty() || goal.has_nobody(), least)
    }

    // The fault of a step to the last voter group with these ids too, where the nodes are these.
    fn fault_of_adding<G: Goal<NID>, S: HasId<NID>>(
        &self,
        ids: &G,
        nodes: &S,
    ) -> Option<ChangeMembershipError<NID>>
        requires some { 0 < length self.now.configs }
        requires rising { IsRising NID.cmp (G.ids ids.now) }
        ensures { result ≡ groups_fault NID.cmp (S.has nodes.now)
            (next_configs (pointwise NID.eq) self.now.configs (with_ids NID.cmp (last_config self.now.configs) (G.ids ids.now))) }
    {
        let last = self.configs.last().as_slice();
        if last.has_nobody() {
            return self.step_fault(ids, nodes);
        }
        fault_of(
            false,
            lesser(last.first_missing(nodes), ids.first_missing(nodes)),
        )
    }

    // The fault of what the change asks for. Takes no memory.
    fn fault_of_change(&self, change: &ChangeMembers<NID, N>) -> Option<ChangeMembershipError<NID>>
        requires { 0 < length self.now.configs }
        ensures { (retain : Bool) → result ≡ fault_after NID.eq NID.cmp self.now change.now retain }
    {
        match change {
            ChangeMembers::AddVoterIds(ids) => self.fault_of_adding(&ids.as_slice(), &self.nodes),
            ChangeMembers::AddVoters(more) => {
                let nodes = &self.nodes;
                self.fault_of_adding(&more.as_slice(), &Either { nodes, more })
            }
            ChangeMembers::RemoveVoters(leavers) => {
                let group = self.configs.last();
                self.step_fault(&Stayers { group, leavers }, &self.nodes)
            }
            ChangeMembers::ReplaceAllVoters(ids) => self.step_fault(&ids.as_slice(), &self.nodes),
            ChangeMembers::AddNodes(more) => self.fault_with(&Either {
                nodes: &self.nodes,
                more,
            }),
            ChangeMembers::SetNodes(more) => self.fault_with(&Either {
                nodes: &self.nodes,
                more,
            }),
            ChangeMembers::RemoveNodes(ids) => self.fault_with(&But {
                nodes: &self.nodes,
                ids,
            }),
            ChangeMembers::ReplaceAllNodes(nodes) => self.fault_with(nodes),
        }
    }

    /// The membership that the change asks for (openraft; the membership is borrowed).
    /// A result that isn't valid is refused as `ensure_valid` does. `Memory` is want of memory, and
    /// comes only where nothing else is wrong.
    pub fn change(
        &self,
        change: ChangeMembers<NID, N>,
        retain: bool,
    ) -> Result<Membership<NID, N>, ChangeMembershipError<NID>>
        requires { 0 < length self.now.configs }
        ensures ok { IfOk result (λ next. next ≡ changed NID.eq NID.cmp self.now change retain) }
        ensures valid { OnOk result (fault_after NID.eq NID.cmp self.now change retain ≡ None) }
        ensures err { IfErr result (IsChangeFault (fault_after NID.eq NID.cmp self.now change retain)) }
    {
        if let Some(fault) = self.fault_of_change(&change) {
            return Err(fault);
        }
        match self.changed(change, retain) {
            Ok(next) => Ok(next),
            Err(refused) => Err(ChangeMembershipError::Memory(refused)),
        }
    }
}
