//! Memberships of one voter group, by addresses.
ghost use Rattle.std.specs.Prelude.{◌≡◌, ◌==◌, map, length, IfOk, IfErr, None};
ghost use Rattle.raft_membership.specs.Membership.{one_group};
ghost use Rattle.raft_membership.specs.Validity.{fault_of, validity_fault, IsChangeFault};

use crate::error::{ChangeMembershipError, EmptyMembership};
use crate::membership::Membership;
use raft_quorums::node_map::NodeMap;
use raft_quorums::voter_groups::VoterGroups;
use raft_values::node::{BasicNode, NodeId};
use std::alloc::{AllocError, Global};

// The nodes at these addresses.
fn nodes_at<NID: NodeId>(
    alloc: Global,
    addresses: &[(NID, &str)],
) -> Result<Vec<(NID, BasicNode)>, AllocError>
    ensures { IfOk result (λ nodes. nodes.items ≡ map (λ x. (x.0, x.1.now)) addresses.now) }
{
    let mut nodes = Vec::new(alloc);
    for (id, addr) in addresses {
        nodes.push((*id, BasicNode::new(alloc, *addr)?))?;
    }
    Ok(nodes)
}

// The voter group of these nodes, and learners beside it.
fn one_group<NID: NodeId>(
    alloc: Global,
    voters: &[(NID, BasicNode)],
    learners: &[(NID, BasicNode)],
) -> Result<Membership<NID, BasicNode>, AllocError>
    ensures { IfOk result (λ m. m ≡ one_group NID.eq NID.cmp voters.now learners.now) }
{
    let group = NodeMap::new(alloc).with_nodes(voters)?;
    let configs = VoterGroups::from(vec![in alloc; group.ids()?]?);
    let nodes = group.with_new_nodes(learners)?;
    Ok(Membership::from_parts(configs, nodes))
}

// The same of addresses.
fn of_addresses<NID: NodeId>(
    alloc: Global,
    voters: &[(NID, &str)],
    learners: &[(NID, &str)],
) -> Result<Membership<NID, BasicNode>, AllocError>
    ensures { IfOk result (λ m. m ≡ one_group NID.eq NID.cmp (map (λ x. (x.0, x.1.now)) voters.now) (map (λ x. (x.0, x.1.now)) learners.now)) }
{
    let voters = nodes_at(alloc, voters)?;
    let learners = nodes_at(alloc, learners)?;
    one_group(alloc, voters.as_slice(), learners.as_slice())
}

impl<NID: NodeId> Membership<NID, BasicNode> {
    /// One voter group of these ids with their addresses, and learners with theirs (own). Of an id
    /// that stands twice, the last voter's address counts, and else the first learner's. Without a
    /// voter it is refused as `ensure_valid` does: `EmptyMembership`. `Memory` is want of memory.
    pub fn of_one_group(
        alloc: Global,
        voters: &[(NID, &str)],
        learners: &[(NID, &str)],
    ) -> Result<Membership<NID, BasicNode>, ChangeMembershipError<NID>>
        ensures ok { IfOk result (λ m. m ≡ one_group NID.eq NID.cmp (map (λ x. (x.0, x.1.now)) voters.now) (map (λ x. (x.0, x.1.now)) learners.now)) }
        ensures valid { IfOk result (λ m. validity_fault NID.eq NID.cmp m.configs m.nodes ≡ None) }
        ensures err { IfErr result (IsChangeFault (fault_of (length voters.now == 0) None)) }
    {
        if voters.is_empty() {
            return Err(ChangeMembershipError::EmptyMembership(EmptyMembership {}));
        }
        match of_addresses(alloc, voters, learners) {
            Ok(membership) => Ok(membership),
            Err(refused) => Err(ChangeMembershipError::Memory(refused)),
        }
    }
}
