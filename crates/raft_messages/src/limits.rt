//! Which memberships, commands, requests and numbers may be.
ghost use Rattle.std.specs.Prelude.{◌≡◌, length, ℕ, List};
ghost use Rattle.std.specs.List.{list_all};
ghost use Rattle.raft_group_step.specs.Limits.{number_limit, command_limit, entries_in_request, snapshot_limit};
ghost use Rattle.raft_group_step.specs.Limits.{voter_group_limit, voter_limit, node_limit, address_limit};
ghost use Rattle.raft_group_step.specs.Limits.{are_few_groups, are_few_nodes, are_few_voters, is_low, is_short_address, is_short_command};
ghost use Rattle.raft_group_step.specs.Refusal.{is_first_membership};
ghost use Rattle.raft_group_step.specs.Values.{is_valid, is_within_limits};

use raft_state::{BasicNode, Bytes, IdSet, Membership};

/// A command has at most so many bytes.
pub const MAX_COMMAND_BYTES: usize = 65_536;

/// A membership has at most so many voter groups.
pub const MAX_VOTER_GROUPS: usize = 8;

/// A voter group has at most so many voters.
pub const MAX_VOTERS: usize = 64;

/// A membership has at most so many nodes.
pub const MAX_NODES: usize = 128;

/// An address has at most so many bytes.
pub const MAX_ADDRESS_BYTES: usize = 255;

/// A request has at most so many entries.
pub const MAX_ENTRIES: usize = 64;

/// A snapshot has at most so many bytes of the machine.
pub const MAX_SNAPSHOT_BYTES: usize = 16_777_216;

/// Terms, places, moments and the numbers of requests are below this.
pub const NUMBER_LIMIT: u64 = 1 << 62;

/// The limits in code are those of the definitions (own).
pub fn limits_in_code()
    ensures command { MAX_COMMAND_BYTES ≡ command_limit }
    ensures groups { MAX_VOTER_GROUPS ≡ voter_group_limit }
    ensures voters { MAX_VOTERS ≡ voter_limit }
    ensures nodes { MAX_NODES ≡ node_limit }
    ensures address { MAX_ADDRESS_BYTES ≡ address_limit }
    ensures entries { MAX_ENTRIES ≡ entries_in_request }
    ensures snapshot { MAX_SNAPSHOT_BYTES ≡ snapshot_limit }
    ensures numbers { NUMBER_LIMIT ≡ number_limit }
{}

/// Whether a number may be a term, a place, a moment or the number of a request (own).
pub fn is_low(number: u64) -> bool
    ensures { result ≡ is_low number }
{
    number < NUMBER_LIMIT
}

/// Whether the command has at most so many bytes as it may have (own).
pub fn is_short_command(command: &Bytes) -> bool
    ensures { result ≡ is_short_command command.now }
{
    command.len() <= MAX_COMMAND_BYTES
}

/// Whether there are at most so many voter groups as a membership may have (own).
pub fn are_few_groups(groups: &[IdSet<u64>]) -> bool
    ensures { result ≡ are_few_groups groups.now }
{
    groups.len() <= MAX_VOTER_GROUPS
}

/// Whether so many voters may be in a group (own).
pub fn are_few_voters(count: usize) -> bool
    ensures { result ≡ are_few_voters count }
{
    count <= MAX_VOTERS
}

/// Whether so many nodes may be in a membership (own).
pub fn are_few_nodes(count: usize) -> bool
    ensures { result ≡ are_few_nodes count }
{
    count <= MAX_NODES
}

/// Whether the node's address has at most so many bytes as it may have (own).
pub fn is_short_address(node: &BasicNode) -> bool
    ensures { result ≡ is_short_address node.now }
{
    node.addr.len() <= MAX_ADDRESS_BYTES
}

// Whether each voter group has at most so many voters as it may have.
fn are_groups_short(groups: &[IdSet<u64>]) -> bool
    ensures { result ≡ list_all (λ (group : List ℕ). are_few_voters (length group)) groups.now }
{
    groups.iter().all(|group| are_few_voters(group.len()))
}

/// Whether each address is short enough (own).
pub fn are_addresses_short(nodes: &[(u64, BasicNode)]) -> bool
    ensures { result ≡ list_all (λ (node : ℕ × List ℕ). is_short_address node.1) nodes.now }
{
    nodes.iter().all(|node| is_short_address(&node.1))
}

/// Whether the membership has at most so many voter groups, voters, nodes and bytes of each
/// address as it may have (own).
pub fn is_within_limits(membership: &Membership<u64, BasicNode>) -> bool
    ensures { result ≡ is_within_limits membership.now }
{
    let groups = membership.get_joint_config();
    let nodes = membership.nodes();
    are_few_groups(groups)
        && are_groups_short(groups)
        && are_few_nodes(nodes.len())
        && are_addresses_short(nodes)
}

/// Whether no voter group is empty, and each voter is a node (own).
pub fn is_valid(membership: &Membership<u64, BasicNode>) -> bool
    ensures { result ≡ is_valid membership.now }
{
    membership.ensure_valid().is_ok()
}

/// Whether a group can be set up with the membership: it is valid, within the limits and has a
/// voter group (own).
pub fn is_first_membership(membership: &Membership<u64, BasicNode>) -> bool
    ensures { result ≡ is_first_membership membership.now }
{
    is_valid(membership)
        && is_within_limits(membership)
        && !membership.get_joint_config().is_empty()
}
