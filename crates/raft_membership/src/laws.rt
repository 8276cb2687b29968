//! Laws of memberships and quorums. Each function does nothing: its contract is the law.
ghost use Rattle.std.specs.Prelude.{◌≡◌, ◌<◌, Bool, None, length, IsTrue};
ghost use Rattle.std.specs.Cmp.Lexicographic.{pointwise};
ghost use Rattle.raft_membership.specs.Laws.{IsReplacedInTwo, IsValid, ShareAVoter};
ghost use Rattle.raft_membership.specs.Membership.{first_missing};
ghost use Rattle.raft_membership.specs.MembershipChange.{changed};
ghost use Rattle.raft_membership.specs.declared.change_members.ChangeMembers.{ChangeMembers as Change};
ghost use Rattle.raft_quorums.specs.Quorum.{IsQuorum, share_config};
ghost use Rattle.raft_quorums.specs.QuorumLaws.{IsWithin};

use crate::membership::Membership;
use raft_quorums::id_set::IdSet;
use raft_values::node::{Node, NodeId};

/// A superset of a quorum of the membership is a quorum.
pub fn superset_is_quorum<NID: NodeId, N: Node>(membership: &Membership<NID, N>)
    ensures { (p r : NID → Bool) → IsWithin p r → IsQuorum membership.now.configs p → IsQuorum membership.now.configs r }
{
    let _ = membership;
}

/// Any two quorums of a membership with a voter group share a voter, who is named in both.
pub fn quorums_share_a_voter<NID: NodeId, N: Node>(membership: &Membership<NID, N>)
    requires { 0 < length membership.now.configs }
    ensures { (p r : NID → Bool) → IsQuorum membership.now.configs p → IsQuorum membership.now.configs r → ShareAVoter NID.eq membership.now.configs p r }
{
    let _ = membership;
}

/// Whatever a change of a membership with a voter group gives, it shares an equal voter group
/// with it, so the quorums of the two share a voter.
pub fn changes_are_coherent<NID: NodeId, N: Node>(membership: &Membership<NID, N>)
    requires { 0 < length membership.now.configs }
    ensures { (change : Change NID N) (retain : Bool) → IsTrue (share_config (pointwise NID.eq) membership.now.configs (changed NID.eq NID.cmp membership.now change retain).configs) }
{
    let _ = membership;
}

/// From a valid membership, replacing all voters by a group of its nodes is done after at most two
/// changes, and both are accepted (memory aside).
pub fn voters_are_replaced_in_two_changes<NID: NodeId, N: Node>(
    membership: &Membership<NID, N>,
    goal: &IdSet<NID>,
)
    requires valid { IsValid NID.eq NID.cmp membership.now }
    requires some { 0 < length goal.now }
    requires present { first_missing NID.eq membership.now.nodes goal.now ≡ None }
    ensures { (retain : Bool) → IsReplacedInTwo NID.eq NID.cmp membership.now goal.now retain }
{
    let _ = membership;
    let _ = goal;
}
