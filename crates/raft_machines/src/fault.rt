//! What a node's calls refuse, and why.
ghost use Rattle.std.specs.Prelude.{◌≡◌, is_none};
ghost use Rattle.raft_group_step.specs.Refusal.{is_first_membership};
ghost use Rattle.raft_machines.specs.Fault.{number_of, name_of};
ghost use Rattle.raft_machines.specs.MembershipFault.{membership_fault_of};

use raft_messages::is_within_limits;
use raft_state::{BasicNode, ChangeMembershipError, Membership};
use thiserror::Error;

/// Why a membership is refused (own).
#[derive(Clone, Copy, Debug, PartialEq, Eq, Error)]
pub enum MembershipFault {
    /// A voter group is empty, or a voter isn't among the nodes.
    #[error(transparent)]
    Invalid(ChangeMembershipError<u64>),
    /// There is no voter group.
    #[error("there is no voter group")]
    NoGroup,
    /// More voter groups, voters, nodes or bytes of an address than a membership may have.
    #[error("the membership is past a limit")]
    PastLimit,
}

/// Why a group can't be set up with this membership, if it can't (own): it isn't valid, has no voter
/// group or is past a limit; the first of these counts. There is a fault exactly where the membership
/// can't be a group's first (`is_first_membership`).
pub fn membership_fault(membership: &Membership<u64, BasicNode>) -> Option<MembershipFault>
    ensures why { result ≡ membership_fault_of membership.now }
    ensures first { is_none result ≡ is_first_membership membership.now }
{
    if let Err(why) = membership.ensure_valid() {
        return Some(MembershipFault::Invalid(why));
    }
    if membership.get_joint_config().is_empty() {
        return Some(MembershipFault::NoGroup);
    }
    if is_within_limits(membership) {
        None
    } else {
        Some(MembershipFault::PastLimit)
    }
}

/// A refusal of a call of a node, by number and name (own). The group is as before.
#[derive(Clone, Copy, Debug, PartialEq, Eq, Error)]
pub enum Fault {
    /// 1: the node doesn't lead the group; the leader is named where it is known.
    #[error("this node doesn't lead the group")]
    NotLeader {
        /// The node that leads, where it is known.
        leader: Option<u64>,
    },
    /// 2: the group isn't there.
    #[error("the group isn't there")]
    UnknownGroup,
    /// 3: the group is there already.
    #[error("the group is there already")]
    GroupExists,
    /// 4: the group's state doesn't allow it: it was set up before.
    #[error("the group's state doesn't allow it")]
    NotAllowed,
    /// 5: this node is no voter.
    #[error("this node is no voter")]
    NotVoter,
    /// 6: the membership is refused.
    #[error("the membership is refused: {0}")]
    Membership(MembershipFault),
    /// 9: the command is longer than 65,536 bytes.
    #[error("the command is longer than 65536 bytes")]
    CommandTooLong,
}

impl Fault {
    /// The number that stays with this refusal.
    pub fn number(&self) -> u64
        ensures { result ≡ number_of self.now }
    {
        match self {
            Fault::NotLeader { .. } => 1,
            Fault::UnknownGroup => 2,
            Fault::GroupExists => 3,
            Fault::NotAllowed => 4,
            Fault::NotVoter => 5,
            Fault::Membership(_) => 6,
            Fault::CommandTooLong => 9,
        }
    }

    /// The name that stays with this refusal.
    pub fn name(&self) -> &'static str
        ensures { result.now ≡ name_of self.now }
    {
        match self {
            Fault::NotLeader { .. } => "NotLeader",
            Fault::UnknownGroup => "UnknownGroup",
            Fault::GroupExists => "GroupExists",
            Fault::NotAllowed => "NotAllowed",
            Fault::NotVoter => "NotVoter",
            Fault::Membership(_) => "Membership",
            Fault::CommandTooLong => "CommandTooLong",
        }
    }
}
