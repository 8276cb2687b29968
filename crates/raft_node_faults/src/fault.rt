//! Why a call of a node isn't done.
ghost use Rattle.std.specs.Prelude.{◌≡◌};
ghost use Rattle.raft_node_faults.specs.Fault.{cause_of, fault_of_refusal, name_of, number_of};

use raft_conditions::Refusal;
use raft_machines::{MembershipFault, UnknownTokens};
use raft_member::Broken;
use raft_wire::FrameError;
use std::alloc::AllocError;
use std::fmt;
use thiserror::Error;

/// Why a node stopped in an event (own).
#[derive(Debug, Drop, Error)]
#[error_bound(F: fmt::Display)]
pub enum Cause<F> {
    /// Want of memory in an event that isn't refused.
    #[error("out of memory")]
    Memory,
    /// Want of memory before it was known whether the event is refused: nothing of it was begun.
    #[error("out of memory before the event was judged")]
    Unjudged,
    /// The storage failed.
    #[error("{0}")]
    Storage(F),
    /// What the event sends has no frame, as where a machine's snapshot is past its limit.
    #[error("what the event sends has no frame: {0}")]
    Frame(FrameError),
}

/// A refusal of a node's call, by number and name (own). After 1 to 15 the group is as before.
#[derive(Debug, Drop, Error)]
#[error_bound(F: fmt::Display)]
pub enum Fault<F> {
    /// 1: the node doesn't lead the group; the leader is named where it is known.
    #[error("the node doesn't lead the group: the leader is {leader:?}")]
    NotLeader {
        /// The node that leads, where it is known.
        leader: Option<u64>,
    },
    /// 2: the group isn't there.
    #[error("the group isn't there")]
    UnknownGroup,
    /// 3: the group is there already.
    #[error("the group is there already")]
    GroupExists,
    /// 4: the group's state doesn't allow it: it was set up before.
    #[error("the group's state doesn't allow it: it was set up before")]
    NotAllowed,
    /// 5: this node is no voter.
    #[error("the node is no voter")]
    NotVoter,
    /// 6: the membership is refused; why is said of a first one.
    #[error("the membership is refused: {why:?}")]
    Membership {
        /// Why, of a group's first membership.
        why: Option<MembershipFault>,
    },
    /// 7: the voter groups can't be changed.
    #[error("the voter groups can't be changed")]
    VoterChange,
    /// 8: the change before isn't committed yet.
    #[error("the change before isn't committed yet")]
    InProgress,
    /// 9: the command is longer than 65,536 bytes.
    #[error("the command is longer than 65,536 bytes")]
    CommandTooLong,
    /// 10: a term, a place, a moment or the number of a request is at its end.
    #[error("a term, a place, a moment or the number of a request is at its end")]
    NumberAtEnd,
    /// 11: the node failed before, and is to be opened again.
    #[error("the node failed before, and is to be opened again")]
    Failed,
    /// 12: the frame isn't the peer's own, or isn't for this node.
    #[error("the frame isn't the peer's own, or isn't for this node")]
    WrongParty,
    /// 13: more than a batch can hold. No call answers it: the number is kept.
    #[error("more than a batch can hold")]
    TooMuchForBatch,
    /// 14: the message breaks a condition under which nodes send one.
    #[error("the message breaks a condition under which nodes send one")]
    BreaksCondition,
    /// 15: the peer's stream is refused.
    #[error("the peer's stream is refused: {0}")]
    Frame(FrameError),
    /// 16: the event stopped, and the node has failed. All tokens that waited stay unknown.
    #[error("the node stopped: {cause}")]
    Stopped {
        /// Why.
        cause: Cause<F>,
        /// The tokens that waited, by rising group.
        unknown: Vec<UnknownTokens>,
    },
}

impl<F> Fault<F> {
    /// The number that stays with this refusal.
    pub fn number(&self) -> u64
        ensures { result ≡ number_of self.now }
    {
        match self {
            Fault::NotLeader { .. } => 1,
            Fault::UnknownGroup => 2,
            Fault::GroupExists => 3,
            Fault::NotAllowed => 4,
            Fault::NotVoter => 5,
            Fault::Membership { .. } => 6,
            Fault::VoterChange => 7,
            Fault::InProgress => 8,
            Fault::CommandTooLong => 9,
            Fault::NumberAtEnd => 10,
            Fault::Failed => 11,
            Fault::WrongParty => 12,
            Fault::TooMuchForBatch => 13,
            Fault::BreaksCondition => 14,
            Fault::Frame(_) => 15,
            Fault::Stopped { .. } => 16,
        }
    }

    /// The name that stays with this refusal.
    pub fn name(&self) -> &'static str
        ensures { result.now ≡ name_of self.now }
    {
        match self {
            Fault::NotLeader { .. } => "NotLeader",
            Fault::UnknownGroup => "UnknownGroup",
            Fault::GroupExists => "GroupExists",
            Fault::NotAllowed => "NotAllowed",
            Fault::NotVoter => "NotVoter",
            Fault::Membership { .. } => "Membership",
            Fault::VoterChange => "VoterChange",
            Fault::InProgress => "InProgress",
            Fault::CommandTooLong => "CommandTooLong",
            Fault::NumberAtEnd => "NumberAtEnd",
            Fault::Failed => "Failed",
            Fault::WrongParty => "WrongParty",
            Fault::TooMuchForBatch => "TooMuchForBatch",
            Fault::BreaksCondition => "BreaksCondition",
            Fault::Frame(_) => "Frame",
            Fault::Stopped { .. } => "Stopped",
        }
    }
}

/// What a node answers where a group refuses an event (own).
pub fn fault_of_refusal<F>(refusal: Refusal<u64>) -> Fault<F>
    ensures { result ≡ fault_of_refusal refusal }
{
    match refusal {
        Refusal::NotLeader(leader) => Fault::NotLeader { leader },
        Refusal::UnknownGroup => Fault::UnknownGroup,
        Refusal::GroupExists => Fault::GroupExists,
        Refusal::NotAllowed => Fault::NotAllowed,
        Refusal::NotVoter => Fault::NotVoter,
        Refusal::MembershipRefused => Fault::Membership { why: None },
        Refusal::VoterChange => Fault::VoterChange,
        Refusal::InProgress => Fault::InProgress,
        Refusal::CommandTooLong => Fault::CommandTooLong,
        Refusal::NumberAtEnd => Fault::NumberAtEnd,
        Refusal::WrongParty => Fault::WrongParty,
        Refusal::BreaksCondition => Fault::BreaksCondition,
    }
}

/// Why a group's event broke off (own).
pub fn cause_of<F>(broken: Broken<F>) -> Cause<F>
    ensures { result ≡ cause_of broken }
{
    match broken {
        Broken::Unjudged(AllocError) => Cause::Unjudged,
        Broken::Begun(fault) => Cause::Storage(fault),
    }
}
