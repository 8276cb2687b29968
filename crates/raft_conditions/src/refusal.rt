//! Why an event is refused.
use raft_state::NodeId;
use thiserror::Error;

/// Why an event of a group is refused (own). The group is as before.
#[derive(Clone, Copy, Debug, PartialEq, Eq, Error)]
#[error_bound(NID: NodeId)]
pub enum Refusal<NID> {
    /// The node doesn't lead the group; the leader is named where it is known.
    #[error("this node doesn't lead the group")]
    NotLeader(Option<NID>),
    /// The group isn't there.
    #[error("the group isn't there")]
    UnknownGroup,
    /// The group is there already.
    #[error("the group is there already")]
    GroupExists,
    /// The group has a vote, entries or a snapshot already, so it can't be set up.
    #[error("the group has a vote or entries already")]
    NotAllowed,
    /// This node is no voter.
    #[error("this node is no voter")]
    NotVoter,
    /// The membership isn't valid, has no voter group or is past a limit.
    #[error("the membership isn't valid or is past a limit")]
    MembershipRefused,
    /// The change would give the group other voter groups.
    #[error("the voter groups can't be changed")]
    VoterChange,
    /// The change before isn't committed yet.
    #[error("the change before isn't committed yet")]
    InProgress,
    /// The command has more than 65,536 bytes.
    #[error("the command is longer than 65536 bytes")]
    CommandTooLong,
    /// A term, a place, a moment or the number of a request isn't below 2^62.
    #[error("a number is at its end")]
    NumberAtEnd,
    /// The message isn't from the peer that handed it over, or isn't for this node.
    #[error("the message is from or for another node")]
    WrongParty,
    /// The message breaks a condition under which nodes send one.
    #[error("the message breaks a condition")]
    BreaksCondition,
}
