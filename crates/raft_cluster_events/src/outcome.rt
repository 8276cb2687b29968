//! What comes of an event.

use crate::event::ClusterEvent;
use raft_cluster_conditions::ClusterRefusal;
use raft_machines::{MembershipFault, Told, UnknownTokens};
use raft_sent_frames::{SentNumber, Sequence};
use thiserror::Error;

/// Why a node refuses an event, whose group is as before (own). Each reason has a number and a name.
#[derive(Clone, Copy, Debug, PartialEq, Eq, Error)]
pub enum NodeRefusal {
    /// 1: the node doesn't lead the group; the leader is named where it is known.
    #[error("the node doesn't lead the group: the leader is {leader:?}")]
    NotLeader { leader: Option<u64> },
    /// 2: the group isn't there.
    #[error("the group isn't there")]
    UnknownGroup,
    /// 3: the group is there already.
    #[error("the group is there already")]
    GroupExists,
    /// 4: the group was set up before.
    #[error("the group was set up before")]
    NotAllowed,
    /// 5: the node is no voter.
    #[error("the node is no voter")]
    NotVoter,
    /// 6: the membership is refused; why is said of a first one.
    #[error("the membership is refused: {why:?}")]
    Membership { why: Option<MembershipFault> },
    /// 7: the voter groups can't be changed.
    #[error("the voter groups can't be changed")]
    VoterChange,
    /// 8: the change before isn't committed yet.
    #[error("the change before isn't committed yet")]
    InProgress,
    /// 9: the command is longer than 65,536 bytes.
    #[error("the command is longer than 65,536 bytes")]
    CommandTooLong,
    /// 10: a term, a place, a moment or the number of a request is at its end.
    #[error("a term, a place, a moment or the number of a request is at its end")]
    NumberAtEnd,
    /// 11: the node stopped before, and is to be opened again.
    #[error("the node stopped before, and is to be opened again")]
    Failed,
    /// 12: the frame isn't the peer's own, or isn't for this node.
    #[error("the frame isn't the peer's own, or isn't for this node")]
    WrongParty,
    /// 13: more than a batch can hold. No call answers it: the number is kept.
    #[error("more than a batch can hold")]
    TooMuchForBatch,
    /// 14: the message breaks a condition under which nodes send one.
    #[error("the message breaks a condition under which nodes send one")]
    BreaksCondition,
    /// 15: the peer's stream is refused.
    #[error("the peer's stream is refused")]
    Frame,
}

/// Why a node stopped in an event (own).
#[derive(Clone, Copy, Debug, PartialEq, Eq, Error)]
pub enum StopCause {
    /// A call of the files was refused.
    #[error("a call of the files was refused")]
    Io,
    /// Two appends of one call found no space.
    #[error("two appends of one call found no space")]
    TryAgain,
    /// Want of memory.
    #[error("out of memory")]
    Memory,
    /// The machine's snapshot is longer than it may be.
    #[error("the machine's snapshot is longer than it may be")]
    TooLong,
    /// Another cause.
    #[error("another cause")]
    Other,
}

/// The tokens of an event that a node had done when memory was refused behind it (own). Nobody is told:
/// all of them stay unknown.
#[derive(Debug, Drop)]
pub struct Unsaid {
    /// The group.
    pub group: u64,
    /// The tokens that were to be told, by rising place.
    pub told: Sequence<Told>,
    /// The tokens that were to be unknown; they waited behind those.
    pub unknown: Sequence<u64>,
}

/// 16: a node stopped in an event (own).
#[derive(Debug, Drop, Error)]
#[error("the node stopped: {cause}")]
pub struct Stop {
    /// Why.
    pub cause: StopCause,
    /// The tokens of the event itself, where it was done.
    pub unsaid: Option<Unsaid>,
    /// All tokens that still waited at the node, by rising group.
    pub unknown: Sequence<UnknownTokens>,
}

/// Why a node's machine can't crash so (own). The node is as before.
#[derive(Clone, Copy, Debug, PartialEq, Eq, Error)]
pub enum CrashRefusal {
    /// No crash leaves such files.
    #[error("no crash leaves such files")]
    NotAnImage,
    /// The files would show by chance what nobody wrote.
    #[error("the files would show by chance what nobody wrote")]
    ByChance,
    /// Want of memory, before anything was done.
    #[error("out of memory")]
    Memory,
}

/// Why a node doesn't do what it is asked for (own).
#[derive(Debug, Drop, Error)]
pub enum NodeError {
    /// It refuses it: the group is as before.
    #[error("{0}")]
    Refused(NodeRefusal),
    /// It stopped.
    #[error("{0}")]
    Stopped(Stop),
}

/// What an event did in a group (own).
#[derive(Drop)]
pub struct GroupOutcome {
    /// The group.
    pub group: u64,
    /// The frames that left, in the order of sending.
    pub sent: Sequence<SentNumber>,
    /// The tokens that were told, by rising place, with the machine's answers.
    pub told: Sequence<Told>,
    /// The tokens of which it stays unknown what becomes of their commands.
    pub unknown: Sequence<u64>,
}

/// What came of an event (own).
#[derive(Drop)]
pub enum EventOutcome {
    /// It was done, and did this in its group; an opening did so in each group of the node, by rising
    /// group.
    Done(Sequence<GroupOutcome>),
    /// Its node's log was cleaned, where it was time for that. These groups hold old files of it back,
    /// by rising group: a snapshot and a purge of each of them let these go.
    Cleaned(Sequence<u64>),
    /// Its node refused it.
    Refused(NodeRefusal),
    /// Its node stopped in it.
    Stopped(Stop),
    /// The cluster turned it away before a node saw it, or a crash before anything was done of it.
    TurnedAway(ClusterRefusal),
}

/// An event with its outcome (own).
#[derive(Drop)]
pub struct Recorded {
    pub event: ClusterEvent,
    pub outcome: EventOutcome,
}
