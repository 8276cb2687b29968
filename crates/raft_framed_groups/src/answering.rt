//! A piece of a peer's stream comes to a node.
ghost use Rattle.std.specs.Prelude.{◌≡◌, None};
ghost use Rattle.std.specs.Option.{option_copied};
ghost use Rattle.std.specs.Ordering.{nat_cmp};
ghost use Rattle.std.specs.BTreeMap.{get};
ghost use Rattle.raft_framed_groups.specs.Answers.{IsAnswered, IsAsked, IsFrameTaken, IsFrom, IsOutcomeOf, IsTurnedAway, fault_met_by_answer, is_right_party, node_over};

use crate::frames::{GroupFrame, frames_of};
use raft_conditions::{GroupCommand, Refusal};
use raft_group_storage::GroupStorage;
use raft_groups::{Groups, GroupsFault};
use raft_member::Ended;
use raft_messages::SnapshotBytes;
use raft_wire::{Fed, Feeder, Frame, FrameError};
use std::alloc::Global;
use std::fmt;
use thiserror::Error;

/// What a piece of a peer's stream did (own).
#[derive(Drop)]
pub enum Outcome {
    /// No frame is whole yet, and the node is as before.
    Waits,
    /// A group took its step, and sends these frames.
    Sent(Vec<GroupFrame>),
    /// The group refuses the message, and is as before.
    Refused(Refusal<u64>),
    /// The group's member is down, and stays as it is.
    Down,
}

/// Why a piece has no answer (own).
#[derive(Debug, Drop, Error)]
#[error_bound(F: fmt::Display)]
pub enum AnswerError<F> {
    /// The stream is refused, or memory is lacking for what comes: the node is as before.
    #[error("the peer's stream: {0}")]
    Stream(FrameError),
    /// The frame isn't the peer's own, or isn't for this node: the node is as before.
    #[error("the frame isn't the peer's own, or isn't for this node")]
    WrongParty,
    /// The node's groups don't take it.
    #[error("{0}")]
    Groups(GroupsFault<F>),
    /// The group took its step, and what it sends is lost.
    #[error("what the event sends has no frame: {0}")]
    Unsent(FrameError),
}

/// What became of a piece (own).
#[derive(Drop)]
pub struct Answer<F> {
    /// How many bytes of the piece were taken.
    pub used: usize,
    /// What they did.
    pub outcome: Result<Outcome, AnswerError<F>>,
}

// What an event that has ended sends.
fn outcome_of<F: Drop>(
    alloc: Global,
    group: u64,
    ended: Ended<SnapshotBytes>,
) -> Result<Outcome, AnswerError<F>>
    ensures ended { IsOutcomeOf group ended result }
    ensures met { fault_met_by_answer result ≡ None }
{
    match ended {
        Ended::Done(messages) => match frames_of(alloc, group, messages) {
            Ok(sent) => Ok(Outcome::Sent(sent)),
            Err(why) => Err(AnswerError::Unsent(why)),
        },
        Ended::Refused(why) => Ok(Outcome::Refused(why)),
        Ended::Stopped | Ended::Skipped => Ok(Outcome::Down),
    }
}

/// One of the groups is asked for something at this moment, in ticks (own), and what its step sends
/// is answered as frames. Where a snapshot is to be built, that of what is applied is handed in,
/// `built`. A group that isn't there and a node that has failed leave all as it was, and a fault
/// inside the step fails the node (`Groups`); behind the step only what it sends is lost (`Unsent`).
pub fn ask_group<S: GroupStorage<Snapshot = SnapshotBytes>>(
    alloc: Global,
    groups: &mut Groups<S>,
    group: u64,
    call: &GroupCommand,
    built: Option<&SnapshotBytes>,
    now: u64,
) -> Result<Outcome, AnswerError<S::Fault>>
    ensures asked { IsAsked S.stands
        (node_over groups.old.id S.is_well S.shows S.fails groups.old.has_failed (get nat_cmp groups.old.members) groups.old.storage)
        (node_over groups.old.id S.is_well S.shows S.fails groups.new.has_failed (get nat_cmp groups.new.members) groups.new.storage)
        group call.now (option_copied built.entry) now result }
    ensures same { IsTurnedAway result → groups.new ≡ groups.old }
    ensures id { groups.new.id ≡ groups.old.id }
    ensures met { S.meets groups.old.storage groups.new.storage (fault_met_by_answer result) }
{
    match groups.ask(group, call, built, now) {
        Ok(ended) => outcome_of(alloc, group, ended),
        Err(fault) => Err(AnswerError::Groups(fault)),
    }
}

// The frame's message comes to its group.
fn take_frame<S: GroupStorage<Snapshot = SnapshotBytes>>(
    alloc: Global,
    groups: &mut Groups<S>,
    frame: &Frame,
    now: u64,
) -> Result<Outcome, AnswerError<S::Fault>>
    ensures takes { IsFrameTaken S.stands
        (node_over groups.old.id S.is_well S.shows S.fails groups.old.has_failed (get nat_cmp groups.old.members) groups.old.storage)
        (node_over groups.old.id S.is_well S.shows S.fails groups.new.has_failed (get nat_cmp groups.new.members) groups.new.storage)
        frame.now now result }
    ensures same { IsTurnedAway result → groups.new ≡ groups.old }
    ensures id { groups.new.id ≡ groups.old.id }
    ensures met { S.meets groups.old.storage groups.new.storage (fault_met_by_answer result) }
{
    match groups.receive(frame.group, &frame.message, now) {
        Ok(ended) => outcome_of(alloc, frame.group, ended),
        Err(fault) => Err(AnswerError::Groups(fault)),
    }
}

// Whether the frame is the peer's own, and for this node.
fn is_right_party(own: u64, peer: u64, frame: &Frame) -> bool
    ensures { result ≡ is_right_party own peer frame.now }
{
    let message = &frame.message;
    message.sender == peer && message.sender != own && message.addressee == own
}

/// A whole frame of a peer comes to a node at this moment, in ticks (own): its message comes to its
/// group, and what the group's step sends is answered as frames. One that isn't the peer's own, or
/// isn't for this node, is refused before its group is looked for (`WrongParty`); the other errors
/// are `answer_piece`'s.
pub fn receive_frame<S: GroupStorage<Snapshot = SnapshotBytes>>(
    alloc: Global,
    groups: &mut Groups<S>,
    peer: u64,
    frame: &Frame,
    now: u64,
) -> Result<Outcome, AnswerError<S::Fault>>
    ensures takes { IsFrom (is_right_party groups.old.id peer frame.now) groups.old groups.new (IsFrameTaken S.stands
        (node_over groups.old.id S.is_well S.shows S.fails groups.old.has_failed (get nat_cmp groups.old.members) groups.old.storage)
        (node_over groups.old.id S.is_well S.shows S.fails groups.new.has_failed (get nat_cmp groups.new.members) groups.new.storage)
        frame.now now result) result }
    ensures same { IsTurnedAway result → groups.new ≡ groups.old }
    ensures id { groups.new.id ≡ groups.old.id }
    ensures met { S.meets groups.old.storage groups.new.storage (fault_met_by_answer result) }
{
    if !is_right_party(groups.id, peer, frame) {
        return Err(AnswerError::WrongParty);
    }
    take_frame(alloc, groups, frame, now)
}

/// A piece of a peer's stream comes to a node at this moment, in ticks (own). Once it makes a frame
/// whole, the frame's message comes to its group, and what the group's step sends is answered as
/// frames. Whole bytes thus become what the node has stored, and bytes again.
///
/// An error says what it leaves: a refused stream and a frame of another party leave the node as
/// before (`Stream`, `WrongParty`); so do a group that isn't there and a node that has failed, and a
/// fault inside the step fails the node (`Groups`); behind the step only what it sends is lost
/// (`Unsent`).
pub fn answer_piece<S: GroupStorage<Snapshot = SnapshotBytes>>(
    alloc: Global,
    groups: &mut Groups<S>,
    feeder: &mut Feeder,
    peer: u64,
    piece: &[u8],
    now: u64,
) -> Answer<S::Fault>
    ensures answers { IsAnswered groups.old.id peer groups.old groups.new (λ frame. IsFrameTaken S.stands
        (node_over groups.old.id S.is_well S.shows S.fails groups.old.has_failed (get nat_cmp groups.old.members) groups.old.storage)
        (node_over groups.old.id S.is_well S.shows S.fails groups.new.has_failed (get nat_cmp groups.new.members) groups.new.storage)
        frame now result.outcome) feeder.old.feeding piece.now result feeder.new.feeding }
    ensures id { groups.new.id ≡ groups.old.id }
    ensures met { S.meets groups.old.storage groups.new.storage (fault_met_by_answer result.outcome) }
{
    let Fed { used, frame } = feeder.feed(piece);
    let outcome = match frame {
        Ok(None) => Ok(Outcome::Waits),
        Ok(Some(frame)) => receive_frame(alloc, groups, peer, &frame, now),
        Err(why) => Err(AnswerError::Stream(why)),
    };
    Answer { used, outcome }
}
