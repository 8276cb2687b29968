//! Frames: messages of groups as they go between nodes.
ghost use Rattle.std.specs.Prelude.{◌≡◌};
ghost use Rattle.raft_wire.specs.Bodies.{has_number, is_conflict};
ghost use Rattle.raft_wire.specs.Frames.{kind_of};

use raft_messages::{Message, MessageBody, ReplyResult, RequestId, SnapshotBytes};

/// The kinds of frames. Their numbers are 1 to 6, in this order.
#[derive(Clone, Copy, Debug, PartialEq, Eq)]
pub enum FrameKind {
    /// 1: a candidate asks for a vote.
    VoteRequest,
    /// 2: a node answers a candidate.
    VoteReply,
    /// 3: a leader sends entries, or says what is committed.
    Append,
    /// 4: a node answers an append request.
    AppendReply,
    /// 5: a leader sends its snapshot.
    Snapshot,
    /// 6: a node answers a snapshot.
    SnapshotReply,
}

/// A message of a group, as one node sends it to another (own). Its snapshot is bytes of the machine.
#[derive(Drop)]
pub struct Frame {
    /// The group that it is about.
    pub group: u64,
    /// Who sends what to whom.
    pub message: Message<SnapshotBytes>,
}

impl Frame {
    /// The kind of the frame.
    pub fn kind(&self) -> FrameKind
        ensures { result ≡ kind_of self.now.message.body }
    {
        match &self.message.body {
            MessageBody::VoteRequest(_) => FrameKind::VoteRequest,
            MessageBody::VoteReply(_) => FrameKind::VoteReply,
            MessageBody::AppendRequest(_) => FrameKind::Append,
            MessageBody::AppendReply(_) => FrameKind::AppendReply,
            MessageBody::SnapshotRequest { .. } => FrameKind::Snapshot,
            MessageBody::SnapshotReply(_) => FrameKind::SnapshotReply,
        }
    }
}

// Whether the request has a number.
pub(crate) fn has_number(id: RequestId) -> bool
    ensures { result ≡ has_number id }
{
    match id {
        RequestId::HeartBeat => false,
        RequestId::Numbered { .. } => true,
    }
}

// Whether the outcome is one that a snapshot can't have.
pub(crate) fn is_conflict(outcome: ReplyResult) -> bool
    ensures { result ≡ is_conflict outcome }
{
    match outcome {
        ReplyResult::Conflict => true,
        ReplyResult::Success | ReplyResult::PartialSuccess(_) | ReplyResult::HigherVote(_) => false,
    }
}
