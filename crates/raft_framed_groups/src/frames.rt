//! What a group's step sends, as frames.
ghost use Rattle.std.specs.Prelude.{IfErr, IfOk};
ghost use Rattle.std.specs.List.{AllZip};
ghost use Rattle.raft_framed_groups.specs.Frames.{AnyNotFramed, IsFramed, IsNotFramed};

use raft_list_facts::{Acceptance, accepted_in};
use raft_messages::{Message, SnapshotBytes};
use raft_wire::{Frame, FrameError, write_frame};
use std::alloc::Global;

/// A frame on its way from a node (own).
#[derive(Drop)]
pub struct GroupFrame {
    /// The group.
    pub group: u64,
    /// The node that is to get it.
    pub addressee: u64,
    /// The frame, with its length before it.
    pub bytes: Vec<u8>,
    /// What its message accepts, if anything.
    pub accepts: Option<Acceptance>,
}

// The message as a frame of the group.
fn frame_of(
    alloc: Global,
    group: u64,
    message: Message<SnapshotBytes>,
) -> Result<GroupFrame, FrameError>
    ensures ok { IfOk result (λ sent. IsFramed group message sent) }
    ensures err { IfErr result (λ why. IsNotFramed group message why) }
{
    let addressee = message.addressee;
    let accepts = accepted_in(&message.body);
    match write_frame(alloc, &Frame { group, message }) {
        Ok(bytes) => Ok(GroupFrame {
            group,
            addressee,
            bytes,
            accepts,
        }),
        Err(why) => Err(why),
    }
}

/// The messages as frames of the group, in their order (own). One that is past a limit is named by
/// its fault; `Memory` is want of memory.
pub fn frames_of(
    alloc: Global,
    group: u64,
    messages: Vec<Message<SnapshotBytes>>,
) -> Result<Vec<GroupFrame>, FrameError>
    ensures ok { IfOk result (λ sent. AllZip (IsFramed group) messages.items sent.items) }
    ensures err { IfErr result (λ why. AnyNotFramed group messages.items why) }
{
    let mut sent = Vec::new(alloc);
    for message in messages {
        let frame = match frame_of(alloc, group, message) {
            Ok(frame) => frame,
            Err(why) => return Err(why),
        };
        if sent.push(frame).is_err() {
            return Err(FrameError::Memory);
        }
    }
    Ok(sent)
}
