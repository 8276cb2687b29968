//! The frames of all groups.
ghost use Rattle.std.specs.Prelude.{◌≡◌, ◌≢◌, ◌++◌, ◌∷◌, ℕ, [], length, slice_get, take, IfOk, OnOk, OnErr};
ghost use Rattle.std.specs.Option.{option_copied};
ghost use Rattle.raft_sent_frames.specs.Frames.{frames_of, numbers_from, sent_by};

use crate::frame::{NodeFrame, SentFrame, SentNumber};
use crate::sending::send_to;
use crate::sequence::Sequence;
use std::alloc::{AllocError, Global};
use std::collections::BTreeMap;
use std::marker::Model;

/// The frames that nodes sent, by group, each numbered from 0 in the order of sending (own). Contracts
/// see pairs of a group and its frames, by rising group.
#[derive(Drop)]
pub struct SentFrames {
    alloc: Global,
    groups: BTreeMap<u64, Sequence<SentFrame>>,
}

impl Model for SentFrames {
    ghost use Rattle.std.specs.Prelude.{ℕ, List};
    ghost use Rattle.raft_sent_frames.specs.declared.frame.SentFrame.{SentFrame};

    ghost Value = { List (ℕ × List SentFrame) };

    ghost view = { λ x. x.groups.entries };
}

impl SentFrames {
    /// No frame. Takes no memory.
    pub fn new(alloc: Global) -> SentFrames
        ensures { result ≡ [] }
    {
        SentFrames {
            alloc,
            groups: BTreeMap::new(alloc),
        }
    }

    /// The frames of this sender are the group's next ones, in their order, and their numbers are
    /// answered. An `Err` is want of memory: then none of them is sent.
    pub fn send(
        &mut self,
        sender: u64,
        group: u64,
        frames: Sequence<NodeFrame>,
    ) -> Result<Sequence<SentNumber>, AllocError>
        ensures numbers { IfOk result (λ numbers. numbers ≡ numbers_from (length (frames_of self.old group)) frames) }
        ensures ok { OnOk result (frames_of self.new group ≡ frames_of self.old group ++ sent_by sender frames) }
        ensures others { (other : ℕ) → other ≢ group → frames_of self.new other ≡ frames_of self.old other }
        ensures err { OnErr result (frames_of self.new group ≡ frames_of self.old group) }
    {
        let none = Sequence::new(self.alloc);
        let list = self.groups.entry(group)?.or_insert(none);
        send_to(self.alloc, list, sender, frames)
    }

    /// Keeps so many of the group's first frames: the others weren't sent.
    pub fn take_back(&mut self, group: u64, count: u64)
        ensures group { frames_of self.new group ≡ take count (frames_of self.old group) }
        ensures others { (other : ℕ) → other ≢ group → frames_of self.new other ≡ frames_of self.old other }
    {
        if let Some(list) = self.groups.get_mut(&group) {
            list.truncate(count as usize);
        }
    }

    /// The group's frames, lent, in the order of sending.
    pub fn frames(&self, group: u64) -> &[SentFrame]
        ensures { result.now ≡ frames_of self.now group }
    {
        match self.groups.get(&group) {
            Some(frames) => frames.as_slice(),
            None => &[],
        }
    }

    /// The group's frame of this number, lent; none where no such frame was sent.
    pub fn get(&self, group: u64, number: u64) -> Option<&SentFrame>
        ensures { option_copied result ≡ slice_get (frames_of self.now group) number }
    {
        self.frames(group).get(number as usize)
    }
}
