//! A world of one group: its members, and what they sent.
ghost use Rattle.std.specs.Prelude.{◌≡◌, ◌∷◌, [], List, ℕ, map, take, IfOk, OnOk, OnErr};
ghost use Rattle.std.specs.Option.{option_copied};
ghost use Rattle.raft_laws.specs.GroupWorld.{GroupWorld, Recorded, new_world};
ghost use Rattle.raft_laws.specs.GroupRun.{history_of, ran};
ghost use Rattle.raft_laws.specs.OneList.{AreNodeIds, IsGroupHistory};
ghost use Rattle.raft_laws.specs.Settled.{group_list};
ghost use Rattle.raft_world.specs.World.{HasBroken, HasMarked, HasRunEvents, IsWorldOf, additions, begun_world, member_of, planned_of};

use crate::member::Member;
use crate::places::place_of;
use crate::settled::group_list;
use crate::settled::led_note::LedNote;
use raft_conditions::Refusal;
use raft_executor::GroupMessage;
use raft_laws::world_event::WorldEvent;
use raft_messages::GroupEntry;
use raft_state::{BasicNode, Membership};
use std::alloc::{AllocError, Global};
use std::mem;

/// An event, and the number of storing commands after which it is to stop, if it is (own).
#[derive(Drop)]
pub struct PlannedEvent {
    /// What is to happen.
    pub event: WorldEvent,
    /// After so many storing commands it stops, and its node goes down, unless it is refused.
    pub stop: Option<u64>,
}

/// What became of an event (own).
#[derive(Clone, Copy, PartialEq, Eq)]
pub enum Mark {
    /// It ran to its end.
    Done,
    /// It was refused.
    Refused(Refusal<u64>),
    /// It stopped as it was to, or another group's event stopped the node, and its node is down.
    Stopped,
    /// It was passed over: there is no such node or message, the node is down or, to be restarted,
    /// up, or the group was set up with another membership.
    Skipped,
}

/// All members of one group, and all that they sent (own; crates of openraft's runtime do this with
/// tasks and channels).
#[derive(Drop)]
pub struct World {
    pub(crate) alloc: Global,
    pub(crate) members: Vec<Member>,
    pub(crate) messages: Vec<GroupMessage>,
    pub(crate) setup: Option<Membership<u64, BasicNode>>,
    pub(crate) led: Vec<LedNote>,
    pub(crate) marks: Vec<Mark>,
}

impl World {
    /// Nodes with these ids, which have the group and nothing in it (own). It fails for want of
    /// memory alone.
    pub fn new(alloc: Global, ids: &[u64]) -> Result<World, AllocError>
        ensures world { IfOk result (λ w. IsWorldOf w (begun_world ids.now)) }
        ensures history { IsGroupHistory ids.now (history_of (additions ids.now) (new_world ids.now)) (begun_world ids.now) }
    {
        let mut world = World {
            alloc,
            members: Vec::new(alloc),
            messages: Vec::new(alloc),
            setup: None,
            led: Vec::new(alloc),
            marks: Vec::new(alloc),
        };
        for id in ids {
            world.members.push(Member::new(alloc, *id)?)?;
        }
        Ok(world)
    }

    // One event, and its mark.
    fn happen(&mut self, planned: &PlannedEvent, marks: &mut Vec<Mark>) -> Result<(), AllocError>
        ensures ok { (ids : List ℕ) (rs : List Recorded) (g : GroupWorld) → IsGroupHistory ids rs g → IsWorldOf self.old g
            → OnOk result (IsWorldOf self.new (ran g planned.now.event planned.now.stop)) }
        ensures err { (ids : List ℕ) (rs : List Recorded) (g : GroupWorld) → IsGroupHistory ids rs g → IsWorldOf self.old g
            → OnErr result (HasBroken g planned.now.event self.new) }
        ensures marked { (ids : List ℕ) (rs : List Recorded) (g : GroupWorld) → IsGroupHistory ids rs g → IsWorldOf self.old g
            → OnOk result (HasMarked marks.old.items g (planned_of planned.now ∷ []) marks.new.items) }
        ensures unmarked { OnErr result (marks.new.items ≡ marks.old.items) }
    {
        if let Err(refused) = marks.reserve(1) {
            self.stop_node_of(&planned.event);
            return Err(refused);
        }
        let mark = self.event(planned)?;
        marks.push_reserved(mark);
        Ok(())
    }

    // The events in their order, with their marks.
    fn run_marked(&mut self, events: &[PlannedEvent], marks: &mut Vec<Mark>) -> usize
        ensures run { (ids : List ℕ) (rs : List Recorded) (g : GroupWorld) → IsGroupHistory ids rs g → IsWorldOf self.old g
            → HasRunEvents ids rs g events.now result self.new }
        ensures marks { (ids : List ℕ) (rs : List Recorded) (g : GroupWorld) → IsGroupHistory ids rs g → IsWorldOf self.old g
            → HasMarked marks.old.items g (map planned_of (take result events.now)) marks.new.items }
    {
        for (i, planned) in events.iter().enumerate() {
            let Ok(()) = self.happen(planned, marks) else {
                return i;
            };
        }
        events.len()
    }

    /// Runs the events in their order, and says how many (own). Fewer than all only for want of
    /// memory: then the event that met it stopped, or its node went down before it.
    pub fn run(&mut self, events: &[PlannedEvent]) -> usize
        ensures run { (ids : List ℕ) (rs : List Recorded) (g : GroupWorld) → IsGroupHistory ids rs g → IsWorldOf self.old g
            → HasRunEvents ids rs g events.now result self.new }
        ensures marks { (ids : List ℕ) (rs : List Recorded) (g : GroupWorld) → IsGroupHistory ids rs g → IsWorldOf self.old g
            → HasMarked self.old.marks.items g (map planned_of (take result events.now)) self.new.marks.items }
    {
        let mut marks = mem::replace(&mut self.marks, Vec::new(self.alloc));
        let count = self.run_marked(events, &mut marks);
        self.marks = marks;
        count
    }

    /// The group's one list (own): the entries that are settled, by place. It is a copy, and fails
    /// for want of memory alone.
    pub fn list(&self) -> Result<Vec<GroupEntry>, AllocError>
        ensures { IfOk result (λ list. (g : GroupWorld) → IsWorldOf self.now g → list.items ≡ group_list g) }
    {
        group_list(
            self.alloc,
            self.messages(),
            self.setup.as_ref(),
            self.led.as_slice(),
        )
    }

    /// What became of each event that was run, in order, lent (own).
    pub fn marks(&self) -> &[Mark]
        ensures { result.now ≡ self.now.marks.items }
    {
        self.marks.as_slice()
    }

    /// What was sent, by the numbers of the messages, lent (own).
    pub fn messages(&self) -> &[GroupMessage]
        ensures { result.now ≡ self.now.messages.items }
    {
        self.messages.as_slice()
    }

    /// The member of the node with this id, lent, if there is one (own).
    pub fn member(&self, id: u64) -> Option<&Member>
        ensures { option_copied result ≡ member_of id self.now.members.items }
    {
        match place_of(self.members.as_slice(), id) {
            Some(place) => self.members.get(place),
            None => None,
        }
    }
}
