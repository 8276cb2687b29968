//! The events of a world, one function a kind.
ghost use Rattle.std.specs.Prelude.{◌≡◌, ◌<◌, ◌++◌, ℕ, List, Option, IfOk, OnOk, OnErr, IfSome, map, vec_len};
ghost use Rattle.raft_group_step.specs.GroupState.{GroupState};
ghost use Rattle.raft_laws.specs.GroupWorld.{GroupWorld, NodeState, Outcome, Recorded};
ghost use Rattle.raft_laws.specs.GroupRun.{is_same_setup, led_by, setup_in_call};
ghost use Rattle.raft_laws.specs.OneList.{IsGroupHistory};
ghost use Rattle.raft_laws.specs.declared.world_event.WorldEvent.{WorldEvent as AnEvent};
ghost use Rattle.raft_laws.specs.declared.world_event.WorldEvent.TheVariants.{Add, Ask, Crash, Deliver, Halt, Restart};
ghost use Rattle.raft_world.specs.Settled.{led_of};
ghost use Rattle.raft_world.specs.Member.{IsAt};
ghost use Rattle.raft_world.specs.World.{AreNodes, HasBroken, HasCome, HasHappened, IsPlace, IsWorldOf, node_of};
ghost use Rattle.raft_world.specs.Ending.{HasConcluded, IsEndOf, IsSent, IsWorldBut, down_of, first_setup, set_up_with};

use crate::member::{Broken, Ended, Member};
use crate::places::place_of;
use crate::settled::led_note::note;
use crate::world::{Mark, PlannedEvent, World};
use raft_conditions::GroupCommand;
use raft_executor::GroupMessage;
use raft_group_step::GroupCall;
use raft_laws::world_event::WorldEvent;
use raft_state::{BasicNode, Membership};
use std::alloc::AllocError;

impl World {
    // Whether the group isn't set up yet, or with the membership that the call brings, if it does.
    fn is_same_setup(&self, call: &GroupCommand) -> bool
        ensures { result ≡ is_same_setup self.now.setup (setup_in_call call.now) }
    {
        match (&self.setup, call) {
            (Some(first), GroupCall::Initialize { membership }) => first == membership,
            _ => true,
        }
    }

    // A copy of the membership that the call sets the group up with, where it isn't set up yet.
    fn first_setup(
        &self,
        call: &GroupCommand,
    ) -> Result<Option<Membership<u64, BasicNode>>, AllocError>
        ensures { IfOk result (λ setup. (n at : ℕ) → setup ≡ first_setup self.now.setup (Ask n call.now at)) }
    {
        match (&self.setup, call) {
            (None, GroupCall::Initialize { membership }) => Ok(Some(membership.clone()?)),
            _ => Ok(None),
        }
    }

    // From now on the group is set up with this membership, if there is one.
    fn set_up(&mut self, setup: Option<Membership<u64, BasicNode>>)
        ensures { self.new ≡ record self.old { setup = set_up_with setup self.old.setup } }
    {
        if setup.is_some() {
            self.setup = setup;
        }
    }

    // It is noted that the member leads, where it does. Without memory nothing is.
    fn note_lead(&mut self, place: usize) -> Result<(), AllocError>
        requires { place < vec_len self.old.members }
        ensures members { self.new.members ≡ self.old.members }
        ensures messages { self.new.messages ≡ self.old.messages }
        ensures setup { self.new.setup ≡ self.old.setup }
        ensures ok { (n : ℕ) (nodes : ℕ → NodeState) → IsPlace self.old.members.items n place → AreNodes self.old.members.items nodes
            → OnOk result (map led_of self.new.led.items ≡ map led_of self.old.led.items ++ led_by n (nodes n)) }
        ensures err { OnErr result (self.new.led.items ≡ self.old.led.items) }
    {
        let member = &self.members[place];
        if !member.is_leading() {
            return Ok(());
        }
        let led = note(member.replica.id, &member.stored)?;
        self.led.push(led)?;
        Ok(())
    }

    // What the member sent goes behind the other messages, and it is noted that it leads, where it
    // does. Without memory neither is.
    fn send(&mut self, place: usize, sent: Vec<GroupMessage>) -> Result<(), AllocError>
        requires { place < vec_len self.old.members }
        ensures members { self.new.members ≡ self.old.members }
        ensures setup { self.new.setup ≡ self.old.setup }
        ensures ok { (n : ℕ) (nodes : ℕ → NodeState) → IsPlace self.old.members.items n place → AreNodes self.old.members.items nodes
            → OnOk result (IsSent self.old self.new n (nodes n) sent.items) }
        ensures err { OnErr result ((self.new.led.items ≡ self.old.led.items) × (self.new.messages.items ≡ self.old.messages.items)) }
    {
        let mut sent = sent;
        self.messages.reserve(sent.len())?;
        self.note_lead(place)?;
        self.messages.append(&mut sent).unwrap();
        Ok(())
    }

    // The member at this place goes down.
    fn crash_at(&mut self, place: usize)
        requires { place < vec_len self.old.members }
        ensures { (g : GroupWorld) (n : ℕ) (state : NodeState) → IsPlace self.old.members.items n place → IsWorldBut self.old g n state
            → IsWorldBut self.new g n (down_of state) }
    {
        self.members[place].crash();
    }

    // What the event's end at its member leaves in the world.
    fn conclude(
        &mut self,
        place: usize,
        setup: Option<Membership<u64, BasicNode>>,
        ended: Ended,
    ) -> Result<Mark, AllocError>
        requires { place < vec_len self.old.members }
        ensures { (g : GroupWorld) (e : AnEvent) (n : ℕ) (o : Outcome) (state : NodeState) → IsPlace self.old.members.items n place → IsWorldBut self.old g n state
            → setup ≡ first_setup g.setup e → IsEndOf ended o → HasConcluded g e n state o self.new result }
    {
        match ended {
            Ended::Skipped => Ok(Mark::Skipped),
            Ended::Stopped => {
                self.set_up(setup);
                Ok(Mark::Stopped)
            }
            Ended::Refused(refusal) => {
                if let Err(refused) = self.note_lead(place) {
                    self.crash_at(place);
                    return Err(refused);
                }
                Ok(Mark::Refused(refusal))
            }
            Ended::Done(sent) => {
                self.set_up(setup);
                if let Err(refused) = self.send(place, sent) {
                    self.crash_at(place);
                    return Err(refused);
                }
                Ok(Mark::Done)
            }
        }
    }

    // The group is added at a node, which has it.
    fn add(&mut self, node: u64) -> Result<Mark, AllocError>
        ensures { (ids : List ℕ) (rs : List Recorded) (g : GroupWorld) (stop : Option ℕ) → IsGroupHistory ids rs g → IsWorldOf self.old g → HasCome g (Add node) stop self.new result }
    {
        let Some(place) = place_of(self.members.as_slice(), node) else {
            return Ok(Mark::Skipped);
        };
        let ended = self.members[place].add_group();
        self.conclude(place, None, ended)
    }

    // A node is asked for something.
    fn ask(
        &mut self,
        node: u64,
        call: &GroupCommand,
        now: u64,
        stop: Option<u64>,
    ) -> Result<Mark, AllocError>
        ensures { (ids : List ℕ) (rs : List Recorded) (g : GroupWorld) → IsGroupHistory ids rs g → IsWorldOf self.old g → HasCome g (Ask node call.now now) stop self.new result }
    {
        if !self.is_same_setup(call) {
            return Ok(Mark::Skipped);
        }
        let Some(place) = place_of(self.members.as_slice(), node) else {
            return Ok(Mark::Skipped);
        };
        let setup = match self.first_setup(call) {
            Ok(setup) => setup,
            Err(refused) => {
                self.crash_at(place);
                return Err(refused);
            }
        };
        match self.members[place].ask(self.alloc, call, now, stop) {
            Ok(ended) => self.conclude(place, setup, ended),
            Err(Broken::Unjudged(refused)) => Err(refused),
            Err(Broken::Begun(refused)) => {
                self.set_up(setup);
                Err(refused)
            }
        }
    }

    // A message is delivered.
    fn deliver(&mut self, number: u64, now: u64, stop: Option<u64>) -> Result<Mark, AllocError>
        ensures { (ids : List ℕ) (rs : List Recorded) (g : GroupWorld) → IsGroupHistory ids rs g → IsWorldOf self.old g → HasCome g (Deliver number now) stop self.new result }
    {
        let Some(message) = self.messages.get(number as usize) else {
            return Ok(Mark::Skipped);
        };
        let Some(place) = place_of(self.members.as_slice(), message.addressee) else {
            return Ok(Mark::Skipped);
        };
        match self.members[place].receive(self.alloc, message, now, stop) {
            Ok(ended) => self.conclude(place, None, ended),
            Err(refused) => Err(refused),
        }
    }

    // A node goes down.
    fn crash(&mut self, node: u64) -> Mark
        ensures { (g : GroupWorld) (stop : Option ℕ) → IsWorldOf self.old g → HasHappened g (Crash node) stop self.new result }
    {
        let Some(place) = place_of(self.members.as_slice(), node) else {
            return Mark::Skipped;
        };
        if !self.members[place].is_up() {
            return Mark::Skipped;
        }
        self.crash_at(place);
        Mark::Done
    }

    // Another group's event stops a node.
    fn halt(&mut self, node: u64) -> Mark
        ensures { (g : GroupWorld) (stop : Option ℕ) → IsWorldOf self.old g → HasHappened g (Halt node) stop self.new result }
    {
        let Some(place) = place_of(self.members.as_slice(), node) else {
            return Mark::Skipped;
        };
        if !self.members[place].is_up() {
            return Mark::Skipped;
        }
        self.crash_at(place);
        Mark::Stopped
    }

    // A node that is down is opened.
    fn restart(&mut self, node: u64, stop: Option<u64>) -> Result<Mark, AllocError>
        ensures { (ids : List ℕ) (rs : List Recorded) (g : GroupWorld) → IsGroupHistory ids rs g → IsWorldOf self.old g → HasCome g (Restart node) stop self.new result }
    {
        let Some(place) = place_of(self.members.as_slice(), node) else {
            return Ok(Mark::Skipped);
        };
        match self.members[place].open(self.alloc, stop) {
            Ok(ended) => self.conclude(place, None, ended),
            Err(refused) => Err(refused),
        }
    }

    // The node that an event comes to, where its message was sent.
    fn node_of(&self, event: &WorldEvent) -> Option<u64>
        ensures { (g : GroupWorld) → IsWorldOf self.now g → result ≡ node_of g event.now }
    {
        match event {
            WorldEvent::Add { node } => Some(*node),
            WorldEvent::Ask { node, .. } => Some(*node),
            WorldEvent::Crash { node } => Some(*node),
            WorldEvent::Halt { node } => Some(*node),
            WorldEvent::Restart { node } => Some(*node),
            WorldEvent::Deliver { number, .. } => {
                let message = self.messages.get(*number as usize)?;
                Some(message.addressee)
            }
        }
    }

    // The node that the event comes to goes down.
    pub(crate) fn stop_node_of(&mut self, event: &WorldEvent)
        ensures { (g : GroupWorld) → IsWorldOf self.old g → HasBroken g event.now self.new }
    {
        if let Some(node) = self.node_of(event) {
            let _mark = self.crash(node);
        }
    }

    // One event.
    pub(crate) fn event(&mut self, planned: &PlannedEvent) -> Result<Mark, AllocError>
        ensures { (ids : List ℕ) (rs : List Recorded) (g : GroupWorld) → IsGroupHistory ids rs g → IsWorldOf self.old g
            → HasCome g planned.now.event planned.now.stop self.new result }
    {
        let stop = planned.stop;
        match &planned.event {
            WorldEvent::Add { node } => self.add(*node),
            WorldEvent::Ask { node, call, now } => self.ask(*node, call, *now, stop),
            WorldEvent::Deliver { number, now } => self.deliver(*number, *now, stop),
            WorldEvent::Crash { node } => Ok(self.crash(*node)),
            WorldEvent::Halt { node } => Ok(self.halt(*node)),
            WorldEvent::Restart { node } => self.restart(*node, stop),
        }
    }
}
