//! Members of a group to which any message may come, also one that nobody sent.
use crate::fault::Fault;
use crate::message_reading::message_in;
use crate::reading::{number, read_event, stop_in, word};
use raft_conditions::GroupCommand;
use raft_executor::GroupMessage;
use raft_laws::WorldEvent;
use raft_world::{Broken, Ended, Mark, Member, PlannedEvent};
use std::alloc::{AllocError, Global};

/// Members, what they sent, and what became of the last event.
#[derive(Drop)]
pub struct HostileWorld {
    pub alloc: Global,
    members: Vec<Member>,
    messages: Vec<GroupMessage>,
    mark: Mark,
}

// The member with the id, if there is one.
fn member_of(members: &mut [Member], node: u64) -> Option<&mut Member> {
    let place = members.iter().position(|member| member.replica.id == node)?;
    members.get_mut(place)
}

// A member is asked for something.
fn asked(
    alloc: Global,
    member: &mut Member,
    call: &GroupCommand,
    now: u64,
    stop: Option<u64>,
) -> Result<Ended, Fault> {
    match member.ask(alloc, call, now, stop) {
        Ok(ended) => Ok(ended),
        Err(Broken::Unjudged(_) | Broken::Begun(_)) => Err(Fault::Memory),
    }
}

// A member goes down.
fn stopped(member: &mut Member, mark: Mark) -> Mark {
    if !member.is_up() {
        return Mark::Skipped;
    }
    member.crash();
    mark
}

impl HostileWorld {
    /// Members with these ids, which have the group and nothing in it.
    pub fn new(alloc: Global, ids: &[u64]) -> Result<HostileWorld, AllocError> {
        let mut members = Vec::new(alloc);
        for id in ids {
            members.push(Member::new(alloc, *id)?)?;
        }
        Ok(HostileWorld {
            alloc,
            members,
            messages: Vec::new(alloc),
            mark: Mark::Skipped,
        })
    }

    /// What was sent, in its order.
    pub fn messages(&self) -> &[GroupMessage] {
        self.messages.as_slice()
    }

    /// The member with the id, if there is one.
    pub fn member(&self, id: u64) -> Option<&Member> {
        self.members.iter().find(|member| member.replica.id == id)
    }

    /// What became of the last event.
    pub fn mark(&self) -> Mark {
        self.mark
    }

    // What the event's end is called. What was sent is kept.
    fn conclude(&mut self, ended: Ended) -> Result<Mark, AllocError> {
        Ok(match ended {
            Ended::Done(sent) => {
                let mut sent = sent;
                self.messages.append(&mut sent)?;
                Mark::Done
            }
            Ended::Refused(why) => Mark::Refused(why),
            Ended::Stopped => Mark::Stopped,
            Ended::Skipped => Mark::Skipped,
        })
    }

    // A message comes to a node.
    fn receive(
        &mut self,
        node: u64,
        message: &GroupMessage,
        now: u64,
        stop: Option<u64>,
    ) -> Result<Mark, Fault> {
        let Some(member) = member_of(&mut self.members, node) else {
            return Ok(Mark::Skipped);
        };
        let ended = member.receive(self.alloc, message, now, stop)?;
        Ok(self.conclude(ended)?)
    }

    // A message that was sent is delivered.
    fn deliver(&mut self, number: u64, now: u64, stop: Option<u64>) -> Result<Mark, Fault> {
        let Some(message) = self.messages.get(number as usize) else {
            return Ok(Mark::Skipped);
        };
        let Some(member) = member_of(&mut self.members, message.addressee) else {
            return Ok(Mark::Skipped);
        };
        let ended = member.receive(self.alloc, message, now, stop)?;
        Ok(self.conclude(ended)?)
    }

    // What happens to a member.
    fn happen_at(
        &mut self,
        node: u64,
        event: &WorldEvent,
        stop: Option<u64>,
    ) -> Result<Mark, Fault> {
        let Some(member) = member_of(&mut self.members, node) else {
            return Ok(Mark::Skipped);
        };
        let ended = match event {
            WorldEvent::Crash { .. } => return Ok(stopped(member, Mark::Done)),
            WorldEvent::Halt { .. } => return Ok(stopped(member, Mark::Stopped)),
            WorldEvent::Add { .. } => member.add_group(),
            WorldEvent::Restart { .. } => member.open(self.alloc, stop)?,
            WorldEvent::Ask { call, now, .. } => asked(self.alloc, member, call, *now, stop)?,
            WorldEvent::Deliver { .. } => Ended::Skipped,
        };
        Ok(self.conclude(ended)?)
    }

    fn happen(&mut self, planned: &PlannedEvent) -> Result<Mark, Fault> {
        let node = match &planned.event {
            WorldEvent::Deliver { number, now } => {
                return self.deliver(*number, *now, planned.stop);
            }
            WorldEvent::Add { node }
            | WorldEvent::Ask { node, .. }
            | WorldEvent::Crash { node }
            | WorldEvent::Halt { node }
            | WorldEvent::Restart { node } => *node,
        };
        self.happen_at(node, &planned.event, planned.stop)
    }

    // The message on a line comes to the node that it names.
    fn take(&mut self, line: &str) -> Result<Mark, Fault> {
        let mut words = line.split_whitespace();
        let _verb = word(&mut words)?;
        let node = number(&mut words)?;
        let now = number(&mut words)?;
        let stop = stop_in(word(&mut words)?)?;
        let message = message_in(self.alloc, &mut words)?;
        self.receive(node, &message, now, stop)
    }

    /// The event on a line happens; its token is this one, where it needs one.
    pub fn run(&mut self, line: &str, token: u64) -> Result<(), Fault> {
        self.mark = if line.starts_with("receive") {
            self.take(line)?
        } else {
            self.happen(&read_event(self.alloc, line, 0, token)?)?
        };
        Ok(())
    }
}
