//! Events that are asked for once more where they find no memory.
use crate::fault::Fault;
use crate::world_texts::MemberText;
use raft_laws::WorldEvent;
use raft_world::{PlannedEvent, World};
use std::alloc::{AllocError, Global};

// The node that the event comes to, 0 where there is none.
fn node_of(world: &World, event: &WorldEvent) -> u64 {
    match event {
        WorldEvent::Add { node }
        | WorldEvent::Ask { node, .. }
        | WorldEvent::Crash { node }
        | WorldEvent::Halt { node }
        | WorldEvent::Restart { node } => *node,
        WorldEvent::Deliver { number, .. } => match world.messages().get(*number as usize) {
            None => 0,
            Some(message) => message.addressee,
        },
    }
}

// All nodes but one, and how many events and messages there were.
fn others(alloc: Global, world: &World, ids: &[u64], but: u64) -> Result<String, AllocError> {
    let mut text = String::new(alloc);
    let marks = world.marks().len();
    writeln!(text, "{marks} {}", world.messages().len())?;
    for id in ids {
        if *id != but {
            if let Some(member) = world.member(*id) {
                write!(text, "{}", MemberText(member))?;
            }
        }
    }
    Ok(text)
}

fn is_up(world: &World, node: u64) -> bool {
    match world.member(node) {
        None => false,
        Some(member) => member.is_up(),
    }
}

// The node is opened, and the event is run.
fn run_again(world: &mut World, node: u64, planned: &[PlannedEvent; 1]) -> Result<(), Fault> {
    let event = WorldEvent::Restart { node };
    let opening = [PlannedEvent { event, stop: None }];
    if world.run(&opening) == 1 && world.run(planned) == 1 {
        return Ok(());
    }
    Err(Fault::Stuck)
}

/// Runs an event, and once more where it found no memory: then its node, if there is one, is down,
/// and all else is as it was.
pub fn run_patiently(
    alloc: Global,
    world: &mut World,
    ids: &[u64],
    planned: &[PlannedEvent; 1],
) -> Result<(), Fault> {
    let node = node_of(world, &planned[0].event);
    let before = others(alloc, world, ids, node)?;
    if world.run(planned) == 1 {
        return Ok(());
    }
    let after = others(alloc, world, ids, node)?;
    if is_up(world, node) || before.as_str() != after.as_str() {
        return Err(Fault::Changed);
    }
    run_again(world, node, planned)
}
