//! A world, or members to which any message may come.
use crate::hostile::HostileWorld;
use raft_executor::GroupMessage;
use raft_messages::GroupEntry;
use raft_world::{Mark, Member, World};
use std::alloc::AllocError;

/// The nodes that lines speak of.
#[derive(Drop)]
pub enum Nodes {
    /// Each message was sent by one of them.
    World(World),
    /// Any message may come.
    Hostile(HostileWorld),
}

impl Nodes {
    /// What was sent, in its order.
    pub fn messages(&self) -> &[GroupMessage] {
        match self {
            Nodes::World(world) => world.messages(),
            Nodes::Hostile(world) => world.messages(),
        }
    }

    /// The member with the id, if there is one.
    pub fn member(&self, id: u64) -> Option<&Member> {
        match self {
            Nodes::World(world) => world.member(id),
            Nodes::Hostile(world) => world.member(id),
        }
    }

    /// The list of the group. A hostile world has none.
    pub fn list(&self) -> Result<Vec<GroupEntry>, AllocError> {
        match self {
            Nodes::World(world) => world.list(),
            Nodes::Hostile(world) => Ok(Vec::new(world.alloc)),
        }
    }

    /// What became of the last event.
    pub fn mark(&self) -> Mark {
        match self {
            Nodes::World(world) => world.marks().last().copied().unwrap_or(Mark::Skipped),
            Nodes::Hostile(world) => world.mark(),
        }
    }
}
