//! A member of a group: it is up with an engine, or down.
ghost use Rattle.std.specs.Prelude.{◌≡◌, ℕ, IfOk, OnOk, OnErr, None, Some, true, false, is_some, ◌∷◌, []};
ghost use Rattle.std.specs.Option.{option_copied};
ghost use Rattle.raft_group_step.specs.StoredGroup.{StoredGroup as Stored, MakeGroup, after_storing};
ghost use Rattle.raft_group_step.specs.GroupState.{GroupState, is_leader, no_group, state_of};
ghost use Rattle.std.specs.Result.{result_err};
ghost use Rattle.raft_group_storage.specs.Keeping.{KeepsOthers};
ghost use Rattle.raft_member.specs.Member.{IsIdle, IsUp};

use crate::ending::come_to_rest;
use raft_commands::RaftTypeConfig;
use raft_conditions::Refusal;
use raft_engine::Engine;
use raft_executor::SendingTimes;
use raft_group_storage::GroupStorage;
use raft_messages::Message;
use raft_state::{BasicNode, Bytes};
use std::alloc::{AllocError, Global};
use std::{fmt, mem};
use thiserror::Error;

/// A group whose nodes are numbers, and whose commands and answers are bytes (own).
#[derive(Clone, Copy, Debug)]
pub struct ByteGroup;

impl RaftTypeConfig for ByteGroup {
    type D = Bytes;

    type R = Bytes;

    type NodeId = u64;

    type Node = BasicNode;
}

/// How an event ended that came to a member (own).
#[derive(Drop)]
pub enum Ended<X> {
    /// It ran to its end, and sent these messages.
    Done(Vec<Message<X>>),
    /// It was refused, and the member is as before.
    Refused(Refusal<u64>),
    /// It stopped after the storing commands that it was given, and the member is down.
    Stopped,
    /// Nothing happened: the member was down, or up where it was to be opened.
    Skipped,
}

/// How far an event came that met a fault (own): its member is down.
#[derive(Debug, Drop, Error)]
#[error_bound(F: fmt::Display)]
pub enum Broken<F> {
    /// Want of memory: it isn't known whether the event is refused, and nothing of it was begun.
    #[error("out of memory before the event was judged")]
    Unjudged(AllocError),
    /// It wasn't refused. Some of its storing commands are done, from the first on, and the one
    /// that failed is or isn't.
    #[error("{0}")]
    Begun(F),
}

/// A member of a group at a node (own): it is up with an engine, or down. What the node has stored
/// of the group stands elsewhere (`GroupStorage`), and is handed in with each event.
#[derive(Drop)]
pub struct Member {
    /// The node's id.
    pub id: u64,
    /// The engine of a member that is up.
    pub engine: Option<Engine<ByteGroup>>,
    /// The last moment that was handed in since the opening, in ticks.
    pub moment: u64,
    /// When the last request to each peer left.
    pub sendings: SendingTimes,
}

// The member is let go. Each function that lets an engine go is proved for each of its parts: so
// this one does it for all.
pub(crate) fn let_go(_member: Member) {}

impl Member {
    /// A member that has the group, which is made by this, and nothing in it (own). Where it fails,
    /// the group is made or not.
    pub fn new<S: GroupStorage>(
        alloc: Global,
        id: u64,
        storage: &mut S,
        group: u64,
    ) -> Result<Member, S::Fault>
        ensures well { S.is_well storage.old → OnOk result (S.is_well storage.new) }
        ensures ok { S.is_well storage.old → S.shows storage.old group (no_group ∷ [])
            → IfOk result (λ m. (m.id ≡ id) × IsUp (S.is_well storage.new) (S.shows storage.new group) m (state_of (record no_group { present = true }))) }
        ensures err { (kept : Stored) → S.is_well storage.old → S.shows storage.old group (kept ∷ [])
            → OnErr result (S.shows storage.new group (kept ∷ after_storing MakeGroup kept ∷ []) × S.fails storage.new MakeGroup kept) }
        ensures others { KeepsOthers (S.shows storage.old) (S.shows storage.new) group }
        ensures met { S.meets storage.old storage.new (result_err result) }
    {
        let mut engine = Engine::for_new_group(alloc, id)?;
        come_to_rest(&mut engine);
        let made = Member {
            id,
            engine: Some(engine),
            moment: 0,
            sendings: SendingTimes::none(),
        };
        match storage.make_group(group) {
            Ok(()) => Ok(made),
            Err(met) => {
                let_go(made);
                Err(met)
            }
        }
    }

    /// A member that is down (own). Takes no memory.
    pub fn down(id: u64) -> Member
        ensures id { result.id ≡ id }
        ensures engine { result.engine ≡ None }
    {
        Member {
            id,
            engine: None,
            moment: 0,
            sendings: SendingTimes::none(),
        }
    }

    /// Whether the member is up (own).
    pub fn is_up(&self) -> bool
        ensures { result ≡ is_some self.now.engine }
    {
        self.engine.is_some()
    }

    /// The engine of a member that is up, lent (own).
    pub fn engine(&self) -> Option<&Engine<ByteGroup>>
        ensures { option_copied result ≡ self.now.engine }
    {
        self.engine.as_ref()
    }

    /// Whether the member leads (own).
    pub fn is_leading(&self) -> bool
        ensures up { (e : _) (s : GroupState) → self.now.engine ≡ Some e → IsIdle self.now.id e s → result ≡ is_leader s.role }
        ensures down { self.now.engine ≡ None → result ≡ false }
    {
        match &self.engine {
            Some(engine) => engine.leader.is_some(),
            None => false,
        }
    }

    /// The member goes down (own).
    pub fn crash(&mut self)
        ensures id { self.new.id ≡ self.old.id }
        ensures down { self.new.engine ≡ None }
    {
        let mut gone = Member::down(self.id);
        mem::swap(&mut self.engine, &mut gone.engine);
        mem::swap(&mut self.sendings, &mut gone.sendings);
        let_go(gone);
    }
}
