//! A member of a group with what its node has stored of it, in memory.
ghost use Rattle.std.specs.Prelude.{◌≡◌, ℕ, Ok, IfOk, IfErr, OnErr, Option, None, true, false, is_some};
ghost use Rattle.std.specs.Option.{option_copied};
ghost use Rattle.raft_group_step.specs.StoredGroup.{StoredGroup as Stored};
ghost use Rattle.raft_group_step.specs.GroupState.{GroupState, is_leader, no_group, state_of};
ghost use Rattle.raft_group_step.specs.GroupEvent.{AddGroup, Call, Open, Receive};
ghost use Rattle.raft_group_step.specs.declared.group_call.GroupCall.TheVariants.{TriggerSnapshot};
ghost use Rattle.raft_messages.specs.Messages.{message_of};
ghost use Rattle.raft_member.specs.Member.{IsBuilt, IsLawful};
ghost use Rattle.raft_member.specs.Opening.{IsOpenable};
ghost use Rattle.raft_member.specs.declared.member.Ended.TheVariants.{Skipped};
ghost use Rattle.raft_world.specs.Member.{HasBrokenOff, HasEnded, HasStopped, IsDown, IsUp};

use raft_conditions::{GroupCommand, Refusal};
use raft_engine::Engine;
use raft_executor::GroupMessage;
use raft_group_step::GroupCall;
use raft_group_storage::ONLY_GROUP;
use raft_member::{ByteGroup, Member as Replica};
use raft_stored_group::{GroupSnapshot, StoredGroup};
use std::alloc::{AllocError, Global};

/// How an event ended that came to a member (own).
pub type Ended = raft_member::Ended<GroupSnapshot>;

/// How far an event came that met want of memory (own).
pub type Broken = raft_member::Broken<AllocError>;

/// A member of a group at a node, with what the node has stored of the group (own).
#[derive(Drop)]
pub struct Member {
    /// It, without that.
    pub replica: Replica,
    /// What the node has stored of the group.
    pub stored: StoredGroup,
}

impl Member {
    /// A member that has the group, and nothing in it (own). It fails for want of memory alone.
    pub fn new(alloc: Global, id: u64) -> Result<Member, AllocError>
        ensures { IfOk result (λ m. (m.replica.id ≡ id) × IsUp m (state_of (record no_group { present = true }))) }
    {
        let mut stored = StoredGroup::new(alloc);
        let replica = Replica::new(alloc, id, &mut stored, ONLY_GROUP)?;
        Ok(Member { replica, stored })
    }

    /// Whether the member is up (own).
    pub fn is_up(&self) -> bool
        ensures { result ≡ is_some self.now.replica.engine }
    {
        self.replica.is_up()
    }

    /// What the node has stored of the group, lent (own).
    pub fn stored(&self) -> &StoredGroup
        ensures { result.now ≡ self.now.stored }
    {
        &self.stored
    }

    /// The engine of a member that is up, lent (own).
    pub fn engine(&self) -> Option<&Engine<ByteGroup>>
        ensures { option_copied result ≡ self.now.replica.engine }
    {
        self.replica.engine()
    }

    /// Whether the member leads (own).
    pub fn is_leading(&self) -> bool
        ensures up { (s : GroupState) → IsUp self.now s → result ≡ is_leader s.role }
        ensures down { (stored : Stored) → IsDown self.now stored → result ≡ false }
    {
        self.replica.is_leading()
    }

    /// The group is added at a member that has it, which is refused (own), also where it is to stop.
    pub fn add_group(&self) -> Ended
        ensures up { (s : GroupState) (stop : Option ℕ) → IsUp self.now s → HasEnded self.now.replica.id s AddGroup stop self.now result }
        ensures down { (stored : Stored) → IsDown self.now stored → result ≡ Skipped }
    {
        if !self.is_up() {
            return Ended::Skipped;
        }
        Ended::Refused(Refusal::GroupExists)
    }

    /// The member goes down, and what it has stored stays (own).
    pub fn crash(&mut self)
        ensures id { self.new.replica.id ≡ self.old.replica.id }
        ensures up { (s : GroupState) → IsUp self.old s → IsDown self.new s.stored }
        ensures down { (stored : Stored) → IsDown self.old stored → IsDown self.new stored }
    {
        self.replica.crash();
    }

    // The snapshot that the call may build: of what is applied.
    fn built(&self, call: &GroupCommand) -> Result<Option<GroupSnapshot>, AllocError>
        ensures up { (s : GroupState) → IsUp self.now s → call.now ≡ TriggerSnapshot → IfOk result (λ built. IsBuilt (λ x y. x ≡ y) built s) }
        ensures down { self.now.replica.engine ≡ None → result ≡ Ok None }
    {
        let Some(engine) = self.engine() else {
            return Ok(None);
        };
        let Some(applied) = engine.state.state.committed else {
            return Ok(None);
        };
        match call {
            GroupCall::TriggerSnapshot => self.stored.snapshot_at(applied.index),
            _ => Ok(None),
        }
    }

    /// The member is asked for something at this moment, in ticks (own); one before the last one
    /// counts as the last one. It may stop after so many storing commands, unless it is refused. An
    /// error is want of memory: then the member is down, as it was or with some of the storing
    /// commands done, from the first on.
    pub fn ask(
        &mut self,
        alloc: Global,
        call: &GroupCommand,
        now: u64,
        stop: Option<u64>,
    ) -> Result<Ended, Broken>
        ensures id { self.new.replica.id ≡ self.old.replica.id }
        ensures ok { (s : GroupState) → IsUp self.old s → IsLawful self.old.replica.id s → IfOk result (HasEnded self.old.replica.id s (Call call.now now) stop self.new) }
        ensures err { (s : GroupState) → IsUp self.old s → IsLawful self.old.replica.id s → IfErr result (HasBrokenOff self.old.replica.id s (Call call.now now) self.new) }
        ensures down { (stored : Stored) → IsDown self.old stored → (result ≡ Ok Skipped) × IsDown self.new stored }
    {
        let built = match self.built(call) {
            Ok(built) => built,
            Err(refused) => {
                self.crash();
                return Err(Broken::Unjudged(refused));
            }
        };
        let stored = &mut self.stored;
        self.replica
            .ask(alloc, call, built.as_ref(), now, stop, stored, ONLY_GROUP)
    }

    /// A message comes at this moment, in ticks (own); one before the last one counts as the last
    /// one. It may stop after so many storing commands, unless it is refused. An error is want of
    /// memory: then the member is down, with some of the storing commands done, from the first on.
    pub fn receive(
        &mut self,
        alloc: Global,
        message: &GroupMessage,
        now: u64,
        stop: Option<u64>,
    ) -> Result<Ended, AllocError>
        ensures id { self.new.replica.id ≡ self.old.replica.id }
        ensures ok { (s : GroupState) → IsUp self.old s → IsLawful self.old.replica.id s
            → IfOk result (HasEnded self.old.replica.id s (Receive message.now.sender (message_of message.now) now) stop self.new) }
        ensures err { (s : GroupState) → IsUp self.old s → IsLawful self.old.replica.id s
            → OnErr result (HasStopped self.old.replica.id s (Receive message.now.sender (message_of message.now) now) self.new) }
        ensures down { (stored : Stored) → IsDown self.old stored → (result ≡ Ok Skipped) × IsDown self.new stored }
    {
        let stored = &mut self.stored;
        self.replica
            .receive(alloc, message, now, stop, stored, ONLY_GROUP)
    }

    /// The member is opened with what it has stored (own): what the snapshot has is committed and
    /// applied, a log that doesn't belong to the snapshot is dropped, and the node leads on under a
    /// committed vote of its own. It may stop after so many storing commands. An error is want of
    /// memory: then the member is down, with some of the storing commands done, from the first on.
    pub fn open(&mut self, alloc: Global, stop: Option<u64>) -> Result<Ended, AllocError>
        ensures id { self.new.replica.id ≡ self.old.replica.id }
        ensures ok { (st : Stored) → IsDown self.old st → IsOpenable self.old.replica.id st → IfOk result (HasEnded self.old.replica.id (state_of st) Open stop self.new) }
        ensures err { (st : Stored) → IsDown self.old st → IsOpenable self.old.replica.id st → OnErr result (HasStopped self.old.replica.id (state_of st) Open self.new) }
        ensures up { (s : GroupState) → IsUp self.old s → (result ≡ Ok Skipped) × IsUp self.new s }
    {
        self.replica.open(alloc, stop, &mut self.stored, ONLY_GROUP)
    }
}
