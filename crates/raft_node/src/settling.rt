//! What a group's answer becomes at its node.
ghost use Rattle.std.specs.Prelude.{◌≡◌, [], ◌∷◌, ℕ, IfOk, OnErr, OnOk, IfNone, IfSome, IsSomeAnd, None, option_and_then};
ghost use Rattle.raft_group_step.specs.GroupEvent.{GroupEvent};
ghost use Rattle.raft_group_step.specs.GroupState.{GroupState};
ghost use Rattle.raft_group_step.specs.StoredGroup.{StoredGroup as Stored};
ghost use Rattle.raft_group_step.specs.Refusal.{refusal_of};
ghost use Rattle.std.specs.Result.{result_err};
ghost use Rattle.raft_group_storage.specs.Keeping.{FailsAnyhow, KeepsAll};
ghost use Rattle.raft_groups.specs.Faults.{fault_of_groups};
ghost use Rattle.raft_framed_groups.specs.Answers.{fault_met_by_answer, fault_of_answer};
ghost use Rattle.raft_applier.specs.Following.{AreOfMachine, IsStep};
ghost use Rattle.raft_node_faults.specs.Fault.{fault_met_by_node, storage_fault_of};
ghost use Rattle.raft_node.specs.Ending.{HasEnded, StaysElse};
ghost use Rattle.raft_node.specs.Settling.{FollowsTo, HasCaughtUp, IsAnswerFault, IsAnswered, IsBehind, IsGroupsFault, IsPassedOn, IsStoppedBy, IsStreamFault, IsTold, cause_of_unsent};
ghost use Rattle.raft_node.specs.Standing.{running_in, value_of};
ghost use Rattle.raft_node.specs.Waiting.{waiting_of};

use crate::node::Node;
use crate::outcome::Outcome;
use raft_applier::Progress;
use raft_framed_groups::{AnswerError, GroupFrame, Outcome as Framed};
use raft_group_storage::GroupStorage;
use raft_groups::GroupsFault;
use raft_machines::StateMachine;
use raft_messages::SnapshotBytes;
use raft_node_faults::{Cause, Fault, cause_of, fault_of_refusal};
use raft_wire::FrameError;

impl<M: StateMachine, S: GroupStorage<Snapshot = SnapshotBytes>> Node<M, S> {
    // Why the groups don't take an event, as the node answers it.
    pub(crate) fn groups_fault(&mut self, fault: GroupsFault<S::Fault>) -> Fault<S::Fault>
        ensures why { IsGroupsFault fault result }
        ensures told { IsTold (self.new ≡ self.old) (value_of M.state S.is_well S.shows S.fails self.old)
            (value_of M.state S.is_well S.shows S.fails self.new) result }
        ensures cause { storage_fault_of result ≡ fault_of_groups fault }
        ensures storage { self.new.groups.storage ≡ self.old.groups.storage }
    {
        match fault {
            GroupsFault::Failed => Fault::Failed,
            GroupsFault::UnknownGroup => Fault::UnknownGroup,
            GroupsFault::GroupExists => Fault::GroupExists,
            GroupsFault::Stopped(broken) => self.stop(cause_of(broken)),
        }
    }

    // Why bytes aren't taken: want of memory stops the node.
    pub(crate) fn stream_fault(&mut self, error: FrameError) -> Fault<S::Fault>
        ensures why { IsStreamFault error result }
        ensures told { IsTold (self.new ≡ self.old) (value_of M.state S.is_well S.shows S.fails self.old)
            (value_of M.state S.is_well S.shows S.fails self.new) result }
        ensures cause { storage_fault_of result ≡ None }
        ensures storage { self.new.groups.storage ≡ self.old.groups.storage }
    {
        match error {
            FrameError::Memory => self.stop(Cause::Memory),
            FrameError::Fault(_) | FrameError::StreamFailed => Fault::Frame(error),
        }
    }

    // What an event sends has no frame.
    pub(crate) fn unsent(&mut self, error: FrameError) -> Fault<S::Fault>
        ensures why { IsStoppedBy (cause_of_unsent error) result }
        ensures told { IsTold (self.new ≡ self.old) (value_of M.state S.is_well S.shows S.fails self.old)
            (value_of M.state S.is_well S.shows S.fails self.new) result }
        ensures cause { storage_fault_of result ≡ None }
        ensures storage { self.new.groups.storage ≡ self.old.groups.storage }
    {
        match error {
            FrameError::Memory => self.stop(Cause::Memory),
            FrameError::Fault(_) | FrameError::StreamFailed => self.stop(Cause::Frame(error)),
        }
    }

    // Why there is no answer, as the node tells it.
    pub(crate) fn answer_fault(&mut self, error: AnswerError<S::Fault>) -> Fault<S::Fault>
        ensures why { IsAnswerFault error result }
        ensures told { IsTold (self.new ≡ self.old) (value_of M.state S.is_well S.shows S.fails self.old)
            (value_of M.state S.is_well S.shows S.fails self.new) result }
        ensures cause { storage_fault_of result ≡ fault_of_answer error }
        ensures storage { self.new.groups.storage ≡ self.old.groups.storage }
    {
        match error {
            AnswerError::Stream(why) => self.stream_fault(why),
            AnswerError::WrongParty => Fault::WrongParty,
            AnswerError::Groups(fault) => self.groups_fault(fault),
            AnswerError::Unsent(why) => self.unsent(why),
        }
    }

    // The group's machine catches up with its member, if both are there.
    fn catch_up(&mut self, group: u64) -> Option<Result<Progress, S::Fault>>
        ensures ok { (s : GroupState) (e : GroupEvent) → AreOfMachine M.rules S.stands → IsStep self.old.groups.id s e
            → IsBehind M.rules (value_of M.state S.is_well S.shows S.fails self.old) group s e
            → IsSomeAnd result (λ r. IfOk r (λ progress. HasCaughtUp M.rules (value_of M.state S.is_well S.shows S.fails self.new) group s e progress)) }
        ensures groups { self.new.groups ≡ record self.old.groups { storage = self.new.groups.storage } }
        ensures feeders { self.new.feeders ≡ self.old.feeders }
        ensures failed { (s : Stored) → S.is_well self.old.groups.storage → S.shows self.old.groups.storage group (s ∷ [])
            → IfSome result (λ r. OnErr r (FailsAnyhow (S.fails self.new.groups.storage))) }
        ensures kept { KeepsAll (S.shows self.old.groups.storage) (S.shows self.new.groups.storage) }
        ensures well { S.is_well self.old.groups.storage → IfSome result (λ r. OnOk r (S.is_well self.new.groups.storage)) }
        ensures others { (other : ℕ) → (other ≡ group → ⊥) → running_in M.state self.new.machines other ≡ running_in M.state self.old.machines other }
        ensures waiting { IfSome result (λ r. OnErr r
            (waiting_of (running_in M.state self.new.machines group) ≡ waiting_of (running_in M.state self.old.machines group))) }
        ensures absent { S.is_well self.old.groups.storage → IfNone result (S.is_well self.new.groups.storage) }
        ensures met { S.meets self.old.groups.storage self.new.groups.storage (option_and_then result_err result) }
    {
        let Some(member) = self.groups.members.get(&group) else {
            return None;
        };
        let Some(machines) = &mut self.machines else {
            return None;
        };
        machines.catch_up(self.alloc, member, &mut self.groups.storage, group)
    }

    // The group's machine follows an event that is done, and tokens are told.
    pub(crate) fn follow(
        &mut self,
        group: u64,
        frames: Vec<GroupFrame>,
    ) -> Result<Outcome, Fault<S::Fault>>
        ensures ended { (s : GroupState) (e : GroupEvent) → AreOfMachine M.rules S.stands → IsStep self.old.groups.id s e
            → IsBehind M.rules (value_of M.state S.is_well S.shows S.fails self.old) group s e
            → FollowsTo M.rules (value_of M.state S.is_well S.shows S.fails self.old) (value_of M.state S.is_well S.shows S.fails self.new) group s e frames.items result }
        ensures elsewhere { StaysElse (value_of M.state S.is_well S.shows S.fails self.old) (value_of M.state S.is_well S.shows S.fails self.new) group result }
        ensures met { S.meets self.old.groups.storage self.new.groups.storage (fault_met_by_node result) }
    {
        match self.catch_up(group) {
            Some(Ok(progress)) => Ok(Outcome {
                group,
                frames,
                told: progress.told,
                unknown: progress.unknown,
            }),
            Some(Err(met)) => Err(self.stop(Cause::Storage(met))),
            None => Err(Fault::UnknownGroup),
        }
    }

    // What the group answered becomes the node's answer.
    pub(crate) fn settle(
        &mut self,
        group: u64,
        answered: Result<Framed, AnswerError<S::Fault>>,
    ) -> Result<Outcome, Fault<S::Fault>>
        ensures ended { (s : GroupState) (e : GroupEvent) → AreOfMachine M.rules S.stands → (refusal_of self.old.groups.id s e ≡ None → IsStep self.old.groups.id s e)
            → IsAnswered M.rules S.stands (value_of M.state S.is_well S.shows S.fails self.old) group s e answered
            → HasEnded M.rules S.stands (value_of M.state S.is_well S.shows S.fails self.new) group s e result }
        ensures elsewhere { StaysElse (value_of M.state S.is_well S.shows S.fails self.old) (value_of M.state S.is_well S.shows S.fails self.new) group result }
        ensures passed { IsPassedOn (self.new ≡ self.old) answered result }
        ensures met { (start : S) → S.meets start self.old.groups.storage (fault_met_by_answer answered) → S.meets start self.new.groups.storage (fault_met_by_node result) }
    {
        match answered {
            Ok(Framed::Sent(frames)) => self.follow(group, frames),
            Ok(Framed::Refused(why)) => Err(fault_of_refusal(why)),
            Ok(Framed::Down | Framed::Waits) => Err(Fault::UnknownGroup),
            Err(error) => Err(self.answer_fault(error)),
        }
    }
}
