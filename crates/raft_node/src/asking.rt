//! A group is asked for something.
ghost use Rattle.std.specs.Prelude.{⊤, ◌≡◌, ◌++◌, ◌∷◌, [], ℕ, Err, IfOk, IsOk, OnErr, OnOk, None, option_and_then};
ghost use Rattle.std.specs.Option.{option_copied, option_to_list};
ghost use Rattle.std.specs.Ordering.{nat_cmp};
ghost use Rattle.std.specs.BTreeMap.{get};
ghost use Rattle.raft_group_step.specs.StoredGroup.{end_place};
ghost use Rattle.raft_group_step.specs.GroupState.{GroupState, Untold as Waiting};
ghost use Rattle.raft_group_step.specs.GroupEvent.{Call, GroupEvent};
ghost use Rattle.raft_group_step.specs.Refusal.{refusal_of};
ghost use Rattle.raft_group_step.specs.declared.group_call.GroupCall.TheVariants.{TriggerSnapshot};
ghost use Rattle.raft_laws.specs.GroupWorld.{Up};
ghost use Rattle.raft_laws.specs.Stop.{token_of_call};
ghost use Rattle.raft_member.specs.Member.{IsBuilt, IsLawful};
ghost use Rattle.raft_applier.specs.Building.{HasItsMembership};
ghost use Rattle.raft_applier.specs.Following.{AreOfMachine, IsStep};
ghost use Rattle.raft_step_laws.specs.Tokens.{brought};
ghost use Rattle.raft_framed_groups.specs.Answers.{IsTurnedAway, Stands, fault_met_by_answer};
ghost use Rattle.raft_node_faults.specs.Fault.{fault_met_by_node, storage_fault_of};
ghost use Rattle.raft_node.specs.Asking.{IsJudged, is_not_begun, is_unjudged};
ghost use Rattle.raft_node.specs.Ending.{HasEnded, IsEvent, StaysElse};
ghost use Rattle.raft_node.specs.Running.{RunsAt};
ghost use Rattle.raft_node.specs.Settling.{IsPassedOn, IsTakenByGroup};
ghost use Rattle.raft_node.specs.Standing.{IsAt, running_in, value_of};
ghost use Rattle.raft_node.specs.declared.outcome.Outcome.{Outcome};

use crate::node::Node;
use crate::outcome::Outcome;
use raft_conditions::{GroupCommand, Refusal};
use raft_engine::Engine;
use raft_framed_groups::{AnswerError, Outcome as Framed, ask_group};
use raft_group_step::GroupCall;
use raft_group_storage::GroupStorage;
use raft_groups::GroupsFault;
use raft_machines::{StateMachine, Untold};
use raft_member::{Broken, ByteGroup, facts_of};
use raft_messages::SnapshotBytes;
use raft_node_faults::{Cause, Fault, fault_of_refusal};
use std::alloc::AllocError;

// What is known of a call before its group is asked.
pub(crate) enum Judgement {
    // The group refuses it.
    Refused(Refusal<u64>),
    // It doesn't, and its log ends before this place.
    Taken(u64),
    // The group isn't there, or memory is lacking to tell.
    Unknown,
}

// Whether it wasn't known whether the event is refused.
fn is_unjudged<F>(fault: &GroupsFault<F>) -> bool
    ensures { result ≡ is_unjudged fault.now }
{
    match fault {
        GroupsFault::Stopped(broken) => matches!(broken, Broken::Unjudged(_)),
        GroupsFault::Failed | GroupsFault::UnknownGroup | GroupsFault::GroupExists => false,
    }
}

// Whether nothing of a call was begun at its group.
fn is_not_begun<F>(answered: &Result<Framed, AnswerError<F>>) -> bool
    ensures { result ≡ is_not_begun answered.now }
{
    match answered {
        Ok(outcome) => matches!(outcome, Framed::Refused(_)),
        Err(error) => match error {
            AnswerError::Groups(fault) => is_unjudged(fault),
            AnswerError::Stream(_) | AnswerError::WrongParty | AnswerError::Unsent(_) => false,
        },
    }
}

impl<M: StateMachine, S: GroupStorage<Snapshot = SnapshotBytes>> Node<M, S> {
    // The engine of a group that is there.
    pub(crate) fn engine(&self, group: u64) -> Option<&Engine<ByteGroup>>
        ensures { option_copied result ≡ option_and_then (λ m. m.engine) (get nat_cmp self.now.groups.members group) }
    {
        match self.groups.member(group) {
            Some(member) => member.engine(),
            None => None,
        }
    }

    // What the group's engine knows of the call.
    fn judged(&self, group: u64, call: &GroupCommand, now: u64) -> Judgement
        ensures { (s : GroupState) → Stands (value_of M.state S.is_well S.shows S.fails self.now).groups group (Up s) → IsLawful self.now.groups.id s
            → IsJudged self.now.groups.id s (Call call.now now) result }
    {
        let Some(engine) = self.engine(group) else {
            return Judgement::Unknown;
        };
        let facts = facts_of(self.groups.id, engine);
        match facts.call_refusal(self.alloc, call, now) {
            Ok(Some(why)) => Judgement::Refused(why),
            Ok(None) => Judgement::Taken(facts.end),
            Err(_) => Judgement::Unknown,
        }
    }

    // Memory is lacking before the group is asked: its refusal comes first, and else the node stops and
    // names the call's token, too.
    fn without_memory(
        &mut self,
        group: u64,
        call: &GroupCommand,
        token: Option<u64>,
        now: u64,
    ) -> Fault<S::Fault>
        ensures ended { (s : GroupState) → token_of_call call.now ≡ option_to_list token
            → IsAt M.rules (value_of M.state S.is_well S.shows S.fails self.old) group s → IsLawful self.old.groups.id s
            → HasEnded M.rules S.stands (value_of M.state S.is_well S.shows S.fails self.new) group s (Call call.now now) (Err result) }
        ensures elsewhere { StaysElse {T = Outcome} (value_of M.state S.is_well S.shows S.fails self.old) (value_of M.state S.is_well S.shows S.fails self.new) group (Err result) }
        ensures fault { storage_fault_of result ≡ None }
        ensures storage { self.new.groups.storage ≡ self.old.groups.storage }
    {
        match self.judged(group, call, now) {
            Judgement::Refused(why) => fault_of_refusal(why),
            Judgement::Taken(place) => match token {
                Some(token) => self.stop_with(group, Untold { token, place }),
                None => self.stop(Cause::Memory),
            },
            Judgement::Unknown => self.stop(Cause::Unjudged),
        }
    }

    // A call that brings no token.
    pub(crate) fn ask(
        &mut self,
        group: u64,
        call: &GroupCommand,
        now: u64,
    ) -> Result<Outcome, Fault<S::Fault>>
        ensures event { token_of_call call.now ≡ [] → (call.now ≡ TriggerSnapshot → ⊥)
            → IsEvent M.rules S.stands (self.new ≡ self.old) (value_of M.state S.is_well S.shows S.fails self.old)
            (value_of M.state S.is_well S.shows S.fails self.new) group (Call call.now now) result }
        ensures met { S.meets self.old.groups.storage self.new.groups.storage (fault_met_by_node result) }
    {
        let answered = ask_group(self.alloc, &mut self.groups, group, call, None, now);
        self.settle(group, answered)
    }

    // The token waits for the group's next place, if the group is there.
    fn take_token(&mut self, group: u64, token: u64) -> Result<(), AllocError>
        ensures ok { (s : GroupState) → IsAt M.rules (value_of M.state S.is_well S.shows S.fails self.old) group s → IsLawful self.old.groups.id s
            → OnOk result (RunsAt M.rules (running_in M.state self.new.machines group) (record s { untold = s.untold ++ record { token = token; place = end_place s.stored } ∷ [] })) }
        ensures err { (s : GroupState) → RunsAt M.rules (running_in M.state self.old.machines group) s
            → OnErr result (RunsAt M.rules (running_in M.state self.new.machines group) s) }
        ensures absent { get nat_cmp self.old.groups.members group ≡ None → IsOk result × (self.new ≡ self.old) }
        ensures groups { self.new.groups ≡ self.old.groups }
        ensures feeders { self.new.feeders ≡ self.old.feeders }
        ensures others { (other : ℕ) → (other ≡ group → ⊥) → running_in M.state self.new.machines other ≡ running_in M.state self.old.machines other }
    {
        let Some(member) = self.groups.members.get(&group) else {
            return Ok(());
        };
        match &mut self.machines {
            Some(machines) => machines.take_token(member, group, token),
            None => Ok(()),
        }
    }

    // The token that was taken last waits no more.
    fn give_back_token(&mut self, group: u64)
        ensures back { (s : GroupState) (x : Waiting) → RunsAt M.rules (running_in M.state self.old.machines group) (record s { untold = s.untold ++ x ∷ [] })
            → RunsAt M.rules (running_in M.state self.new.machines group) s }
        ensures groups { self.new.groups ≡ self.old.groups }
        ensures feeders { self.new.feeders ≡ self.old.feeders }
        ensures others { (other : ℕ) → (other ≡ group → ⊥) → running_in M.state self.new.machines other ≡ running_in M.state self.old.machines other }
    {
        if let Some(machines) = &mut self.machines {
            machines.give_back_token(group);
        }
    }

    // What the group answered a call whose token waits becomes the node's answer. Where nothing of the
    // call was begun, the token waits no more.
    fn settle_with_token(
        &mut self,
        group: u64,
        answered: Result<Framed, AnswerError<S::Fault>>,
    ) -> Result<Outcome, Fault<S::Fault>>
        ensures ended { (s : GroupState) (e : GroupEvent) (x : Waiting) → AreOfMachine M.rules S.stands → (refusal_of self.old.groups.id s e ≡ None → IsStep self.old.groups.id s e)
            → brought s e ≡ x ∷ [] → IsTakenByGroup S.stands (value_of M.state S.is_well S.shows S.fails self.old) group s e answered
            → RunsAt M.rules (running_in M.state self.old.machines group) (record s { untold = s.untold ++ x ∷ [] })
            → HasEnded M.rules S.stands (value_of M.state S.is_well S.shows S.fails self.new) group s e result }
        ensures elsewhere { StaysElse (value_of M.state S.is_well S.shows S.fails self.old) (value_of M.state S.is_well S.shows S.fails self.new) group result }
        ensures passed { IsPassedOn ⊤ answered result }
        ensures away { IsTurnedAway answered → IsPassedOn (self.new ≡ self.old) answered result }
        ensures met { (start : S) → S.meets start self.old.groups.storage (fault_met_by_answer answered) → S.meets start self.new.groups.storage (fault_met_by_node result) }
    {
        if !is_not_begun(&answered) {
            return self.settle(group, answered);
        }
        self.give_back_token(group);
        self.settle(group, answered)
    }

    // A call that brings a token, which waits with the others before the call is done. So it is named
    // with them where the node stops.
    pub(crate) fn ask_with_token(
        &mut self,
        group: u64,
        call: &GroupCommand,
        token: u64,
        now: u64,
    ) -> Result<Outcome, Fault<S::Fault>>
        ensures event { token_of_call call.now ≡ token ∷ []
            → IsEvent M.rules S.stands (self.new ≡ self.old) (value_of M.state S.is_well S.shows S.fails self.old)
            (value_of M.state S.is_well S.shows S.fails self.new) group (Call call.now now) result }
        ensures met { S.meets self.old.groups.storage self.new.groups.storage (fault_met_by_node result) }
    {
        if self.groups.has_failed {
            return Err(Fault::Failed);
        }
        if self.take_token(group, token).is_err() {
            return Err(self.without_memory(group, call, Some(token), now));
        }
        let answered = ask_group(self.alloc, &mut self.groups, group, call, None, now);
        self.settle_with_token(group, answered)
    }

    // The snapshot of what is applied, where the last one doesn't have that.
    fn built(&self, group: u64) -> Result<Option<SnapshotBytes>, AllocError>
        ensures ok { (s : GroupState) → AreOfMachine M.rules S.stands → IsAt M.rules (value_of M.state S.is_well S.shows S.fails self.now) group s → HasItsMembership s
            → IfOk result (λ built. IsBuilt S.stands built s) }
        ensures absent { get nat_cmp self.now.groups.members group ≡ None → IsOk result }
    {
        let Some(member) = self.groups.member(group) else {
            return Ok(None);
        };
        match self.applier(group) {
            Some(applier) => applier.build_snapshot::<S>(member),
            None => Ok(None),
        }
    }

    // A snapshot of what is applied is stored.
    pub(crate) fn ask_snapshot(&mut self, group: u64, now: u64) -> Result<Outcome, Fault<S::Fault>>
        ensures event { IsEvent M.rules S.stands (self.new ≡ self.old) (value_of M.state S.is_well S.shows S.fails self.old) (value_of M.state S.is_well S.shows S.fails self.new)
            group (Call TriggerSnapshot now) result }
        ensures met { S.meets self.old.groups.storage self.new.groups.storage (fault_met_by_node result) }
    {
        if self.groups.has_failed {
            return Err(Fault::Failed);
        }
        let call = GroupCall::TriggerSnapshot;
        let Ok(built) = self.built(group) else {
            return Err(self.without_memory(group, &call, None, now));
        };
        let answered = ask_group(
            self.alloc,
            &mut self.groups,
            group,
            &call,
            built.as_ref(),
            now,
        );
        self.settle(group, answered)
    }
}
