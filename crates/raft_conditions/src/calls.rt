//! When a call is refused.
ghost use Rattle.std.specs.Prelude.{◌≡◌, ◌∷◌, ◌+◌, ◌<◌, ◌^◌, ◌&&◌, [], ℕ, Option, option_map, IfNone, IfOk, IsOk, true, None};
ghost use Rattle.raft_group_step.specs.GroupEvent.{AddGroup, Call, GroupCall};
ghost use Rattle.raft_group_step.specs.Limits.{is_low};
ghost use Rattle.raft_group_step.specs.Refusal.{are_in_range, first_of_reasons, is_voter_in, known_leader, reasons_of_change};
ghost use Rattle.raft_group_step.specs.declared.group_call.GroupCall.TheVariants.{Initialize, Elect, Propose, ChangeMembership, Heartbeat, TriggerSnapshot};
ghost use Rattle.raft_conditions.specs.ByFacts.{AreLow, call_numbers, call_reason_by, early_reasons_by, is_settled_by, lead_reason_by, next_term_by};
ghost use Rattle.raft_conditions.specs.Facts.{IsRefusalOf};
ghost use Rattle.raft_messages.specs.Memberships.{logged_or_none};
ghost use Rattle.raft_conditions.specs.Reason.{reason_of};

use crate::facts::{GroupCommand, GroupFacts};
use crate::judging::change_refusal;
use crate::refusal::Refusal;
use raft_group_step::GroupCall;
use raft_messages::{is_first_membership, is_low, is_short_command};
use raft_state::{BasicNode, Bytes, ChangeMembers, Membership};
use std::alloc::{AllocError, Global};

impl<'a> GroupFacts<'a> {
    /// Why a group isn't added, if it isn't: it is there (`GroupExists`).
    pub fn add_refusal(&self) -> Option<Refusal<u64>>
        ensures { IsRefusalOf self.now AddGroup result }
    {
        self.present.then_some(Refusal::GroupExists)
    }

    // The node of the stored vote, where that is committed.
    fn known_leader(&self) -> Option<u64>
        ensures { result ≡ known_leader self.now.vote }
    {
        self.vote.committed.then_some(self.vote.leader_id.node_id)
    }

    // Whether the term after the vote's is below the limit.
    fn is_next_term_low(&self) -> bool
        ensures { result ≡ is_low (next_term_by self.now) }
    {
        is_low(self.vote.leader_id.term.saturating_add(1))
    }

    // Whether the moment and the numbers of the leader's next requests are below the limit.
    fn is_moment_low(&self, now: u64) -> bool
        ensures { result ≡ (is_low now && is_low self.now.greatest_next_id) }
    {
        is_low(now) && is_low(self.greatest_next_id)
    }

    // Whether the node is a voter of the membership in force.
    fn is_own_voter(&self) -> bool
        ensures { result ≡ is_voter_in (logged_or_none self.now.membership) self.now.own }
    {
        match self.membership {
            None => false,
            Some((_, membership)) => membership.is_voter(&self.own),
        }
    }

    // Why the group isn't set up with the membership.
    fn initialize_refusal(
        &self,
        membership: &Membership<u64, BasicNode>,
        now: u64,
    ) -> Option<Refusal<u64>>
        ensures reason { option_map reason_of result ≡ call_reason_by self.now now (Initialize membership.now) }
        ensures numbers { IfNone result (AreLow (now ∷ self.now.greatest_next_id ∷ call_numbers self.now (Initialize membership.now))) }
    {
        if !is_first_membership(membership) {
            return Some(Refusal::MembershipRefused);
        }
        if !self.is_moment_low(now) || !self.is_next_term_low() {
            return Some(Refusal::NumberAtEnd);
        }
        if !membership.is_voter(&self.own) {
            return Some(Refusal::NotVoter);
        }
        if !self.is_new {
            return Some(Refusal::NotAllowed);
        }
        None
    }

    // Why the node doesn't stand for election.
    fn elect_refusal(&self, now: u64) -> Option<Refusal<u64>>
        ensures reason { option_map reason_of result ≡ call_reason_by self.now now Elect }
        ensures numbers { IfNone result (AreLow (now ∷ self.now.greatest_next_id ∷ call_numbers self.now Elect)) }
    {
        if !self.is_moment_low(now) || !self.is_next_term_low() || !is_low(self.end) {
            return Some(Refusal::NumberAtEnd);
        }
        if !self.is_own_voter() {
            return Some(Refusal::NotVoter);
        }
        None
    }

    // Why the node doesn't lead, if it doesn't.
    fn lead_refusal(&self) -> Option<Refusal<u64>>
        ensures { option_map reason_of result ≡ lead_reason_by self.now }
    {
        (!self.is_leader).then_some(Refusal::NotLeader(self.known_leader()))
    }

    // Why a command isn't taken.
    fn propose_refusal(&self, command: &Bytes, now: u64) -> Option<Refusal<u64>>
        ensures reason { (token : ℕ) → option_map reason_of result ≡ call_reason_by self.now now (Propose command.now token) }
        ensures numbers { IfNone result (AreLow (now ∷ self.now.greatest_next_id ∷ self.now.end ∷ [])) }
    {
        if !is_short_command(command) {
            return Some(Refusal::CommandTooLong);
        }
        if !self.is_moment_low(now) || !is_low(self.end) {
            return Some(Refusal::NumberAtEnd);
        }
        self.lead_refusal()
    }

    // Why a leader's call isn't taken.
    fn leader_call_refusal(&self, now: u64) -> Option<Refusal<u64>>
        ensures reason { option_map reason_of result ≡ call_reason_by self.now now Heartbeat }
        ensures numbers { IfNone result (AreLow (now ∷ self.now.greatest_next_id ∷ [])) }
    {
        if !self.is_moment_low(now) {
            return Some(Refusal::NumberAtEnd);
        }
        self.lead_refusal()
    }

    // Why a call that any node takes is refused.
    fn trigger_refusal(&self, now: u64) -> Option<Refusal<u64>>
        ensures reason { option_map reason_of result ≡ call_reason_by self.now now TriggerSnapshot }
        ensures numbers { IfNone result (AreLow (now ∷ self.now.greatest_next_id ∷ [])) }
    {
        (!self.is_moment_low(now)).then_some(Refusal::NumberAtEnd)
    }

    // Whether the membership in force is committed.
    fn is_settled(&self) -> bool
        ensures { result ≡ is_settled_by (logged_or_none self.now.membership) self.now.committed }
    {
        match (self.membership, self.committed) {
            (Some((log_id, _)), Some(committed)) => log_id.index <= committed,
            _ => false,
        }
    }

    // Why the leader doesn't come to a change of the membership in force.
    fn early_refusal(&self, now: u64) -> Option<Refusal<u64>>
        ensures reason { option_map reason_of result ≡ first_of_reasons (early_reasons_by self.now now) }
        ensures numbers { IfNone result (AreLow (now ∷ self.now.greatest_next_id ∷ self.now.end ∷ [])) }
    {
        if !self.is_moment_low(now) || !is_low(self.end) {
            return Some(Refusal::NumberAtEnd);
        }
        if let Some(refusal) = self.lead_refusal() {
            return Some(refusal);
        }
        (!self.is_settled()).then_some(Refusal::InProgress)
    }

    // Why the membership in force isn't changed so.
    fn membership_refusal(&self, change: &ChangeMembers<u64, BasicNode>) -> Option<Refusal<u64>>
        ensures { option_map reason_of result ≡ first_of_reasons (reasons_of_change (logged_or_none self.now.membership) change.now) }
    {
        match self.membership {
            None => None,
            Some((_, membership)) => change_refusal(membership, change),
        }
    }

    // Why a change isn't taken.
    fn change_call_refusal(
        &self,
        change: &ChangeMembers<u64, BasicNode>,
        now: u64,
    ) -> Option<Refusal<u64>>
        ensures reason { (token : ℕ) → option_map reason_of result ≡ call_reason_by self.now now (ChangeMembership change.now token) }
        ensures numbers { IfNone result (AreLow (now ∷ self.now.greatest_next_id ∷ self.now.end ∷ [])) }
    {
        match self.early_refusal(now) {
            Some(refusal) => Some(refusal),
            None => self.membership_refusal(change),
        }
    }

    /// Why a call is refused, if it is: the group isn't there, or the reason of its kind. It takes
    /// no memory, also where the membership is to be changed, so there is never an error: want of
    /// memory can only come behind every refusal.
    pub fn call_refusal(
        &self,
        _alloc: Global,
        call: &GroupCommand,
        now: u64,
    ) -> Result<Option<Refusal<u64>>, AllocError>
        ensures refusal { IfOk result (λ refusal. IsRefusalOf self.now (Call call.now now) refusal) }
        ensures numbers { IfOk result (λ refusal. IfNone refusal (AreLow (now ∷ self.now.greatest_next_id ∷ call_numbers self.now call.now))) }
        ensures memory { IsOk result }
    {
        if !self.present {
            return Ok(Some(Refusal::UnknownGroup));
        }
        match call {
            GroupCall::Initialize { membership } => Ok(self.initialize_refusal(membership, now)),
            GroupCall::Elect => Ok(self.elect_refusal(now)),
            GroupCall::Propose { command, .. } => Ok(self.propose_refusal(command, now)),
            GroupCall::ChangeMembership { change, .. } => Ok(self.change_call_refusal(change, now)),
            GroupCall::Heartbeat | GroupCall::Lost { .. } => Ok(self.leader_call_refusal(now)),
            GroupCall::TriggerSnapshot | GroupCall::TriggerPurge { .. } => {
                Ok(self.trigger_refusal(now))
            }
        }
    }
}
