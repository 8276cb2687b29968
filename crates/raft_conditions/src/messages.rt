//! When a message is refused.
ghost use Rattle.std.specs.Prelude.{◌≡◌, ◌&&◌, ◌∷◌, [], ℕ, List, Option, Bool, true, option_map, IfNone, Some};
ghost use Rattle.raft_group_step.specs.Message.{AppendReply, AppendRequest, SnapshotReply, SnapshotRequest, VoteReply, VoteRequest};
ghost use Rattle.raft_group_step.specs.Refusal.{are_in_range, do_follow, keep_voters, has_known_snapshot, is_foreign, is_foreign_result};
ghost use Rattle.raft_group_step.specs.Refusal.{is_of_leader, numbers_of, numbers_of_membership, numbers_of_reply};
ghost use Rattle.raft_group_step.specs.Values.{Entry, vote_lt};
ghost use Rattle.raft_conditions.specs.ByFacts.{AreLow, HasRoom, has_room, is_right_party_by, message_reason_by};
ghost use Rattle.raft_conditions.specs.Facts.{IsRefusalOf};
ghost use Rattle.raft_conditions.specs.Reason.{reason_of};
ghost use Rattle.raft_conditions.specs.Messages.{received};
ghost use Rattle.raft_messages.specs.Memberships.{logged_or_none, snapshot_of};
ghost use Rattle.raft_messages.specs.Messages.{append_fields_of, outcome_of, reply_fields_of};

use crate::entries::{do_follow, has_known_configs, keep_voters};
use crate::facts::{GroupFacts, Parties};
use crate::ranges::{
    are_low_entries, is_low_id, is_low_id_or_none, is_low_outcome, is_low_request,
};
use crate::refusal::Refusal;
use raft_messages::{AppendFields, ReplyFields, ReplyResult, SnapshotHead, is_low};
use raft_state::{LogId, Vote, votes_by_term_node_committed};
use std::cmp::Ordering;

// Whether the first vote is below the second.
fn is_vote_below(a: &Vote<u64>, b: &Vote<u64>) -> bool
    ensures { result ≡ vote_lt a.now b.now }
{
    matches!(votes_by_term_node_committed(a, b), Ordering::Less)
}

// Whether a request's vote is committed, and its node is the peer.
fn is_of_leader(peer: u64, vote: &Vote<u64>) -> bool
    ensures { result ≡ is_of_leader peer vote.now }
{
    vote.committed && vote.leader_id.node_id == peer
}

impl<'a> GroupFacts<'a> {
    // Whether the message is the peer's own, and for this node.
    fn is_right_party(&self, parties: &Parties) -> bool
        ensures { result ≡ is_right_party_by self.now parties.now }
    {
        parties.sender == parties.peer
            && parties.sender != self.own
            && parties.addressee == self.own
    }

    // Whether a candidate's blank entry and the leader's next requests have their numbers.
    fn has_room(&self) -> bool
        ensures { result ≡ has_room self.now }
    {
        (!self.is_candidate || is_low(self.end)) && is_low(self.greatest_next_id)
    }

    // Whether the vote isn't one of the own that was never stored.
    fn is_foreign(&self, vote: &Vote<u64>) -> bool
        ensures { result ≡ is_foreign self.now.own self.now.vote vote.now }
    {
        !(vote.leader_id.node_id == self.own && is_vote_below(&self.vote, vote))
    }

    // The same of a vote that an answer tells, if it tells one.
    fn is_foreign_outcome(&self, outcome: &ReplyResult) -> bool
        ensures { result ≡ is_foreign_result self.now.own self.now.vote (outcome_of outcome.now) }
    {
        match outcome {
            ReplyResult::HigherVote(vote) => self.is_foreign(vote),
            ReplyResult::Success | ReplyResult::PartialSuccess(_) | ReplyResult::Conflict => true,
        }
    }

    // The first reason that holds.
    fn message_refusal(
        &self,
        parties: &Parties,
        in_range: bool,
        is_sound: bool,
    ) -> Option<Refusal<u64>>
        ensures reason { option_map reason_of result ≡ message_reason_by (is_right_party_by self.now parties.now) self.now.present in_range is_sound }
        ensures taken { IfNone result (in_range ≡ true) }
    {
        if !self.is_right_party(parties) {
            return Some(Refusal::WrongParty);
        }
        if !self.present {
            return Some(Refusal::UnknownGroup);
        }
        if !in_range {
            return Some(Refusal::NumberAtEnd);
        }
        if !is_sound {
            return Some(Refusal::BreaksCondition);
        }
        None
    }

    // Whether the numbers of a message with a vote and a last log id are in range.
    fn are_vote_numbers_low(&self, vote: &Vote<u64>, last: Option<LogId<u64>>, now: u64) -> bool
        ensures { result ≡ (are_in_range (now ∷ numbers_of (VoteRequest vote.now last)) && has_room self.now) }
    {
        let is_first_low = is_low(now) && is_low(vote.leader_id.term);
        is_first_low && is_low_id_or_none(last) && self.has_room()
    }

    /// Why a candidate's request is refused, if it is: it isn't the peer's own (`WrongParty`), the
    /// group isn't there, a number isn't low, or the vote is committed or another node's
    /// (`BreaksCondition`).
    pub fn vote_request_refusal(
        &self,
        parties: Parties,
        vote: Vote<u64>,
        last: Option<LogId<u64>>,
        now: u64,
    ) -> Option<Refusal<u64>>
        ensures refusal { IsRefusalOf self.now (received parties (VoteRequest vote last) now) result }
        ensures numbers { IfNone result (AreLow (now ∷ numbers_of (VoteRequest vote last))) }
        ensures room { IfNone result (HasRoom self.now) }
    {
        let in_range = self.are_vote_numbers_low(&vote, last, now);
        let is_sound = !vote.committed && vote.leader_id.node_id == parties.peer;
        self.message_refusal(&parties, in_range, is_sound)
    }

    /// Why an answer to a candidate is refused, if it is: it isn't the peer's own (`WrongParty`), the
    /// group isn't there, a number isn't low, or the vote is one of the own that was never stored
    /// (`BreaksCondition`).
    pub fn vote_reply_refusal(
        &self,
        parties: Parties,
        vote: Vote<u64>,
        last: Option<LogId<u64>>,
        now: u64,
    ) -> Option<Refusal<u64>>
        ensures refusal { (granted : Bool) → IsRefusalOf self.now (received parties (VoteReply vote granted last) now) result }
        ensures numbers { IfNone result (AreLow (now ∷ numbers_of (VoteRequest vote last))) }
        ensures room { IfNone result (HasRoom self.now) }
    {
        let in_range = self.are_vote_numbers_low(&vote, last, now);
        self.message_refusal(&parties, in_range, self.is_foreign(&vote))
    }

    // Whether the numbers of an append request are in range.
    fn are_append_numbers_low(&self, request: &AppendFields, now: u64) -> bool
        ensures { result ≡ (are_in_range (now ∷ numbers_of (AppendRequest (append_fields_of request.now))) && has_room self.now) }
    {
        let is_vote_low = is_low(now) && is_low(request.vote.leader_id.term);
        is_vote_low
            && is_low_request(&request.id)
            && is_low_id_or_none(request.previous)
            && is_low_id_or_none(request.committed)
            && are_low_entries(request.entries.as_slice())
            && self.has_room()
    }

    // Whether a leader may send the request.
    fn is_sound_append(&self, peer: u64, request: &AppendFields) -> bool
        ensures { result ≡ (is_of_leader peer request.now.vote && do_follow request.now.vote request.now.previous request.now.entries
            && keep_voters (logged_or_none self.now.membership) request.now.entries) }
    {
        let entries = request.entries.as_slice();
        is_of_leader(peer, &request.vote)
            && do_follow(&request.vote, request.previous, entries)
            && keep_voters(self.membership, entries)
    }

    /// Why an append request, notice or heartbeat is refused, if it is: it
    /// isn't the peer's own (`WrongParty`), the group isn't there, a number isn't low, or the vote
    /// isn't the peer's committed one, the entries don't follow one another or have other voter
    /// groups than those in force (`BreaksCondition`).
    pub fn append_request_refusal(
        &self,
        parties: Parties,
        request: &AppendFields,
        now: u64,
    ) -> Option<Refusal<u64>>
        ensures refusal { IsRefusalOf self.now (received parties (AppendRequest (append_fields_of request.now)) now) result }
        ensures numbers { IfNone result (AreLow (now ∷ numbers_of (AppendRequest (append_fields_of request.now)))) }
        ensures room { IfNone result (HasRoom self.now) }
    {
        let in_range = self.are_append_numbers_low(request, now);
        self.message_refusal(
            &parties,
            in_range,
            self.is_sound_append(parties.peer, request),
        )
    }

    // Whether the numbers of an answer are in range.
    fn are_reply_numbers_low(&self, reply: &ReplyFields, now: u64) -> bool
        ensures { result ≡ (are_in_range (now ∷ numbers_of_reply (reply_fields_of reply.now)) && has_room self.now) }
    {
        let is_vote_low = is_low(now) && is_low(reply.vote.leader_id.term);
        is_vote_low
            && is_low_request(&reply.id)
            && is_low_id_or_none(reply.previous)
            && is_low_id_or_none(reply.last)
            && is_low_outcome(&reply.outcome)
            && self.has_room()
    }

    /// Why an answer to an append request or a snapshot is refused, if it is: it isn't the peer's own
    /// (`WrongParty`), the group isn't there, a number isn't low, or a vote in it is one of the own
    /// that was never stored (`BreaksCondition`).
    pub fn reply_refusal(
        &self,
        parties: Parties,
        reply: &ReplyFields,
        now: u64,
    ) -> Option<Refusal<u64>>
        ensures append { IsRefusalOf self.now (received parties (AppendReply (reply_fields_of reply.now)) now) result }
        ensures snapshot { IsRefusalOf self.now (received parties (SnapshotReply (reply_fields_of reply.now)) now) result }
        ensures numbers { IfNone result (AreLow (now ∷ numbers_of_reply (reply_fields_of reply.now))) }
        ensures room { IfNone result (HasRoom self.now) }
    {
        let in_range = self.are_reply_numbers_low(reply, now);
        let is_sound = self.is_foreign(&reply.vote) && self.is_foreign_outcome(&reply.outcome);
        self.message_refusal(&parties, in_range, is_sound)
    }

    // Whether the numbers of a snapshot's request are in range.
    fn are_snapshot_numbers_low(
        &self,
        vote: &Vote<u64>,
        id: u64,
        head: SnapshotHead,
        now: u64,
    ) -> bool
        ensures { result ≡ (are_in_range (now ∷ numbers_of (SnapshotRequest vote.now id (snapshot_of head.entry []))) && has_room self.now) }
    {
        let is_membership_low = match head.membership {
            None => true,
            Some((log_id, _)) => is_low_id(log_id),
        };
        let is_first_low = is_low(now) && is_low(vote.leader_id.term) && is_low(id);
        is_first_low && is_low_id(head.last) && is_membership_low && self.has_room()
    }

    // Whether a leader may send the snapshot.
    fn is_sound_snapshot(&self, peer: u64, vote: &Vote<u64>, head: SnapshotHead) -> bool
        ensures { result ≡ (is_of_leader peer vote.now && has_known_snapshot (logged_or_none self.now.membership) (logged_or_none head.entry.membership)) }
    {
        let has_known = match head.membership {
            None => true,
            Some((_, membership)) => has_known_configs(self.membership, membership),
        };
        is_of_leader(peer, vote) && has_known
    }

    /// Why a leader's snapshot is refused, if it is: it isn't the peer's own (`WrongParty`), the group
    /// isn't there, a number isn't low, or the vote isn't the peer's committed one or the voter groups
    /// aren't those in force (`BreaksCondition`).
    pub fn snapshot_request_refusal(
        &self,
        parties: Parties,
        vote: Vote<u64>,
        id: u64,
        head: SnapshotHead,
        now: u64,
    ) -> Option<Refusal<u64>>
        ensures refusal { (entries : List Entry) → IsRefusalOf self.now (received parties (SnapshotRequest vote id (snapshot_of head.entry entries)) now) result }
        ensures numbers { IfNone result (AreLow (now ∷ numbers_of (SnapshotRequest vote id (snapshot_of head.entry [])))) }
        ensures room { IfNone result (HasRoom self.now) }
    {
        let in_range = self.are_snapshot_numbers_low(&vote, id, head, now);
        let is_sound = self.is_sound_snapshot(parties.peer, &vote, head);
        self.message_refusal(&parties, in_range, is_sound)
    }
}
