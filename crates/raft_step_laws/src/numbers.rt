//! The numbers that a step stores and sends are below the limit: a law of single steps, as a
//! contract of a function without a body, with worked rows of its words.

ghost use Rattle.std.specs.Prelude.{◌≡◌, ◌+◌, ◌-◌, true, false, [], ◌∷◌, map, Some, None};
ghost use Rattle.raft_values.specs.LogId.{log_id_of};
ghost use Rattle.raft_values.specs.Vote.{vote_of};
ghost use Rattle.raft_group_step.specs.Refusal.{numbers_of_id, refusal_of};
ghost use Rattle.raft_group_step.specs.StepExample.{empty_group};
ghost use Rattle.raft_group_step.specs.StepResult.{NumberAtEnd, unchanged};
ghost use Rattle.raft_group_step.specs.StoredGroup.{SetVote};
ghost use Rattle.raft_step_laws.specs.TakingRows.{leader, storing};
ghost use Rattle.raft_step_laws.specs.NumberRows.{built_numbers, listed_at, past, receiver, top};
ghost use Rattle.raft_step_laws.specs.NumberRows.{next_after, peer_with, ranges_after, refused_after, request_to};
ghost use Rattle.raft_step_laws.specs.NumberRows.{sending, snapshot_of, snapshot_with, stored_with, with_term};
ghost use Rattle.raft_step_laws.specs.NumberRows.{is_in_range, none_in_range, reply_with, request_with, snapshot_reply_with, votes_with, with_one_past};
ghost use Rattle.raft_step_laws.specs.Numbers.{AreLow, BringsLowPrefix, EachPeer, HasLowPrefix, IsLowBody, IsLowPeer, IsLowStored, StepIsLow, StepsSendLowNumbers};

/// Where the terms, places and log ids of what a node has are below 2^62, so are those of what a
/// step leaves, at its end and after any stop. So is each number of each message that it sends.
/// The number of a leader's next request to a peer is below 2^62, or 2^62 while one is
/// outstanding: then none is sent. It is to be known that the list of a snapshot that comes has
/// low log ids, since no refusal looks at these. The law says so of each snapshot that is sent.
pub fn numbers_of_steps_are_low()
    ensures { StepsSendLowNumbers }
{}

/// The limit is 2^62, of a term as of a place.
pub fn numbers_below_the_limit()
    ensures top { AreLow (top ∷ 0 ∷ []) }
    ensures past { AreLow (0 ∷ past ∷ []) → ⊥ }
    ensures term { AreLow (numbers_of_id (Some (log_id_of past 1 0))) → ⊥ }
    ensures place { AreLow (numbers_of_id (Some (log_id_of 0 1 past))) → ⊥ }
    ensures none { AreLow (numbers_of_id None) }
{}

/// All that a node has stored may be just below the limit, and none of it at the limit.
pub fn stored_parts_with_low_numbers()
    ensures top { IsLowStored (stored_with top top top (snapshot_of top top top)) }
    ensures vote { IsLowStored (stored_with past 0 0 (snapshot_of 0 0 0)) → ⊥ }
    ensures purged { IsLowStored (stored_with 0 past 0 (snapshot_of 0 0 0)) → ⊥ }
    ensures logged { IsLowStored (stored_with 0 0 past (snapshot_of 0 0 0)) → ⊥ }
    ensures last { IsLowStored (stored_with 0 0 0 (snapshot_of past 0 0)) → ⊥ }
    ensures membership { IsLowStored (stored_with 0 0 0 (snapshot_of 0 past 0)) → ⊥ }
    ensures listed { IsLowStored (stored_with 0 0 0 (snapshot_of 0 0 past)) → ⊥ }
{}

/// The number of a peer's next request may be at the limit while one is outstanding, and never past
/// it.
pub fn peers_with_low_numbers()
    ensures idle { IsLowPeer (peer_with top top None) }
    ensures waits { IsLowPeer (peer_with top past (Some (request_to top))) }
    ensures idle_past { IsLowPeer (peer_with 0 past None) → ⊥ }
    ensures waits_past { IsLowPeer (peer_with 0 (past + 1) (Some (request_to past))) → ⊥ }
    ensures matched { IsLowPeer (peer_with past 0 None) → ⊥ }
    ensures leader { EachPeer IsLowPeer (leader top).role }
    ensures leader_past { EachPeer IsLowPeer (leader past).role → ⊥ }
    ensures follower { EachPeer IsLowPeer empty_group.role }
{}

/// What is judged of a step: its messages, what is left at its end and after each of its storing
/// commands, and the leader's peers.
pub fn steps_with_low_numbers()
    ensures nothing { StepIsLow (leader 1) (unchanged (leader 1)) }
    ensures message { StepIsLow (leader 1) (sending (request_with past 0 0 0 0)) → ⊥ }
    ensures stop { StepIsLow (leader 1) (storing (SetVote (vote_of past 1 false) ∷ [])) → ⊥ }
    ensures stored { StepIsLow (leader 1) (unchanged (with_term past (leader 1))) → ⊥ }
    ensures peer { StepIsLow (leader 1) (unchanged (leader past)) → ⊥ }
{}

/// Messages of votes are in range with each of their numbers just below the limit, and with none at
/// the limit.
pub fn votes_in_range()
    ensures top { map is_in_range (votes_with top top) ≡ true ∷ true ∷ [] }
    ensures vote { map is_in_range (votes_with past 0) ≡ false ∷ false ∷ [] }
    ensures last { map is_in_range (votes_with 0 past) ≡ false ∷ false ∷ [] }
{}

/// So are requests and replies. A snapshot's list isn't among the numbers that are looked at.
pub fn messages_in_range()
    ensures request { is_in_range (request_with top top top top top) ≡ true }
    ensures request_past { with_one_past request_with ≡ none_in_range }
    ensures reply { is_in_range (reply_with top top top top top) ≡ true }
    ensures reply_past { with_one_past reply_with ≡ none_in_range }
    ensures snapshot_reply { is_in_range (snapshot_reply_with top top top top top) ≡ true }
    ensures snapshot_reply_past { with_one_past snapshot_reply_with ≡ none_in_range }
    ensures snapshot { is_in_range (snapshot_with top top top top past) ≡ true }
    ensures snapshot_past { with_one_past snapshot_with
        ≡ false ∷ false ∷ false ∷ false ∷ true ∷ [] }
{}

/// What is sent has a low list beside its numbers, and so has what comes.
pub fn messages_with_low_lists()
    ensures top { IsLowBody (snapshot_with top top top top top) }
    ensures listed { IsLowBody (snapshot_with 0 0 0 0 past) → ⊥ }
    ensures numbers { IsLowBody (snapshot_with past 0 0 0 0) → ⊥ }
    ensures own_list { HasLowPrefix (snapshot_with past past past past top) }
    ensures comes { BringsLowPrefix (listed_at top) }
    ensures comes_past { BringsLowPrefix (listed_at past) → ⊥ }
{}

/// Why the list of a snapshot that comes is to be low: no refusal looks at it, and the membership
/// of a later snapshot, which may be sent, has its log id from there.
pub fn lists_that_come_back()
    ensures first { refusal_of 2 empty_group (listed_at past) ≡ None }
    ensures stored { IsLowStored (receiver top).stored }
    ensures built { built_numbers top ≡ top ∷ top ∷ [] }
    ensures built_past { built_numbers past ≡ past ∷ past ∷ [] }
{}

/// A leader sends a request with the last number in range, and then refuses what comes.
pub fn last_requests()
    ensures before { next_after (top - 1) ≡ top ∷ 2 ∷ [] }
    ensures last { next_after top ≡ past ∷ 2 ∷ [] }
    ensures in_range { ranges_after top ≡ true ∷ true ∷ true ∷ true ∷ [] }
    ensures refused { refused_after top ≡ Some NumberAtEnd }
    ensures not_yet { refused_after (top - 1) ≡ None }
{}
