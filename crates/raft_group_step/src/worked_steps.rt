//! Worked steps, each a contract of a function without a body: the definitions give these rows.
ghost use Rattle.std.specs.Prelude.{◌≡◌, ◌^◌, true, false, [], ◌∷◌, Some, None};
ghost use Rattle.raft_values.specs.Vote.{vote_of};
ghost use Rattle.raft_values.specs.LogId.{log_id_of};
ghost use Rattle.raft_group_step.specs.StoredGroup.{Holds, SetVote, entry_at, held};
ghost use Rattle.raft_group_step.specs.GroupState.{is_leader, no_group, state_of};
ghost use Rattle.raft_group_step.specs.StepResult.{BreaksCondition, NumberAtEnd, UnknownGroup, WrongParty};
ghost use Rattle.raft_group_step.specs.StepExample.{answer_to, empty_group, first_request_start, higher_vote, is_granted_at};
ghost use Rattle.raft_group_step.specs.StepExample.{blank_at, committed_by, opened, other_blank_at, with_log, with_snapshot};
ghost use Rattle.raft_group_step.specs.StepExample.{request, sent_at_heartbeat, stored_at_notice, three_blanks, vote_request};

/// A message that breaks a condition is refused, by the first reason that holds.
pub fn refused_messages()
    ensures taken { answer_to empty_group 1 (vote_request (vote_of 1 1 false)) ≡ None }
    ensures committed { answer_to empty_group 1 (vote_request (vote_of 1 1 true)) ≡ Some BreaksCondition }
    ensures at_end { answer_to empty_group 1 (vote_request (vote_of (2 ^ 62) 1 false)) ≡ Some NumberAtEnd }
    ensures party { answer_to empty_group 3 (vote_request (vote_of 1 1 false)) ≡ Some WrongParty }
    ensures unknown { answer_to (state_of no_group) 1 (vote_request (vote_of 1 1 true)) ≡ Some UnknownGroup }
    ensures not_senders { answer_to empty_group 1 (vote_request (vote_of 1 3 false)) ≡ Some BreaksCondition }
    ensures own_vote { answer_to empty_group 1 (higher_vote (vote_of 4 2 false)) ≡ Some BreaksCondition }
    ensures repeated_vote { answer_to empty_group 1 (higher_vote (vote_of 4 1 false)) ≡ Some BreaksCondition }
{}

/// Entries follow the previous one, and their leaders never fall.
pub fn refused_entries()
    ensures taken { answer_to empty_group 1 (request (vote_of 3 1 true) None (log_id_of 0 0 0 ∷ log_id_of 2 1 1 ∷ [])) ≡ None }
    ensures uncommitted { answer_to empty_group 1 (request (vote_of 3 1 false) None []) ≡ Some BreaksCondition }
    ensures gap { answer_to empty_group 1 (request (vote_of 3 1 true) None (log_id_of 2 1 1 ∷ [])) ≡ Some BreaksCondition }
    ensures falling { answer_to empty_group 1 (request (vote_of 3 1 true) None (log_id_of 2 1 0 ∷ log_id_of 1 1 1 ∷ [])) ≡ Some BreaksCondition }
    ensures below_previous { answer_to empty_group 1 (request (vote_of 3 1 true) (Some (log_id_of 2 1 0)) (log_id_of 1 1 1 ∷ [])) ≡ Some BreaksCondition }
    ensures above_vote { answer_to empty_group 1 (request (vote_of 3 1 true) None (log_id_of 4 1 0 ∷ [])) ≡ Some BreaksCondition }
{}

/// Each entry has the leader of the vote, and the place after the last one.
pub fn places_of_entries()
    ensures { three_blanks ≡ log_id_of 2 2 9 ∷ log_id_of 2 2 10 ∷ log_id_of 2 2 11 ∷ [] }
{}

/// A vote is granted once 150 ticks have passed since the leader's vote was renewed.
pub fn end_of_a_lease()
    ensures within { is_granted_at 250 ≡ false }
    ensures past { is_granted_at 251 ≡ true }
{}

/// A notice under the own vote stores nothing, and one under a greater vote stores that.
pub fn votes_that_are_stored()
    ensures equal { stored_at_notice (vote_of 1 1 true) ≡ [] }
    ensures greater { stored_at_notice (vote_of 2 3 true) ≡ SetVote (vote_of 2 3 true) ∷ [] }
    ensures lower { stored_at_notice (vote_of 0 3 true) ≡ [] }
{}

/// The search goes half of the way, by eights, and a request has at most 64 entries.
pub fn sizes_of_requests()
    ensures short { first_request_start 15 ≡ 0 }
    ensures long { first_request_start 16 ≡ 8 }
    ensures longer { first_request_start 47 ≡ 16 }
    ensures few { sent_at_heartbeat 9 ≡ 0 ∷ 10 ∷ [] }
    ensures many { sent_at_heartbeat 99 ≡ 0 ∷ 64 ∷ [] }
{}

/// A node has its snapshot's list and what its log has above it, also where the log begins later.
pub fn lists_that_a_node_has()
    ensures whole { held (with_snapshot None (blank_at 0 ∷ blank_at 1 ∷ blank_at 2 ∷ [])) ≡ blank_at 0 ∷ blank_at 1 ∷ blank_at 2 ∷ [] }
    ensures purged { held (with_snapshot (Some (log_id_of 1 1 1)) (blank_at 2 ∷ [])) ≡ blank_at 0 ∷ blank_at 1 ∷ blank_at 2 ∷ [] }
    ensures partly { held (with_snapshot (Some (log_id_of 1 1 0)) (blank_at 1 ∷ blank_at 2 ∷ [])) ≡ blank_at 0 ∷ blank_at 1 ∷ blank_at 2 ∷ [] }
    ensures at { entry_at (with_snapshot (Some (log_id_of 1 1 1)) (blank_at 2 ∷ [])) 2 ≡ Some (blank_at 2) }
    ensures below { entry_at (with_snapshot (Some (log_id_of 1 1 1)) (blank_at 2 ∷ [])) 1 ≡ None }
{}

/// A node holds a list up to a place where it has the same entries up to and with that place: not with another one there,
/// and not where it has fewer.
pub fn lists_that_a_node_holds()
    ensures same { Holds (with_log (blank_at 0 ∷ blank_at 1 ∷ [])) (blank_at 0 ∷ other_blank_at 1 ∷ []) 0 }
    ensures differs { Holds (with_log (blank_at 0 ∷ blank_at 1 ∷ [])) (blank_at 0 ∷ other_blank_at 1 ∷ []) 1 → ⊥ }
    ensures short { Holds (with_log (blank_at 0 ∷ [])) (blank_at 0 ∷ blank_at 1 ∷ []) 1 → ⊥ }
    ensures unlisted { Holds (with_log (blank_at 0 ∷ blank_at 1 ∷ [])) (blank_at 0 ∷ []) 1 → ⊥ }
{}

/// A leader commits the greatest place of an entry of its own that a quorum has accepted, and none of another leader's
/// alone.
pub fn places_that_a_leader_commits()
    ensures none { committed_by None ≡ None }
    ensures anothers { committed_by (Some (log_id_of 1 1 1)) ≡ None }
    ensures own { committed_by (Some (log_id_of 2 2 2)) ≡ Some 2 }
    ensures later { committed_by (Some (log_id_of 2 2 3)) ≡ Some 3 }
{}

/// A node that is opened knows its snapshot's list to be committed, and nothing else. It leads on where its vote is granted
/// and its own.
pub fn openings()
    ensures own { is_leader (opened (vote_of 2 2 true) (with_snapshot None (blank_at 0 ∷ blank_at 1 ∷ []))).role ≡ true }
    ensures ungranted { is_leader (opened (vote_of 2 2 false) (with_snapshot None (blank_at 0 ∷ blank_at 1 ∷ []))).role ≡ false }
    ensures anothers { is_leader (opened (vote_of 2 1 true) (with_snapshot None (blank_at 0 ∷ blank_at 1 ∷ []))).role ≡ false }
    ensures committed { (opened (vote_of 2 2 true) (with_snapshot None (blank_at 0 ∷ blank_at 1 ∷ blank_at 2 ∷ []))).committed ≡ Some 1 }
    ensures applied { (opened (vote_of 2 2 true) (with_snapshot None (blank_at 0 ∷ blank_at 1 ∷ blank_at 2 ∷ []))).applied ≡ Some 1 }
    ensures without { (opened (vote_of 2 2 true) (with_log (blank_at 0 ∷ blank_at 1 ∷ []))).committed ≡ None }
{}

/// A log that has the snapshot's last entry, or has purged it, stays at an opening. Another one is dropped.
pub fn logs_at_openings()
    ensures joined { (opened (vote_of 2 1 true) (with_snapshot None (blank_at 0 ∷ blank_at 1 ∷ blank_at 2 ∷ []))).stored.log ≡ blank_at 0 ∷ blank_at 1 ∷ blank_at 2 ∷ [] }
    ensures purged { (opened (vote_of 2 1 true) (with_snapshot (Some (log_id_of 1 1 1)) (blank_at 2 ∷ []))).stored.log ≡ blank_at 2 ∷ [] }
    ensures other { (opened (vote_of 2 1 true) (with_snapshot None (blank_at 0 ∷ other_blank_at 1 ∷ blank_at 2 ∷ []))).stored.log ≡ [] }
    ensures short { (opened (vote_of 2 1 true) (with_snapshot None (blank_at 0 ∷ []))).stored.purged ≡ Some (log_id_of 1 1 1) }
{}
