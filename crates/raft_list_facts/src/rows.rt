//! What the words take in and what they leave out, on small values: each a contract of a function
//! without a body.
ghost use Rattle.std.specs.Prelude.{◌≡◌, [], ◌∷◌, None, Some, true};
ghost use Rattle.raft_values.specs.LogId.{log_id_of};
ghost use Rattle.raft_values.specs.Vote.{vote_of};
ghost use Rattle.raft_group_step.specs.GroupState.{Follower};
ghost use Rattle.raft_group_step.specs.Message.{AppendReply, Conflict, HigherVote, PartialSuccess, SnapshotReply, Success, VoteReply};
ghost use Rattle.raft_list_facts.specs.Accepting.{accepted_in};
ghost use Rattle.raft_list_facts.specs.Leads.{leading_of};
ghost use Rattle.raft_list_facts.specs.Rows.{base_of_two, node_two, reply, told_by_two, up_to};
ghost use Rattle.raft_list_facts.specs.declared.leading.Base.TheVariants.{Nothing, Unknown, UpTo};

/// With success a reply accepts all of its request, with a part up to there, and else nothing; so does
/// the reply to a snapshot. A granted vote accepts nothing.
pub fn what_messages_accept()
    ensures all { accepted_in (AppendReply (reply Success)) ≡ up_to 3 }
    ensures part { accepted_in (AppendReply (reply (PartialSuccess (Some (log_id_of 4 2 1))))) ≡ up_to 1 }
    ensures none_of_it { accepted_in (AppendReply (reply (PartialSuccess None))) ≡ None }
    ensures conflict { accepted_in (AppendReply (reply Conflict)) ≡ None }
    ensures higher { accepted_in (AppendReply (reply (HigherVote (vote_of 5 1 true)))) ≡ None }
    ensures snapshot { accepted_in (SnapshotReply (reply Success)) ≡ up_to 3 }
    ensures vote { accepted_in (VoteReply (vote_of 4 2 true) true (Some (log_id_of 4 2 3))) ≡ None }
{}

/// A leader took over all before its first own entry, or all that it has while it has none. Where its
/// first own entry is purged it can't be told; the last log id that is purged before it can. A node that
/// follows leads nothing.
pub fn what_leaders_took_over()
    ensures nothing { base_of_two None (log_id_of 4 2 0 ∷ log_id_of 4 2 1 ∷ []) ≡ Some Nothing }
    ensures before { base_of_two None (log_id_of 1 1 0 ∷ log_id_of 3 1 1 ∷ log_id_of 4 2 2 ∷ []) ≡ Some (UpTo (log_id_of 3 1 1)) }
    ensures none_yet { base_of_two None (log_id_of 1 1 0 ∷ log_id_of 3 1 1 ∷ []) ≡ Some (UpTo (log_id_of 3 1 1)) }
    ensures none_at_all { base_of_two None [] ≡ Some Nothing }
    ensures all_others_purged { base_of_two (Some (log_id_of 3 1 1)) [] ≡ Some (UpTo (log_id_of 3 1 1)) }
    ensures purged { base_of_two (Some (log_id_of 4 2 2)) (log_id_of 4 2 3 ∷ []) ≡ Some Unknown }
    ensures behind_purged { base_of_two (Some (log_id_of 3 1 1)) (log_id_of 4 2 2 ∷ []) ≡ Some (UpTo (log_id_of 3 1 1)) }
    ensures all_purged { told_by_two (Some (log_id_of 4 2 2)) []
        ≡ Some (record { vote = vote_of 4 2 true; last = Some (log_id_of 4 2 2); base = Unknown }) }
    ensures follows { leading_of (node_two Follower None (log_id_of 4 2 0 ∷ [])) ≡ None }
{}
