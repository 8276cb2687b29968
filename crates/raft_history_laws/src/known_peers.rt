//! What a leader knows of its peers: laws of every run, each a contract of a function without a
//! body, with worked rows of their words.

ghost use Rattle.std.specs.Prelude.{◌≡◌, true, [], ◌∷◌, Some, None};
ghost use Rattle.raft_values.specs.LogId.{log_id_of};
ghost use Rattle.raft_values.specs.Vote.{vote_of};
ghost use Rattle.raft_group_step.specs.Message.{Conflict, HigherVote, PartialSuccess, Success};
ghost use Rattle.raft_laws.specs.ConflictRun.{until_committed_anew};
ghost use Rattle.raft_laws.specs.CrashRuns.{late_replies};
ghost use Rattle.raft_laws.specs.Example.{three, to_their_end};
ghost use Rattle.raft_laws.specs.LearnerRun.{changes, four};
ghost use Rattle.raft_laws.specs.OneVoter.{one};
ghost use Rattle.raft_laws.specs.SnapshotRun.{until_caught_up, until_installed};
ghost use Rattle.raft_laws.specs.ThreeNodes.{until_told};
ghost use Rattle.raft_step_laws.specs.PeerRows.{before, last};
ghost use Rattle.raft_history_laws.specs.KnownPeers.{MatchedIsAnswered, PeerStatesReplay};
ghost use Rattle.raft_history_laws.specs.LeadsRun.{answers_of, counted, known_of, next_is_sent};
ghost use Rattle.raft_history_laws.specs.LeadsRun.{elected_again, leader_stops};
ghost use Rattle.raft_history_laws.specs.LeadsRun.{leader_crashes, leader_reopens};
ghost use Rattle.raft_history_laws.specs.LeadsRun.{addressees_in_lead, loses_a_request};
ghost use Rattle.raft_history_laws.specs.LeadsRun.{replies_twice, sent_in_lead, sent_until_told};

/// What a leader knows of a peer is a function of the events of its lead: of the requests that it
/// sent, the replies that came, and the losses. A stop ends a lead, and each opening begins
/// another. What it counts as accepted reaches a place just where a reply to an outstanding request
/// said so with success.
pub fn leaders_know_their_peers()
    ensures replay { PeerStatesReplay }
    ensures answered { MatchedIsAnswered }
{}

/// A lead has its own events alone: none of what was before its election, a crash or a stop, and
/// none that was refused. A request isn't followed by another one before it is answered.
pub fn events_of_leads()
    ensures leads { sent_in_lead three (to_their_end until_told) 1 ≡ sent_until_told }
    ensures follows { sent_in_lead three (to_their_end until_told) 2 ≡ [] }
    ensures gave_way { sent_in_lead three (to_their_end until_committed_anew) 1 ≡ [] }
    ensures crashed { sent_in_lead three leader_crashes 1 ≡ [] }
    ensures stopped { sent_in_lead three leader_stops 1 ≡ [] }
    ensures reopened { addressees_in_lead three leader_reopens 1 ≡ (2 ∷ 3 ∷ []) ∷ [] }
    ensures elected_again { addressees_in_lead one elected_again 1 ≡ [] ∷ [] }
    ensures refused { addressees_in_lead four (to_their_end changes) 1
        ≡ (2 ∷ 3 ∷ 4 ∷ []) ∷ (2 ∷ 3 ∷ 4 ∷ []) ∷ (2 ∷ []) ∷ [] }
{}

/// A reply counts as accepted up to its last log id where it says success, and its sender, vote,
/// number and log ids are those of the outstanding request. A partial success counts up to the log
/// id that it names, if that lies within the request.
pub fn replies_that_are_counted()
    ensures success { counted 1 (vote_of 2 2 true) 1 last Success ≡ log_id_of 2 2 3 ∷ [] }
    ensures part { counted 1 (vote_of 2 2 true) 1 last (PartialSuccess (Some (log_id_of 2 2 2))) ≡ log_id_of 2 2 2 ∷ [] }
    ensures past_it { counted 1 (vote_of 2 2 true) 1 last (PartialSuccess (Some (log_id_of 2 2 4))) ≡ [] }
    ensures conflict { counted 1 (vote_of 2 2 true) 1 last Conflict ≡ [] }
    ensures refused { counted 1 (vote_of 2 2 true) 1 last (HigherVote (vote_of 3 3 true)) ≡ [] }
    ensures anothers { counted 3 (vote_of 2 2 true) 1 last Success ≡ [] }
    ensures earlier_vote { counted 1 (vote_of 1 2 true) 1 last Success ≡ [] }
    ensures other_number { counted 1 (vote_of 2 2 true) 2 last Success ≡ [] }
    ensures other_last { counted 1 (vote_of 2 2 true) 1 before Success ≡ [] }
{}

/// Each reply counts once, in the lead that sent its request; a snapshot that was installed counts,
/// a conflict doesn't.
pub fn answers_in_leads()
    ensures in_turn { answers_of until_told 1 2 ≡ log_id_of 1 1 1 ∷ log_id_of 1 1 2 ∷ [] }
    ensures silent { answers_of until_told 1 3 ≡ [] }
    ensures twice { answers_of replies_twice 1 2 ≡ log_id_of 1 1 1 ∷ log_id_of 1 1 2 ∷ [] }
    ensures earlier_lead { answers_of late_replies 1 2 ≡ [] }
    ensures conflict { answers_of until_installed 2 3 ≡ [] }
    ensures snapshot { answers_of until_caught_up 2 3
        ≡ log_id_of 1 1 2 ∷ log_id_of 2 2 3 ∷ log_id_of 2 2 4 ∷ [] }
{}

/// What a leader knows of a peer: what it accepted, the number of the next request, and that of the
/// outstanding one. An event's reply comes first, and then the request that it sends; a lost
/// request is sent again under the next number.
pub fn peers_of_leads()
    ensures answered { known_of until_told 1 2 ≡ (Some (log_id_of 1 1 2), 3, None) }
    ensures waits { known_of until_told 1 3 ≡ (None, 2, Some 1) }
    ensures sent_at_once { known_of next_is_sent 1 2 ≡ (Some (log_id_of 1 1 2), 4, Some 3) }
    ensures sent_again { known_of loses_a_request 1 3 ≡ (None, 3, Some 2) }
    ensures reopened { known_of late_replies 1 2 ≡ (None, 2, Some 1) }
{}
