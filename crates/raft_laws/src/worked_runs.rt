//! Worked runs, each a contract of a function without a body: the definitions give these rows.
ghost use Rattle.std.specs.Prelude.{◌≡◌, true, false, [], ◌∷◌, Some, None};
ghost use Rattle.raft_values.specs.LogId.{log_id_of};
ghost use Rattle.raft_values.specs.Vote.{vote_of};
ghost use Rattle.raft_group_step.specs.StoredGroup.{SetVote, CutFrom, PutEntries};
ghost use Rattle.raft_group_step.specs.Values.{entry_of};
ghost use Rattle.raft_state.specs.declared.entry.EntryPayload.TheVariants.{Blank};
ghost use Rattle.raft_laws.specs.GroupWorld.{new_world};
ghost use Rattle.raft_laws.specs.GroupRun.{group_run};
ghost use Rattle.raft_laws.specs.Settled.{group_list};
ghost use Rattle.raft_laws.specs.Example.{run_of, to_their_end, three, log_ids_at, ids_of_log, kinds_from, ANotice, ASnapshot, outcomes_after};
ghost use Rattle.raft_laws.specs.Example.{vote_at, applied_at, part_at, Follows, IsDown, Stands, Leads, held_ids_at, commands_at_delivery};
ghost use Rattle.raft_laws.specs.ThreeNodes.{until_told, outcomes_until_told, kinds_until_told};
ghost use Rattle.raft_laws.specs.CrashRuns.{leader_restarts, outcomes_of_restart, late_replies, twice, outcomes_of_twice};
ghost use Rattle.raft_laws.specs.CrashRuns.{behind, outcomes_of_behind, after_voter_stops, asked_again, outcomes_of_stop};
ghost use Rattle.raft_laws.specs.Example.{ok};
ghost use Rattle.raft_laws.specs.ConflictRun.{another_leads, until_committed_anew, until_overwritten, outcomes_of_conflict};
ghost use Rattle.raft_laws.specs.SnapshotRun.{until_installed, until_caught_up, outcomes_of_snapshot, kinds_of_snapshot};
ghost use Rattle.raft_laws.specs.LearnerRun.{four, changes, outcomes_of_changes};
ghost use Rattle.raft_laws.specs.LostRun.{beats, outcomes_of_beats, sent_again, outcomes_of_sent_again};
ghost use Rattle.raft_laws.specs.PurgeRun.{wished, fulfilled, outcomes_of_wish, after_stops, snapshot_comes_first, outcomes_of_stops, purged_at};
ghost use Rattle.raft_laws.specs.HaltRuns.{halted_again, outcome_of_refused_proposal, outcomes_of_halts, outcomes_of_refused_set_up, refused_proposal, refused_set_up, until_halted};
ghost use Rattle.raft_laws.specs.OneVoter.{one, alone, outcomes_of_alone, stopped_proposal, outcomes_of_stopped_proposal};

/// Three nodes: an election, a command, and what each event sends.
pub fn three_nodes()
    ensures outcomes { outcomes_after 0 three (to_their_end until_told) ≡ outcomes_until_told }
    ensures kinds { kinds_from 0 (run_of three until_told) ≡ kinds_until_told }
    ensures log { log_ids_at (run_of three until_told) 1 ≡ Some (log_id_of 0 0 0 ∷ log_id_of 1 1 1 ∷ log_id_of 1 1 2 ∷ []) }
    ensures list { ids_of_log (group_list (run_of three until_told)) ≡ log_id_of 0 0 0 ∷ log_id_of 1 1 1 ∷ log_id_of 1 1 2 ∷ [] }
    ensures lagging { applied_at (run_of three until_told) 3 ≡ None }
{}

/// A leader that crashed leads on, and has told nothing.
pub fn crash_of_a_leader()
    ensures outcomes { outcomes_after 10 three (to_their_end leader_restarts) ≡ outcomes_of_restart }
    ensures log { log_ids_at (run_of three leader_restarts) 1 ≡ Some (log_id_of 0 0 0 ∷ log_id_of 1 1 1 ∷ log_id_of 1 1 2 ∷ []) }
    ensures late { outcomes_after 12 three (to_their_end late_replies) ≡ ok [] ∷ ok [] ∷ [] }
    ensures leads { part_at (run_of three late_replies) 1 ≡ Leads }
{}

/// A request that comes twice is answered twice, and stored once.
pub fn request_that_comes_twice()
    ensures outcomes { outcomes_after 10 three (to_their_end twice) ≡ outcomes_of_twice }
    ensures applied { applied_at (run_of three twice) 2 ≡ Some 2 }
{}

/// A leader that another group's event stops names the token that waits, and keeps what it has stored.
pub fn halts_of_nodes()
    ensures outcomes { outcomes_after 9 three (to_their_end halted_again) ≡ outcomes_of_halts }
    ensures down { part_at (run_of three until_halted) 1 ≡ IsDown }
    ensures log { log_ids_at (run_of three until_halted) 1 ≡ Some (log_id_of 0 0 0 ∷ log_id_of 1 1 1 ∷ log_id_of 1 1 2 ∷ []) }
{}

/// An event that is refused doesn't stop: its node stays up, and a set-up is none.
pub fn stops_of_refused_events()
    ensures proposal { outcomes_after 11 three refused_proposal ≡ outcome_of_refused_proposal }
    ensures stays_up { part_at (group_run refused_proposal (new_world three)) 2 ≡ Follows }
    ensures set_up { outcomes_after 0 one refused_set_up ≡ outcomes_of_refused_set_up }
{}

/// A node whose log is behind isn't granted a vote.
pub fn vote_of_a_node_behind()
    ensures outcomes { outcomes_after 11 three (to_their_end behind) ≡ outcomes_of_behind }
    ensures vote { vote_at (run_of three behind) 2 ≡ Some (vote_of 1 1 true) }
    ensures stands { part_at (run_of three behind) 3 ≡ Stands }
{}

/// A voter that stops before its grant is stored has not granted.
pub fn stop_of_a_voter()
    ensures outcomes { outcomes_after 4 three (asked_again 0) ≡ outcomes_of_stop }
    ensures not_stored { vote_at (after_voter_stops 0) 2 ≡ Some (vote_of 0 0 false) }
    ensures stored { vote_at (after_voter_stops 1) 2 ≡ Some (vote_of 1 1 false) }
{}

/// A command that reached nobody gives way to another leader's entries.
pub fn conflict_after_partition()
    ensures outcomes { outcomes_after 9 three (to_their_end until_overwritten) ≡ outcomes_of_conflict }
    ensures batches { commands_at_delivery (run_of three another_leads) 12 1000 ≡ SetVote (vote_of 2 2 true) ∷ CutFrom 2 ∷ PutEntries 2 (entry_of (log_id_of 2 2 2) Blank ∷ []) ∷ [] }
    ensures not_yet { applied_at (run_of three until_committed_anew) 1 ≡ Some 1 }
    ensures applied { applied_at (run_of three until_overwritten) 1 ≡ Some 2 }
    ensures list { ids_of_log (group_list (run_of three until_overwritten)) ≡ log_id_of 0 0 0 ∷ log_id_of 1 1 1 ∷ log_id_of 2 2 2 ∷ [] }
{}

/// A node that lags behind a purged log is sent the snapshot, and catches up.
pub fn snapshot_to_a_lagging_node()
    ensures outcomes { outcomes_after 11 three (to_their_end until_caught_up) ≡ outcomes_of_snapshot }
    ensures kinds { kinds_from 12 (run_of three until_caught_up) ≡ kinds_of_snapshot }
    ensures installed { applied_at (run_of three until_installed) 3 ≡ Some 2 }
    ensures empty { log_ids_at (run_of three until_installed) 3 ≡ Some [] }
    ensures held { held_ids_at (run_of three until_caught_up) 3 ≡ Some (log_id_of 0 0 0 ∷ log_id_of 1 1 1 ∷ log_id_of 1 1 2 ∷ log_id_of 2 2 3 ∷ log_id_of 2 2 4 ∷ []) }
{}

/// Learners and addresses change, voters don't.
pub fn changes_of_a_membership()
    ensures outcomes { outcomes_after 4 four (to_their_end changes) ≡ outcomes_of_changes }
{}

/// One voter, and what it refuses.
pub fn one_voter()
    ensures outcomes { outcomes_after 0 one (to_their_end alone) ≡ outcomes_of_alone }
    ensures not_stored { outcomes_after 0 one (stopped_proposal 0) ≡ outcomes_of_stopped_proposal 2 }
    ensures stored { outcomes_after 0 one (stopped_proposal 1) ≡ outcomes_of_stopped_proposal 3 }
{}

/// Heartbeats go to all; what failed is sent again, and late replies answer nothing.
pub fn beats_and_losses()
    ensures beats { outcomes_after 11 three (to_their_end beats) ≡ outcomes_of_beats }
    ensures notices { kinds_from 12 (run_of three beats) ≡ ANotice ∷ ANotice ∷ [] }
    ensures again { outcomes_after 11 three (to_their_end sent_again) ≡ outcomes_of_sent_again }
    ensures applied { applied_at (run_of three sent_again) 3 ≡ Some 2 }
{}

/// A purge waits for the peers, and a snapshot without its purge is mended at the opening.
pub fn purges()
    ensures outcomes { outcomes_after 11 three (to_their_end fulfilled) ≡ outcomes_of_wish }
    ensures waits { purged_at (run_of three wished) 1 ≡ None }
    ensures purged { purged_at (run_of three fulfilled) 1 ≡ Some (log_id_of 1 1 2) }
    ensures snapshot { kinds_from 12 (run_of three fulfilled) ≡ ASnapshot ∷ [] }
    ensures stops { outcomes_after 14 three snapshot_comes_first ≡ outcomes_of_stops }
    ensures mended { purged_at after_stops 3 ≡ Some (log_id_of 1 1 2) }
{}
