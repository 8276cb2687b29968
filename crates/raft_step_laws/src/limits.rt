//! What a step stores and sends fits the limits: a law of single steps, as a contract of a function without a body, with worked
//! rows of its words.

ghost use Rattle.std.specs.Prelude.{◌≡◌, true, [], ◌∷◌, ◌++◌, Some, None};
ghost use Rattle.raft_values.specs.LogId.{log_id_of};
ghost use Rattle.raft_values.specs.Vote.{vote_of};
ghost use Rattle.raft_state.specs.declared.entry.EntryPayload.TheVariants.{Membership as Members, Normal};
ghost use Rattle.raft_group_step.specs.GroupEvent.{Open};
ghost use Rattle.raft_group_step.specs.Message.{AppendReply, Conflict, HeartBeat, HigherVote, Numbered, PartialSuccess, SnapshotReply, Success};
ghost use Rattle.raft_group_step.specs.StoredGroup.{CutFrom, PutEntries, RemoveUpTo, StartAfter};
ghost use Rattle.raft_group_step.specs.StepExample.{blank_at, with_log};
ghost use Rattle.raft_step_laws.specs.Fitting.{AllFit, ArePlacedFrom, ComesWithin, IsBodyBounded, IsPayloadBounded, FitsRequest, IsSnapshotBounded};
ghost use Rattle.raft_step_laws.specs.Fitting.{IsSnapshotReplyBounded, FitsStored, FitsStoring, IsCommittedWithin, StepsFit};
ghost use Rattle.raft_step_laws.specs.FittingRows.{behind_a_purge, blanks_from, committed_to, groups, message_of_one, reply, request, snapshot_of, with_snapshot};

/// Where what a node has fits, and what comes to it, so does what a step stores and sends, and what is left of it at its end or
/// after a stop. A command has at most 65,536 bytes, a membership is within its limits. A request has at most 64 entries, which
/// follow the previous one. A snapshot's reply has a number and no previous log id. At most 64 entries are put at a time, at their
/// places, right behind the log; the log is cut inside, and its front never comes back. An opening drops a log only where that
/// lacks the last entry of the snapshot.
pub fn steps_fit()
    ensures { StepsFit }
{}

/// Eight voter groups are within the limits, nine are not.
pub fn payloads_that_fit()
    ensures eight { IsPayloadBounded (Members (groups 8)) }
    ensures nine { IsPayloadBounded (Members (groups 9)) → ⊥ }
    ensures command { IsPayloadBounded (Normal (5 ∷ [])) }
    ensures snapshot { IsSnapshotBounded (snapshot_of (groups 8)) }
    ensures wide_snapshot { IsSnapshotBounded (snapshot_of (groups 9)) → ⊥ }
{}

/// A request's entries follow its previous log id, without a gap, and are 64 at most.
pub fn requests_that_fit()
    ensures follows { FitsRequest (request (Some (log_id_of 1 1 1)) (blank_at 2 ∷ [])) }
    ensures first { FitsRequest (request None []) }
    ensures gap { FitsRequest (request (Some (log_id_of 1 1 1)) (blank_at 3 ∷ [])) → ⊥ }
    ensures hole { FitsRequest (request None (blank_at 0 ∷ blank_at 2 ∷ [])) → ⊥ }
    ensures many { FitsRequest (request None (blanks_from 0 65)) → ⊥ }
    ensures wide { FitsRequest (request None (record (blank_at 0) { payload = Members (groups 9) } ∷ [])) → ⊥ }
{}

/// A snapshot's reply has a number and no previous log id, and tells of success or of a greater vote.
pub fn snapshot_replies_that_fit()
    ensures success { IsSnapshotReplyBounded (reply (Numbered 3) None Success) }
    ensures greater { IsSnapshotReplyBounded (reply (Numbered 3) None (HigherVote (vote_of 2 3 true))) }
    ensures notice { IsSnapshotReplyBounded (reply HeartBeat None Success) → ⊥ }
    ensures previous { IsSnapshotReplyBounded (reply (Numbered 3) (Some (log_id_of 1 1 1)) Success) → ⊥ }
    ensures conflict { IsSnapshotReplyBounded (reply (Numbered 3) None Conflict) → ⊥ }
    ensures part { IsBodyBounded (AppendReply (reply (Numbered 3) None (PartialSuccess (Some (log_id_of 1 1 1))))) → ⊥ }
    ensures body { IsBodyBounded (SnapshotReply (reply (Numbered 3) None Conflict)) → ⊥ }
{}

/// Entries are put right behind the log, at their places; the log is cut where it has an entry, and its front never comes back.
/// It is dropped for the snapshot that is stored, where it lacks that one's last entry.
pub fn commands_that_fit()
    ensures behind { FitsStoring behind_a_purge (PutEntries 4 (blank_at 4 ∷ [])) }
    ensures inside { FitsStoring behind_a_purge (PutEntries 3 (blank_at 3 ∷ [])) → ⊥ }
    ensures gap { FitsStoring behind_a_purge (PutEntries 5 (blank_at 5 ∷ [])) → ⊥ }
    ensures purged { FitsStoring behind_a_purge (PutEntries 1 (blank_at 1 ∷ [])) → ⊥ }
    ensures elsewhere { FitsStoring behind_a_purge (PutEntries 4 (blank_at 5 ∷ [])) → ⊥ }
    ensures many { FitsStoring behind_a_purge (PutEntries 4 (blanks_from 4 65)) → ⊥ }
    ensures wide { FitsStoring behind_a_purge (PutEntries 4 (record (blank_at 4) { payload = Members (groups 9) } ∷ [])) → ⊥ }
    ensures cut { FitsStoring behind_a_purge (CutFrom 3) }
    ensures cut_behind { FitsStoring behind_a_purge (CutFrom 4) → ⊥ }
    ensures cut_before { FitsStoring behind_a_purge (CutFrom 1) → ⊥ }
    ensures removed { FitsStoring behind_a_purge (RemoveUpTo (log_id_of 1 1 2)) }
    ensures comes_back { FitsStoring behind_a_purge (RemoveUpTo (log_id_of 1 1 0)) → ⊥ }
    ensures dropped { FitsStoring (with_snapshot (log_id_of 2 2 3)) (StartAfter (log_id_of 2 2 3)) }
    ensures not_in_snapshot { FitsStoring (with_snapshot (log_id_of 2 2 3)) (StartAfter (log_id_of 2 2 4)) → ⊥ }
    ensures has_it { FitsStoring (with_snapshot (log_id_of 1 1 3)) (StartAfter (log_id_of 1 1 3)) → ⊥ }
    ensures purged_it { FitsStoring (with_snapshot (log_id_of 1 1 1)) (StartAfter (log_id_of 1 1 1)) → ⊥ }
    ensures in_turn { AllFit behind_a_purge (PutEntries 4 (blank_at 4 ∷ []) ∷ PutEntries 5 (blank_at 5 ∷ []) ∷ []) }
    ensures out_of_turn { AllFit behind_a_purge (CutFrom 3 ∷ PutEntries 4 (blank_at 4 ∷ []) ∷ []) → ⊥ }
{}

/// The log's entries are at their places, and what is committed is neither purged nor past the log's end. A message is to
/// find it so, an opening isn't.
pub fn groups_that_fit()
    ensures placed { FitsStored behind_a_purge }
    ensures misplaced { FitsStored (with_log (blank_at 1 ∷ [])) → ⊥ }
    ensures gap { FitsStored (with_log (blank_at 0 ∷ blank_at 2 ∷ [])) → ⊥ }
    ensures wide { FitsStored (with_log (record (blank_at 0) { payload = Members (groups 9) } ∷ [])) → ⊥ }
    ensures wide_snapshot { FitsStored (record behind_a_purge { snapshot = Some (snapshot_of (groups 9)) }) → ⊥ }
    ensures within { IsCommittedWithin (committed_to (Some 3)) }
    ensures at_purge { IsCommittedWithin (committed_to (Some 1)) }
    ensures purged { IsCommittedWithin (committed_to (Some 0)) → ⊥ }
    ensures past_end { IsCommittedWithin (committed_to (Some 4)) → ⊥ }
    ensures message { ComesWithin (committed_to (Some 0)) message_of_one → ⊥ }
    ensures opening { ComesWithin (committed_to (Some 0)) Open }
{}
