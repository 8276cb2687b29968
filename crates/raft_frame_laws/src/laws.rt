//! The laws, with worked rows of their words.
ghost use Rattle.std.specs.Prelude.{◌≡◌, true, false, None, Some};
ghost use Rattle.raft_values.specs.LogId.{log_id_of};
ghost use Rattle.raft_values.specs.Vote.{vote_of};
ghost use Rattle.raft_group_step.specs.declared.append_entries.AppendEntriesResponse.TheVariants.{Conflict, PartialSuccess, Success};
ghost use Rattle.raft_messages.specs.declared.message.RequestId.TheVariants.{HeartBeat, Numbered};
ghost use Rattle.raft_frame_laws.specs.StepFrames.{FewBytesHaveFrames, FramesFitSteps, HasFrame, SnapshotsHaveFrames, StepsHaveFrames};
ghost use Rattle.raft_frame_laws.specs.FrameRows.{accepts_snapshot, accepts_entries, asks_for_vote};

use raft_group_storage::GroupStorage;
use raft_messages::SnapshotBytes;

/// Where what a node has of a group is within the limits, and what comes to it, each message of a
/// step that brings no snapshot has a frame (own). So a node that writes them can only lack memory;
/// whether a snapshot's bytes are few enough is up to its machine.
pub fn steps_have_frames<S: GroupStorage<Snapshot = SnapshotBytes>>()
    ensures { StepsHaveFrames S.stands }
{}

/// A snapshot's message has a frame exactly where the snapshot's bytes and its membership are within
/// the limits (own): only then can a node that writes it lack nothing but memory.
pub fn snapshots_have_frames()
    ensures { SnapshotsHaveFrames }
{}

/// Where a snapshot has the membership of the one that it stands for, each message of a step within
/// the limits has a frame, one with a snapshot where its bytes are at most as many as a snapshot may
/// have (own).
pub fn few_bytes_have_frames<S: GroupStorage<Snapshot = SnapshotBytes>>()
    ensures { FewBytesHaveFrames S.stands }
{}

/// A message that a frame brings without a snapshot, and that isn't refused, is within the limits of
/// steps (own): who takes a frame knows of its message what `steps_have_frames` asks.
pub fn frames_fit_steps<S: GroupStorage<Snapshot = SnapshotBytes>>()
    ensures { FramesFitSteps S.stands }
{}

/// A request for a vote has a frame, and so has a reply that a step sends. A reply that tells of a
/// part has none, nor has a snapshot's without a number or with a conflict.
pub fn messages_that_have_frames()
    ensures vote { HasFrame (asks_for_vote (vote_of 1 1 false)) }
    ensures entries { HasFrame (accepts_entries (Numbered 3) Conflict) }
    ensures part { HasFrame (accepts_entries (Numbered 3) (PartialSuccess (Some (log_id_of 1 1 1)))) → ⊥ }
    ensures snapshot { HasFrame (accepts_snapshot (Numbered 3) Success) }
    ensures notice { HasFrame (accepts_snapshot HeartBeat Success) → ⊥ }
    ensures conflict { HasFrame (accepts_snapshot (Numbered 3) Conflict) → ⊥ }
{}
