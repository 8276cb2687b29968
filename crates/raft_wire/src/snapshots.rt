//! Bodies of snapshots, alone as they are stored.
ghost use Rattle.std.specs.Prelude.{◌≡◌, None, Ok, OnOk, IfOk};
ghost use Rattle.raft_messages.specs.declared.memberships.SnapshotBytes.{SnapshotBytes as Snapshot};
ghost use Rattle.raft_wire.specs.Reader.{Gives, all_of};
ghost use Rattle.raft_wire.specs.Bodies.{snapshot_with, spelled_snapshot, FitsSnapshot, snapshot_at};
ghost use Rattle.raft_wire.specs.Frames.{fault_of_snapshot};
ghost use Rattle.raft_wire.specs.Writing.{Writes};

use crate::error::{FrameError, FrameFault};
use crate::reading::snapshot_of;
use crate::writing::{fault_of_snapshot, put_snapshot};
use raft_group_step::SnapshotMeta;
use raft_messages::SnapshotBytes;
use raft_state::{BasicNode, Bytes};
use std::alloc::{AllocError, Global};

// The body that takes all of the bytes.
#[tactic(auto, unfolding(crate::specs::Reader::all_of))]
fn whole_snapshot(alloc: Global, bytes: &[u8]) -> Result<SnapshotBytes, FrameError>
    ensures { Gives (λ x. x) result (all_of snapshot_at bytes.now) }
{
    let (snapshot, rest) = snapshot_of(alloc, bytes)?;
    if !rest.is_empty() {
        return Err(FrameError::Fault(FrameFault::TrailingBytes));
    }
    Ok(snapshot)
}

/// Reads the body of a snapshot that takes all of the bytes, as `write_snapshot_body` wrote it: what
/// it covers, and the machine's bytes (own; frames have it by the same grammar). Refused are bytes that
/// are no such body, by the first fault from left to right (`Fault`), and want of memory (`Memory`).
pub fn read_snapshot_body(alloc: Global, bytes: &[u8]) -> Result<SnapshotBytes, FrameError>
    // What is read is spelled so, each byte of it.
    ensures found { IfOk result (λ s. FitsSnapshot s × (bytes.now ≡ spelled_snapshot s)) }
    // What is spelled so is read, unless memory runs out.
    ensures only { (s : Snapshot) → FitsSnapshot s → bytes.now ≡ spelled_snapshot s → Gives (λ x. x) result (Ok s) }
    // Which fault it is.
    ensures exact { Gives (λ x. x) result (all_of snapshot_at bytes.now) }
{
    whole_snapshot(alloc, bytes)
}

// The bytes of a body that is within its limits.
fn snapshot_bytes(
    alloc: Global,
    meta: &SnapshotMeta<u64, BasicNode>,
    bytes: &Bytes,
) -> Result<Vec<u8>, AllocError>
    requires { fault_of_snapshot meta.now.last_membership bytes.now ≡ None }
    ensures items { IfOk result (λ v. v.items ≡ spelled_snapshot (snapshot_with meta.now bytes.now)) }
    ensures fits { OnOk result (FitsSnapshot (snapshot_with meta.now bytes.now)) }
{
    let mut out = Vec::new(alloc);
    put_snapshot(&mut out, meta, bytes)?;
    Ok(out)
}

/// The one spelling of a snapshot's body: what it covers, and the machine's bytes (own). Refused are a
/// membership and bytes past their limits (`TooLong`), and then want of memory (`Memory`).
pub fn write_snapshot_body(
    alloc: Global,
    meta: &SnapshotMeta<u64, BasicNode>,
    bytes: &Bytes,
) -> Result<Vec<u8>, FrameError>
    ensures written { Writes (fault_of_snapshot meta.now.last_membership bytes.now) (spelled_snapshot (snapshot_with meta.now bytes.now)) result }
    ensures fits { OnOk result (FitsSnapshot (snapshot_with meta.now bytes.now)) }
    // What was written is read again as this snapshot.
    ensures found { IfOk result (λ v. all_of snapshot_at v.items ≡ Ok (snapshot_with meta.now bytes.now)) }
{
    if let Some(fault) = fault_of_snapshot(meta, bytes) {
        return Err(FrameError::Fault(fault));
    }
    Ok(snapshot_bytes(alloc, meta, bytes)?)
}
