//! The calls, each behind a function without clauses: a proof that carries the clauses of several
//! calls takes long.

use raft_messages::{GroupEntry, SnapshotBytes};
use raft_wire::{
    Fed, Feeder, Frame, FrameError, read_entry, read_snapshot_body, write_entry, write_frame,
    write_snapshot_body,
};
use std::alloc::Global;

pub fn new_feeder(alloc: Global) -> Feeder {
    Feeder::new(alloc)
}

pub fn feed(feeder: &mut Feeder, piece: &[u8]) -> Fed {
    feeder.feed(piece)
}

pub fn has_failed(feeder: &Feeder) -> bool {
    feeder.failed()
}

pub fn room_of(feeder: &Feeder) -> usize {
    feeder.room()
}

pub fn reset(feeder: &mut Feeder) {
    feeder.reset();
}

pub fn written(alloc: Global, frame: &Frame) -> Result<Vec<u8>, FrameError> {
    write_frame(alloc, frame)
}

pub fn written_entry(alloc: Global, entry: &GroupEntry) -> Result<Vec<u8>, FrameError> {
    write_entry(alloc, entry)
}

pub fn entry_of(alloc: Global, bytes: &[u8]) -> Result<GroupEntry, FrameError> {
    read_entry(alloc, bytes)
}

pub fn written_snapshot(alloc: Global, snapshot: &SnapshotBytes) -> Result<Vec<u8>, FrameError> {
    write_snapshot_body(alloc, &snapshot.meta, &snapshot.bytes)
}

pub fn snapshot_of(alloc: Global, bytes: &[u8]) -> Result<SnapshotBytes, FrameError> {
    read_snapshot_body(alloc, bytes)
}

/// What a new feeder makes of a stream in one piece.
pub fn fed_at_once(alloc: Global, stream: &[u8]) -> Fed {
    let mut feeder = new_feeder(alloc);
    feed(&mut feeder, stream)
}

/// Whether a value is written as these bytes.
pub fn are(written: Result<Vec<u8>, FrameError>, bytes: &[u8]) -> bool {
    match written {
        Ok(written) => written.as_slice() == bytes,
        Err(_) => false,
    }
}
