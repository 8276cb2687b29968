//! What a client can say of any log.
ghost use Rattle.std.specs.Prelude.{◌≡◌, ◌≢◌, ◌<◌, ℕ, List, [], ◌∷◌, length, OnOk, OnErr, Some, None};
ghost use Rattle.raft_content_log.specs.Leaving.{LeavesNoMore};
ghost use Rattle.raft_log_memtables.specs.Content.{Content};

use crate::content_log::ContentLog;
use raft_log_records::LogBatch;
use std::alloc::{AllocError, Global};

/// Sets a key to a value and synces it (own). Where it fails, the key has the value, or is as before.
pub fn put_key<L: ContentLog>(
    alloc: Global,
    log: &mut L,
    group: u64,
    key: Vec<u8>,
    value: Vec<u8>,
) -> Result<(), L::Fault>
    requires { 0 < length key.items }
    ensures ok { L.is_sound log.old → OnOk result ((left : Content (List ℕ)) → L.leaves log.new left → (left group).value key.items ≡ Some value.items) }
    ensures others { (left : Content (List ℕ)) (other : ℕ) → other ≢ group → L.leaves log.new left
        → (before : Content (List ℕ)) × L.leaves log.old before × ((left other) ≡ (before other)) }
{
    let mut batch = LogBatch::new(alloc);
    let Ok(()) = batch.put(group, key, value) else {
        return Err(L::Fault::from(AllocError));
    };
    log.write(&mut batch)
}
