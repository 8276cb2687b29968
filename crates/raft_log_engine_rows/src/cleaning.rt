//! Cleanings of an engine.

use crate::session::{Desk, MemoryEngine};
use raft_log_engine::EngineFault;
use raft_log_records::LogQueue;

/// Cleans both queues where they are due: the groups that are told to compact, and whether an
/// append file went.
pub fn expire(engine: &mut MemoryEngine, desk: &mut Desk) -> Result<(Vec<u64>, bool), EngineFault> {
    let (before, _) = engine.file_span(LogQueue::Append);
    let told = engine.purge_expired_files_with(&mut desk.hooks);
    let (behind, _) = engine.file_span(LogQueue::Append);
    match told {
        Ok(groups) => Ok((groups, before < behind)),
        Err(fault) => Err(fault),
    }
}

/// Takes a step: `tidy` cleans the append queue, `anew` writes the rewrite queue anew, `expire`
/// cleans both where they are due, `stale` lets go what nothing needs, and `sync` syncs.
pub fn clean(engine: &mut MemoryEngine, desk: &mut Desk, parts: &[&str]) -> bool {
    match parts {
        ["tidy"] => {
            let cleaned = engine.clean_append_queue_with(&mut desk.hooks);
            desk.told.done("Tidied", cleaned)
        }
        ["anew"] => desk.told.done("Rewritten", engine.clean_rewrite_queue()),
        ["expire"] => {
            let expired = expire(engine, desk);
            desk.told.value("Cleaned", expired)
        }
        ["stale"] => desk.told.value("Went", engine.must_purge_all_stale(None)),
        ["sync"] => desk.told.done("Synced", engine.sync()),
        _ => false,
    }
}
