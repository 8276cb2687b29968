//! Hooks of other writers, who keep append files until their batches are in the memtables.

use crate::session::Desk;
use raft_log_purge::{EventListener, PurgeHook};
use raft_log_records::{FileBlockHandle, FileId, FileSeq, LogQueue};
use raft_rows::number;

/// Adds the hook of a writer, of which a batch waits in an append file.
fn hook(desk: &mut Desk, file: FileSeq) -> bool {
    let mut hook = PurgeHook::new();
    hook.on_append_log_file(FileBlockHandle {
        id: FileId::new(LogQueue::Append, file),
        offset: 0,
        len: 0,
    });
    desk.hooks.push(hook).is_ok() || desk.told.lack_memory()
}

/// One batch of an append file comes into the memtables, of each hook.
fn apply(desk: &mut Desk, file: FileSeq) -> bool {
    for hook in &mut desk.hooks {
        hook.post_apply_memtables(FileId::new(LogQueue::Append, file));
    }
    true
}

/// Takes a step: `hook:FILE`, `applied:FILE`, or `unhook`, which lets all hooks go.
pub fn keep_files(desk: &mut Desk, parts: &[&str]) -> bool {
    match parts {
        ["hook", file] => hook(desk, number(file)),
        ["applied", file] => apply(desk, number(file)),
        ["unhook"] => {
            desk.hooks.clear();
            true
        }
        _ => false,
    }
}
