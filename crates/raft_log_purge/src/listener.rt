//! Whoever else keeps files of the log.

ghost use Rattle.std.specs.Prelude.{◌≡◌, ◌≤◌, ◌<◌, ◌+◌, ◌∷◌, [], ℕ, Option};
ghost use Rattle.raft_log_purge.specs.Heard.{Heard, HearAll};
ghost use Rattle.raft_log_purge.specs.Heard.Heard.{Appended, Applied, Begun, Gone};
ghost use Rattle.raft_log_purge.specs.Listeners.{IsLeastKept, heard_by_hook, kept_by_hook, none_waits, waiting_at};
ghost use Rattle.raft_log_covers.specs.Trace.{least};
ghost use Rattle.raft_log_records.specs.declared.file_id.LogQueue.{LogQueue};
ghost use Rattle.raft_log_records.specs.declared.file_id.LogQueue.TheVariants.{Append, Rewrite};

use raft_log_records::{FileBlockHandle, FileId, FileSeq, LogQueue};

/// Hears of a log's files, and keeps some of them (raft-engine's `EventListener`). Its
/// `hears` says what it makes of what it hears.
pub trait EventListener {
    /// The least file of a queue that it keeps.
    ghost kept: { Self → LogQueue → Option ℕ };

    /// What it is once it heard something, where it was this before.
    ghost hears: { Self → Heard → Self → Type 0 };

    /// A file is there: of a log that was opened each one, and later each new one.
    fn post_new_log_file(&mut self, id: FileId)
        ensures heard { hears self.old (Begun id) self.new };

    /// A batch was appended to a file, as a record at this place.
    fn on_append_log_file(&mut self, handle: FileBlockHandle)
        ensures heard { hears self.old (Appended handle) self.new };

    /// A batch that was appended to this file is in the memtables.
    fn post_apply_memtables(&mut self, id: FileId)
        ensures heard { hears self.old (Applied id) self.new };

    /// The least file of a queue that has to stay. None: all may go.
    fn first_file_not_ready_for_purge(&self, queue: LogQueue) -> Option<FileSeq>
        ensures { result ≡ kept self.now queue };

    /// The files of a queue up to this one are gone.
    fn post_purge(&mut self, id: FileId)
        ensures heard { hears self.old (Gone id) self.new };
}

/// The lesser of two files, if there is one.
fn lesser(file: Option<FileSeq>, other: Option<FileSeq>) -> Option<FileSeq>
    ensures { result ≡ least file other }
{
    match (file, other) {
        (Some(file), Some(other)) => Some(file.min(other)),
        (Some(file), None) => Some(file),
        (None, other) => other,
    }
}

/// The least file of a queue that a listener keeps: just those before it are kept by none.
pub fn least_kept<L: EventListener>(listeners: &[L], queue: LogQueue) -> Option<FileSeq>
    ensures { IsLeastKept L.kept queue listeners.now result }
{
    let mut least = None;
    for listener in listeners {
        least = lesser(least, listener.first_file_not_ready_for_purge(queue));
    }
    least
}

/// Tells each listener that the files of a queue up to this one are gone.
pub fn tell_gone<L: EventListener>(listeners: &mut [L], id: FileId)
    ensures told { HearAll L.hears (Gone id ∷ []) listeners.old listeners.new }
{
    for listener in listeners.iter_mut() {
        listener.post_purge(id);
    }
}

/// Tells each listener of a new file.
pub fn tell_new_file<L: EventListener>(listeners: &mut [L], id: FileId)
    ensures told { HearAll L.hears (Begun id ∷ []) listeners.old listeners.new }
{
    for listener in listeners.iter_mut() {
        listener.post_new_log_file(id);
    }
}

/// Keeps the append files whose batches aren't all in the memtables yet (raft-engine's `PurgeHook`,
/// which counts them by file): from the least one on, while any batch waits. An engine with one
/// writer has none that waits as it cleans; where several take turns, each can hold its files so.
#[derive(Clone, Copy, PartialEq, Eq, Drop)]
pub struct PurgeHook {
    /// The least file with a batch that waits.
    least: Option<FileSeq>,
    /// How many batches wait.
    waiting: u64,
}

impl PurgeHook {
    /// No batch waits.
    pub fn new() -> PurgeHook
        ensures { result ≡ none_waits }
    {
        PurgeHook {
            least: None,
            waiting: 0,
        }
    }
}

impl EventListener for PurgeHook {
    ghost kept = { kept_by_hook };

    ghost hears = { heard_by_hook };

    fn post_new_log_file(&mut self, _id: FileId) {}

    fn on_append_log_file(&mut self, handle: FileBlockHandle)
        ensures heard { heard_by_hook self.old (Appended handle) self.new }
        ensures append { handle.id.queue ≡ Append → self.new ≡ waiting_at handle.id.seq self.old }
        ensures rewrite { handle.id.queue ≡ Rewrite → self.new ≡ self.old }
    {
        if handle.id.queue == LogQueue::Append {
            self.least = lesser(self.least, Some(handle.id.seq));
            self.waiting = self.waiting.saturating_add(1);
        }
    }

    fn post_apply_memtables(&mut self, id: FileId)
        ensures heard { heard_by_hook self.old (Applied id) self.new }
        ensures last { id.queue ≡ Append → self.old.waiting ≤ 1 → self.new ≡ none_waits }
        ensures others { id.queue ≡ Append → 1 < self.old.waiting → (self.new.least ≡ self.old.least) × (self.new.waiting + 1 ≡ self.old.waiting) }
        ensures rewrite { id.queue ≡ Rewrite → self.new ≡ self.old }
    {
        if id.queue == LogQueue::Append {
            self.waiting = self.waiting.saturating_sub(1);
            if self.waiting == 0 {
                self.least = None;
            }
        }
    }

    fn first_file_not_ready_for_purge(&self, queue: LogQueue) -> Option<FileSeq> {
        match queue {
            LogQueue::Append => self.least,
            LogQueue::Rewrite => None,
        }
    }

    fn post_purge(&mut self, _id: FileId) {}
}
