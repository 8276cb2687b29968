//! What a node of a cluster asks of its log.
ghost use Rattle.std.specs.Prelude.{◌≡◌, ℕ, List, Option, IfErr, IfOk};
ghost use Rattle.std.specs.Thread.{IsSync};
ghost use Rattle.raft_cluster_events.specs.declared.event.CrashChoice.{CrashChoice};
ghost use Rattle.raft_cluster_events.specs.declared.outcome.CrashRefusal.{CrashRefusal};
ghost use Rattle.raft_cluster_events.specs.declared.outcome.StopCause.{StopCause};
ghost use Rattle.raft_content_log.specs.Leaving.{LeavesOnly};
ghost use Rattle.raft_log_memtables.specs.Content.{Content, nothing};
ghost use Rattle.raft_node_logs.specs.Opening.{FindsSame, IsRefusedOpening};

use raft_cluster_events::{CrashChoice, CrashRefusal, Stop, StopCause};
use raft_content_log::{CleanLog, CrashLog};
use std::alloc::{AllocError, Global};
use std::thread::Threads;

/// A log, or a node over one, that wasn't opened, and why.
#[derive(Drop)]
pub struct Unopened<F> {
    pub stop: Stop,
    /// What it is to be opened from again.
    pub files: F,
}

/// A log that a node of a cluster stands on (own). While the node is down its files are there: whatever
/// the log is opened from.
pub trait NodeLog: CleanLog + CrashLog<Choice: Drop> {
    /// What is there of the log while the node is down.
    type Files: Drop;

    /// What its files are to be like.
    type Settings: Drop;

    /// An opening of the files finds this content.
    ghost found: { Self.Files → Content (List ℕ) → Type 0 };

    /// An opening of the log's files as they are finds this content.
    ghost finds: { Self → Content (List ℕ) → Type 0 };

    /// Files aren't opened for this cause, and are so then.
    ghost unopened: { Self.Files → StopCause → Self.Files → Type 0 };

    /// The log that an opening makes of files: it has their fuse, as far as the opening's calls left it.
    ghost opens: { Self.Files → Self → Type 0 };

    /// Files that refuse nothing.
    ghost fresh: { Self.Files → Type 0 };

    /// The files of a log, as they are.
    ghost hands_back: { Self → Self.Files → Type 0 };

    /// What files are behind a fuse: they refuse each changing call from that one on.
    ghost fused_files: { Self.Files → Option ℕ → Self.Files → Type 0 };

    /// Why a node stops at a fault of its log.
    ghost cause: { Self.Fault → StopCause };

    /// What a crash leaves, in the log's own words.
    ghost chooses: { CrashChoice → Self.Choice → Type 0 };

    /// Why it doesn't crash so, in a cluster's words.
    ghost refusal: { Self.Refusal → CrashRefusal };

    /// Files that have nothing yet, and refuse nothing.
    fn new_files(alloc: Global, settings: &Self::Settings) -> Result<Self::Files, AllocError>
        ensures fresh { IfOk result (λ files. fresh files) }
        ensures none { IfOk result (λ files. (content : Content (List ℕ)) → found files content → content ≡ nothing) };

    /// Files that stand for others while these are opened. Takes no memory.
    fn no_files(alloc: Global) -> Self::Files;

    /// The log of these files, which so many workers read, on threads that the handle makes (as a
    /// cluster's node is opened). It answers what is found of them, and leaves nothing else. Where they
    /// aren't opened nobody waited, there is a cause, and nothing is found of them then that wasn't found
    /// before.
    fn open<R: Threads + Sync>(
        rt: &R,
        alloc: Global,
        files: Self::Files,
        workers: u64,
    ) -> Result<Self, Unopened<Self::Files>>
    where
        Self: Sized,
        requires shared { IsSync R.row }
        ensures sound { IfOk result (λ log. Self.ContentLog.is_sound log) }
        ensures found { IfOk result (λ log. found files (Self.ContentLog.answers log)) }
        ensures leaves { IfOk result (λ log. LeavesOnly (Self.ContentLog.leaves log) (Self.ContentLog.answers log)) }
        ensures opens { IfOk result (λ log. opens files log) }
        ensures err { IfErr result (λ refused. IsRefusedOpening found unopened files refused.stop refused.files) };

    /// The files, handed back as they are with no call on them, as where a machine stops. What an
    /// opening finds of them the log left.
    fn into_files(self) -> Self::Files
        ensures hands_back { hands_back self result }
        ensures finds { (content : Content (List ℕ)) → found result content → finds self content }
        ensures left { (content : Content (List ℕ)) → found result content → Self.ContentLog.leaves self content };

    /// The files of a log that isn't open refuse each changing call from this one on, the first one
    /// counted as 1; with none they refuse no call any more. Nothing else changes.
    fn fuse_files(files: &mut Self::Files, first_refused: Option<u64>)
        ensures fused { fused_files files.old first_refused files.new }
        ensures same { FindsSame found files.old files.new };

    /// Why a node stops at this fault.
    fn cause_of(fault: Self::Fault) -> StopCause
        ensures { result ≡ cause fault };

    /// What a crash leaves, in the log's own words. An `Err` is want of memory.
    fn choice_of(alloc: Global, asked: &CrashChoice) -> Result<Self::Choice, AllocError>
        ensures { IfOk result (λ chosen. chooses asked.now chosen) };

    /// Why it doesn't crash so, in a cluster's words.
    fn refusal_of(why: Self::Refusal) -> CrashRefusal
        ensures { result ≡ refusal why };

    /// What is found of the files behind a crash, the log left before it.
    ghost crashed_left: { (old new : Self) (choice : Self.Choice) (content : Content (List ℕ)) → Self.CrashLog.crashed old choice new
        → finds new content → Self.ContentLog.leaves old content };
}
