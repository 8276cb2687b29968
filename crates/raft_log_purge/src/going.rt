//! Files of the append queue that go.

ghost use Rattle.std.specs.Prelude.{◌≡◌, ◌≤◌, ◌<◌, ℕ, IfErr, IfSome, OnOk};
ghost use Rattle.raft_log_covers.specs.Trace.{greater};
ghost use Rattle.raft_log_disk.specs.Cause.{RefusesNoMore};
ghost use Rattle.raft_log_pipe.specs.Caused.{IsPurgeFault};
ghost use Rattle.raft_log_pipe.specs.Others.{KeepsOthers};
ghost use Rattle.raft_log_pipe.specs.Pipe.{IsPipe, first_of};
ghost use Rattle.raft_log_pipes.specs.Calls.{IsPurgeOf};
ghost use Rattle.raft_log_pipes.specs.Kept.{KeepSettings};
ghost use Rattle.raft_log_pipes.specs.Pipes.{ArePipes, IsAsBefore, pipe_of};
ghost use Rattle.raft_log_records.specs.declared.file_id.LogQueue.TheVariants.{Append, Rewrite};
ghost use Rattle.raft_log_traces.specs.Files.{IsKeptFrom, KeepsFrom};
ghost use Rattle.raft_log_traces.specs.GroupTraces.{traces_in};
ghost use Rattle.raft_log_purge.specs.Going.{GoesToNeeded, IsGoingFault, MayGoBefore};

use raft_log_files::{Error, FileSystem};
use raft_log_pipes::DualPipes;
use raft_log_records::{FileSeq, LogQueue};
use raft_log_traces::GroupTraces;

/// The lesser of a file and another one, if there is one.
fn at_most(file: FileSeq, other: Option<FileSeq>) -> FileSeq
    ensures file { result ≤ file }
    ensures other { IfSome other (λ o. result ≤ o) }
    ensures greatest { (n : ℕ) → n ≤ file → IfSome other (λ o. n ≤ o) → n ≤ result }
{
    match other {
        Some(other) => file.min(other),
        None => file,
    }
}

/// The first file of the append queue that has to stay, where this one is written: all before it may
/// go. Neither a group nor the barrier, which whoever else keeps files names, keeps one of them. One of
/// them keeps that file, or it is the one that is written.
#[tactic(auto, using(crate::proofs::GoingLemmas::kept_from_less))]
pub fn first_kept(active: FileSeq, traces: &GroupTraces, barrier: Option<FileSeq>) -> FileSeq
    ensures may_go { MayGoBefore (traces_in traces.now) barrier result }
    ensures active { result ≤ active }
    ensures last { (n : ℕ) → MayGoBefore (traces_in traces.now) barrier n → n ≤ active → n ≤ result }
{
    let of_groups = at_most(active, traces.min_file_seq());
    at_most(of_groups, barrier)
}

/// The greater of two files.
fn at_least(file: FileSeq, other: FileSeq) -> FileSeq
    ensures from { file ≤ result }
    ensures other { file < result → result ≡ other }
    ensures is { result ≡ greater file other }
{
    if file < other { other } else { file }
}

/// Lets all files of the append queue go that may go, and answers how many went. The rewrite queue
/// stays as it is. After an `Err` some of them have gone, the first ones.
pub fn let_go<F: FileSystem>(
    files: &mut F,
    pipes: &mut DualPipes,
    traces: &GroupTraces,
    barrier: Option<FileSeq>,
) -> Result<u64, Error>
    requires { IsPipe (pipe_of pipes.old Append) (F.disk files.old) }
    ensures call { (seq : ℕ) × (first_of (pipe_of pipes.old Append) < seq → MayGoBefore (traces_in traces.now) barrier seq)
        × IsPurgeOf (pipe_of pipes.old Append) (F.disk files.old) (pipe_of pipes.new Append) (F.disk files.new) seq result
        × IfErr result (λ e. IsPurgeFault (pipe_of pipes.old Append) (F.disk files.old) seq (F.meter files.old) (F.meter files.new) e) }
    ensures gone { OnOk result (GoesToNeeded (traces_in traces.now) barrier (pipe_of pipes.old Append) (pipe_of pipes.new Append)) }
    ensures set { KeepSettings pipes.old pipes.new }
    ensures both { ArePipes pipes.old (F.disk files.old) → ArePipes pipes.new (F.disk files.new) }
    ensures others { KeepsOthers Append (F.disk files.old) (F.disk files.new) }
    ensures other { IsAsBefore (pipe_of pipes.old Rewrite) (F.disk files.old) (pipe_of pipes.new Rewrite) (F.disk files.new) }
    ensures later { RefusesNoMore (F.is_bounded files.old) (F.is_bounded files.new) (F.meter files.old) (F.meter files.new) }
    ensures cause { IfErr result (λ e. IsGoingFault (F.meter files.old) (F.meter files.new) e) }
{
    let (first, active) = pipes.file_span(LogQueue::Append);
    let kept = first_kept(active, traces, barrier);
    pipes.purge_to(files, LogQueue::Append, at_least(first, kept))
}
