//! Which append files are kept.

ghost use Rattle.std.specs.Prelude.{◌≡◌, ◌≤◌, ◌<◌, ◌-◌, ◌∷◌, ◌==◌, ℕ, List, length, drop, Some, false};
ghost use Rattle.std.specs.Prelude.{IfSome, IfOk};
ghost use Rattle.std.specs.Bool.{OnTrue, OnFalse};
ghost use Rattle.std.specs.List.{list_any};
ghost use Rattle.raft_log_covers.specs.Account.{IsFrom};
ghost use Rattle.raft_log_traces.specs.Before.{IsBefore};
ghost use Rattle.std.specs.BTreeMap.{values};
ghost use Rattle.raft_log_traces.specs.Files.{KeepsFrom, IsKeptFrom, least_with, AllKeepFrom};
ghost use Rattle.raft_log_traces.specs.Runs.{file_in};
ghost use Rattle.raft_log_traces.specs.Traces.{key_file_in, trace_in, traces_at};
ghost use Rattle.raft_log_traces.specs.GroupTraces.{traces_in};

use crate::group_trace::{GroupTrace, earlier, later, lesser};
use crate::group_traces::{GroupTraces, TraceMap};
use crate::runs::Run;
use raft_log_records::FileSeq;
use std::alloc::{AllocError, Global};
use std::collections::BTreeMap;

/// Whether a run has an index from one on, up to before another one.
fn has_within(run: Run, floor: u128, end: u128) -> bool
    ensures yes { OnTrue result ((i : ℕ) × (floor ≤ i) × (run.first ≤ i) × (i < end)) }
    ensures no { OnFalse result ((i : ℕ) → floor ≤ i → run.first ≤ i → end ≤ i) }
{
    later(run.first, floor) < end
}

/// The run before a place in a list.
fn run_before(runs: &[Run], at: usize) -> Run
    requires some { 0 < at }
    requires within { at ≤ length runs.now }
    ensures { drop (at - 1) runs.now ≡ result ∷ drop at runs.now }
{
    runs[at - 1]
}

/// The least file of the entries from an index on, up to before another one.
fn least_of_entries(runs: &[Run], floor: u128, next: u128) -> Option<FileSeq>
    ensures kept { (n : ℕ) → IsFrom n result → (i : ℕ) → floor ≤ i → i < next → IsFrom n (file_in runs.now i) }
    // Of that file there is an entry.
    ensures reached { IfSome result (λ file. (i : ℕ) × (floor ≤ i) × (i < next) × (file_in runs.now i ≡ Some file)) }
{
    let mut least = None;
    let mut end = next;
    let mut at = runs.len();
    while at > 0 {
        let run = run_before(runs, at);
        if has_within(run, floor, end) {
            least = lesser(least, Some(run.file));
        }
        end = earlier(end, run.first);
        at -= 1;
    }
    least
}

/// The least of a file and the files of keys.
fn least_with_keys(file: Option<FileSeq>, keys: &BTreeMap<Vec<u8>, FileSeq>) -> Option<FileSeq>
    ensures is { result ≡ least_with file (values keys.now) }
    // No later file is before none of them.
    ensures least { (n : ℕ) → IsFrom n file → ((k : List ℕ) → IsFrom n (key_file_in keys.now k)) → IsFrom n result }
{
    let mut least = file;
    for other in keys.values() {
        least = lesser(least, Some(*other));
    }
    least
}

impl GroupTrace {
    /// The least append file that is kept for the group: the files before it may go without a loss
    /// to this group. None: all may.
    #[tactic(auto, unfolding(crate::specs::Traces::trace_in))]
    pub fn least_file(&self) -> Option<FileSeq>
        ensures kept { IsKeptFrom result (trace_in self.now) }
        // No later file would do.
        ensures least { (n : ℕ) → KeepsFrom n (trace_in self.now) → IsFrom n result }
    {
        let removed = lesser(self.since, self.tail);
        let first = later(self.floor, self.low);
        let entries = least_of_entries(&self.runs, first, self.next);
        least_with_keys(lesser(removed, entries), &self.keys)
    }
}

/// The least file of all groups.
fn least_of_traces(traces: &TraceMap) -> Option<FileSeq>
    ensures kept { (n : ℕ) → IsFrom n result → AllKeepFrom n (values traces.now) }
    ensures least { (n : ℕ) → ((group : ℕ) → KeepsFrom n (traces_at traces.now group)) → IsFrom n result }
{
    let mut least = None;
    for trace in traces.values() {
        least = lesser(least, trace.least_file());
    }
    least
}

/// Whether a file, if there is one, comes before another one.
fn is_before(file: Option<FileSeq>, other: FileSeq) -> bool
    ensures no { OnFalse result (IsFrom other file) }
    ensures yes { OnTrue result (IsBefore other file) }
{
    match file {
        Some(file) => file < other,
        None => false,
    }
}

/// The groups that keep a file before one.
fn groups_before(alloc: Global, traces: &TraceMap, file: FileSeq) -> Result<Vec<u64>, AllocError>
    ensures { IfOk result (λ ids. (group : ℕ) → list_any (λ id. id == group) ids.items ≡ false → KeepsFrom file (traces_at traces.now group)) }
{
    let mut ids = Vec::new(alloc);
    for (raft_group_id, trace) in traces {
        if !is_before(trace.least_file(), file) {
            continue;
        }
        ids.push(*raft_group_id)?;
    }
    Ok(ids)
}

impl GroupTraces {
    /// The groups of which something has to be written before the files before one may go, rising.
    /// Each other group keeps none of them.
    #[tactic(auto, unfolding(crate::specs::GroupTraces::traces_in))]
    pub fn groups_before(&self, file: FileSeq) -> Result<Vec<u64>, AllocError>
        ensures { IfOk result (λ ids. (group : ℕ) → list_any (λ id. id == group) ids.items ≡ false → KeepsFrom file (traces_in self.now group)) }
    {
        groups_before(self.alloc, &self.traces, file)
    }

    /// The least append file that is kept for any group (raft-engine's `min_file_seq`). Those before
    /// it may go. None: all may.
    #[tactic(auto, unfolding(crate::specs::GroupTraces::traces_in))]
    pub fn min_file_seq(&self) -> Option<FileSeq>
        ensures kept { (group : ℕ) → IsKeptFrom result (traces_in self.now group) }
        // No later file would do.
        ensures least { (n : ℕ) → ((group : ℕ) → KeepsFrom n (traces_in self.now group)) → IsFrom n result }
    {
        least_of_traces(&self.traces)
    }
}
