//! What of a group lies before an append file, and what was removed from it.

ghost use Rattle.std.specs.Prelude.{◌≡◌, ◌<◌, ◌≤◌, ℕ, List, map, true, None, IsSome};
ghost use Rattle.std.specs.Prelude.{IfSome, IfNone, IfOk};
ghost use Rattle.std.specs.Prelude.{MatchOption};
ghost use Rattle.raft_log_covers.specs.Account.{IsFrom};
ghost use Rattle.raft_log_covers.specs.Marks.{is_in};
ghost use Rattle.raft_log_traces.specs.Runs.{file_in, BeginAt};
ghost use Rattle.raft_log_traces.specs.Before.{StandsFrom, IsBefore};
ghost use Rattle.raft_log_traces.specs.Traces.{trace_of, trace_in, key_file_in, names_in};

use crate::group_trace::{GroupTrace, earlier, later};
use crate::runs::Run;
use raft_log_records::FileSeq;
use std::alloc::{AllocError, Global};
use std::collections::{BTreeMap, BTreeSet};

/// The same with one more run.
fn first_with(first: Option<u128>, run: Run, file: FileSeq) -> Option<u128>
    ensures { IfSome result (λ n. (file ≤ run.file) × MatchOption first (n ≡ run.first) (λ m. n ≡ m)) }
{
    if run.file < file {
        return None;
    }
    match first {
        Some(first) => Some(first),
        None => Some(run.first),
    }
}

/// The index from which on all entries stand in a file or in later ones, if the last ones do.
fn first_from(runs: &[Run], file: FileSeq) -> Option<u128>
    ensures { IfSome result (λ first. (i : ℕ) → first ≤ i → StandsFrom file (file_in runs.now i)) }
{
    let mut first = None;
    for run in runs {
        first = first_with(first, *run, file);
    }
    first
}

/// The index from which on entries stand in runs, if any up to before another one do.
fn begin_of(runs: &[Run], next: u128) -> u128
    ensures { BeginAt result next runs.now }
{
    let mut begin = next;
    for run in runs {
        begin = earlier(run.first, begin);
    }
    begin
}

/// The names in a set.
fn names_of(alloc: Global, set: &BTreeSet<Vec<u8>>) -> Result<Vec<&[u8]>, AllocError>
    ensures { IfOk result (λ names. map (λ n. n.now) names.items ≡ names_in set.now) }
{
    let mut names = Vec::new(alloc);
    for name in set {
        names.push(name.as_slice())?;
    }
    Ok(names)
}

/// The keys that stand in files before one.
fn keys_in_files_before(
    alloc: Global,
    keys: &BTreeMap<Vec<u8>, FileSeq>,
    file: FileSeq,
) -> Result<Vec<&[u8]>, AllocError>
    ensures { IfOk result (λ names. (k : List ℕ) → IsBefore file (key_file_in keys.now k) → is_in k (map (λ n. n.now) names.items) ≡ true) }
{
    let mut names = Vec::new(alloc);
    for (key, at) in keys {
        if file <= *at {
            continue;
        }
        names.push(key.as_slice())?;
    }
    Ok(names)
}

impl GroupTrace {
    /// The least append file with a change since the group's last marks. None: its marks say all that
    /// was removed from it.
    #[tactic(auto, unfolding(crate::specs::Traces::trace_in))]
    pub fn since(&self) -> Option<FileSeq>
        ensures { result ≡ (trace_in self.now).since }
    {
        self.since
    }

    /// Whether the group was cleaned since its last marks.
    #[tactic(auto, unfolding(crate::specs::Traces::trace_in))]
    pub fn is_cleaned(&self) -> bool
        ensures { result ≡ (trace_in self.now).cleaned }
    {
        self.cleaned
    }

    /// The index of the first entry. Without entries, one past the greatest index that they ever had,
    /// which may be 2^64.
    #[tactic(auto, unfolding(crate::specs::Traces::trace_in))]
    pub fn low(&self) -> u128
        ensures { result ≡ (trace_in self.now).low }
    {
        self.low
    }

    /// The keys that were deleted since the group's last marks, and aren't there.
    #[tactic(auto, unfolding(crate::specs::Traces::trace_in))]
    pub fn deleted(&self, alloc: Global) -> Result<Vec<&[u8]>, AllocError>
        ensures { IfOk result (λ names. map (λ n. n.now) names.items ≡ (trace_in self.now).deleted) }
    {
        names_of(alloc, &self.deleted)
    }

    /// One past the entries of which none stands in an append file, as far as there are entries:
    /// those before it stand in the rewrite queue, and no other one does.
    #[tactic(auto, unfolding(crate::specs::Traces::trace_in), using(crate::proofs::BeginLemmas::end_below, crate::proofs::BeginLemmas::end_above, crate::proofs::BeginLemmas::end_within))]
    pub fn rewritten_end(&self) -> u128
        ensures below { (i : ℕ) → i < result → (trace_in self.now).entry_file i ≡ None }
        ensures above { (i : ℕ) → result ≤ i → i < (trace_in self.now).next → IsSome ((trace_in self.now).entry_file i) }
        ensures within { result ≤ (trace_in self.now).next }
    {
        if self.floor < self.next {
            later(self.floor, begin_of(&self.runs, self.next))
        } else {
            self.next
        }
    }

    /// The append file in which a key stands. None: it stands in the rewrite queue, or isn't there.
    #[tactic(auto, unfolding(crate::specs::Traces::trace_in))]
    pub fn key_file(&self, key: &[u8]) -> Option<FileSeq>
        ensures { result ≡ (trace_in self.now).key_file key.now }
    {
        self.keys.get(key).copied()
    }

    /// Which entries have to be rewritten before the files before one may go: from an index, below
    /// which none stands in an append file, up to before another one, from which on each stands in
    /// the file or in a later one. None: none has to be.
    #[tactic(auto, unfolding(crate::specs::Traces::trace_in))]
    pub fn entries_before(&self, file: FileSeq) -> Option<(u128, u128)>
        ensures some { IfSome result (λ e. e.0 < e.1) }
        ensures below { IfSome result (λ e. (i : ℕ) → i < e.0 → (trace_in self.now).entry_file i ≡ None) }
        ensures above { IfSome result (λ e. (i : ℕ) → e.1 ≤ i → i < (trace_in self.now).next → StandsFrom file ((trace_in self.now).entry_file i)) }
        ensures none { IfNone result ((i : ℕ) → i < (trace_in self.now).next → IsFrom file ((trace_in self.now).entry_file i)) }
    {
        let stop = match first_from(&self.runs, file) {
            Some(first) => earlier(first, self.next),
            None => self.next,
        };
        if self.floor < stop {
            Some((self.floor, stop))
        } else {
            None
        }
    }

    /// The keys that have to be rewritten before the files before one may go: those that stand in
    /// such a file.
    #[tactic(auto, unfolding(crate::specs::Traces::trace_in))]
    pub fn keys_before(&self, alloc: Global, file: FileSeq) -> Result<Vec<&[u8]>, AllocError>
        ensures { IfOk result (λ names. (k : List ℕ) → IsBefore file ((trace_in self.now).key_file k) → is_in k (map (λ n. n.now) names.items) ≡ true) }
    {
        keys_in_files_before(alloc, &self.keys, file)
    }
}
