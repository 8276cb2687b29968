//! The append files of a group's entries, as runs of entries in one file.

ghost use Rattle.std.specs.Prelude.{◌≡◌, ◌≤◌, ◌<◌, ◌∷◌, ℕ, List, Some, if◌then◌else◌, nat_le};
ghost use Rattle.std.specs.Prelude.{OnOk, OnErr};
ghost use Rattle.std.specs.Bool.{OnTrue, OnFalse};
ghost use Rattle.raft_log_traces.specs.Runs.{file_in, EndsFrom, EndsBefore, EndsIn, SecondBy, NoSecondBy};

use raft_log_records::FileSeq;
use std::alloc::AllocError;

/// Entries from an index on, up to the next run's, which stand in one append file.
#[derive(Clone, Copy, PartialEq, Eq)]
pub(crate) struct Run {
    /// One past the greatest index is no `u64`, so ends of lists are wider.
    pub first: u128,
    pub file: FileSeq,
}

/// Whether the last run begins at an index or behind it.
fn ends_from(runs: &[Run], first: u128) -> bool
    ensures yes { OnTrue result (EndsFrom first runs.now) }
    ensures no { OnFalse result (EndsBefore first runs.now) }
{
    match runs {
        [.., last] => first <= last.first,
        [] => false,
    }
}

/// Whether the last run stands in a file.
fn ends_in(runs: &[Run], file: FileSeq) -> bool
    ensures { OnTrue result (EndsIn file runs.now) }
{
    match runs {
        [.., last] => last.file == file,
        [] => false,
    }
}

/// From an index on all entries stand in a file. A file has one run, however often entries come to
/// it one behind the other.
pub(crate) fn put_from(runs: &mut Vec<Run>, first: u128, file: FileSeq) -> Result<(), AllocError>
    ensures ok { OnOk result ((i : ℕ) → file_in runs.new.items i
        ≡ (if nat_le first i then Some file else file_in runs.old.items i)) }
    ensures err { OnErr result (runs.new.items ≡ runs.old.items) }
{
    runs.reserve(1)?;
    while ends_from(runs, first) {
        runs.pop();
    }
    if ends_in(runs, file) {
        return Ok(());
    }
    runs.push(Run { first, file })?;
    Ok(())
}

/// Whether the second run begins by an index.
fn second_by(runs: &[Run], floor: u128) -> bool
    ensures yes { OnTrue result (SecondBy floor runs.now) }
    ensures no { OnFalse result (NoSecondBy floor runs.now) }
{
    match runs {
        [_, second, ..] => second.first <= floor,
        _ => false,
    }
}

/// Forgets the runs that end before an index, or at it.
pub(crate) fn drop_before(runs: &mut Vec<Run>, floor: u128)
    ensures kept { (i : ℕ) → floor ≤ i → file_in runs.new.items i ≡ file_in runs.old.items i }
    ensures forgotten { NoSecondBy floor runs.new.items }
{
    while second_by(runs, floor) {
        runs.remove(0);
    }
}
