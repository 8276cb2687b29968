//! What a cleaning of the append queue does with a group.

ghost use Rattle.std.specs.Prelude.{◌≡◌, ◌<◌, ◌≤◌, ◌+◌, ◌↔◌, IsTrue};
ghost use Rattle.raft_log_traces.specs.Before.{IsBefore};
ghost use Rattle.raft_log_purge.specs.Choice.{IsLeft, IsOld, IsRewritten, IsTold};

use crate::watermarks::Watermarks;
use raft_log_records::FileSeq;

/// A group with so many entries is told to compact before they are rewritten.
const MANY_ENTRIES: u64 = 32;

/// So many times in a row a group is told to compact and left alone.
const MOST_REPORTS: u32 = 9;

/// What cleaning knows of a group.
#[derive(Clone, Copy, PartialEq, Eq)]
pub struct GroupFacts {
    /// The least append file that is kept for it.
    pub least_file: Option<FileSeq>,
    /// How many of its entries stand in the rewrite queue.
    pub rewritten: u64,
    /// How many of its entries stand in append files up to the rewrite mark, or in the rewrite queue.
    pub up_to_mark: u64,
    /// How many times in a row it was told to compact and left alone.
    pub reports: u32,
}

/// What is done with a group.
#[derive(Clone, Copy, PartialEq, Eq)]
pub struct Choice {
    /// Whoever writes the group is told to compact it.
    pub is_told: bool,
    /// It is told, and left alone once more.
    pub is_left: bool,
    /// What it has in files up to the rewrite mark is rewritten.
    pub is_rewritten: bool,
}

/// Whether there is a file, and it comes before another one.
fn is_before(file: Option<FileSeq>, other: u128) -> bool
    ensures { IsTrue result ↔ IsBefore other file }
{
    match file {
        Some(file) => (file as u128) < other,
        None => false,
    }
}

/// Whether a group has something in the oldest files, or entries in the rewrite queue.
fn is_old(facts: GroupFacts, marks: Watermarks) -> bool
    ensures { IsTrue result ↔ IsOld facts marks }
{
    facts.rewritten > 0 || is_before(facts.least_file, marks.compact as u128)
}

/// Whether a group is told to compact.
fn is_told(facts: GroupFacts, marks: Watermarks) -> bool
    ensures { IsTrue result ↔ IsTold facts marks }
{
    is_old(facts, marks) && facts.up_to_mark >= MANY_ENTRIES
}

/// Whether few of a group's entries up to the mark stand in the append queue.
fn are_few(facts: GroupFacts) -> bool
    ensures { IsTrue result ↔ (facts.up_to_mark < 32 + facts.rewritten) }
{
    (facts.up_to_mark as u128) < MANY_ENTRIES as u128 + facts.rewritten as u128
}

/// What a cleaning does with a group (raft-engine's `rewrite_or_compact_append_queue`). An old one
/// with many entries is told to compact, and left alone nine times in a row; in the tenth it is told
/// and rewritten. Any other is rewritten where few of its entries stand in the append queue up to the
/// mark.
pub fn choice_of(facts: GroupFacts, marks: Watermarks) -> Choice
    ensures told { IsTrue result.is_told ↔ IsTold facts marks }
    ensures left { IsTrue result.is_left ↔ IsLeft facts marks }
    ensures rewritten { IsTrue result.is_rewritten ↔ IsRewritten facts marks }
{
    let is_told = is_told(facts, marks);
    let is_left = is_told && facts.reports < MOST_REPORTS;
    let is_due = if is_told { !is_left } else { are_few(facts) };
    Choice {
        is_told,
        is_left,
        is_rewritten: is_due && is_before(facts.least_file, marks.rewrite as u128 + 1),
    }
}
