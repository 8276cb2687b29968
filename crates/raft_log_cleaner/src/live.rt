//! How much of the rewrite queue still counts.

ghost use Rattle.std.specs.Map.Iter.{deref_pair};
ghost use Rattle.std.specs.Prelude.{◌≡◌, ◌+◌, ◌-◌, ◌^◌, IfOk, is_some, map, min, not};
ghost use Rattle.raft_log_cleaner.specs.Facts.{AreSoMany, TellEntries, is_rewritten};
ghost use Rattle.raft_log_cleaner.specs.Live.{AreLive, AreLiveOf, AreSoManyKeys, count_stored};
ghost use Rattle.raft_log_memtables.specs.MemTables.{content_in};
ghost use Rattle.raft_log_traces.specs.GroupTraces.{traces_in};

use crate::entries::as_index;
use crate::facts::{counts_of, end_before};
use raft_log_purge::RewriteCounts;
use raft_log_traced::TracedTables;
use raft_log_traces::GroupTraces;
use std::alloc::AllocError;

/// Of a group that is written anew: a Clean and a Compact.
const GROUP_MARKS: u64 = 2;

/// No append file has a lesser number.
const FIRST_FILE: u64 = 1;

/// How many entries of a group stand in the rewrite queue.
pub fn rewritten_of(log: &TracedTables, group: u64) -> u64
    requires { TellEntries (traces_in log.now.traces) (content_in log.now.tables) }
    ensures { AreSoMany is_rewritten (content_in log.now.tables group).entry result }
{
    let Some(trace) = log.traces.get(group) else {
        return 0;
    };
    let limit = as_index(end_before(trace, FIRST_FILE));
    counts_of(&log.tables, group, limit, 0).rewritten
}

/// Whether a key of a group stands in the rewrite queue. It is told so of one that isn't there, too.
fn is_stored(traces: &GroupTraces, group: u64, name: &[u8]) -> bool
    ensures { result ≡ not (is_some ((traces_in traces.now group).key_file name.now)) }
{
    match traces.get(group) {
        None => true,
        Some(trace) => trace.key_file(name).is_none(),
    }
}

/// How many of these keys of a group stand in the rewrite queue.
fn stored_among(traces: &GroupTraces, group: u64, found: &[(&[u8], &[u8])]) -> u64
    ensures { result ≡ count_stored (traces_in traces.now group) (map deref_pair found.now) }
{
    let mut count = 0;
    for pair in found {
        if is_stored(traces, group, pair.0) {
            count += 1;
        }
    }
    count
}

/// How many keys of a group stand in the rewrite queue.
fn stored_keys(log: &TracedTables, group: u64) -> Result<u64, AllocError>
    ensures { IfOk result (AreSoManyKeys (content_in log.now.tables group).value (traces_in log.now.traces group)) }
{
    let found = log.tables.scan(group, None, None, false)?;
    Ok(stored_among(&log.traces, group, &found))
}

/// How many entries and keys of a group stand in the rewrite queue.
fn live_in(log: &TracedTables, group: u64) -> Result<u128, AllocError>
    requires { TellEntries (traces_in log.now.traces) (content_in log.now.tables) }
    ensures { IfOk result (AreLiveOf (content_in log.now.tables group) (traces_in log.now.traces group)) }
{
    let entries = rewritten_of(log, group);
    let keys = stored_keys(log, group)?;
    Ok(entries as u128 + keys as u128)
}

/// So many and so many more, up to the greatest count.
fn sum_of(before: u64, more: u128) -> u64
    ensures { result ≡ min (before + more) (2 ^ 64 - 1) }
{
    let sum = (before as u128).saturating_add(more);
    sum.min(u64::MAX as u128) as u64
}

/// How many entries and keys of all groups stand in the rewrite queue, and two marks of each group:
/// so much it has once it is written anew (own). The only error is want of memory.
pub fn live_of(log: &TracedTables) -> Result<RewriteCounts, AllocError>
    requires { TellEntries (traces_in log.now.traces) (content_in log.now.tables) }
    ensures { IfOk result (AreLive log.now) }
{
    let groups = log.tables.groups()?;
    let mut sets = 0;
    for group in &groups {
        let more = live_in(log, *group)?;
        sets = sum_of(sets, more);
    }
    let marks = (groups.len() as u64).saturating_mul(GROUP_MARKS);
    Ok(RewriteCounts { sets, marks })
}
