//! What the log engine keeps of groups for cleaning: items that are written to append files or found
//! by an opening, and which marks, entries, keys and files the traces then tell.

use raft_log_files::Error;
use raft_log_marks::{MarkError, add_marks};
use raft_log_records::{FileBlockHandle, FileId, LogBatch, LogQueue};
use raft_log_recovery::{NewMachine, ReplayMachine};
use raft_log_traced::TracedReplay;
use raft_log_traces::GroupTraces;
use raft_rows::{Answer, bytes, number};
use std::alloc::{AllocError, Global};
use std::mem;

/// The batch is written to an append file.
fn apply(traces: &mut GroupTraces, file: u64, batch: &mut LogBatch) -> Result<(), AllocError> {
    traces.apply(file, &batch.drain().items)
}

/// The batch is found in a file of a queue.
fn replay(
    machine: &mut TracedReplay,
    queue: LogQueue,
    file: u64,
    batch: &mut LogBatch,
) -> Result<(), Error> {
    let handle = FileBlockHandle {
        id: FileId::new(queue, file),
        offset: 0,
        len: 0,
    };
    machine.replay(batch.drain(), handle)
}

/// Makes traces of all that was found.
fn open(
    machine: &mut TracedReplay,
    traces: &mut GroupTraces,
    alloc: Global,
    first: u64,
) -> Result<(), Error> {
    let found = mem::replace(machine, TracedReplay::new_machine(alloc));
    *traces = found.finish(first)?.traces;
    Ok(())
}

/// The answer to a row that puts the batch into traces.
pub fn traced(
    traces: &mut GroupTraces,
    machine: &mut TracedReplay,
    batch: &mut LogBatch,
    alloc: Global,
    words: &[&str],
) -> Option<Answer> {
    let told = match *words {
        ["traced", file] => {
            return Some(Answer::shown(alloc, &apply(traces, number(file), batch)));
        }
        ["found", "append", file] => replay(machine, LogQueue::Append, number(file), batch),
        ["found", "rewrite", file] => replay(machine, LogQueue::Rewrite, number(file), batch),
        ["opened", first] => open(machine, traces, alloc, number(first)),
        _ => return cleaned(traces, alloc, words),
    };
    Some(Answer::shown(alloc, &told))
}

// ---- what cleaning writes

/// The marks of a group as a batch, if anything was written of it.
fn marks(
    traces: &GroupTraces,
    alloc: Global,
    group: u64,
    is_there: bool,
    batch: &mut LogBatch,
) -> Result<(), MarkError> {
    if let Some(trace) = traces.get(group) {
        add_marks(alloc, batch, group, is_there, trace)?;
    }
    Ok(())
}

fn set_marked(traces: &mut GroupTraces, group: u64, is_there: bool) {
    if is_there {
        traces.set_marked(group);
    } else {
        traces.forget(group);
    }
}

fn mark(traces: &mut GroupTraces, alloc: Global, group: u64, is_there: bool) -> Answer {
    let mut batch = LogBatch::new(alloc);
    match marks(traces, alloc, group, is_there, &mut batch) {
        Ok(()) => {
            set_marked(traces, group, is_there);
            Answer::shown(alloc, &batch.items())
        }
        Err(error) => Answer::shown(alloc, &error),
    }
}

fn rewrite(traces: &mut GroupTraces, group: u64, stop: u64) -> Result<(), AllocError> {
    traces.set_rewritten(group, stop as u128);
    Ok(())
}

fn rewrite_key(
    traces: &mut GroupTraces,
    alloc: Global,
    group: u64,
    key: &str,
) -> Result<(), AllocError> {
    traces.set_key_rewritten(group, &bytes(alloc, key)?);
    Ok(())
}

/// The answer to a row that says what cleaning wrote of a group.
fn cleaned(traces: &mut GroupTraces, alloc: Global, words: &[&str]) -> Option<Answer> {
    let told = match *words {
        ["marks", group] => return Some(mark(traces, alloc, number(group), true)),
        ["mark-gone", group] => return Some(mark(traces, alloc, number(group), false)),
        ["rewritten", group, stop] => rewrite(traces, number(group), number(stop)),
        ["key-rewritten", group, key] => rewrite_key(traces, alloc, number(group), key),
        _ => return asked(traces, alloc, words),
    };
    Some(Answer::shown(alloc, &told))
}

// ---- what is kept

/// The file since which marks are due, and the first index.
fn due(traces: &GroupTraces, group: u64) -> Option<(Option<u64>, u128)> {
    let trace = traces.get(group)?;
    Some((trace.since(), trace.low()))
}

fn kept(traces: &GroupTraces, group: u64) -> Option<u64> {
    traces.get(group)?.least_file()
}

fn entries_before(traces: &GroupTraces, group: u64, file: u64) -> Option<(u128, u128)> {
    traces.get(group)?.entries_before(file)
}

fn keys_before(traces: &GroupTraces, alloc: Global, group: u64, file: u64) -> Answer {
    match traces.get(group) {
        Some(trace) => Answer::shown(alloc, &trace.keys_before(alloc, file)),
        None => Answer::Word("None"),
    }
}

fn groups_before(traces: &GroupTraces, file: u64) -> Result<Vec<u64>, AllocError> {
    traces.groups_before(file)
}

fn least(traces: &GroupTraces) -> Option<u64> {
    traces.min_file_seq()
}

/// The answer to a row that asks what is kept.
fn asked(traces: &GroupTraces, alloc: Global, words: &[&str]) -> Option<Answer> {
    Some(match *words {
        ["due", group] => Answer::shown(alloc, &due(traces, number(group))),
        ["kept", group] => Answer::shown(alloc, &kept(traces, number(group))),
        ["least"] => Answer::shown(alloc, &least(traces)),
        ["groups-before", file] => Answer::shown(alloc, &groups_before(traces, number(file))),
        ["entries-before", group, file] => {
            Answer::shown(alloc, &entries_before(traces, number(group), number(file)))
        }
        ["keys-before", group, file] => keys_before(traces, alloc, number(group), number(file)),
        _ => return None,
    })
}
