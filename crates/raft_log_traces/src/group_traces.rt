//! What the log engine keeps of every group for cleaning.

ghost use Rattle.std.specs.Prelude.{◌≡◌, ℕ, take, MatchOption, OnOk, OnErr};
ghost use Rattle.raft_log_records.specs.Item.{item_of, items_of};
ghost use Rattle.raft_log_covers.specs.Kept.{new_trace, traces_after, traces_after_item};
ghost use Rattle.raft_log_traces.specs.Alike.{AreAlike};
ghost use Rattle.raft_log_traces.specs.Traces.{trace_in, traces_at};
ghost use Rattle.raft_log_traces.specs.GroupTraces.{traces_in};

use crate::group_trace::GroupTrace;
use raft_log_records::{FileSeq, LogItem};
use std::alloc::{AllocError, Global};
use std::collections::BTreeMap;

/// The traces of all groups of which something was written.
pub(crate) type TraceMap = BTreeMap<u64, GroupTrace>;

/// What an item says was written to a file.
fn apply_item(
    alloc: Global,
    traces: &mut TraceMap,
    file: FileSeq,
    item: &LogItem,
) -> Result<(), AllocError>
    ensures ok { OnOk result (AreAlike (traces_after_item file (item_of item.now) (traces_at traces.old)) (traces_at traces.new)) }
    ensures err { OnErr result (AreAlike (traces_at traces.old) (traces_at traces.new)) }
{
    if let Some(trace) = traces.get_mut(&item.raft_group_id) {
        return trace.change(alloc, file, &item.content);
    }
    let mut trace = GroupTrace::new(alloc);
    trace.change(alloc, file, &item.content)?;
    traces.insert(item.raft_group_id, trace)?;
    Ok(())
}

/// What the log engine keeps of every group for cleaning (own). It goes beside the memtables, also
/// for groups that were cleaned and aren't there.
#[derive(Drop)]
pub struct GroupTraces {
    pub(crate) traces: TraceMap,
    pub(crate) alloc: Global,
}

impl GroupTraces {
    /// Nothing was ever written.
    #[tactic(auto, unfolding(crate::specs::GroupTraces::traces_in))]
    pub fn new(alloc: Global) -> GroupTraces
        ensures { (group : ℕ) → traces_in result group ≡ new_trace }
    {
        GroupTraces {
            traces: BTreeMap::new(alloc),
            alloc,
        }
    }

    /// What is kept of a group, if anything was written of it.
    #[tactic(auto, unfolding(crate::specs::GroupTraces::traces_in, crate::specs::Traces::trace_in))]
    pub fn get(&self, raft_group_id: u64) -> Option<&GroupTrace>
        ensures { MatchOption result (traces_in self.now raft_group_id ≡ new_trace) (λ t. traces_in self.now raft_group_id ≡ trace_in t.now) }
    {
        self.traces.get(&raft_group_id)
    }

    /// A batch with these items was written to an append file. An `Err`, for want of memory, leaves
    /// what some of the items make, from the first one on.
    pub fn apply(&mut self, file: FileSeq, items: &[LogItem]) -> Result<(), AllocError>
        ensures ok { OnOk result (AreAlike (traces_after file (items_of items.now) (traces_in self.old)) (traces_in self.new)) }
        ensures err { OnErr result ((n : ℕ) × AreAlike (traces_after file (items_of (take n items.now)) (traces_in self.old)) (traces_in self.new)) }
    {
        for item in items {
            apply_item(self.alloc, &mut self.traces, file, item)?;
        }
        Ok(())
    }
}
