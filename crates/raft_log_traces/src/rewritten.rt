//! What becomes of traces once cleaning has written something of a group.

ghost use Rattle.std.specs.Prelude.{◌≡◌, ◌<◌, ℕ, None};
ghost use Rattle.raft_log_covers.specs.Trace.{trace_marked, trace_rewritten, trace_put};
ghost use Rattle.raft_log_covers.specs.Kept.{new_trace, with_trace};
ghost use Rattle.raft_log_traces.specs.Alike.{IsAlike, AreAlike};
ghost use Rattle.raft_log_traces.specs.Traces.{trace_of, traces_at};
ghost use Rattle.raft_log_traces.specs.GroupTraces.{traces_in};

use crate::group_trace::{GroupTrace, later};
use crate::group_traces::{GroupTraces, TraceMap};
use crate::runs::drop_before;

impl GroupTrace {
    /// The group's marks were written.
    pub(crate) fn set_marked(&mut self)
        ensures { IsAlike (trace_marked (trace_of self.old)) (trace_of self.new) }
    {
        self.since = None;
        if self.next <= self.low {
            self.tail = None;
        }
        self.cleaned = false;
        self.deleted.clear();
    }

    /// The group's entries up to before an index were rewritten, from the first one on that stood in
    /// an append file, or from an earlier one on.
    pub(crate) fn set_rewritten(&mut self, stop: u128)
        ensures { (first : ℕ) → ((i : ℕ) → i < first → (trace_of self.old).entry_file i ≡ None)
            → IsAlike (trace_rewritten first stop (trace_of self.old)) (trace_of self.new) }
    {
        self.floor = later(self.floor, stop);
        drop_before(&mut self.runs, self.floor);
        if self.next <= stop {
            self.tail = None;
        }
    }

    /// A key of the group was rewritten.
    pub(crate) fn set_key_rewritten(&mut self, key: &[u8])
        ensures { IsAlike (trace_put key.now (trace_of self.old)) (trace_of self.new) }
    {
        self.keys.remove(key);
    }
}

fn mark(traces: &mut TraceMap, raft_group_id: u64)
    ensures { AreAlike (with_trace raft_group_id (trace_marked (traces_at traces.old raft_group_id)) (traces_at traces.old)) (traces_at traces.new) }
{
    if let Some(trace) = traces.get_mut(&raft_group_id) {
        trace.set_marked();
    }
}

fn rewrite(traces: &mut TraceMap, raft_group_id: u64, stop: u128)
    ensures { (first : ℕ) → ((i : ℕ) → i < first → (traces_at traces.old raft_group_id).entry_file i ≡ None)
        → AreAlike (with_trace raft_group_id (trace_rewritten first stop (traces_at traces.old raft_group_id)) (traces_at traces.old)) (traces_at traces.new) }
{
    if let Some(trace) = traces.get_mut(&raft_group_id) {
        trace.set_rewritten(stop);
    }
}

fn rewrite_key(traces: &mut TraceMap, raft_group_id: u64, key: &[u8])
    ensures { AreAlike (with_trace raft_group_id (trace_put key.now (traces_at traces.old raft_group_id)) (traces_at traces.old)) (traces_at traces.new) }
{
    if let Some(trace) = traces.get_mut(&raft_group_id) {
        trace.set_key_rewritten(key);
    }
}

impl GroupTraces {
    /// The marks of a group that is there were written to the rewrite queue.
    #[tactic(auto, unfolding(crate::specs::GroupTraces::traces_in))]
    pub fn set_marked(&mut self, raft_group_id: u64)
        ensures { AreAlike (with_trace raft_group_id (trace_marked (traces_in self.old raft_group_id)) (traces_in self.old)) (traces_in self.new) }
    {
        mark(&mut self.traces, raft_group_id);
    }

    /// The mark of a group that isn't there, a `Clean`, was written to the rewrite queue.
    #[tactic(auto, unfolding(crate::specs::GroupTraces::traces_in), using(crate::proofs::TableLemmas::changed_group))]
    pub fn forget(&mut self, raft_group_id: u64)
        ensures { AreAlike (with_trace raft_group_id new_trace (traces_in self.old)) (traces_in self.new) }
    {
        self.traces.remove(&raft_group_id);
    }

    /// Entries of a group up to before an index were rewritten, from the first one on that stood in
    /// an append file, or from an earlier one on.
    #[tactic(auto, unfolding(crate::specs::GroupTraces::traces_in))]
    pub fn set_rewritten(&mut self, raft_group_id: u64, stop: u128)
        ensures { (first : ℕ) → ((i : ℕ) → i < first → (traces_in self.old raft_group_id).entry_file i ≡ None)
            → AreAlike (with_trace raft_group_id (trace_rewritten first stop (traces_in self.old raft_group_id)) (traces_in self.old)) (traces_in self.new) }
    {
        rewrite(&mut self.traces, raft_group_id, stop);
    }

    /// A key of a group was rewritten.
    #[tactic(auto, unfolding(crate::specs::GroupTraces::traces_in))]
    pub fn set_key_rewritten(&mut self, raft_group_id: u64, key: &[u8])
        ensures { AreAlike (with_trace raft_group_id (trace_put key.now (traces_in self.old raft_group_id)) (traces_in self.old)) (traces_in self.new) }
    {
        rewrite_key(&mut self.traces, raft_group_id, key);
    }
}
